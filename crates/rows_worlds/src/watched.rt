//! A site in memory that notes what is done to it.

ghost use Rattle.std.specs.Prelude.{◌≡◌};
ghost use Rattle.sim.specs.World.{world_of};

use model::{Act, Event, Finished, SiteFault};
use sim::{Sim, Toy};
use site::{Site, Texts};
use std::alloc::{AllocError, Global};
use std::str;
use text::Bytes;

/// A site in memory, and a line for each call that its history shows, in order.
#[derive(Drop)]
pub struct Watched {
    alloc: Global,
    site: Sim<Toy>,
    calls: String,
    /// Whether there was no memory for a line.
    lost: bool,
}

impl Watched {
    pub fn new(alloc: Global, site: Sim<Toy>) -> Watched
        ensures { world_of result.site ≡ world_of site }
    {
        Watched {
            alloc,
            site,
            calls: String::new(alloc),
            lost: false,
        }
    }

    /// Tells the lines, if there was memory for all of them.
    pub fn push_calls(&self, told: &mut Vec<u8>) -> Result<(), AllocError> {
        if self.lost {
            return Err(AllocError);
        }
        told.extend_from_slice(self.calls.as_bytes())
    }

    /// What the file at the path holds.
    pub fn content(&self, path: &str) -> Option<&Bytes> {
        self.site.content(path)
    }

    fn note(&mut self, call: &str, path: &str, bytes: &[u8])
        ensures { self.new.site ≡ self.old.site }
    {
        if push_line(&mut self.calls, call, path, bytes).is_err() {
            self.lost = true;
        }
    }

    fn note_stamp(&mut self, stamp: u64)
        ensures { self.new.site ≡ self.old.site }
    {
        match format!(in self.alloc; "{stamp}") {
            Ok(text) => self.note("under", text.as_str(), b""),
            Err(_) => self.lost = true,
        }
    }
}

/// The call, its path, a colon, the bytes and a bar.
fn push_line(lines: &mut String, call: &str, path: &str, bytes: &[u8]) -> Result<(), AllocError> {
    lines.push_str(call)?;
    lines.push_str(" ")?;
    lines.push_str(path)?;
    lines.push_str(":")?;
    lines.push_str(str::from_utf8(bytes).unwrap_or("no text"))?;
    lines.push_str("|")
}

impl Texts for Watched {
    ghost use Rattle.std.specs.Prelude.{true};

    ghost tells = { true };

    ghost world = { λ watched. world_of watched.site };

    fn read(&mut self, path: &str) -> Result<Option<Bytes>, SiteFault> {
        self.site.read(path)
    }

    fn failures(&self) -> u64 {
        self.site.failures()
    }
}

impl Site for Watched {
    ghost use Rattle.sim.specs.Toy.{toy_outcome};

    ghost outcome = { toy_outcome };

    fn stat(&mut self, path: &str) -> Result<Option<u64>, SiteFault> {
        self.site.stat(path)
    }

    fn tick(&mut self, path: &str) -> Result<u64, SiteFault> {
        self.note("tick", path, b"");
        let ticked = self.site.tick(path);
        if let Ok(stamp) = ticked {
            self.note_stamp(stamp);
        }
        ticked
    }

    fn append(&mut self, path: &str, bytes: &[u8]) -> Result<(), SiteFault> {
        self.note("append", path, bytes);
        self.site.append(path, bytes)
    }

    fn replace(&mut self, path: &str, content: &[u8]) -> Result<(), SiteFault> {
        self.note("replace", path, content);
        self.site.replace(path, content)
    }

    fn write(&mut self, path: &str, content: &[u8]) -> Result<(), SiteFault> {
        self.note("write", path, content);
        self.site.write(path, content)
    }

    fn remove(&mut self, path: &str) -> Result<(), SiteFault> {
        self.note("remove", path, b"");
        self.site.remove(path)
    }

    fn make_dirs(&mut self, path: &str) -> Result<(), SiteFault> {
        self.site.make_dirs(path)
    }

    fn start(&mut self, job: usize, act: &Act, console: bool) -> Result<(), SiteFault> {
        match act.command.to_text(self.alloc) {
            Ok(command) => self.note("start", command.as_str(), act.depfile.as_str().as_bytes()),
            Err(_) => self.lost = true,
        }
        self.site.start(job, act, console)
    }

    fn wait_any(&mut self) -> Result<Finished, SiteFault> {
        let ended = self.site.wait_any();
        match &ended {
            Ok(Finished { ok: true, .. }) => self.note("wait", "well", b""),
            Ok(Finished { ok: false, .. }) => self.note("wait", "failed", b""),
            Err(_) => self.note("wait", "fault", b""),
        }
        ended
    }

    fn show(&mut self, text: &[u8]) -> Result<(), SiteFault> {
        self.site.show(text)
    }

    fn restart(&mut self) {
        self.note("restart", "", b"");
        self.site.restart()
    }

    fn events(&self) -> &[Event] {
        self.site.events()
    }
}
