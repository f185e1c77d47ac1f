//! The site of the stand-in: it starts nothing while the machine has too much to do, and shows lines as ninja does.

ghost use Rattle.std.specs.Prelude.{◌≡◌, IfOk, false};
ghost use Rattle.host.specs.World.{world_of, fresh};

use crate::place::Place;
use host::Host;
use measure::{Measure, Measured};
use model::{Act, Event, Finished, SiteFault};
use ninja_words::{Front, Screen};
use nj_run::Alone;
use paths::Manifest;
use site::{Site, Texts};
use std::alloc::Global;
use std::io::Write;
use std::time::Duration;
use std::{io, str, thread};
use text::{Bytes, Takes};

/// How long it is waited between two looks, in thousandths of a second.
const REST: u64 = 50;

/// So often the load is looked at before a start, which is no limit.
const MOST_LOOKS: u64 = 1 << 62;

/// A site that waits with a start while the load is above a limit and a command that was started has not ended, and that shows what is
/// made of texts by a [`Screen`].
#[derive(Drop)]
pub struct Patient<'a, W> {
    rt: &'a HostRuntime,
    site: Host<'a, &'a mut W>,
    screen: Screen<'a>,
    /// The limit; none is none, and so is one that is not above zero.
    limit: Option<f64>,
}

/// The working folder, where no command was started. What is shown goes to the writer, with rows below it where that is a terminal on which
/// they are drawn.
pub fn site_here<'x, W: Write + Drop>(
    alloc: Global,
    rt: &'x HostRuntime,
    out: &'x mut W,
    front: Front<'x>,
    limit: Option<f64>,
) -> io::Result<Patient<'x, W>>
    ensures { IfOk result (λ patient. world_of patient.site ≡ fresh) }
{
    let screen = Screen::new(rt, alloc, front)?;
    let pattern = front.heading.counted(alloc)?;
    let mut host = Host::new(alloc, rt, out);
    host.draw(
        front.look(),
        str::from_utf8(pattern.as_slice()).unwrap_or(""),
    );
    Ok(Patient {
        rt,
        site: host,
        screen,
        limit: limit.filter(|limit| *limit > 0.0),
    })
}

impl<'a, W: Write + Drop> Patient<'a, W> {
    /// Gives the site back.
    pub fn into_site(self) -> Host<'a, &'a mut W> {
        let Patient { site, .. } = self;
        site
    }

    /// Waits until the load is not above the limit, or each command that was started has ended.
    fn wait_for_rest(&mut self)
        ensures { world_of self.new.site ≡ world_of self.old.site }
    {
        let Some(limit) = self.limit else {
            return;
        };
        for _ in 0..MOST_LOOKS {
            if !self.site.should_wait(limit) {
                return;
            }
            thread::sleep(self.rt, Duration::from_millis(REST));
        }
    }
}

impl<'a, W: Write + Drop> Texts for Patient<'a, W> {
    ghost tells = { false };

    ghost world = { λ patient. world_of patient.site };

    fn read(&mut self, path: &str) -> Result<Option<Bytes>, SiteFault> {
        self.site.read(path)
    }

    fn read_into<T: Takes>(&mut self, path: &str, taker: &mut T) -> Result<(), SiteFault> {
        self.site.read_into(path, taker)
    }

    fn failures(&self) -> u64 {
        self.site.failures()
    }
}

impl<'a, W: Write + Drop> Site for Patient<'a, W> {
    ghost use Rattle.host.specs.World.{any_outcome};

    ghost outcome = { any_outcome };

    fn stat(&mut self, path: &str) -> Result<Option<u64>, SiteFault> {
        self.site.stat(path)
    }

    fn tick(&mut self, path: &str) -> Result<u64, SiteFault> {
        self.site.tick(path)
    }

    fn append(&mut self, path: &str, bytes: &[u8]) -> Result<(), SiteFault> {
        self.site.append(path, bytes)
    }

    fn replace(&mut self, path: &str, content: &[u8]) -> Result<(), SiteFault> {
        self.site.replace(path, content)
    }

    fn write(&mut self, path: &str, content: &[u8]) -> Result<(), SiteFault> {
        self.site.write(path, content)
    }

    fn remove(&mut self, path: &str) -> Result<(), SiteFault> {
        self.site.remove(path)
    }

    fn make_dirs(&mut self, path: &str) -> Result<(), SiteFault> {
        self.site.make_dirs(path)
    }

    fn start(&mut self, job: usize, act: &Act, console: bool) -> Result<(), SiteFault> {
        self.wait_for_rest();
        self.site.start(job, act, console)
    }

    fn wait_any(&mut self) -> Result<Finished, SiteFault> {
        self.site.wait_any()
    }

    /// Where there is no memory for what is made of it, the text goes out as it is.
    fn show(&mut self, text: &[u8]) -> Result<(), SiteFault> {
        match self.screen.shown(text) {
            Ok(shown) => self.site.show(shown.as_slice()),
            Err(_) => self.site.show(text),
        }
    }

    fn restart(&mut self) {
        self.site.restart()
    }

    fn events(&self) -> &[Event] {
        self.site.events()
    }
}

impl<'a, W: Write + Drop> Measured for Patient<'a, W> {
    fn measure(&mut self, path: &str) -> Result<Option<Measure>, SiteFault> {
        self.site.measure(path)
    }

    fn read_measured(&mut self, path: &str) -> Result<Option<(Bytes, Measure)>, SiteFault> {
        self.site.read_measured(path)
    }

    fn now(&self) -> u64 {
        self.site.now()
    }
}

impl<'a, W: Write + Drop> Alone for Patient<'a, W> {
    fn enter(&mut self) {
        self.site.enter()
    }

    fn has_waited(&mut self, folder: &str) -> bool {
        self.site.has_waited(folder)
    }

    fn learn(&mut self, alloc: Global, manifest: &Manifest, verbose: bool) {
        self.site.learn(alloc, manifest, verbose)
    }
}

impl<'a, W: Write + Drop> Place for Patient<'a, W> {
    fn run_generator(&mut self, act: &Act) -> Result<bool, SiteFault> {
        self.site.run_generator(act)
    }

    fn should_wait(&mut self, limit: f64) -> bool {
        self.site.should_wait(limit)
    }
}
