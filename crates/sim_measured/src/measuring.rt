//! A site in memory that tells how long its files are.

ghost use Rattle.std.specs.Prelude.{◌≡◌, true, IfOk};
ghost use Rattle.model.specs.World.{view_of};
ghost use Rattle.sim.specs.World.{world_of};
ghost use Rattle.sim_measured.specs.Found.{found_by, read_by, size_of};

use measure::{Measure, Measured};
use model::{Act, Event, Finished, SiteFault};
use sim::{Sim, Toy};
use site::{Site, Texts};
use std::alloc::AllocError;
use text::Bytes;

/// A site in memory that tells how long its files are. Calls go through to it; a measure is one look for the stamp.
#[derive(Drop)]
pub struct Measuring {
    /// The site in memory.
    pub site: Sim<Toy>,
}

impl Measuring {
    /// The site around this one. This takes no memory.
    pub fn new(site: Sim<Toy>) -> Measuring
        ensures { result.site ≡ site }
    {
        Measuring { site }
    }
}

impl Texts for Measuring {
    ghost tells = { true };

    ghost world = { λ measuring. world_of measuring.site };

    fn read(&mut self, path: &str) -> Result<Option<Bytes>, SiteFault> {
        self.site.read(path)
    }

    fn failures(&self) -> u64 {
        self.site.failures()
    }
}

impl Site for Measuring {
    ghost use Rattle.sim.specs.Toy.{toy_outcome};

    ghost outcome = { toy_outcome };

    fn stat(&mut self, path: &str) -> Result<Option<u64>, SiteFault> {
        self.site.stat(path)
    }

    fn tick(&mut self, path: &str) -> Result<u64, SiteFault> {
        self.site.tick(path)
    }

    fn append(&mut self, path: &str, bytes: &[u8]) -> Result<(), SiteFault> {
        self.site.append(path, bytes)
    }

    fn replace(&mut self, path: &str, content: &[u8]) -> Result<(), SiteFault> {
        self.site.replace(path, content)
    }

    fn write(&mut self, path: &str, content: &[u8]) -> Result<(), SiteFault> {
        self.site.write(path, content)
    }

    fn remove(&mut self, path: &str) -> Result<(), SiteFault> {
        self.site.remove(path)
    }

    fn make_dirs(&mut self, path: &str) -> Result<(), SiteFault> {
        self.site.make_dirs(path)
    }

    fn start(&mut self, job: usize, act: &Act, console: bool) -> Result<(), SiteFault> {
        self.site.start(job, act, console)
    }

    fn wait_any(&mut self) -> Result<Finished, SiteFault> {
        self.site.wait_any()
    }

    fn show(&mut self, text: &[u8]) -> Result<(), SiteFault> {
        self.site.show(text)
    }

    fn restart(&mut self) {
        self.site.restart();
    }

    fn events(&self) -> &[Event] {
        self.site.events()
    }
}

impl Measured for Measuring {
    fn measure(&mut self, path: &str) -> Result<Option<Measure>, SiteFault> {
        let size = size_at(&self.site, path);
        let stamp = self.site.stat(path)?;
        Ok(measure_by(stamp, size))
    }

    fn read_measured(&mut self, path: &str) -> Result<Option<(Bytes, Measure)>, SiteFault> {
        let content = copy_at(&self.site, path);
        let stamp = self.site.stat(path)?;
        let content = content?;
        Ok(measure_with(stamp, content))
    }

    fn now(&self) -> u64 {
        0
    }
}

/// How long the file at the path is, or nothing where there is no file.
fn size_at(site: &Sim<Toy>, path: &str) -> Option<u64>
    ensures { result ≡ size_of (view_of (world_of site.now).history path.now) }
{
    match site.content(path) {
        Some(content) => Some(content.as_slice().len() as u64),
        None => None,
    }
}

/// A copy of what the file at the path holds, or nothing where there is no file.
fn copy_at(site: &Sim<Toy>, path: &str) -> Result<Option<Bytes>, AllocError>
    ensures { IfOk result (λ content. content ≡ view_of (world_of site.now).history path.now) }
{
    match site.content(path) {
        Some(content) => Ok(Some(content.clone()?)),
        None => Ok(None),
    }
}

/// The measure of a file of this stamp and length, if there is one.
fn measure_by(stamp: Option<u64>, size: Option<u64>) -> Option<Measure>
    ensures { result ≡ found_by stamp size }
{
    let Some(stamp) = stamp else {
        return None;
    };
    let Some(size) = size else {
        return None;
    };
    Some(Measure {
        stamp,
        size: Some(size),
        placed: stamp,
    })
}

/// What a file of this stamp holds, and its measure, if there is one.
fn measure_with(stamp: Option<u64>, content: Option<Bytes>) -> Option<(Bytes, Measure)>
    ensures { result ≡ read_by stamp content }
{
    let Some(stamp) = stamp else {
        return None;
    };
    let Some(content) = content else {
        return None;
    };
    let size = content.as_slice().len() as u64;
    let measure = Measure {
        stamp,
        size: Some(size),
        placed: stamp,
    };
    Some((content, measure))
}
