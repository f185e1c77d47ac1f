//! A site in memory on which somebody puts files under old stamps, also while commands run.

ghost use Rattle.std.specs.Prelude.{◌≡◌, false};
ghost use Rattle.sim.specs.World.{world_of};
ghost use Rattle.rows_seen.specs.Files.{OnlyFiles};

use meanwhile::{Clean, Random, Source, edges_of, name_trouble};
use measure::{Measure, Measured};
use model::{Act, Event, Finished, SiteFault};
use sim::{Call, Sim, Timing, Toy};
use site::{Site, Texts};
use std::alloc::{AllocError, Global};
use tables::unescaped;
use text::Bytes;

/// A file that is deleted so often that old stamps are earlier than those of all that is written. No edge names it.
const MARK: &str = ".mark";

/// How many old stamps there are.
const OLD: u64 = 997;

/// A site in memory on which files may have another stamp than that of their write: somebody puts them there under an old one, as a program
/// that unpacks an archive does, and may do so at the end of each call. To contracts it does not tell its files.
#[derive(Drop)]
pub struct Dated<'a> {
    alloc: Global,
    site: Sim<Toy>,
    source: Source<'a>,
    random: Random,
    dates: Vec<Date>,
    /// What is put in place while the next command runs.
    coming: Option<Coming<'a>>,
    /// How many files were put under an old stamp. No two have the same one.
    given: u64,
    /// Somebody writes in one of so many calls, and never where it is 0.
    seldom: usize,
    /// Whether there was no memory for a write of its own.
    lost: bool,
}

/// A file of this content at the path has this stamp, or that of its write where it is none. What is put there once more has another one than
/// before: of what is changed and put back with its stamp, between two looks, nothing can be seen.
#[derive(Drop)]
struct Date {
    path: String,
    content: Bytes,
    /// The stamp of the write, where this is of one file alone. Else it is of each that holds this.
    placed: Option<u64>,
    stamp: Option<u64>,
}

/// What somebody puts in place while a command runs, under this stamp or that of the write.
#[derive(Clone, Copy)]
pub struct Coming<'a> {
    pub path: &'a str,
    pub stamp: Option<u64>,
    /// A text of a row, with its escapes.
    pub text: &'a str,
}

impl<'a> Dated<'a> {
    /// A site on which nothing has happened, and nobody writes.
    pub fn new(alloc: Global, source: Source<'a>, seed: u64) -> Dated<'a> {
        Dated {
            alloc,
            site: Sim::new(alloc, Toy),
            source,
            random: Random::new(seed),
            dates: Vec::new(alloc),
            coming: None,
            given: 0,
            seldom: 0,
            lost: false,
        }
    }

    /// From now on what is written has a later stamp than each old one.
    pub fn grow_old(&mut self) -> Result<(), AllocError> {
        self.grow(OLD)
    }

    /// From now on what is written has a later stamp than this one.
    pub fn grow(&mut self, stamp: u64) -> Result<(), AllocError> {
        erase_often(&mut self.site, stamp.saturating_add(1))
    }

    /// The build file becomes that of this line of edges.
    pub fn put_graph(&mut self, edges: &str) -> Result<(), AllocError> {
        meanwhile::put_edges(self.alloc, &mut self.site, edges)
    }

    /// Each source that is absent is written.
    pub fn bring_back(&mut self) -> Result<(), AllocError> {
        for path in self.source.sources.split(' ') {
            if self.site.content(path).is_none() {
                bring(&mut self.site, path)?;
            }
        }
        Ok(())
    }

    /// Somebody deletes a file.
    pub fn erase(&mut self, path: &str) -> Result<(), AllocError> {
        self.site.erase(path)
    }

    /// Somebody writes a source or deletes it, or puts it there under an old stamp.
    pub fn edit(&mut self) -> Result<(), AllocError>
        ensures { OnlyFiles (world_of self.old.site) (world_of self.new.site) }
    {
        let path = self.random.part(self.source.sources, ' ');
        if self.random.one_in(8) {
            return erase(&mut self.site, path);
        }
        let text = self.next_text(path)?;
        self.put(path, text.as_bytes())
    }

    /// Somebody writes what a command makes, or puts it there under an old stamp.
    pub fn write_output(&mut self) -> Result<(), AllocError>
        ensures { OnlyFiles (world_of self.old.site) (world_of self.new.site) }
    {
        let path = self.random.part(self.source.outputs, ' ');
        let text = format!(in self.alloc; "by hand {}", self.random.below(1000))?;
        self.put(path, text.as_bytes())
    }

    /// What a source holds next.
    fn next_text(&mut self, path: &str) -> Result<String, AllocError>
        ensures { self.new.site ≡ self.old.site }
    {
        if path.starts_with('u') {
            let first = self.random.part(self.source.sources, ' ');
            let second = self.random.part(self.source.sources, ' ');
            return format!(in self.alloc; "use {first}\nuse {second}\n");
        }
        format!(in self.alloc; "{path}{}", self.random.below(3))
    }

    /// Somebody writes the file, now or under an old stamp.
    fn put(&mut self, path: &str, content: &[u8]) -> Result<(), AllocError>
        ensures { OnlyFiles (world_of self.old.site) (world_of self.new.site) }
    {
        put(&mut self.site, path, content)?;
        let stamp = self.next_stamp();
        self.date(path, content, None, stamp)
    }

    /// An old stamp, or none where the next write is to have its own.
    fn next_stamp(&mut self) -> Option<u64>
        ensures { self.new.site ≡ self.old.site }
    {
        if self.random.one_in(2) {
            return None;
        }
        self.given = self.given.wrapping_add(1);
        Some(old_stamp(self.given))
    }

    /// The file that stands at the path has this stamp, or that of its write.
    fn date(
        &mut self,
        path: &str,
        content: &[u8],
        placed: Option<u64>,
        stamp: Option<u64>,
    ) -> Result<(), AllocError>
        ensures { self.new.site ≡ self.old.site }
    {
        let path = String::from_str(self.alloc, path)?;
        let content = Bytes::from_slice(self.alloc, content)?;
        self.dates.push(Date {
            path,
            content,
            placed,
            stamp,
        })?;
        Ok(())
    }

    /// A build file gets the rules, and these edges.
    pub fn put_edges(&mut self, file: &str, edges: &str) -> Result<(), AllocError> {
        let bytes = edges_of(self.alloc, edges)?;
        self.site.put(file, bytes.as_slice())
    }

    /// Somebody writes the file while nothing is built, under this stamp or that of the write.
    pub fn put_under(
        &mut self,
        path: &str,
        content: &[u8],
        stamp: Option<u64>,
    ) -> Result<(), AllocError> {
        self.site.put(path, content)?;
        let placed = self.placed(path);
        self.date(path, content, placed, stamp)
    }

    /// When the file at the path was written, while nothing is built.
    fn placed(&mut self, path: &str) -> Option<u64> {
        self.site.stat(path).unwrap_or(None)
    }

    /// The stamp of the file at the path, while nothing is built.
    pub fn stamp(&mut self, path: &str) -> Option<u64> {
        let placed = self.placed(path);
        self.measured(path, placed).map(|found| found.stamp)
    }

    /// The file at the path, if there is one, goes away while nothing is built, and comes back under this stamp.
    pub fn bring_again(&mut self, path: &str, stamp: Option<u64>) -> Result<(), AllocError> {
        let Some(content) = self.copy(path)? else {
            return Ok(());
        };
        self.site.erase(path)?;
        self.put_under(path, content.as_slice(), stamp)
    }

    /// A copy of what the file at the path holds.
    fn copy(&self, path: &str) -> Result<Option<Bytes>, AllocError> {
        match self.site.content(path) {
            Some(content) => Ok(Some(content.clone()?)),
            None => Ok(None),
        }
    }

    /// While the next command runs, somebody puts this in place.
    pub fn let_come(&mut self, coming: Coming<'a>) {
        self.coming = Some(coming);
    }

    /// From now on commands read and write when they start.
    pub fn read_early(&mut self) {
        self.site.timing(Timing::Early);
    }

    /// The site stops in a call of this kind, as `Sim::stop_at` says.
    pub fn stop_at(&mut self, call: Call, number: u64, bytes: usize) -> Result<(), AllocError> {
        self.site.stop_at(call, number, bytes)
    }

    /// From now on somebody writes in one of so many calls.
    pub fn come(&mut self, seldom: usize) {
        self.seldom = seldom;
    }

    /// Nobody writes any more, and nothing goes wrong.
    pub fn leave(&mut self) {
        self.seldom = 0;
        self.coming = None;
        self.site.forget_faults();
    }

    /// How the site goes on, and what goes wrong in the next build.
    pub fn name_trouble(&mut self, random: &mut Random) -> Result<(), AllocError> {
        name_trouble(&mut self.site, random)
    }

    /// What a clean build of the files gives.
    pub fn clean_build(&mut self) -> Result<Option<Clean>, AllocError> {
        Clean::of(self.alloc, &mut self.site, self.source)
    }

    /// What a clean build of the files gives, by this build file. Of the site nothing is asked.
    pub fn clean_build_by(&self, file: &str) -> Result<Option<Clean>, AllocError> {
        let mut plain = Sim::new(self.alloc, Toy);
        let clean = self.clean_on(&mut plain, file);
        clean
    }

    fn clean_on(&self, plain: &mut Sim<Toy>, file: &str) -> Result<Option<Clean>, AllocError> {
        self.copy_to(plain, file, "build.ninja")?;
        for path in self.source.sources.split(' ') {
            self.copy_to(plain, path, path)?;
        }
        Clean::of(self.alloc, plain, self.source)
    }

    fn copy_to(&self, plain: &mut Sim<Toy>, path: &str, to: &str) -> Result<(), AllocError> {
        match self.site.content(path) {
            Some(content) => plain.put(to, content.as_slice()),
            None => Ok(()),
        }
    }

    /// Whether the site has at the path what the clean build leaves there.
    pub fn has(&self, clean: &Clean, path: &str) -> bool {
        clean.is_at(&self.site, path)
    }

    /// How many files were put under an old stamp.
    pub fn given(&self) -> u64 {
        self.given
    }

    /// That there was memory for all that is no part of a build.
    pub fn check(&self) -> Result<(), AllocError> {
        if self.lost || self.site.lost() {
            return Err(AllocError);
        }
        Ok(())
    }

    /// A call has ended: somebody may write.
    fn pause(&mut self)
        ensures { OnlyFiles (world_of self.old.site) (world_of self.new.site) }
    {
        if self.write_now().is_err() {
            self.lost = true;
        }
    }

    /// Somebody writes what is to come, or may edit a source.
    fn write_now(&mut self) -> Result<(), AllocError>
        ensures { OnlyFiles (world_of self.old.site) (world_of self.new.site) }
    {
        match self.take_coming() {
            Some(coming) => self.put_coming(coming),
            None => self.may_edit(),
        }
    }

    /// What is to come, if a command was started right now. It comes once.
    fn take_coming(&mut self) -> Option<Coming<'a>>
        ensures { self.new.site ≡ self.old.site }
    {
        if self.coming.is_none() || !ends_with_start(self.site.events()) {
            return None;
        }
        self.coming.take()
    }

    fn put_coming(&mut self, coming: Coming<'a>) -> Result<(), AllocError>
        ensures { OnlyFiles (world_of self.old.site) (world_of self.new.site) }
    {
        let content = unescaped(self.alloc, coming.text)?;
        put(&mut self.site, coming.path, content.as_slice())?;
        self.date(coming.path, content.as_slice(), None, coming.stamp)
    }

    fn may_edit(&mut self) -> Result<(), AllocError>
        ensures { OnlyFiles (world_of self.old.site) (world_of self.new.site) }
    {
        if self.seldom == 0 || !self.random.one_in(self.seldom) {
            return Ok(());
        }
        self.edit()
    }

    /// What stands at the path, where this is the stamp of its last write.
    fn measured(&self, path: &str, placed: Option<u64>) -> Option<Measure> {
        let placed = placed?;
        let content = self.site.content(path)?;
        let content = content.as_slice();
        Some(Measure {
            stamp: self.stamp_at(path, content, placed),
            size: Some(content.len() as u64),
            placed,
        })
    }

    /// The stamp of a file of this content, which was written under this one.
    fn stamp_at(&self, path: &str, content: &[u8], placed: u64) -> u64 {
        let mut stamp = placed;
        for date in &self.dates {
            if date.is_of(path, content, placed) {
                stamp = date.stamp.unwrap_or(placed);
            }
        }
        stamp
    }
}

impl Date {
    /// Whether it is that of a file of this content, which was written at the path under this stamp.
    fn is_of(&self, path: &str, content: &[u8], placed: u64) -> bool {
        self.path.as_str() == path
            && self.content.as_slice() == content
            && self.placed.unwrap_or(placed) == placed
    }
}

/// Whether the last of these events is a start.
fn ends_with_start(events: &[Event]) -> bool {
    match events.last() {
        Some(last) => matches!(last, Event::Start { .. }),
        None => false,
    }
}

/// One of the old stamps, each of which comes once before the first comes again.
fn old_stamp(number: u64) -> u64 {
    let place = number.wrapping_mul(37).checked_rem(OLD).unwrap_or(0);
    place.saturating_add(1)
}

fn put(site: &mut Sim<Toy>, path: &str, content: &[u8]) -> Result<(), AllocError>
    ensures { OnlyFiles (world_of site.old) (world_of site.new) }
{
    site.put(path, content)?;
    Ok(())
}

fn erase(site: &mut Sim<Toy>, path: &str) -> Result<(), AllocError>
    ensures { OnlyFiles (world_of site.old) (world_of site.new) }
{
    site.erase(path)?;
    Ok(())
}

/// The source gets what it holds at first.
fn bring(site: &mut Sim<Toy>, path: &str) -> Result<(), AllocError> {
    site.put(path, path.as_bytes())
}

/// So many writes come, of the mark.
fn erase_often(site: &mut Sim<Toy>, count: u64) -> Result<(), AllocError> {
    for _ in 0..count {
        site.erase(MARK)?;
    }
    Ok(())
}

impl<'a> Texts for Dated<'a> {
    ghost tells = { false };

    ghost world = { λ dated. world_of dated.site };

    fn read(&mut self, path: &str) -> Result<Option<Bytes>, SiteFault> {
        let content = self.site.read(path)?;
        self.pause();
        Ok(content)
    }

    fn failures(&self) -> u64 {
        self.site.failures()
    }
}

impl<'a> Site for Dated<'a> {
    ghost use Rattle.sim.specs.Toy.{toy_outcome};

    ghost outcome = { toy_outcome };

    fn stat(&mut self, path: &str) -> Result<Option<u64>, SiteFault> {
        let placed = self.site.stat(path)?;
        let found = self.measured(path, placed);
        self.pause();
        Ok(found.map(|found| found.stamp))
    }

    fn tick(&mut self, path: &str) -> Result<u64, SiteFault> {
        let stamp = self.site.tick(path)?;
        self.pause();
        Ok(stamp)
    }

    fn append(&mut self, path: &str, bytes: &[u8]) -> Result<(), SiteFault> {
        self.site.append(path, bytes)?;
        self.pause();
        Ok(())
    }

    fn replace(&mut self, path: &str, content: &[u8]) -> Result<(), SiteFault> {
        self.site.replace(path, content)?;
        self.pause();
        Ok(())
    }

    fn write(&mut self, path: &str, content: &[u8]) -> Result<(), SiteFault> {
        self.site.write(path, content)?;
        self.pause();
        Ok(())
    }

    fn remove(&mut self, path: &str) -> Result<(), SiteFault> {
        self.site.remove(path)?;
        self.pause();
        Ok(())
    }

    fn make_dirs(&mut self, path: &str) -> Result<(), SiteFault> {
        self.site.make_dirs(path)?;
        self.pause();
        Ok(())
    }

    fn start(&mut self, job: usize, act: &Act, console: bool) -> Result<(), SiteFault> {
        self.site.start(job, act, console)?;
        self.pause();
        Ok(())
    }

    fn wait_any(&mut self) -> Result<Finished, SiteFault> {
        match self.site.wait_any() {
            Ok(finished) => {
                self.pause();
                Ok(finished)
            }
            Err(fault) => Err(fault),
        }
    }

    fn show(&mut self, text: &[u8]) -> Result<(), SiteFault> {
        self.site.show(text)?;
        self.pause();
        Ok(())
    }

    fn restart(&mut self) {
        self.site.restart();
    }

    fn events(&self) -> &[Event] {
        self.site.events()
    }
}

impl<'a> Measured for Dated<'a> {
    fn measure(&mut self, path: &str) -> Result<Option<Measure>, SiteFault> {
        let placed = self.site.stat(path)?;
        let found = self.measured(path, placed);
        self.pause();
        Ok(found)
    }

    fn read_measured(&mut self, path: &str) -> Result<Option<(Bytes, Measure)>, SiteFault> {
        let placed = self.site.stat(path)?;
        let found = self.measured(path, placed);
        let content = self.site.read(path)?;
        self.pause();
        match (content, found) {
            (Some(content), Some(found)) => Ok(Some((content, found))),
            _ => Ok(None),
        }
    }

    fn now(&self) -> u64 {
        0
    }
}
