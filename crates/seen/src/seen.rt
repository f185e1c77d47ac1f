//! A site over a site.

ghost use Rattle.std.specs.Prelude.{◌≡◌, [], false, IsTrue, OnErr, OnOk};
ghost use Rattle.model.specs.Calls.{HasCause, KeepsWait};
ghost use Rattle.model.specs.World.{World};
ghost use Rattle.seen.specs.Asking.{Asks};
ghost use Rattle.seen_true.specs.Going.{NotesStand};
ghost use Rattle.seen.specs.Begun.{BeginsTold, told_world};
ghost use Rattle.seen.specs.Known.{known_of};
ghost use Rattle.seen.specs.Entering.{EntersSince, IsUnbegun};
ghost use Rattle.text.specs.Marks.{Lacks};

use crate::beginning::Beginning;
use crate::lines::{One, Told, one_in, told_by};
use crate::makers::Makers;
use crate::names::{is_build_log, is_log};
use crate::notes::Entry;
use crate::retold::Retold;
use log_text::{Field, fields};
use measure::Measured;
use model::{Act, Event, Finished};
use paths::Manifest;
use site::{Site, SiteFault, Texts};
use std::alloc::Global;
use text::{Bytes, Takes, cut};

/// A site over a site. Calls go through to it; what `stat` and `read` answer is by what counts (`Retold`), and what is seen is noted in
/// `.nj_seen`, a file beside the build log.
///
/// - It is made for one build, by what was read before ([`enter`]); or, on a site that does not tell its files, for builds one after another,
///   each of which begins where its build log is read. Before, files are as they are there.
/// - Which edge makes which output the build file says ([`Seen::know`]).
/// - What is to be noted is noted before the next record goes behind the build log or the deps log, in one append of its own. Where that fails,
///   no line is put behind the notes any more in that build.
///
/// As a site it tells its files where the one below does: those that count.
///
/// [`enter`]: crate::enter
#[derive(Drop)]
pub struct Seen<S: Measured, B: Beginning> {
    alloc: Global,
    pub retold: Retold<S, B>,
    /// What commands make in the build that is to begin next.
    next: Option<Makers>,
    /// Whether what is to be known could not be, so that no build begins.
    lost: bool,
}

impl<S: Measured, B: Beginning> Seen<S, B> {
    ghost use Rattle.seen.specs.First.{NotesBefore};
    ghost use Rattle.seen.specs.Noting.{Grows};

    /// The site over this one, for a build that begins with this. This takes no memory.
    pub fn over(alloc: Global, site: S, entry: Entry) -> Seen<S, B>
        requires unbegun { IsUnbegun entry.counts }
        requires knows { IsTrue S.tells → B.begun.knows ≡ known_of entry.counts }
        requires first { IsTrue S.tells → (S.world site).history ≡ B.begun.first }
        requires begins { IsTrue S.tells → BeginsTold B.begun }
        requires enters { EntersSince S.tells entry B.begun.asked (S.world site) }
        ensures { result.retold.site ≡ site }
    {
        Seen {
            alloc,
            retold: Retold::over(alloc, site, entry),
            next: None,
            lost: false,
        }
    }

    /// The site over this one, for builds one after another. This takes no memory.
    pub fn new(alloc: Global, site: S) -> Seen<S, B>
        requires untold { S.tells ≡ false }
        ensures { result.retold.site ≡ site }
    {
        Seen {
            alloc,
            retold: Retold::around(alloc, site),
            next: None,
            lost: false,
        }
    }

    /// A build by these build files is about to begin. Where there is no memory for what its commands make, it finds no memory once it reads
    /// its log.
    pub fn know(&mut self, manifest: &Manifest)
        ensures { self.new.retold.site ≡ self.old.retold.site }
    {
        self.retold.end();
        match Makers::of(self.alloc, manifest) {
            Ok(makers) => self.next = Some(makers),
            Err(_) => self.lost = true,
        }
    }

    /// A build begins that has read its build log at this path.
    fn begin(&mut self, log: &str) -> Result<(), SiteFault>
        requires running { (S.world self.old.retold.site).stopped ≡ false }
        requires many { self.old.retold.is_for_one ≡ false }
        ensures { Asks S.tells (told_world S.tells B.begun (S.world self.old.retold.site)) (told_world S.tells B.begun (S.world self.new.retold.site)) result }
    {
        let makers = self.next.take().unwrap_or(Makers::new(self.alloc));
        let Entry { counts, base } = self.retold.enter(self.alloc, makers, log)?;
        self.retold.begin(self.alloc, counts, base);
        Ok(())
    }

    /// The notes are true, wherever the build has come to. It does nothing: its contract is what this site keeps.
    pub fn notes_stand(&self)
        ensures { NotesStand S.tells B.begun (S.world self.now.retold.site) }
    {}

    /// The site below. What is known of paths is not taken apart: that is long in a large build, and a program that ends gives it back at once.
    pub fn into_site(self) -> S
        ensures { result ≡ self.retold.site }
    {
        let Seen { retold, .. } = self;
        retold.into_site()
    }

    /// Notes what is to be noted before these bytes go behind the file at this path, and puts the lines behind the notes.
    #[tactic(auto, using(crate::proofs::Answered::asks_both, crate::proofs::Answered::asks_fault))]
    fn note_before(&mut self, path: &str, bytes: &[u8]) -> Result<(), SiteFault>
        ensures asks { Asks S.tells (told_world S.tells B.begun (S.world self.old.retold.site)) (told_world S.tells B.begun (S.world self.new.retold.site)) result }
        ensures notes { OnOk result (NotesBefore S.tells B.begun S.world self.old.retold.known self.old.retold.noted self.old.retold.site self.new.retold.site) }
        ensures left { OnOk result (self.new.retold.noted.lines.items ≡ []) }
    {
        self.ask_for(path, bytes)?;
        self.retold.put_lines()?;
        Ok(())
    }

    /// Asks for what is to be noted before these bytes go behind the file at this path.
    #[tactic(auto, using(crate::proofs::Answered::asks_none, crate::proofs::Answered::refused_asks, crate::proofs::Growing::grows_none, crate::proofs::Putting::ok_never))]
    fn ask_for(&mut self, path: &str, bytes: &[u8]) -> Result<(), SiteFault>
        ensures asks { Asks S.tells (told_world S.tells B.begun (S.world self.old.retold.site)) (told_world S.tells B.begun (S.world self.new.retold.site)) result }
        ensures grows { OnOk result (Grows self.old.retold.noted.lines.items self.new.retold.noted.lines.items) }
        ensures own { self.new.retold.known.own ≡ self.old.retold.known.own }
    {
        if !is_log(path) {
            return Ok(());
        }
        let Some((line, _)) = cut(bytes, b'\n') else {
            return Ok(());
        };
        match one_in(line) {
            Some(One::Begun(output)) => self.note_made(path, output),
            Some(One::Done(output)) => self.ask_left(output),
            None => self.ask_by_fields(path, line),
        }
    }

    /// The same of the record of this line, by all its fields.
    #[tactic(auto, using(crate::proofs::Answered::asks_none, crate::proofs::Answered::refused_asks, crate::proofs::Growing::grows_none, crate::proofs::Putting::ok_never))]
    #[inline(never)]
    fn ask_by_fields(&mut self, path: &str, line: &[u8]) -> Result<(), SiteFault>
        requires { Lacks 10 line.now }
        ensures asks { Asks S.tells (told_world S.tells B.begun (S.world self.old.retold.site)) (told_world S.tells B.begun (S.world self.new.retold.site)) result }
        ensures grows { OnOk result (Grows self.old.retold.noted.lines.items self.new.retold.noted.lines.items) }
        ensures own { self.new.retold.known.own ≡ self.old.retold.known.own }
    {
        match fields(self.alloc, line) {
            Ok(Some(fields)) => self.note_record(path, fields.as_slice()),
            Ok(None) => Ok(()),
            Err(_) => Err(self.retold.refuse(path)),
        }
    }

    /// Notes what is to be noted before the record of these fields goes behind the file at this path.
    #[tactic(auto, using(crate::proofs::Answered::asks_none, crate::proofs::Answered::refused_asks, crate::proofs::Growing::grows_none, crate::proofs::Putting::ok_never))]
    fn note_record(&mut self, path: &str, fields: &[Field<'_>]) -> Result<(), SiteFault>
        ensures asks { Asks S.tells (told_world S.tells B.begun (S.world self.old.retold.site)) (told_world S.tells B.begun (S.world self.new.retold.site)) result }
        ensures grows { OnOk result (Grows self.old.retold.noted.lines.items self.new.retold.noted.lines.items) }
        ensures own { self.new.retold.known.own ≡ self.old.retold.known.own }
    {
        match told_by(fields) {
            Told::Begun(outputs) => self.note_start(path, outputs),
            Told::Done(_, outputs) => self.ask_made(outputs),
            Told::Read(_, paths) => self.ask_read(paths),
            Told::Nothing => Ok(()),
        }
    }

    /// The command that makes these outputs is about to start.
    #[tactic(auto, using(crate::proofs::Answered::asks_none, crate::proofs::Answered::refused_asks, crate::proofs::Growing::grows_none, crate::proofs::Putting::ok_never))]
    fn note_start(&mut self, path: &str, outputs: &[Field<'_>]) -> Result<(), SiteFault>
        ensures asks { Asks S.tells (told_world S.tells B.begun (S.world self.old.retold.site)) (told_world S.tells B.begun (S.world self.new.retold.site)) result }
        ensures noted { self.new.retold.noted ≡ self.old.retold.noted }
        ensures own { self.new.retold.known.own ≡ self.old.retold.known.own }
    {
        for output in outputs {
            if self.retold.make(self.alloc, output.as_str()).is_err() {
                return Err(self.retold.refuse(path));
            }
        }
        Ok(())
    }

    /// The command that makes this output is about to start.
    #[tactic(auto, using(crate::proofs::Answered::asks_none, crate::proofs::Answered::refused_asks, crate::proofs::Growing::grows_none, crate::proofs::Putting::ok_never))]
    fn note_made(&mut self, path: &str, output: &str) -> Result<(), SiteFault>
        ensures asks { Asks S.tells (told_world S.tells B.begun (S.world self.old.retold.site)) (told_world S.tells B.begun (S.world self.new.retold.site)) result }
        ensures noted { self.new.retold.noted ≡ self.old.retold.noted }
        ensures own { self.new.retold.known.own ≡ self.old.retold.known.own }
    {
        match self.retold.make(self.alloc, output) {
            Ok(()) => Ok(()),
            Err(_) => Err(self.retold.refuse(path)),
        }
    }

    /// Looks at these outputs, of a command that has ended well, and notes them as they count.
    #[tactic(auto, using(crate::proofs::Answered::asks_none, crate::proofs::Answered::asks_both, crate::proofs::Answered::asks_fault, crate::proofs::Growing::grows_none, crate::proofs::Growing::grows_then))]
    fn ask_made(&mut self, outputs: &[Field<'_>]) -> Result<(), SiteFault>
        ensures asks { Asks S.tells (told_world S.tells B.begun (S.world self.old.retold.site)) (told_world S.tells B.begun (S.world self.new.retold.site)) result }
        ensures grows { OnOk result (Grows self.old.retold.noted.lines.items self.new.retold.noted.lines.items) }
        ensures own { self.new.retold.known.own ≡ self.old.retold.known.own }
    {
        for output in outputs {
            self.ask_left(output.as_str())?;
        }
        Ok(())
    }

    #[tactic(auto, using(crate::proofs::Answered::asks_call))]
    fn ask_left(&mut self, output: &str) -> Result<(), SiteFault>
        ensures asks { Asks S.tells (told_world S.tells B.begun (S.world self.old.retold.site)) (told_world S.tells B.begun (S.world self.new.retold.site)) result }
        ensures grows { OnOk result (Grows self.old.retold.noted.lines.items self.new.retold.noted.lines.items) }
        ensures own { self.new.retold.known.own ≡ self.old.retold.known.own }
    {
        self.retold.see_left(output)
    }

    /// Asks for these paths, which a command told that it read, as far as that was not done in this build, and notes them.
    #[tactic(auto, using(crate::proofs::Answered::asks_none, crate::proofs::Answered::asks_both, crate::proofs::Answered::asks_fault, crate::proofs::Growing::grows_none, crate::proofs::Growing::grows_then))]
    fn ask_read(&mut self, paths: &[Field<'_>]) -> Result<(), SiteFault>
        ensures asks { Asks S.tells (told_world S.tells B.begun (S.world self.old.retold.site)) (told_world S.tells B.begun (S.world self.new.retold.site)) result }
        ensures grows { OnOk result (Grows self.old.retold.noted.lines.items self.new.retold.noted.lines.items) }
        ensures own { self.new.retold.known.own ≡ self.old.retold.known.own }
    {
        for path in paths {
            self.ask_once(path.as_str())?;
        }
        Ok(())
    }

    #[tactic(auto, using(crate::proofs::Answered::asks_none, crate::proofs::Answered::asks_more, crate::proofs::Answered::asks_fail, crate::proofs::Answered::asks_no_room, crate::proofs::Growing::grows_none, crate::proofs::Growing::grows_then))]
    fn ask_once(&mut self, path: &str) -> Result<(), SiteFault>
        ensures asks { Asks S.tells (told_world S.tells B.begun (S.world self.old.retold.site)) (told_world S.tells B.begun (S.world self.new.retold.site)) result }
        ensures grows { OnOk result (Grows self.old.retold.noted.lines.items self.new.retold.noted.lines.items) }
        ensures own { self.new.retold.known.own ≡ self.old.retold.known.own }
    {
        let last = self.retold.known.notes.last(path);
        if self.retold.known.is_made(path) || self.retold.noted.is_settled(path, last) {
            return Ok(());
        }
        self.retold.see(path)?;
        Ok(())
    }
}

impl<S: Measured, B: Beginning> Texts for Seen<S, B> {
    ghost tells = { S.tells };

    ghost world = { λ seen. told_world S.tells B.begun (S.world seen.retold.site) };

    fn read(&mut self, path: &str) -> Result<Option<Bytes>, SiteFault> {
        if self.lost {
            return Err(self.retold.refuse_read());
        }
        let content = self.retold.read(path)?;
        if is_build_log(path) && !self.retold.is_for_one {
            self.begin(path)?;
        }
        Ok(content)
    }

    fn read_into<T: Takes>(&mut self, path: &str, taker: &mut T) -> Result<(), SiteFault> {
        if self.lost {
            return Err(self.retold.refuse_read());
        }
        self.retold.read_into(path, taker)?;
        if is_build_log(path) && !self.retold.is_for_one {
            self.begin(path)?;
        }
        Ok(())
    }

    fn failures(&self) -> u64 {
        self.retold.failures()
    }
}

impl<S: Measured, B: Beginning> Site for Seen<S, B> {
    ghost use Rattle.seen.specs.First.{Follow};
    ghost use Rattle.seen.specs.ToldCalls.{AppendsTold, AppendsToldOrNot};

    ghost outcome = { S.outcome };

    // a call of its own, so that who asks for very many paths in a loop keeps what that loop holds in registers
    #[inline(never)]
    fn stat(&mut self, path: &str) -> Result<Option<u64>, SiteFault> {
        let looked = self.retold.see(path)?;
        Ok(looked.counts)
    }

    fn tick(&mut self, path: &str) -> Result<u64, SiteFault> {
        self.retold.tick(path)
    }

    fn append(&mut self, path: &str, bytes: &[u8]) -> Result<(), SiteFault>
        ensures cause { HasCause (told_world S.tells B.begun (S.world self.old.retold.site)) (told_world S.tells B.begun (S.world self.new.retold.site)) result }
        ensures waits { KeepsWait (told_world S.tells B.begun (S.world self.old.retold.site)) (told_world S.tells B.begun (S.world self.new.retold.site)) }
        ensures appends { OnOk result (AppendsTold S.tells B.begun path.now bytes.now (S.world self.old.retold.site) (S.world self.new.retold.site)) }
        ensures err { OnErr result (AppendsToldOrNot S.tells B.begun path.now bytes.now (S.world self.old.retold.site) (S.world self.new.retold.site)) }
        ensures noted { Follow S.tells B.begun S.world self.old.retold.known self.old.retold.noted self.old.retold.site self.new.retold.site path.now bytes.now result }
        ensures left { OnOk result (self.new.retold.noted.lines.items ≡ []) }
    {
        self.note_before(path, bytes)?;
        self.retold.append(path, bytes)
    }

    fn replace(&mut self, path: &str, content: &[u8]) -> Result<(), SiteFault> {
        self.retold.replace(path, content)
    }

    fn write(&mut self, path: &str, content: &[u8]) -> Result<(), SiteFault> {
        self.retold.write(path, content)
    }

    fn remove(&mut self, path: &str) -> Result<(), SiteFault> {
        self.retold.remove(path)
    }

    fn make_dirs(&mut self, path: &str) -> Result<(), SiteFault> {
        self.retold.make_dirs(path)
    }

    fn start(&mut self, job: usize, act: &Act, console: bool) -> Result<(), SiteFault> {
        self.retold.start(job, act, console)
    }

    fn wait_any(&mut self) -> Result<Finished, SiteFault> {
        self.retold.wait_any()
    }

    fn show(&mut self, text: &[u8]) -> Result<(), SiteFault> {
        self.retold.show(text)
    }

    fn restart(&mut self) {
        self.retold.end();
        self.retold.restart();
    }

    fn events(&self) -> &[Event] {
        self.retold.events()
    }
}
