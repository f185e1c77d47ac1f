//! A site that is told by what counts.

ghost use Rattle.std.specs.Prelude.{◌≡◌, ◌<◌, ℕ, false, true, List, Some, IsTrue, bytes_eq, length};
ghost use Rattle.std.specs.Option.{option_map};
ghost use Rattle.std.proofs.Props.{props};
ghost use Rattle.model.specs.Graph.{has};
ghost use Rattle.model.specs.World.{File, World};
ghost use Rattle.seen_law.specs.Retold.{none_started, started_after};
ghost use Rattle.seen_true.specs.Going.{Notes, NotesStand};
ghost use Rattle.seen.specs.Beginning.{counts_at, started_by};
ghost use Rattle.seen_true.specs.Going.{since};
ghost use Rattle.seen_true.specs.Counting.{telling};
ghost use Rattle.seen.specs.Begun.{BeginsTold, GoesOn, told_world};
ghost use Rattle.seen.specs.Makers.{is_job, maker_of};
ghost use Rattle.seen.specs.Own.{is_own};
ghost use Rattle.seen.specs.Known.{NumbersSo};
ghost use Rattle.seen.specs.Asking.{fault_of};

use crate::answer::{Looked, content_counted, measure_in};
use crate::beginning::Beginning;
use crate::counts::Counts;
use crate::known::Known;
use crate::makers::Makers;
use crate::notes::{Entry, read_by};
use crate::starts::started_since;
use measure::Measured;
use model::{Act, Event, Finished};
use seen_law::{answers_are_told, events_are_told, looks_are_told, writes_are_told};
use seen_true::{
    absence_notes, calls_note, calls_stand, enters_noted, found_in_call, lines_note, none_in_call,
    note_calls_note,
};
use site::{Site, SiteFault, Texts, hand_over};
use std::alloc::{AllocError, Global};
use std::marker::PhantomData;
use std::mem::forget;
use text::{Bytes, Takes};

/// A site that answers by what counts: by what was noted of each path when the build began, by what its commands make, and by which of them
/// were started since.
///
/// As a site it tells its files where the one below does: not those that are there, but those that count, under the stamps under which they
/// count. What the program does on it, it does on the one below. Where it is for one build, the program writes neither the notes nor what a command
/// makes: it finds no memory there. What is noted in the build is kept here too, as each call keeps the notes true.
#[derive(Drop)]
pub struct Retold<S: Measured, B: Beginning> {
    /// The site below.
    pub site: S,
    pub known: Counts,
    /// What was noted in the build, and the lines of that which are still to be put behind the notes.
    pub noted: Known,
    /// The text that takes the place of the notes before a line is put behind them, where one is to.
    pub base: Option<Vec<u8>>,
    /// Whether lines could not be put behind the notes in this build, so that a part of them may stand there, or what is noted found no memory.
    pub torn: bool,
    /// Whether it is for one build, which has begun. Else it is for builds one after another, on a site that does not tell its files.
    pub is_for_one: bool,
    /// Whether a build has begun. Before, files are as they are there.
    pub is_begun: bool,
    of: PhantomData<B>,
    pub ghost one: { IsTrue S.tells → is_for_one ≡ true },
    pub ghost begun: { is_for_one ≡ true → is_begun ≡ true },
    pub ghost counted: { IsTrue S.tells → (p : List ℕ) (file : File) → (telling B.begun.knows).counts p file ≡ counts_at known.notes known.makers known.own known.number p file },
    pub ghost hidden: { IsTrue S.tells → (p : List ℕ) → (telling B.begun.knows).hidden p ≡ bytes_eq known.own.seen p },
    pub ghost makes: { IsTrue S.tells → (job : ℕ) (p : List ℕ) → has ((telling B.begun.knows).makes job) p ≡ is_job job (maker_of known.makers p) },
    pub ghost room: { IsTrue S.tells → (p : List ℕ) (job : ℕ) → maker_of known.makers p ≡ Some job → job < length known.starts.items },
    pub ghost begins: { IsTrue S.tells → BeginsTold B.begun },
    pub ghost so_far: { GoesOn S.tells B.begun (S.world site) },
    pub ghost started: { IsTrue S.tells → (p : List ℕ) → started_after (telling B.begun.knows) none_started (since B.begun (S.world site)) p ≡ started_by known.starts.items (maker_of known.makers p) },
    pub ghost numbers: { IsTrue S.tells → NumbersSo B.begun.knows known },
    pub ghost owns: { IsTrue S.tells → (p : List ℕ) → B.begun.knows.is_own p ≡ is_own known.own p },
    pub ghost here: { IsTrue S.tells → B.begun.knows.seen ≡ known.own.seen },
    pub ghost stand: { NotesStand S.tells B.begun (S.world site) } by { Prim.hlevel props },
    pub ghost kept: { torn ≡ false → Notes S.tells B.begun (option_map (λ text. text.items) base) noted.lines.items (S.world site) } by { Prim.hlevel props },
}

impl<S: Measured, B: Beginning> Retold<S, B> {
    ghost use Rattle.std.specs.Prelude.{◌≡◌, [], false, true, IfOk, IsTrue, None, OnErr, OnOk, Some};
    ghost use Rattle.std.specs.Option.{option_map};
    ghost use Rattle.seen_true.specs.Going.{Notes, NotesStand};
    ghost use Rattle.model.specs.Calls.{Appends, HasCause, KeepsWait, OnlyLooks, Writes};
    ghost use Rattle.seen_law.specs.Laws.{IsPlain, IsTold};
    ghost use Rattle.seen.specs.Asking.{Asks, Refuses};
    ghost use Rattle.seen.specs.Known.{MayLeave, MaySee, known_of};
    ghost use Rattle.seen.specs.Noting.{Grows, MayReplace, PutsLines};
    ghost use Rattle.seen.specs.Begun.{BeginsTold};
    ghost use Rattle.seen.specs.Entering.{EntersSince, IsUnbegun};
    ghost use Rattle.seen.specs.Looking.{KnowsSame, looked_by};
    ghost use Rattle.seen.specs.Own.{is_own};
    ghost use Rattle.seen.specs.ToldCalls.{SeesContent, SeesCounted, TakesTold};

    /// The site over this one, for one build, by what is known when it begins, and with the text that takes the place of the notes before a line is put
    /// behind them, where one is to.
    pub fn over(alloc: Global, site: S, entry: Entry) -> Retold<S, B>
        requires unbegun { IsUnbegun entry.counts }
        requires knows { IsTrue S.tells → B.begun.knows ≡ known_of entry.counts }
        requires first { IsTrue S.tells → (S.world site).history ≡ B.begun.first }
        requires begins { IsTrue S.tells → BeginsTold B.begun }
        requires enters { EntersSince S.tells entry B.begun.asked (S.world site) }
        ensures site { result.site ≡ site }
    {
        enters_noted();
        let Entry { counts, base } = entry;
        Retold {
            site,
            known: counts,
            noted: Known::new(alloc),
            base,
            torn: false,
            is_for_one: true,
            is_begun: true,
            of: PhantomData,
        }
    }

    /// The site over this one, for builds one after another, none of which has begun.
    pub fn around(alloc: Global, site: S) -> Retold<S, B>
        requires untold { S.tells ≡ false }
        ensures site { result.site ≡ site }
        ensures many { result.is_for_one ≡ false }
    {
        Retold {
            site,
            known: Counts::none(alloc),
            noted: Known::new(alloc),
            base: None,
            torn: false,
            is_for_one: false,
            is_begun: false,
            of: PhantomData,
        }
    }

    /// What is known when a build begins, where commands make this.
    pub fn enter(&mut self, alloc: Global, makers: Makers, log: &str) -> Result<Entry, SiteFault>
        requires { (S.world self.old.site).stopped ≡ false }
        ensures asks { Asks S.tells (told_world S.tells B.begun (S.world self.old.site)) (told_world S.tells B.begun (S.world self.new.site)) result }
        ensures one { self.new.is_for_one ≡ self.old.is_for_one }
    {
        looks_are_told();
        calls_note();
        calls_stand();
        read_by(alloc, &mut self.site, makers, log)
    }

    /// A build begins, this is known, and this text takes the place of the notes before a line is put behind them, if there is one.
    pub fn begin(&mut self, alloc: Global, known: Counts, base: Option<Vec<u8>>)
        requires many { self.old.is_for_one ≡ false }
        ensures known { self.new.known ≡ known }
        ensures begun { self.new.is_begun ≡ true }
        ensures site { self.new.site ≡ self.old.site }
        ensures many { self.new.is_for_one ≡ false }
    {
        self.known = known;
        self.noted = Known::new(alloc);
        self.base = base;
        self.torn = false;
        self.is_begun = true;
    }

    /// A build has ended: until the next one begins, files are as they are there, if that is not for one build alone.
    pub fn end(&mut self)
        ensures site { self.new.site ≡ self.old.site }
        ensures one { self.new.is_for_one ≡ self.old.is_for_one }
    {
        if !self.is_for_one {
            self.is_begun = false;
        }
    }

    /// The site below; what is known is not taken apart.
    pub fn into_site(self) -> S
        ensures { result ≡ self.site }
    {
        let Retold {
            site,
            known,
            noted,
            ..
        } = self;
        // it is given back with the program, which has nothing left to do
        forget(known);
        forget(noted);
        site
    }

    /// A command of this build is about to make this path.
    pub fn make(&mut self, alloc: Global, path: &str) -> Result<(), AllocError>
        ensures site { self.new.site ≡ self.old.site }
        ensures own { self.new.known.own ≡ self.old.known.own }
        ensures notes { self.new.known.notes ≡ self.old.known.notes }
        ensures makers { self.new.known.makers ≡ self.old.known.makers }
        ensures number { self.new.known.number ≡ self.old.known.number }
        ensures starts { self.new.known.starts ≡ self.old.known.starts }
        ensures one { self.new.is_for_one ≡ self.old.is_for_one }
        ensures noted { self.new.noted ≡ self.old.noted }
    {
        self.known.made.add(alloc, path)?;
        Ok(())
    }

    /// Looks at the path.
    #[inline(always)]
    pub fn look(&mut self, path: &str) -> Result<Looked, SiteFault>
        ensures looks { OnlyLooks S.tells (told_world S.tells B.begun (S.world self.old.site)) (told_world S.tells B.begun (S.world self.new.site)) }
        ensures cause { HasCause (told_world S.tells B.begun (S.world self.old.site)) (told_world S.tells B.begun (S.world self.new.site)) result }
        ensures waits { KeepsWait (told_world S.tells B.begun (S.world self.old.site)) (told_world S.tells B.begun (S.world self.new.site)) }
        ensures looked { IfOk result (λ looked. looked ≡ looked_by self.old.is_begun self.old.known path.now looked.found) }
        ensures stamp { IsTrue S.tells → IfOk result (SeesCounted S.tells B.begun path.now (S.world self.old.site) (S.world self.new.site)) }
        ensures same { KnowsSame self.old.known self.new.known }
        ensures one { self.new.is_for_one ≡ self.old.is_for_one }
        ensures noted { self.new.noted ≡ self.old.noted }
        ensures see { IfOk result (λ looked. MaySee S.tells B.begun (S.world self.new.site) path.now looked) }
        ensures leave { IfOk result (λ looked. MayLeave S.tells B.begun (S.world self.new.site) path.now looked) }
    {
        looks_are_told();
        answers_are_told();
        calls_note();
        calls_stand();
        found_in_call();
        none_in_call();
        lines_note();
        absence_notes();
        let found = self.site.measure(path)?;
        Ok(self.known.look_by(self.is_begun, path, found)?)
    }

    /// Looks at the path, and notes what was seen, where it is to be noted and was not asked for before in this build.
    #[inline(always)]
    pub fn see(&mut self, path: &str) -> Result<Looked, SiteFault>
        ensures looks { OnlyLooks S.tells (told_world S.tells B.begun (S.world self.old.site)) (told_world S.tells B.begun (S.world self.new.site)) }
        ensures cause { HasCause (told_world S.tells B.begun (S.world self.old.site)) (told_world S.tells B.begun (S.world self.new.site)) result }
        ensures waits { KeepsWait (told_world S.tells B.begun (S.world self.old.site)) (told_world S.tells B.begun (S.world self.new.site)) }
        ensures stamp { IsTrue S.tells → IfOk result (SeesCounted S.tells B.begun path.now (S.world self.old.site) (S.world self.new.site)) }
        ensures grows { OnOk result (Grows self.old.noted.lines.items self.new.noted.lines.items) }
        ensures own { self.new.known.own ≡ self.old.known.own }
        ensures one { self.new.is_for_one ≡ self.old.is_for_one }
    {
        let looked = self.look(path)?;
        let torn = self.torn;
        self.torn = true;
        self.noted.note(path, &looked)?;
        self.torn = torn;
        Ok(looked)
    }

    /// Looks at this output, whose command has ended well, and notes what was seen as it counts.
    pub fn see_left(&mut self, output: &str) -> Result<(), SiteFault>
        ensures looks { OnlyLooks S.tells (told_world S.tells B.begun (S.world self.old.site)) (told_world S.tells B.begun (S.world self.new.site)) }
        ensures cause { HasCause (told_world S.tells B.begun (S.world self.old.site)) (told_world S.tells B.begun (S.world self.new.site)) result }
        ensures waits { KeepsWait (told_world S.tells B.begun (S.world self.old.site)) (told_world S.tells B.begun (S.world self.new.site)) }
        ensures grows { OnOk result (Grows self.old.noted.lines.items self.new.noted.lines.items) }
        ensures own { self.new.known.own ≡ self.old.known.own }
        ensures one { self.new.is_for_one ≡ self.old.is_for_one }
    {
        let looked = self.look(output)?;
        let torn = self.torn;
        self.torn = true;
        self.noted.end(output, &looked)?;
        self.torn = torn;
        Ok(())
    }

    /// Puts the lines of what was noted behind the notes, if there are some. Where that failed in this build it is refused, since a line would join
    /// what is left of another.
    #[tactic(auto, using(crate::proofs::Answered::asks_none, crate::proofs::Answered::asks_more, crate::proofs::Answered::asks_fail, crate::proofs::Answered::asks_fault, crate::proofs::Answered::refused_asks, crate::proofs::Putting::err_always, crate::proofs::Putting::ok_never, crate::proofs::Putting::puts_none, crate::proofs::Putting::puts_them))]
    pub fn put_lines(&mut self) -> Result<(), SiteFault>
        ensures asks { Asks S.tells (told_world S.tells B.begun (S.world self.old.site)) (told_world S.tells B.begun (S.world self.new.site)) result }
        ensures puts { OnOk result (PutsLines S.tells self.old.known.own.seen self.old.noted.lines.items (S.world self.old.site) (S.world self.new.site)) }
        ensures left { OnOk result (self.new.noted.lines.items ≡ []) }
        ensures torn { self.old.torn ≡ true → OnOk result (S.world self.new.site ≡ S.world self.old.site) }
        ensures tears { OnErr result (self.new.torn ≡ true) }
        ensures one { self.new.is_for_one ≡ self.old.is_for_one }
    {
        if self.noted.lines.is_empty() {
            return Ok(());
        }
        if self.torn {
            return Err(self.refuse_read());
        }
        self.torn = true;
        let base = self.base.take();
        self.put_base(base)?;
        self.put_behind()?;
        self.torn = false;
        self.noted.let_go();
        Ok(())
    }

    /// Puts this text in the place of the notes, if there is one.
    #[tactic(auto, using(crate::proofs::Answered::asks_none, crate::proofs::Answered::asks_call, crate::proofs::Putting::may_not, crate::proofs::Putting::may_replace))]
    fn put_base(&mut self, base: Option<Vec<u8>>) -> Result<(), SiteFault>
        requires torn { self.old.torn ≡ true }
        requires notes { Notes S.tells B.begun (option_map (λ text. text.items) base) self.old.noted.lines.items (S.world self.old.site) }
        ensures asks { Asks S.tells (told_world S.tells B.begun (S.world self.old.site)) (told_world S.tells B.begun (S.world self.new.site)) result }
        ensures before { OnOk result (MayReplace S.tells self.old.known.own.seen (S.world self.old.site) (S.world self.new.site)) }
        ensures notes { OnOk result (Notes S.tells B.begun None self.old.noted.lines.items (S.world self.new.site)) }
        ensures noted { self.new.noted ≡ self.old.noted }
        ensures known { self.new.known ≡ self.old.known }
        ensures torn { self.new.torn ≡ true }
        ensures base { self.new.base ≡ self.old.base }
        ensures one { self.new.is_for_one ≡ self.old.is_for_one }
    {
        match base {
            Some(base) => self.put_anew(base.as_slice()),
            None => Ok(()),
        }
    }

    /// Puts the lines behind the notes.
    fn put_behind(&mut self) -> Result<(), SiteFault>
        requires torn { self.old.torn ≡ true }
        requires notes { Notes S.tells B.begun None self.old.noted.lines.items (S.world self.old.site) }
        ensures looks { OnlyLooks S.tells (told_world S.tells B.begun (S.world self.old.site)) (told_world S.tells B.begun (S.world self.new.site)) }
        ensures cause { HasCause (told_world S.tells B.begun (S.world self.old.site)) (told_world S.tells B.begun (S.world self.new.site)) result }
        ensures waits { KeepsWait (told_world S.tells B.begun (S.world self.old.site)) (told_world S.tells B.begun (S.world self.new.site)) }
        ensures puts { OnOk result (Appends S.tells self.old.known.own.seen self.old.noted.lines.items (S.world self.old.site) (S.world self.new.site)) }
        ensures notes { OnOk result (Notes S.tells B.begun None [] (S.world self.new.site)) }
        ensures same { self.new.known ≡ self.old.known }
        ensures noted { self.new.noted ≡ self.old.noted }
        ensures base { self.new.base ≡ self.old.base }
        ensures torn { self.new.torn ≡ true }
        ensures one { self.new.is_for_one ≡ self.old.is_for_one }
    {
        looks_are_told();
        note_calls_note();
        self.site
            .append(self.known.own.seen.as_str(), self.noted.lines.as_slice())
    }

    /// Puts this in the place of the notes.
    fn put_anew(&mut self, text: &[u8]) -> Result<(), SiteFault>
        requires torn { self.old.torn ≡ true }
        requires notes { Notes S.tells B.begun (Some text.now) self.old.noted.lines.items (S.world self.old.site) }
        ensures looks { OnlyLooks S.tells (told_world S.tells B.begun (S.world self.old.site)) (told_world S.tells B.begun (S.world self.new.site)) }
        ensures cause { HasCause (told_world S.tells B.begun (S.world self.old.site)) (told_world S.tells B.begun (S.world self.new.site)) result }
        ensures waits { KeepsWait (told_world S.tells B.begun (S.world self.old.site)) (told_world S.tells B.begun (S.world self.new.site)) }
        ensures puts { OnOk result (Writes S.tells self.old.known.own.seen (Some text.now) (S.world self.old.site) (S.world self.new.site)) }
        ensures notes { OnOk result (Notes S.tells B.begun None self.old.noted.lines.items (S.world self.new.site)) }
        ensures same { self.new.known ≡ self.old.known }
        ensures noted { self.new.noted ≡ self.old.noted }
        ensures base { self.new.base ≡ self.old.base }
        ensures torn { self.new.torn ≡ true }
        ensures one { self.new.is_for_one ≡ self.old.is_for_one }
    {
        looks_are_told();
        note_calls_note();
        self.site.replace(self.known.own.seen.as_str(), text)
    }

    /// There was no memory, unless the site is found to have stopped.
    pub fn refuse(&mut self, path: &str) -> SiteFault
        ensures refused { Refuses S.tells (told_world S.tells B.begun (S.world self.old.site)) (told_world S.tells B.begun (S.world self.new.site)) result }
        ensures same { self.new.known ≡ self.old.known }
        ensures one { self.new.is_for_one ≡ self.old.is_for_one }
        ensures noted { self.new.noted ≡ self.old.noted }
    {
        looks_are_told();
        calls_note();
        calls_stand();
        let seen = self.site.stat(path);
        fault_of(seen)
    }

    /// Why the notes cannot be read, or no line may be put behind them.
    pub fn refuse_read(&mut self) -> SiteFault
        ensures refused { Refuses S.tells (told_world S.tells B.begun (S.world self.old.site)) (told_world S.tells B.begun (S.world self.new.site)) result }
        ensures torn { self.new.torn ≡ self.old.torn }
        ensures one { self.new.is_for_one ≡ self.old.is_for_one }
    {
        looks_are_told();
        calls_note();
        calls_stand();
        let content = self.site.read(self.known.own.seen.as_str());
        fault_of(content)
    }

    /// What one of the program's own files holds.
    fn read_own(&mut self, path: &str) -> Result<Option<Bytes>, SiteFault>
        requires { is_own self.old.known.own path.now ≡ true }
        ensures looks { OnlyLooks S.tells (told_world S.tells B.begun (S.world self.old.site)) (told_world S.tells B.begun (S.world self.new.site)) }
        ensures cause { HasCause (told_world S.tells B.begun (S.world self.old.site)) (told_world S.tells B.begun (S.world self.new.site)) result }
        ensures waits { KeepsWait (told_world S.tells B.begun (S.world self.old.site)) (told_world S.tells B.begun (S.world self.new.site)) }
        ensures content { IsTrue S.tells → IfOk result (SeesContent S.tells B.begun path.now (S.world self.old.site) (S.world self.new.site)) }
        ensures one { self.new.is_for_one ≡ self.old.is_for_one }
    {
        looks_are_told();
        answers_are_told();
        calls_note();
        calls_stand();
        self.site.read(path)
    }

    /// Whether the file at the path counts as it is there: before a build has begun, and where it is one of the program's own.
    fn is_plain(&self, path: &str) -> bool
        ensures { IsTrue S.tells → result ≡ true → is_own self.now.known.own path.now ≡ true }
    {
        if self.is_begun {
            self.known.own.has(path)
        } else {
            true
        }
    }

    /// Hands what the file at the path holds to the taker, which counts as it is there: piece by piece, where the site below does so.
    fn read_plain_into<T: Takes>(&mut self, path: &str, taker: &mut T) -> Result<(), SiteFault>
        requires { IsTrue S.tells → is_own self.old.known.own path.now ≡ true }
        ensures looks { OnlyLooks S.tells (told_world S.tells B.begun (S.world self.old.site)) (told_world S.tells B.begun (S.world self.new.site)) }
        ensures cause { HasCause (told_world S.tells B.begun (S.world self.old.site)) (told_world S.tells B.begun (S.world self.new.site)) result }
        ensures waits { KeepsWait (told_world S.tells B.begun (S.world self.old.site)) (told_world S.tells B.begun (S.world self.new.site)) }
        ensures content { OnOk result (TakesTold T.Took S.tells B.begun path.now (taker.old, S.world self.old.site) (taker.new, S.world self.new.site)) }
        ensures one { self.new.is_for_one ≡ self.old.is_for_one }
    {
        looks_are_told();
        answers_are_told();
        calls_note();
        calls_stand();
        self.site.read_into(path, taker)
    }

    /// Hands what any other file holds to the taker, where it counts.
    fn read_counted_into<T: Takes>(&mut self, path: &str, taker: &mut T) -> Result<(), SiteFault>
        ensures looks { OnlyLooks S.tells (told_world S.tells B.begun (S.world self.old.site)) (told_world S.tells B.begun (S.world self.new.site)) }
        ensures cause { HasCause (told_world S.tells B.begun (S.world self.old.site)) (told_world S.tells B.begun (S.world self.new.site)) result }
        ensures waits { KeepsWait (told_world S.tells B.begun (S.world self.old.site)) (told_world S.tells B.begun (S.world self.new.site)) }
        ensures content { OnOk result (TakesTold T.Took S.tells B.begun path.now (taker.old, S.world self.old.site) (taker.new, S.world self.new.site)) }
        ensures one { self.new.is_for_one ≡ self.old.is_for_one }
    {
        let content = self.read_counted(path)?;
        hand_over(&content, taker)?;
        Ok(())
    }

    /// What any other file holds, where it counts.
    fn read_counted(&mut self, path: &str) -> Result<Option<Bytes>, SiteFault>
        ensures looks { OnlyLooks S.tells (told_world S.tells B.begun (S.world self.old.site)) (told_world S.tells B.begun (S.world self.new.site)) }
        ensures cause { HasCause (told_world S.tells B.begun (S.world self.old.site)) (told_world S.tells B.begun (S.world self.new.site)) result }
        ensures waits { KeepsWait (told_world S.tells B.begun (S.world self.old.site)) (told_world S.tells B.begun (S.world self.new.site)) }
        ensures content { IsTrue S.tells → IfOk result (SeesContent S.tells B.begun path.now (S.world self.old.site) (S.world self.new.site)) }
        ensures one { self.new.is_for_one ≡ self.old.is_for_one }
    {
        looks_are_told();
        answers_are_told();
        calls_note();
        calls_stand();
        let found = self.site.read_measured(path)?;
        let looked = self.known.look_by(self.is_begun, path, measure_in(&found))?;
        Ok(content_counted(looked.counts, found))
    }

    /// Whether the program may not write the path, where the site is for one build: that is the one of the notes, or a command makes it, or there
    /// was no memory to tell it.
    fn is_barred(&mut self, path: &str) -> bool
        ensures told { IsTrue S.tells → result ≡ false → IsTold (telling B.begun.knows) path.now }
        ensures same { KnowsSame self.old.known self.new.known }
        ensures site { self.new.site ≡ self.old.site }
        ensures one { self.new.is_for_one ≡ self.old.is_for_one }
        ensures noted { self.new.noted ≡ self.old.noted }
    {
        if !self.is_for_one {
            return false;
        }
        self.known.is_barred(path)
    }

    /// Whether the path is that of the notes, where the site is for one build.
    fn is_kept_from_it(&self, path: &str) -> bool
        ensures { IsTrue S.tells → result ≡ false → (telling B.begun.knows).hidden path.now ≡ false }
    {
        self.is_for_one && self.known.own.is_seen(path)
    }

    /// Whether the path is none of which the own stamp counts always, where the site is for one build: it is that of the notes, or none of the
    /// program's own.
    fn may_count_otherwise(&self, path: &str) -> bool
        ensures { IsTrue S.tells → result ≡ false → IsPlain (telling B.begun.knows) path.now }
    {
        self.is_for_one && (self.known.own.is_seen(path) || !self.known.own.has(path))
    }
}

impl<S: Measured, B: Beginning> Texts for Retold<S, B> {
    ghost tells = { S.tells };

    ghost world = { λ retold. told_world S.tells B.begun (S.world retold.site) };

    fn read(&mut self, path: &str) -> Result<Option<Bytes>, SiteFault> {
        if self.known.own.has(path) {
            self.read_own(path)
        } else {
            self.read_counted(path)
        }
    }

    fn read_into<T: Takes>(&mut self, path: &str, taker: &mut T) -> Result<(), SiteFault> {
        if self.is_plain(path) {
            self.read_plain_into(path, taker)
        } else {
            self.read_counted_into(path, taker)
        }
    }

    fn failures(&self) -> u64 {
        self.site.failures()
    }
}

impl<S: Measured, B: Beginning> Site for Retold<S, B> {
    ghost use Rattle.std.specs.Prelude.{◌≡◌, OnErr, OnOk};
    ghost use Rattle.model.specs.Calls.{HasCause, KeepsWait};
    ghost use Rattle.seen.specs.ToldCalls.{AppendsTold, AppendsToldOrNot};

    ghost outcome = { S.outcome };

    #[inline(never)]
    fn stat(&mut self, path: &str) -> Result<Option<u64>, SiteFault> {
        let looked = self.look(path)?;
        Ok(looked.counts)
    }

    fn tick(&mut self, path: &str) -> Result<u64, SiteFault> {
        writes_are_told();
        looks_are_told();
        calls_note();
        calls_stand();
        if self.may_count_otherwise(path) {
            return Err(self.refuse(path));
        }
        self.site.tick(path)
    }

    fn append(&mut self, path: &str, bytes: &[u8]) -> Result<(), SiteFault>
        ensures cause { HasCause (told_world S.tells B.begun (S.world self.old.site)) (told_world S.tells B.begun (S.world self.new.site)) result }
        ensures waits { KeepsWait (told_world S.tells B.begun (S.world self.old.site)) (told_world S.tells B.begun (S.world self.new.site)) }
        ensures appends { OnOk result (AppendsTold S.tells B.begun path.now bytes.now (S.world self.old.site) (S.world self.new.site)) }
        ensures err { OnErr result (AppendsToldOrNot S.tells B.begun path.now bytes.now (S.world self.old.site) (S.world self.new.site)) }
        ensures noted { self.new.noted ≡ self.old.noted }
    {
        writes_are_told();
        looks_are_told();
        calls_note();
        calls_stand();
        if self.is_barred(path) {
            return Err(self.refuse(path));
        }
        self.site.append(path, bytes)
    }

    fn replace(&mut self, path: &str, content: &[u8]) -> Result<(), SiteFault> {
        writes_are_told();
        looks_are_told();
        calls_note();
        calls_stand();
        if self.is_barred(path) {
            return Err(self.refuse(path));
        }
        self.site.replace(path, content)
    }

    fn write(&mut self, path: &str, content: &[u8]) -> Result<(), SiteFault> {
        writes_are_told();
        looks_are_told();
        calls_note();
        calls_stand();
        if self.is_barred(path) {
            return Err(self.refuse(path));
        }
        self.site.write(path, content)
    }

    fn remove(&mut self, path: &str) -> Result<(), SiteFault> {
        writes_are_told();
        looks_are_told();
        calls_note();
        calls_stand();
        if self.is_kept_from_it(path) {
            return Err(self.refuse(path));
        }
        self.site.remove(path)
    }

    fn make_dirs(&mut self, path: &str) -> Result<(), SiteFault> {
        looks_are_told();
        calls_note();
        calls_stand();
        self.site.make_dirs(path)
    }

    fn start(&mut self, job: usize, act: &Act, console: bool) -> Result<(), SiteFault> {
        events_are_told();
        looks_are_told();
        calls_note();
        calls_stand();
        let before = self.site.events().len();
        let done = self.site.start(job, act, console);
        let start = started_since(self.site.events(), before);
        self.known.start(job, start);
        done
    }

    fn wait_any(&mut self) -> Result<Finished, SiteFault> {
        events_are_told();
        looks_are_told();
        calls_note();
        calls_stand();
        self.site.wait_any()
    }

    fn show(&mut self, text: &[u8]) -> Result<(), SiteFault> {
        looks_are_told();
        calls_note();
        calls_stand();
        self.site.show(text)
    }

    fn restart(&mut self) {
        events_are_told();
        calls_note();
        calls_stand();
        self.site.restart();
    }

    fn events(&self) -> &[Event] {
        self.site.events()
    }
}

/// The fault of a call; want of memory where it gave none.
fn fault_of<T: Drop>(call: Result<T, SiteFault>) -> SiteFault
    ensures { result ≡ fault_of call }
{
    match call {
        Ok(_) => SiteFault::Memory,
        Err(fault) => fault,
    }
}
