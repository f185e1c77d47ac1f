//! A project that is audited: what is declared and recorded, and what is told of the trace of each command.

ghost use Rattle.std.specs.Prelude.{◌≡◌, ◌++◌, IfOk, IfSome, OnOk, [], length, slice_get, string_bytes, unwrap_or};
ghost use Rattle.std.specs.Map.Iter.{deref};
ghost use Rattle.std.specs.List.{AllZip};
ghost use Rattle.std.specs.Option.{option_map};
ghost use Rattle.trace.specs.Lines.{IsTold, told};
ghost use Rattle.audit.specs.Seen.{sums_in};
ghost use Rattle.audit.specs.Standing.{put};
ghost use Rattle.model.specs.Graph.{has};
ghost use Rattle.auditor.specs.Left.{with_left, with_one};
ghost use Rattle.auditor.specs.Links.{CountsThrough, learned};
ghost use Rattle.auditor.specs.Scratch.{AreAround, IsFrontIn, is_scratch};
ghost use Rattle.auditor.specs.Tally.{AreCounted, AreFound, AreSums, IsCountedBy, IsCountedOf, TakesIn, TakesTold, Tells};
ghost use Rattle.auditor.specs.Things.{AreThings};

use crate::above::above;
use crate::around::{Names, ScratchPlace};
use crate::folders::folders_of;
use crate::given::by_given_names;
use crate::graphs::{is_command, outputs_of, text_of};
use crate::later::Later;
use crate::listed::{Declared, lists_of};
use crate::scratch::{Scratch, has};
use crate::tally::Tally;
use crate::twins::Twins;
use crate::ways::by_of;
use audit::{
    Around, Breach, By, Lists, Standing, Stands, Use, Uses, Whole, breaches, connects, unasked,
    uses_of, wholes_of,
};
use graph::Graph;
use log_text::{BuildLog, DepsLog};
use paths::{EdgeId, PathId, Paths};
use std::alloc::{AllocError, Global};
use text::{Items, Path};
use trace::{Fact, Told, read};

/// What is declared and recorded, all of it as it is after the build.
#[derive(Drop)]
pub struct Auditor {
    alloc: Global,
    graph: Graph,
    /// The deps log, if there is one.
    deps: Option<DepsLog>,
    names: Names,
    twins: Twins,
    scratch: Scratch,
    /// Where links stand that stand there once the build has ended.
    links: Standing,
}

impl Auditor {
    /// What this graph declares, with the working folder, from the root, and what the logs tell, where there are some.
    pub fn new(
        alloc: Global,
        graph: Graph,
        folder: &str,
        log: Option<BuildLog>,
        deps: Option<DepsLog>,
    ) -> Result<Auditor, AllocError> {
        let mut names = Names::of(alloc, &graph, folder, log)?;
        names.report(alloc, deps.as_ref())?;
        Ok(Auditor {
            alloc,
            graph,
            deps,
            names,
            twins: Twins::new(alloc),
            scratch: Scratch::none(alloc),
            links: Standing::none(alloc),
        })
    }

    /// The paths at which it has to be asked whether a link stands, before this trace is taken in; none where it is not understood. Behind such
    /// links there may be others: what is answered here is asked until nothing is.
    pub fn unasked(&self, trace: &[u8]) -> Result<Paths, AllocError> {
        match self.told_in(trace)? {
            Told::Facts(facts) => unasked(self.alloc, &self.links, facts.as_slice()),
            Told::NotUnderstood => Ok(Paths::new(self.alloc)),
        }
    }

    /// Takes in where a link leads that stands at a path, as it is written, or that none does.
    pub fn learn(&mut self, path: &str, target: Option<&str>) -> Result<(), AllocError>
        ensures { OnOk result (self.new.links ≡ put self.old.links path.now (learned (option_map deref target.entry))) }
    {
        let stands = match target {
            Some(target) => Stands::Link(Path::from_str(self.alloc, target)?),
            None => Stands::File,
        };
        self.links.put(self.alloc, path, stands)
    }

    /// Takes in that scratch files stand below this folder, where it is below the working one; else nothing. It takes a time of the order of
    /// the graph and of the deps log.
    pub fn take_scratch(&mut self, folder: &str) -> Result<(), AllocError>
        ensures { OnOk result (IsFrontIn (string_bytes self.old.names.folder) folder.now self.new.scratch.front) }
    {
        let mut scratch = Scratch::below(self.alloc, self.names.folder(), folder)?;
        scratch.keep(self.alloc, self.declared())?;
        self.scratch = scratch;
        Ok(())
    }

    /// How many paths the build lines name.
    pub fn paths(&self) -> usize {
        self.graph.paths()
    }

    /// The path in this place, as build lines spell it.
    pub fn path(&self, place: usize) -> &str {
        match PathId::at(place) {
            Some(path) => text_of(&self.graph, path),
            None => "",
        }
    }

    /// Takes in that the path in this place leads to this plain file, which a text tells from all others.
    pub fn leads(&mut self, place: usize, file: String) -> Result<(), AllocError> {
        let path = String::from_str(self.alloc, self.path(place))?;
        self.twins.add(self.alloc, &self.names, path.as_str(), file)
    }

    /// Takes in that the path in this place leads to a plain file that is not empty.
    pub fn fills(&mut self, place: usize) -> Result<(), AllocError> {
        let path = String::from_str(self.alloc, self.path(place))?;
        self.names.fill(self.alloc, path.as_str())
    }

    /// How many commands the targets need; none where they have no cone.
    pub fn commands(&self, targets: &[Path]) -> Option<usize> {
        let cone = self.graph.cone(self.alloc, targets).ok()?;
        let mut count = 0usize;
        for edge in &cone.order {
            if is_command(&self.graph, *edge) {
                count = count.saturating_add(1);
            }
        }
        Some(count)
    }

    /// Tells what breaks a premise of that which the command of this job did, which left this trace, if any.
    pub fn take(
        &self,
        job: usize,
        trace: Option<&[u8]>,
        tally: &mut Tally,
    ) -> Result<(), AllocError>
        ensures { OnOk result (TakesIn self.now.links self.now.scratch (string_bytes self.now.names.folder) (option_map deref trace.entry) tally.old tally.new) }
    {
        let Some(edge) = EdgeId::at(job.saturating_sub(1)) else {
            return Ok(());
        };
        match trace {
            Some(trace) => self.take_trace(edge, trace, tally),
            None => self.tell_not_understood(edge, tally),
        }
    }

    /// What is declared and reported.
    fn declared(&self) -> Declared<'_> {
        Declared {
            graph: &self.graph,
            names: &self.names,
            deps: self.deps.as_ref(),
        }
    }

    /// Tells what breaks a premise of that which a trace tells of the command of the edge.
    fn take_trace(&self, edge: EdgeId, trace: &[u8], tally: &mut Tally) -> Result<(), AllocError>
        ensures { OnOk result (TakesTold self.now.links self.now.scratch (told (string_bytes self.now.names.folder) trace.now) tally.old tally.new) }
    {
        match self.wholes_told(trace)? {
            Some(wholes) => self.take_wholes(edge, wholes.as_slice(), tally),
            None => self.tell_not_understood(edge, tally),
        }
    }

    /// What a trace tells of a command, if it is understood and its paths are texts.
    fn wholes_told(&self, trace: &[u8]) -> Result<Option<Items<Whole>>, AllocError>
        ensures { IfOk result (λ found. IfSome found (Tells self.now.links (string_bytes self.now.names.folder) trace.now)) }
    {
        match self.told_in(trace)? {
            Told::Facts(facts) => self.wholes_by(facts.as_slice()),
            Told::NotUnderstood => Ok(None),
        }
    }

    /// What a trace tells of a command, if it is understood.
    fn told_in(&self, trace: &[u8]) -> Result<Told, AllocError>
        ensures { IfOk result (IsTold (string_bytes self.now.names.folder) trace.now) }
    {
        read(self.alloc, self.names.folder().as_bytes(), trace)
    }

    /// What these facts tell by canonical paths, by the names that were given, and which folders that shows; none where a path is no text.
    fn wholes_by(&self, facts: &[Fact]) -> Result<Option<Items<Whole>>, AllocError>
        ensures { IfOk result (λ found. IfSome found (AreThings self.now.links facts.now)) }
    {
        let Some(wholes) = wholes_of(self.alloc, &self.links, facts)? else {
            return Ok(None);
        };
        let wholes = by_given_names(self.alloc, &self.names, &self.scratch, wholes)?;
        let scratch = self.scratch.front();
        let mut things = folders_of(self.alloc, self.names.folder(), scratch, wholes.as_slice())?;
        push_all(wholes, &mut things)?;
        Ok(Some(things))
    }

    /// Tells what breaks a premise of that which the command of the edge did.
    fn take_wholes(
        &self,
        edge: EdgeId,
        wholes: &[Whole],
        tally: &mut Tally,
    ) -> Result<(), AllocError>
        ensures { OnOk result (IsCountedOf self.now.scratch wholes.now tally.old tally.new) }
    {
        self.tell_connected(edge, wholes, tally)?;
        let lists = lists_of(self.alloc, self.declared(), edge)?;
        self.take_lists(edge, wholes, &lists, tally)?;
        Ok(())
    }

    /// Notes that a server was asked, if one was.
    fn tell_connected(
        &self,
        edge: EdgeId,
        wholes: &[Whole],
        tally: &mut Tally,
    ) -> Result<(), AllocError>
        ensures counts { tally.new.counts ≡ tally.old.counts }
        ensures left { tally.new.left ≡ tally.old.left }
    {
        if connects(wholes) {
            let note = "connects to a server, and what that does is not seen";
            return self.tell_note(edge, note, tally);
        }
        Ok(())
    }

    fn take_lists(
        &self,
        edge: EdgeId,
        wholes: &[Whole],
        lists: &Lists,
        tally: &mut Tally,
    ) -> Result<(), AllocError>
        ensures { OnOk result (IsCountedOf self.now.scratch wholes.now tally.old tally.new) }
    {
        let uses = self.uses_in(wholes, &lists.outputs)?;
        self.take_uses(edge, lists, &uses, tally)
    }

    fn take_uses(
        &self,
        edge: EdgeId,
        lists: &Lists,
        uses: &Uses,
        tally: &mut Tally,
    ) -> Result<(), AllocError>
        ensures { OnOk result (IsCountedBy self.now.scratch lists.now (sums_in uses.now) tally.old tally.new) }
    {
        let found = self.judge(edge, lists, uses, tally)?;
        let spelled = self.tell_spellings(edge, uses, tally)?;
        self.tell_looked(edge, lists, uses, tally)?;
        tally.outside.take(self.alloc, &self.names, uses)?;
        self.leave(uses, &mut tally.left)?;
        tally.count(found == 0 && spelled == 0);
        Ok(())
    }

    /// Takes in the scratch files that a command left.
    fn leave(&self, uses: &Uses, left: &mut Paths) -> Result<(), AllocError>
        ensures { OnOk result (left.new ≡ with_left self.now.scratch left.old (sums_in uses.now).paths (sums_in uses.now).uses) }
    {
        for place in 0..uses.len() {
            let Some(path) = uses.path(place) else {
                return Ok(());
            };
            let Some(used) = uses.used(place) else {
                return Ok(());
            };
            self.leave_at(path, used, left)?;
        }
        Ok(())
    }

    fn leave_at(&self, path: &str, used: Use, left: &mut Paths) -> Result<(), AllocError>
        ensures { OnOk result (left.new ≡ with_one self.now.scratch left.old path.now used) }
    {
        if self.scratch.holds(path) && used.writes && !used.gone {
            left.add(self.alloc, path)?;
        }
        Ok(())
    }

    /// What was done at each path, and at each of these outputs.
    fn uses_in(&self, wholes: &[Whole], outputs: &Paths) -> Result<Uses, AllocError>
        ensures { IfOk result (λ uses. AreSums wholes.now outputs.now (sums_in uses)) }
    {
        let bys = self.bys_in(wholes)?;
        let mut uses = uses_of(self.alloc, wholes, bys.as_slice())?;
        uses.add_untouched(self.alloc, outputs)?;
        Ok(uses)
    }

    /// By which path each of these counts.
    fn bys_in(&self, wholes: &[Whole]) -> Result<Vec<By>, AllocError>
        ensures { IfOk result (λ bys. AreCounted wholes.now bys.items) }
    {
        let bys = self.bys_of(wholes)?;
        Ok(bys)
    }

    fn bys_of(&self, wholes: &[Whole]) -> Result<Vec<By>, AllocError>
        ensures each { IfOk result (λ bys. length bys.items ≡ length wholes.now) }
        ensures through { IfOk result (λ bys. AllZip CountsThrough wholes.now bys.items) }
    {
        let mut bys = Vec::with_capacity(self.alloc, wholes.len())?;
        for whole in wholes {
            bys.push(by_of(&self.names, &self.scratch, whole))?;
        }
        Ok(bys)
    }

    /// Tells what breaks a premise, and answers how much it was.
    fn judge(
        &self,
        edge: EdgeId,
        lists: &Lists,
        uses: &Uses,
        tally: &mut Tally,
    ) -> Result<usize, AllocError>
        ensures found { IfOk result (AreFound self.now.scratch tally.old.left lists.now (sums_in uses.now)) }
        ensures counts { tally.new.counts ≡ tally.old.counts }
        ensures left { tally.new.left ≡ tally.old.left }
    {
        let found = self.found(edge, lists, uses, &tally.left)?;
        self.tell_found(edge, uses, found.as_slice(), tally)?;
        Ok(found.len())
    }

    /// Tells what was found.
    fn tell_found(
        &self,
        edge: EdgeId,
        uses: &Uses,
        found: &[Breach],
        tally: &mut Tally,
    ) -> Result<(), AllocError>
        ensures counts { tally.new.counts ≡ tally.old.counts }
        ensures left { tally.new.left ≡ tally.old.left }
    {
        for breach in found {
            let path = self.names.short(uses.path(breach.place).unwrap_or(""));
            tally.tell(self.alloc, self.name_of(edge), breach.finding, path)?;
        }
        Ok(())
    }

    /// What breaks a premise.
    fn found(
        &self,
        edge: EdgeId,
        lists: &Lists,
        uses: &Uses,
        left: &Paths,
    ) -> Result<Items<Breach>, AllocError>
        ensures { IfOk result (λ found. AreFound self.now.scratch left.now lists.now (sums_in uses.now) (length found)) }
    {
        let arounds = self.arounds_of(edge, lists, uses, left)?;
        breaches(self.alloc, lists, arounds.as_slice(), uses)
    }

    /// What each path is to the build.
    fn arounds_of(
        &self,
        edge: EdgeId,
        lists: &Lists,
        uses: &Uses,
        left: &Paths,
    ) -> Result<Vec<Around>, AllocError>
        ensures { IfOk result (λ arounds. AreAround self.now.scratch left.now (sums_in uses.now).paths arounds.items) }
    {
        let is_above = self.above_of(edge, lists, uses)?;
        let mut arounds = Vec::with_capacity(self.alloc, uses.len())?;
        for place in 0..uses.len() {
            let path = path_at(uses, place);
            let maker = self.other_maker(edge, path);
            let upper = is_upper(lists, is_above.as_slice(), path, maker);
            arounds.push(self.around(path, maker.is_some(), upper, left))?;
        }
        Ok(arounds)
    }

    /// What a path is to the build, where it is known whether another command makes it, and one that is above.
    fn around(&self, path: &str, made: bool, above: bool, left: &Paths) -> Around
        ensures scratch { result.scratch ≡ is_scratch self.now.scratch path.now }
        ensures left { result.left ≡ has left.now path.now }
    {
        let below = ScratchPlace {
            scratch: self.scratch.holds(path),
            left: has(left, path),
        };
        self.names.around(path, made, above, below)
    }

    /// For each edge whether it is above this one; nothing where all paths that others make are inputs, as then nobody asks.
    fn above_of(&self, edge: EdgeId, lists: &Lists, uses: &Uses) -> Result<Vec<bool>, AllocError> {
        for place in 0..uses.len() {
            let path = uses.path(place).unwrap_or("");
            if self.other_maker(edge, path).is_some() && !is_listed(lists, path) {
                return above(self.alloc, &self.graph, edge);
            }
        }
        Ok(Vec::new(self.alloc))
    }

    /// The edge whose command makes the path, if it is another one.
    fn other_maker(&self, edge: EdgeId, path: &str) -> Option<EdgeId> {
        let maker = self.names.maker(path)?;
        if maker == edge {
            return None;
        }
        Some(maker)
    }

    /// Takes in each path by which the command took a file that build lines spell in two ways, and answers how many these are.
    fn tell_spellings(
        &self,
        edge: EdgeId,
        uses: &Uses,
        tally: &mut Tally,
    ) -> Result<usize, AllocError>
        ensures counts { tally.new.counts ≡ tally.old.counts }
        ensures left { tally.new.left ≡ tally.old.left }
    {
        let mut count = 0usize;
        for place in 0..uses.len() {
            let path = uses.path(place).unwrap_or("");
            if let Some(member) = self.twins.at(path) {
                self.tell_spelled(edge, path, member, tally)?;
                count = count.saturating_add(1);
            }
        }
        Ok(count)
    }

    /// Takes in each pair in which build lines spell the file at this path, whose first member this is.
    fn tell_spelled(
        &self,
        edge: EdgeId,
        path: &str,
        first: usize,
        tally: &mut Tally,
    ) -> Result<(), AllocError>
        ensures counts { tally.new.counts ≡ tally.old.counts }
        ensures left { tally.new.left ≡ tally.old.left }
    {
        let path = self.names.short(path);
        let mut next = Some(first);
        for _ in 0..self.twins.len() {
            let Some(member) = next else {
                return Ok(());
            };
            let both = self.twins.both(member);
            tally.spell(self.alloc, self.name_of(edge), path, both)?;
            next = self.twins.next(member);
        }
        Ok(())
    }

    /// Notes of each file that was looked for and is not there, where a reported one of the same name was read after it: made later, it
    /// would change the outcome. Where that one stands outside of the folder, as headers of a compiler do, the note is told in sum.
    fn tell_looked(
        &self,
        edge: EdgeId,
        lists: &Lists,
        uses: &Uses,
        tally: &mut Tally,
    ) -> Result<(), AllocError>
        ensures counts { tally.new.counts ≡ tally.old.counts }
        ensures left { tally.new.left ≡ tally.old.left }
    {
        let later = Later::of(self.alloc, lists, uses)?;
        for place in 0..uses.len() {
            let missed = uses.path(place).unwrap_or("");
            if is_missing(uses.used(place)) && self.names.counts(missed) {
                if let Some(found) = later.at(uses, place) {
                    self.tell_first(edge, missed, found, tally)?;
                }
            }
        }
        Ok(())
    }

    fn tell_first(
        &self,
        edge: EdgeId,
        missed: &str,
        found: &str,
        tally: &mut Tally,
    ) -> Result<(), AllocError>
        ensures counts { tally.new.counts ≡ tally.old.counts }
        ensures left { tally.new.left ≡ tally.old.left }
    {
        if !self.names.counts(found) {
            return tally.outside.look(self.alloc, missed);
        }
        let missed = self.names.short(missed);
        let found = self.names.short(found);
        let note = format!(in self.alloc;
            "looks for {missed}, which is not there, before {found}: made later, it would change the outcome"
        )?;
        self.tell_note(edge, note.as_str(), tally)
    }

    fn tell_note(&self, edge: EdgeId, note: &str, tally: &mut Tally) -> Result<(), AllocError>
        ensures counts { tally.new.counts ≡ tally.old.counts }
        ensures left { tally.new.left ≡ tally.old.left }
    {
        tally.note(self.alloc, self.name_of(edge), note)
    }

    fn tell_not_understood(&self, edge: EdgeId, tally: &mut Tally) -> Result<(), AllocError>
        ensures counts { tally.new.counts ≡ tally.old.counts }
        ensures left { tally.new.left ≡ tally.old.left }
    {
        tally.tell_not_understood(self.alloc, self.name_of(edge))
    }

    /// The first output of an edge.
    fn name_of(&self, edge: EdgeId) -> &str {
        match outputs_of(&self.graph, edge).first() {
            Some(output) => text_of(&self.graph, *output),
            None => "",
        }
    }
}

/// The path in this place.
fn path_at(uses: &Uses, place: usize) -> &str
    ensures { result.now ≡ unwrap_or (slice_get (sums_in uses.now).paths place) [] }
{
    match uses.path(place) {
        Some(path) => path,
        None => "",
    }
}

/// Puts these things behind the others.
fn push_all(wholes: Items<Whole>, things: &mut Items<Whole>) -> Result<(), AllocError>
    ensures { OnOk result (things.new ≡ things.old ++ wholes) }
{
    for whole in wholes.into_vec() {
        things.push(whole)?;
    }
    Ok(())
}

/// Whether the path is an input of the edge with these lists.
fn is_listed(lists: &Lists, path: &str) -> bool {
    has(&lists.inputs, path) || has(&lists.order_only, path)
}

/// Whether the path is an input of the edge with these lists, or an edge makes it that is marked.
fn is_upper(lists: &Lists, marks: &[bool], path: &str, maker: Option<EdgeId>) -> bool {
    is_listed(lists, path) || is_marked(marks, maker)
}

/// Whether the edge is marked.
fn is_marked(marks: &[bool], edge: Option<EdgeId>) -> bool {
    match edge {
        Some(edge) => marks.get(edge.index()).copied().unwrap_or(false),
        None => false,
    }
}

/// Whether a file was looked for, was not there, and was not made.
fn is_missing(used: Option<Use>) -> bool {
    match used {
        Some(used) => {
            used.misses && !used.reads && !used.asks && !used.writes && !used.is_folder
        }
        None => false,
    }
}
