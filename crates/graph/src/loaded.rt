//! A manifest whose edges have what a dyndep file says.

ghost use Rattle.std.specs.Prelude.{◌≡◌, ◌<◌, ◌≤◌, ℕ, List, All, true, false, Some, map, length, IfSome, IfOk, IfErr, OnOk, OnErr};
ghost use Rattle.paths.specs.Numbers.{HaveOnePlace};
ghost use Rattle.paths.specs.Told.{graph_of};
ghost use Rattle.graph.specs.Chosen.{chosen_edges, choice_in, AreRising, IsWithin};
ghost use Rattle.paths.specs.declared.line.Line.{Line};
ghost use Rattle.graph.specs.InTurn.{lines_with, lines_given, lines_without, AreGivenTo, users_with, users_given, AreInputsBelow, AreOutputsBelow, AreGrownFrom, ClaimsWith, ClaimsGains, AreUsersGiven, IsLoadedBy, actions_given};
ghost use Rattle.graph.specs.Making.{IsMakingFault};
ghost use Rattle.graph.specs.Held.{more_lists, times, AreMakers, DyndepsAreInputs};
ghost use Rattle.graph.specs.Fronts.{AreCut};
ghost use Rattle.graph.specs.Gains.{gained_times, gained_outputs, HaveGrown, HaveGainedBy, AreFreed};
ghost use Rattle.graph.specs.Used.{IfYes, IfNo, IsUsedBy, StayUsed};
ghost use Rattle.graph.specs.Extended.{addition_of};
ghost use Rattle.graph.specs.Statements.{gain_of, HasMore, AreNumbersIn, AreGainsIn, action_with, loaded_action, HasOnlyMore, IsLoadFault, IsPartsFault, extend_fault_of};

use crate::choice::Choice;
use crate::fault::{ExtendFault, GraphFault};
use crate::few::Few;
use crate::makers::{claim_free, free, makers_of};
use crate::users::Users;
use dyndep::Addition;
use paths::{Action, EdgeId, Lines, Manifest, PathId, Paths};
use std::alloc::{AllocError, Global};
use std::mem;
use text::{Items, Path};

/// What a statement adds, in numbers.
#[derive(Drop)]
pub struct Gain {
    pub outputs: Few,
    pub inputs: Few,
}

/// What a graph keeps beside its manifest: which edge makes each path, and for each path the edges that name it.
#[derive(Drop)]
pub struct Parts {
    pub makers: Items<Option<EdgeId>>,
    pub users: Users,
}

/// Gives edges what the statements add that were chosen for them, whose dyndep file is loaded then; what they gained. Lines, makers and
/// users grow where they are.
///
/// Where it is refused, the manifest has more paths at most.
pub fn load(
    alloc: Global,
    manifest: &mut Manifest,
    parts: &mut Parts,
    additions: &[Addition],
    chosen: &[Choice],
) -> Result<Vec<Gain>, ExtendFault>
    requires makers { AreMakers manifest.old parts.old.makers }
    requires users { IsUsedBy manifest.old parts.old.users }
    requires dyndeps { DyndepsAreInputs manifest.old }
    requires rising { AreRising (chosen_edges chosen.now) }
    requires within { All (IsWithin (length manifest.old.lines) (length additions.now)) chosen.now }
    ensures loaded { OnOk result (IsLoadedBy manifest.old manifest.new additions.now chosen.now) }
    ensures given { IfOk result (λ gains. AreGivenTo gains.items chosen.now manifest.old.lines manifest.new.lines) }
    ensures makers { OnOk result (AreMakers manifest.new parts.new.makers) }
    ensures users { OnOk result (StayUsed manifest.old manifest.new parts.old.users parts.new.users) }
    ensures gained { IfOk result (λ gains. HaveGainedBy gains.items chosen.now parts.old.makers parts.new.makers) }
    ensures grown { IfOk result (λ gains. HaveGrown gains.items chosen.now parts.old.users parts.new.users) }
    ensures inputs { IfOk result (λ gains. AreInputsBelow (length manifest.new.paths) gains.items) }
    ensures outputs { IfOk result (λ gains. AreOutputsBelow (length parts.new.makers) gains.items) }
    ensures apart { OnOk result (HaveOnePlace manifest.new.paths) }
    ensures kept { OnErr result (parts.new ≡ parts.old) }
    ensures err { OnErr result (HasOnlyMore manifest.old manifest.new) }
    ensures fault { IfErr result (IsLoadFault manifest.old (map addition_of additions.now) (choice_in chosen.now)) }
{
    let gains = gains_of(alloc, &mut manifest.paths, additions)?;
    grow_lines(&mut manifest.lines, chosen, &gains)?;
    match grow_parts(alloc, manifest, parts, chosen, &gains) {
        Ok(()) => {
            let mut actions = mem::replace(&mut manifest.actions, Items::new(alloc)).into_vec();
            load_actions(&mut actions, additions, chosen);
            manifest.actions = Items::from_vec(actions);
            Ok(gains)
        }
        Err(fault) => {
            shrink_lines(&mut manifest.lines, chosen, &gains);
            Err(fault)
        }
    }
}

/// What the statements add, in numbers. Paths that have none get them.
fn gains_of(
    alloc: Global,
    paths: &mut Paths,
    additions: &[Addition],
) -> Result<Vec<Gain>, AllocError>
    ensures more { HasMore paths.old paths.new }
    ensures gains { IfOk result (λ gains. AreGainsIn paths.new (map addition_of additions.now) gains.items) }
{
    let mut gains = Vec::with_capacity(alloc, additions.len())?;
    for addition in additions {
        gains.push(Gain {
            outputs: numbers_of(alloc, paths, addition.outputs.as_slice())?,
            inputs: numbers_of(alloc, paths, addition.inputs.as_slice())?,
        })?;
    }
    Ok(gains)
}

fn numbers_of(alloc: Global, paths: &mut Paths, texts: &[Path]) -> Result<Few, AllocError>
    ensures more { HasMore paths.old paths.new }
    ensures numbers { IfOk result (λ numbers. AreNumbersIn paths.new texts.now numbers) }
{
    let mut numbers = Few::new(alloc);
    for text in texts {
        numbers.push(paths.add(alloc, text.as_str())?)?;
    }
    Ok(numbers)
}

/// Gives lines what the statements add that were chosen for their edges. Where memory is refused, they stay as they were.
fn grow_lines(lines: &mut Lines, chosen: &[Choice], gains: &[Gain]) -> Result<(), AllocError>
    requires rising { AreRising (chosen_edges chosen.now) }
    requires within { All (IsWithin (length lines.old) (length gains.now)) chosen.now }
    ensures ok { OnOk result (lines.new ≡ lines_given gains.now lines.old chosen.now) }
    ensures err { OnErr result (lines.new ≡ lines.old) }
{
    for (done, choice) in chosen.iter().enumerate() {
        if grow_line(lines, *choice, gains).is_err() {
            shrink_lines(lines, &chosen[..done], gains);
            return Err(AllocError);
        }
    }
    Ok(())
}

/// Takes back what lines were given, which takes no memory.
pub(crate) fn shrink_lines(lines: &mut Lines, chosen: &[Choice], gains: &[Gain])
    requires { (before : List Line) × AreGivenTo gains.now chosen.now before lines.old }
    ensures { (before : List Line) → AreGivenTo gains.now chosen.now before lines.old → lines.new ≡ before }
{
    for choice in chosen {
        shrink_line(lines, *choice, gains);
    }
}

/// Takes from the line of an edge what the statement added that was chosen for it.
fn shrink_line(lines: &mut Lines, choice: Choice, gains: &[Gain])
    requires { IsWithin (length lines.old) (length gains.now) choice }
    ensures { lines.new ≡ lines_without gains.now lines.old choice.edge choice.statement }
{
    match choice.statement {
        Some(statement) => {
            let gain = &gains[statement];
            lines.shrink(choice.edge, gain.outputs.len(), gain.inputs.len());
        }
        None => {}
    }
}

/// Gives the line of an edge what the statement adds that was chosen for it. Where memory is refused, it stays as it was.
fn grow_line(lines: &mut Lines, choice: Choice, gains: &[Gain]) -> Result<(), AllocError>
    requires { IsWithin (length lines.old) (length gains.now) choice }
    ensures ok { OnOk result (lines.new ≡ lines_with gains.now lines.old choice.edge choice.statement) }
    ensures err { OnErr result (lines.new ≡ lines.old) }
{
    match choice.statement {
        Some(statement) => {
            let gain = &gains[statement];
            lines.grow(choice.edge, gain.outputs.as_slice(), gain.inputs.as_slice())?;
            Ok(())
        }
        None => Ok(()),
    }
}

/// The edges that gained an output make it, and those that gained an input are among its users. Where that is refused, nothing is
/// changed.
fn grow_parts(
    alloc: Global,
    manifest: &Manifest,
    parts: &mut Parts,
    chosen: &[Choice],
    gains: &[Gain],
) -> Result<(), ExtendFault>
    requires makers { length parts.old.makers ≤ length manifest.now.paths }
    requires grown { AreGrownFrom gains.now chosen.now parts.old.makers manifest.now.lines }
    requires users { length parts.old.users ≤ length manifest.now.paths }
    requires outputs { AreOutputsBelow (length manifest.now.paths) gains.now }
    requires inputs { AreInputsBelow (length manifest.now.paths) gains.now }
    ensures makers { OnOk result (AreMakers manifest.now parts.new.makers) }
    ensures fits { OnOk result (length parts.new.makers ≡ length manifest.now.paths) }
    ensures gained { OnOk result (HaveGainedBy gains.now chosen.now parts.old.makers parts.new.makers) }
    ensures users { OnOk result (AreUsersGiven gains.now manifest.now parts.old.users chosen.now parts.new.users) }
    ensures grown { OnOk result (HaveGrown gains.now chosen.now parts.old.users parts.new.users) }
    ensures apart { OnOk result (HaveOnePlace manifest.now.paths) }
    ensures kept { OnErr result (parts.new ≡ parts.old) }
    ensures fault { IfErr result (IsPartsFault manifest.now) }
{
    let known = parts.users.len();
    let paths = manifest.paths.len();
    grow_users(&mut parts.users, paths, chosen, gains)?;
    match grow_makers(alloc, manifest, &mut parts.makers, chosen, gains) {
        Ok(()) => Ok(()),
        Err(fault) => {
            unuse_gains(&mut parts.users, chosen, gains);
            parts.users.truncate(known);
            Err(extend_fault(fault))
        }
    }
}

/// Makes each edge the maker of the outputs that it gained. Where one of these has a maker, all edges are gone through, for the first
/// fault in reading order, and nothing is changed.
fn grow_makers(
    alloc: Global,
    manifest: &Manifest,
    makers: &mut Items<Option<EdgeId>>,
    chosen: &[Choice],
    gains: &[Gain],
) -> Result<(), GraphFault>
    requires fits { length makers.old ≤ length manifest.now.paths }
    requires grown { AreGrownFrom gains.now chosen.now makers.old manifest.now.lines }
    requires outputs { AreOutputsBelow (length manifest.now.paths) gains.now }
    ensures makers { OnOk result (AreMakers manifest.now makers.new) }
    ensures fits { OnOk result (length makers.new ≡ length manifest.now.paths) }
    ensures gained { OnOk result (HaveGainedBy gains.now chosen.now makers.old makers.new) }
    ensures kept { OnErr result (makers.new ≡ makers.old) }
    ensures fault { IfErr result (IsMakingFault (graph_of manifest.now).edges (length manifest.now.lines)) }
{
    if claim_more(alloc, makers, manifest.paths.len(), chosen, gains)? {
        return Ok(());
    }
    Err(first_fault(alloc, manifest))
}

/// The first fault in reading order of edges that do not each make their outputs alone.
fn first_fault(alloc: Global, manifest: &Manifest) -> GraphFault
    ensures { IsMakingFault (graph_of manifest.now).edges (length manifest.now.lines) result }
{
    match makers_of(alloc, manifest) {
        Err(fault) => fault,
        // never: an output that has a maker already is found there, too
        Ok(_) => GraphFault::Memory,
    }
}

/// There may be makers of so many paths, and each edge makes the outputs that it gained, if none of these has a maker. Whether it is
/// so; else nothing is changed.
fn claim_more(
    alloc: Global,
    makers: &mut Items<Option<EdgeId>>,
    paths: usize,
    chosen: &[Choice],
    gains: &[Gain],
) -> Result<bool, AllocError>
    requires fits { length makers.old ≤ paths }
    requires outputs { AreOutputsBelow paths gains.now }
    requires within { (lines : ℕ) × All (IsWithin lines (length gains.now)) chosen.now }
    ensures fits { IfYes result (length makers.new ≡ paths) }
    ensures made { IfYes result (ClaimsGains gains.now chosen.now makers.old makers.new) }
    ensures gained { IfYes result (HaveGainedBy gains.now chosen.now makers.old makers.new) }
    ensures kept { IfNo result (makers.new ≡ makers.old) }
    ensures err { OnErr result (makers.new ≡ makers.old) }
{
    let mut grown = mem::replace(makers, Items::new(alloc)).into_vec();
    let claimed = claim_within(&mut grown, paths, chosen, gains);
    *makers = Items::from_vec(grown);
    claimed
}

/// The same, of a list.
fn claim_within(
    makers: &mut Vec<Option<EdgeId>>,
    paths: usize,
    chosen: &[Choice],
    gains: &[Gain],
) -> Result<bool, AllocError>
    requires fits { length makers.old.items ≤ paths }
    requires outputs { AreOutputsBelow paths gains.now }
    requires within { (lines : ℕ) × All (IsWithin lines (length gains.now)) chosen.now }
    ensures fits { IfYes result (length makers.new.items ≡ paths) }
    ensures made { IfYes result (ClaimsGains gains.now chosen.now makers.old.items makers.new.items) }
    ensures gained { IfYes result (HaveGainedBy gains.now chosen.now makers.old.items makers.new.items) }
    ensures kept { IfNo result (makers.new.items ≡ makers.old.items) }
    ensures err { OnErr result (makers.new.items ≡ makers.old.items) }
{
    let known = makers.len();
    makers.resize(paths, None)?;
    if claim_gains(makers.as_mut_slice(), chosen, gains) {
        return Ok(true);
    }
    makers.truncate(known);
    Ok(false)
}

/// Makes each edge the maker of the outputs that it gained, if none of them had one. Whether it is so; else nothing is changed.
fn claim_gains(makers: &mut [Option<EdgeId>], chosen: &[Choice], gains: &[Gain]) -> bool
    requires outputs { AreOutputsBelow (length makers.old) gains.now }
    requires within { (lines : ℕ) × All (IsWithin lines (length gains.now)) chosen.now }
    ensures fits { length makers.new ≡ length makers.old }
    ensures made { result ≡ true → ClaimsGains gains.now chosen.now makers.old makers.new }
    ensures gained { result ≡ true → HaveGainedBy gains.now chosen.now makers.old makers.new }
    ensures kept { result ≡ false → makers.new ≡ makers.old }
{
    for (done, choice) in chosen.iter().enumerate() {
        if !claim_gain(makers, *choice, gains) {
            free_gains(makers, &chosen[..done], gains);
            return false;
        }
    }
    true
}

/// The same for one edge.
fn claim_gain(makers: &mut [Option<EdgeId>], choice: Choice, gains: &[Gain]) -> bool
    requires outputs { AreOutputsBelow (length makers.old) gains.now }
    requires within { IfSome choice.statement (λ k. k < length gains.now) }
    ensures fits { length makers.new ≡ length makers.old }
    ensures claimed { result ≡ true → ClaimsWith gains.now makers.old makers.new choice.edge choice.statement }
    ensures kept { result ≡ false → makers.new ≡ makers.old }
{
    match choice.statement {
        Some(statement) => claim_free(makers, gains[statement].outputs.as_slice(), choice.edge),
        None => true,
    }
}

/// Takes from each edge the outputs that it gained: they have no maker any more.
pub(crate) fn free_gains(makers: &mut [Option<EdgeId>], chosen: &[Choice], gains: &[Gain])
    requires outputs { AreOutputsBelow (length makers.old) gains.now }
    requires within { (lines : ℕ) × All (IsWithin lines (length gains.now)) chosen.now }
    ensures { AreFreed (gained_outputs gains.now chosen.now) makers.old makers.new }
{
    for choice in chosen {
        free_gain(makers, *choice, gains);
    }
}

/// The same for one edge.
fn free_gain(makers: &mut [Option<EdgeId>], choice: Choice, gains: &[Gain])
    requires outputs { AreOutputsBelow (length makers.old) gains.now }
    requires within { IfSome choice.statement (λ k. k < length gains.now) }
    ensures { AreFreed (gain_of gains.now choice.statement).outputs makers.old makers.new }
{
    match choice.statement {
        Some(statement) => free(makers, gains[statement].outputs.as_slice()),
        None => {}
    }
}

/// There are lists of users for so many paths, and each edge stands behind those that name the inputs that it gained. Where memory is
/// refused, nothing is changed.
fn grow_users(
    users: &mut Users,
    paths: usize,
    chosen: &[Choice],
    gains: &[Gain],
) -> Result<(), AllocError>
    requires longer { length users.old ≤ paths }
    requires inputs { AreInputsBelow paths gains.now }
    requires within { (lines : ℕ) × All (IsWithin lines (length gains.now)) chosen.now }
    ensures ok { OnOk result (users.new ≡ users_given gains.now (more_lists users.old paths) chosen.now) }
    ensures err { OnErr result (users.new ≡ users.old) }
{
    let known = users.len();
    users.lengthen(paths)?;
    let used = use_gains(users, chosen, gains);
    if used.is_err() {
        users.truncate(known);
    }
    used
}

/// Puts each edge behind those that name the inputs that it gained. Where memory is refused, nothing is changed.
fn use_gains(users: &mut Users, chosen: &[Choice], gains: &[Gain]) -> Result<(), AllocError>
    requires inputs { AreInputsBelow (length users.old) gains.now }
    requires within { (lines : ℕ) × All (IsWithin lines (length gains.now)) chosen.now }
    ensures ok { OnOk result (users.new ≡ users_given gains.now users.old chosen.now) }
    ensures err { OnErr result (users.new ≡ users.old) }
{
    for (done, choice) in chosen.iter().enumerate() {
        if use_gain(users, *choice, gains).is_err() {
            unuse_gains(users, &chosen[..done], gains);
            return Err(AllocError);
        }
    }
    Ok(())
}

/// The same for one edge.
fn use_gain(users: &mut Users, choice: Choice, gains: &[Gain]) -> Result<(), AllocError>
    requires inputs { AreInputsBelow (length users.old) gains.now }
    requires within { IfSome choice.statement (λ k. k < length gains.now) }
    ensures ok { OnOk result (users.new ≡ users_with gains.now users.old choice.edge choice.statement) }
    ensures err { OnErr result (users.new ≡ users.old) }
{
    match choice.statement {
        Some(statement) => {
            users.push_all(gains[statement].inputs.as_slice(), choice.edge)?;
            Ok(())
        }
        None => Ok(()),
    }
}

/// Takes an edge from behind those that name a path, for each time that an edge gained the path as an input.
pub(crate) fn unuse_gains(users: &mut Users, chosen: &[Choice], gains: &[Gain])
    requires inputs { AreInputsBelow (length users.old) gains.now }
    requires within { (lines : ℕ) × All (IsWithin lines (length gains.now)) chosen.now }
    ensures { AreCut (gained_times gains.now chosen.now) users.old users.new }
{
    for choice in chosen {
        unuse_gain(users, *choice, gains);
    }
}

/// The same for one edge.
fn unuse_gain(users: &mut Users, choice: Choice, gains: &[Gain])
    requires inputs { AreInputsBelow (length users.old) gains.now }
    requires within { IfSome choice.statement (λ k. k < length gains.now) }
    ensures { AreCut (times (gain_of gains.now choice.statement).inputs) users.old users.new }
{
    match choice.statement {
        Some(statement) => users.pop_all(gains[statement].inputs.as_slice()),
        None => {}
    }
}

/// The fault of a graph whose dyndep files are inputs: an edge keeps its inputs.
fn extend_fault(fault: GraphFault) -> ExtendFault
    ensures { result ≡ extend_fault_of fault }
{
    match fault {
        GraphFault::MadeTwice(path) => ExtendFault::MadeTwice(path),
        GraphFault::Memory | GraphFault::NoDyndepInput(_) | GraphFault::Occupied(_) => {
            ExtendFault::Memory
        }
    }
}

/// The dyndep file of each edge that a statement was chosen for is loaded; where that says so its outputs may stay as they
/// were.
fn load_actions(actions: &mut [Action], additions: &[Addition], chosen: &[Choice])
    requires { All (IsWithin (length actions.old) (length additions.now)) chosen.now }
    ensures { actions.new ≡ actions_given (map addition_of additions.now) actions.old chosen.now }
{
    for choice in chosen {
        load_chosen(
            &mut actions[choice.edge.index()],
            choice.statement,
            additions,
        );
    }
}

/// The same for one edge.
fn load_chosen(action: &mut Action, choice: Option<usize>, additions: &[Addition])
    requires { (k : ℕ) → choice ≡ Some k → k < length additions.now }
    ensures { action.new ≡ action_with (map addition_of additions.now) action.old choice }
{
    if let Some(statement) = choice {
        load_action(action, additions[statement].restat);
    }
}

fn load_action(action: &mut Action, restat: bool)
    ensures { action.new ≡ loaded_action restat action.old }
{
    if let Action::Command(command) = action {
        command.dyndep = None;
        command.restat = command.restat || restat;
    }
}
