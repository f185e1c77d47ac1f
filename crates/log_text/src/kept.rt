//! What is kept of the records of a log: outputs by number, and for each the record in force.

ghost use Rattle.std.specs.Prelude.{◌≡◌, ◌<◌, ◌≤◌, ◌↔◌, ◌-◌, [], ◌∷◌, ◌++◌, true, Option, Some, IsTrue, IfOk, OnOk, OnErr, length, take, slice_get};
ghost use Rattle.std.specs.List.{list_any};
ghost use Rattle.std.specs.Option.{option_copied, option_map};
ghost use Rattle.log_text.specs.Kept.{IsTableOf, AreDistinct, AreNumbersOf, told_of, tolds, place_of, place_at, is_place, is_left, tellings, in_force_of, outputs_left, texts_at, if_some};
ghost use Rattle.log_text.specs.Keeping.{OfTable, KeepsSame, KeepsAlso, PutsOne, PutsTwo, AreOther, at_number, IsToCompact};
ghost use Rattle.log_text.specs.Found.{texts_in, tellings_in, AreNamed, PutsFound, PutsLeft, Leaves};
ghost use Rattle.log_text.specs.Steps.{IsFilled, IsGrown, IsSaid};
ghost use Rattle.text.specs.Marks.{Lacks};
ghost use Rattle.log_text.specs.Answered.{IfFound};
ghost use Rattle.log_text.specs.Taken.{AreTakenFrom, AreTakenBehind, IsTaken, TakesSome};

use crate::field::Field;
use crate::line::plain_field;
use crate::texts::{Front, Texts, small};
use std::alloc::{AllocError, Global};
use std::marker::Model;
use text::Items;

/// How many texts more are taken behind one that the one in front told before a run is looked for again: as many in all as a run has, so
/// that the next look is often where a run began that came before.
const MORE: usize = 7;

/// Which record of each output is in force, where a record tells something (`T`) of several outputs at once, or says
/// that from now on nothing is in force for them.
///
/// Each output is kept once, and each `T` once. A record that tells something has a number, its place among those that
/// do, from 0. Texts that a `T` names can be given numbers beside the outputs, so that each is kept once too.
#[derive(Drop)]
pub struct Kept<T> {
    outputs: Texts,
    /// For each output the number of the record in force, if there is one.
    in_force: Vec<Option<u32>>,
    told: Vec<Told<T>>,
    records: u64,
}

/// A record in force: the outputs for which it is, and what it tells.
pub type InForce<'a, T> = (Items<&'a str>, &'a T);

/// A record that tells something, with the numbers of its outputs.
#[derive(Drop)]
struct Told<T> {
    outputs: Items<u32>,
    told: T,
}

impl<T> Model for Told<T> {
    ghost use Rattle.std.specs.Prelude.{ℕ, List};

    ghost Value = { List ℕ × T };

    ghost view = { λ told. (told.outputs, told.told) };
}

impl<T> Model for Kept<T> {
    ghost use Rattle.log_text.specs.Kept.{Table};

    ghost Value = { Table T };

    ghost view = { λ kept. record { outputs = kept.outputs; in_force = kept.in_force.items; told = kept.told.items; records = kept.records } };
}

impl<T: Drop> Kept<T> {
    /// What is kept of no records. It takes no memory.
    pub fn new(alloc: Global) -> Kept<T>
        ensures { IsTableOf [] result }
    {
        Kept {
            outputs: Texts::new(alloc),
            in_force: Vec::new(alloc),
            told: Vec::new(alloc),
            records: 0,
        }
    }

    /// Puts a record at the end: what it tells of these outputs, or, by `None`, that nothing is in force for them. Where
    /// memory is refused, what is kept stands for the same records as before.
    pub fn put(
        &mut self,
        alloc: Global,
        outputs: &[Field<'_>],
        said: Option<T>,
    ) -> Result<(), AllocError>
        requires { AreDistinct outputs.now }
        ensures ok { OnOk result (KeepsAlso IsTableOf (outputs.now, said) self.old self.new) }
        ensures err { OnErr result (KeepsSame IsTableOf self.old self.new) }
        ensures grown { IsGrown self.old self.new }
    {
        let records = self.records.checked_add(1).ok_or(AllocError)?;
        let numbers = self.numbers(alloc, outputs)?;
        self.say(numbers, said)?;
        self.records = records;
        Ok(())
    }

    /// Puts a record of the output with this number at the end. Where memory is refused, what is kept stands for the same records as
    /// before.
    pub(crate) fn put_one(
        &mut self,
        alloc: Global,
        number: u32,
        said: Option<T>,
    ) -> Result<(), AllocError>
        ensures ok { OnOk result (PutsOne number said self.old self.new) }
        ensures err { OnErr result (KeepsSame IsTableOf self.old self.new) }
    {
        let records = self.records.checked_add(1).ok_or(AllocError)?;
        self.say_one(alloc, number, said)?;
        self.records = records;
        Ok(())
    }

    /// Puts a record of the outputs with these two numbers at the end. Where memory is refused, what is kept stands for the same records
    /// as before.
    pub(crate) fn put_two(
        &mut self,
        alloc: Global,
        first: u32,
        second: u32,
        said: Option<T>,
    ) -> Result<(), AllocError>
        ensures ok { OnOk result (PutsTwo first second said self.old self.new) }
        ensures err { OnErr result (KeepsSame IsTableOf self.old self.new) }
    {
        let records = self.records.checked_add(1).ok_or(AllocError)?;
        let mut numbers = Vec::with_capacity(alloc, 2)?;
        numbers.push(first)?;
        numbers.push(second)?;
        self.say(Items::from_vec(numbers), said)?;
        self.records = records;
        Ok(())
    }

    /// Whether these are the numbers of two texts that are not the same.
    pub(crate) fn differ(&self, first: u32, second: u32) -> bool
        ensures { result ≡ true → AreOther self.now.outputs first second }
    {
        let Some(one) = self.text(first) else {
            return false;
        };
        let Some(other) = self.text(second) else {
            return false;
        };
        one != other
    }

    /// The numbers of these texts; those that have none get one, which stays theirs. What is kept stands for the same
    /// records as before.
    pub fn numbers(&mut self, alloc: Global, texts: &[Field<'_>]) -> Result<Items<u32>, AllocError>
        ensures same { KeepsSame IsTableOf self.old self.new }
        ensures records { self.new.records ≡ self.old.records }
        ensures grown { IsGrown self.old self.new }
        ensures numbers { IfOk result (λ numbers. AreNumbersOf self.new.outputs numbers texts.now) }
    {
        let mut numbers = Vec::with_capacity(alloc, texts.len())?;
        for text in texts {
            let number = self.number(alloc, text.as_str())?;
            numbers.push(number)?;
        }
        Ok(Items::from_vec(numbers))
    }

    /// The numbers of the texts whose fields, so many, stand in front, and what stands behind them, where no byte of them is
    /// written as two. Texts that have no number get one. What is kept stands for the same records as before.
    ///
    /// Of a text that came behind the one before it in an earlier call little more is done than to compare it. Where more texts came in
    /// no such order than did, a text is looked for by a sum of its bytes first, and then compared; where sums tell nothing for long, only
    /// one text in eight is. The longest call doubles the table of sums, of at most as many places as there are texts.
    #[inline(never)]
    pub fn take_numbers<'a>(
        &mut self,
        alloc: Global,
        bytes: &'a [u8],
        count: usize,
    ) -> Result<Option<(Items<u32>, &'a [u8])>, AllocError>
        requires { Lacks 10 bytes.now }
        ensures same { KeepsSame IsTableOf self.old self.new }
        ensures records { self.new.records ≡ self.old.records }
        ensures grown { IsGrown self.old self.new }
        ensures numbers { IfFound result (λ parts. AreTakenFrom self.new.outputs bytes.now count parts.0 parts.1.now) }
    {
        if bytes.len() < count {
            return Ok(None);
        }
        let mut numbers = Vec::with_capacity(alloc, count)?;
        let mut rest = bytes;
        while numbers.len() < count {
            let most = count - numbers.len();
            let Some(after) = self.take_some(alloc, rest, most, &mut numbers)? else {
                return Ok(None);
            };
            rest = after;
        }
        Ok(Some((Items::from_vec(numbers), rest)))
    }

    /// Puts the numbers of texts whose fields stand in front, one at least and so many at most, behind those of the texts before
    /// them, and gives what stands behind their fields.
    fn take_some<'a>(
        &mut self,
        alloc: Global,
        bytes: &'a [u8],
        most: usize,
        numbers: &mut Vec<u32>,
    ) -> Result<Option<&'a [u8]>, AllocError>
        requires line_feed { Lacks 10 bytes.now }
        requires most { 0 < most }
        ensures same { KeepsSame IsTableOf self.old self.new }
        ensures records { self.new.records ≡ self.old.records }
        ensures grown { IsGrown self.old self.new }
        ensures taken { TakesSome result self.new.outputs bytes.now most numbers.old.items numbers.new.items }
    {
        let last = last_of(numbers.as_slice());
        let missed = match self.outputs.take_by_sum(last, bytes) {
            Ok((number, after)) => {
                numbers.push(number)?;
                return Ok(Some(after));
            }
            Err(missed) => missed,
        };
        if let Some((run, after)) = self.outputs.follow_run(last, bytes, most) {
            numbers.extend_from_slice(run)?;
            return Ok(Some(after));
        }
        if let Some((number, after)) = self.outputs.follow_on(last, bytes) {
            numbers.push(number)?;
            let rest = self.follow_more(number as usize, after, most - 1, numbers)?;
            return Ok(Some(rest));
        }
        self.take_few(alloc, last, bytes, most, missed, numbers)
    }

    /// The same, where no run that came behind `last` stands in front, nor a text that came behind it, unless there is room for a run,
    /// and `missed` is what seems to stand there if its sum tells no text. What came behind `last` one by one is a run from now on, where
    /// there is room for one; a text that only its sum told begins none.
    #[inline(never)]
    fn take_few<'a>(
        &mut self,
        alloc: Global,
        last: usize,
        bytes: &'a [u8],
        most: usize,
        missed: Option<Front>,
        numbers: &mut Vec<u32>,
    ) -> Result<Option<&'a [u8]>, AllocError>
        requires line_feed { Lacks 10 bytes.now }
        requires most { 0 < most }
        ensures same { KeepsSame IsTableOf self.old self.new }
        ensures records { self.new.records ≡ self.old.records }
        ensures grown { IsGrown self.old self.new }
        ensures taken { TakesSome result self.new.outputs bytes.now most numbers.old.items numbers.new.items }
    {
        match self.outputs.take_known(last, bytes, missed) {
            Ok(Some((number, after))) => {
                numbers.push(number)?;
                Ok(Some(after))
            }
            Ok(None) => self.take_run(alloc, last, bytes, most, numbers),
            Err(front) => {
                let found = self.push_unknown(alloc, last, bytes, front, numbers)?;
                Ok(found)
            }
        }
    }

    /// The same, of texts that came one behind another.
    fn take_run<'a>(
        &mut self,
        alloc: Global,
        last: usize,
        bytes: &'a [u8],
        most: usize,
        numbers: &mut Vec<u32>,
    ) -> Result<Option<&'a [u8]>, AllocError>
        requires line_feed { Lacks 10 bytes.now }
        requires most { 0 < most }
        ensures same { KeepsSame IsTableOf self.old self.new }
        ensures records { self.new.records ≡ self.old.records }
        ensures grown { IsGrown self.old self.new }
        ensures taken { TakesSome result self.new.outputs bytes.now most numbers.old.items numbers.new.items }
    {
        let (few, after) = self.outputs.follow_few(alloc, last, bytes, most)?;
        if few.is_empty() {
            return Ok(None);
        }
        let front = front_before(bytes, after);
        self.outputs.note_run(alloc, last, few.as_slice(), front)?;
        numbers.extend_from_slice(few.as_slice())?;
        Ok(Some(after))
    }

    /// The same, of one text.
    fn push_unknown<'a>(
        &mut self,
        alloc: Global,
        last: usize,
        bytes: &'a [u8],
        front: Option<Front>,
        numbers: &mut Vec<u32>,
    ) -> Result<Option<&'a [u8]>, AllocError>
        requires { Lacks 10 bytes.now }
        ensures same { KeepsSame IsTableOf self.old self.new }
        ensures records { self.new.records ≡ self.old.records }
        ensures grown { IsGrown self.old self.new }
        ensures taken { TakesSome result self.new.outputs bytes.now 1 numbers.old.items numbers.new.items }
    {
        let Some((number, after)) = self.take_unknown(alloc, last, bytes, front)? else {
            return Ok(None);
        };
        numbers.push(number)?;
        Ok(Some(after))
    }

    /// Puts the numbers of texts whose fields stand in front, each of which came behind the one before it, behind those of the texts before
    /// them, and gives what stands behind their fields. So many are taken at most, `MORE` at most, and none where a run is to begin.
    #[inline(always)]
    fn follow_more<'a>(
        &mut self,
        last: usize,
        bytes: &'a [u8],
        most: usize,
        numbers: &mut Vec<u32>,
    ) -> Result<&'a [u8], AllocError>
        ensures same { self.new ≡ self.old }
        ensures taken { IfOk result (λ rest. AreTakenBehind self.new.outputs numbers.old.items bytes.now most numbers.new.items rest.now) }
    {
        let mut rest = bytes;
        let mut before = last;
        for _ in 0..most.min(MORE) {
            let Some((number, after)) = self.outputs.follow_on(before, rest) else {
                break;
            };
            numbers.push(number)?;
            rest = after;
            before = number as usize;
        }
        Ok(rest)
    }

    /// The number of the text whose field stands in front, behind that of `last`, and what stands behind its tab, where no byte
    /// of it is written as two.
    fn take_unknown<'a>(
        &mut self,
        alloc: Global,
        last: usize,
        bytes: &'a [u8],
        front: Option<Front>,
    ) -> Result<Option<(u32, &'a [u8])>, AllocError>
        requires { Lacks 10 bytes.now }
        ensures same { KeepsSame IsTableOf self.old self.new }
        ensures records { self.new.records ≡ self.old.records }
        ensures grown { IsGrown self.old self.new }
        ensures number { IfFound result (λ parts. IsTaken self.new.outputs bytes.now parts.0 parts.1.now) }
    {
        let Some((text, after)) = plain_field(bytes) else {
            return Ok(None);
        };
        let number = self.number(alloc, text)?;
        self.outputs.note(last, number, text, front);
        Ok(Some((number, after)))
    }

    /// The number of the text whose field stands in front, and what stands behind its tab, where no byte of it is written as two.
    /// One that came behind the text with the number `last` before is compared, another one is looked up. A text that has no
    /// number gets one. What is kept stands for the same records as before.
    pub(crate) fn take_behind<'a>(
        &mut self,
        alloc: Global,
        last: usize,
        bytes: &'a [u8],
    ) -> Result<Option<(u32, &'a [u8])>, AllocError>
        requires { Lacks 10 bytes.now }
        ensures same { KeepsSame IsTableOf self.old self.new }
        ensures grown { IsGrown self.old self.new }
        ensures number { IfFound result (λ parts. IsTaken self.new.outputs bytes.now parts.0 parts.1.now) }
    {
        if let Some((number, after)) = self.outputs.follow(last, bytes) {
            return Ok(Some((number, after)));
        }
        let found = self.take_unknown(alloc, last, bytes, None)?;
        Ok(found)
    }

    /// The number of an output; if it has none, it gets one. A number that has no room in four bytes is told as memory.
    fn number(&mut self, alloc: Global, output: &str) -> Result<u32, AllocError>
        ensures same { KeepsSame IsTableOf self.old self.new }
        ensures records { self.new.records ≡ self.old.records }
        ensures grown { IsGrown self.old self.new }
        ensures number { IfOk result (λ number. slice_get self.new.outputs number ≡ Some output.now) }
    {
        let found = self.number_of(alloc, output)?;
        let Some(number) = small(found) else {
            return Err(AllocError);
        };
        Ok(number)
    }

    /// The same, whether it has room in four bytes or not.
    fn number_of(&mut self, alloc: Global, output: &str) -> Result<usize, AllocError>
        ensures same { KeepsSame IsTableOf self.old self.new }
        ensures records { self.new.records ≡ self.old.records }
        ensures grown { IsGrown self.old self.new }
        ensures number { IfOk result (λ number. slice_get self.new.outputs number ≡ Some output.now) }
    {
        if let Some(number) = self.outputs.find(output) {
            return Ok(number);
        }
        self.in_force.reserve(1)?;
        let number = self.outputs.add(alloc, output)?;
        self.in_force.push(None)?;
        Ok(number)
    }

    /// Takes down what a record says of the outputs with these numbers. Where memory is refused, nothing changes.
    fn say(&mut self, numbers: Items<u32>, said: Option<T>) -> Result<(), AllocError>
        ensures ok { OnOk result (IsSaid self.old numbers said self.new) }
        ensures err { OnErr result (self.new ≡ self.old) }
    {
        match said {
            Some(told) => self.tell(numbers, told),
            None => {
                fill(self.in_force.as_mut_slice(), numbers.as_slice(), None);
                Ok(())
            }
        }
    }

    /// Takes down what a record says of the output with this number. Where memory is refused, nothing changes.
    fn say_one(&mut self, alloc: Global, number: u32, said: Option<T>) -> Result<(), AllocError>
        ensures ok { OnOk result (IsSaid self.old (number ∷ []) said self.new) }
        ensures err { OnErr result (self.new ≡ self.old) }
    {
        match said {
            Some(told) => {
                let numbers = Vec::from_slice(alloc, &[number])?;
                self.tell(Items::from_vec(numbers), told)
            }
            None => {
                fill(self.in_force.as_mut_slice(), &[number], None);
                Ok(())
            }
        }
    }

    /// Takes down what a record tells of the outputs with these numbers. Where memory is refused, nothing changes.
    fn tell(&mut self, numbers: Items<u32>, told: T) -> Result<(), AllocError>
        ensures ok { OnOk result (IsSaid self.old numbers (Some told) self.new) }
        ensures err { OnErr result (self.new ≡ self.old) }
    {
        let Some(place) = small(self.told.len()) else {
            return Err(AllocError);
        };
        self.told.reserve(1)?;
        fill(
            self.in_force.as_mut_slice(),
            numbers.as_slice(),
            Some(place),
        );
        self.told.push(Told {
            outputs: numbers,
            told,
        })?;
        Ok(())
    }

    /// The number of the record in force for an output. It takes no memory.
    pub fn find(&self, output: &str) -> Option<usize>
        ensures place { OfTable self.now (λ all. result ≡ place_of all output.now) }
        ensures told { OfTable self.now (λ all. at_number (tolds all) result ≡ told_of all output.now) }
    {
        let number = self.outputs.find(output)?;
        self.place(number)
    }

    /// What the record with this number tells. It takes no memory.
    pub fn at(&self, place: usize) -> Option<&T>
        ensures { OfTable self.now (λ all. option_copied result ≡ slice_get (tolds all) place) }
    {
        let told = self.telling(place)?;
        Some(&told.told)
    }

    /// What is in force for an output. It takes no memory.
    pub fn lookup(&self, output: &str) -> Option<&T>
        ensures { OfTable self.now (λ all. option_copied result ≡ told_of all output.now) }
    {
        self.at(self.find(output)?)
    }

    /// How many records there were.
    pub fn records(&self) -> u64
        ensures { OfTable self.now (λ all. result ≡ length all) }
    {
        self.records
    }

    /// How many records tell something: their numbers are those below.
    pub fn tellings(&self) -> usize
        ensures { OfTable self.now (λ all. result ≡ length (tellings all)) }
    {
        self.told.len()
    }

    /// How many records are in force, each for one of its outputs at least.
    pub fn records_in_force(&self) -> usize
        ensures { OfTable self.now (λ all. result ≡ length (in_force_of all)) }
    {
        let mut count = 0usize;
        for place in 0..self.tellings() {
            if self.is_in_force(place) {
                count += 1;
            }
        }
        count
    }

    /// Whether a log of these records is to be compacted: where it has at least 100 records, and more than half of them
    /// are not in force.
    pub fn wants_compaction(&self) -> bool
        ensures { OfTable self.now (λ all. IsTrue result ↔ IsToCompact all (in_force_of all)) }
    {
        let in_force = self.records_in_force() as u64;
        self.records >= 100 && in_force < self.records.saturating_sub(in_force)
    }

    /// The outputs for which the record with this number is in force, in its order.
    pub fn outputs_in_force(&self, alloc: Global, place: usize) -> Result<Vec<&str>, AllocError>
        ensures left { IfOk result (λ left. OfTable self.now (λ all. texts_in left.items ≡ outputs_left all place)) }
        ensures once { IfOk result (λ left. OfTable self.now (λ all. AreDistinct (texts_in left.items))) }
    {
        match self.telling(place) {
            Some(told) => self.texts_in_force(alloc, place, told.outputs.as_slice()),
            None => Ok(Vec::new(alloc)),
        }
    }

    /// The records in force in their order: the outputs for which each is in force, one at least, and what it tells.
    pub fn in_force(&self, alloc: Global) -> Result<Vec<InForce<'_, T>>, AllocError>
        ensures found { IfOk result (λ found. OfTable self.now (λ all. tellings_in found.items ≡ in_force_of all)) }
        ensures named { IfOk result (λ found. OfTable self.now (λ all. AreNamed found.items)) }
    {
        let mut found = Vec::new(alloc);
        for place in 0..self.tellings() {
            self.push_record(alloc, &mut found, place)?;
        }
        Ok(found)
    }

    /// Puts the record with this number at the end, if it is in force for one of its outputs.
    fn push_record<'a>(
        &'a self,
        alloc: Global,
        found: &mut Vec<InForce<'a, T>>,
        place: usize,
    ) -> Result<(), AllocError>
        ensures found { OnOk result (PutsFound self.now place found.old.items found.new.items) }
        ensures named { OnOk result (OfTable self.now (λ all. AreNamed found.old.items → AreNamed found.new.items)) }
    {
        let outputs = self.outputs_in_force(alloc, place)?;
        match self.at(place) {
            Some(told) if !outputs.is_empty() => found.push((Items::from_vec(outputs), told))?,
            _ => {}
        }
        Ok(())
    }

    /// The texts with these numbers.
    pub fn texts(&self, alloc: Global, numbers: &[u32]) -> Result<Vec<&str>, AllocError>
        ensures { IfOk result (λ texts. texts_in texts.items ≡ texts_at self.now.outputs numbers.now) }
    {
        let mut texts = Vec::with_capacity(alloc, numbers.len())?;
        for number in numbers {
            self.push_text(&mut texts, *number)?;
        }
        Ok(texts)
    }

    /// Puts the text with this number at the end, if there is one.
    fn push_text<'a>(&'a self, texts: &mut Vec<&'a str>, number: u32) -> Result<(), AllocError>
        ensures { OnOk result (texts_in texts.new.items ≡ texts_in texts.old.items ++ if_some (slice_get self.now.outputs number)) }
    {
        if let Some(text) = self.text(number) {
            texts.push(text)?;
        }
        Ok(())
    }

    /// Those of the outputs with these numbers for which the record is in force.
    fn texts_in_force(
        &self,
        alloc: Global,
        place: usize,
        outputs: &[u32],
    ) -> Result<Vec<&str>, AllocError>
        ensures { IfOk result (λ left. Leaves self.now place outputs.now left.items) }
    {
        let mut left = Vec::new(alloc);
        for number in outputs {
            self.push_in_force(&mut left, place, *number)?;
        }
        Ok(left)
    }

    /// Puts the output with this number at the end, if the record is in force for it.
    fn push_in_force<'a>(
        &'a self,
        left: &mut Vec<&'a str>,
        place: usize,
        number: u32,
    ) -> Result<(), AllocError>
        ensures { OnOk result (PutsLeft self.now place number left.old.items left.new.items) }
    {
        if !self.is_place(place, number) {
            return Ok(());
        }
        if let Some(output) = self.text(number) {
            left.push(output)?;
        }
        Ok(())
    }

    /// Whether the record with this number is in force for one of its outputs.
    fn is_in_force(&self, place: usize) -> bool
        ensures { OfTable self.now (λ all. result ≡ is_left all place) }
    {
        match self.telling(place) {
            Some(told) => self.has_in_force(place, told.outputs.as_slice()),
            None => false,
        }
    }

    /// Whether the record with this number is in force for one of the outputs with these numbers.
    fn has_in_force(&self, place: usize, outputs: &[u32]) -> bool
        ensures { result ≡ list_any (λ n. is_place place (place_at self.now n)) outputs.now }
    {
        outputs.iter().any(|number| self.is_place(place, *number))
    }

    /// Whether the record is in force for the output with this number.
    fn is_place(&self, place: usize, number: u32) -> bool
        ensures { result ≡ is_place place (place_at self.now number) }
    {
        self.place(number as usize) == Some(place)
    }

    /// The text with this number. It takes no memory.
    pub fn text(&self, number: u32) -> Option<&str>
        ensures { option_map (λ o. o.now) result ≡ slice_get self.now.outputs number }
    {
        self.outputs.at(number as usize)
    }

    fn telling(&self, place: usize) -> Option<&Told<T>>
        ensures { option_copied result ≡ slice_get self.now.told place }
    {
        self.told.get(place)
    }

    /// The number of the record in force for the output with this number.
    fn place(&self, number: usize) -> Option<usize>
        ensures { result ≡ place_at self.now number }
    {
        let place = (*self.in_force.get(number)?)?;
        Some(place as usize)
    }
}

/// The number behind which the next text of a list is looked for: the last of these. In front of the first, which is often in no
/// other list, nothing is known; what stands behind that is looked for behind the first text of all.
fn last_of(numbers: &[u32]) -> usize {
    match numbers {
        [] => usize::MAX,
        [_] => 0,
        [.., last] => *last as usize,
    }
}

/// What stands in front of a part that ends with the bytes.
fn front_before<'a>(bytes: &'a [u8], after: &[u8]) -> &'a [u8]
    requires { length after.now ≤ length bytes.now }
    ensures { result.now ≡ take (length bytes.now - length after.now) bytes.now }
{
    &bytes[..bytes.len() - after.len()]
}

/// Writes a value at each of these places that is there.
fn fill(slots: &mut [Option<u32>], places: &[u32], value: Option<u32>)
    ensures { IsFilled slots.old places.now value slots.new }
{
    for place in places {
        let slot = *place as usize;
        if slot < slots.len() {
            slots[slot] = value;
        }
    }
}
