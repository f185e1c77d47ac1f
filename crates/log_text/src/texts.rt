//! Texts by number, each once.

ghost use Rattle.std.specs.Prelude.{◌≡◌, ◌<◌, ◌≤◌, [], ◌∷◌, ◌++◌, List, ℕ, Some, false, IfOk, IfSome, IfNone, OnOk, OnErr, length, slice_get};
ghost use Rattle.std.specs.Option.{option_map};
ghost use Rattle.std.specs.Str.{IsUtf8};
ghost use Rattle.model.specs.Graph.{has};
ghost use Rattle.log_text.specs.Line.{field_and_tab, IsPlain};
ghost use Rattle.log_text.specs.Noted.{IsPlainAt, IsGuessIn, IsNoteIn, IsRunFrom, AreNotesOf};
ghost use Rattle.log_text.specs.Taken.{AreTaken, IsTaken};

use bstr::ByteSlice;
use indexmap::IndexSet;
use std::alloc::{AllocError, Global};
use std::marker::Model;
use std::simd::prelude::*;
use text::{Bytes, Items};

/// How many texts a run has at most.
const MOST_IN_RUN: usize = 8;

/// Where `by_sum` begins in a list, with room below for as many texts as a list has.
const AT_FIRST: usize = 1 << 30;

/// Where `by_sum` is this or more, the next texts of a list are looked for by their sums first.
const BY_SUM: usize = AT_FIRST + 2;

/// After so many texts in turn that the table of sums did not tell, it is asked for one text in `SELDOM` alone.
const PATIENCE: usize = 64;

/// Of how many texts the table is asked for one, where it has told none for long.
const SELDOM: usize = 8;

/// Texts by number, each once, which contracts see as their list. Each is copied once.
#[derive(Drop)]
pub struct Texts {
    texts: IndexSet<String>,
    /// For each text what is guessed of the one behind it.
    notes: Vec<Note>,
    runs: Vec<Run>,
    /// For the first texts the places of runs that came behind them.
    places: Vec<Places>,
    /// By the sum of what stands in front: what is guessed of the text there. It is as long as a power of two, or empty.
    table: Vec<Note>,
    /// How often a guess was noted in the table.
    noted: usize,
    /// From `AT_FIRST` up, how many texts of the list that is read `take_known` told by their sums; below, how many more it is to tell so
    /// than where a list begins: one for each that the one in front told, so the longer a list came in an order of before, the more of
    /// what comes behind is noted. Others, and runs that were noted, may stand between. It is `AT_FIRST` again where a list begins, and
    /// where `take_by_sum` missed a text or found the second in turn that is noted behind the text in front. Behind the first such text it
    /// is one more than `BY_SUM`, and `BY_SUM` behind one that is not noted so.
    by_sum: usize,
    /// How many texts the table did not tell since it last told one, where no text in front told them: those for which it was not
    /// asked are counted too, but not those that `take_by_sum` missed.
    missed: usize,
}

/// Texts whose fields came one behind another: their numbers, and the bytes of their fields. They are told from others at a
/// glance by the byte that they have at one place.
#[derive(Drop)]
pub struct Run {
    pub numbers: Items<u32>,
    pub bytes: Bytes,
    pub place: u32,
    pub byte: u8,
}

/// The places of runs that came behind a text.
#[derive(Clone, Copy)]
pub struct Places {
    pub first: Option<u32>,
    pub second: Option<u32>,
    pub third: Option<u32>,
}

impl Places {
    const NONE: Places = Places {
        first: None,
        second: None,
        third: None,
    };
}

/// Two texts that came behind a text, or that have one place in the table; none of them has a byte that is written as two.
/// They are guesses: what stands there is compared each time.
#[derive(Clone, Copy)]
pub struct Note {
    pub next: Option<Guess>,
    pub other: Option<Guess>,
}

impl Note {
    const NONE: Note = Note {
        next: None,
        other: None,
    };
}

/// A text by its number, and how it is told from others at a glance: its length, and the byte that it has at one place.
#[derive(Clone, Copy)]
pub struct Guess {
    pub number: u32,
    pub len: u16,
    pub place: u16,
    pub byte: u8,
}

/// The field that seems to stand in front: how long it is, and its sum.
#[derive(Clone, Copy)]
pub struct Front {
    pub len: usize,
    pub sum: u64,
}

impl Model for Texts {
    ghost use Rattle.std.specs.Prelude.{ℕ, List};
    ghost use Rattle.log_text.specs.Kept.{texts_of};
    ghost use Rattle.log_text.specs.Noted.{AreNoted};

    ghost Value = { List (List ℕ) };

    ghost view = { λ texts. texts_of texts.texts.keys };

    ghost invariant = { λ texts. AreNoted (texts_of texts.texts.keys) texts.notes.items texts.runs.items texts.table.items };
}

impl Texts {
    /// No texts, which takes no memory.
    pub(crate) fn new(alloc: Global) -> Texts
        ensures { result ≡ [] }
    {
        Texts {
            texts: IndexSet::new(alloc),
            notes: Vec::new(alloc),
            runs: Vec::new(alloc),
            places: Vec::new(alloc),
            table: Vec::new(alloc),
            noted: 0,
            by_sum: AT_FIRST,
            missed: 0,
        }
    }

    /// The number of a text. It takes no memory.
    pub(crate) fn find(&self, text: &str) -> Option<usize>
        ensures some { IfSome result (λ number. slice_get self.now number ≡ Some text.now) }
        ensures none { IfNone result (has self.now text.now ≡ false) }
    {
        let (number, _) = self.texts.get_full(text)?;
        Some(number)
    }

    /// The text with this number. It takes no memory.
    pub(crate) fn at(&self, number: usize) -> Option<&str>
        ensures { option_map (λ text. text.now) result ≡ slice_get self.now number }
    {
        let text = self.texts.get_index(number)?;
        Some(text.as_str())
    }

    /// Gives a number to a text that has none. Where memory is refused, nothing is changed.
    pub(crate) fn add(&mut self, alloc: Global, text: &str) -> Result<usize, AllocError>
        requires absent { has self.old text.now ≡ false }
        ensures added { OnOk result (self.new ≡ self.old ++ text.now ∷ []) }
        ensures number { IfOk result (λ number. slice_get self.new number ≡ Some text.now) }
        ensures err { OnErr result (self.new ≡ self.old) }
    {
        let own = String::from_str(alloc, text)?;
        self.notes.reserve(1)?;
        let (number, _) = self.texts.insert_full(own)?;
        self.notes.push(Note::NONE)?;
        Ok(number)
    }

    /// The number of the text whose field stands in front, and what stands behind the field and its tab, where it is a text
    /// that came behind `last` before.
    #[inline(always)]
    pub(crate) fn follow<'a>(&self, last: usize, bytes: &'a [u8]) -> Option<(u32, &'a [u8])>
        ensures { IfSome result (λ parts. IsTaken self.now bytes.now parts.0 parts.1.now) }
    {
        let guess = self.guess(last, bytes)?;
        let number = guess.number;
        let after = self.behind(number, bytes)?;
        Some((number, after))
    }

    /// The guess at a text that came behind `last` before, and of which it may be that it stands in front.
    #[inline(always)]
    fn guess(&self, last: usize, bytes: &[u8]) -> Option<Guess>
        ensures { IfSome result (λ guess. IsPlainAt self.now guess.number) }
    {
        let note = self.notes.get(last)?;
        standing(*note, bytes)
    }

    /// The same as `follow`, but for none where a run is to begin behind `last`.
    #[inline(always)]
    pub(crate) fn follow_on<'a>(&mut self, last: usize, bytes: &'a [u8]) -> Option<(u32, &'a [u8])>
        ensures same { self.new ≡ self.old }
        ensures taken { IfSome result (λ parts. IsTaken self.new bytes.now parts.0 parts.1.now) }
    {
        if self.has_room(last) {
            return None;
        }
        let (number, after) = self.follow(last, bytes)?;
        self.count_followed(1);
        Some((number, after))
    }

    /// Counts so many texts that were told by the ones in front.
    #[inline(always)]
    fn count_followed(&mut self, count: usize)
        ensures { self.new ≡ self.old }
    {
        self.by_sum = self.by_sum.min(AT_FIRST).saturating_sub(count);
    }

    /// The number of the text whose field stands in front, and what stands behind the field and its tab, where enough texts before
    /// it in its list were told by their sums alone, and it is told so too. In front of a list's first text `last` is no number. A text
    /// that is not told so is answered by an error, with what seems to stand in front where its sum was made and tells no text.
    ///
    /// Where the text was noted behind `last`, and so was the one before it behind its own, the list is in an order that came before:
    /// the texts behind it are told by the ones in front of them again.
    #[inline(always)]
    pub(crate) fn take_by_sum<'a>(
        &mut self,
        last: usize,
        bytes: &'a [u8],
    ) -> Result<(u32, &'a [u8]), Option<Front>>
        ensures same { self.new ≡ self.old }
        ensures taken { IfOk result (λ parts. IsTaken self.new bytes.now parts.0 parts.1.now) }
    {
        if last == usize::MAX {
            self.by_sum = AT_FIRST;
        }
        if self.by_sum < BY_SUM {
            return Err(None);
        }
        let Some(front) = self.front_in(last, bytes) else {
            return Err(None);
        };
        let Some((found, after)) = self.look(front, bytes) else {
            self.by_sum = AT_FIRST;
            return Err(Some(front));
        };
        self.by_sum = self.turns_behind(self.is_noted(last, found.number));
        Ok((found.number, after))
    }

    /// The same as `follow_on` where that gave none: none where a run is to begin behind `last`. Else the text has the sum of what stands
    /// in front, and is noted behind `last` from now on. A text that is not told so is answered by an error, with what seems to stand in
    /// front where its sum was made. Where `missed` has that already, its sum tells no text, and is not asked again.
    #[inline(always)]
    pub(crate) fn take_known<'a>(
        &mut self,
        last: usize,
        bytes: &'a [u8],
        missed: Option<Front>,
    ) -> Result<Option<(u32, &'a [u8])>, Option<Front>>
        ensures same { self.new ≡ self.old }
        ensures taken { IfOk result (λ found. IfSome found (λ parts. IsTaken self.new bytes.now parts.0 parts.1.now)) }
    {
        if self.has_room(last) && self.follow(last, bytes).is_some() {
            return Ok(None);
        }
        if missed.is_some() || !self.is_to_ask() {
            return Err(missed);
        }
        let Some(front) = self.front_in(last, bytes) else {
            return Err(None);
        };
        let Some((guess, after)) = self.look(front, bytes) else {
            return Err(Some(front));
        };
        self.by_sum = self.by_sum.saturating_add(1);
        self.missed = 0;
        self.note_guess(last, Some(guess));
        Ok(Some((guess.number, after)))
    }

    /// Whether the table is to be asked for one more text, which counts as one that it does not tell until it does.
    #[inline(always)]
    fn is_to_ask(&mut self) -> bool
        ensures { self.new ≡ self.old }
    {
        let missed = self.missed;
        self.missed = missed.wrapping_add(1);
        missed < PATIENCE || missed % SELDOM == 0
    }

    /// What `by_sum` is behind a text that `take_by_sum` told, and that is noted behind the text in front or is not: as where a list
    /// begins, behind the second in turn that is.
    #[inline(always)]
    fn turns_behind(&self, noted: bool) -> usize {
        if !noted {
            return BY_SUM;
        }
        if self.by_sum > BY_SUM {
            AT_FIRST
        } else {
            BY_SUM + 1
        }
    }

    /// Whether the text with this number is one of the two that are noted behind `last`.
    #[inline(always)]
    fn is_noted(&self, last: usize, number: u32) -> bool {
        match self.notes.get(last) {
            Some(note) => is_of(note.next, number) || is_of(note.other, number),
            None => false,
        }
    }

    /// The guess at the text whose field stands in front, and what stands behind the field and its tab, where the table has
    /// one.
    #[inline(always)]
    fn look<'a>(&self, front: Front, bytes: &'a [u8]) -> Option<(Guess, &'a [u8])>
        ensures taken { IfSome result (λ parts. IsTaken self.now bytes.now parts.0.number parts.1.now) }
        ensures plain { IfSome result (λ parts. IsPlainAt self.now parts.0.number) }
    {
        let guess = self.guess_at(front.sum, bytes)?;
        let after = self.behind(guess.number, bytes)?;
        Some((guess, after))
    }

    /// What seems to stand in front.
    #[inline(always)]
    fn front_in(&self, last: usize, bytes: &[u8]) -> Option<Front> {
        let field = self.field_in(last, bytes)?;
        Some(Front {
            len: field.len(),
            sum: sum_of(field),
        })
    }

    /// The field that seems to stand in front: texts in turn are often of one length, so a tab is looked for where it would
    /// stand behind the last text, and searched for where it is not there.
    #[inline(always)]
    fn field_in<'a>(&self, last: usize, bytes: &'a [u8]) -> Option<&'a [u8]> {
        if let Some(text) = self.at(last) {
            let len = text.len();
            if byte_at(bytes, len) == b'\t' {
                return bytes.get(..len);
            }
        }
        bytes.get(..tab_in(bytes)?)
    }

    /// The guess at a text with this sum, of which it may be that it stands in front.
    #[inline(always)]
    fn guess_at(&self, sum: u64, bytes: &[u8]) -> Option<Guess>
        ensures { IfSome result (λ guess. IsPlainAt self.now guess.number) }
    {
        let note = self.table.get(slot_of(sum, self.table.len()))?;
        standing(*note, bytes)
    }

    /// Whether fewer than three runs came behind a text.
    fn has_room(&self, last: usize) -> bool {
        match self.places.get(last) {
            Some(places) => places.third.is_none(),
            None => true,
        }
    }

    /// What stands behind the field of the text with this number and its tab, where they stand in front.
    #[inline(always)]
    fn behind<'a>(&self, number: u32, bytes: &'a [u8]) -> Option<&'a [u8]>
        requires { IsPlainAt self.now number }
        ensures { IfSome result (λ after. IsTaken self.now bytes.now number after.now) }
    {
        let text = self.at(number as usize)?;
        let after = behind_text(text, bytes)?;
        Some(after)
    }

    /// Notes that a text with this number, of which no byte is written as two, came behind another, and which sum it has, if that
    /// was made of the whole text and no more. Where memory is refused, less is noted.
    pub(crate) fn note(&mut self, last: usize, number: u32, text: &str, front: Option<Front>)
        requires at { slice_get self.old number ≡ Some text.now }
        requires plain { IsPlain text.now }
        ensures { self.new ≡ self.old }
    {
        let guess = guess_of(number, text);
        self.note_front(front, text.len(), guess);
        self.note_guess(last, guess);
    }

    /// Notes a guess at a text of this length in the table, where its sum is known.
    fn note_front(&mut self, front: Option<Front>, len: usize, guess: Option<Guess>)
        requires { IsGuessIn self.old guess }
        ensures { self.new ≡ self.old }
    {
        match front {
            // else an earlier tab stands in what was summed
            Some(front) if front.len == len => {
                self.count_note();
                self.widen();
                self.note_sum(front.sum, guess);
            }
            _ => {}
        }
    }

    /// Notes a guess at a text that came behind another.
    #[inline(always)]
    fn note_guess(&mut self, last: usize, guess: Option<Guess>)
        requires { IsGuessIn self.old guess }
        ensures { self.new ≡ self.old }
    {
        if last < self.notes.len() {
            let note = self.notes[last];
            self.notes[last] = Note {
                next: guess,
                other: note.next,
            };
        }
    }

    /// Notes a guess at a text with this sum.
    fn note_sum(&mut self, sum: u64, guess: Option<Guess>)
        requires { IsGuessIn self.old guess }
        ensures { self.new ≡ self.old }
    {
        let slot = slot_of(sum, self.table.len());
        if slot < self.table.len() {
            let note = self.table[slot];
            self.table[slot] = Note {
                next: guess,
                other: note.next,
            };
        }
    }

    /// Counts a guess that is to be noted in the table.
    fn count_note(&mut self)
        ensures { self.new ≡ self.old }
    {
        self.noted = self.noted.saturating_add(1);
    }

    /// Makes the table twice as long where two guesses or more were noted for each of its places, and there are as many texts. Where
    /// memory is refused, it stays as it is.
    fn widen(&mut self)
        ensures { self.new ≡ self.old }
    {
        if self.noted.min(self.texts.len()) / 2 < self.table.len() {
            return;
        }
        match double(&mut self.table) {
            Ok(()) | Err(_) => {}
        }
    }

    /// The numbers of texts, so many at most, each of which came behind the one before it, and what stands behind their fields.
    pub(crate) fn follow_few<'a>(
        &self,
        alloc: Global,
        last: usize,
        bytes: &'a [u8],
        most: usize,
    ) -> Result<(Vec<u32>, &'a [u8]), AllocError>
        ensures taken { IfOk result (λ parts. AreTaken self.now bytes.now parts.0.items parts.1.now) }
        ensures most { IfOk result (λ parts. length parts.0.items ≤ most) }
    {
        let count = run_len(most);
        let mut numbers = Vec::with_capacity(alloc, count)?;
        let mut rest = bytes;
        let mut before = last;
        while numbers.len() < count {
            let Some((number, after)) = self.follow(before, rest) else {
                break;
            };
            numbers.push(number)?;
            rest = after;
            before = number as usize;
        }
        Ok((numbers, rest))
    }

    /// The numbers of a run that came behind `last` before and stands in front, of so many texts at most, and what stands behind
    /// it.
    pub(crate) fn follow_run<'s, 'a>(
        &'s self,
        last: usize,
        bytes: &'a [u8],
        most: usize,
    ) -> Option<(&'s [u32], &'a [u8])>
        ensures { IfSome result (λ parts. IsRunFrom self.now bytes.now most parts.0.now parts.1.now) }
    {
        let places = self.places.get(last)?;
        if let Some(found) = self.run_at(places.first, bytes, most) {
            return Some(found);
        }
        if let Some(found) = self.run_at(places.second, bytes, most) {
            return Some(found);
        }
        self.run_at(places.third, bytes, most)
    }

    /// The same, of the run at this place.
    #[inline(always)]
    fn run_at<'s, 'a>(
        &'s self,
        place: Option<u32>,
        bytes: &'a [u8],
        most: usize,
    ) -> Option<(&'s [u32], &'a [u8])>
        ensures { IfSome result (λ parts. IsRunFrom self.now bytes.now most parts.0.now parts.1.now) }
    {
        let run = self.runs.get(place? as usize)?;
        let count = run.numbers.len();
        if count == 0 || most < count {
            return None;
        }
        if byte_at(bytes, run.place as usize) != run.byte {
            return None;
        }
        let after = behind_start(run.bytes.as_slice(), bytes)?;
        Some((run.numbers.as_slice(), after))
    }

    /// Notes that a run came behind a text, where fewer than three did before, and counts its texts.
    pub(crate) fn note_run(
        &mut self,
        alloc: Global,
        last: usize,
        numbers: &[u32],
        bytes: &[u8],
    ) -> Result<(), AllocError>
        requires { AreTaken self.old bytes.now numbers.now [] }
        ensures { self.new ≡ self.old }
    {
        self.count_followed(numbers.len());
        if self.notes.len() <= last {
            return Ok(());
        }
        reach(&mut self.places, last)?;
        let Some(places) = with_place(self.places[last], small(self.runs.len())) else {
            return Ok(());
        };
        let place = small(telling_place(bytes)).unwrap_or(u32::MAX);
        let byte = byte_at(bytes, place as usize);
        let numbers = Items::from_vec(Vec::from_slice(alloc, numbers)?);
        let bytes = Bytes::from_vec(Vec::from_slice(alloc, bytes)?);
        self.runs.push(Run {
            numbers,
            bytes,
            place,
            byte,
        })?;
        self.places[last] = places;
        Ok(())
    }
}

/// How many texts a run of so many at most has.
fn run_len(most: usize) -> usize
    ensures { result ≤ most }
{
    if most < MOST_IN_RUN {
        most
    } else {
        MOST_IN_RUN
    }
}

/// Makes a list so long that it has an entry at this place.
fn reach(places: &mut Vec<Places>, place: usize) -> Result<(), AllocError>
    ensures { OnOk result (place < length places.new.items) }
{
    while places.len() <= place {
        places.push(Places::NONE)?;
    }
    Ok(())
}

/// These places and one more, where there is room for one.
fn with_place(places: Places, place: Option<u32>) -> Option<Places> {
    if places.first.is_none() {
        return Some(Places {
            first: place,
            second: None,
            third: None,
        });
    }
    if places.second.is_none() {
        return Some(Places {
            first: places.first,
            second: place,
            third: None,
        });
    }
    if places.third.is_none() {
        return Some(Places {
            first: places.first,
            second: places.second,
            third: place,
        });
    }
    None
}

/// How a text with this number is told from others. One that is too long is not told.
fn guess_of(number: u32, text: &str) -> Option<Guess>
    ensures { IfSome result (λ guess. guess.number ≡ number) }
{
    let bytes = text.as_bytes();
    let place = telling_place(bytes);
    Some(Guess {
        number,
        len: u16::try_from(bytes.len()).ok()?,
        place: u16::try_from(place).ok()?,
        byte: byte_at(bytes, place),
    })
}

/// The place at which fields are most likely told from others: those that come in turn are often names of files that differ
/// before the dot.
fn telling_place(bytes: &[u8]) -> usize {
    let end = bytes.rfind_byte(b'.').unwrap_or(bytes.len());
    end.saturating_sub(1)
}

/// The same number in 32 bits, where it has room there.
pub(crate) fn small(number: usize) -> Option<u32>
    ensures { IfSome result (λ same. same ≡ number) }
{
    u32::try_from(number).ok()
}

/// Where the first tab stands, looked for in 16 bytes at a time as long as there are so many.
#[inline(always)]
fn tab_in(bytes: &[u8]) -> Option<usize> {
    let mut place = 0usize;
    let mut rest = bytes;
    while let Some((chunk, after)) = rest.split_first_chunk::<16>() {
        let tabs = u8x16::from_array(*chunk)
            .simd_eq(u8x16::splat(b'\t'))
            .to_bitmask();
        if tabs != 0 {
            return Some(place.wrapping_add(tabs.trailing_zeros() as usize));
        }
        place = place.wrapping_add(16);
        rest = after;
    }
    Some(place.wrapping_add(rest.find_byte(b'\t')?))
}

/// The byte at this place, or 0.
#[inline(always)]
fn byte_at(bytes: &[u8], place: usize) -> u8 {
    match bytes.get(place) {
        Some(byte) => *byte,
        None => 0,
    }
}

/// The one of the guesses of a note of which it may be right that its text stands in front.
#[inline(always)]
fn standing(note: Note, bytes: &[u8]) -> Option<Guess>
    ensures { (texts : List (List ℕ)) → IsNoteIn texts note → IsGuessIn texts result }
{
    if may_stand(note.next, bytes) {
        return note.next;
    }
    if may_stand(note.other, bytes) {
        return note.other;
    }
    None
}

/// Whether a guess may be right that its text stands in front. What stands there is compared.
#[inline(always)]
fn may_stand(guess: Option<Guess>, bytes: &[u8]) -> bool {
    match guess {
        Some(guess) => {
            byte_at(bytes, guess.len as usize) == b'\t'
                && byte_at(bytes, guess.place as usize) == guess.byte
        }
        None => false,
    }
}

/// Makes a table twice as long: what stood at a place stands at both places that come of it.
fn double(table: &mut Vec<Note>) -> Result<(), AllocError>
    ensures { (texts : List (List ℕ)) → AreNotesOf texts table.old.items → AreNotesOf texts table.new.items }
{
    if table.is_empty() {
        table.push(Note::NONE)?;
        return Ok(());
    }
    table.extend_from_within(..)?;
    Ok(())
}

/// The place of this sum in a table of this length.
#[inline(always)]
fn slot_of(sum: u64, len: usize) -> usize {
    (sum as usize) & len.wrapping_sub(1)
}

/// Whether a guess is of the text with this number.
#[inline(always)]
fn is_of(guess: Option<Guess>, number: u32) -> bool {
    match guess {
        Some(guess) => guess.number == number,
        None => false,
    }
}

/// A number that is made of the length and all bytes of a text, and for most other texts is another one: a sum of products, none of
/// which waits for another.
#[inline(always)]
fn sum_of(text: &[u8]) -> u64 {
    let mut sum = text.len() as u64;
    let mut rest = text;
    while let Some((chunk, after)) = rest.split_first_chunk::<16>() {
        sum = sum_with(sum, product_of(chunk));
        rest = after;
    }
    let last = match text.last_chunk::<16>() {
        Some(chunk) => product_of(chunk),
        None => product_of(text),
    };
    spread(sum_with(sum, last))
}

/// A sum with a product more.
#[inline(always)]
fn sum_with(sum: u64, product: u64) -> u64 {
    sum.rotate_left(5).wrapping_add(product)
}

/// The product of the first and the last eight bytes of a text, of which there are sixteen at most.
#[inline(always)]
fn product_of(text: &[u8]) -> u64 {
    match (text.first_chunk::<8>(), text.last_chunk::<8>()) {
        (Some(first), Some(last)) => product(u64::from_le_bytes(*first), u64::from_le_bytes(*last)),
        _ => product(word_of(text), 0),
    }
}

/// The word of less than eight bytes.
fn word_of(bytes: &[u8]) -> u64 {
    let mut word = 0;
    for byte in bytes {
        word = (word << 8) | u64::from(*byte);
    }
    word
}

/// The product of two words that are moved away from nothing: each bit of it depends on all that stand lower in both.
#[inline(always)]
fn product(low: u64, high: u64) -> u64 {
    let moved = low.wrapping_add(0xbf58_476d_1ce4_e5b9);
    moved.wrapping_mul(high.wrapping_add(0x94d0_49bb_1331_11eb))
}

/// A sum whose lower bits depend on all bits that it had.
#[inline(always)]
fn spread(sum: u64) -> u64 {
    let product = (sum ^ (sum >> 32)).wrapping_mul(0x9e37_79b9_7f4a_7c15);
    product ^ (product >> 32)
}

/// What stands behind the field of a plain text and its tab, where they stand in front.
pub(crate) fn behind_text<'a>(text: &str, bytes: &'a [u8]) -> Option<&'a [u8]>
    requires { IsPlain text.now }
    ensures found { IfSome result (λ after. bytes.now ≡ field_and_tab text.now ++ after.now) }
    ensures utf8 { IsUtf8 text.now }
{
    let rest = behind_start(text.as_bytes(), bytes)?;
    let after = behind_tab(rest)?;
    Some(after)
}

/// What stands behind these bytes, where they stand in front.
fn behind_start<'a>(start: &[u8], bytes: &'a [u8]) -> Option<&'a [u8]>
    ensures { IfSome result (λ rest. bytes.now ≡ start.now ++ rest.now) }
{
    bytes.strip_prefix(start)
}

/// What stands behind a tab in front.
fn behind_tab(bytes: &[u8]) -> Option<&[u8]>
    ensures { IfSome result (λ after. bytes.now ≡ 9 ∷ after.now) }
{
    match bytes {
        [b'\t', after @ ..] => Some(after),
        _ => None,
    }
}
