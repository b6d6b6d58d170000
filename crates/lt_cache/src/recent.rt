//! A table of fixed size with the answers that were given lately: lines repeat, and an answer that is found is not
//! worked out again. What the table gives for a line was put into it for a line of just these bytes.
ghost use Rattle.std.specs.Prelude.{◌≡◌, ◌≤◌, length, take, IfSome, IfOk};
ghost use Rattle.lt_cache.specs.Places.{blank_places};
ghost use Rattle.lt_cache.specs.Recent.{Holds, IsBlank, PutsIn};

use crate::short_texts::ShortText;
use std::alloc::{AllocError, Global};
use std::marker::Model;

/// How many pairs of places the table has. A place takes 67 bytes: two short texts of 33 each, and whether it is a
/// refusal.
const PAIRS: usize = 4096;

/// Once this many answers in a row were to be put and none was found again, only one of eight is put: where lines don't
/// repeat, putting each would take time for nothing.
const MANY_NEW: u32 = 256;

/// An answer, the line to which it was given, and whether it is a refusal.
#[derive(Drop)]
struct Kept {
    line: ShortText,
    answer: ShortText,
    refused: bool,
}

/// What a table has for a line.
#[derive(Drop)]
pub struct Found<'t> {
    /// The answer that was put for the line.
    pub answer: &'t ShortText,
    /// Whether it is a refusal.
    pub refused: bool,
}

/// The answers that were given lately. The hash of a line gives the line two places, side by side: the first has what
/// was put last, and the second what was put before. The places are made for the first answer. Where there is no memory
/// for them, it keeps nothing.
#[derive(Drop)]
pub struct Recent {
    alloc: Global,
    /// None until an answer is put.
    places: Vec<Option<Kept>>,
    /// How many answers in a row were to be put while none came again.
    unfound: u32,
}

// A contract sees the places, and 8,192 empty ones where none are made yet.
impl Model for Recent {
    ghost use Rattle.std.specs.Prelude.{List, Option};
    ghost use Rattle.lt_cache.specs.declared.recent.Kept.{Kept};
    ghost use Rattle.lt_cache.specs.Places.{made};

    ghost Value = { List (Option Kept) };

    ghost view = { λ table. made table.places.items };
}

/// The places of a table, all empty.
fn blank(alloc: Global) -> Result<Vec<Option<Kept>>, AllocError>
    ensures { IfOk result (λ places. places.items ≡ blank_places) }
{
    let mut places = Vec::with_capacity(alloc, 2 * PAIRS)?;
    for _place in 0..2 * PAIRS {
        places.push(None)?;
    }
    Ok(places)
}

impl Recent {
    /// A table that holds nothing. It takes no memory yet.
    pub fn new(alloc: Global) -> Recent
        ensures { IsBlank result }
    {
        Recent {
            alloc,
            places: Vec::new(alloc),
            unfound: 0,
        }
    }

    /// Makes the places if there are none yet. Where there is no memory for them, it does nothing.
    fn make_places(&mut self)
        ensures { self.new ≡ self.old }
    {
        if self.places.is_empty() {
            if let Ok(places) = blank(self.alloc) {
                self.places = places;
            }
        }
    }

    /// The answer at the place `index`, if it is that of `line`. None if the place is empty or has another line.
    #[inline(always)]
    fn at(&self, index: usize, line: &ShortText) -> Option<Found<'_>>
        ensures { IfSome result (λ found. Holds self.now line.now found.answer.now found.refused) }
    {
        match self.places.get(index) {
            Some(Some(kept)) if kept.line.is(line) => Some(Found {
                answer: &kept.answer,
                refused: kept.refused,
            }),
            _ => None,
        }
    }

    /// The answer that was put for the first `count` bytes of `text`, or None if the table doesn't hold one. `count`
    /// must be at most the length of `text`. The bytes behind these only help speed: if `text` has 32, they are taken
    /// at once.
    pub fn find(&self, text: &[u8], count: usize) -> Option<Found<'_>>
        requires { count ≤ length text.now }
        ensures { IfSome result (λ found. Holds self.now (take count text.now) found.answer.now found.refused) }
    {
        let line = ShortText::front(text, count)?;
        let first = 2 * (line.hash() % PAIRS);
        match self.at(first, &line) {
            None => self.at(first + 1, &line),
            found => found,
        }
    }

    /// Notes that an answer of the table was given again, so that the next ones are all put.
    #[inline(always)]
    pub fn note_again(&mut self)
        ensures { self.new ≡ self.old }
    {
        self.unfound = 0;
    }

    /// Puts an answer for a line, if both have at most 32 bytes and there is memory for the table. The clause leaves
    /// open whether it does. While answers are not found again, only one of eight is put. A line shares its two places
    /// with other lines, and these hold only the last two answers that were put there. `refused` is whether the answer
    /// is a refusal.
    #[inline(always)]
    pub fn put(&mut self, line: &[u8], answer: &[u8], refused: bool)
        ensures { PutsIn self.old self.new line.now answer.now refused }
    {
        self.unfound = self.unfound.wrapping_add(1);
        if self.unfound < MANY_NEW || self.unfound % 8 == 0 {
            self.put_short(line, answer, refused);
        }
    }

    /// Puts an answer for a line, if both have at most 32 bytes and there is memory for the table. `refused` is whether
    /// it is a refusal.
    #[inline(never)]
    fn put_short(&mut self, line: &[u8], answer: &[u8], refused: bool)
        ensures { PutsIn self.old self.new line.now answer.now refused }
    {
        let (Some(line), Some(answer)) = (
            ShortText::front(line, line.len()),
            ShortText::front(answer, answer.len()),
        ) else {
            return;
        };
        self.make_places();
        let first = 2 * (line.hash() % PAIRS);
        if first + 1 < self.places.len() {
            self.places.swap(first, first + 1);
            self.places[first] = Some(Kept {
                line,
                answer,
                refused,
            });
        }
    }
}
