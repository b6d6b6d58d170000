//! How many lines were refused by each fault, and which was the first.
ghost use Rattle.std.specs.Prelude.{◌≡◌, ◌+◌, ◌<◌, ◌^◌, [], ◌∷◌, ◌++◌, List, IfOk, OnErr, OnOk, bytes_eq, length, position};
ghost use Rattle.lt_stream.specs.Tallies.{AreTallies, Refused, refused};

use std::alloc::{AllocError, Global};
use std::marker::Model;

/// The lines that were refused by one fault.
#[derive(Drop)]
pub struct Tally {
    /// The name of the fault.
    pub fault: Vec<u8>,
    /// How many lines were refused by it.
    pub lines: u64,
    /// The number of the first of these lines.
    pub first: u64,
    /// The text that was refused in that first line.
    pub text: Vec<u8>,
}

/// How many lines were refused by each fault, in the order in which the faults came.
#[derive(Drop)]
pub struct Tallies {
    faults: Vec<Tally>,
}

/// Clauses see tallies as the list of the tallies of faults.
impl Model for Tallies {
    ghost use Rattle.std.specs.Prelude.{List};
    ghost use Rattle.lt_stream.specs.declared.tallies.Tally.{Tally};

    ghost Value = { List Tally };

    ghost view = { λ tallies. tallies.faults.items };
}

/// The tally of a fault that refuses its first line, which has this number and text. Refused where memory runs out.
fn new_tally(alloc: Global, fault: &[u8], number: u64, text: &[u8]) -> Result<Tally, AllocError>
    ensures fault { IfOk result (λ tally. tally.fault.items ≡ fault.now) }
    ensures numbers { IfOk result (λ tally. (tally.lines ≡ 1) × (tally.first ≡ number)) }
    ensures text { IfOk result (λ tally. tally.text.items ≡ text.now) }
{
    Ok(Tally {
        fault: Vec::from_slice(alloc, fault)?,
        lines: 1,
        first: number,
        text: Vec::from_slice(alloc, text)?,
    })
}

impl Tallies {
    /// The tallies before any line is refused: none.
    pub fn new(alloc: Global) -> Tallies
        ensures { result ≡ [] }
    {
        Tallies {
            faults: Vec::new(alloc),
        }
    }

    /// The tallies, one for each fault, in the order in which the faults came.
    pub fn faults(&self) -> &[Tally]
        ensures { result.now ≡ self.now }
    {
        &self.faults
    }

    /// The place of the tally of a fault. None if the fault refused no line so far.
    fn place_of(&self, fault: &[u8]) -> Option<usize>
        ensures { result ≡ position (λ tally. bytes_eq fault.now tally.fault.items) self.now }
    {
        self.faults
            .iter()
            .position(|tally| fault == tally.fault.as_slice())
    }

    /// Counts a line that was refused, by the name of its fault. Its `number` and the refused `text` are kept only if
    /// it is the first line of its fault. Refused where memory runs out: then nothing is counted (`unchanged`). Since
    /// the tallies don't keep the lines, the clause `counted` holds for every list of lines whose tallies they may be,
    /// if 64 bits count one line more than the list has.
    pub fn count(
        &mut self,
        alloc: Global,
        fault: &[u8],
        number: u64,
        text: &[u8],
    ) -> Result<(), AllocError>
        ensures counted { OnOk result ((lines : List Refused) → length lines + 1 < 2 ^ 64 → AreTallies lines self.old
            → AreTallies (lines ++ refused number fault.now text.now ∷ []) self.new) }
        ensures unchanged { OnErr result (self.new ≡ self.old) }
    {
        match self.place_of(fault) {
            Some(place) => {
                let tally = &mut self.faults[place];
                tally.lines = tally.lines.saturating_add(1);
            }
            None => self.faults.push(new_tally(alloc, fault, number, text)?)?,
        }
        Ok(())
    }
}
