//! What a person is told of the lines that a run refused.

use crate::advice::append_advice;
use crate::wrapped::append_number;
use lt_lines::{Counts, Tallies, Tally};
use std::alloc::{AllocError, Global};

/// Appends a number of units, for example `1 line` or `2 lines`.
fn append_counted(
    told: &mut Vec<u8>,
    alloc: Global,
    number: u64,
    unit: &str,
) -> Result<(), AllocError> {
    append_number(told, alloc, number)?;
    told.push(b' ')?;
    told.extend_from_slice(unit.as_bytes())?;
    if number != 1 {
        told.push(b's')?;
    }
    Ok(())
}

/// Appends the line that tells how many of these units were answered and refused, for example `2 lines, 1 refused`.
pub(crate) fn append_counts(
    told: &mut Vec<u8>,
    alloc: Global,
    unit: &str,
    counts: Counts,
) -> Result<(), AllocError> {
    append_counted(told, alloc, counts.lines, unit)?;
    told.extend_from_slice(b", ")?;
    append_number(told, alloc, counts.refused)?;
    told.extend_from_slice(b" refused\n")
}

/// The byte that is shown for a byte of a refused text: a question mark for one that is not printable ASCII, so that
/// the text does nothing at a terminal.
fn shown_byte(byte: u8) -> u8 {
    if byte >= b' ' && byte <= b'~' {
        byte
    } else {
        b'?'
    }
}

/// Appends a text with a question mark for each byte that is not printable ASCII.
pub(crate) fn append_shown(told: &mut Vec<u8>, text: &[u8]) -> Result<(), AllocError> {
    for byte in text {
        told.push(shown_byte(*byte))?;
    }
    Ok(())
}

/// Appends a colon and the text that was refused. Appends nothing if the text is empty.
fn append_text(told: &mut Vec<u8>, text: &[u8]) -> Result<(), AllocError> {
    if text.is_empty() {
        return Ok(());
    }
    told.extend_from_slice(b": ")?;
    append_shown(told, text)
}

/// Appends which line or record, as `unit` names it, was the first that a fault refused, for example `, first in line 3`.
fn append_first(
    told: &mut Vec<u8>,
    alloc: Global,
    unit: &str,
    first: u64,
) -> Result<(), AllocError> {
    told.extend_from_slice(b", first in ")?;
    told.extend_from_slice(format!(in alloc; "{unit} {first}")?.as_bytes())
}

/// Appends the line that tells how many lines a fault refused, which was the first, and its text. `unit` names what is
/// counted, for example `line`.
fn append_tally(
    told: &mut Vec<u8>,
    alloc: Global,
    unit: &str,
    tally: &Tally,
) -> Result<(), AllocError> {
    append_number(told, alloc, tally.lines)?;
    told.push(b' ')?;
    told.extend_from_slice(&tally.fault)?;
    append_first(told, alloc, unit, tally.first)?;
    append_text(told, &tally.text)?;
    told.push(b'\n')?;
    Ok(())
}

/// Appends what a person is told of the lines that a fault refused: the tally of them, and what to do. `unit` names what is
/// counted, for example `line`.
fn append_told(
    told: &mut Vec<u8>,
    alloc: Global,
    unit: &str,
    tally: &Tally,
) -> Result<(), AllocError> {
    append_tally(told, alloc, unit, tally)?;
    append_advice(told, &tally.fault, &tally.text)
}

/// Appends what a person is told of all the lines that were refused, fault by fault. `unit` names what is counted, for
/// example `line`.
pub(crate) fn append_tallies(
    told: &mut Vec<u8>,
    alloc: Global,
    unit: &str,
    tallies: &Tallies,
) -> Result<(), AllocError> {
    for tally in tallies.faults() {
        append_told(told, alloc, unit, tally)?;
    }
    Ok(())
}
