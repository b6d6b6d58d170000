//! Counting the lines that are refused, by fault: the fault's name and the text that is refused are read off the line
//! and its answer.
ghost use Rattle.std.specs.Prelude.{◌≡◌, OnOk, nat_le, position};
ghost use Rattle.lt_lines.specs.Tallied as spec;
ghost use Rattle.lt_lines.specs.Tallied.{CountsIf, CountsLine, IsFieldOrNone, IsTagIn};

use crate::answer_lines::without_return;
use crate::forms::{LineForm, RowForm};
use lt_rows::{Separator, find_field, text_in};
use lt_stream::Tallies;
use std::alloc::{AllocError, Global};

/// The most bytes that are shown of a text that is refused; a longer one is cut, so that a summary is short.
const MOST_SHOWN: usize = 64;

/// How many separators are between a row as it was and what a refusal tells: two if rows are kept, since an empty field
/// is between them, else one.
fn separators_in(row: RowForm) -> usize
    ensures { result ≡ spec.separators_in row }
{
    if row.is_kept { 2 } else { 1 }
}

/// What `answer` tells of why it refuses `line`: the name of the fault, and a place or a variant. This comes after the
/// 2 bytes of `! `, or after the row and its separators.
#[tactic(auto, using(crate::proofs::FaultLemmas::after_front))]
fn told_in<'a>(form: LineForm, line: &[u8], answer: &'a [u8]) -> &'a [u8]
    ensures { result.now ≡ spec.told_in form line.now answer.now }
{
    let before = match form {
        LineForm::Tag => 2,
        LineForm::Row(row) | LineForm::Csv(row, _) => {
            without_return(line).len() + separators_in(row)
        }
    };
    // No answer of this form is shorter; `min` spares the proof of that.
    &answer[before.min(answer.len())..]
}

/// Where the name at the beginning of `told` ends: at the first byte that is a space (32) or below. None if no byte is.
fn name_end(told: &[u8]) -> Option<usize>
    ensures { result ≡ position (λ byte. nat_le byte 32) told.now }
{
    told.iter().position(|byte| *byte <= b' ')
}

/// The name of the fault with which `answer` refuses `line`.
#[tactic(auto, using(crate::proofs::FaultLemmas::before_found, crate::proofs::FaultLemmas::before_none))]
fn fault_in<'a>(form: LineForm, line: &[u8], answer: &'a [u8]) -> &'a [u8]
    ensures { result.now ≡ spec.fault_in form line.now answer.now }
{
    let told = told_in(form, line, answer);
    match name_end(told) {
        Some(end) => &told[..end],
        None => told,
    }
}

/// The text of the field of a row that comes after `before` others, or no bytes if the row has no such field.
fn field_text(separator: Separator, before: usize, row: &[u8]) -> &[u8]
    ensures { IsFieldOrNone separator before row.now result.now }
{
    match find_field(separator, row, before) {
        Some((_, field, _)) => text_in(separator, field).1,
        None => &[],
    }
}

/// The part of a line that is read as a tag: all of it but a carriage return at its end, or the text of a row's field. No bytes
/// if the row has no such field.
fn tag_in(form: LineForm, line: &[u8]) -> &[u8]
    ensures { IsTagIn form line.now result.now }
{
    let text = without_return(line);
    match form {
        LineForm::Tag => text,
        LineForm::Row(row) => field_text(Separator::Tab, row.before, text),
        LineForm::Csv(row, delimiter) => {
            field_text(Separator::Delimiter(delimiter), row.before, text)
        }
    }
}

/// Counts a line that `answer` refuses, by the name of its fault. Of the first line of each fault its `number`, counted
/// from 1, and the first 64 bytes of its tag are kept. Refused where memory runs out.
#[inline(never)]
fn count_line(
    tallies: &mut Tallies,
    alloc: Global,
    form: LineForm,
    number: u64,
    line: &[u8],
    answer: &[u8],
) -> Result<(), AllocError>
    ensures { OnOk result (CountsLine form number line.now answer.now tallies.old tallies.new) }
{
    let text = tag_in(form, line);
    let shown = &text[..text.len().min(MOST_SHOWN)];
    tallies.count(alloc, fault_in(form, line, answer), number, shown)
}

/// Counts a line if `refused` is true, that is, if `answer` refuses it. `number` is the line's own, counted from 1.
/// Refused where memory runs out.
#[inline(always)]
pub(crate) fn count_if(
    tallies: &mut Tallies,
    alloc: Global,
    form: &LineForm,
    number: u64,
    line: &[u8],
    answer: &[u8],
    refused: bool,
) -> Result<(), AllocError>
    ensures { OnOk result (CountsIf form.now number line.now answer.now refused tallies.old tallies.new) }
{
    if refused {
        count_line(tallies, alloc, *form, number, line, answer)?;
    }
    Ok(())
}
