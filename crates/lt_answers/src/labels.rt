//! The step that a line names.
ghost use Rattle.std.specs.Prelude.{◌≡◌, ◌<◌, ◌^◌, MatchOption};
ghost use Rattle.std.specs.Fmt.{decimal};
ghost use Rattle.lt_rewrite.specs.Names.{name_of};
ghost use Rattle.lt_answers.specs.StepLines.{HasFewWords, HasWords, IsStepLine, NamesNoEnd, IsNoName, IsNoNumber, NamesNoKind, end_line};

use itoa::Buffer;
use lt_rewrite::{Step, StepKind};
use lt_rows::split_first;

/// All kinds of step.
static KINDS: [StepKind; 14] = [
    StepKind::Extlang,
    StepKind::Language,
    StepKind::Script,
    StepKind::Region,
    StepKind::Variant,
    StepKind::VariantLanguage,
    StepKind::Whole,
    StepKind::SwapExtensions,
    StepKind::DropAttribute,
    StepKind::SwapAttributes,
    StepKind::DropKeyword,
    StepKind::SwapKeywords,
    StepKind::DropTrue,
    StepKind::SwapFields,
];

/// The kind of step that has this name. None if no kind has it.
fn kind_named(name: &[u8]) -> Option<StepKind>
    ensures { MatchOption result (NamesNoKind name.now) (λ kind. name_of kind ≡ name.now) }
{
    for kind in &KINDS {
        if kind.name().as_bytes() == name {
            return Some(*kind);
        }
    }
    None
}

/// The number of 32 bits that is printed as these digits. None if no number is, for example for `01`.
fn number_of(digits: &[u8]) -> Option<u32>
    ensures { MatchOption result (IsNoNumber digits.now) (λ n. (n < 2 ^ 32) × (decimal n ≡ digits.now)) }
{
    let Ok(text) = std::str::from_utf8(digits) else {
        return None;
    };
    let Ok(number) = text.parse::<u32>() else {
        return None;
    };
    if Buffer::new().format(number) == text {
        Some(number)
    } else {
        None
    }
}

/// The words of the line of a step: `Language 1 4 he-IL` has the name `Language`, the place `1`, the number `4` and the
/// text `he-IL`.
#[derive(Clone, Copy)]
struct Words<'a> {
    name: &'a [u8],
    place: &'a [u8],
    number: &'a [u8],
    text: &'a [u8],
}

/// The name, the place and the number that a line begins with, each with a space after it, and the text that follows. None
/// if the line has fewer than three spaces.
#[tactic(auto, using(crate::proofs::LineLemmas::three_words))]
fn words_of<'a>(line: &'a [u8]) -> Option<Words<'a>>
    ensures { MatchOption result (HasFewWords line.now) (λ w. HasWords line.now w.name.now w.place.now w.number.now w.text.now) }
{
    let (name, places) = split_first(b' ', line)?;
    let (place, numbers) = split_first(b' ', places)?;
    let (number, text) = split_first(b' ', numbers)?;
    let words = Words {
        name,
        place,
        number,
        text,
    };
    Some(words)
}

/// The step that a line names, and the text after it. None if the line names no step: it has too few words, or a name
/// that no kind has, or a place or a number that is not written as a number of 32 bits is printed, for example `01`.
pub(crate) fn read_step(line: &[u8]) -> Option<(Step, &[u8])>
    ensures { MatchOption result (IsNoName line.now) (λ p. IsStepLine line.now p.0 p.1.now) }
{
    let words = words_of(line)?;
    let kind = kind_named(words.name)?;
    let place = number_of(words.place)?;
    let number = number_of(words.number)?;
    let step = Step {
        kind,
        place,
        number,
    };
    Some((step, words.text))
}

/// The text after `= ` in a line that tells the end. None for any other line.
pub(crate) fn read_end(line: &[u8]) -> Option<&[u8]>
    ensures { MatchOption result (NamesNoEnd line.now) (λ text. line.now ≡ end_line text.now) }
{
    match line {
        [b'=', b' ', text @ ..] => Some(text),
        _ => None,
    }
}
