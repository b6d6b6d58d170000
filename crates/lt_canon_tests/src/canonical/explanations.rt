//! Texts with the steps of their explanations. Rows over the program have the tags to which these lead.
use crate::steps::{StepRow, are_steps};
use lt_canon::{ExplanationLines, Refusal, TextRefusal, explain, explanation_text};
use lt_check::Checked;
use lt_registry::Lookup;
use lt_rewrite::StepKind;
use lt_tag::{OutOfMemory, read_tag, write_tag};
use lt_testing::{again, retried};
use std::alloc::Global;
use std::process::Abort;
use std::test::Fail;

/// Texts, their steps, and the canonical texts.
const EXPLAINED: &[(&str, &[StepRow], &str)] = &[
    (
        "sgn-dd",
        &[(StepKind::Region, 2, 27), (StepKind::Whole, 1, 44)],
        "gsg",
    ),
    (
        "hy-arevela-arevmda",
        &[
            (StepKind::VariantLanguage, 2, 34),
            (StepKind::VariantLanguage, 2, 35),
        ],
        "hyw",
    ),
    (
        "en-u-foo-bar-foo-nu-latn-ca-buddhist-NU-arab",
        &[
            (StepKind::DropAttribute, 5, 0),
            (StepKind::SwapAttributes, 3, 0),
            (StepKind::DropKeyword, 9, 0),
            (StepKind::SwapKeywords, 5, 0),
        ],
        "en-u-bar-foo-ca-buddhist-nu-latn",
    ),
    (
        "en-u-kn-true-ca-true",
        &[
            (StepKind::SwapKeywords, 3, 0),
            (StepKind::DropTrue, 4, 0),
            (StepKind::DropTrue, 5, 0),
        ],
        "en-u-ca-kn",
    ),
    ("gsg", &[], "gsg"),
    ("zh-cmn", &[(StepKind::Extlang, 2, 20)], "cmn"),
    ("en-t-iw", &[(StepKind::Language, 3, 9)], "en-t-he"),
];

/// Whether these are the steps from a text to its canonical text.
fn is_explained<L: Lookup>(
    alloc: Global,
    checked: &Checked<L>,
    text: &str,
    rows: &[StepRow],
    last: &str,
) -> Result<bool, Fail> {
    let tag = again!(read_tag(alloc, text.as_bytes()))?;
    let trace = retried!(explain(alloc, checked, &tag), Refusal::OutOfMemory)?;
    let end = again!(write_tag(alloc, &trace.last))?;
    Ok(end.as_slice() == last.as_bytes() && are_steps(&trace.steps, rows))
}

/// Texts, and the lines of their explanations.
const LINES: [(&str, &str); 3] = [
    ("SGN-dd", "Region 2 27 sgn-DE\nWhole 1 44 gsg\n= gsg\n"),
    ("en-t-iw-x-A", "Language 3 9 en-t-he-x-a\n= en-t-he-x-a\n"),
    ("en-Latn", "= en-Latn\n"),
];

/// The lines of the explanation of a text's tag, or why there are none.
fn lines_of<L: Lookup>(
    alloc: Global,
    checked: &Checked<L>,
    text: &str,
) -> Result<Vec<u8>, TextRefusal> {
    retried!(
        explanation_text(alloc, checked, text.as_bytes()),
        TextRefusal::OutOfMemory
    )
}

/// Whether a text has these lines.
fn has_lines<L: Lookup>(alloc: Global, checked: &Checked<L>, text: &str, lines: &str) -> bool {
    match lines_of(alloc, checked, text) {
        Ok(found) => found.as_slice() == lines.as_bytes(),
        Err(_) => false,
    }
}

/// Whether each text has the lines of its row.
fn have_lines<L: Lookup>(alloc: Global, checked: &Checked<L>) -> bool {
    for (text, lines) in &LINES {
        if !has_lines(alloc, checked, text, lines) {
            return false;
        }
    }
    true
}

/// The lines of the explanation of `SGN-dd` one after another, and whether more follow. The last is given again.
const GIVEN: &[(&str, bool)] = &[
    ("Region 2 27 sgn-DE\n", true),
    ("Whole 1 44 gsg\n", true),
    ("= gsg\n", false),
    ("= gsg\n", false),
];

/// The next line, and whether more follow.
fn next_line<L: Lookup>(
    alloc: Global,
    left: &mut ExplanationLines<'_, L>,
) -> Result<(Vec<u8>, bool), OutOfMemory> {
    let mut line = Vec::new(alloc);
    let more = left.append_line(alloc, &mut line)?;
    Ok((line, more))
}

/// Whether this line is given next, also where memory runs out the first time.
fn is_next<L: Lookup>(
    alloc: Global,
    left: &mut ExplanationLines<'_, L>,
    line: &str,
    more: bool,
) -> bool {
    matches!(
        again!(next_line(alloc, left)),
        Ok((given, follow)) if given.as_slice() == line.as_bytes() && follow == more
    )
}

/// Whether the lines are given one after another.
fn are_given<L: Lookup>(alloc: Global, checked: &Checked<L>) -> Result<bool, TextRefusal> {
    let mut left = ExplanationLines::new(alloc, checked, b"SGN-dd")?;
    for (line, more) in GIVEN {
        if !is_next(alloc, &mut left, line, *more) {
            return Ok(false);
        }
    }
    Ok(true)
}

/// Each text has the steps and the lines of its row.
pub(super) fn explanations<L: Lookup>(
    rt: &impl Abort,
    alloc: Global,
    checked: &Checked<L>,
) -> Result<(), Fail> {
    for row in EXPLAINED {
        let (text, rows, last) = *row;
        assert!(rt; is_explained(alloc, checked, text, rows, last)?, "{text}");
    }
    assert!(rt; have_lines(alloc, checked));
    assert!(rt; matches!(again!(are_given(alloc, checked)), Ok(true)));
    Ok(())
}
