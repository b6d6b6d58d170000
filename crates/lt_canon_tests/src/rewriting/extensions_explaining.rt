//! Tags with the steps on their extensions.
ghost use Rattle.std.specs.Prelude.{All};
ghost use Rattle.lt_registry.specs.Faults.{HasNoFault};
ghost use Rattle.lt_rewrite.specs.Conditions.{HasEndingChain};

use super::judge;
use crate::steps::StepRow;
use lt_registry::ListTable;
use lt_rewrite::{Step, StepKind, explain_extensions, first_cycle};
use lt_tag::{OutOfMemory, Tag, copy_extensions, read_tag};
use lt_testing::again;
use std::alloc::Global;
use std::test::Fail;

/// A tag of one subtag before its extensions, and the kinds, places and records of the steps on these.
type Row = (&'static str, &'static [StepRow]);

pub(super) const ROWS: &[Row] = &[
    (
        "de-u-foo-bar-co-true-ca-gregory-t-iw-x0-abc-m0-def",
        &[
            (StepKind::SwapExtensions, 2, 0),
            (StepKind::SwapAttributes, 9, 0),
            (StepKind::SwapKeywords, 11, 0),
            (StepKind::DropTrue, 14, 0),
            (StepKind::Language, 3, 9),
            (StepKind::SwapFields, 4, 0),
        ],
    ),
    (
        "de-b-bcd-a-abc-u-co-phonebk-co-true",
        &[
            (StepKind::SwapExtensions, 2, 0),
            (StepKind::DropKeyword, 9, 0),
        ],
    ),
    ("de-a-abc-t-hy-heploc-u-co", &[(StepKind::Variant, 6, 37)]),
    ("de-a-abc", &[]),
];

/// The steps on the extensions of a valid tag whose core has one subtag.
fn explained_tag(alloc: Global, table: &ListTable, tag: &Tag) -> Result<Vec<Step>, OutOfMemory>
    requires chains { All (HasEndingChain table.now) table.now }
    requires valid { HasNoFault table.now tag.now }
{
    let extensions = copy_extensions(alloc, tag.extensions())?;
    let (_extensions, steps) = explain_extensions(alloc, table, extensions, 1, Vec::new(alloc))?;
    Ok(steps)
}

/// The steps on the extensions of a valid text whose core has one subtag.
pub(super) fn explained(alloc: Global, table: &ListTable, text: &str) -> Result<Vec<Step>, Fail> {
    let tag = again!(read_tag(alloc, text.as_bytes()))?;
    judge(alloc, table, &tag)?;
    if first_cycle(table).is_some() {
        return Err(Fail::from("a cycle"));
    }
    match explained_tag(alloc, table, &tag) {
        Ok(steps) => Ok(steps),
        Err(_) => Ok(explained_tag(alloc, table, &tag)?),
    }
}
