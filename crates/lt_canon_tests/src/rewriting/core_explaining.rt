//! Tags with the steps on their cores.
use super::core_of;
use crate::steps::StepRow;
use lt_registry::ListTable;
use lt_rewrite::{Step, StepKind, explain_core, first_cycle};
use std::alloc::Global;
use std::test::Fail;

/// A tag, and the kinds, places and records of the steps on its core.
type Row = (&'static str, &'static [StepRow]);

pub(super) const ROWS: &[Row] = &[
    (
        "zh-yue-DD",
        &[(StepKind::Extlang, 2, 23), (StepKind::Region, 2, 27)],
    ),
    (
        "iw-arevela-heploc",
        &[(StepKind::Language, 1, 9), (StepKind::Variant, 3, 37)],
    ),
    (
        "hy-arevela-arevmda",
        &[
            (StepKind::VariantLanguage, 2, 34),
            (StepKind::VariantLanguage, 2, 35),
        ],
    ),
    (
        "hy-heploc-arevmda",
        &[
            (StepKind::Variant, 2, 37),
            (StepKind::VariantLanguage, 3, 35),
        ],
    ),
    ("sgn-DE", &[]),
];

/// The steps on a tag's core. Where memory is refused, they are taken again.
pub(super) fn explained(alloc: Global, table: &ListTable, text: &str) -> Result<Vec<Step>, Fail> {
    if first_cycle(table).is_some() {
        return Err(Fail::from("a cycle"));
    }
    let core = core_of(alloc, text)?;
    let answer = explain_core(table, core, 0, Vec::new(alloc));
    let (_core, steps) = match answer {
        Ok(explained) => explained,
        Err(_) => explain_core(table, core_of(alloc, text)?, 0, Vec::new(alloc))?,
    };
    Ok(steps)
}
