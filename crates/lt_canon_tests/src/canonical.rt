//! Records in place of those of the sample, and what the check then finds.
mod answers;
mod ends;
mod explanations;
mod growths;
mod recent;
mod refusals;
mod traces;
mod upgrades;
mod usual_texts;

use lt_check::{Checked, RejectedCause};
use lt_registry::{ListTable, Lookup};
use lt_testing::{is_shown, shown};
use std::alloc::Global;
use std::test::Fail;

/// A table that passes the check. It is handed back where memory is refused.
fn checked<L: Lookup + Drop>(alloc: Global, table: L) -> Result<Checked<L>, Fail> {
    let rejected = match Checked::new(alloc, table) {
        Ok(checked) => return Ok(checked),
        Err(rejected) => rejected,
    };
    match Checked::new(alloc, rejected.table) {
        Ok(checked) => Ok(checked),
        Err(_) => Err(Fail::from("a registry fails the check")),
    }
}

/// The code of a condition and the number of a record that a cause tells.
fn told(cause: RejectedCause) -> Result<Option<(&'static str, u32)>, Fail> {
    match cause {
        RejectedCause::Finding(finding) => Ok(Some((finding.condition.code(), finding.number))),
        RejectedCause::OutOfMemory => Err(Fail::from("no memory")),
    }
}

/// What the check finds in a table: nothing, or the code of the condition and the record. A table that
/// is handed back is what it was.
fn finding(alloc: Global, table: ListTable) -> Result<Option<(&'static str, u32)>, Fail> {
    let before = shown(alloc, &table)?;
    let rejected = match Checked::new(alloc, table) {
        Ok(_) => return Ok(None),
        Err(rejected) => rejected,
    };
    if !is_shown(alloc, &rejected.table, before.as_str()) {
        return Err(Fail::from("another table is handed back"));
    }
    match rejected.cause {
        RejectedCause::OutOfMemory => match Checked::new(alloc, rejected.table) {
            Ok(_) => Ok(None),
            Err(rejected) => told(rejected.cause),
        },
        cause => told(cause),
    }
}

/// Records put in the place of one of the sample, and the condition that then fails at that number.
const CHANGES: &[(u32, &str, &str)] = &[
    (48, "Type: language\nSubtag: de\n", "C1"),
    (27, "Type: region\nSubtag: DD\nPreferred-Value: ZZ\n", "C2"),
    (6, "Type: language\nSubtag: he\nPreferred-Value: iw\n", "C3"),
    (
        23,
        "Type: extlang\nSubtag: yue\nPreferred-Value: yue\nPrefix: zh\nPrefix: ms\n",
        "C4",
    ),
    (
        37,
        "Type: variant\nSubtag: heploc\nPreferred-Value: arevela\nPrefix: ja-Latn-hepburn\n",
        "C5",
    ),
    (
        34,
        "Type: variant\nSubtag: arevela\nPreferred-Value: hy\n",
        "C6",
    ),
    (31, "Type: variant\nSubtag: 1901\nPrefix: de-x-a\n", "C7"),
    (
        22,
        "Type: extlang\nSubtag: min\nPreferred-Value: min\nPrefix: zh\n",
        "C8",
    ),
    (
        44,
        "Type: redundant\nTag: sgn-DE\nPreferred-Value: gsg-x-a\n",
        "C9",
    ),
    (
        48,
        "Type: redundant\nTag: sgn-DD\nPreferred-Value: sgn-DE\n",
        "C10",
    ),
    (
        45,
        "Type: redundant\nTag: zh-cmn\nPreferred-Value: yue\n",
        "C11",
    ),
    (
        19,
        "Type: language\nSubtag: qaa..qtz\nPreferred-Value: en\n",
        "C12",
    ),
];
