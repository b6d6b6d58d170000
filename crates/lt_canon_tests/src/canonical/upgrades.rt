//! The check of an upgrade between the sample and the sample with one change.
use super::checked;
use lt_registry::Lookup;
use lt_upgrade::{UpgradeFault, upgrade_check};
use std::alloc::Global;
use std::test::Fail;

/// What the check of an upgrade finds: nothing, or the code of the condition and the record.
pub(super) fn fault<A: Lookup + Drop, B: Lookup + Drop>(
    alloc: Global,
    older: A,
    newer: B,
) -> Result<Option<(&'static str, u32)>, Fail> {
    let (older, newer) = (checked(alloc, older)?, checked(alloc, newer)?);
    let answer = match upgrade_check(alloc, &older, &newer) {
        Err(UpgradeFault::OutOfMemory) => upgrade_check(alloc, &older, &newer),
        answer => answer,
    };
    match answer {
        Ok(()) => Ok(None),
        Err(UpgradeFault::Fails { condition, number }) => Ok(Some((condition.code(), number))),
        Err(UpgradeFault::OutOfMemory) => Err(Fail::from("no memory")),
    }
}

/// Records put in the place of one of the sample, an empty one to take it out, and the condition that then
/// fails at that number. No two ranges together cover an old one, nor does one of another length or kind.
pub(super) const FAULTS: &[(u32, &str, &str)] = &[
    (23, "", "U1"),
    (
        30,
        "Type: region\nSubtag: WA..XN\n%%\nType: region\nSubtag: XB..ZA\n",
        "U1",
    ),
    (9, "Type: language\nSubtag: iw\n", "U2"),
    (
        23,
        "Type: extlang\nSubtag: yue\nPreferred-Value: yue\nPrefix: ms\n",
        "U3",
    ),
    (
        34,
        "Type: variant\nSubtag: arevela\nPreferred-Value: hyw\nPrefix: hy\n",
        "U4",
    ),
    (
        31,
        "Type: variant\nSubtag: 1901\nPreferred-Value: de\nPrefix: de\n",
        "U5",
    ),
    (44, "Type: redundant\nTag: sgn-DE\n", "U6"),
];

/// Records put in the place of one of the sample, or after the last, after which each condition holds.
/// The range that covers an old one need not be the first that holds its ends.
pub(super) const UPGRADES: &[(usize, &str)] = &[
    (0, ""),
    (
        30,
        "Type: region\nSubtag: XA..XB\n%%\nType: region\nSubtag: WB..YA\n%%\nType: region\nSubtag: WC..XY\n",
    ),
];
