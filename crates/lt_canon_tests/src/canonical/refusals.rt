//! The names of refusals, and what they tell a user.
use lt_canon::{Refusal, TextRefusal, TraceFault};
use lt_check::{Condition, Finding, RejectedCause};
use lt_registry::{ValidFault, ValidFaultKind};
use lt_subtag::Subtag;
use lt_tag::{TagFault, TagFaultKind};
use lt_upgrade::{UpgradeCondition, UpgradeFault};
use std::alloc::Global;
use std::fmt::Display;
use std::test::Fail;

/// The fault of a tag whose language is not registered.
const UNKNOWN: ValidFault = ValidFault {
    kind: ValidFaultKind::UnknownLanguage,
    place: 1,
};

/// The fault of a tag whose script is not registered.
const SCRIPT: ValidFault = ValidFault {
    kind: ValidFaultKind::UnknownScript,
    place: 2,
};

/// The fault of a text with another byte in its second subtag.
const BAD: TagFault = TagFault {
    kind: TagFaultKind::BadByte,
    place: 2,
};

/// The first condition, which a record of this number does not meet.
const FINDING: Finding = Finding {
    condition: Condition::OwnName,
    number: 48,
};

/// A record of a newer registry that makes a new step.
const NEW_STEP: UpgradeFault = UpgradeFault::Fails {
    condition: UpgradeCondition::NoNewVariantLanguage,
    number: 7,
};

/// The variant that occurs twice.
fn repeated() -> Result<Subtag, Fail> {
    Ok(Subtag::read(b"alalc97")?)
}

/// The names of the refusals below, in their order.
const NAMES: &[&str] = &[
    "UnknownLanguage",
    "UnknownScript",
    "ReplacementRepeats",
    "OutOfMemory",
    "BadByte",
    "UnknownLanguage",
    "ReplacementRepeats",
    "OutOfMemory",
    "C1",
    "OutOfMemory",
    "U5",
    "OutOfMemory",
];

#[test]
fn names(rt: HostRuntime) -> Result<(), Fail> {
    let found = [
        Refusal::Invalid(UNKNOWN).name(),
        Refusal::Invalid(SCRIPT).name(),
        Refusal::ReplacementRepeats(repeated()?).name(),
        Refusal::OutOfMemory.name(),
        TextRefusal::NotATag(BAD).name(),
        TextRefusal::Invalid(UNKNOWN).name(),
        TextRefusal::ReplacementRepeats(repeated()?).name(),
        TextRefusal::OutOfMemory.name(),
        RejectedCause::Finding(FINDING).name(),
        RejectedCause::OutOfMemory.name(),
        NEW_STEP.name(),
        UpgradeFault::OutOfMemory.name(),
    ];
    assert!(rt; found.as_slice() == NAMES);
    Ok(())
}

/// Whether a user is told this of a value.
fn is_told<T: Display>(alloc: Global, value: &T, text: &str) -> bool {
    matches!(format!(in alloc; "{value}"), Ok(found) if found.as_str() == text)
}

#[test]
fn messages_of_refusals(rt: HostRuntime) -> Result<(), Fail> {
    let text = "BadByte 2: mend the text at this subtag, so that it is a language tag";
    assert!(rt; is_told(rt.alloc(), &TextRefusal::NotATag(BAD), text));
    let text = "replacements can repeat a variant: take one of the variants out";
    assert!(rt; is_told(rt.alloc(), &Refusal::ReplacementRepeats(repeated()?), text));
    let text =
        "UnknownScript 2: mend the subtag at this place, or take a registry by which it is valid";
    assert!(rt; is_told(rt.alloc(), &Refusal::Invalid(SCRIPT), text));
    Ok(())
}

#[test]
fn messages_of_faults(rt: HostRuntime) {
    let text = "record 48 does not meet OwnName: mend this record, or take another registry";
    assert!(rt; is_told(rt.alloc(), &RejectedCause::Finding(FINDING), text));
    let text =
        "step 3 does not lead on: mend it, or take the registry for which the trace was made";
    assert!(rt; is_told(rt.alloc(), &TraceFault::NoSuchStep(3), text));
    let fault = UpgradeFault::Fails {
        condition: UpgradeCondition::SameEnds,
        number: 9,
    };
    let text = "record 9 does not meet SameEnds: keep the older registry, or mend the newer";
    assert!(rt; is_told(rt.alloc(), &fault, text));
}
