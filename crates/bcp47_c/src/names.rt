//! The names of statuses and faults.
ghost use Rattle.std.specs.Prelude.{◌≡◌, ◌≤◌, ◌≢◌, [], slice_index_or};
ghost use Rattle.lt_rewrite.specs.Names.{name_of};
ghost use Rattle.lt_rewrite.specs.declared.steps.StepKind.{StepKind};
ghost use Rattle.bcp47_c.specs.Names.{fault_names, status_names};
ghost use Rattle.bcp47_c.specs.Numbers as number_of;

use crate::numbers::step_kind;

/// The greatest number of a status that has its name here: `bindings/c/names.c` names the greater ones too.
pub(crate) const LAST_STATUS: u8 = 12;

/// The greatest number of a fault.
pub(crate) const LAST_FAULT: u8 = 55;

/// The name of a status, for example `NotATag` for 1. The number must be 0 to 12.
#[tactic(auto, unfolding(crate::specs::Names::status_names))]
pub(crate) fn status_name(status: u8) -> &'static str
    requires { status ≤ 12 }
    ensures { result.now ≡ slice_index_or status_names status [] }
{
    match status {
        0 => "Done",
        1 => "NotATag",
        2 => "Invalid",
        3 => "ReplacementRepeats",
        4 => "OutOfMemory",
        5 => "BufferTooSmall",
        6 => "Different",
        7 => "BadFile",
        8 => "BadRecord",
        9 => "Rejected",
        10 => "NoUpgrade",
        11 => "NoSuchStep",
        12 => "WrongEnd",
        _ => unreachable!(),
    }
}

/// The name of the fault with this number, as the program prints it, for example `BadByte` for 3. The number must be 0
/// to 55.
#[tactic(auto, unfolding(crate::specs::Names::fault_names))]
pub(crate) fn fault_name(fault: u8) -> &'static str
    requires { fault ≤ 55 }
    ensures { result.now ≡ slice_index_or fault_names fault [] }
{
    match fault {
        0 => "None",
        1 => "TooLong",
        2 => "EmptySubtag",
        3 => "BadByte",
        4 => "LongSubtag",
        5 => "BadLanguage",
        6 => "Misplaced",
        7 => "Unfinished",
        8 => "UnknownLanguage",
        9 => "UnknownExtlang",
        10 => "ExtlangPrefix",
        11 => "TooManyExtlangs",
        12 => "UnknownScript",
        13 => "UnknownRegion",
        14 => "UnknownVariant",
        15 => "DuplicateVariant",
        16 => "DuplicateSingleton",
        17 => "BadTransform",
        18 => "LineTooLong",
        19 => "NotUtf8",
        20 => "LeadingContinuation",
        21 => "BadLine",
        22 => "TooManyRecords",
        23 => "Read",
        24 => "TooManyTurns",
        25 => "Failed",
        26 => "RepeatedField",
        27 => "MissingType",
        28 => "UnknownType",
        29 => "MissingName",
        30 => "BadRange",
        31 => "BadSubtag",
        32 => "BadTag",
        33 => "BadPreferred",
        34 => "BadPrefix",
        35 => "C1",
        36 => "C2",
        37 => "C3",
        38 => "C4",
        39 => "C5",
        40 => "C6",
        41 => "C7",
        42 => "C8",
        43 => "C9",
        44 => "C10",
        45 => "C11",
        46 => "C12",
        47 => "U1",
        48 => "U2",
        49 => "U3",
        50 => "U4",
        51 => "U5",
        52 => "U6",
        53 => "BadFirst",
        54 => "ExtendedRange",
        55 => "BadWeight",
        _ => unreachable!(),
    }
}

/// The name of the kind of step that has a number, or an empty text if no kind has it. In the clause `named`, `k` is
/// the kind with this number; no two kinds have the same one.
#[tactic(auto, using(crate::proofs::KindNumbers::same_kind))]
pub(crate) fn kind_name(number: u8) -> &'static str
    ensures named { (k : StepKind) → number ≡ number_of.step_kind k → result.now ≡ name_of k }
    ensures none { ((k : StepKind) → number ≢ number_of.step_kind k) → result.now ≡ [] }
{
    match step_kind(number) {
        Some(kind) => kind.name(),
        None => "",
    }
}
