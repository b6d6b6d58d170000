//! The numbers of statuses and faults, for which `bindings/c/bcp47.h` has constants. Faults of all kinds are numbered
//! together, 1 to 55; 0 means no fault.
ghost use Rattle.std.specs.Prelude.{◌≡◌};
ghost use Rattle.bcp47_c.specs.Numbers as numbers;

use bcp47::{
    AcceptFaultKind, Class, Condition, JarFaultKind, RangeFault, RecordFaultKind, StepKind,
    SubtagFault, TagFaultKind, UpgradeCondition, ValidFaultKind,
};

/// What was asked is done.
pub(crate) const DONE: u8 = 0;
/// The text is no tag.
pub(crate) const NOT_A_TAG: u8 = 1;
/// The tag is not valid.
pub(crate) const INVALID: u8 = 2;
/// Replacements can repeat a variant.
pub(crate) const REPLACEMENT_REPEATS: u8 = 3;
/// Memory ran out.
pub(crate) const OUT_OF_MEMORY: u8 = 4;
/// The text does not fit the buffer.
pub(crate) const BUFFER_TOO_SMALL: u8 = 5;
/// The two tags are not equivalent, or the range does not match the tag.
pub(crate) const DIFFERENT: u8 = 6;
/// The bytes are not in the format of a registry.
pub(crate) const BAD_FILE: u8 = 7;
/// A record can't be read as an entry.
pub(crate) const BAD_RECORD: u8 = 8;
/// The entries do not pass the check.
pub(crate) const REJECTED: u8 = 9;
/// The newer registry is no upgrade.
pub(crate) const NO_UPGRADE: u8 = 10;
/// A step of a trace does not lead on.
pub(crate) const NO_SUCH_STEP: u8 = 11;
/// The steps of a trace lead to another tag than its last.
pub(crate) const WRONG_END: u8 = 12;
/// The call is wrong: a number is that of no scheme or section.
pub(crate) const BAD_CALL: u8 = 14;
/// The text is no Accept-Language header.
pub(crate) const BAD_HEADER: u8 = 18;

/// The number that tells a fault for which a text is no tag, or 0 where memory ran out.
pub(crate) fn tag_fault(kind: TagFaultKind) -> u8
    ensures { result ≡ numbers.tag_fault kind }
{
    match kind {
        TagFaultKind::TooLong => 1,
        TagFaultKind::EmptySubtag => 2,
        TagFaultKind::BadByte => 3,
        TagFaultKind::LongSubtag => 4,
        TagFaultKind::BadLanguage => 5,
        TagFaultKind::Misplaced => 6,
        TagFaultKind::Unfinished => 7,
        TagFaultKind::OutOfMemory => 0,
    }
}

/// The number that tells a fault of a tag that is not valid.
pub(crate) fn valid_fault(kind: ValidFaultKind) -> u8
    ensures { result ≡ numbers.valid_fault kind }
{
    match kind {
        ValidFaultKind::UnknownLanguage => 8,
        ValidFaultKind::UnknownExtlang => 9,
        ValidFaultKind::ExtlangPrefix => 10,
        ValidFaultKind::TooManyExtlangs => 11,
        ValidFaultKind::UnknownScript => 12,
        ValidFaultKind::UnknownRegion => 13,
        ValidFaultKind::UnknownVariant => 14,
        ValidFaultKind::DuplicateVariant => 15,
        ValidFaultKind::DuplicateSingleton => 16,
        ValidFaultKind::BadTransform => 17,
    }
}

/// The number that tells a fault of the bytes of a registry, or 0 where memory ran out.
pub(crate) fn file_fault(kind: JarFaultKind) -> u8
    ensures { result ≡ numbers.file_fault kind }
{
    match kind {
        JarFaultKind::LineTooLong => 18,
        JarFaultKind::NotUtf8 => 19,
        JarFaultKind::LeadingContinuation => 20,
        JarFaultKind::BadLine => 21,
        JarFaultKind::TooManyRecords => 22,
        JarFaultKind::Read => 23,
        JarFaultKind::TooManyTurns => 24,
        JarFaultKind::Failed => 25,
        JarFaultKind::OutOfMemory => 0,
    }
}

/// The number that tells a fault for which a record can't be read as an entry, or 0 where memory ran out.
pub(crate) fn record_fault(kind: RecordFaultKind) -> u8
    ensures { result ≡ numbers.record_fault kind }
{
    match kind {
        RecordFaultKind::RepeatedField => 26,
        RecordFaultKind::MissingType => 27,
        RecordFaultKind::UnknownType => 28,
        RecordFaultKind::MissingName => 29,
        RecordFaultKind::BadRange => 30,
        RecordFaultKind::BadSubtag => 31,
        RecordFaultKind::BadTag => 32,
        RecordFaultKind::BadPreferred => 33,
        RecordFaultKind::BadPrefix => 34,
        RecordFaultKind::OutOfMemory => 0,
    }
}

/// The number that tells a condition of the check.
pub(crate) fn condition(condition: Condition) -> u8
    ensures { result ≡ numbers.condition condition }
{
    match condition {
        Condition::OwnName => 35,
        Condition::RegisteredValue => 36,
        Condition::EndingChain => 37,
        Condition::FittingExtlang => 38,
        Condition::FittingVariantValue => 39,
        Condition::FinalPrefixes => 40,
        Condition::LangtagPrefixes => 41,
        Condition::FittingGrandfathered => 42,
        Condition::ValidWhole => 43,
        Condition::RestingWhole => 44,
        Condition::AgreeingWhole => 45,
        Condition::NoRangeValue => 46,
    }
}

/// The number that tells a condition on an upgrade.
pub(crate) fn upgrade_condition(condition: UpgradeCondition) -> u8
    ensures { result ≡ numbers.upgrade_condition condition }
{
    match condition {
        UpgradeCondition::StaysRegistered => 47,
        UpgradeCondition::SameEnds => 48,
        UpgradeCondition::SameExtlang => 49,
        UpgradeCondition::SameVariantLanguage => 50,
        UpgradeCondition::NoNewVariantLanguage => 51,
        UpgradeCondition::SameWhole => 52,
    }
}

/// The number that tells a fault of a piece of a language range, which is what is between hyphens. The faults of a
/// piece of a tag's text have these numbers too.
fn subtag_fault(fault: SubtagFault) -> u8
    ensures { result ≡ numbers.subtag_fault fault }
{
    match fault {
        SubtagFault::Empty => 2,
        SubtagFault::BadByte => 3,
        SubtagFault::TooLong => 4,
    }
}

/// The number that tells a fault of a language range, or 0 where memory ran out.
pub(crate) fn range_fault(fault: RangeFault) -> u8
    ensures { result ≡ numbers.range_fault fault }
{
    match fault {
        RangeFault::BadSubtag(fault) => subtag_fault(fault),
        RangeFault::BadFirst => 53,
        RangeFault::OutOfMemory => 0,
    }
}

/// The number that tells a fault of a list element of a header, or 0 where memory ran out.
pub(crate) fn accept_fault(kind: AcceptFaultKind) -> u8
    ensures { result ≡ numbers.accept_fault kind }
{
    match kind {
        AcceptFaultKind::BadRange(fault) => range_fault(fault),
        AcceptFaultKind::ExtendedRange => 54,
        AcceptFaultKind::BadWeight => 55,
        AcceptFaultKind::OutOfMemory => 0,
    }
}

/// The number that tells the class of a tag.
pub(crate) fn class(class: Class) -> u8
    ensures { result ≡ numbers.class class }
{
    match class {
        Class::LangTag => 1,
        Class::PrivateUse => 2,
        Class::Grandfathered => 3,
    }
}

/// The kind of step that has a number, or None if no kind has it.
pub(crate) fn step_kind(number: u8) -> Option<StepKind>
    ensures { numbers.IsKindOf number result }
{
    Some(match number {
        1 => StepKind::Extlang,
        2 => StepKind::Language,
        3 => StepKind::Script,
        4 => StepKind::Region,
        5 => StepKind::Variant,
        6 => StepKind::VariantLanguage,
        7 => StepKind::Whole,
        8 => StepKind::SwapExtensions,
        9 => StepKind::DropAttribute,
        10 => StepKind::SwapAttributes,
        11 => StepKind::DropKeyword,
        12 => StepKind::SwapKeywords,
        13 => StepKind::DropTrue,
        14 => StepKind::SwapFields,
        _ => return None,
    })
}
