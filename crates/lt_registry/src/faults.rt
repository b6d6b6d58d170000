//! Why a tag is not valid, and why a record gives no entry. A `From` below is what `?` calls to hand on a fault, and
//! its `from_gives` says which fault it makes.
ghost use Rattle.std.specs.Prelude.{◌≡◌};
ghost use Rattle.lt_registry.specs.Names.{name_of, refusal_name_of, record_name_of, registry_name_of};

use lt_jar::JarFault;
use lt_tag::OutOfMemory;
use std::alloc::AllocFailed;
use thiserror::Error;

/// Why a tag is not valid (RFC 5646, 2.2.9). Of the faults at one place the first in this order is answered.
#[derive(Clone, Copy, Debug, PartialEq, Eq)]
pub enum ValidFaultKind {
    /// The language is not registered.
    UnknownLanguage,
    /// The first extlang is not registered.
    UnknownExtlang,
    /// The language is no Prefix of the first extlang (RFC 5646, 3.1.8).
    ExtlangPrefix,
    /// There is a second extlang.
    TooManyExtlangs,
    /// The script is not registered.
    UnknownScript,
    /// The region is not registered.
    UnknownRegion,
    /// A variant is not registered.
    UnknownVariant,
    /// A variant occurs a second time (RFC 5646, 2.2.5).
    DuplicateVariant,
    /// A singleton occurs a second time (RFC 5646, 2.2.6).
    DuplicateSingleton,
    /// The subtags of a `t` extension don't have its form (RFC 6497, 2.2).
    BadTransform,
}

impl ValidFaultKind {
    /// The kind's name, as it is written here: `UnknownLanguage`.
    pub fn name(self) -> &'static str
        ensures { result.now ≡ name_of self }
    {
        match self {
            ValidFaultKind::UnknownLanguage => "UnknownLanguage",
            ValidFaultKind::UnknownExtlang => "UnknownExtlang",
            ValidFaultKind::ExtlangPrefix => "ExtlangPrefix",
            ValidFaultKind::TooManyExtlangs => "TooManyExtlangs",
            ValidFaultKind::UnknownScript => "UnknownScript",
            ValidFaultKind::UnknownRegion => "UnknownRegion",
            ValidFaultKind::UnknownVariant => "UnknownVariant",
            ValidFaultKind::DuplicateVariant => "DuplicateVariant",
            ValidFaultKind::DuplicateSingleton => "DuplicateSingleton",
            ValidFaultKind::BadTransform => "BadTransform",
        }
    }
}

/// Why a tag is not valid, and at which subtag. It is printed as `UnknownScript 2`.
#[derive(Clone, Copy, Debug, Drop, Error, PartialEq, Eq)]
#[error("{kind:?} {place}")]
pub struct ValidFault {
    /// What the fault is.
    pub kind: ValidFaultKind,
    /// The number of the subtag at fault, counted from 1: of `DuplicateVariant` and `DuplicateSingleton` the
    /// second one, and of `BadTransform` the singleton.
    pub place: u32,
}

/// Why `validate` doesn't find a tag valid.
#[derive(Clone, Copy, Debug, Drop, Error, PartialEq, Eq)]
pub enum ValidRefusal {
    /// The tag is not valid.
    #[error("{0}")]
    Fault(ValidFault),
    /// Memory ran out, for the parts of a `t` extension.
    #[error("OutOfMemory")]
    OutOfMemory,
}

impl ValidRefusal {
    /// The name of the fault's kind, or `OutOfMemory`.
    pub fn name(self) -> &'static str
        ensures { result.now ≡ refusal_name_of self }
    {
        match self {
            ValidRefusal::Fault(fault) => fault.kind.name(),
            ValidRefusal::OutOfMemory => "OutOfMemory",
        }
    }
}

impl From<ValidFault> for ValidRefusal {
    ghost use Rattle.std.specs.Prelude.{◌≡◌};
    ghost use Rattle.lt_registry.specs.declared.faults.ValidRefusal.TheVariants as refusals;

    ghost from_gives = { λ fault refusal. refusal ≡ refusals.Fault fault };

    fn from(fault: ValidFault) -> ValidRefusal {
        ValidRefusal::Fault(fault)
    }
}

/// Why a record gives no entry (RFC 5646, 3.1). Of the faults of one record the first in this order is
/// answered.
#[derive(Clone, Copy, Debug, PartialEq, Eq)]
pub enum RecordFaultKind {
    /// `Type`, `Subtag`, `Tag` or `Preferred-Value` occurs twice.
    RepeatedField,
    /// There is no `Type`.
    MissingType,
    /// The `Type` is none of the seven.
    UnknownType,
    /// There is no `Subtag` or, for a grandfathered or redundant tag, no `Tag`.
    MissingName,
    /// The `Subtag` holds two full stops and is no range of its kind.
    BadRange,
    /// The `Subtag` doesn't have the form of its kind.
    BadSubtag,
    /// The `Tag` is not well-formed.
    BadTag,
    /// The `Preferred-Value` doesn't have the form that its kind asks for.
    BadPreferred,
    /// A `Prefix` of an extlang or variant is no list of subtags.
    BadPrefix,
    /// Memory ran out.
    OutOfMemory,
}

impl RecordFaultKind {
    /// The kind's name, as it is written here: `UnknownType`.
    pub fn name(self) -> &'static str
        ensures { result.now ≡ record_name_of self }
    {
        match self {
            RecordFaultKind::RepeatedField => "RepeatedField",
            RecordFaultKind::MissingType => "MissingType",
            RecordFaultKind::UnknownType => "UnknownType",
            RecordFaultKind::MissingName => "MissingName",
            RecordFaultKind::BadRange => "BadRange",
            RecordFaultKind::BadSubtag => "BadSubtag",
            RecordFaultKind::BadTag => "BadTag",
            RecordFaultKind::BadPreferred => "BadPreferred",
            RecordFaultKind::BadPrefix => "BadPrefix",
            RecordFaultKind::OutOfMemory => "OutOfMemory",
        }
    }
}

impl From<OutOfMemory> for RecordFaultKind {
    ghost use Rattle.std.specs.Prelude.{◌≡◌};
    ghost use Rattle.lt_registry.specs.declared.faults.RecordFaultKind.TheVariants as records;

    ghost from_gives = { λ _ kind. kind ≡ records.OutOfMemory };

    fn from(_error: OutOfMemory) -> RecordFaultKind {
        RecordFaultKind::OutOfMemory
    }
}

impl<T: Drop> From<AllocFailed<T>> for RecordFaultKind {
    ghost use Rattle.std.specs.Prelude.{◌≡◌};
    ghost use Rattle.lt_registry.specs.declared.faults.RecordFaultKind.TheVariants as records;

    ghost from_gives = { λ _ kind. kind ≡ records.OutOfMemory };

    fn from(_error: AllocFailed<T>) -> RecordFaultKind {
        RecordFaultKind::OutOfMemory
    }
}

/// Why a record gives no entry, and which record. It is printed as `UnknownType 7`.
#[derive(Clone, Copy, Debug, Drop, Error, PartialEq, Eq)]
#[error("{kind:?} {number}")]
pub struct RecordFault {
    /// What the fault is.
    pub kind: RecordFaultKind,
    /// The record's number in the file, counted from 1, with the header counted too.
    pub number: u32,
}

/// Why a registry is not read.
#[derive(Clone, Copy, Debug, Drop, Error, PartialEq, Eq)]
pub enum RegistryFault {
    /// The text is not in the record-jar format, or was not read to its end.
    #[error("{0}")]
    Jar(JarFault),
    /// A record gives no entry.
    #[error("{0}")]
    Record(RecordFault),
}

impl RegistryFault {
    /// The name of the fault that it holds.
    pub fn name(self) -> &'static str
        ensures { result.now ≡ registry_name_of self }
    {
        match self {
            RegistryFault::Jar(JarFault { kind, line: _ }) => kind.name(),
            RegistryFault::Record(RecordFault { kind, number: _ }) => kind.name(),
        }
    }
}

impl From<JarFault> for RegistryFault {
    ghost use Rattle.std.specs.Prelude.{◌≡◌};
    ghost use Rattle.lt_registry.specs.declared.faults.RegistryFault.TheVariants as refusals;

    ghost from_gives = { λ fault refusal. refusal ≡ refusals.Jar fault };

    fn from(fault: JarFault) -> RegistryFault {
        RegistryFault::Jar(fault)
    }
}

impl From<RecordFault> for RegistryFault {
    ghost use Rattle.std.specs.Prelude.{◌≡◌};
    ghost use Rattle.lt_registry.specs.declared.faults.RegistryFault.TheVariants as refusals;

    ghost from_gives = { λ fault refusal. refusal ≡ refusals.Record fault };

    fn from(fault: RecordFault) -> RegistryFault {
        RegistryFault::Record(fault)
    }
}
