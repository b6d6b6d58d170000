//! Why a tag or a text has no canonical form. A `From` below is what `?` calls to hand on a refusal, and its
//! `from_gives` says which refusal it makes.
ghost use Rattle.std.specs.Prelude.{◌≡◌};
ghost use Rattle.lt_canon.specs.Names.{refusal_name_of, text_refusal_name_of};
ghost use Rattle.lt_canon.specs.Refusals.{of_valid, of_valid_fault, no_memory, of_fault, of_refusal, no_text_memory};

use lt_registry::{ValidFault, ValidRefusal};
use lt_subtag::Subtag;
use lt_tag::{OutOfMemory, TagFault, TagFaultKind};
use thiserror::Error;

/// Why a tag has no canonical form (RFC 5646, 4.5).
#[derive(Debug, Drop, Error)]
pub enum Refusal {
    /// The tag is not valid, for this fault (RFC 5646, 2.2.9).
    #[error("{0}: mend the subtag at this place, or take a registry by which it is valid")]
    Invalid(ValidFault),
    /// Steps can repeat a variant, so the tag has no canonical form. It is this variant that occurs twice where
    /// no core step leads on.
    #[error("replacements can repeat a variant: take one of the variants out")]
    ReplacementRepeats(Subtag),
    /// Memory ran out.
    #[error("out of memory: free some, and ask again")]
    OutOfMemory,
}

impl Refusal {
    /// The refusal's name, as it is printed: `ReplacementRepeats`, `OutOfMemory`, or, for a tag that is not
    /// valid, the name of its fault, such as `UnknownLanguage`.
    pub fn name(&self) -> &'static str
        ensures { result.now ≡ refusal_name_of self.now }
    {
        match self {
            Refusal::Invalid(fault) => fault.kind.name(),
            Refusal::ReplacementRepeats(_) => "ReplacementRepeats",
            Refusal::OutOfMemory => "OutOfMemory",
        }
    }
}

impl From<ValidRefusal> for Refusal {
    ghost from_gives = { λ refused refusal. refusal ≡ of_valid refused };

    fn from(refused: ValidRefusal) -> Refusal {
        match refused {
            ValidRefusal::Fault(fault) => Refusal::Invalid(fault),
            ValidRefusal::OutOfMemory => Refusal::OutOfMemory,
        }
    }
}

impl From<ValidFault> for Refusal {
    ghost from_gives = { λ fault refusal. refusal ≡ of_valid_fault fault };

    fn from(fault: ValidFault) -> Refusal {
        Refusal::Invalid(fault)
    }
}

impl From<OutOfMemory> for Refusal {
    ghost from_gives = { λ _ refusal. refusal ≡ no_memory };

    fn from(_error: OutOfMemory) -> Refusal {
        Refusal::OutOfMemory
    }
}

/// Why a text has no canonical text.
#[derive(Debug, Drop, Error)]
pub enum TextRefusal {
    /// The text is no tag, for this fault (RFC 5646, 2.1), whose kind is never `OutOfMemory` where a call of
    /// this crate answers it.
    #[error("{0}: mend the text at this subtag, so that it is a language tag")]
    NotATag(TagFault),
    /// The tag is not valid, for this fault (RFC 5646, 2.2.9).
    #[error("{0}: mend the subtag at this place, or take a registry by which it is valid")]
    Invalid(ValidFault),
    /// Steps can repeat a variant, so the tag has no canonical form. It is this variant that occurs twice where
    /// no core step leads on.
    #[error("replacements can repeat a variant: take one of the variants out")]
    ReplacementRepeats(Subtag),
    /// Memory ran out.
    #[error("out of memory: free some, and ask again")]
    OutOfMemory,
}

impl TextRefusal {
    /// The refusal's name, as it is printed: `ReplacementRepeats`, `OutOfMemory`, or, for a text that is no tag or a
    /// tag that is not valid, the name of its fault.
    pub fn name(&self) -> &'static str
        ensures { result.now ≡ text_refusal_name_of self.now }
    {
        match self {
            TextRefusal::NotATag(fault) => fault.kind.name(),
            TextRefusal::Invalid(fault) => fault.kind.name(),
            TextRefusal::ReplacementRepeats(_) => "ReplacementRepeats",
            TextRefusal::OutOfMemory => "OutOfMemory",
        }
    }
}

impl From<TagFault> for TextRefusal {
    ghost from_gives = { λ fault refusal. refusal ≡ of_fault fault };

    fn from(fault: TagFault) -> TextRefusal {
        match fault.kind {
            TagFaultKind::OutOfMemory => TextRefusal::OutOfMemory,
            _ => TextRefusal::NotATag(fault),
        }
    }
}

impl From<Refusal> for TextRefusal {
    ghost from_gives = { λ refused refusal. refusal ≡ of_refusal refused };

    fn from(refused: Refusal) -> TextRefusal {
        match refused {
            Refusal::Invalid(fault) => TextRefusal::Invalid(fault),
            Refusal::ReplacementRepeats(variant) => TextRefusal::ReplacementRepeats(variant),
            Refusal::OutOfMemory => TextRefusal::OutOfMemory,
        }
    }
}

impl From<OutOfMemory> for TextRefusal {
    ghost from_gives = { λ _ refusal. refusal ≡ no_text_memory };

    fn from(_error: OutOfMemory) -> TextRefusal {
        TextRefusal::OutOfMemory
    }
}
