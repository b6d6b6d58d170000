//! Tests of letters and of their order, and whether a range such as `qaa..qtz` holds a subtag.
ghost use Rattle.std.specs.Prelude.{◌≡◌};
ghost use Rattle.lt_subtag.specs.Shapes as shapes;
ghost use Rattle.lt_registry.specs.Entries as forms;

use crate::entries::EntryName;
use lt_subtag::Subtag;
use std::cmp::Ordering;

/// Whether a subtag has only letters.
pub(crate) fn is_alphabetic(subtag: &Subtag) -> bool
    ensures { result ≡ shapes.is_alphabetic subtag.now }
{
    subtag.bytes().iter().all(|byte| byte.is_ascii_lowercase())
}

/// Whether `first` is the same as `other` or before it in letter order.
#[tactic(auto, using(crate::proofs::OrderLemmas::letters_le_is))]
pub(crate) fn is_up_to(first: &Subtag, other: &Subtag) -> bool
    ensures { result ≡ forms.letters_le first.now other.now }
{
    match first.cmp(other) {
        Ordering::Less | Ordering::Equal => true,
        Ordering::Greater => false,
    }
}

/// Whether a name is a range that holds a subtag. It holds each subtag of only letters that is as long as its ends and
/// is from the first to the last of them in letter order (RFC 5646, 3.1.4).
pub(crate) fn holds(name: &EntryName, subtag: &Subtag) -> bool
    ensures { result ≡ forms.holds subtag.now name.now }
{
    match name {
        EntryName::Range(first, last) => {
            subtag.bytes().len() == first.bytes().len()
                && is_alphabetic(subtag)
                && is_up_to(first, subtag)
                && is_up_to(subtag, last)
        }
        _ => false,
    }
}
