//! The Prefixes of a record, and a search among them (RFC 5646, 3.1.8).
ghost use Rattle.std.specs.Prelude.{◌≡◌, List, [], IfOk};
ghost use Rattle.std.specs.List.{AllByRecursion, filter_map};
ghost use Rattle.std.specs.Cmp.{partial_equiv_from_equiv};
ghost use Rattle.std.specs.Cmp.Lexicographic.{pointwise, lists_equiv, nat_list_eq_equiv};
ghost use Rattle.lt_registry.specs.Entries.{IsPrefix, has_prefix};
ghost use Rattle.lt_registry.specs.Prefixes.{single_of};
ghost use Rattle.lt_registry.specs.Same.{same_list};

use crate::entries::Prefix;
use lt_subtag::Subtag;
use lt_tag::OutOfMemory;
use std::alloc::Global;
use std::marker::Model;

/// The Prefixes of a record in the order of the file; and the numbers of those that are one subtag, in rising order,
/// for a binary search.
#[derive(Debug, Drop)]
pub(crate) struct Prefixes {
    all: Vec<Prefix>,
    singles: Vec<u64>,
}

// A contract sees the Prefixes in the order of the record (RFC 5646, 3.1.8).
impl Model for Prefixes {
    ghost use Rattle.std.specs.Prelude.{ℕ, List};
    ghost use Rattle.lt_registry.specs.Prefixes.{AreSingles};

    ghost Value = { List (List (List ℕ)) };

    ghost view = { λ p. p.all.items };

    ghost invariant = { λ p. AreSingles p.all.items p.singles.items };
}

impl PartialEq for Prefixes {
    ghost eq = { pointwise same_list };

    ghost laws = { partial_equiv_from_equiv (lists_equiv (lists_equiv nat_list_eq_equiv)) };

    fn eq(&self, other: &Prefixes) -> bool {
        self.all() == other.all()
    }
}

impl Eq for Prefixes {
    ghost laws = { lists_equiv (lists_equiv nat_list_eq_equiv) };
}

impl Prefixes {
    /// No Prefixes.
    pub(crate) fn none(alloc: Global) -> Prefixes
        ensures { result ≡ [] }
    {
        Prefixes {
            all: Vec::new(alloc),
            singles: Vec::new(alloc),
        }
    }

    /// The Prefixes of a list, in its order. Refused only where memory runs out.
    pub(crate) fn of_list(alloc: Global, prefixes: Vec<Prefix>) -> Result<Prefixes, OutOfMemory>
        ensures { IfOk result (λ made. made ≡ prefixes.items) }
    {
        let mut singles = singles(alloc, &prefixes)?;
        singles.sort_unstable();
        Ok(Prefixes {
            all: prefixes,
            singles,
        })
    }

    /// The Prefixes in the order of the file.
    pub(crate) fn all(&self) -> &[Prefix]
        ensures { result.now ≡ self.now }
    {
        self.all.as_slice()
    }

    /// Whether one of the Prefixes is just this subtag. Each Prefix must have at least one subtag.
    pub(crate) fn has(&self, subtag: &Subtag) -> bool
        requires { AllByRecursion IsPrefix self.now }
        ensures { result ≡ has_prefix self.now subtag.now }
    {
        self.singles.binary_search(&subtag.number()).is_ok()
    }
}

/// The numbers of those Prefixes that are one subtag, in the order of the Prefixes. The only refusal is running out of
/// memory.
fn singles(alloc: Global, prefixes: &[Prefix]) -> Result<Vec<u64>, OutOfMemory>
    ensures { IfOk result (λ numbers. numbers.items ≡ filter_map single_of prefixes.now) }
{
    let mut numbers = Vec::new(alloc);
    for prefix in prefixes {
        if let [only] = prefix.subtags() {
            numbers.push(only.number())?;
        }
    }
    Ok(numbers)
}
