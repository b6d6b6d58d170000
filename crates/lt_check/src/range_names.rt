//! The ranges that records name, such as `qaa..qtz`: C1 asks whether an earlier record of the same kind names the same
//! range.
ghost use Rattle.std.specs.Prelude.{◌≡◌, ◌↔◌, ◌⊎◌, [], Contains, IsTrue, IfOk, OnOk};
ghost use Rattle.lt_check.specs.NameChecks.{range_name};

use lt_registry::Kind;
use lt_subtag::Subtag;
use lt_tag::OutOfMemory;
use std::alloc::Global;
use std::collections::BTreeSet;
use std::marker::Model;

/// A range under a kind.
#[derive(Drop, PartialEq, Eq, PartialOrd, Ord)]
pub(crate) struct RangeName {
    /// The kind's number, which has an order, as a set asks.
    kind: u8,
    first: Subtag,
    last: Subtag,
}

impl RangeName {
    /// The name of the range of a kind from a first to a last subtag.
    fn new(kind: Kind, first: &Subtag, last: &Subtag) -> RangeName
        ensures { result ≡ range_name kind first.now last.now }
    {
        RangeName {
            kind: kind as u8,
            first: first.copy(),
            last: last.copy(),
        }
    }
}

/// A set of ranges: those that the records so far name.
#[derive(Drop)]
pub(crate) struct RangeNames {
    names: BTreeSet<RangeName, Global>,
}

impl Model for RangeNames {
    ghost use Rattle.std.specs.Prelude.{List};
    ghost use Rattle.lt_check.specs.declared.range_names.RangeName.{RangeName};

    ghost Value = { List RangeName };

    ghost view = { λ n. n.names.keys };
}

impl RangeNames {
    /// No ranges so far.
    pub(crate) fn new(alloc: Global) -> RangeNames
        ensures { result ≡ [] }
    {
        RangeNames {
            names: BTreeSet::new(alloc),
        }
    }

    /// Adds the range of a kind from `first` to `last`, and tells whether it is new (`added`). The set then has it and
    /// those that it had (`names`). Refused only where memory runs out.
    pub(crate) fn add(
        &mut self,
        kind: Kind,
        first: &Subtag,
        last: &Subtag,
    ) -> Result<bool, OutOfMemory>
        ensures added { IfOk result (λ added. IsTrue added ↔ (Contains self.old (range_name kind first.now last.now) → ⊥)) }
        ensures names { OnOk result ((name : RangeName) → Contains self.new name ↔ (Contains self.old name ⊎ (range_name kind first.now last.now ≡ name))) }
    {
        Ok(self.names.insert(RangeName::new(kind, first, last))?)
    }
}
