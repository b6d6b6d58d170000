//! A table of entries that passes the check.
ghost use Rattle.std.specs.Prelude.{◌≡◌, ◌⊎◌, IfOk, IfErr};
ghost use Rattle.lt_rewrite.specs.Shortcuts.{AreShortcuts};
ghost use Rattle.lt_check.specs.Flags.{AreFlags};
ghost use Rattle.lt_check.specs.Conditions.{IsChecked, Passes};
ghost use Rattle.lt_check.specs.Checking.{IsCause, IsFirstCause};
ghost use Rattle.lt_check.specs.declared.rejections.RejectedCause.TheVariants as causes;

use crate::checking::find_fault;
use crate::rejections::{Rejected, RejectedCause};
use crate::usual_subtags::UsualSubtags;
use crate::whole_checks::know_entries;
use lt_registry::Lookup;
use lt_rewrite::Shortcuts;
use std::alloc::Global;
use std::marker::Model;

/// A table of entries that passes the check: each record meets each [`Condition`](crate::Condition).
pub struct Checked<L: Lookup> {
    table: L,
    /// The ends of the table's chains of values.
    shortcuts: Shortcuts,
    /// Flags of the subtags that stay as they are.
    usual: UsualSubtags,
}

// Written by hand: the proof of a function that drops a checked table then has this one call to go through, and not the
// drop of each vector.
impl<L: Lookup + Drop> Drop for Checked<L> {
    /// Drops the three parts.
    fn drop(self) {
        let Checked {
            table,
            shortcuts,
            usual,
        } = self;
        drop(table);
        drop(shortcuts);
        drop(usual);
    }
}

// A contract sees it as its table. The table passes the check, and the shortcuts and the flags are those of this table.
impl<L: Lookup> Model for Checked<L> {
    ghost use Rattle.lt_check.specs.Checking.{IsCheckedAlong};

    ghost Value = { L };

    ghost view = { λ c. c.table };

    ghost invariant = { λ c. IsCheckedAlong (L.listed c.table) c.shortcuts c.usual };
}

impl<L: Lookup> Checked<L> {
    /// Checks that each record of a table meets each of the twelve [conditions](crate::Condition). They are judged in
    /// order, each only if all records meet those before it.
    ///
    /// A table that does not pass is handed back with the cause: `Finding`, the first condition that some
    /// record does not meet and the lowest number of those records; or `OutOfMemory`.
    pub fn new(alloc: Global, table: L) -> Result<Checked<L>, Rejected<L>>
        ensures value { IfOk result (λ checked. checked ≡ table) }
        ensures passes { IfOk result (λ checked. Passes (L.listed table)) }
        // A table that passes is rejected only for memory. Else the cause is a fault (`cause`), the first in order
        // (`first`).
        ensures returned { IfErr result (λ rejected. rejected.table ≡ table) }
        ensures rejects { IfErr result (λ rejected. (rejected.cause ≡ causes.OutOfMemory) ⊎ (Passes (L.listed table) → ⊥)) }
        ensures cause { IfErr result (λ rejected. IsCause (L.listed table) rejected.cause) }
        ensures first { IfErr result (λ rejected. IsFirstCause (L.listed table) rejected.cause) }
    {
        // Does nothing but tell the proof that the entries have their forms.
        know_entries(&table);
        let Ok(shortcuts) = Shortcuts::of_table(alloc, &table) else {
            return Err(Rejected {
                table,
                cause: RejectedCause::OutOfMemory,
            });
        };
        let Ok(usual) = UsualSubtags::of_table(alloc, &table) else {
            return Err(Rejected {
                table,
                cause: RejectedCause::OutOfMemory,
            });
        };
        match find_fault(alloc, &table, &shortcuts) {
            Ok(None) => Ok(Checked {
                table,
                shortcuts,
                usual,
            }),
            Ok(Some(finding)) => Err(Rejected {
                table,
                cause: RejectedCause::Finding(finding),
            }),
            Err(_) => Err(Rejected {
                table,
                cause: RejectedCause::OutOfMemory,
            }),
        }
    }

    /// The table, which passes the check.
    pub fn table(&self) -> &L
        ensures value { result.now ≡ self.now }
        ensures checked { IsChecked (L.listed self.now) }
    {
        &self.table
    }

    /// Shortcuts to the ends of the table's chains of values.
    pub fn shortcuts(&self) -> &Shortcuts
        ensures { AreShortcuts (L.listed self.now) result.now }
    {
        &self.shortcuts
    }

    /// The usual subtags: flags of the table's languages, scripts and regions that canonicalization leaves as they are.
    pub fn usual(&self) -> &UsualSubtags
        ensures flags { AreFlags (L.listed self.now) result.now }
        ensures checked { IsChecked (L.listed self.now) }
    {
        &self.usual
    }
}
