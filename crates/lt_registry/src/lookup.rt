//! The trait of tables of entries, by which subtags and whole tags are looked up. Contracts of the crates above speak
//! of a table only by `listed`, so they hold of any table.
ghost use Rattle.std.specs.Prelude.{◌≡◌, List, All};
ghost use Rattle.std.specs.Option.{option_copied};
ghost use Rattle.lt_registry.specs.Parts.{EntryParts};
ghost use Rattle.lt_registry.specs.Entries.{IsEntry, NumbersRise, entry, whole};

use crate::entries::{Entry, Kind};
use lt_subtag::Subtag;
use lt_tag::Tag;

/// A table of entries. Each answer is the one that the list of entries determines (RFC 5646, 3.1.4 and 2.2.8).
pub trait Lookup {
    /// The entries in the order of the file.
    ghost listed: { Self → List EntryParts };

    /// The entries in the order of the file. Their numbers rise, and each has the forms of its kind.
    fn entries(&self) -> &[Entry]
        ensures value { result.now ≡ listed self.now }
        ensures rising { NumbersRise (listed self.now) }
        ensures forms { All IsEntry (listed self.now) };

    /// The entry of a subtag under a kind: the first record of the kind that names this subtag and no other; or,
    /// without such a record, the first whose range holds it. None if there is neither, and always for the kinds of
    /// whole tags, Grandfathered and Redundant.
    fn entry(&self, kind: Kind, subtag: &Subtag) -> Option<&Entry>
        ensures { option_copied result ≡ entry (listed self.now) kind subtag.now };

    /// The entry of a whole tag: the first grandfathered or redundant record of that tag, or None if it has none.
    fn whole(&self, tag: &Tag) -> Option<&Entry>
        ensures { option_copied result ≡ whole (listed self.now) tag.now };
}
