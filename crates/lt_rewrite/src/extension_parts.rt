//! Extensions as parts of a tag (RFC 5646, 2.2.6), so that the steps on lists of parts are those on extensions too.
ghost use Rattle.std.specs.Prelude.{length};
ghost use Rattle.std.proofs.Math.Nat.{zero-lt-suc};
ghost use Rattle.lt_tag.specs.Spelling.{spell_extension};

use crate::part_applying::Spelled;
use lt_tag::Extension;

/// An extension is a singleton and the subtags after it.
impl Spelled for Extension {
    ghost spell = { spell_extension };

    /// One for the singleton, and its subtags.
    fn subtag_count(&self) -> usize {
        1 + self.subtags().len()
    }

    ghost some = { λ e. zero-lt-suc (length e.subtags) };
}
