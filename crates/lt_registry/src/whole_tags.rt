//! Whole tags of records.
ghost use Rattle.std.specs.Prelude.{◌≡◌, IfOk};
ghost use Rattle.std.specs.Cmp.{eq_by_cmp_equiv, partial_equiv_from_equiv};
ghost use Rattle.std.specs.Ordering.{eq_by_cmp};
ghost use Rattle.lt_tag.specs.Order.{tag_cmp};
ghost use Rattle.lt_tag.specs.OrderLaws.{tag_total};

use lt_tag::{OutOfMemory, Tag};
use std::alloc::Global;
use std::marker::Model;

/// A tag in memory of its own. Few records name one, so an entry stays small: it holds only where the tag is.
#[derive(Debug, Drop)]
pub struct WholeTag {
    place: Box<Tag>,
}

// A contract sees the tag.
impl Model for WholeTag {
    ghost use Rattle.lt_tag.specs.Parts.{TagForm};

    ghost Value = { TagForm };

    ghost view = { λ t. t.place.value };
}

impl PartialEq for WholeTag {
    ghost eq = { eq_by_cmp tag_cmp };

    ghost laws = { partial_equiv_from_equiv (eq_by_cmp_equiv tag_total) };

    fn eq(&self, other: &WholeTag) -> bool {
        self.tag() == other.tag()
    }
}

impl Eq for WholeTag {
    ghost laws = { eq_by_cmp_equiv tag_total };
}

impl WholeTag {
    /// The tag, in memory of its own. It is refused only where memory runs out.
    pub(crate) fn of_tag(alloc: Global, tag: Tag) -> Result<WholeTag, OutOfMemory>
        ensures { IfOk result (λ whole. whole ≡ tag) }
    {
        Ok(WholeTag {
            place: Box::new(alloc, tag)?,
        })
    }

    /// The tag.
    pub fn tag(&self) -> &Tag
        ensures { result.now ≡ self.now }
    {
        &self.place
    }
}
