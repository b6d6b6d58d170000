//! The subtags of a tag in each of its spellings, as they are matched.
ghost use Rattle.std.specs.Prelude.{◌≡◌, ◌∷◌, [], IfOk};
ghost use Rattle.lt_subtag.specs.Reading.{subtag_of};
ghost use Rattle.lt_tag.specs.Lists.{list_of};
ghost use Rattle.lt_tag.specs.Faults.{HasList};
ghost use Rattle.lt_tag.specs.WellFormed.{spell};
ghost use Rattle.lt_range.specs.Spellings.{first_of};

use lt_subtag::Subtag;
use lt_tag::laws::text_of_tag_has_its_list;
use lt_tag::{OutOfMemory, Tag, copy_subtags, cut_piece, write_tag};
use std::alloc::Global;
use std::marker::Model;

/// The subtags of one spelling of a tag in their order, in lower case, as a language range is matched with them (RFC
/// 4647, 3.3.2).
#[derive(Debug, Drop)]
pub(crate) struct SubtagList {
    subtags: Vec<Subtag>,
}

// A contract sees the list of the subtags.
impl Model for SubtagList {
    ghost use Rattle.std.specs.Prelude.{ℕ, List};

    ghost Value = { List (List ℕ) };

    ghost view = { λ l. l.subtags.items };
}

impl SubtagList {
    /// The subtags that the pieces of a text between its hyphens are. Each piece must be a subtag. The only refusal is
    /// running out of memory.
    pub(crate) fn of_text(alloc: Global, text: &[u8]) -> Result<SubtagList, OutOfMemory>
        requires { HasList text.now }
        ensures { IfOk result (λ subtags. subtags ≡ list_of text.now) }
    {
        let mut subtags = Vec::new(alloc);
        let mut rest = Some(text);
        while let Some(bytes) = rest {
            let (piece, after) = cut_piece(bytes);
            let Ok(subtag) = Subtag::read(piece) else {
                unreachable!()
            };
            subtags.push(subtag)?;
            rest = after;
        }
        Ok(SubtagList { subtags })
    }

    /// The subtags of a tag: `zh-Hant-x-ab` has four of them. The only refusal is running out of memory.
    pub(crate) fn of(alloc: Global, tag: &Tag) -> Result<SubtagList, OutOfMemory>
        ensures { IfOk result (λ subtags. subtags ≡ spell tag.now) }
    {
        // So that each piece of the text is known to be a subtag.
        text_of_tag_has_its_list();
        // So that their shapes are known.
        let _ = tag.private();
        let text = write_tag(alloc, tag)?;
        SubtagList::of_text(alloc, &text)
    }

    /// The list of copies of these subtags. The only refusal is running out of memory.
    pub(crate) fn copy_of(alloc: Global, subtags: &[Subtag]) -> Result<SubtagList, OutOfMemory>
        ensures { IfOk result (λ list. list ≡ subtags.now) }
    {
        Ok(SubtagList {
            subtags: copy_subtags(alloc, subtags)?,
        })
    }

    /// The subtags in their order.
    pub(crate) fn subtags(&self) -> &[Subtag]
        ensures { result.now ≡ self.now }
    {
        &self.subtags
    }

    /// The subtags in their order, in a vector.
    pub(crate) fn into_subtags(self) -> Vec<Subtag>
        ensures { result.items ≡ self }
    {
        let SubtagList { subtags } = self;
        subtags
    }
}

/// The subtags of a tag in each spelling by which it is matched. The first is the tag's extlang form, or the tag as it
/// is written, if it was made of that alone. The others are whole tags of records that have the same canonical form:
/// `no-bok` is one of `nb`.
#[derive(Debug, Drop)]
pub struct TagSubtags {
    first: SubtagList,
    others: Vec<SubtagList>,
}

// A contract sees the lists of the subtags, that of the first spelling first.
impl Model for TagSubtags {
    ghost use Rattle.std.specs.Prelude.{◌∷◌};
    ghost use Rattle.lt_range.specs.Spellings.{Spellings};

    ghost Value = { Spellings };

    ghost view = { λ t. t.first ∷ t.others.items };
}

impl TagSubtags {
    /// The subtags of a tag as it is written, and of no other spelling: `zh-Hant-x-ab` has four of them. The only
    /// refusal is running out of memory.
    pub fn of(alloc: Global, tag: &Tag) -> Result<TagSubtags, OutOfMemory>
        ensures { IfOk result (λ lists. lists ≡ spell tag.now ∷ []) }
    {
        let first = SubtagList::of(alloc, tag)?;
        Ok(TagSubtags {
            first,
            others: Vec::new(alloc),
        })
    }

    /// The lists of subtags of a tag: `first`, and then `others`.
    pub(crate) fn of_lists(first: SubtagList, others: Vec<SubtagList>) -> TagSubtags
        ensures { result ≡ first ∷ others.items }
    {
        TagSubtags { first, others }
    }

    /// The subtags of the first spelling in their order.
    pub fn subtags(&self) -> &[Subtag]
        ensures { result.now ≡ first_of self.now }
    {
        self.first.subtags()
    }

    /// The lists of the other spellings.
    pub(crate) fn others(&self) -> &[SubtagList]
        ensures { self.now ≡ first_of self.now ∷ result.now }
    {
        &self.others
    }

    /// The list of the first spelling, and those of the others.
    pub(crate) fn into_lists(self) -> (SubtagList, Vec<SubtagList>)
        ensures { self ≡ result.0 ∷ result.1.items }
    {
        let TagSubtags { first, others } = self;
        (first, others)
    }
}
