//! The tags that a service has, of which it serves one to each reader.
ghost use Rattle.std.specs.Prelude.{◌≡◌, IfErr, IfOk, length, map};
ghost use Rattle.lt_canon.specs.Texts.{IsTextRefusal};
ghost use Rattle.lt_range.specs.Available.{AreAvailable, IsAvailableRefusal, no_memory};
ghost use Rattle.lt_range.specs.Matched.{HasSubtags};
ghost use Rattle.lt_range.specs.Preferences.{AreAccepted, IsBest};

use crate::matched::subtags_of_text;
use crate::matching_table::MatchingTable;
use crate::preferences::{self, Preference};
use crate::tag_subtags::TagSubtags;
use lt_canon::TextRefusal;
use lt_registry::Lookup;
use lt_tag::OutOfMemory;
use std::alloc::{AllocFailed, Global};
use std::marker::Model;
use thiserror::Error;

/// The tags that a service has, of which it serves one to each reader, prepared once for many readers.
#[derive(Debug, Drop)]
pub struct Available {
    tags: Vec<TagSubtags>,
}

// A contract sees the spellings by which ranges match the tags.
impl Model for Available {
    ghost use Rattle.std.specs.Prelude.{List};
    ghost use Rattle.lt_range.specs.Spellings.{Spellings};

    ghost Value = { List Spellings };

    ghost view = { λ a. a.tags.items };
}

/// Why a list of tags can't be served.
#[derive(Debug, Drop, Error)]
#[error("tag {place}: {refusal}")]
pub struct AvailableRefusal {
    /// What is wrong with the first tag that is refused.
    pub refusal: TextRefusal,
    /// The number of that tag, from 1. Where memory ran out it says nothing.
    pub place: usize,
}

impl From<AllocFailed<TagSubtags>> for AvailableRefusal {
    ghost from_gives = { λ _ refused. refused ≡ no_memory };

    fn from(_error: AllocFailed<TagSubtags>) -> AvailableRefusal {
        AvailableRefusal {
            refusal: TextRefusal::OutOfMemory,
            place: 0,
        }
    }
}

/// Reads a text as a tag, and gives the spellings by which this tag is matched. Refused if `subtags_of_text` refuses the
/// text, with its refusal and `place`, the number of the text.
fn numbered_subtags<L: Lookup>(
    alloc: Global,
    table: &MatchingTable<L>,
    text: &[u8],
    place: usize,
) -> Result<TagSubtags, AvailableRefusal>
    ensures subtags { IfOk result (λ subtags. HasSubtags (L.listed table.now) text.now subtags) }
    ensures numbered { IfErr result (λ refused. refused.place ≡ place) }
    ensures refusal { IfErr result (λ refused. IsTextRefusal (L.listed table.now) text.now refused.refusal) }
{
    match subtags_of_text(alloc, table, text) {
        Ok(subtags) => Ok(subtags),
        Err(refusal) => Err(AvailableRefusal { refusal, place }),
    }
}

impl Available {
    /// The tags that texts are read as, in their order. Refused at the first text that `subtags_of_text` refuses, with
    /// its refusal and the number of the text, from 1, or where memory runs out.
    pub fn of_texts<L: Lookup>(
        alloc: Global,
        table: &MatchingTable<L>,
        texts: &[&[u8]],
    ) -> Result<Available, AvailableRefusal>
        ensures available { IfOk result (λ available. AreAvailable (L.listed table.now) (map (λ text. text.now) texts.now) (length texts.now) available) }
        ensures refusal { IfErr result (IsAvailableRefusal (L.listed table.now) (map (λ text. text.now) texts.now)) }
    {
        let mut tags = Vec::new(alloc);
        for place in 0..texts.len() {
            let subtags = numbered_subtags(alloc, table, texts[place], place + 1)?;
            tags.push(subtags)?;
        }
        Ok(Available { tags })
    }

    /// The place, counted from 0, of the tag to serve to a reader with these preferences, as [`best`](crate::best) says
    /// (RFC 9110, 12.5.4). None if no preference serves a tag: the caller takes a default then.
    pub fn best(&self, preferences: &[Preference]) -> Option<usize>
        ensures { IsBest preferences.now self.now result }
    {
        preferences::best(preferences, &self.tags)
    }

    /// The places, counted from 0, of the tags that a reader with these preferences accepts, in the order that
    /// [`filter_accepted`](crate::filter_accepted) says. The only refusal is running out of memory.
    pub fn filter(
        &self,
        alloc: Global,
        preferences: &[Preference],
    ) -> Result<Vec<usize>, OutOfMemory>
        ensures { IfOk result (λ places. AreAccepted preferences.now self.now places.items) }
    {
        preferences::filter_accepted(alloc, preferences, &self.tags)
    }
}
