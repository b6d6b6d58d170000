//! Langtags without extensions and private use, as lists of subtags. The check of a registry asks whether each Prefix
//! is one, and needs no memory for it.
ghost use Rattle.std.specs.Prelude.{◌≡◌, ◌↔◌, IsTrue};
ghost use Rattle.lt_tag.specs.PlainLangTags.{IsPlainLangTag, room_after};

use crate::grandfathered::number_of;
use lt_subtag::Subtag;

/// What may follow the subtags of a core (RFC 5646, 2.1).
#[derive(Clone, Copy, Drop)]
enum Room {
    /// At most this many extlangs, or a script, a region or a variant.
    Extlangs(u8),
    /// A region or a variant.
    Region,
    /// A variant.
    Variants,
}

impl Room {
    /// What may follow a subtag, where `self` is what may come at its place. None if the subtag itself may not come
    /// there.
    fn after(self, subtag: &Subtag) -> Option<Room>
        ensures { result ≡ room_after self subtag.now }
    {
        match self {
            Room::Extlangs(left) if subtag.is_extlang() && left > 0 => {
                Some(Room::Extlangs(left - 1))
            }
            Room::Extlangs(_) if subtag.is_script() => Some(Room::Region),
            Room::Extlangs(_) | Room::Region if subtag.is_region() => Some(Room::Variants),
            _ if subtag.is_variant() => Some(Room::Variants),
            _ => None,
        }
    }
}

/// Whether these are the subtags of a langtag without extensions and private use (RFC 5646, 2.1), for example those
/// of `zh-Hant`. The subtags of one of the 26 grandfathered tags are not. It takes a list of any length, and no
/// memory.
pub fn is_plain_langtag(subtags: &[Subtag]) -> bool
    ensures { IsTrue result ↔ IsPlainLangTag subtags.now }
{
    let Some((language, others)) = subtags.split_first() else {
        return false;
    };
    if !language.is_language() {
        return false;
    }
    // Only a language of 2 or 3 letters has extlangs, at most 3 (RFC 5646, 2.1).
    let extlangs = if language.bytes().len() <= 3 { 3 } else { 0 };
    let mut room = Room::Extlangs(extlangs);
    for subtag in others {
        match room.after(subtag) {
            Some(next) => room = next,
            None => return false,
        }
    }
    number_of(subtags).is_none()
}
