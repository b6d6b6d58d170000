//! What `{}` prints of subtags, cores, extensions and tags.
use super::reading::TEXTS;
use lt_subtag::{Subtag, SubtagFault};
use lt_tag::Tag;
use std::alloc::Global;
use std::fmt::Display;

/// Whether `{}` prints this of a value.
fn prints<T: Display>(alloc: Global, value: &T, text: &str) -> bool {
    matches!(format!(in alloc; "{value}"), Ok(printed) if printed.as_str() == text)
}

/// Whether this is printed of the tag of a text.
fn prints_tag(alloc: Global, text: &str, shown: &str) -> bool {
    matches!(Tag::read(alloc, text.as_bytes()), Ok(tag) if prints(alloc, &tag, shown))
}

#[test]
fn whole_tags(rt: HostRuntime) {
    for (text, shown) in TEXTS {
        assert!(rt; prints_tag(rt.alloc(), text, shown), "{text}");
    }
}

/// Whether this is printed of a tag's core.
fn prints_core(alloc: Global, tag: &Tag, text: &str) -> bool {
    matches!(tag.core(), Some(core) if prints(alloc, core, text))
}

/// Whether a tag has one extension, of which this is printed.
fn prints_extension(alloc: Global, tag: &Tag, text: &str) -> bool {
    matches!(tag.extensions(), [only] if prints(alloc, only, text))
}

/// Whether this is printed of the core and of the only extension of the tag of a text.
fn prints_parts(alloc: Global, text: &str, core: &str, extension: &str) -> bool {
    let Ok(tag) = Tag::read(alloc, text.as_bytes()) else {
        return false;
    };
    prints_core(alloc, &tag, core) && prints_extension(alloc, &tag, extension)
}

#[test]
fn parts_of_a_tag(rt: HostRuntime) {
    let text = "ZH-yue-hant-hk-U-CO-trad-X-AB";
    assert!(rt; prints_parts(rt.alloc(), text, "zh-yue-Hant-HK", "u-co-trad"));
    let text = "ZH-HANT-hk-U-CO-TRAD-X-AB";
    assert!(rt; prints_parts(rt.alloc(), text, "zh-Hant-HK", "u-co-trad"));
}

/// Whether this is printed of the fault of a text.
fn prints_fault(alloc: Global, text: &str, shown: &str) -> bool {
    matches!(Tag::read(alloc, text.as_bytes()), Err(fault) if prints(alloc, &fault, shown))
}

#[test]
fn faults_of_texts(rt: HostRuntime) {
    assert!(rt; prints_fault(rt.alloc(), "zh-Hant_TW", "BadByte 2"));
    assert!(rt; prints_fault(rt.alloc(), "en-latn-de-a", "Unfinished 5"));
    assert!(rt; prints_fault(rt.alloc(), "he_IL", "BadByte 1"));
}

/// Whether this is printed of a subtag, as it is and to the right of six places.
fn prints_subtag(alloc: Global, bytes: &[u8], text: &str) -> bool {
    let Ok(subtag) = Subtag::read(bytes) else {
        return false;
    };
    matches!(format!(in alloc; "{subtag}, {subtag:>6}"), Ok(printed) if printed.as_str() == text)
}

#[test]
fn subtags_and_their_faults(rt: HostRuntime) {
    assert!(rt; prints_subtag(rt.alloc(), b"HANS", "hans,   hans"));
    assert!(rt; prints_subtag(rt.alloc(), b"ZH", "zh,     zh"));
    assert!(rt; prints(rt.alloc(), &SubtagFault::BadByte, "BadByte"));
}
