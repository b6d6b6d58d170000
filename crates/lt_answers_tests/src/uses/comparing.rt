//! Tags are compared: as they are, and by a registry.
use super::{small_registry, tag_of};
use bcp47::{Registry, Tag};
use std::alloc::Global;
use std::cmp::Ordering;
use std::hash::{DefaultHasher, Hash, Hasher};
use std::test::Fail;

/// Whether two tags are equal, and whether they are equivalent by a registry.
fn compared(
    alloc: Global,
    registry: &Registry,
    first: &str,
    second: &str,
) -> Result<(bool, bool), Fail> {
    let first = tag_of(alloc, first)?;
    let second = tag_of(alloc, second)?;
    Ok((
        first == second,
        registry.equivalent(alloc, &first, &second)?,
    ))
}

#[test]
fn one_language(rt: HostRuntime) -> Result<(), Fail> {
    let registry = small_registry(rt.alloc())?;
    let first = compared(rt.alloc(), &registry, "iw-IL", "HE-il")?;
    let second = compared(rt.alloc(), &registry, "iw-IL", "he")?;
    assert!(rt; first == (false, true) && second == (false, false));
    Ok(())
}

/// What a value feeds a hasher, in short.
fn hash_of<T: Hash>(value: &T) -> u64 {
    let mut state = DefaultHasher::new();
    value.hash(&mut state);
    state.finish()
}

/// Texts of tags in their order: of two that are one after the other, the first comes first.
const IN_ORDER: &[&str] = &[
    "i-ami",
    "i-bnn",
    "x-a",
    "x-b",
    "de",
    "de-x-a",
    "de-a-aa",
    "de-a-aa-b-bb",
    "de-a-bb",
    "de-AT",
    "de-AT-1996",
    "de-Latn",
    "zh",
    "zh-cmn",
];

/// Whether a text and the same in capitals are read as equal tags, with equal hashes.
fn is_one_in_capitals(alloc: Global, text: &str) -> Result<bool, Fail> {
    let tag = tag_of(alloc, text)?;
    let again = tag_of(alloc, text.to_ascii_uppercase(alloc)?.as_str())?;
    Ok(tag == again && hash_of(&tag) == hash_of(&again))
}

#[test]
fn tags_in_capitals(rt: HostRuntime) -> Result<(), Fail> {
    for text in IN_ORDER {
        assert!(rt; is_one_in_capitals(rt.alloc(), text)?, "{text}");
    }
    Ok(())
}

/// How the tags of two texts compare.
fn order_of(alloc: Global, first: &str, second: &str) -> Result<Ordering, Fail> {
    Ok(tag_of(alloc, first)?.cmp(&tag_of(alloc, second)?))
}

#[test]
fn order_of_tags(rt: HostRuntime) -> Result<(), Fail> {
    for (first, text) in IN_ORDER.iter().enumerate() {
        for (second, other) in IN_ORDER.iter().enumerate() {
            let compared = order_of(rt.alloc(), text, other)?;
            assert!(rt; compared == first.cmp(&second), "{text} {other}");
        }
    }
    Ok(())
}

/// Two texts of equal cores, and of equal extensions in another order.
const FIRST: &str = "de-Latn-AT-1996-a-bb-t-de";

const SECOND: &str = "DE-latn-at-1996-t-DE-a-BB";

#[test]
fn cores_of_tags(rt: HostRuntime) -> Result<(), Fail> {
    let first = tag_of(rt.alloc(), FIRST)?;
    let second = tag_of(rt.alloc(), SECOND)?;
    assert!(rt; first.core() == second.core() && first != second);
    assert!(rt; hash_of(&first.core()) == hash_of(&second.core()));
    Ok(())
}

/// Whether the two extensions of a tag are those of the other in another order, and the first is the less.
fn are_exchanged(first: &Tag, second: &Tag) -> bool {
    let ([a, t], [other_t, other_a]) = (first.extensions(), second.extensions()) else {
        return false;
    };
    let ordered = a < t && t.cmp(a) == Ordering::Greater;
    let hashed = hash_of(a) == hash_of(other_a) && hash_of(a) != hash_of(t);
    a == other_a && t == other_t && ordered && hashed
}

#[test]
fn extensions_of_tags(rt: HostRuntime) -> Result<(), Fail> {
    let first = tag_of(rt.alloc(), FIRST)?;
    let second = tag_of(rt.alloc(), SECOND)?;
    assert!(rt; are_exchanged(&first, &second));
    Ok(())
}
