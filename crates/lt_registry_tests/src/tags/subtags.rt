//! Subtags: reading, shapes, equality and order.
use lt_subtag::{Case, Subtag, SubtagFault, laws};
use std::cmp::Ordering;
use std::hash::{DefaultHasher, Hash, Hasher};
use std::test::Fail;

/// Texts that are no subtags, with their faults and the names of these.
const FAULTS: [(&[u8], SubtagFault, &str); 3] = [
    (b"", SubtagFault::Empty, "Empty"),
    (b"en_US_abcdef", SubtagFault::BadByte, "BadByte"),
    (b"abcdefghi", SubtagFault::TooLong, "TooLong"),
];

#[test]
fn texts_of_no_subtag(rt: HostRuntime) {
    for (text, fault, name) in &FAULTS {
        let is_told = matches!(Subtag::read(text), Err(found) if found == *fault);
        assert!(rt; is_told && fault.name() == *name, "{name}");
    }
}

/// Subtags, and whether each is a language, extlang, script, region, variant, key, separator and singleton.
const SHAPES: &[(&str, [bool; 8])] = &[
    (
        "hANS",
        [true, false, true, false, false, false, false, false],
    ),
    (
        "yue",
        [true, true, false, false, false, false, false, false],
    ),
    (
        "419",
        [false, false, false, true, false, false, false, false],
    ),
    (
        "1994",
        [false, false, false, false, true, false, false, false],
    ),
    ("M0", [false, false, false, false, false, true, true, false]),
    (
        "11",
        [false, false, false, false, false, true, false, false],
    ),
    ("X", [false; 8]),
    ("u", [false, false, false, false, false, false, false, true]),
];

/// The shapes that a subtag has, in that order.
fn shapes(subtag: &Subtag) -> [bool; 8] {
    [
        subtag.is_language(),
        subtag.is_extlang(),
        subtag.is_script(),
        subtag.is_region(),
        subtag.is_variant(),
        subtag.is_key(),
        subtag.is_separator(),
        subtag.is_singleton(),
    ]
}

#[test]
fn shapes_of_subtags(rt: HostRuntime) {
    for (text, wanted) in SHAPES {
        let subtag = Subtag::read(text.as_bytes());
        assert!(rt;
            matches!(&subtag, Ok(subtag) if shapes(subtag) == *wanted),
            "{text}"
        );
    }
}

/// The hash of a subtag.
fn hash_of(subtag: &Subtag) -> u64 {
    let mut state = DefaultHasher::new();
    subtag.hash(&mut state);
    state.finish()
}

/// Whether a subtag is `hans`, by each of its letter cases and by its number.
fn is_hans(subtag: &Subtag) -> bool {
    subtag.bytes() == b"hans".as_slice()
        && subtag.padded().as_slice() == b"hans\0\0\0\0".as_slice()
        && subtag.number() == 0x6861_6e73_0000_0000
        && subtag.cased(Case::Title).as_slice() == b"Hans".as_slice()
        && subtag.cased(Case::Upper).as_slice() == b"HANS".as_slice()
}

#[test]
fn equality_and_order(rt: HostRuntime) -> Result<(), Fail> {
    let hans = Subtag::read(b"hANS")?;
    let again = Subtag::read(b"HANS")?;
    let is_same = hans == again && hash_of(&hans) == hash_of(&again) && hans == hans.copy();
    assert!(rt; is_hans(&hans) && is_same);
    let (u, x) = (Subtag::read(b"u")?, Subtag::read(b"X")?);
    assert!(rt; laws::order(&u, &x) == Ordering::Less && !laws::equality(&u, &x));
    Ok(())
}
