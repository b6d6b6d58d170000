//! Where a byte is first in a text.
use lt_jar::first_place;

/// Texts with the place of their first hyphen.
const PLACES: &[(&str, Option<usize>)] = &[
    ("", None),
    ("-", Some(0)),
    ("a-b-c", Some(1)),
    ("de", None),
    ("de-1901-x-abcdefgh-abcdefgh-abcde", Some(2)),
    ("abcdefghijklmnopqrstuvwxyzabcde-f", Some(31)),
    ("abcdefghijklmnopqrstuvwxyzabcdef-", Some(32)),
    ("abcdefghijklmnopqrstuvwxyzabcdefgh", None),
];

#[test]
fn places_of_the_first_hyphen(rt: HostRuntime) {
    for (text, place) in PLACES {
        assert!(rt; first_place(b'-', text.as_bytes()) == *place, "{text}");
    }
}
