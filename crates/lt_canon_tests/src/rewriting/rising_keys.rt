//! The order of the keys of a `u` extension.
use lt_rewrite::next_key;
use lt_subtag::Subtag;

/// Last keys, a subtag that follows each, and the last key then: a key may not fall or come again, and `true` is no type
/// that stays (RFC 6067, 2.1.1).
const KEYS: &[(&str, &str, Option<&str>)] = &[
    ("co", "nu", Some("nu")),
    ("co", "phonebk", Some("co")),
    ("co", "ca", None),
    ("co", "co", None),
    ("kn", "true", None),
];

/// Whether a subtag after a last key makes this the last key, or none.
fn leads_to(last: &str, subtag: &str, then: Option<&str>) -> bool {
    let (Ok(last), Ok(subtag)) = (
        Subtag::read(last.as_bytes()),
        Subtag::read(subtag.as_bytes()),
    ) else {
        return false;
    };
    match (next_key(Some(last), subtag), then) {
        (Some(key), Some(then)) => key.bytes() == then.as_bytes(),
        (None, None) => true,
        _ => false,
    }
}

#[test]
fn keys_in_order(rt: HostRuntime) {
    for (last, subtag, then) in KEYS {
        assert!(rt; leads_to(last, subtag, *then), "{last} {subtag}");
    }
}
