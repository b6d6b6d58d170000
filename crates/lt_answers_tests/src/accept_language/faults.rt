//! Texts that are no headers.
use super::accept_of;
use lt_range::{AcceptFault, AcceptFaultKind};
use lt_testing::is_shown;
use std::alloc::Global;
use std::test::Fail;

/// Texts, the names of their faults, and the numbers of the elements at fault.
const ROWS: &[(&str, &str, usize)] = &[
    ("en_US", "BadByte", 1),
    ("da, en-", "EmptySubtag", 2),
    ("da,,abcdefghi", "LongSubtag", 3),
    ("12", "BadFirst", 1),
    (";q=1", "EmptySubtag", 1),
    ("de, **", "BadByte", 2),
    ("de-*-DE", "ExtendedRange", 1),
    ("de,*-CH;q=2,?", "ExtendedRange", 2),
    ("en;q=1.001", "BadWeight", 1),
    ("en;q=2", "BadWeight", 1),
    ("en;q=01", "BadWeight", 1),
    ("en;q=0.1234", "BadWeight", 1),
    ("en;q=1.0000", "BadWeight", 1),
    ("en;q=.5", "BadWeight", 1),
    ("en;q=0.a", "BadWeight", 1),
    ("en;q=", "BadWeight", 1),
    ("en;q = 1", "BadWeight", 1),
    ("en;", "BadWeight", 1),
    ("en;level=1", "BadWeight", 1),
    ("en;q=1;q=1", "BadWeight", 1),
    ("en;q=0,5", "BadFirst", 2),
    ("en fr", "BadWeight", 1),
    ("en\r\n", "BadByte", 1),
];

/// What is wrong with a text, if anything is.
fn fault_of(alloc: Global, text: &str) -> Option<AcceptFault> {
    accept_of(alloc, text).err()
}

#[test]
fn leftmost_element_at_fault(rt: HostRuntime) -> Result<(), Fail> {
    for (text, name, place) in ROWS {
        let Some(fault) = fault_of(rt.alloc(), text) else {
            return Err(Fail::from("a header"));
        };
        assert!(rt;
            fault.kind.name() == *name && fault.place == *place,
            "{text}"
        );
    }
    assert!(rt; AcceptFaultKind::OutOfMemory.name() == "OutOfMemory");
    Ok(())
}

#[test]
fn faults_say_what_to_do(rt: HostRuntime) -> Result<(), Fail> {
    let fault = AcceptFault {
        kind: AcceptFaultKind::ExtendedRange,
        place: 2,
    };
    let words = format!(in rt.alloc(); "{fault}")?;
    assert_eq!(rt;
        words.as_str(),
        "list element 2: ExtendedRange: write a range without `*`, or `*` alone"
    );
    assert!(rt; is_shown(rt.alloc(), &fault.kind, "ExtendedRange"));
    Ok(())
}
