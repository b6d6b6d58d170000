//! What the faults of texts that are no ranges say. Rows over the program have more of such texts.
use super::range_of;
use lt_range::RangeFault;
use std::alloc::Global;
use std::test::Fail;

/// Texts that are no ranges, and what their faults say.
const SAID: &[(&str, &str)] = &[
    (
        "en_US",
        "BadByte: write each subtag as `*` or as 1 to 8 letters or digits",
    ),
    (
        "de--CH",
        "EmptySubtag: write each subtag as `*` or as 1 to 8 letters or digits",
    ),
    (
        "12",
        "BadFirst: begin with a subtag of letters, or with `*`",
    ),
];

/// What a fault says.
fn said(alloc: Global, fault: RangeFault) -> Result<String, Fail> {
    Ok(format!(in alloc; "{fault}")?)
}

#[test]
fn faults_say_what_to_write(rt: HostRuntime) -> Result<(), Fail> {
    for (text, expected) in SAID {
        match range_of(rt.alloc(), text) {
            Ok(_) => return Err(Fail::from("it is a range")),
            Err(fault) => assert_eq!(rt; said(rt.alloc(), fault)?.as_str(), *expected),
        }
    }
    assert!(rt; RangeFault::OutOfMemory.name() == "OutOfMemory");
    let memory = said(rt.alloc(), RangeFault::OutOfMemory)?;
    assert_eq!(rt; memory.as_str(), "out of memory: free some, and ask again");
    Ok(())
}
