//! A registry is read.
use super::REGISTRY;
use bcp47::{Device, Registry, RegistryError};
use std::alloc::Global;
use std::test::Fail;

/// How many entries the registry has whose text the bytes are.
fn entries_of(alloc: Global, bytes: &[u8]) -> Result<usize, Fail> {
    let registry = Registry::from_bytes(alloc, bytes)?;
    Ok(registry.entries().len())
}

/// The same where the bytes are read, and how many reads failed.
fn entries_read(alloc: Global, bytes: &[u8]) -> Result<(usize, u64), Fail> {
    let mut device = Device::new(bytes);
    let registry = Registry::read(alloc, &mut device)?;
    Ok((registry.entries().len(), device.failures()))
}

#[test]
fn from_bytes_and_from_a_device(rt: HostRuntime) -> Result<(), Fail> {
    assert_eq!(rt; entries_of(rt.alloc(), REGISTRY)?, 7);
    assert!(rt; entries_read(rt.alloc(), REGISTRY)? == (7, 0));
    Ok(())
}

/// Texts that hold no registry, what is printed of each, and the name of what is wrong.
const REFUSED: &[(&str, &str, &str)] = &[
    ("Type: language\nSubtag\n", "jar BadLine line 2", "BadLine"),
    (
        "File-Date: 2025-05-15\n%%\nType: dialect\nSubtag: en\n",
        "record 2 UnknownType",
        "UnknownType",
    ),
    (
        "Type: language\nSubtag: iw\nPreferred-Value: he\n",
        "check C2 record 1",
        "C2",
    ),
    (
        "Type: region\nSubtag: DD\n%%\nType: region\nSubtag: DD\n",
        "check C1 record 2",
        "C1",
    ),
];

/// What is wrong with the registry whose text the bytes are, if anything is.
fn error_of(alloc: Global, bytes: &[u8]) -> Option<RegistryError> {
    Registry::from_bytes(alloc, bytes).err()
}

/// The same where the bytes are read.
fn error_read(alloc: Global, bytes: &[u8]) -> Option<RegistryError> {
    Registry::read(alloc, &mut Device::new(bytes)).err()
}

/// Whether a text is refused so, from bytes and from a device.
fn is_refused(alloc: Global, text: &str, line: &str, name: &str) -> Result<bool, Fail> {
    let Some(error) = error_of(alloc, text.as_bytes()) else {
        return Ok(false);
    };
    let Some(other) = error_read(alloc, text.as_bytes()) else {
        return Ok(false);
    };
    let printed = format!(in alloc; "{error}")?;
    Ok(printed.as_str() == line && error.name() == name && error == other)
}

#[test]
fn what_is_refused(rt: HostRuntime) -> Result<(), Fail> {
    for (text, line, name) in REFUSED {
        assert!(rt; is_refused(rt.alloc(), text, line, name)?, "{line}");
    }
    Ok(())
}
