//! Uses of the crate `bcp47`, each a test. `docs/LIBRARY.md` shows them.
mod comparing;
mod keys;
mod matching;
mod parts;
mod reading;
mod records;
mod tags;

use bcp47::{Registry, Tag};
use std::alloc::Global;
use std::test::Fail;

/// A small registry in the format of IANA's (RFC 5646, 3.1).
const REGISTRY: &[u8] = b"File-Date: 2025-05-15
%%
Type: language
Subtag: cmn
%%
Type: language
Subtag: he
%%
Type: language
Subtag: iw
Preferred-Value: he
%%
Type: language
Subtag: zh
%%
Type: extlang
Subtag: cmn
Preferred-Value: cmn
Prefix: zh
%%
Type: script
Subtag: Hans
%%
Type: region
Subtag: IL
";

/// The registry whose text the bytes are.
fn registry_of(alloc: Global, bytes: &[u8]) -> Result<Registry, Fail> {
    Ok(Registry::from_bytes(alloc, bytes)?)
}

/// The registry of the records above.
fn small_registry(alloc: Global) -> Result<Registry, Fail> {
    registry_of(alloc, REGISTRY)
}

/// The tag that a text is read as.
fn tag_of(alloc: Global, text: &str) -> Result<Tag, Fail> {
    Ok(Tag::read(alloc, text.as_bytes())?)
}
