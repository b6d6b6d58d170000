//! The parts of tags, and the records that a registry has for them.
use super::{registry_of, small_registry, tag_of};
use bcp47::{EntryValue, Kind, Registry, Subtag, Tag, parts, write_tag};
use std::alloc::Global;
use std::test::Fail;

/// The parts of a tag, each with the name of its kind.
fn parts_shown(alloc: Global, tag: &Tag) -> Result<String, Fail> {
    let text = write_tag(alloc, tag)?;
    let mut shown = String::new(alloc);
    for part in &parts(alloc, tag)? {
        let subtag = text
            .get(part.start..)
            .and_then(|rest| rest.get(..part.length));
        let subtag = std::str::from_utf8(subtag.unwrap_or_default())?;
        shown.push_str(format!(in alloc; "{} {subtag}, ", part.kind.name())?.as_str())?;
    }
    Ok(shown)
}

#[test]
fn parts_in_order(rt: HostRuntime) -> Result<(), Fail> {
    let tag = tag_of(rt.alloc(), "ZH-hant-U-co-TRAD-x-ab")?;
    let shown = parts_shown(rt.alloc(), &tag)?;
    assert_eq!(rt;
        shown.as_str(),
        "Language zh, Script Hant, Singleton u, Key co, Type trad, PrivateUseSingleton x, PrivateUse ab, "
    );
    Ok(())
}

/// The number of the record of a language, and whether its preferred value is another one.
fn record_of(
    registry: &Registry,
    language: &[u8],
    other: &[u8],
) -> Result<Option<(u32, bool)>, Fail> {
    let Some(entry) = registry.entry(Kind::Language, &Subtag::read(language)?) else {
        return Ok(None);
    };
    let leads = match entry.value() {
        Some(EntryValue::One(value)) => value.bytes() == other,
        _ => false,
    };
    Ok(Some((entry.number(), leads)))
}

/// Languages with another, and what the small registry has for each.
const RECORDS: &[(&[u8], &[u8], Option<(u32, bool)>)] = &[
    (b"iw", b"he", Some((4, true))),
    (b"HE", b"iw", Some((3, false))),
    (b"tlh", b"he", None),
];

#[test]
fn records_of_subtags(rt: HostRuntime) -> Result<(), Fail> {
    let registry = small_registry(rt.alloc())?;
    for (language, other, told) in RECORDS {
        assert!(rt; record_of(&registry, language, other)? == *told);
    }
    Ok(())
}

/// A registry of a grandfathered tag and its preferred value.
const WHOLE: &[u8] = b"Type: language
Subtag: tlh
%%
Type: grandfathered
Tag: i-klingon
Preferred-Value: tlh
";

/// The number of the record of a whole tag.
fn whole_of(alloc: Global, registry: &Registry, text: &str) -> Result<Option<u32>, Fail> {
    let tag = tag_of(alloc, text)?;
    match registry.whole(&tag) {
        Some(entry) => Ok(Some(entry.number())),
        None => Ok(None),
    }
}

#[test]
fn records_of_whole_tags(rt: HostRuntime) -> Result<(), Fail> {
    let registry = registry_of(rt.alloc(), WHOLE)?;
    let found = (
        whole_of(rt.alloc(), &registry, "I-KLINGON")?,
        whole_of(rt.alloc(), &registry, "tlh")?,
    );
    assert!(rt; found == (Some(2), None));
    Ok(())
}
