//! Tags are keys of maps.
use super::{small_registry, tag_of};
use bcp47::{Registry, Tag};
use std::alloc::Global;
use std::collections::{BTreeMap, HashMap};
use std::test::Fail;

/// The languages of some books.
const BOOKS: &[&str] = &["iw", "zh-cmn", "he", "cmn", "HE"];

/// How many books there are in each language.
fn counted(alloc: Global, registry: &Registry) -> Result<HashMap<Tag, u32>, Fail> {
    let mut counts: HashMap<Tag, u32> = HashMap::new(alloc);
    for text in BOOKS {
        let tag = tag_of(alloc, text)?;
        let canonical = registry.canonical(alloc, &tag)?;
        let count = counts.entry(canonical)?.or_insert(0);
        *count = count.saturating_add(1);
    }
    Ok(counts)
}

/// How many books there are in the language that a text names.
fn count_of(alloc: Global, counts: &HashMap<Tag, u32>, text: &str) -> Result<Option<u32>, Fail> {
    let tag = tag_of(alloc, text)?;
    Ok(counts.get(&tag).copied())
}

/// Whether the books are in two languages.
fn are_two_languages(alloc: Global, counts: &HashMap<Tag, u32>) -> Result<bool, Fail> {
    let hebrew = count_of(alloc, counts, "he")?;
    let mandarin = count_of(alloc, counts, "cmn")?;
    Ok(counts.len() == 2 && hebrew == Some(3) && mandarin == Some(2))
}

#[test]
fn books_by_language(rt: HostRuntime) -> Result<(), Fail> {
    let registry = small_registry(rt.alloc())?;
    let counts = counted(rt.alloc(), &registry)?;
    assert!(rt; are_two_languages(rt.alloc(), &counts)?);
    Ok(())
}

/// Titles in the order of their languages.
fn titles_in_order(alloc: Global) -> Result<BTreeMap<Tag, &'static str>, Fail> {
    let mut titles: BTreeMap<Tag, &'static str> = BTreeMap::new(alloc);
    titles.insert(tag_of(alloc, "he")?, "second")?;
    titles.insert(tag_of(alloc, "zh")?, "third")?;
    titles.insert(tag_of(alloc, "cmn")?, "first")?;
    Ok(titles)
}

#[test]
fn books_in_order(rt: HostRuntime) -> Result<(), Fail> {
    let mut line = String::new(rt.alloc());
    for title in titles_in_order(rt.alloc())?.values() {
        line.push_str(title)?;
        line.push(' ')?;
    }
    assert_eq!(rt; line.as_str(), "first second third ");
    Ok(())
}
