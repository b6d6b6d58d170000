//! Tags are made of their parts, and give them again.
use lt_subtag::Subtag;
use lt_tag::{Core, OutOfMemory, Tag, TagFault, copy_subtags, read_tag, write_tag};
use std::alloc::Global;

/// Whether a core and one subtag of private use give the tag of this text.
fn gives_with_private(
    alloc: Global,
    core: &Core,
    private: &[Subtag],
    text: &str,
) -> Result<bool, OutOfMemory> {
    let copy = core.copy(alloc)?;
    let private = copy_subtags(alloc, private)?;
    if private.len() != 1 {
        return Ok(false);
    }
    let tag = Tag::from_parts(copy, Vec::new(alloc), private);
    Ok(write_tag(alloc, &tag)?.as_slice() == text.as_bytes())
}

/// Whether a core that spells no grandfathered tag gives the tag of this text.
fn gives(alloc: Global, core: &Core, text: &str) -> Result<bool, OutOfMemory> {
    let copy = core.copy(alloc)?;
    if copy.literal().is_some() {
        return Ok(false);
    }
    let tag = Tag::from_parts(copy, Vec::new(alloc), Vec::new(alloc));
    Ok(write_tag(alloc, &tag)?.as_slice() == text.as_bytes())
}

/// Whether the core and the private use of a tag give it again.
fn is_given(alloc: Global, tag: &Tag, text: &str) -> Result<bool, OutOfMemory> {
    let Some(core) = tag.core() else {
        return Ok(false);
    };
    if tag.private().is_empty() {
        return gives(alloc, core, text);
    }
    gives_with_private(alloc, core, tag.private(), text)
}

/// Whether the core and the private use of a text's tag give it again.
fn is_given_again(alloc: Global, text: &str) -> Result<bool, TagFault> {
    Ok(is_given(alloc, &read_tag(alloc, text.as_bytes())?, text)?)
}

#[test]
fn parts_give_a_tag(rt: HostRuntime) -> Result<(), TagFault> {
    for text in &["zh-min-x-a", "zh-cmn"] {
        assert!(rt; is_given_again(rt.alloc(), text)?, "{text}");
    }
    Ok(())
}

/// Whether the tag of a text is a core alone.
fn is_core_alone(alloc: Global, text: &str) -> Result<bool, TagFault> {
    Ok(read_tag(alloc, text.as_bytes())?.core_alone().is_some())
}

#[test]
fn a_core_alone_has_neither_extensions_nor_private_use(rt: HostRuntime) -> Result<(), TagFault> {
    for text in &["zh", "zh-Hant-HK", "sl-rozaj-1994"] {
        assert!(rt; is_core_alone(rt.alloc(), text)?, "{text}");
    }
    for text in &["en-u-ca-buddhist", "en-x-a", "x-a", "i-klingon"] {
        assert!(rt; !is_core_alone(rt.alloc(), text)?, "{text}");
    }
    Ok(())
}

/// How many extensions and subtags of private use a tag is taken apart into, if it is a langtag.
fn part_counts(tag: Tag) -> Option<(usize, usize)> {
    let (_core, extensions, private) = tag.into_parts().ok()?;
    Some((extensions.len(), private.len()))
}

#[test]
fn a_langtag_is_taken_apart(rt: HostRuntime) -> Result<(), TagFault> {
    let tag = read_tag(rt.alloc(), b"en-a-bb-u-co-phonebk-x-c")?;
    assert_eq!(rt; part_counts(tag), Some((2, 1)));
    assert_eq!(rt; part_counts(read_tag(rt.alloc(), b"i-klingon")?), None);
    Ok(())
}
