//! What a call does where a growth of memory is refused.
use super::reading::{FAULTS, TEXTS};
use lt_subtag::Subtag;
use lt_tag::{
    Class, Core, Extension, OutOfMemory, Tag, TagFault, TagFaultKind, TransformFault, append_tag,
    join_t, join_u, read_tag, split_t, split_u, write_tag,
};
use lt_testing::{again, mark, retried};
use std::alloc::{AllocError, Global};
use std::test::Fail;

/// The tag of a text, or its fault.
fn tag_of(alloc: Global, text: &str) -> Result<Tag, TagFault> {
    retried!(
        read_tag(alloc, text.as_bytes()),
        TagFault {
            kind: TagFaultKind::OutOfMemory,
            place: 0,
        }
    )
}

/// Whether a tag is written so.
fn is_written(alloc: Global, tag: &Tag, text: &str) -> bool {
    matches!(again!(write_tag(alloc, tag)), Ok(written) if written.as_slice() == text.as_bytes())
}

/// Whether a tag's text is put after another; and where a growth was refused, whether that is left as it
/// was, and the tag's text is then put after it.
fn is_put_after(found: &mut Vec<u8>, tag: &Tag, text: &str) -> bool {
    if append_tag(found, tag).is_err()
        && (found.as_slice() != b"en ".as_slice() || append_tag(found, tag).is_err())
    {
        return false;
    }
    found.strip_prefix(b"en ") == Some(text.as_bytes())
}

/// Whether a tag's text is put after another.
fn is_appended(alloc: Global, tag: &Tag, text: &str) -> Result<bool, AllocError> {
    let mut found = again!(Vec::from_slice(alloc, b"en "))?;
    Ok(is_put_after(&mut found, tag, text))
}

/// Whether a text is read as a tag that is written so, also after another text.
fn is_read(alloc: Global, text: &str, written: &str) -> Result<bool, Fail> {
    let tag = tag_of(alloc, text)?;
    Ok(is_written(alloc, &tag, written) && is_appended(alloc, &tag, written)?)
}

/// Whether a text has a fault of this name at this place.
fn is_at_fault(alloc: Global, text: &str, name: &str, place: u32) -> bool {
    match tag_of(alloc, text) {
        Ok(_) => false,
        Err(fault) => fault.kind.name() == name && fault.place == place,
    }
}

#[test]
fn tags_are_read_and_written(rt: HostRuntime) -> Result<(), Fail> {
    for (text, written) in TEXTS {
        assert!(rt; is_read(rt.alloc(), text, written)?, "{text}");
    }
    for (text, name, place) in FAULTS {
        assert!(rt; is_at_fault(rt.alloc(), text, name, *place), "{text}");
    }
    Ok(())
}

/// Whether a core is copied.
fn core_is_copied(alloc: Global, core: &Core) -> bool {
    matches!(again!(core.copy(alloc)), Ok(copy) if copy == *core)
}

/// Whether an extension is copied.
fn extension_is_copied(alloc: Global, extension: &Extension) -> bool {
    matches!(again!(extension.copy(alloc)), Ok(copy) if copy == *extension)
}

/// Whether a tag is copied.
fn tag_is_copied(alloc: Global, tag: &Tag) -> bool {
    matches!(again!(tag.copy(alloc)), Ok(copy) if copy == *tag)
}

/// Whether a text's tag, its core and its extensions are copied.
fn text_is_copied(alloc: Global, text: &str) -> Result<bool, TagFault> {
    let tag = tag_of(alloc, text)?;
    if let Some(core) = tag.core()
        && !core_is_copied(alloc, core)
    {
        return Ok(false);
    }
    for extension in tag.extensions() {
        if !extension_is_copied(alloc, extension) {
            return Ok(false);
        }
    }
    Ok(tag_is_copied(alloc, &tag))
}

#[test]
fn tags_are_copied(rt: HostRuntime) -> Result<(), TagFault> {
    for text in &["de-1901-x-a", "x-a", "i-lux"] {
        assert!(rt; text_is_copied(rt.alloc(), text)?, "{text}");
    }
    for (text, _) in TEXTS {
        assert!(rt; text_is_copied(rt.alloc(), text)?, "{text}");
    }
    Ok(())
}

/// Texts with a `u` extension, and how many attributes and keywords it has.
const UNICODE: &[(&str, usize, usize)] = &[
    ("en-u-foo-bar-nu-latn-ca-buddhist", 2, 2),
    ("en-u-bar-foo-ca-buddhist-nu-latn", 2, 2),
    ("en-u-11", 0, 1),
    ("en-u-foo-nu-latn", 1, 1),
    ("th-u-attr-nu-thai-ca-buddhist", 1, 2),
];

/// Whether a `u` extension is split into so many attributes and keywords, and a copy of these is joined to it.
fn unicode_is_joined(
    alloc: Global,
    extension: &Extension,
    counts: (usize, usize),
) -> Result<bool, OutOfMemory> {
    if extension.singleton() != b'u' {
        return Ok(false);
    }
    let parts = again!(split_u(alloc, extension))?;
    let copy = again!(parts.copy(alloc))?;
    let are_so_many = (parts.attributes.len(), parts.keywords.len()) == counts;
    Ok(are_so_many && matches!(again!(join_u(alloc, &copy)), Ok(joined) if joined == *extension))
}

/// Whether the first extension of a text's tag is so.
fn unicode_text(alloc: Global, text: &str, counts: (usize, usize)) -> Result<bool, TagFault> {
    let tag = tag_of(alloc, text)?;
    match tag.extensions() {
        [first, ..] => Ok(unicode_is_joined(alloc, first, counts)?),
        _ => Ok(false),
    }
}

#[test]
fn unicode_extensions(rt: HostRuntime) -> Result<(), TagFault> {
    for (text, attributes, keywords) in UNICODE {
        assert!(rt;
            unicode_text(rt.alloc(), text, (*attributes, *keywords))?,
            "{text}"
        );
    }
    Ok(())
}

/// Texts whose first extension is a `t`, and whether its parts have a source and how many fields they have, if it has parts.
const TRANSFORMS: &[(&str, Option<(bool, usize)>)] = &[
    ("en-t-zh-yue-m0-names-a0-xyz", Some((true, 2))),
    ("en-t-yue-a0-xyz-m0-names", Some((true, 2))),
    ("en-t-de-latn-de-1901", Some((true, 0))),
    ("en-t-de-latn-at-1901-rozaj", Some((true, 0))),
    ("en-t-m0-aaa-M0-bbb", Some((false, 2))),
    ("en-t-de-m0-names", Some((true, 1))),
    ("ja-t-it-latn-m0-names-k0-qwerty", Some((true, 2))),
    ("en-t-m0", None),
    ("en-t-zh-yue-m0", None),
    ("en-t-m0-a0-aaa", None),
    ("en-t-de-m0-xx", None),
    ("en-t-m0-t-de", None),
    ("en-t-1994-m0-aaa", None),
    ("en-t-de-at-latn", None),
    ("en-t-m0-aaa-de", None),
];

/// Whether a `t` extension has such parts, and a copy of these is joined to it. `BadTransform` where it has no parts.
fn transform_is_joined(
    alloc: Global,
    extension: &Extension,
    told: Option<(bool, usize)>,
) -> Result<bool, TransformFault> {
    if extension.singleton() != b't' {
        return Ok(false);
    }
    let parts = retried!(split_t(alloc, extension), TransformFault::OutOfMemory)?;
    let copy = again!(parts.copy(alloc))?;
    let is_told = told == Some((parts.source.is_some(), parts.fields.len()));
    Ok(is_told && matches!(again!(join_t(alloc, &copy)), Ok(joined) if joined == *extension))
}

/// Whether the first extension of a text's tag has such parts that are joined to it, or has none.
fn transform_text(
    alloc: Global,
    text: &str,
    told: Option<(bool, usize)>,
) -> Result<bool, TagFault> {
    let tag = tag_of(alloc, text)?;
    Ok(match tag.extensions() {
        [first, ..] => match transform_is_joined(alloc, first, told) {
            Ok(is_joined) => is_joined,
            Err(TransformFault::BadTransform) => told.is_none(),
            Err(TransformFault::OutOfMemory) => false,
        },
        _ => false,
    })
}

#[test]
fn transforms(rt: HostRuntime) -> Result<(), TagFault> {
    for (text, told) in TRANSFORMS {
        assert!(rt; transform_text(rt.alloc(), text, *told)?, "{text}");
    }
    Ok(())
}

/// Puts another language and extlang in the place of a core's.
fn set_languages(core: &mut Core) {
    core.drop_extlangs();
    if let (Ok(language), Ok(extlang)) = (Subtag::read(b"ms"), Subtag::read(b"min"))
        && language.is_language()
        && language.bytes().len() <= 3
        && extlang.is_extlang()
    {
        core.set_language(language);
        core.set_extlang(extlang);
    }
}

/// Puts another script, another region and another variant in the place of a core's, and drops the first of three
/// variants.
fn set_others(core: &mut Core) {
    if let (Ok(script), Ok(region)) = (Subtag::read(b"latn"), Subtag::read(b"419"))
        && script.is_script()
        && region.is_region()
        && core.script().is_some()
        && core.region().is_some()
    {
        core.set_script(script);
        core.set_region(region);
    }
    if let Ok(variant) = Subtag::read(b"1996")
        && variant.is_variant()
        && core.variants().len() == 3
    {
        core.set_variant(1, variant);
        core.remove_variant(0);
    }
}

/// Whether the texts of subtags are these.
fn are_texts(subtags: &[Subtag], texts: &[&[u8]]) -> bool {
    for (index, subtag) in subtags.iter().enumerate() {
        match texts.get(index) {
            Some(text) if subtag.bytes() == *text => {}
            _ => return false,
        }
    }
    subtags.len() == texts.len()
}

/// Whether a core has the parts of `ms-min-Latn-419-1996-1ab2`.
fn is_malay(core: &Core) -> bool {
    let (Some(script), Some(region)) = (core.script(), core.region()) else {
        return false;
    };
    core.language().bytes() == b"ms".as_slice()
        && are_texts(core.extlangs(), &[b"min"])
        && script.bytes() == b"latn".as_slice()
        && region.bytes() == b"419".as_slice()
        && are_texts(core.variants(), &[b"1996", b"1ab2"])
}

/// Whether a tag has extensions and private use as `zh-a-bb-x-c`, and is no grandfathered one.
fn has_rest(tag: &Tag) -> bool {
    let [extension] = tag.extensions() else {
        return false;
    };
    tag.class() == Class::LangTag
        && tag.grandfathered().is_none()
        && extension.singleton() == b'a'
        && are_texts(extension.subtags(), &[b"bb"])
        && are_texts(tag.private(), &[b"c"])
}

/// Whether a text is read as a tag, and this is copied.
fn is_read_and_copied(alloc: Global, text: &str) -> bool {
    matches!(read_tag(alloc, text.as_bytes()), Ok(tag) if tag.copy(alloc).is_ok())
}

#[test]
fn tags_without_growth(rt: HostRuntime) -> Result<(), Fail> {
    let tag = tag_of(rt.alloc(), "zh-yue-Hant-HK-1996")?;
    let mut texts = Vec::with_capacity(rt.alloc(), 64)?;
    mark(rt.alloc());
    assert!(rt; append_tag(&mut texts, &tag).is_ok());
    assert!(rt; is_read_and_copied(rt.alloc(), "zh-yue-Hant-HK"));
    assert!(rt; is_read_and_copied(rt.alloc(), "i-klingon"));
    assert!(rt; is_at_fault(rt.alloc(), "en_US", "BadByte", 1));
    Ok(())
}

/// The core is changed in each of its parts.
#[test]
fn parts_without_growth(rt: HostRuntime) -> Result<(), Fail> {
    let alloc = rt.alloc();
    let tag = tag_of(alloc, "zh-yue-hant-hk-1901-abcde-1ab2-a-bb-x-c")?;
    let Some(core) = tag.core() else {
        return Err(Fail::from("no core"));
    };
    let mut core = core.copy(alloc)?;
    mark(alloc);
    set_languages(&mut core);
    set_others(&mut core);
    assert!(rt; has_rest(&tag) && is_malay(&core) && core.literal().is_none());
    let tag = Tag::from_parts(core, Vec::new(alloc), Vec::new(alloc));
    assert!(rt; matches!(tag.core(), Some(core) if is_malay(core)));
    Ok(())
}
