//! What a registry says of tags.
use super::{registry_of, small_registry, tag_of};
use bcp47::{Registry, StepKind, Tag, Trace, TraceFault, ValidFaultKind, ValidRefusal, write_tag};
use std::alloc::Global;
use std::test::Fail;

/// The canonical text of the tag that a text is read as.
fn canonical_of(alloc: Global, registry: &Registry, text: &[u8]) -> Result<Vec<u8>, Fail> {
    Ok(registry.canonical_text(alloc, text)?)
}

/// Whether `canonical_text` gives this by the small registry.
fn gives_canonical_text(alloc: Global, registry: &Registry) -> Result<bool, Fail> {
    let text = canonical_of(alloc, registry, b"IW-il")?;
    Ok(text.as_slice() == b"he-IL".as_slice())
}

/// The canonical texts of two tags, with a space between.
fn pair_of(
    alloc: Global,
    registry: &Registry,
    first: &[u8],
    second: &[u8],
) -> Result<Vec<u8>, Fail> {
    let mut line = Vec::new(alloc);
    registry.append_canonical_text(alloc, first, &mut line)?;
    line.push(b' ')?;
    registry.append_canonical_text(alloc, second, &mut line)?;
    Ok(line)
}

/// Whether a text is refused where its canonical text would be appended.
fn refuses(alloc: Global, registry: &Registry, text: &[u8], line: &mut Vec<u8>) -> bool {
    registry.append_canonical_text(alloc, text, line).is_err()
}

/// Whether canonical texts are appended by the small registry, and a text that is refused leaves the line as it was.
fn appends_texts(alloc: Global, registry: &Registry) -> Result<bool, Fail> {
    let mut line = pair_of(alloc, registry, b"zh-cmn-hans", b"iw")?;
    let is_pair = line.as_slice() == b"cmn-Hans he".as_slice();
    let is_refused = refuses(alloc, registry, b"en_US", &mut line);
    Ok(is_pair && is_refused && line.as_slice() == b"cmn-Hans he".as_slice())
}

/// The text of the canonical form of a tag.
fn text_of_canonical(alloc: Global, registry: &Registry, tag: &Tag) -> Result<Vec<u8>, Fail> {
    let canonical = registry.canonical(alloc, tag)?;
    Ok(write_tag(alloc, &canonical)?)
}

/// The extlang form of the canonical form of a tag.
fn extlang_form_of(alloc: Global, registry: &Registry, tag: &Tag) -> Result<Tag, Fail> {
    let canonical = registry.canonical(alloc, tag)?;
    Ok(registry.extlang_form(alloc, &canonical)?)
}

/// Whether a tag has this canonical form and this extlang form by the small registry.
fn gives_forms(alloc: Global, registry: &Registry) -> Result<bool, Fail> {
    let tag = tag_of(alloc, "zh-cmn")?;
    let text = text_of_canonical(alloc, registry, &tag)?;
    let form = extlang_form_of(alloc, registry, &tag)?;
    Ok(text.as_slice() == b"cmn".as_slice() && form == tag)
}

/// Why the tag that a text is read as is not valid, if it is not: what is printed, the fault, and its place.
fn fault_of(
    alloc: Global,
    registry: &Registry,
    text: &[u8],
) -> Result<Option<(&'static str, ValidFaultKind, u32)>, Fail> {
    let tag = Tag::read(alloc, text)?;
    let Err(refusal) = registry.validate(alloc, &tag) else {
        return Ok(None);
    };
    let name = refusal.name();
    match refusal {
        ValidRefusal::Fault(fault) => Ok(Some((name, fault.kind, fault.place))),
        ValidRefusal::OutOfMemory => Err(Fail::from(name)),
    }
}

/// Whether one tag is valid by the small registry, and another is not.
fn tells_validity(alloc: Global, registry: &Registry) -> Result<bool, Fail> {
    let is_valid = fault_of(alloc, registry, b"he-IL")?.is_none();
    let Some((name, kind, place)) = fault_of(alloc, registry, b"he-Latn")? else {
        return Ok(false);
    };
    let is_script = name == "UnknownScript" && kind == ValidFaultKind::UnknownScript;
    Ok(is_valid && is_script && place == 2)
}

/// Whether a trace is the one step by record 4 from a language to its preferred value.
fn is_one_language_step(trace: &Trace) -> bool {
    let Some(step) = trace.steps.first() else {
        return false;
    };
    let is_language = matches!(step.kind, StepKind::Language);
    is_language && step.place == 1 && step.number == 4 && trace.steps.len() == 1
}

/// What is wrong with an explanation of a tag, if anything is.
fn fault_of_trace(
    alloc: Global,
    registry: &Registry,
    tag: &Tag,
    trace: &Trace,
) -> Option<TraceFault> {
    registry.verify(alloc, tag, trace).err()
}

/// Whether an explanation by the small registry is right for its tag, and not for another one.
fn explains(alloc: Global, registry: &Registry) -> Result<bool, Fail> {
    let tag = tag_of(alloc, "iw-IL")?;
    let other = tag_of(alloc, "he")?;
    let trace = registry.explain(alloc, &tag)?;
    let is_right = fault_of_trace(alloc, registry, &tag, &trace).is_none();
    let wrong = fault_of_trace(alloc, registry, &other, &trace);
    Ok(is_one_language_step(&trace) && is_right && wrong == Some(TraceFault::NoSuchStep(1)))
}

/// Whether an explanation by the small registry has these lines.
fn writes_explanation(alloc: Global, registry: &Registry) -> Result<bool, Fail> {
    let lines = registry.explanation_text(alloc, b"IW-il")?;
    Ok(lines.as_slice() == b"Language 1 4 he-IL\n= he-IL\n".as_slice())
}

/// What the small registry says wrongly of tags, if anything.
fn said_wrongly(alloc: Global, registry: &Registry) -> Result<&'static str, Fail> {
    if !gives_canonical_text(alloc, registry)? || !appends_texts(alloc, registry)? {
        return Ok("canonical texts");
    }
    if !gives_forms(alloc, registry)? || !tells_validity(alloc, registry)? {
        return Ok("forms and validity");
    }
    if !explains(alloc, registry)? || !writes_explanation(alloc, registry)? {
        return Ok("explanations");
    }
    Ok("")
}

#[test]
fn what_a_registry_says(rt: HostRuntime) -> Result<(), Fail> {
    let registry = small_registry(rt.alloc())?;
    let wrong = said_wrongly(rt.alloc(), &registry)?;
    assert!(rt; wrong.is_empty(), "{wrong}");
    Ok(())
}

/// Two records of the registry above, without the value that one has there.
const OLDER: &[u8] = b"Type: language\nSubtag: iw\n%%\nType: language\nSubtag: he\n";

/// Whether a newer registry upgrades an older one.
fn upgrades_to(alloc: Global, older: &Registry, newer: &Registry) -> bool {
    older.upgrade_check(alloc, newer).is_ok()
}

#[test]
fn upgrades(rt: HostRuntime) -> Result<(), Fail> {
    let older = registry_of(rt.alloc(), OLDER)?;
    let newer = small_registry(rt.alloc())?;
    assert!(rt; upgrades_to(rt.alloc(), &older, &newer));
    assert!(rt; !upgrades_to(rt.alloc(), &newer, &older));
    Ok(())
}
