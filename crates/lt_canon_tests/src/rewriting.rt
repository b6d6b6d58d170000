//! Cores and extensions with their normal forms, and steps.
mod applying;
mod core_explaining;
mod extensions_explaining;
mod growths;
mod rising_keys;
mod shortcuts;

ghost use Rattle.std.specs.Prelude.{◌≡◌, List, All, IfOk, OnOk, map};
ghost use Rattle.std.specs.List.{AllByRecursion};
ghost use Rattle.lt_tag.specs.Parts.{ExtensionParts, TForm};
ghost use Rattle.lt_tag.specs.Extensions.{transform, IsTransform};
ghost use Rattle.lt_registry.specs.Faults.{HasNoFault};
ghost use Rattle.lt_registry.specs.Validity.{Distinct};
ghost use Rattle.lt_rewrite.specs.Conditions.{HasEndingChain};

use lt_registry::{Kind, ListTable, ValidRefusal, validate};
use lt_rewrite::{
    Cycle, StepKind, chain_end, core_length, first_cycle, settle_core, settle_extensions, settle_t,
    settle_u,
};
use lt_subtag::Subtag;
use lt_tag::{
    Core, Extension, OutOfMemory, Tag, TagFault, copy_extensions, join_t, join_u, read_tag,
    split_t, split_u,
};
use lt_testing::{again, sample, sample_with};
use std::alloc::{AllocError, Global};
use std::test::Fail;

/// A copy of the core of a text's tag.
fn core_of(alloc: Global, text: &str) -> Result<Core, Fail> {
    let tag = again!(read_tag(alloc, text.as_bytes()))?;
    match tag.core() {
        Some(core) => Ok(again!(core.copy(alloc))?),
        None => Err(Fail::from("no langtag")),
    }
}

/// The core normal form of a text's core.
fn settled_core(alloc: Global, table: &ListTable, text: &str) -> Result<Core, Fail> {
    let mut core = core_of(alloc, text)?;
    if first_cycle(table).is_some() {
        return Err(Fail::from("a cycle"));
    }
    settle_core(table, &mut core);
    Ok(core)
}

/// Whether two cores have the same subtags.
fn same_core(core: &Core, other: &Core) -> bool {
    core.language() == other.language()
        && core.extlangs() == other.extlangs()
        && core.script() == other.script()
        && core.region() == other.region()
        && core.variants() == other.variants()
}

/// Whether the core normal form of a text's core is the core of another, also by shortcuts.
fn settles_to(alloc: Global, table: &ListTable, text: &str, other: &str) -> Result<bool, Fail> {
    let other = core_of(alloc, other)?;
    let settled = settled_core(alloc, table, text)?;
    let by_shortcuts = shortcuts::settled_core(alloc, table, text)?;
    Ok(same_core(&settled, &other) && same_core(&by_shortcuts, &other))
}

/// Texts of cores and of their core normal forms.
const CORES: &[(&str, &str)] = &[
    ("zh-yue-DD", "yue-DE"),
    ("iw-arevela", "he-arevela"),
    ("ja-heploc-alalc97", "ja-alalc97-alalc97"),
    ("hy-arevela-arevmda", "hyw"),
    ("hy-1901-1996-rozaj-arevela-arevmda", "hyw-1901-1996-rozaj"),
];

#[test]
fn cores(rt: HostRuntime) -> Result<(), Fail> {
    let table = sample(rt.alloc())?;
    for (text, other) in CORES {
        assert!(rt; settles_to(rt.alloc(), &table, text, other)?, "{text}");
    }
    Ok(())
}

/// The normal form of a `u` extension.
fn settled_u(alloc: Global, extension: &Extension) -> Result<Extension, Fail> {
    if extension.singleton() != b'u' {
        return Err(Fail::from("no u"));
    }
    let mut parts = again!(split_u(alloc, extension))?;
    settle_u(alloc, &mut parts)?;
    Ok(again!(join_u(alloc, &parts))?)
}

/// The normal form of a `t` extension.
fn settled_t(alloc: Global, table: &ListTable, extension: &Extension) -> Result<Extension, Fail> {
    if extension.singleton() != b't' || first_cycle(table).is_some() {
        return Err(Fail::from("no t"));
    }
    let mut parts = again!(split_t(alloc, extension))?;
    settle_t(alloc, table, &mut parts)?;
    Ok(again!(join_t(alloc, &parts))?)
}

/// The normal form of a `u` or a `t` extension.
fn settled(alloc: Global, table: &ListTable, extension: &Extension) -> Result<Extension, Fail> {
    match extension.singleton() {
        b'u' => settled_u(alloc, extension),
        _ => settled_t(alloc, table, extension),
    }
}

/// The normal form of the one extension of a text's tag.
fn settled_extension(alloc: Global, table: &ListTable, text: &str) -> Result<Extension, Fail> {
    let tag = again!(read_tag(alloc, text.as_bytes()))?;
    match tag.extensions() {
        [extension] => settled(alloc, table, extension),
        _ => Err(Fail::from("not one extension")),
    }
}

/// Whether these are the extensions of a text's tag.
fn are_extensions_of(
    alloc: Global,
    extensions: &[Extension],
    text: &str,
) -> Result<bool, TagFault> {
    let tag = again!(read_tag(alloc, text.as_bytes()))?;
    Ok(same_extensions(extensions, tag.extensions()))
}

/// Whether extensions have the same subtags.
fn same_extensions(extensions: &[Extension], others: &[Extension]) -> bool {
    for (index, extension) in extensions.iter().enumerate() {
        match others.get(index) {
            Some(other)
                if extension.singleton() == other.singleton()
                    && extension.subtags() == other.subtags() => {}
            _ => return false,
        }
    }
    extensions.len() == others.len()
}

/// Whether the normal form of the extension of a text's tag is that of another.
fn extension_settles_to(
    alloc: Global,
    table: &ListTable,
    text: &str,
    other: &str,
) -> Result<bool, Fail> {
    let settled = settled_extension(alloc, table, text)?;
    Ok(are_extensions_of(alloc, &[settled], other)?)
}

/// Texts with one extension, and with its normal form.
const EXTENSIONS: &[(&str, &str)] = &[
    (
        "en-u-foo-bar-nu-latn-ca-buddhist",
        "en-u-bar-foo-ca-buddhist-nu-latn",
    ),
    (
        "en-u-foo-bar-foo-nu-latn-ca-buddhist-NU-arab",
        "en-u-bar-foo-ca-buddhist-nu-latn",
    ),
    ("en-u-kn-true", "en-u-kn"),
    ("en-u-kn-true-kn-false", "en-u-kn"),
    ("en-u-kn-kn-true", "en-u-kn"),
    ("en-u-kn-true-yes", "en-u-kn-true-yes"),
    ("en-u-kn-true-true", "en-u-kn-true-true"),
    ("en-u-true", "en-u-true"),
    ("en-t-zh-yue-m0-names-a0-xyz", "en-t-yue-a0-xyz-m0-names"),
    (
        "en-t-ZH-yue-m0-names-bgn-a0-xyz",
        "en-t-yue-a0-xyz-m0-names-bgn",
    ),
    ("en-t-iw-t0-aaa", "en-t-he-t0-aaa"),
];

/// Judges a tag, again where memory is refused.
fn judge(alloc: Global, table: &ListTable, tag: &Tag) -> Result<(), ValidRefusal>
    ensures { OnOk result (HasNoFault table.now tag.now) }
{
    match validate(alloc, table, tag) {
        Ok(()) => Ok(()),
        Err(_) => validate(alloc, table, tag),
    }
}

/// Copies of extensions, made again where memory is refused.
fn copies(alloc: Global, extensions: &[Extension]) -> Result<Vec<Extension>, OutOfMemory>
    ensures { IfOk result (λ copies. copies.items ≡ extensions.now) }
{
    match copy_extensions(alloc, extensions) {
        Ok(copies) => Ok(copies),
        Err(_) => copy_extensions(alloc, extensions),
    }
}

/// Settles extensions, again where memory is refused and they are what they were.
fn settle(
    alloc: Global,
    table: &ListTable,
    extensions: &mut Vec<Extension>,
    before: &[Extension],
) -> Result<(), OutOfMemory>
    requires chains { All (HasEndingChain table.now) table.now }
    requires singletons { Distinct (map (λ (e : ExtensionParts). e.singleton) extensions.old.items) }
    requires transforms { AllByRecursion (λ (e : ExtensionParts). e.singleton ≡ transform → (p : TForm) × IsTransform e.subtags p) extensions.old.items }
{
    match settle_extensions(alloc, table, extensions) {
        Err(OutOfMemory) if same_extensions(extensions, before) => {
            settle_extensions(alloc, table, extensions)
        }
        answer => answer,
    }
}

/// Refuses a table of which a chain has no end.
fn know_chains(table: &ListTable) -> Result<(), &'static str>
    ensures { OnOk result (All (HasEndingChain table.now) table.now) }
{
    match first_cycle(table) {
        Some(_) => Err("a cycle"),
        None => Ok(()),
    }
}

/// The normal form of a valid tag's extensions.
fn settled_extensions(
    alloc: Global,
    table: &ListTable,
    text: &str,
) -> Result<Vec<Extension>, Fail> {
    let tag = again!(read_tag(alloc, text.as_bytes()))?;
    judge(alloc, table, &tag)?;
    know_chains(table)?;
    let mut extensions = copies(alloc, tag.extensions())?;
    settle(alloc, table, &mut extensions, tag.extensions())?;
    Ok(extensions)
}

/// Whether the normal form of the extensions of a text's tag are those of another.
fn list_settles_to(
    alloc: Global,
    table: &ListTable,
    text: &str,
    other: &str,
) -> Result<bool, Fail> {
    let settled = settled_extensions(alloc, table, text)?;
    Ok(are_extensions_of(alloc, &settled, other)?)
}

/// Texts with extensions, and with their normal form.
const LISTS: [(&str, &str); 3] = [
    ("en-b-ccc-bbb-a-aaa", "en-a-aaa-b-ccc-bbb"),
    (
        "en-u-nu-latn-ca-buddhist-t-iw-t0-aaa-a-bbb",
        "en-a-bbb-t-he-t0-aaa-u-ca-buddhist-nu-latn",
    ),
    (
        "en-u-kn-true-t-zh-yue-m0-names-a0-xyz",
        "en-t-yue-a0-xyz-m0-names-u-kn",
    ),
];

/// Whether the chain of a subtag ends in another.
fn chain_ends_in(table: &ListTable, kind: Kind, subtag: &Subtag, end: &str) -> bool {
    match chain_end(table, kind, subtag) {
        Ok(found) => found.bytes() == end.as_bytes(),
        Err(Cycle) => false,
    }
}

/// Whether the chain of a text's subtag ends in another.
fn ends_in(table: &ListTable, kind: Kind, text: &str, end: &str) -> bool {
    match Subtag::read(text.as_bytes()) {
        Ok(subtag) => chain_ends_in(table, kind, &subtag, end),
        Err(_) => false,
    }
}

/// Subtags and the ends of their chains.
const CHAINS: &[(Kind, &str, &str)] = &[
    (Kind::Language, "iw", "he"),
    (Kind::Extlang, "yue", "yue"),
    (Kind::Variant, "arevela", "arevela"),
    (Kind::Variant, "heploc", "alalc97"),
];

#[test]
fn ends_of_chains(rt: HostRuntime) -> Result<(), Fail> {
    let table = sample(rt.alloc())?;
    assert!(rt; first_cycle(&table).is_none());
    for (kind, text, end) in CHAINS {
        assert!(rt; ends_in(&table, *kind, text, end), "{text}");
    }
    Ok(())
}

/// Whether the chain of a language has no end.
fn is_endless(table: &ListTable, text: &str) -> bool {
    match Subtag::read(text.as_bytes()) {
        Ok(subtag) => chain_end(table, Kind::Language, &subtag).is_err(),
        Err(_) => false,
    }
}

/// The table of the sample in which the value of `he` is `iw`, whose value is `he`.
fn sample_with_cycle(alloc: Global) -> Result<ListTable, Fail> {
    sample_with(
        alloc,
        6,
        "Type: language\nSubtag: he\nPreferred-Value: iw\n",
    )
}

#[test]
fn chains_without_end(rt: HostRuntime) -> Result<(), Fail> {
    let table = sample_with_cycle(rt.alloc())?;
    assert!(rt; is_endless(&table, "he"));
    assert!(rt; first_cycle(&table) == Some(6));
    Ok(())
}

#[test]
fn names(rt: HostRuntime) -> Result<(), AllocError> {
    assert!(rt; StepKind::VariantLanguage.name() == "VariantLanguage");
    assert!(rt; StepKind::DropTrue.name() == "DropTrue");
    assert!(rt; Cycle.name() == "Cycle");
    assert!(rt; format!(in rt.alloc(); "{}", Cycle)?.as_str() == "Cycle");
    Ok(())
}

/// Texts of cores, and how many subtags they have.
const LENGTHS: [(&str, usize); 2] = [("de", 1), ("zh-cmn-Hans-DE-1901-hepburn", 6)];

#[test]
fn lengths_of_cores(rt: HostRuntime) -> Result<(), Fail> {
    for (text, length) in &LENGTHS {
        assert!(rt;
            core_length(&core_of(rt.alloc(), text)?) == *length,
            "{text}"
        );
    }
    Ok(())
}
