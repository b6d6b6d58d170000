//! The answers by the tables of the sample.
use super::checked;
use super::explanations::explanations;
use super::traces::traces;
use lt_canon::laws::confluence;
use lt_canon::{
    Refusal, TextRefusal, append_canonical_text, canonical, canonical_text, equivalent,
    extlang_form,
};
use lt_check::Checked;
use lt_registry::Lookup;
use lt_tag::{OutOfMemory, Tag, read_tag, write_tag};
use lt_testing::{again, retried, sorted_sample};
use std::alloc::Global;
use std::process::Abort;
use std::test::Fail;

/// Texts and their canonical texts.
const CANONICAL: &[(&str, &str)] = &[
    ("zh-yue", "yue"),
    ("YUE", "yue"),
    ("I-KLINGON", "tlh"),
    ("EN-gb-oed", "en-GB-oxendict"),
    ("zh-min", "zh-min"),
    ("sgn-dd", "gsg"),
    ("sgn-dd-x-A", "sgn-DE-x-a"),
    ("x-AB-c", "x-ab-c"),
    ("ja-latn-hepburn-heploc", "ja-Latn-hepburn-alalc97"),
    ("hy-arevela-arevmda", "hyw"),
    ("hy-arevmda-arevela", "hyw-arevela"),
    ("en-arevmda", "en-arevmda"),
    ("en-b-ccc-bbb-a-aaa-X-xyz", "en-a-aaa-b-ccc-bbb-x-xyz"),
    (
        "en-u-foo-bar-foo-nu-latn-ca-buddhist-NU-arab",
        "en-u-bar-foo-ca-buddhist-nu-latn",
    ),
    ("en-u-kn-true", "en-u-kn"),
    ("en-u-kn-true-kn-false", "en-u-kn"),
    (
        "en-t-ZH-yue-m0-names-bgn-a0-xyz",
        "en-t-yue-a0-xyz-m0-names-bgn",
    ),
    ("en-t-iw-t0-aaa", "en-t-he-t0-aaa"),
    ("zh-cmn-hans", "cmn-Hans"),
    ("iw-x-A", "he-x-a"),
    ("de-qaaa-xb", "de-Qaaa-XB"),
    ("sgn-be-fr", "sfb"),
    (
        "en-u-nu-latn-ca-buddhist-t-iw-b-ccc-a-aaa",
        "en-a-aaa-b-ccc-t-he-u-ca-buddhist-nu-latn",
    ),
];

/// Texts that have no canonical text, with the names and the places of their faults, or with the variant that replacements
/// repeat and 0.
const REFUSED: &[(&str, &str, u32)] = &[
    ("ja-Latn-heploc-alalc97", "alalc97", 0),
    ("en-t-ja-heploc-alalc97", "alalc97", 0),
    ("zh-min-x-a", "ExtlangPrefix", 2),
    ("zh-gan-yue", "TooManyExtlangs", 3),
    ("fr", "UnknownLanguage", 1),
    ("zh-abc", "UnknownExtlang", 2),
    ("en-Zzzz", "UnknownScript", 2),
    ("en-US", "UnknownRegion", 2),
    ("de-abcde", "UnknownVariant", 2),
    ("de-1901-1901", "DuplicateVariant", 3),
    ("en-a-aaa-A-bbb", "DuplicateSingleton", 4),
    ("en-t-m0", "BadTransform", 2),
    ("", "EmptySubtag", 1),
    ("en-", "EmptySubtag", 2),
    ("en_US", "BadByte", 1),
    ("en-abcdefghi", "LongSubtag", 2),
    ("i-foo", "BadLanguage", 1),
    ("en-a-x-b", "Misplaced", 3),
    ("sgn-BE-FR-x-a", "Misplaced", 3),
    ("en-a", "Unfinished", 3),
    ("x", "Unfinished", 2),
];

/// The canonical text of a text, or why there is none.
fn written<L: Lookup>(
    alloc: Global,
    checked: &Checked<L>,
    text: &[u8],
) -> Result<Vec<u8>, TextRefusal> {
    retried!(
        canonical_text(alloc, checked, text),
        TextRefusal::OutOfMemory
    )
}

/// Whether the canonical text of a text is another.
fn comes_to<L: Lookup>(alloc: Global, checked: &Checked<L>, text: &[u8], canonical: &[u8]) -> bool {
    match written(alloc, checked, text) {
        Ok(answer) => answer.as_slice() == canonical,
        Err(_) => false,
    }
}

/// Whether a refusal is for a fault of this name at this place, or for this variant.
fn is_refusal(refusal: TextRefusal, name: &str, place: u32) -> bool {
    match refusal {
        TextRefusal::NotATag(fault) => fault.kind.name() == name && fault.place == place,
        TextRefusal::Invalid(fault) => fault.kind.name() == name && fault.place == place,
        TextRefusal::ReplacementRepeats(repeated) => {
            repeated.bytes() == name.as_bytes() && place == 0
        }
        TextRefusal::OutOfMemory => false,
    }
}

/// Whether a text is refused so.
fn is_refused<L: Lookup>(
    alloc: Global,
    checked: &Checked<L>,
    text: &[u8],
    name: &str,
    place: u32,
) -> bool {
    match written(alloc, checked, text) {
        Err(refusal) => is_refusal(refusal, name, place),
        Ok(_written) => false,
    }
}

/// A text that is one byte longer than the longest, which without its last is its own canonical text.
fn long_text() -> [u8; 1025] {
    let mut text = [b'a'; 1025];
    text[..4].copy_from_slice(b"en-x");
    for index in 0..114usize {
        text[9 * index + 4] = b'-';
    }
    text
}

/// Whether the longest text has a canonical text, and one that is longer is refused.
fn takes_the_longest<L: Lookup>(alloc: Global, checked: &Checked<L>) -> bool {
    let text = long_text();
    comes_to(alloc, checked, &text[..1024], &text[..1024])
        && is_refused(alloc, checked, &text, "TooLong", 0)
}

/// Each text has its canonical text, and that is its own, or is refused.
pub(super) fn canonical_texts<L: Lookup>(rt: &impl Abort, alloc: Global, checked: &Checked<L>) {
    for (text, canonical) in CANONICAL {
        let wanted = canonical.as_bytes();
        assert!(rt; comes_to(alloc, checked, text.as_bytes(), wanted), "{text}");
        assert!(rt; comes_to(alloc, checked, wanted, wanted), "{canonical}");
    }
    for (text, name, place) in REFUSED {
        assert!(rt;
            is_refused(alloc, checked, text.as_bytes(), name, *place),
            "{text}"
        );
    }
    assert!(rt; takes_the_longest(alloc, checked));
}

/// Appends the canonical text of a text, again where a growth was refused, and leaves what was there.
fn append<L: Lookup>(
    alloc: Global,
    checked: &Checked<L>,
    text: &str,
    before: &str,
    texts: &mut Vec<u8>,
) -> Result<(), TextRefusal> {
    match append_canonical_text(alloc, checked, text.as_bytes(), texts) {
        Err(TextRefusal::OutOfMemory) if texts.as_slice() == before.as_bytes() => {
            append_canonical_text(alloc, checked, text.as_bytes(), texts)
        }
        answer => answer,
    }
}

/// Texts, and what is there once the canonical text of each that is valid is appended.
const APPENDED: [(&str, &str); 3] = [
    ("I-KLINGON", "tlh"),
    ("fr", "tlh"),
    ("zh-cmn-hans", "tlhcmn-Hans"),
];

/// Whether canonical texts are appended one after another, and nothing where a text is not valid.
pub(super) fn appends<L: Lookup>(alloc: Global, checked: &Checked<L>) -> bool {
    let mut texts = Vec::new(alloc);
    let mut before = "";
    for (text, after) in &APPENDED {
        match append(alloc, checked, text, before, &mut texts) {
            Ok(()) | Err(TextRefusal::Invalid(_)) if texts.as_slice() == after.as_bytes() => {
                before = after;
            }
            _ => return false,
        }
    }
    true
}

/// What a form is refused for: the name of a fault at the first subtag, or the repeated variant.
fn refusal_name(refusal: Refusal) -> &'static str {
    match refusal {
        Refusal::Invalid(fault) if fault.place == 1 => fault.kind.name(),
        Refusal::ReplacementRepeats(repeated) if repeated.bytes() == b"alalc97".as_slice() =>
            "alalc97",
        _ => "another refusal",
    }
}

/// Whether an answer is a tag that is printed so, or a refusal of that name.
fn is_answer(
    alloc: Global,
    answer: Result<Tag, Refusal>,
    wanted: &str,
) -> Result<bool, OutOfMemory> {
    match answer {
        Ok(form) => Ok(again!(write_tag(alloc, &form))?.as_slice() == wanted.as_bytes()),
        Err(refusal) => Ok(refusal_name(refusal) == wanted),
    }
}

/// Whether a tag has this canonical form or refusal.
pub fn has_form<L: Lookup>(
    alloc: Global,
    checked: &Checked<L>,
    text: &str,
    wanted: &str,
) -> Result<bool, Fail> {
    let tag = again!(read_tag(alloc, text.as_bytes()))?;
    let answer = retried!(canonical(alloc, checked, &tag), Refusal::OutOfMemory);
    Ok(is_answer(alloc, answer, wanted)?)
}

/// Tags with their canonical forms, or with what they are refused for.
const FORMS: &[(&str, &str)] = &[
    ("sgn-DD", "gsg"),
    ("fr", "UnknownLanguage"),
    ("ja-heploc-alalc97", "alalc97"),
    ("ja-Latn-heploc-alalc97", "alalc97"),
    ("en-t-ja-heploc-alalc97", "alalc97"),
    (
        "de-0-zz-u-co-phonebk-b-ccc-a-aaa",
        "de-0-zz-a-aaa-b-ccc-u-co-phonebk",
    ),
];

/// Whether a tag has this form with extlangs, or this refusal.
fn has_extlang_form<L: Lookup>(
    alloc: Global,
    checked: &Checked<L>,
    text: &str,
    wanted: &str,
) -> Result<bool, Fail> {
    let tag = again!(read_tag(alloc, text.as_bytes()))?;
    let answer = retried!(extlang_form(alloc, checked, &tag), Refusal::OutOfMemory);
    Ok(is_answer(alloc, answer, wanted)?)
}

/// Tags with their forms with extlangs, and the canonical forms of those.
const EXTLANG_FORMS: [(&str, &str, &str); 3] = [
    ("cmn-hans", "zh-cmn-Hans", "cmn-Hans"),
    ("min", "ms-min", "min"),
    ("en", "en", "en"),
];

/// Whether two tags are equivalent, in words, or the name of the refusal.
fn compared<L: Lookup>(
    alloc: Global,
    checked: &Checked<L>,
    first: &Tag,
    second: &Tag,
) -> &'static str {
    match retried!(
        equivalent(alloc, checked, first, second),
        Refusal::OutOfMemory
    ) {
        Ok(true) => "equivalent",
        Ok(false) => "different",
        Err(refusal) => refusal_name(refusal),
    }
}

/// Whether two tags compare so.
fn compare_as<L: Lookup>(
    alloc: Global,
    checked: &Checked<L>,
    first: &str,
    second: &str,
    wanted: &str,
) -> Result<bool, Fail> {
    let first = again!(read_tag(alloc, first.as_bytes()))?;
    let second = again!(read_tag(alloc, second.as_bytes()))?;
    Ok(compared(alloc, checked, &first, &second) == wanted)
}

/// Pairs of tags, and how they compare.
const PAIRS: &[(&str, &str, &str)] = &[
    ("sgn-DD", "GSG", "equivalent"),
    ("sgn-DD-x-a", "gsg-x-a", "different"),
    ("en-u-kn", "en-u-kn-TRUE", "equivalent"),
    ("fr", "ja-heploc-alalc97", "UnknownLanguage"),
];

/// Each tag has its form with extlangs, which is led back.
fn extlang_forms<L: Lookup>(
    rt: &impl Abort,
    alloc: Global,
    checked: &Checked<L>,
) -> Result<(), Fail> {
    for (text, wanted, canonical) in &EXTLANG_FORMS {
        assert!(rt; has_extlang_form(alloc, checked, text, wanted)?, "{text}");
        assert!(rt; has_form(alloc, checked, wanted, canonical)?, "{wanted}");
    }
    Ok(())
}

/// Each pair compares as its row says.
fn equivalence<L: Lookup>(
    rt: &impl Abort,
    alloc: Global,
    checked: &Checked<L>,
) -> Result<(), Fail> {
    for (first, second, wanted) in PAIRS {
        assert!(rt;
            compare_as(alloc, checked, first, second, wanted)?,
            "{first}"
        );
    }
    Ok(())
}

/// Each tag has its canonical form and its form with extlangs, or is refused, and pairs compare as their rows say.
pub(super) fn canonical_tags<L: Lookup>(
    rt: &impl Abort,
    alloc: Global,
    checked: &Checked<L>,
) -> Result<(), Fail> {
    confluence(checked);
    for (text, wanted) in FORMS {
        assert!(rt; has_form(alloc, checked, text, wanted)?, "{text}");
    }
    extlang_forms(rt, alloc, checked)?;
    equivalence(rt, alloc, checked)
}

#[test]
fn answers_by_the_sorted_table(rt: HostRuntime) -> Result<(), Fail> {
    let alloc = rt.alloc();
    let checked = checked(alloc, sorted_sample(alloc)?)?;
    canonical_texts(&rt, alloc, &checked);
    assert!(rt; appends(alloc, &checked));
    canonical_tags(&rt, alloc, &checked)?;
    explanations(&rt, alloc, &checked)?;
    traces(&rt, alloc, &checked)
}
