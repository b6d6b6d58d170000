//! Ends of tags that come again after other fronts.
use super::checked;
use lt_cache::RecentEnds;
use lt_canon::Checked;
use lt_registry::Lookup;
use lt_testing::sample;
use std::alloc::Global;
use std::test::Fail;

/// Texts in order, and the canonical text of each by the sample, or the name of the refusal. Most have an end that came
/// before after another front, of which some turn or have a tag with a value, and some are in capitals.
const TEXTS: &[(&str, &str)] = &[
    ("de-u-nu-latn", "de-u-nu-latn"),
    ("EN-gb-U-NU-Latn", "en-GB-u-nu-latn"),
    ("ZH-hans-gb-U-NU-Latn", "zh-Hans-GB-u-nu-latn"),
    ("de-u-kn-true", "de-u-kn"),
    ("MIN-u-kn-true", "min-u-kn"),
    ("sgn-u-kn-true", "sgn-u-kn"),
    ("iw-u-kn-true", "he-u-kn"),
    ("en-DD-u-kn-true", "en-DE-u-kn"),
    ("de-1901-u-kn-true", "de-1901-u-kn"),
    ("zh-cmn-u-kn-true", "cmn-u-kn"),
    ("fr-u-kn-true", "UnknownLanguage"),
    ("en-a-bbb-x-a-b", "en-a-bbb-x-a-b"),
    ("yue-LATN-a-bbb-x-a-b", "yue-Latn-a-bbb-x-a-b"),
    ("de-t-iw-dd", "de-t-he-de"),
    ("JA-t-iw-dd", "ja-t-he-de"),
    ("en-x-own", "en-x-own"),
    ("de-DE-x-own", "de-DE-x-own"),
    ("en-a-aaa-A-bbb", "DuplicateSingleton"),
    ("de-a-aaa-A-bbb", "DuplicateSingleton"),
    ("de-t-ja-latn-hepburn-heploc-alalc97", "ReplacementRepeats"),
    ("x-u-kn-true", "x-u-kn-true"),
];

/// The canonical text of a text, or the name of the refusal.
fn answer<L: Lookup>(
    alloc: Global,
    checked: &Checked<L>,
    ends: &mut RecentEnds,
    text: &str,
) -> Result<Vec<u8>, Fail> {
    let mut texts = Vec::new(alloc);
    if let Err(refusal) = ends.append_canonical_text(alloc, checked, text.as_bytes(), &mut texts) {
        texts.extend_from_slice(refusal.name().as_bytes())?;
    }
    Ok(texts)
}

#[test]
fn ends_after_other_fronts(rt: HostRuntime) -> Result<(), Fail> {
    let alloc = rt.alloc();
    let checked = checked(alloc, sample(alloc)?)?;
    let mut ends = RecentEnds::new(alloc);
    for (text, wanted) in TEXTS {
        let answer = answer(alloc, &checked, &mut ends, text)?;
        assert!(rt; answer.as_slice() == wanted.as_bytes(), "{text}");
    }
    Ok(())
}
