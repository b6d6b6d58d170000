//! Texts whose subtags stay as they are.
use super::checked;
use lt_canon::{Checked, append_looked_up_text, append_usual_text};
use lt_registry::Lookup;
use lt_testing::sample_with;
use std::alloc::Global;
use std::test::Fail;

/// Texts, and what is appended for them by the sample and the region 419. Nothing is where a subtag has a value, is in a
/// range alone or is not registered, where a tag of the language has a value, and for another text.
const TEXTS: &[(&str, &str)] = &[
    ("de", "de"),
    ("YUE", "yue"),
    ("EN-gb", "en-GB"),
    ("zh-HANS-de", "zh-Hans-DE"),
    ("MIN-latn", "min-Latn"),
    ("de-419", "de-419"),
    ("TLH-LATN-419", "tlh-Latn-419"),
    ("iw", ""),
    ("en-dd", ""),
    ("qaa", ""),
    ("fr", ""),
    ("sgn", ""),
    ("sgn-de", ""),
    ("zh-yue", ""),
    ("de-1996", ""),
    ("en-", ""),
    ("en1", ""),
    ("[n", ""),
    ("de-41a", ""),
    ("de_DE", ""),
];

/// Whether a text is told by flags, and what is appended for it.
fn answer<L: Lookup>(
    alloc: Global,
    checked: &Checked<L>,
    text: &str,
) -> Result<(bool, Vec<u8>), Fail> {
    let mut texts = Vec::new(alloc);
    let told = append_usual_text(checked, text.as_bytes(), &mut texts)?;
    Ok((told, texts))
}

/// The canonical texts of two texts that are looked up, one after the other.
fn looked_up<L: Lookup>(alloc: Global, checked: &Checked<L>) -> Result<Vec<u8>, Fail> {
    let mut texts = Vec::new(alloc);
    append_looked_up_text(alloc, checked, b"IW", &mut texts)?;
    append_looked_up_text(alloc, checked, b"ZH-yue", &mut texts)?;
    Ok(texts)
}

#[test]
fn texts_of_subtags_that_stay(rt: HostRuntime) -> Result<(), Fail> {
    let alloc = rt.alloc();
    let table = sample_with(alloc, 48, "Type: region\nSubtag: 419\n")?;
    let checked = checked(alloc, table)?;
    for (text, canonical) in TEXTS {
        let (told, answer) = answer(alloc, &checked, text)?;
        assert_eq!(rt; told, !canonical.is_empty(), "{text}");
        assert!(rt; answer.as_slice() == canonical.as_bytes(), "{text}");
    }
    assert!(rt; looked_up(alloc, &checked)?.as_slice() == b"heyue".as_slice());
    Ok(())
}
