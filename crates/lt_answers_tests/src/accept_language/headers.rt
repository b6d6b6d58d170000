//! What headers say.
use super::accept_of;
use lt_range::WeightedRange;
use std::alloc::Global;
use std::test::Fail;

/// Headers, and their ranges with their weights: those that are acceptable, and after a stroke those that are not.
const ROWS: &[(&str, &str)] = &[
    (
        "da, en-gb;q=0.8, en;q=0.7",
        "da 1000, en-gb 800, en 700, | ",
    ),
    (
        "fr-CH, fr;q=0.9, en;q=0.8, de;q=0.7, *;q=0.5",
        "fr-CH 1000, fr 900, en 800, de 700, * 500, | ",
    ),
    (
        "en;q=0.7, da, en-gb;q=0.8",
        "da 1000, en-gb 800, en 700, | ",
    ),
    ("foo,bar", "foo 1000, bar 1000, | "),
    ("foo ,bar,", "foo 1000, bar 1000, | "),
    ("foo , ,bar,charlie", "foo 1000, bar 1000, charlie 1000, | "),
    ("", "| "),
    (" ,\t, ", "| "),
    ("de-CH;q=0, de, *;q=0.000", "de 1000, | de-CH 0, * 0, "),
    (
        "b;q=0.5,c;q=0.50,d,a;q=0.500",
        "d 1000, b 500, c 500, a 500, | ",
    ),
    ("EN \t; \tQ=1.000 , x-a1;q=1.\t", "EN 1000, x-a1 1000, | "),
    (
        "a;q=0.001,b;q=0.01,c;q=0.1,d;q=0.",
        "c 100, b 10, a 1, | d 0, ",
    ),
    (
        "i-klingon;q=0.987,zh-Hant-u-co-stroke",
        "zh-Hant-u-co-stroke 1000, i-klingon 987, | ",
    ),
];

/// Adds ranges with their weights.
fn push_ranges(alloc: Global, told: &mut String, ranges: &[WeightedRange<'_>]) -> Result<(), Fail> {
    for weighted in ranges {
        let range = std::str::from_utf8(weighted.range)?;
        let weight = weighted.weight;
        let words = format!(in alloc; "{range} {weight}, ")?;
        told.push_str(words.as_str())?;
    }
    Ok(())
}

/// What a header says, as the table above has it.
fn told(alloc: Global, text: &str) -> Result<String, Fail> {
    let accept = accept_of(alloc, text)?;
    let mut told = String::new(alloc);
    push_ranges(alloc, &mut told, &accept.acceptable)?;
    told.push_str("| ")?;
    push_ranges(alloc, &mut told, &accept.not_acceptable)?;
    Ok(told)
}

#[test]
fn ranges_by_weight(rt: HostRuntime) -> Result<(), Fail> {
    for (text, wanted) in ROWS {
        let found = told(rt.alloc(), text)?;
        assert!(rt; found.as_str() == *wanted, "{text}");
    }
    Ok(())
}
