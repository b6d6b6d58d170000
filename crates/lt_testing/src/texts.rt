//! A small registry, modelled on IANA's: `examples/sample-registry.txt` has its text.
use std::alloc::{AllocError, Global};

/// A record: type, name, preferred value and prefix. Where there is no such field its text is empty.
pub type Row = (&'static str, &'static str, &'static str, &'static str);

/// The records after the header, 2 to 47.
pub const ROWS: &[Row] = &[
    ("language", "de", "", ""),
    ("language", "en", "", ""),
    ("language", "gan", "", ""),
    ("language", "gsg", "", ""),
    ("language", "he", "", ""),
    ("language", "hy", "", ""),
    ("language", "hyw", "", ""),
    ("language", "iw", "he", ""),
    ("language", "ja", "", ""),
    ("language", "min", "", ""),
    ("language", "ms", "", ""),
    ("language", "cmn", "", ""),
    ("language", "sgn", "", ""),
    ("language", "tlh", "", ""),
    ("language", "yue", "", ""),
    ("language", "zh", "", ""),
    ("language", "sfb", "", ""),
    ("language", "qaa..qtz", "", ""),
    ("extlang", "cmn", "cmn", "zh"),
    ("extlang", "gan", "gan", "zh"),
    ("extlang", "min", "min", "ms"),
    ("extlang", "yue", "yue", "zh"),
    ("script", "Hans", "", ""),
    ("script", "Latn", "", ""),
    ("script", "Qaaa..Qabx", "", ""),
    ("region", "DD", "DE", ""),
    ("region", "DE", "", ""),
    ("region", "GB", "", ""),
    ("region", "XA..XZ", "", ""),
    ("variant", "1901", "", "de"),
    ("variant", "1996", "", "de"),
    ("variant", "alalc97", "", ""),
    ("variant", "arevela", "hy", "hy"),
    ("variant", "arevmda", "hyw", "hy"),
    ("variant", "hepburn", "", "ja-Latn"),
    ("variant", "heploc", "alalc97", "ja-Latn-hepburn"),
    ("variant", "oxendict", "", "en"),
    ("grandfathered", "en-GB-oed", "en-GB-oxendict", ""),
    ("grandfathered", "i-klingon", "tlh", ""),
    ("grandfathered", "sgn-BE-FR", "sfb", ""),
    ("grandfathered", "zh-guoyu", "cmn", ""),
    ("grandfathered", "zh-min", "", ""),
    ("redundant", "sgn-DE", "gsg", ""),
    ("redundant", "zh-cmn", "cmn", ""),
    ("redundant", "zh-cmn-Hans", "cmn-Hans", ""),
    ("redundant", "zh-Hans", "", ""),
];

/// The line of the header.
pub const HEADER: &str = "File-Date: 2024-01-01";

/// A field of two lines, with carriage returns.
pub const FOLDED: &str = "Description: Modern\r\n Hebrew\r\n";

/// Puts a line at the end of the text.
fn push_line(text: &mut String, label: &str, body: &str, end: &str) -> Result<(), AllocError> {
    text.push_str(label)?;
    text.push_str(body)?;
    text.push_str(end)
}

/// Puts the line of a field at the end of the text, unless the body is empty.
fn push_field(text: &mut String, label: &str, body: &str, end: &str) -> Result<(), AllocError> {
    if body.is_empty() {
        return Ok(());
    }
    push_line(text, label, body, end)
}

/// The label of the field that has the name of a record of this type.
fn name_label(kind: &str) -> &'static str {
    match kind {
        "grandfathered" | "redundant" => "Tag: ",
        _ => "Subtag: ",
    }
}

/// Puts the lines of a record at the end of the text, the separator first, each with this line end.
pub fn push_record(text: &mut String, row: &Row, end: &str) -> Result<(), AllocError> {
    let (kind, name, value, prefix) = row;
    push_line(text, "%%", "", end)?;
    push_line(text, "Type: ", kind, end)?;
    push_line(text, name_label(kind), name, end)?;
    push_field(text, "Preferred-Value: ", value, end)?;
    push_field(text, "Prefix: ", prefix, end)
}

/// The text of the registry, with this end of each line and this field last in the record of `he`.
fn text_with_field(alloc: Global, end: &str, field: &str) -> Result<String, AllocError> {
    let mut text = String::new(alloc);
    push_line(&mut text, HEADER, "", end)?;
    for row in ROWS {
        push_record(&mut text, row, end)?;
        if row.1 == "he" {
            text.push_str(field)?;
        }
    }
    Ok(text)
}

/// The text of the registry.
pub fn sample_text(alloc: Global) -> Result<String, AllocError> {
    text_with_field(alloc, "\n", "")
}

/// The text of the registry with carriage returns, and a folded field in its sixth record.
pub fn returned_text(alloc: Global) -> Result<String, AllocError> {
    text_with_field(alloc, "\r\n", FOLDED)
}

/// The text of the registry, with the lines of another record in place of those of the record of this
/// number, or at the end if there is no such record.
pub fn changed_text(alloc: Global, number: usize, lines: &str) -> Result<String, AllocError> {
    let mut text = String::new(alloc);
    push_line(&mut text, HEADER, "", "\n")?;
    for (index, row) in ROWS.iter().enumerate() {
        if index + 2 == number {
            push_line(&mut text, "%%\n", lines, "")?;
        } else {
            push_record(&mut text, row, "\n")?;
        }
    }
    if number > ROWS.len() + 1 {
        push_line(&mut text, "%%\n", lines, "")?;
    }
    Ok(text)
}
