//! How a text is cut into lines, and what a line is: blank, a separator, a continuation, the start of a field, or bad.
//! A contract sees the kind of a line by `line_in`.
ghost use Rattle.std.specs.Prelude.{◌≡◌, ◌<◌, ◌≤◌, ◌∷◌, length, IfSome, MatchOption};
ghost use Rattle.std.specs.List.{list_all};
ghost use Rattle.lt_jar.specs.Lines.{content_of, lines_of};
ghost use Rattle.lt_jar.specs.LineKinds as lines;
ghost use Rattle.lt_jar.specs.Views.{line_in};
ghost use Rattle.lt_jar.specs.Pieces.{SplitsLine};

use crate::places::first_place;
use crate::words::are_same;

/// What is before the first line feed of a text, and what is after it. None if the text has no line feed.
#[tactic(auto, using(crate::proofs::CutLemmas::line_front, crate::proofs::CutLemmas::split_at, crate::proofs::CutLemmas::whole_line))]
pub(crate) fn split_line(text: &[u8]) -> Option<(&[u8], &[u8])>
    ensures { SplitsLine text.now result }
{
    match first_place(b'\n', text) {
        Some(i) => Some((&text[..i], &text[i + 1..])),
        None => None,
    }
}

/// What is before the first line feed of a text that is UTF-8, and what is after it. None if the text has no line
/// feed. Both parts are UTF-8.
pub(crate) fn split_text(text: &str) -> Option<(&str, &str)>
    ensures { SplitsLine text.now result }
{
    match first_place(b'\n', text.as_bytes()) {
        Some(i) => Some((&text[..i], &text[i + 1..])),
        None => None,
    }
}

/// What a line is.
#[derive(Clone, Copy)]
pub(crate) enum LineKind<'a> {
    /// Nothing, or only spaces and tabs.
    Blank,
    /// `%%`.
    Separator,
    /// Begins with a space or a tab: what it adds to the body of the field before it.
    Continuation(&'a str),
    /// A field's name, and what its body begins with.
    Start(&'a str, &'a str),
    /// None of these.
    Bad,
}

/// What kind of line this is. `line` is without the line feed that ends it.
pub(crate) fn kind_of(line: &str) -> LineKind<'_>
    ensures { line_in result ≡ lines.line_of line.now }
{
    let text = content(line);
    let bytes = text.as_bytes();
    if are_blank(bytes) {
        return LineKind::Blank;
    }
    match bytes.first() {
        Some(byte) if is_blank(*byte) => LineKind::Continuation(trim(text)),
        _ if is_separator(bytes) => LineKind::Separator,
        _ => field_start(text),
    }
}

/// Whether a byte is a space or a tab.
fn is_blank(byte: u8) -> bool
    ensures { result ≡ lines.is_blank byte }
{
    byte == b' ' || byte == b'\t'
}

/// Whether a byte can be in the name of a field: a letter, a digit or a hyphen.
fn is_name_byte(byte: u8) -> bool
    ensures { result ≡ lines.is_name_byte byte }
{
    byte.is_ascii_alphanumeric() || byte == b'-'
}

/// Whether all bytes are spaces and tabs.
fn are_blank(bytes: &[u8]) -> bool
    ensures { result ≡ list_all lines.is_blank bytes.now }
{
    for byte in bytes {
        if !is_blank(*byte) {
            return false;
        }
    }
    true
}

/// Whether a line parts records: it is `%%`, with nothing but spaces and tabs after it.
fn is_separator(bytes: &[u8]) -> bool
    ensures { result ≡ lines.separates bytes.now }
{
    match bytes {
        [b'%', b'%', rest @ ..] => are_blank(rest),
        _ => false,
    }
}

/// The line without the carriage return that may end it.
fn content(line: &str) -> &str
    ensures { result.now ≡ content_of line.now }
{
    match line.as_bytes().last() {
        Some(b'\r') => &line[..line.len() - 1],
        _ => line,
    }
}

/// The text without the spaces and tabs at its front.
fn trim_start(text: &str) -> &str
    ensures { result.now ≡ lines.trim_start text.now }
{
    for (i, byte) in text.as_bytes().iter().enumerate() {
        if !is_blank(*byte) {
            return &text[i..];
        }
    }
    ""
}

/// The text without the spaces and tabs at its end.
fn trim_end(text: &str) -> &str
    ensures { result.now ≡ lines.trim_end text.now }
{
    let bytes = text.as_bytes();
    let mut end = bytes.len();
    while end > 0 && is_blank(bytes[end - 1]) {
        end -= 1;
    }
    &text[..end]
}

/// The text without the spaces and tabs at both ends. Most texts have just one space at the front, which is tried first.
fn trim(text: &str) -> &str
    ensures { result.now ≡ lines.trim text.now }
{
    let bytes = text.as_bytes();
    let count = bytes.len();
    if 1 < count && bytes[0] == b' ' && !is_blank(bytes[1]) && !is_blank(bytes[count - 1]) {
        return &text[1..];
    }
    trim_end(trim_start(text))
}

/// The bytes at the front that can be in a name, and what follows them.
fn split_name(text: &str) -> (&str, &str)
    ensures name { result.0.now ≡ lines.name_at_front text.now }
    ensures rest { result.1.now ≡ drop (length (lines.name_at_front text.now)) text.now }
{
    for (i, byte) in text.as_bytes().iter().enumerate() {
        if !is_name_byte(*byte) {
            return (&text[..i], &text[i..]);
        }
    }
    (text, "")
}

ghost use Rattle.std.specs.Prelude.{drop};

/// What the body begins with, if the line begins a field with just this name, which the field in its place had in the
/// record before. So the name is compared, and not looked for. `name` must have only letters, digits and hyphens. None
/// for any other line, and for some that write such a field in another way, for example with a space before the colon.
pub(crate) fn body_again<'l>(line: &'l str, name: &str) -> Option<&'l str>
    requires { lines.IsNamed name.now }
    ensures { IfSome result (λ body. lines.line_of line.now ≡ lines.Start name.now body.now) }
{
    let text = content(line);
    let bytes = text.as_bytes();
    let length = name.len();
    if length == 0 || bytes.len() <= length || bytes[length] != b':' {
        return None;
    }
    if are_same(&bytes[..length], name.as_bytes()) {
        Some(trim(&text[length + 1..]))
    } else {
        None
    }
}

/// A line that is neither blank nor a separator, and doesn't begin with a space or a tab: the beginning of a field, or
/// a bad line.
fn field_start(text: &str) -> LineKind<'_>
    ensures { line_in result ≡ lines.start_of text.now }
{
    let (name, rest) = split_name(text);
    let rest = trim_start(rest);
    match rest.as_bytes().first() {
        Some(b':') if !name.is_empty() => LineKind::Start(name, trim(&rest[1..])),
        _ => LineKind::Bad,
    }
}
