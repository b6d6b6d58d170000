//! The rows of a table.
ghost use Rattle.std.specs.Prelude.{◌≡◌, ◌==◌, ◌&&◌, ◌∷◌, [], ℕ, List, MatchOption, length};
ghost use Rattle.lt_subtag.specs.Shapes as shapes;
ghost use Rattle.lt_codes.specs.Rows as spec;
ghost use Rattle.lt_codes.specs.Rows.{HasFields, is_range};

use lt_rows::split_first;
use lt_subtag::Subtag;

/// The fields of a line that are codes, as they are written.
#[derive(Drop)]
pub(crate) struct Fields<'a> {
    pub(crate) bibliographic: &'a [u8],
    pub(crate) terminologic: &'a [u8],
    pub(crate) two_letters: &'a [u8],
}

/// The codes of a row.
#[derive(Drop)]
pub struct Row {
    /// The bibliographic code, as `ger`.
    pub bibliographic: Subtag,
    /// The terminologic code, as `deu`, if it is another.
    pub terminologic: Option<Subtag>,
    /// The code of two letters, as `de`, if there is one.
    pub two_letters: Option<Subtag>,
}

/// The field before the next vertical bar of a line, and what follows the bar. None if there is no bar: then the rest
/// is the last field.
#[tactic(auto, using(crate::proofs::SplitLemmas::field_next, crate::proofs::SplitLemmas::field_last))]
fn next_field(rest: &[u8]) -> Option<(&[u8], &[u8])>
    ensures { MatchOption result (spec.fields_of rest.now ≡ rest.now ∷ []) (λ p. spec.fields_of rest.now ≡ p.0.now ∷ spec.fields_of p.1.now) }
{
    split_first(b'|', rest)
}

/// The first three fields of a line, which are codes. The other two are names, and are left out. None if the line
/// doesn't have five fields, with a vertical bar between each two: then no `b`, `t` and `w` are its first three of
/// five.
#[tactic(auto, using(crate::proofs::SplitLemmas::field_some))]
pub(crate) fn fields_of(line: &[u8]) -> Option<Fields<'_>>
    ensures { MatchOption result ((b t w : List ℕ) → HasFields line.now b t w → ⊥)
        (λ f. HasFields line.now f.bibliographic.now f.terminologic.now f.two_letters.now) }
{
    let (bibliographic, rest) = next_field(line)?;
    let (terminologic, rest) = next_field(rest)?;
    let (two_letters, rest) = next_field(rest)?;
    let (_, rest) = next_field(rest)?;
    match next_field(rest) {
        None => Some(Fields {
            bibliographic,
            terminologic,
            two_letters,
        }),
        Some(_) => None,
    }
}

/// Whether each byte is a lower-case letter.
fn is_alphabetic(bytes: &[u8]) -> bool
    ensures { result ≡ shapes.is_alphabetic bytes.now }
{
    bytes.iter().all(|byte| byte.is_ascii_lowercase())
}

/// Whether a subtag is `count` lower-case letters.
fn are_letters(subtag: &Subtag, count: usize) -> bool
    ensures { result ≡ (shapes.is_alphabetic subtag.now && (length subtag.now == count)) }
{
    is_alphabetic(subtag.bytes()) && subtag.bytes().len() == count
}

/// The code that a field is, in lower case. None if it isn't `count` letters.
fn code_of(field: &[u8], count: usize) -> Option<Subtag>
    ensures { result ≡ spec.code_of count field.now }
{
    match Subtag::read(field) {
        Ok(code) if are_letters(&code, count) => Some(code),
        _ => None,
    }
}

/// The code that a field is, or Some(None) if the field is empty. None if the field is neither empty nor `count`
/// letters.
fn code_or_none(field: &[u8], count: usize) -> Option<Option<Subtag>>
    ensures { result ≡ spec.code_or_none count field.now }
{
    if field.is_empty() {
        return Some(None);
    }
    match code_of(field, count) {
        Some(code) => Some(Some(code)),
        None => None,
    }
}

/// Whether a field is a range: two codes of three letters with a hyphen between them.
fn is_range(field: &[u8]) -> bool
    ensures { result ≡ spec.is_range field.now }
{
    match split_first(b'-', field) {
        Some((first, last)) => code_of(last, 3).is_some() && code_of(first, 3).is_some(),
        None => false,
    }
}

impl Fields<'_> {
    /// Whether these are the fields of a range, `qaa-qtz` and two empty ones, for which nothing is registered.
    pub(crate) fn are_of_range(&self) -> bool
        ensures { result ≡ (is_range self.now.bibliographic.now && (spec.is_empty self.now.terminologic.now && spec.is_empty self.now.two_letters.now)) }
    {
        is_range(self.bibliographic) && self.terminologic.is_empty() && self.two_letters.is_empty()
    }

    /// The codes of the row, of three, three and two letters. None if a field isn't such a code; the second and the
    /// third may be empty.
    pub(crate) fn row(&self) -> Option<Row>
        ensures { result ≡ spec.row_of self.now.bibliographic.now self.now.terminologic.now self.now.two_letters.now }
    {
        let bibliographic = code_of(self.bibliographic, 3)?;
        let terminologic = code_or_none(self.terminologic, 3)?;
        let two_letters = code_or_none(self.two_letters, 2)?;
        Some(Row {
            bibliographic,
            terminologic,
            two_letters,
        })
    }
}

impl Row {
    /// The subtag that is registered for the codes of the row: the code of two letters, else the terminologic one, else
    /// the bibliographic one.
    pub(crate) fn registered(&self) -> Subtag
        ensures { result ≡ spec.registered_in self.now }
    {
        match (&self.two_letters, &self.terminologic) {
            (Some(code), _) => code.copy(),
            (None, Some(code)) => code.copy(),
            (None, None) => self.bibliographic.copy(),
        }
    }
}
