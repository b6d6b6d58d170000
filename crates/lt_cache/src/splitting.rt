//! Splitting a text before its first one-character subtag. Clauses say only what Some means: None is always safe, as
//! then the text is worked out like any other.
ghost use Rattle.std.specs.Prelude.{◌≡◌, ◌≤◌, ◌==◌, ◌++◌, ◌∷◌, [], ℕ, List, IfSome, IsTrue, true, not, length};
ghost use Rattle.std.specs.List.{list_all};
ghost use Rattle.lt_subtag.specs.Bytes.{folded};
ghost use Rattle.lt_subtag.specs.Shapes as shapes;
ghost use Rattle.lt_tag.specs.Lists.{list_of, longest_text};
ghost use Rattle.lt_cache.specs.Ends.{IsEnd, IsTransformed};
ghost use Rattle.lt_cache.specs.Appending.{FollowsSingleton, BeginsWithSeparator};

/// The most bytes of a front: a language of three letters, a script and a region of three digits.
pub(crate) const LONGEST_FRONT: usize = 12;

/// What is before the first one-character subtag, and the end that begins with the hyphen before it: `ar` and
/// `-u-nu-latn` of `ar-u-nu-latn`. None if no such subtag has 2 to `LONGEST_FRONT` bytes before its hyphen and another
/// subtag behind it, or if the text has more than `longest` bytes. `longest` must be at most the length of the longest
/// text that is read, 1,024 bytes.
#[inline(always)]
pub(crate) fn split_end(text: &[u8], longest: usize) -> Option<(&[u8], &[u8])>
    requires { longest ≤ longest_text }
    ensures whole { IfSome result (λ parts. parts.0.now ++ parts.1.now ≡ text.now) }
    ensures end { IfSome result (λ parts. IsEnd parts.1.now) }
    ensures short { IfSome result (λ parts. length text.now ≤ longest_text) }
{
    if text.len() > longest {
        return None;
    }
    // A front has two bytes at least, as a language has, and at most `LONGEST_FRONT`; two more follow the hyphen.
    for place in 2..text.len().saturating_sub(2).min(LONGEST_FRONT + 1) {
        if text[place] == b'-' && text[place + 2] == b'-' && text[place + 1] != b'-' {
            return Some(text.split_at(place));
        }
    }
    None
}

/// Whether two bytes are a separator of a field: a letter and a digit. False is always safe too.
#[inline(always)]
#[tactic(auto, using(crate::proofs::SourceLemmas::pair_separator))]
fn is_separator(letter: u8, digit: u8) -> bool
    ensures { IsTrue result → shapes.is_separator (folded (letter ∷ digit ∷ [])) ≡ true }
{
    letter.is_ascii_alphabetic() && digit.is_ascii_digit()
}

/// What is before the first separator of a field that has a hyphen after it, and the rest from the hyphen before the
/// separator on: `it` and `-m0-names` of `it-m0-names`. None if there is no such separator with 2 to `LONGEST_FRONT` bytes
/// before its hyphen.
#[inline(always)]
fn split_fields(text: &[u8]) -> Option<(&[u8], &[u8])>
    ensures whole { IfSome result (λ parts. parts.0.now ++ parts.1.now ≡ text.now) }
    ensures fields { IfSome result (λ parts. BeginsWithSeparator parts.1.now) }
{
    // A source has two bytes at least, as a language has, and three more follow the hyphen.
    for at in 2..text.len().saturating_sub(3).min(LONGEST_FRONT + 1) {
        if text[at] == b'-' && text[at + 3] == b'-' && is_separator(text[at + 1], text[at + 2]) {
            return Some(text.split_at(at));
        }
    }
    None
}

/// Whether no piece between hyphens has just one character, as a singleton has.
#[inline(always)]
fn has_no_singleton(text: &[u8]) -> bool
    ensures { result ≡ list_all (λ (s : List ℕ). not (length s == 1)) (list_of text.now) }
{
    text.split(|byte| *byte == b'-')
        .all(|subtag| subtag.len() != 1)
}

/// What follows a singleton `t` and the hyphens around it: `it-m0-names` of `-t-it-m0-names`. None of any other text.
#[inline(always)]
fn after_singleton(end: &[u8]) -> Option<&[u8]>
    ensures { IfSome result (λ rest. FollowsSingleton rest.now end.now) }
{
    if end.len() > 3 && end[0] == b'-' && end[1].to_ascii_lowercase() == b't' && end[2] == b'-' {
        return Some(&end[3..]);
    }
    None
}

/// The source and the fields of a `t` extension that ends a text: `it` and `-m0-names` of `-t-it-m0-names`. It is not asked
/// whether the source is one. None if the text is no such extension, if [`split_fields`] finds no fields after 2 to
/// `LONGEST_FRONT` bytes, or if a one-character subtag follows. None is always safe: the end is then worked out like any
/// other.
#[inline(always)]
#[tactic(auto, using(crate::proofs::SourceLemmas::transformed))]
pub(crate) fn split_source(end: &[u8]) -> Option<(&[u8], &[u8])>
    ensures { IfSome result (λ parts. IsTransformed parts.0.now parts.1.now end.now) }
{
    let (source, fields) = split_fields(after_singleton(end)?)?;
    if has_no_singleton(&fields[1..]) {
        Some((source, fields))
    } else {
        None
    }
}
