//! Ends of texts that are a `u` extension of keywords in any order. A keyword is a key and its types, such as
//! `co-phonebk`. Clauses state only what Some and true mean: after None or false the end is read as part of a tag.
ghost use Rattle.std.specs.Prelude.{◌≡◌, ◌++◌, ◌∷◌, IfOk, IfSome, IsTrue, OnOk, flat_map};
ghost use Rattle.lt_tag.specs.Lists.{list_of};
ghost use Rattle.lt_tag.specs.Extensions as extensions;
ghost use Rattle.lt_tag.specs.Extensions.{IsUnicode, spell_keyword};
ghost use Rattle.lt_cache.specs.KeywordEnds.{AddsSubtag, IsKeywordEnd, hyphened, of_keywords};

use crate::ends::read_piece;
use lt_rewrite::settle_u;
use lt_subtag::Subtag;
use lt_tag::{Keyword, OutOfMemory, UParts, cut_piece};
use std::alloc::Global;

/// Whether a subtag has the form of a type, that is 3 to 8 letters or digits; no subtag has more.
#[tactic(auto, unfolding(lt_tag::specs::Extensions::is_long))]
fn is_long(subtag: &Subtag) -> bool
    ensures { result ≡ extensions.is_long subtag.now }
{
    3 <= subtag.bytes().len()
}

/// Adds a subtag to keywords: a key begins a new keyword, and a type goes to the last one. False if the subtag is
/// neither a key nor a type, or if it is a type and there is no keyword. After that, and if memory runs out, the
/// keywords are not to be used: the last one may be missing.
fn add_subtag(
    alloc: Global,
    keywords: &mut Vec<Keyword>,
    subtag: Subtag,
) -> Result<bool, OutOfMemory>
    ensures { IfOk result (λ added. IsTrue added → AddsSubtag subtag keywords.old.items keywords.new.items) }
{
    if subtag.is_key() {
        keywords.push(Keyword {
            key: subtag,
            types: Vec::new(alloc),
        })?;
        return Ok(true);
    }
    if !is_long(&subtag) {
        return Ok(false);
    }
    let Some(mut last) = keywords.pop() else {
        return Ok(false);
    };
    last.types.push(subtag)?;
    keywords.push(last)?;
    Ok(true)
}

/// The keywords that a text consists of, for example `co-phonebk-kn`, which has no `u` before them. None if it is no
/// list of keywords: a piece is no subtag, or neither a key nor a type, or the first one is no key. Refused only if
/// memory runs out.
fn read_keywords(alloc: Global, text: &[u8]) -> Result<Option<Vec<Keyword>>, OutOfMemory>
    ensures { IfOk result (λ found. IfSome found (λ keywords. IsUnicode (list_of text.now) (of_keywords keywords.items))) }
{
    let mut keywords = Vec::new(alloc);
    let mut rest = Some(text);
    while let Some(bytes) = rest {
        let (piece, after) = cut_piece(bytes);
        let Some(subtag) = read_piece(piece) else {
            return Ok(None);
        };
        if !add_subtag(alloc, &mut keywords, subtag)? {
            return Ok(None);
        }
        rest = after;
    }
    Ok(Some(keywords))
}

/// Appends a hyphen and a subtag.
#[inline(always)]
fn append_subtag(subtag: &Subtag, texts: &mut Vec<u8>) -> Result<(), OutOfMemory>
    ensures { OnOk result (texts.new.items ≡ texts.old.items ++ hyphened subtag.now) }
{
    texts.push(b'-')?;
    texts.extend_from_slice(subtag.bytes())?;
    Ok(())
}

/// Appends subtags, each after a hyphen.
fn append_subtags(subtags: &[Subtag], texts: &mut Vec<u8>) -> Result<(), OutOfMemory>
    ensures { OnOk result (texts.new.items ≡ texts.old.items ++ flat_map hyphened subtags.now) }
{
    for subtag in subtags {
        append_subtag(subtag, texts)?;
    }
    Ok(())
}

/// Appends the subtags of keywords, each after a hyphen.
fn append_keywords(keywords: &[Keyword], texts: &mut Vec<u8>) -> Result<(), OutOfMemory>
    ensures { OnOk result (texts.new.items ≡ texts.old.items ++ flat_map hyphened (flat_map spell_keyword keywords.now)) }
{
    for keyword in keywords {
        append_subtag(&keyword.key, texts)?;
        append_subtags(&keyword.types, texts)?;
    }
    Ok(())
}

/// The canonical form of an end that is a `u` extension of keywords: `-u-kn` for `-u-kn-true`. None for any other end,
/// for example one with attributes. Refused only if memory runs out.
pub(crate) fn keyword_end(alloc: Global, end: &[u8]) -> Result<Option<Vec<u8>>, OutOfMemory>
    ensures { IfOk result (λ found. IfSome found (λ text. IsKeywordEnd end.now text.items)) }
{
    let [b'-', b'u' | b'U', b'-', rest @ ..] = end else {
        return Ok(None);
    };
    let Some(keywords) = read_keywords(alloc, rest)? else {
        return Ok(None);
    };
    let mut parts = UParts {
        attributes: Vec::new(alloc),
        keywords,
    };
    settle_u(alloc, &mut parts)?;
    let mut text = Vec::with_capacity(alloc, end.len())?;
    text.extend_from_slice(b"-u")?;
    append_subtags(&parts.attributes, &mut text)?;
    append_keywords(&parts.keywords, &mut text)?;
    Ok(Some(text))
}
