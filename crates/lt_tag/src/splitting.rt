//! Splitting `u` and `t` extensions into their parts. A key begins each keyword, and a separator each field. Contracts
//! cut subtags at the first key or separator: `before` gives the subtags before it, and `onward` gives it and all that
//! follow.
ghost use Rattle.std.specs.Prelude.{◌≡◌, ◌≤◌, ◌++◌, ⊤, true, false, length, position, IfOk, IfErr, OnOk};
ghost use Rattle.std.specs.List.{list_all};
ghost use Rattle.lt_subtag.specs.Shapes.{is_key, is_separator};
ghost use Rattle.lt_tag.specs.Extensions.{unicode, transform, spell_u, spell_t, IsUnicode, IsTransform};
ghost use Rattle.lt_tag.specs.Extensions as extensions;
ghost use Rattle.lt_tag.specs.Splitting.{before, onward, keywords_of, fields_of, has_values, source_of_list};
ghost use Rattle.lt_tag.specs.Splitting as splitting;
ghost use Rattle.lt_tag.specs.Transform.{IsTransformFault, IsFieldFault, IsSourceFault, no_memory};
ghost use Rattle.lt_tag.specs.Lists.{longest_text};

use crate::copies::copy_subtags;
use crate::cores::Core;
use crate::extensions::Extension;
use crate::faults::{OutOfMemory, TransformFault};
use crate::parts::{Field, Keyword, TParts, UParts};
use lt_subtag::Subtag;
use std::alloc::{AllocFailed, Global};

/// The index of the first key, or None if there is none.
fn first_key(subtags: &[Subtag]) -> Option<usize>
    ensures { result ≡ position is_key subtags.now }
{
    subtags.iter().position(|subtag| subtag.is_key())
}

/// The index of the first separator of a field, or None if there is none.
fn first_separator(subtags: &[Subtag]) -> Option<usize>
    ensures { result ≡ position is_separator subtags.now }
{
    subtags.iter().position(|subtag| subtag.is_separator())
}

/// The subtags before the first key, and those from it on.
#[tactic(auto, using(crate::proofs::SplitLemmas::place_of, crate::proofs::SplitLemmas::before_is, crate::proofs::SplitLemmas::onward_is))]
fn before_key(subtags: &[Subtag]) -> (&[Subtag], &[Subtag])
    ensures front { result.0.now ≡ before is_key subtags.now }
    ensures rest { result.1.now ≡ onward is_key subtags.now }
{
    subtags.split_at(first_key(subtags).unwrap_or(subtags.len()))
}

/// The subtags before the first separator of a field, and those from it on.
#[tactic(auto, using(crate::proofs::SplitLemmas::place_of, crate::proofs::SplitLemmas::before_is, crate::proofs::SplitLemmas::onward_is))]
fn before_separator(subtags: &[Subtag]) -> (&[Subtag], &[Subtag])
    ensures front { result.0.now ≡ before is_separator subtags.now }
    ensures rest { result.1.now ≡ onward is_separator subtags.now }
{
    subtags.split_at(first_separator(subtags).unwrap_or(subtags.len()))
}

/// Whether a subtag has 3 to 8 letters or digits.
#[tactic(auto, unfolding(crate::specs::Extensions::is_long))]
fn is_long(subtag: &Subtag) -> bool
    ensures { result ≡ extensions.is_long subtag.now }
{
    3 <= subtag.bytes().len()
}

/// Whether each subtag has 3 to 8 letters or digits.
fn are_long(subtags: &[Subtag]) -> bool
    ensures { result ≡ list_all extensions.is_long subtags.now }
{
    subtags.iter().all(|subtag| is_long(subtag))
}

/// Whether subtags are the values of a field: there is at least one, and each has 3 to 8 letters or digits.
#[tactic(auto, using(crate::proofs::SplitLemmas::some_there))]
fn are_values(subtags: &[Subtag]) -> bool
    ensures { result ≡ splitting.are_values subtags.now }
{
    !subtags.is_empty() && are_long(subtags)
}

/// Adds copies of subtags at the end of a list. The only refusal is running out of memory.
pub(crate) fn append(list: &mut Vec<Subtag>, subtags: &[Subtag]) -> Result<(), OutOfMemory>
    ensures { OnOk result (list.new.items ≡ list.old.items ++ subtags.now) }
{
    for subtag in subtags {
        list.push(subtag.copy())?;
    }
    Ok(())
}

/// The keywords among the subtags of a `u` extension: each key, with the subtags up to the next key as its types.
/// Subtags before the first key are left out. The only refusal is running out of memory.
#[tactic(auto, using(crate::proofs::SplitLemmas::length_onward))]
fn read_keywords(alloc: Global, subtags: &[Subtag]) -> Result<Vec<Keyword>, OutOfMemory>
    ensures { IfOk result (λ keywords. keywords.items ≡ keywords_of subtags.now) }
{
    let mut keywords = Vec::new(alloc);
    let (_, mut rest) = before_key(subtags);
    while let Some((key, others)) = rest.split_first() {
        let (types, after) = before_key(others);
        keywords.push(Keyword {
            key: key.copy(),
            types: copy_subtags(alloc, types)?,
        })?;
        rest = after;
    }
    Ok(keywords)
}

/// The fields among the subtags of a `t` extension: each separator, with the subtags up to the next separator as its
/// values. Subtags before the first separator are left out. Refused with `BadTransform` if a field has no values, or a
/// value that doesn't have 3 to 8 letters or digits, and with `OutOfMemory` where memory runs out.
#[tactic(auto, using(crate::proofs::SplitLemmas::length_onward))]
fn read_fields(alloc: Global, subtags: &[Subtag]) -> Result<Vec<Field>, TransformFault>
    ensures fields { IfOk result (λ fields. fields.items ≡ fields_of subtags.now) }
    ensures values { IfOk result (λ fields. list_all has_values fields.items ≡ true) }
    ensures fault { IfErr result (λ fault. IsFieldFault fault subtags.now) }
{
    let mut fields = Vec::new(alloc);
    let (_, mut rest) = before_separator(subtags);
    while let Some((separator, others)) = rest.split_first() {
        let (values, after) = before_separator(others);
        if !are_values(values) {
            return Err(TransformFault::BadTransform);
        }
        fields.push(Field {
            separator: separator.copy(),
            values: copy_subtags(alloc, values)?,
        })?;
        rest = after;
    }
    Ok(fields)
}

/// The source that subtags spell; None if there is no subtag. There must be at most 1,024 subtags, as a core has no
/// more variants. Refused with `BadTransform` if they aren't those of a core, and with `OutOfMemory` where memory runs
/// out.
fn read_source(alloc: Global, subtags: &[Subtag]) -> Result<Option<Core>, TransformFault>
    requires { length subtags.now ≤ longest_text }
    ensures source { IfOk result (λ source. source_of_list subtags.now ≡ Some source) }
    ensures fault { IfErr result (λ fault. IsSourceFault fault subtags.now) }
{
    let Some((language, others)) = subtags.split_first() else {
        return Ok(None);
    };
    if !language.is_language() {
        return Err(TransformFault::BadTransform);
    }
    let mut core = Core::of_language(alloc, language.copy());
    for subtag in others {
        if !core.grow(subtag)? {
            return Err(TransformFault::BadTransform);
        }
    }
    Ok(Some(core))
}

/// The parts that spell a `u` extension (RFC 6067, 2.1), which must have the singleton `u`. There is one such value
/// for each `u` extension. Its keys are the subtags of two characters. Its attributes are the subtags before the
/// first key, and the types of a key are the subtags up to the next key. So `u-attr-co-trad` has the attribute `attr`
/// and the keyword `co-trad`. By `few` `join_u` takes these parts again. The only refusal is running out of memory.
pub fn split_u(alloc: Global, extension: &Extension) -> Result<UParts, OutOfMemory>
    requires { extension.now.singleton ≡ unicode }
    ensures parts { IfOk result (λ parts. IsUnicode extension.now.subtags parts) }
    ensures few { IfOk result (λ parts. length (spell_u parts) ≤ longest_text) }
{
    let subtags = extension.subtags();
    let (attributes, keywords) = before_key(subtags);
    Ok(UParts {
        attributes: copy_subtags(alloc, attributes)?,
        keywords: read_keywords(alloc, keywords)?,
    })
}

/// The parts that spell a `t` extension (RFC 6497, 2.2), which must have the singleton `t`: a source, fields, or a
/// source and fields after it. So `t-he-m0-true` has the source `he` and the field `m0-true`. A separator may occur
/// twice. There is at most one such value, which by `few` `join_t` takes again. If there is none, the extension is
/// refused with `BadTransform`, though its tag is well-formed. The other refusal is running out of memory.
#[tactic(auto, using(crate::proofs::PartsLemmas::length_before))]
pub fn split_t(alloc: Global, extension: &Extension) -> Result<TParts, TransformFault>
    requires { extension.now.singleton ≡ transform }
    ensures parts { IfOk result (λ parts. IsTransform extension.now.subtags parts) }
    ensures few { IfOk result (λ parts. length (spell_t parts) ≤ longest_text) }
    ensures fault { IfErr result (λ fault. IsTransformFault fault extension.now.subtags) }
{
    let subtags = extension.subtags();
    let (source, fields) = before_separator(subtags);
    Ok(TParts {
        source: read_source(alloc, source)?,
        fields: read_fields(alloc, fields)?,
    })
}

impl From<OutOfMemory> for TransformFault {
    ghost from_gives = { λ _ fault. fault ≡ no_memory };

    /// Running out of memory as a fault of a `t` extension.
    fn from(_error: OutOfMemory) -> TransformFault {
        TransformFault::OutOfMemory
    }
}

impl<T: Drop> From<AllocFailed<T>> for TransformFault {
    ghost from_gives = { λ _ fault. fault ≡ no_memory };

    /// Running out of memory as a fault of a `t` extension.
    fn from(_error: AllocFailed<T>) -> TransformFault {
        TransformFault::OutOfMemory
    }
}
