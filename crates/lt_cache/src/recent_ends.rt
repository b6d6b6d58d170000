//! Canonical texts of ends that were given lately. The table keeps no registry. So `AreEnds R table` says that what it
//! keeps is right by the entries `R`, and clauses promise that of it after a call if it was so before.
ghost use Rattle.std.specs.Prelude.{◌≡◌, ◌≤◌, ◌⊎◌, ◌++◌, ◌∷◌, List, IfOk, IfErr, IfSome, IsTrue, OnOk, OnErr, vec_len};
ghost use Rattle.lt_subtag.specs.Bytes.{folded};
ghost use Rattle.lt_registry.specs.Parts.{EntryParts};
ghost use Rattle.lt_canon.specs.Texts.{AppendsCanonicalText, IsTextRefusal};
ghost use Rattle.lt_cache.specs.Ends.{AreEnds, IsCanonicalCore, IsEnd, IsTransformed};
ghost use Rattle.lt_cache.specs.Appending.{AppendsEnd, AppendsKept, AppendsTransformed, EndStands, EndsText};

use crate::ends::is_settled_end;
use crate::recent::Recent;
use crate::splitting::{LONGEST_FRONT, split_end, split_source};
use crate::texts::{append_front, append_lower, append_other_text};
use lt_canon::{Checked, TextRefusal, append_looked_up_text};
use lt_registry::Lookup;
use lt_tag::OutOfMemory;
use std::alloc::Global;
use std::marker::Model;

/// The most bytes of a text whose end may be kept: the longest front, and an end of 32 bytes, as a table holds no
/// longer one.
const LONGEST: usize = LONGEST_FRONT + 32;

/// The ends of tags that were made canonical lately, each with the end of the canonical text. An end begins with the
/// hyphen before the first one-character subtag; where that is a `t` after which a source stays as it is, with the
/// hyphen before the first field.
#[derive(Drop)]
pub struct RecentEnds {
    texts: Recent,
}

impl Model for RecentEnds {
    ghost use Rattle.std.specs.Prelude.{List, Option};
    ghost use Rattle.lt_cache.specs.declared.recent.Kept.{Kept};

    ghost Value = { List (Option Kept) };

    ghost view = { λ ends. ends.texts };
}

/// Whether a text is a core whose subtags stay as they are. `texts` is used as scratch space, and left as it was. False
/// also if memory runs out.
#[inline(always)]
fn is_staying<L: Lookup>(checked: &Checked<L>, text: &[u8], texts: &mut Vec<u8>) -> bool
    ensures core { IsTrue result → IsCanonicalCore (L.listed checked.now) text.now }
    ensures kept { texts.new.items ≡ texts.old.items }
{
    let before = texts.len();
    match append_front(checked, text, texts) {
        Ok(stays) => {
            texts.truncate(before);
            stays
        }
        Err(_) => false,
    }
}

/// The source of a `t` extension and its fields, if `end` is one whose source stays as it is; else None. `texts` is
/// used as room for it, and left as it was.
#[inline(always)]
fn staying_source<'e, L: Lookup>(
    checked: &Checked<L>,
    end: &'e [u8],
    texts: &mut Vec<u8>,
) -> Option<(&'e [u8], &'e [u8])>
    ensures source { IfSome result (λ parts. IsCanonicalCore (L.listed checked.now) parts.0.now) }
    ensures end { IfSome result (λ parts. IsTransformed parts.0.now parts.1.now end.now) }
    ensures kept { texts.new.items ≡ texts.old.items }
{
    let (source, fields) = split_source(end)?;
    if is_staying(checked, source, texts) {
        Some((source, fields))
    } else {
        None
    }
}

/// Appends a `t` extension up to its fields: `-t-` (the bytes 45, 116, 45) and the source in lower case.
#[inline(always)]
fn append_source(source: &[u8], texts: &mut Vec<u8>) -> Result<(), OutOfMemory>
    ensures { OnOk result (texts.new.items ≡ texts.old.items ++ (45 ∷ 116 ∷ 45 ∷ folded source.now)) }
{
    texts.extend_from_slice(b"-t-")?;
    let start = texts.len();
    texts.extend_from_slice(source)?;
    texts[start..].make_ascii_lowercase();
    Ok(())
}

impl RecentEnds {
    /// No ends kept so far. If there is no memory for them later, none are kept.
    pub fn new(alloc: Global) -> RecentEnds
        // An empty table is right by any entries.
        ensures { (entries : List EntryParts) → AreEnds entries result }
    {
        RecentEnds {
            texts: Recent::new(alloc),
        }
    }

    /// Appends what follows a core with `end` in a canonical text, if that is kept. Tells whether it was; if not,
    /// nothing is appended.
    #[inline(always)]
    fn append_kept(&self, end: &[u8], texts: &mut Vec<u8>) -> Result<bool, OutOfMemory>
        ensures { IfOk result (AppendsKept self.now end.now texts.old.items texts.new.items) }
    {
        match self.texts.find(end, end.len()) {
            Some(found) => {
                found.answer.append_to(texts)?;
                Ok(true)
            }
            None => Ok(false),
        }
    }

    /// Appends the canonical `t` extension of a source that stays as it is, and of fields, if the table has the answer
    /// for these fields: for `IT` and `-m0-names` it appends `-t-it` and what is kept for `-m0-names`. Tells whether
    /// the table had it; if not, nothing is appended.
    #[inline(always)]
    fn append_transformed(
        &self,
        source: &[u8],
        fields: &[u8],
        texts: &mut Vec<u8>,
    ) -> Result<bool, OutOfMemory>
        ensures { IfOk result (AppendsTransformed self.now source.now fields.now texts.old.items texts.new.items) }
    {
        match self.texts.find(fields, fields.len()) {
            Some(found) => {
                append_source(source, texts)?;
                found.answer.append_to(texts)?;
                Ok(true)
            }
            None => Ok(false),
        }
    }

    /// Appends the canonical form of an end that is a `t` extension, if its source stays as it is, and what follows a source
    /// is kept for its fields. Tells whether it did; else it appends nothing.
    #[inline(always)]
    #[tactic(auto, using(crate::proofs::KeptEnds::transformed_appended))]
    fn append_by_fields<L: Lookup>(
        &self,
        checked: &Checked<L>,
        end: &[u8],
        texts: &mut Vec<u8>,
    ) -> Result<bool, OutOfMemory>
        ensures { IfOk result (AppendsEnd (L.listed checked.now) self.now end.now texts.old.items texts.new.items) }
    {
        match staying_source(checked, end, texts) {
            Some((source, fields)) => self.append_transformed(source, fields, texts),
            None => Ok(false),
        }
    }

    /// Appends the canonical form of an end, if it is kept for the end, or for its fields after a source that stays as
    /// it is. Tells whether it did; else it appends nothing. The end must begin with a hyphen, one other byte and a hyphen.
    #[inline(always)]
    #[tactic(auto, using(crate::proofs::KeptEnds::kept_appended_after))]
    fn append_end<L: Lookup>(
        &self,
        checked: &Checked<L>,
        end: &[u8],
        texts: &mut Vec<u8>,
    ) -> Result<bool, OutOfMemory>
        requires { IsEnd end.now }
        ensures { IfOk result (AppendsEnd (L.listed checked.now) self.now end.now texts.old.items texts.new.items) }
    {
        if self.append_by_fields(checked, end, texts)? {
            return Ok(true);
        }
        Ok(self.append_kept(end, texts)?)
    }

    /// Keeps what `texts` have from the place `from` on, for `end`. If that is a `t` extension whose source stays as it
    /// is, only what follows `-t-` (3 bytes) and the source is kept, and it is kept for the fields. What `texts` have
    /// from `from` on must be what follows a canonical core with this end in its canonical text. `texts` is left as it
    /// was.
    fn keep<L: Lookup>(
        &mut self,
        checked: &Checked<L>,
        end: &[u8],
        from: usize,
        texts: &mut Vec<u8>,
    )
        requires { EndStands (L.listed checked.now) end.now from texts.old.items }
        ensures ends { AreEnds (L.listed checked.now) self.old → AreEnds (L.listed checked.now) self.new }
        ensures kept { texts.new.items ≡ texts.old.items }
    {
        // Does nothing but tell the proof that the table passes the check.
        checked.table();
        match staying_source(checked, end, texts) {
            Some((source, fields)) => {
                self.texts
                    .put(fields, &texts[from + 3 + source.len()..], false)
            }
            None => self.texts.put(end, &texts[from..], false),
        }
    }

    /// Appends the canonical text of `text`, and keeps what follows the first `count` bytes of that for `end`. `text`
    /// must be a canonical core and then `end`, which begins with a hyphen, one other byte and a hyphen. `count` must
    /// be how many bytes that core has in conventional case. It is refused as `append_canonical_text` refuses.
    #[tactic(auto, using(crate::proofs::KeptEnds::end_stands))]
    fn append_new<L: Lookup>(
        &mut self,
        alloc: Global,
        checked: &Checked<L>,
        text: &[u8],
        end: &[u8],
        count: usize,
        texts: &mut Vec<u8>,
    ) -> Result<(), TextRefusal>
        requires { EndsText (L.listed checked.now) text.now end.now count }
        ensures appended { OnOk result (AppendsCanonicalText (L.listed checked.now) text.now texts.old.items texts.new.items) }
        ensures refusal { IfErr result (λ refusal. IsTextRefusal (L.listed checked.now) text.now refusal) }
        ensures kept { OnErr result (texts.new.items ≡ texts.old.items) }
        ensures ends { AreEnds (L.listed checked.now) self.old → AreEnds (L.listed checked.now) self.new }
    {
        let start = texts.len();
        // Does nothing but tell the proof that the table passes the check.
        checked.table();
        append_other_text(alloc, checked, text, texts)?;
        self.keep(checked, end, start + count, texts);
        Ok(())
    }

    /// Appends the canonical text of the tag that a text is read as, with the refusals of `append_canonical_text`. An
    /// end that was made canonical lately is not made so again, if a language is before it, alone or with a script, a
    /// region or both, and each of these stays as it is.
    pub fn append_canonical_text<L: Lookup>(
        &mut self,
        alloc: Global,
        checked: &Checked<L>,
        text: &[u8],
        texts: &mut Vec<u8>,
    ) -> Result<(), TextRefusal>
        ensures appended { OnOk result (AreEnds (L.listed checked.now) self.old → AppendsCanonicalText (L.listed checked.now) text.now texts.old.items texts.new.items) }
        // `texts` are never shortened (`grown`), nor changed by a refusal (`kept`) but that of memory, after which a
        // part of the answer may be there.
        ensures grown { OnOk result (vec_len texts.old ≤ vec_len texts.new) }
        ensures refusal { IfErr result (λ refusal. IsTextRefusal (L.listed checked.now) text.now refusal) }
        ensures kept { IfErr result (λ refusal. (refusal ≡ TextRefusal.OutOfMemory) ⊎ (texts.new.items ≡ texts.old.items)) }
        ensures ends { AreEnds (L.listed checked.now) self.old → AreEnds (L.listed checked.now) self.new }
    {
        let Some((front, end)) = split_end(text, LONGEST) else {
            return append_looked_up_text(alloc, checked, text, texts);
        };
        let start = texts.len();
        if !append_front(checked, front, texts)? {
            return append_looked_up_text(alloc, checked, text, texts);
        }
        if is_settled_end(end) {
            append_lower(end, texts)?;
            return Ok(());
        }
        let count = texts.len() - start;
        if self.append_end(checked, end, texts)? {
            self.texts.note_again();
            return Ok(());
        }
        texts.truncate(start);
        self.append_new(alloc, checked, text, end, count, texts)
    }
}
