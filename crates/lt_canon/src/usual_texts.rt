//! Canonical texts of langtags whose subtags *stay* as they are: no look-up is needed for them.
ghost use Rattle.std.specs.Prelude.{◌≡◌, ◌↔◌, false, IsTrue, IfOk, OnErr};
ghost use Rattle.lt_check.specs.Staying.{IsStaying};
ghost use Rattle.lt_canon.specs.Texts.{AppendsCanonicalText};

use lt_check::Checked;
use lt_registry::Lookup;
use lt_tag::OutOfMemory;

/// Appends to `texts` the canonical text of `text`, as [`append_canonical_text`](crate::append_canonical_text) does, if
/// flags, one for each subtag, tell this text without a look-up in the registry. They do for a langtag of the usual
/// form each subtag of which stays as it is (RFC 5646, 4.5). The usual form is a language of 2 or 3 letters, alone or
/// with a script, a region or both. `zh-hant-tw` is such a text, and `iw` is none. True if a text was appended; for any
/// other text it appends nothing and gives false. Refused only where memory runs out, and then `texts` is as it was.
#[inline(always)]
pub fn append_usual_text<L: Lookup>(
    checked: &Checked<L>,
    text: &[u8],
    texts: &mut Vec<u8>,
) -> Result<bool, OutOfMemory>
    ensures exact { IfOk result (λ told. IsTrue told ↔ IsStaying (L.listed checked.now) text.now) }
    ensures appended { IfOk result (λ told. IsTrue told → AppendsCanonicalText (L.listed checked.now) text.now texts.old.items texts.new.items) }
    ensures unchanged { IfOk result (λ told. told ≡ false → texts.new.items ≡ texts.old.items) }
    ensures kept { OnErr result (texts.new.items ≡ texts.old.items) }
{
    let told = checked.usual().append_text(text, texts)?;
    Ok(told)
}
