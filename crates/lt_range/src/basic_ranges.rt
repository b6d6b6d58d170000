//! Basic language ranges, which a header has: `*`, or a range without a `*`.
ghost use Rattle.std.specs.Prelude.{◌≡◌, None, OnOk, IfErr};
ghost use Rattle.lt_range.specs.Elements as spec;

use crate::accept_faults::AcceptFaultKind;
use crate::ranges::{LanguageRange, is_star};
use std::alloc::Global;

/// Whether a text has no `*`.
fn has_no_star(text: &[u8]) -> bool
    ensures { result ≡ spec.has_no_star text.now }
{
    text.iter().all(|byte| *byte != b'*')
}

/// Checks that a text is a basic language range (RFC 4647, 2.1). Refused with `BadRange` if it is no language range,
/// with `ExtendedRange` if it has a `*` beside other subtags, and with `OutOfMemory` where memory runs out.
pub(crate) fn check_range(alloc: Global, text: &[u8]) -> Result<(), AcceptFaultKind>
    ensures range { OnOk result (spec.range_fault text.now ≡ None) }
    ensures fault { IfErr result (spec.IsFoundFault (spec.range_fault text.now)) }
{
    // It is only asked whether the text is a range: an element keeps the text.
    let _range = LanguageRange::read(alloc, text)?;
    if !is_star(text) && !has_no_star(text) {
        return Err(AcceptFaultKind::ExtendedRange);
    }
    Ok(())
}
