//! Headers, among them the examples of RFC 9110, and what a call does where a growth of memory is refused.
mod faults;
mod growths;
mod headers;

use lt_range::{AcceptFault, AcceptFaultKind, AcceptLanguage};
use lt_testing::retried;
use std::alloc::Global;

/// What a header says.
fn accept_of(alloc: Global, text: &str) -> Result<AcceptLanguage<'_>, AcceptFault> {
    retried!(
        AcceptLanguage::read(alloc, text.as_bytes()),
        fault if fault.kind == AcceptFaultKind::OutOfMemory
    )
}
