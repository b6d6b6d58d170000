//! The entries that bytes have.
ghost use Rattle.std.specs.Prelude.{◌≡◌};
ghost use Rattle.bcp47.specs.Promise.{IsReadingOf};

use lt_jar::read_jar;
use lt_registry::{Registry, RegistryFault};
use std::alloc::Global;

/// The entries of the registry whose text the bytes are. Refused with the first fault of the text as record-jar (RFC
/// 5646, 3.1.1), or else with that of the first record that gives no entry; or where memory runs out.
pub(crate) fn read_entries(alloc: Global, bytes: &[u8]) -> Result<Registry, RegistryFault>
    ensures { IsReadingOf bytes.now result }
{
    let jar = read_jar(alloc, bytes)?;
    Ok(Registry::from_records(alloc, jar.records())?)
}
