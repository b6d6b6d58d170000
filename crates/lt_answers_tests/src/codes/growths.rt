//! What a call does where a growth of memory is refused.
use lt_codes::{CodeTable, TableFault, TableFaultKind};
use lt_jar::Device;
use lt_testing::{again, retried};
use std::alloc::{AllocError, Global};

/// Rows as the Library of Congress publishes them.
const ROWS: &str = "aar||aa|Afar|afar
afa|||Afro-Asiatic languages|afro-asiatiques, langues
chi|zho|zh|Chinese|chinois
fil|||Filipino; Pilipino|filipino; pilipino
fre|fra|fr|French|français
ger|deu|de|German|allemand
qaa-qtz|||Reserved for local use|réservée à l'usage local
";

/// What is put in the place of a text by a table, or nothing.
fn replaced_once(alloc: Global, table: &CodeTable, text: &[u8]) -> Result<Vec<u8>, AllocError> {
    let mut buffer = Vec::new(alloc);
    let _ = table.replace(text, &mut buffer)?;
    Ok(buffer)
}

/// Whether a table puts another text in the place of one.
fn replaces(alloc: Global, table: &CodeTable, text: &[u8], other: &[u8]) -> bool {
    matches!(again!(replaced_once(alloc, table, text)), Ok(found) if found.as_slice() == other)
}

/// Whether a table was read, and has the codes of the rows.
fn has_codes(alloc: Global, table: &Result<CodeTable, TableFault>) -> bool {
    match table {
        Ok(table) => replaces(alloc, table, b"ger-AT", b"de-AT"),
        Err(_) => false,
    }
}

#[test]
fn a_table_is_read(rt: HostRuntime) {
    let table = retried!(
        CodeTable::from_bytes(rt.alloc(), ROWS.as_bytes()),
        fault if fault.kind == TableFaultKind::OutOfMemory
    );
    assert!(rt; has_codes(rt.alloc(), &table));
}

/// The table that a reader gives.
fn read(alloc: Global) -> Result<CodeTable, TableFault> {
    CodeTable::read(alloc, &mut Device::new(ROWS.as_bytes()))
}

#[test]
fn a_table_is_read_from_a_reader(rt: HostRuntime) {
    let table = retried!(read(rt.alloc()), fault if fault.kind == TableFaultKind::OutOfMemory);
    assert!(rt; has_codes(rt.alloc(), &table));
}
