//! The fields of a registry's records. `langtag show` prints the fields that are shown. Reading a registry keeps those,
//! and the fields by which its entries are made, so that all else takes no memory.
ghost use Rattle.std.specs.Prelude.{◌≡◌};
ghost use Rattle.lt_show.specs.Fields as spec;

use lt_jar::{JarField, Record};

/// The fields of the record with this number in a file. Records are counted from 1, with the header counted too. If
/// there is no such record, as for 0, there are no fields.
pub fn fields_of(records: &[Record], number: u32) -> &[JarField]
    ensures { result.now ≡ spec.fields_of records.now number }
{
    if number == 0 {
        return &[];
    }
    match records.get((number - 1) as usize) {
        Some(record) => record.fields(),
        None => &[],
    }
}

/// Whether a field tells what its record registers (RFC 5646, 3.1.3 to 3.1.8), or that it is the header: `Type`,
/// `Subtag`, `Tag`, `Preferred-Value`, `Prefix` and `File-Date` do, in either case of their letters.
fn is_of_entry(field: &JarField) -> bool
    ensures { result ≡ spec.is_of_entry field.now }
{
    let name = field.name();
    name.eq_ignore_ascii_case("Type")
        || name.eq_ignore_ascii_case("Subtag")
        || name.eq_ignore_ascii_case("Tag")
        || name.eq_ignore_ascii_case("Preferred-Value")
        || name.eq_ignore_ascii_case("Prefix")
        || name.eq_ignore_ascii_case("File-Date")
}

/// Whether a field is kept where a registry is read: it is shown, or it tells what its record registers. `Added` is not
/// kept.
pub(crate) fn is_kept(field: &JarField) -> bool
    ensures { result ≡ spec.is_kept field.now }
{
    is_shown(field.name()) || is_of_entry(field)
}

/// Whether the fields of a name are shown, in either case of its letters: `Description`, `Deprecated`,
/// `Preferred-Value`, `Prefix`, `Suppress-Script`, `Macrolanguage`, `Scope` and `Comments` are (RFC 5646, 3.1.2).
pub fn is_shown(name: &str) -> bool
    ensures { result ≡ spec.is_shown name.now }
{
    name.eq_ignore_ascii_case("Description")
        || name.eq_ignore_ascii_case("Deprecated")
        || name.eq_ignore_ascii_case("Preferred-Value")
        || name.eq_ignore_ascii_case("Prefix")
        || name.eq_ignore_ascii_case("Suppress-Script")
        || name.eq_ignore_ascii_case("Macrolanguage")
        || name.eq_ignore_ascii_case("Scope")
        || name.eq_ignore_ascii_case("Comments")
}
