//! The rows of a tag as JSON (RFC 8259).
ghost use Rattle.std.specs.Prelude.{◌≡◌, ◌++◌, ◌∷◌, OnOk, codes};
ghost use Rattle.lt_show.specs.Values.{array, member, member_text};
ghost use Rattle.lt_show.specs.Fields.{fields_listed, shown_fields};
ghost use Rattle.lt_show.specs.Json.{field_value, listing_name, record_value, row_end, row_front, row_value, rows_value};

use crate::fields::{fields_of, is_shown};
use crate::listings::Listing;
use crate::members::{append_first_name, append_first_string, append_name, append_next_string};
use crate::rows::{Row, cut, rows_of};
use crate::values::{append_comma, append_null, append_number};
use itoa::Buffer;
use lt_jar::{JarField, Record};
use lt_registry::Lookup;
use lt_tag::{OutOfMemory, Tag, write_tag};
use std::alloc::{AllocError, Global};

/// Appends a field of a record as an object of its name and its body.
#[tactic(auto, using(crate::proofs::ChainLemmas::two_object), unfolding(crate::specs::Json::field_value))]
fn append_field(objects: &mut Vec<u8>, field: &JarField) -> Result<(), AllocError>
    ensures { OnOk result (objects.new.items ≡ objects.old.items ++ field_value field.now) }
{
    append_first_string(objects, b"name", field.name().as_bytes())?;
    append_next_string(objects, b"body", field.body().as_bytes())?;
    objects.push(b'}')?;
    Ok(())
}

/// Appends the array of those fields of a record that are shown.
#[tactic(auto, using(crate::proofs::ValueLemmas::commaed_more))]
fn append_fields(objects: &mut Vec<u8>, fields: &[JarField]) -> Result<(), AllocError>
    ensures { OnOk result (objects.new.items ≡ objects.old.items ++ array field_value (shown_fields fields.now)) }
{
    objects.push(b'[')?;
    let mut count = 0;
    for field in fields {
        if is_shown(field.name()) {
            append_comma(objects, count)?;
            append_field(objects, field)?;
            count += 1;
        }
    }
    objects.push(b']')?;
    Ok(())
}

/// Appends a comma (44) and the member `fields`: the array of the shown fields of the record that is listed, which is
/// empty if there is none. The records are those of the registry's file.
fn append_listed(
    objects: &mut Vec<u8>,
    records: &[Record],
    listing: Listing,
) -> Result<(), AllocError>
    ensures { OnOk result (objects.new.items ≡ objects.old.items ++ 44 ∷ member_text (member (codes "fields") (array field_value (fields_listed records.now listing)))) }
{
    append_name(objects, b"fields")?;
    match listing {
        Listing::Record(number) => append_fields(objects, fields_of(records, number)),
        _ => objects.extend_from_slice(b"[]"),
    }
}

/// The name of a listing, as it is printed.
fn listing_name(listing: Listing) -> &'static str
    ensures { result.now ≡ listing_name listing }
{
    match listing {
        Listing::Unlisted => "Unlisted",
        Listing::Unregistered => "Unregistered",
        Listing::Record(_) => "Record",
    }
}

/// Appends a comma (44) and the member `record`: the number of the record that is listed, or null if there is none.
fn append_record(objects: &mut Vec<u8>, listing: Listing) -> Result<(), AllocError>
    ensures { OnOk result (objects.new.items ≡ objects.old.items ++ 44 ∷ member_text (member (codes "record") (record_value listing))) }
{
    append_name(objects, b"record")?;
    match listing {
        Listing::Record(number) => append_number(objects, number),
        _ => append_null(objects),
    }
}

/// Appends the beginning of a row's object: its place, the name of its kind and its text, which is cut out of `text`,
/// the text of the tag.
#[tactic(auto, using(crate::proofs::ChainLemmas::two_members), unfolding(crate::specs::Json::row_front))]
fn append_front(objects: &mut Vec<u8>, text: &[u8], row: &Row) -> Result<(), AllocError>
    ensures { OnOk result (objects.new.items ≡ objects.old.items ++ row_front text.now row.now) }
{
    append_first_name(objects, b"place")?;
    objects.extend_from_slice(Buffer::new().format(row.place).as_bytes())?;
    append_next_string(objects, b"kind", row.subject.name().as_bytes())?;
    append_next_string(objects, b"text", cut(text, row.start, row.length))
}

/// Appends the end of a row's object: what the registry has for it, the number of its record, and the shown fields of
/// the record. The records are those of the registry's file.
#[tactic(auto, using(crate::proofs::ChainLemmas::three_members), unfolding(crate::specs::Json::row_end))]
fn append_end(objects: &mut Vec<u8>, records: &[Record], listing: Listing) -> Result<(), AllocError>
    ensures { OnOk result (objects.new.items ≡ objects.old.items ++ row_end records.now listing) }
{
    append_next_string(objects, b"listing", listing_name(listing).as_bytes())?;
    append_record(objects, listing)?;
    append_listed(objects, records, listing)?;
    objects.push(b'}')?;
    Ok(())
}

/// Appends the object of a row, whose text is cut out of `text`, the text of the tag. The records are those of the
/// registry's file.
fn append_row(
    objects: &mut Vec<u8>,
    text: &[u8],
    records: &[Record],
    row: &Row,
) -> Result<(), AllocError>
    ensures { OnOk result (objects.new.items ≡ objects.old.items ++ row_value text.now records.now row.now) }
{
    append_front(objects, text, row)?;
    append_end(objects, records, row.listing)?;
    Ok(())
}

/// Appends the array of rows, whose texts are cut out of `text`, the text of the tag. The records are those of the
/// registry's file.
#[tactic(auto, using(crate::proofs::ValueLemmas::commaed_more))]
fn append_each(
    objects: &mut Vec<u8>,
    text: &[u8],
    records: &[Record],
    rows: &[Row],
) -> Result<(), AllocError>
    ensures { OnOk result (objects.new.items ≡ objects.old.items ++ array (row_value text.now records.now) rows.now) }
{
    objects.push(b'[')?;
    for (index, row) in rows.iter().enumerate() {
        append_comma(objects, index)?;
        append_row(objects, text, records, row)?;
    }
    objects.push(b']')?;
    Ok(())
}

/// Appends the [`rows_of`] a tag as an array of JSON. Each row is an object with the members `place`, `kind`, `text`,
/// `listing` (`Record`, `Unregistered` or `Unlisted`), `record` (its number, or null) and `fields`. The fields are an array
/// of objects with a `name` and a `body`: those fields of the record that are shown. The records are those of the registry's
/// file. The only refusal is running out of memory, after which a part of it may have been appended.
pub fn append_rows<L: Lookup>(
    objects: &mut Vec<u8>,
    alloc: Global,
    table: &L,
    records: &[Record],
    tag: &Tag,
) -> Result<(), OutOfMemory>
    ensures { OnOk result (objects.new.items ≡ objects.old.items ++ rows_value (L.listed table.now) records.now tag.now) }
{
    let text = write_tag(alloc, tag)?;
    let rows = rows_of(alloc, table, tag)?;
    append_each(objects, &text, records, &rows)?;
    Ok(())
}
