//! The records of a body, one by one.
ghost use Rattle.std.specs.Prelude.{◌≡◌, ◌↔◌, ℕ, None, Some, List, IsTrue};
ghost use Rattle.csv.specs.Records.{field_at, fields_of};
ghost use Rattle.csv.specs.Reading.{error_kind};
ghost use Rattle.csv_load.specs.Loading.{names_of, records_of};
ghost use Rattle.csv_load.specs.Between.{GivesFirst, GivesNext, IsBetween, next_after};

use csv::{ByteRecord, Error, ErrorKind, Reader, ReaderBuilder, StringRecord};
use schema_types::Column;
use std::alloc::Global;

/// What comes of reading a record.
#[derive(Clone, Copy, Debug, PartialEq, Eq)]
pub(crate) enum Next {
    /// A record was read, which is whole.
    Fields,
    /// There is no more.
    End,
    /// The next record has another number of fields, or one that isn't UTF-8.
    Bad,
    /// Out of memory.
    Memory,
}

/// A reader of all records of a body.
pub(crate) fn reader_of<'a>(alloc: Global, body: &'a [u8]) -> Reader<&'a [u8]>
    ensures { IsBetween result None (records_of body.now) }
{
    ReaderBuilder::new()
        .has_headers(false)
        .from_reader(alloc, body)
}

/// Reads the first record, as bytes.
pub(crate) fn read_first<'a>(reader: &mut Reader<&'a [u8]>, fields: &mut ByteRecord) -> Next
    ensures { (rest : List (List (List ℕ))) → IsBetween reader.old None rest
        → GivesFirst rest (fields_of fields.new) reader.new result }
{
    match reader.read_byte_record(fields) {
        Ok(true) => Next::Fields,
        Ok(false) => Next::End,
        Err(error) => next_after(error),
    }
}

/// Reads a record after the first, as texts.
pub(crate) fn read_next<'a>(reader: &mut Reader<&'a [u8]>, fields: &mut StringRecord) -> Next
    ensures { (count : ℕ) (rest : List (List (List ℕ))) → IsBetween reader.old (Some count) rest
        → GivesNext count rest (fields_of fields.new) reader.new result }
{
    match reader.read_record(fields) {
        Ok(true) => Next::Fields,
        Ok(false) => Next::End,
        Err(error) => next_after(error),
    }
}

/// What an error tells of the next record. A slice is read without faults, so only memory is left
/// if the error isn't one of the record.
fn next_after(error: Error) -> Next
    ensures { result ≡ next_after (error_kind error) }
{
    match error.kind() {
        ErrorKind::UnequalLengths { .. } | ErrorKind::Utf8 { .. } => Next::Bad,
        _ => Next::Memory,
    }
}

/// Whether the record lists the names of the columns.
pub(crate) fn is_header(columns: &[Column], fields: &ByteRecord) -> bool
    ensures { IsTrue result ↔ (fields_of fields.now ≡ names_of columns.now) }
{
    if fields.len() != columns.len() {
        return false;
    }
    for (place, column) in columns.iter().enumerate() {
        if !is_field(fields, place, column.name.as_slice()) {
            return false;
        }
    }
    true
}

/// Whether the record has this field at the place.
fn is_field(fields: &ByteRecord, place: usize, name: &[u8]) -> bool
    ensures { IsTrue result ↔ (field_at (fields_of fields.now) place ≡ Some name.now) }
{
    match fields.get(place) {
        Some(field) => field == name,
        None => false,
    }
}
