//! The rows of a body.
ghost use Rattle.std.specs.Prelude.{◌≡◌, ◌+◌, ◌++◌, [], ◌∷◌, ℕ, None, Some, IfOk, List, length};
ghost use Rattle.csv.specs.Records.{fields_of};
ghost use Rattle.schema_types.specs.declared.Lit.{Lit};
ghost use Rattle.csv_load.specs.Loading.{BodyGives, GivesLoaded, IsLoaded, IsWhole, OrMemory};
ghost use Rattle.csv_load.specs.Loading.{RecordGives, RecordsGive, TableGives};
ghost use Rattle.csv_load.specs.Between.{IsBetween, Takes};

use crate::fields::{RowRefusal, lits_of};
use crate::records::{Next, is_header, read_first, read_next, reader_of};
use csv::{ByteRecord, Reader, StringRecord};
use schema_types::Lit;
use sqlite_items::Items;
use std::alloc::{AllocError, Global};
use table_schema::Schema;
use thiserror::Error;

/// The most bytes of a body.
pub const MAX_LOAD_BYTES: usize = 16_777_216;

/// Why a body gives no rows. Records are numbered from 1 after the header, columns from 0.
#[derive(Debug, Drop, Error)]
pub enum LoadFault {
    /// The body is too long.
    #[error("the body is too long")]
    LimitBytes,
    /// The first record doesn't list the names of the columns in their order, or there is none.
    #[error("the first record isn't the list of the columns")]
    Header,
    /// This record has fewer or more fields than there are columns, or one that isn't UTF-8.
    #[error("record {0} hasn't one text for each column")]
    BadRecord(u64),
    /// The field of this record isn't a number that this column can have, or is a text too long.
    #[error("record {0} has no cell for column {1}")]
    BadCell(u64, usize),
    #[error("out of memory")]
    Memory(AllocError),
}

/// What a body gives.
#[derive(Debug, Drop)]
pub enum Loaded {
    /// Its rows.
    Rows(Items<Items<Lit>>),
    /// More rows than were to be kept: how many.
    Many(u64),
}

impl Loaded {
    // What is loaded with one more row, which has this number.
    fn with_row(self, row: Items<Lit>, number: u64, most: u64) -> Result<Loaded, AllocError>
        ensures { (rows : List (List Lit)) → IsLoaded most rows self → length rows + 1 ≡ number
            → IfOk result (IsLoaded most (rows ++ row ∷ [])) }
    {
        if number > most {
            return Ok(Loaded::Many(number));
        }
        match self {
            Loaded::Rows(mut rows) => {
                rows.push(row)?;
                Ok(Loaded::Rows(rows))
            }
            Loaded::Many(_) => Ok(Loaded::Many(number)),
        }
    }
}

/// The rows of literals that a body of CSV gives, or their number if there are more than `most`.
/// The first record lists the names of the columns, and the others are the rows. The first refusal
/// is answered, record by record and then column by column. A byte order mark at the beginning is
/// passed over.
pub fn load(alloc: Global, schema: &Schema, bytes: &[u8], most: u64) -> Result<Loaded, LoadFault>
    ensures { OrMemory (GivesLoaded most (BodyGives schema.now bytes.now)) result }
{
    if bytes.len() > MAX_LOAD_BYTES {
        return Err(LoadFault::LimitBytes);
    }
    let mut reader = reader_of(alloc, bytes);
    load_table(alloc, schema, &mut reader, most)
}

/// The rows after the header.
fn load_table<'a>(
    alloc: Global,
    schema: &Schema,
    reader: &mut Reader<&'a [u8]>,
    most: u64,
) -> Result<Loaded, LoadFault>
    ensures { (all : List (List (List ℕ))) → IsBetween reader.old None all
        → OrMemory (GivesLoaded most (TableGives schema.now all)) result }
{
    let mut header = ByteRecord::new(alloc);
    match read_first(reader, &mut header) {
        Next::Fields => load_under(alloc, schema, &header, reader, most),
        Next::Memory => Err(LoadFault::Memory(AllocError)),
        Next::End | Next::Bad => Err(LoadFault::Header),
    }
}

/// The rows after this first record.
fn load_under<'a>(
    alloc: Global,
    schema: &Schema,
    header: &ByteRecord,
    reader: &mut Reader<&'a [u8]>,
    most: u64,
) -> Result<Loaded, LoadFault>
    ensures { (all : List (List (List ℕ)))
        → Takes (length (fields_of header.now)) all (fields_of header.now) reader.old
        → OrMemory (GivesLoaded most (TableGives schema.now all)) result }
{
    if !is_header(schema.columns(), header) {
        return Err(LoadFault::Header);
    }
    load_rows(alloc, schema, reader, most)
}

/// The rows that are left.
fn load_rows<'a>(
    alloc: Global,
    schema: &Schema,
    reader: &mut Reader<&'a [u8]>,
    most: u64,
) -> Result<Loaded, LoadFault>
    ensures { (rest : List (List (List ℕ))) → IsBetween reader.old (Some (length schema.now)) rest
        → OrMemory (GivesLoaded most (RecordsGive schema.now 1 rest)) result }
{
    let mut fields = StringRecord::new(alloc);
    let mut loaded = Loaded::Rows(Items::new(alloc));
    for number in 1..u64::MAX {
        match read_next(reader, &mut fields) {
            Next::Fields => {}
            Next::End => return Ok(loaded),
            Next::Bad => return Err(LoadFault::BadRecord(number)),
            Next::Memory => return Err(LoadFault::Memory(AllocError)),
        }
        let row = row_of(alloc, schema, number, &fields)?;
        let Ok(more) = loaded.with_row(row, number, most) else {
            return Err(LoadFault::Memory(AllocError));
        };
        loaded = more;
    }
    Err(LoadFault::Memory(AllocError))
}

/// The row that a record gives.
fn row_of(
    alloc: Global,
    schema: &Schema,
    number: u64,
    fields: &StringRecord,
) -> Result<Items<Lit>, LoadFault>
    ensures { IsWhole (length schema.now) (fields_of fields.now)
        → OrMemory (RecordGives schema.now number (fields_of fields.now)) result }
{
    match lits_of(alloc, schema, fields) {
        Ok(row) => Ok(row),
        Err(RowRefusal::Bad(place)) => Err(LoadFault::BadCell(number, place)),
        Err(RowRefusal::Memory(error)) => Err(LoadFault::Memory(error)),
    }
}
