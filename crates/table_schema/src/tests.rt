//! Worked schemas and rows.
use crate::{
    Cell, CellFault, MAX_COLUMNS, MAX_TEXT_BYTES, RowFault, Schema, SchemaFault, Schemas,
    cell_fault, cell_of, check_row, row_fault, schema_fault, schema_named,
};
use pq_base::Scaled;
use schema_types::{Column, Kind, Lit};
use sqlite_items::Items;
use std::alloc::{AllocError, Global};
use std::test::*;

// Columns, each with a name of one byte.
fn columns_of(alloc: Global, columns: &[(u8, Kind)]) -> Result<Items<Column>, AllocError> {
    let mut list = Items::new(alloc);
    for (name, kind) in columns {
        let name = Items::from_slice(alloc, &[*name])?;
        list.push(Column { name, kind: *kind })?;
    }
    Ok(list)
}

// A schema of one column.
fn schema_of(alloc: Global, kind: Kind) -> Result<Option<Schema>, AllocError> {
    let mut columns = Items::new(alloc);
    let name = Items::from_slice(alloc, b"v")?;
    columns.push(Column { name, kind })?;
    Ok(Schema::new(columns).ok())
}

fn text_of(alloc: Global, len: usize) -> Result<Lit, AllocError> {
    Ok(Lit::Text(Items::from_vec(vec![in alloc; b'x'; len]?)))
}

#[test]
fn refuses_columns(rt: HostRuntime) -> Result<(), Fail> {
    let (int, text) = (Kind::Int, Kind::Text);
    let cases = [
        ([(b'a', int), (b'b', text)], None),
        ([(b'a', Kind::Dec(1)), (b'A', Kind::Dec(6))], None),
        (
            [(b'a', int), (b'b', Kind::Dec(0))],
            Some(SchemaFault::BadScale(1)),
        ),
        (
            [(b'a', Kind::Dec(7)), (b'a', int)],
            Some(SchemaFault::BadScale(0)),
        ),
        (
            [(b'a', int), (b'a', text)],
            Some(SchemaFault::DuplicateColumn(1)),
        ),
        (
            [(b'a', int), (b'a', Kind::Dec(9))],
            Some(SchemaFault::BadScale(1)),
        ),
    ];
    for (columns, want) in cases {
        let columns = columns_of(rt.alloc(), &columns)?;
        assert_eq!(rt; schema_fault(columns.as_slice()), want);
    }
    Ok(())
}

#[test]
fn counts_columns(rt: HostRuntime) -> Result<(), Fail> {
    let same = [(b'a', Kind::Int); MAX_COLUMNS + 1];
    let columns = columns_of(rt.alloc(), &same)?;
    assert_eq!(rt;
        schema_fault(columns.as_slice()),
        Some(SchemaFault::TooManyColumns(33))
    );
    let columns = columns_of(rt.alloc(), &same[1..])?;
    assert_eq!(rt;
        schema_fault(columns.as_slice()),
        Some(SchemaFault::DuplicateColumn(1))
    );
    Ok(())
}

#[test]
fn finds_names(rt: HostRuntime) -> Result<(), Fail> {
    let alloc = rt.alloc();
    let schema = schema_of(alloc, Kind::Dec(2))?.expect(&rt, "a schema");
    assert_eq!(rt; schema.place(b"v"), Some(0));
    assert_eq!(rt; schema.place(b"V"), None);
    let mut schemas: Schemas = Items::new(alloc);
    schemas.push((Items::from_slice(alloc, b"T")?, schema))?;
    let kind = schema_named(&schemas, b"T").map(|schema| schema.columns().len());
    assert_eq!(rt; kind, Some(1));
    assert!(rt; schema_named(&schemas, b"t").is_none());
    Ok(())
}

// What a number gives in a column, as its units or its fault.
fn units_of(
    alloc: Global,
    kind: Kind,
    number: Scaled,
) -> Result<Result<i64, CellFault>, AllocError> {
    let Some(schema) = schema_of(alloc, kind)? else {
        return Err(AllocError);
    };
    let column = &schema.columns()[0];
    match cell_of(column, Lit::Num(number)) {
        Ok(Cell::Num(units)) => Ok(Ok(units)),
        Ok(Cell::Text(_)) => Err(AllocError),
        Err(fault) => Ok(Err(fault)),
    }
}

#[test]
fn numbers_are_units(rt: HostRuntime) -> Result<(), Fail> {
    let most = Scaled::of(1_000_000_000_000, 0);
    let cases = [
        (Kind::Int, Scaled::of(5, 0), Ok(5)),
        (Kind::Int, Scaled::of(50, 1), Ok(5)),
        (Kind::Int, Scaled::of(15, 1), Err(CellFault::BadCell)),
        (Kind::Dec(1), Scaled::of(7, 1), Ok(7)),
        (Kind::Dec(6), Scaled::of(-2, 0), Ok(-2_000_000)),
        (Kind::Dec(1), Scaled::of(25, 2), Err(CellFault::BadCell)),
        (Kind::Int, most, Ok(1_000_000_000_000)),
        (
            Kind::Int,
            Scaled::of(-1_000_000_000_001, 0),
            Err(CellFault::OutOfRange),
        ),
        (Kind::Dec(1), most, Err(CellFault::OutOfRange)),
        (Kind::Text, Scaled::of(5, 0), Err(CellFault::BadCell)),
    ];
    for (kind, number, want) in cases {
        let units = units_of(rt.alloc(), kind, number)?;
        assert_eq!(rt; units, want);
    }
    Ok(())
}

#[test]
fn rows_are_checked(rt: HostRuntime) -> Result<(), Fail> {
    let alloc = rt.alloc();
    let schema = schema_of(alloc, Kind::Text)?.expect(&rt, "a schema");
    let row = check_row(alloc, &schema, &[text_of(alloc, MAX_TEXT_BYTES)?]);
    assert!(rt; matches!(&row, Ok(cells) if cells.len() == 1));
    let long = [text_of(alloc, MAX_TEXT_BYTES + 1)?];
    assert!(rt; matches!(row_fault(&schema, &long), Some(RowFault::TextTooLong(0))));
    assert!(rt;
        matches!(
            check_row(alloc, &schema, &long),
            Err(RowFault::TextTooLong(0))
        )
    );
    assert_eq!(rt;
        cell_fault(&schema.columns()[0], &long[0]),
        Some(CellFault::TextTooLong)
    );
    let two = [text_of(alloc, 1)?, text_of(alloc, 300)?];
    assert!(rt;
        matches!(
            row_fault(&schema, &two),
            Some(RowFault::Arity { have: 2, want: 1 })
        )
    );
    Ok(())
}
