//! Worked bodies.
use crate::{LoadFault, Loaded, MAX_LOAD_BYTES, load};
use schema_types::{Column, Kind, Lit};
use sqlite_items::Items;
use std::alloc::{AllocError, Global};
use std::test::*;
use table_schema::Schema;

// The table of the columns v INT and s TEXT.
fn table(alloc: Global) -> Result<Option<Schema>, AllocError> {
    let mut columns = Items::new(alloc);
    let name = Items::from_slice(alloc, b"v")?;
    columns.push(Column {
        name,
        kind: Kind::Int,
    })?;
    let name = Items::from_slice(alloc, b"s")?;
    columns.push(Column {
        name,
        kind: Kind::Text,
    })?;
    Ok(Schema::new(columns).ok())
}

// Writes a literal and a bar.
fn tell_lit(alloc: Global, lit: &Lit, told: &mut Vec<u8>) -> Result<(), AllocError> {
    match lit {
        Lit::Num(number) => {
            let digits = number.mant.to_string(alloc)?;
            told.extend_from_slice(digits.as_bytes())?;
        }
        Lit::Text(text) => told.extend_from_slice(text.as_slice())?,
    }
    told.push(b'|')?;
    Ok(())
}

// Writes the rows.
fn tell_rows(alloc: Global, rows: &[Items<Lit>], told: &mut Vec<u8>) -> Result<(), AllocError> {
    for row in rows {
        for lit in row.as_slice() {
            tell_lit(alloc, lit, told)?;
        }
        told.push(b';')?;
    }
    Ok(())
}

// Writes the rows, or how many there are if that is more than so many, or the refusal.
fn told_of(alloc: Global, body: &[u8], most: u64) -> Result<Vec<u8>, AllocError> {
    let Some(schema) = table(alloc)? else {
        return Err(AllocError);
    };
    let mut told = Vec::new(alloc);
    match load(alloc, &schema, body, most) {
        Ok(Loaded::Rows(rows)) => tell_rows(alloc, rows.as_slice(), &mut told)?,
        Ok(Loaded::Many(count)) => {
            let text = format!(in alloc; "{count} rows")?;
            told.extend_from_slice(text.as_bytes())?;
        }
        Err(fault) => {
            let text = refusal(alloc, fault)?;
            told.extend_from_slice(text.as_bytes())?;
        }
    }
    Ok(told)
}

fn told(alloc: Global, body: &[u8]) -> Result<Vec<u8>, AllocError> {
    told_of(alloc, body, 1_000)
}

fn refusal(alloc: Global, fault: LoadFault) -> Result<String, AllocError> {
    match fault {
        LoadFault::LimitBytes => format!(in alloc; "limitbytes"),
        LoadFault::Header => format!(in alloc; "header"),
        LoadFault::BadRecord(record) => format!(in alloc; "badrecord {record}"),
        LoadFault::BadCell(record, column) => format!(in alloc; "badcell {record} {column}"),
        LoadFault::Memory(error) => Err(error),
    }
}

#[test]
fn rows(rt: HostRuntime) -> Result<(), Fail> {
    let cases: [(&[u8], &[u8]); 10] = [
        (b"v,s\n5,\"a,b\"\n6,x\n", b"5|a,b|;6|x|;"),
        (b"v,s\n", b""),
        (b"v,s", b""),
        (b"v,s\r\n+1.0,a\r\n-2,b", b"1|a|;-2|b|;"),
        (b"v,s\n1,\"a\n\"\"b\"\"\"\n", b"1|a\n\"b\"|;"),
        (b"\n\nv,s\n\n1,\n\n", b"1||;"),
        (b"v,s\n1, a \n", b"1| a |;"),
        (b"\xef\xbb\xbfv,s\n1,\xc3\xa9\n", b"1|\xc3\xa9|;"),
        (b"v,s\n1,\"a\n2,b\n", b"1|a\n2,b\n|;"),
        (b"v,s\n1000000000000,x", b"1000000000000|x|;"),
    ];
    for (body, want) in cases {
        assert_eq!(rt; told(rt.alloc(), body)?.as_slice(), want);
    }
    Ok(())
}

#[test]
fn refusals(rt: HostRuntime) -> Result<(), Fail> {
    let cases: [(&[u8], &[u8]); 14] = [
        (b"", b"header"),
        (b"\n\n", b"header"),
        (b"s,v\n", b"header"),
        (b"v\n", b"header"),
        (b"v,s,t\n", b"header"),
        (b"v,\xff\n1,x\n", b"header"),
        (b"\xef\xbb\xbf\xef\xbb\xbfv,s\n", b"header"),
        (b"v,s\n5", b"badrecord 1"),
        (b"v,s\n1,a\nx,b,c\n", b"badrecord 2"),
        (b"v,s\nx,\xff\n", b"badrecord 1"),
        (b"v,s\n1,a\n,b\n", b"badcell 2 0"),
        (b"v,s\n1.5,a\n2\n", b"badcell 1 0"),
        (b"v,s\n1000000000001,a\n", b"badcell 1 0"),
        (b"v,s\n 1,a\n", b"badcell 1 0"),
    ];
    for (body, want) in cases {
        assert_eq!(rt; told(rt.alloc(), body)?.as_slice(), want);
    }
    Ok(())
}

#[test]
fn more_rows(rt: HostRuntime) -> Result<(), Fail> {
    let cases: [(u64, &[u8], &[u8]); 6] = [
        (2, b"v,s\n1,a\n2,b\n", b"1|a|;2|b|;"),
        (2, b"v,s\n1,a\n2,b\n3,c\n", b"3 rows"),
        (2, b"v,s\n1,a\n2,b\n3,c\n4,d\n5,e\n", b"5 rows"),
        (0, b"v,s\n", b""),
        (0, b"v,s\n1,a\n", b"1 rows"),
        (2, b"v,s\n1,a\n2,b\n3,c\n4,d\nx,e\n6\n", b"badcell 5 0"),
    ];
    for (most, body, want) in cases {
        assert_eq!(rt; told_of(rt.alloc(), body, most)?.as_slice(), want);
    }
    Ok(())
}

// One row, whose text has so many bytes.
fn row_with_text(alloc: Global, len: usize) -> Result<Vec<u8>, AllocError> {
    let mut body = Vec::from_slice(alloc, b"v,s\n1,")?;
    body.extend_from_slice(&vec![in alloc; b'x'; len]?)?;
    Ok(body)
}

#[test]
fn sizes(rt: HostRuntime) -> Result<(), Fail> {
    let alloc = rt.alloc();
    let body = row_with_text(alloc, 255)?;
    assert_eq!(rt; told(alloc, &body)?.len(), 259);
    let body = row_with_text(alloc, 256)?;
    assert_eq!(rt; told(alloc, &body)?.as_slice(), b"badcell 1 1".as_slice());
    let body = vec![in alloc; b'\n'; MAX_LOAD_BYTES]?;
    assert_eq!(rt; told(alloc, &body)?.as_slice(), b"header".as_slice());
    let body = vec![in alloc; b'\n'; MAX_LOAD_BYTES + 1]?;
    assert_eq!(rt; told(alloc, &body)?.as_slice(), b"limitbytes".as_slice());
    Ok(())
}
