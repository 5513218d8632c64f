//! The rows of a table.
ghost use Rattle.std.specs.Prelude.{◌≡◌, ◌<◌, [], ◌∷◌, ◌++◌, length, IfOk, IfSome, OnOk, OnErr};
ghost use Rattle.std.specs.Vec.{vec_len, vec_capacity};
ghost use Rattle.snapshots.specs.Entries.{entry_rows, entry_versions};

use crate::copies::copied_row;
use std::alloc::{AllocError, Global};
use std::marker::Model;
use table_schema::Row;

/// The rows of a table after their ids, and for each the version of the commit that last wrote it.
/// Contracts see the list of the entries.
#[derive(Drop)]
pub struct Entries {
    rows: Vec<(u64, Row)>,
    versions: Vec<u64>,
}

impl Model for Entries {
    ghost use Rattle.std.specs.Prelude.{◌≡◌, List, length};
    ghost use Rattle.snapshots.specs.Entries.{Entry, entries_of};

    ghost Value = { List Entry };

    ghost view = { λ e. entries_of e.rows.items e.versions.items };

    ghost invariant = { λ e. length e.versions.items ≡ length e.rows.items };
}

impl Entries {
    /// No entry. It takes no memory.
    pub fn new(alloc: Global) -> Entries
        ensures { result ≡ [] }
    {
        Entries {
            rows: Vec::new(alloc),
            versions: Vec::new(alloc),
        }
    }

    /// The number of entries.
    pub fn len(&self) -> usize
        ensures { result ≡ length self.now }
    {
        self.rows.as_slice().len()
    }

    /// The rows after their ids.
    pub fn rows(&self) -> &[(u64, Row)]
        ensures { result.now ≡ entry_rows self.now }
    {
        self.rows.as_slice()
    }

    /// For each row the version of the commit that last wrote it.
    pub fn versions(&self) -> &[u64]
        ensures { result.now ≡ entry_versions self.now }
    {
        self.versions.as_slice()
    }

    /// Appends an entry. Out of memory changes nothing.
    pub fn push(&mut self, id: u64, row: Row, born: u64) -> Result<(), AllocError>
        ensures ok { OnOk result
            (self.new ≡ self.old ++ record { id = id; row = row; born = born } ∷ []) }
        ensures err { OnErr result (self.new ≡ self.old) }
    {
        if self.rows.reserve(1).is_err() || self.versions.reserve(1).is_err() {
            return Err(AllocError);
        }
        put(&mut self.rows, (id, row));
        put(&mut self.versions, born);
        Ok(())
    }

    /// A copy of the entries.
    pub fn copied(&self, alloc: Global) -> Result<Entries, AllocError>
        ensures { IfOk result (λ copy. copy ≡ self.now) }
    {
        let rows = copied_rows(alloc, self.rows.as_slice())?;
        let versions = Vec::from_slice(alloc, self.versions.as_slice())?;
        Ok(Entries { rows, versions })
    }
}

/// Copies of rows, after their ids.
fn copied_rows(alloc: Global, rows: &[(u64, Row)]) -> Result<Vec<(u64, Row)>, AllocError>
    ensures { IfOk result (λ copy. copy.items ≡ rows.now) }
{
    let mut copy = Vec::with_capacity(alloc, rows.len())?;
    for row in rows {
        copy.push((row.0, copied_row(alloc, &row.1)?))?;
    }
    Ok(copy)
}

/// Appends to a list that has room.
fn put<T: Drop>(list: &mut Vec<T>, item: T)
    requires { vec_len list.old < vec_capacity list.old }
    ensures { list.new.items ≡ list.old.items ++ item ∷ [] }
{
    let _ = list.push(item);
}
