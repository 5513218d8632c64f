//! A version of the tables.
ghost use Rattle.std.specs.Prelude.{◌≡◌, IfOk};
ghost use Rattle.std.specs.Option.{option_copied};
ghost use Rattle.snapshots.specs.States.{table_named, schemas_of, rows_named, row_named};
ghost use Rattle.snapshots.specs.States.{partition_named, row_with};

use crate::copies::{copied_schema, copied_text};
use crate::shared::Shared;
use crate::tables::{Partition, Table};
use sqlite_items::Items;
use std::alloc::{AllocError, Global};
use std::marker::Model;
use table_schema::{Row, Schemas};

/// The tables of a version, in the order in which they were made. Contracts see their list.
#[derive(Drop)]
struct Tables {
    /// Each by its name and its columns, as queries are bound.
    schemas: Shared<Schemas>,
    list: Shared<Items<Shared<Table>>>,
}

impl Model for Tables {
    ghost use Rattle.std.specs.Prelude.{◌≡◌, List};
    ghost use Rattle.snapshots.specs.declared.tables.Table.{Table};
    ghost use Rattle.snapshots.specs.States.{schemas_of};

    ghost Value = { List Table };

    ghost view = { λ t. t.list };

    ghost invariant = { λ t. t.schemas ≡ schemas_of t.list };
}

/// A version of the tables, which never changes. A copy shares all tables with it.
#[derive(Drop)]
pub struct Snapshot {
    /// The number of commits that led to it.
    pub version: u64,
    tables: Tables,
}

impl Snapshot {
    /// These tables as those of a version.
    pub fn new(
        alloc: Global,
        version: u64,
        tables: Items<Shared<Table>>,
    ) -> Result<Snapshot, AllocError>
        ensures { IfOk result
            (λ snapshot. snapshot ≡ record { version = version; tables = tables }) }
    {
        let schemas = Shared::new(alloc, copied_schemas(alloc, tables.as_slice())?)?;
        let list = Shared::new(alloc, tables)?;
        Ok(Snapshot {
            version,
            tables: Tables { schemas, list },
        })
    }

    /// The same version, of which nothing is copied.
    pub fn share(&self) -> Result<Snapshot, AllocError>
        ensures { IfOk result (λ copy. copy ≡ self.now) }
    {
        let schemas = self.tables.schemas.share()?;
        let list = self.tables.list.share()?;
        Ok(Snapshot {
            version: self.version,
            tables: Tables { schemas, list },
        })
    }

    /// The tables, in the order in which they were made.
    pub fn tables(&self) -> &[Shared<Table>]
        ensures { result.now ≡ self.now.tables }
    {
        self.tables.list.get().as_slice()
    }

    /// The tables with their columns, in the order in which they were made.
    pub fn schemas(&self) -> &Schemas
        ensures { result.now ≡ schemas_of self.now.tables }
    {
        self.tables.schemas.get()
    }

    /// The table of a name, or None if there is no such table.
    pub fn table(&self, name: &[u8]) -> Option<&Table>
        ensures { option_copied result ≡ table_named name.now self.now.tables }
    {
        let tables = self.tables();
        for table in tables {
            if table.get().name.as_slice() == name {
                return Some(table.get());
            }
        }
        None
    }

    /// The rows of a table after their ids, or None if there is no such table. It takes no memory.
    pub fn rows(&self, table: &[u8]) -> Option<&[(u64, Row)]>
        ensures { option_copied result ≡ rows_named table.now self.now.tables }
    {
        match self.table(table) {
            Some(table) => Some(table.entries.rows()),
            None => None,
        }
    }

    /// The row of an id, or None if there is no such table or row. It takes no memory.
    pub fn row(&self, table: &[u8], id: u64) -> Option<&Row>
        ensures { option_copied result ≡ row_named table.now id self.now.tables }
    {
        match self.table(table) {
            Some(table) => row_at(table.entries.rows(), id),
            None => None,
        }
    }

    /// How a table is cut into groups, or None if there is no such table or it isn't cut.
    pub fn partition(&self, table: &[u8]) -> Option<&Partition>
        ensures { option_copied result ≡ partition_named table.now self.now.tables }
    {
        match self.table(table) {
            Some(table) => table.partition.as_ref(),
            None => None,
        }
    }
}

/// Copies of the names and columns of tables.
fn copied_schemas(alloc: Global, tables: &[Shared<Table>]) -> Result<Schemas, AllocError>
    ensures { IfOk result (λ copy. copy ≡ schemas_of tables.now) }
{
    let mut copy = Vec::with_capacity(alloc, tables.len())?;
    for shared in tables {
        let table = shared.get();
        let name = copied_text(alloc, &table.name)?;
        copy.push((name, copied_schema(alloc, &table.columns)?))?;
    }
    Ok(Items::from_vec(copy))
}

/// The row of an id, if there is one.
fn row_at(rows: &[(u64, Row)], id: u64) -> Option<&Row>
    ensures { option_copied result ≡ row_with id rows.now }
{
    for row in rows {
        if row.0 == id {
            return Some(&row.1);
        }
    }
    None
}
