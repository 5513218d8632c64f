//! Tables, as a version has them.

use crate::entries::Entries;
use pq_base::Scaled;
use schema_types::Text;
use sqlite_items::Items;
use table_schema::Schema;

/// How a table is cut into groups: by columns, which are places, with at most so many rows in a
/// group, and how far they may be from its middle.
#[derive(Drop)]
pub struct Partition {
    pub columns: Items<usize>,
    pub size: u64,
    pub radius: Scaled,
}

/// A table: its rows, and the id of the next row.
#[derive(Drop)]
pub struct Table {
    pub name: Text,
    pub columns: Schema,
    pub next: u64,
    pub entries: Entries,
    pub partition: Option<Partition>,
}
