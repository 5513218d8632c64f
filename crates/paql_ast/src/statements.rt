//! The trees of statements.

use crate::conditions::Pred;
use crate::queries::Query;
use pq_base::Scaled;
use schema_types::{Column, Lit, Text};
use sqlite_items::Items;

/// A statement. Lists have at least one item: the grammar makes no empty ones.
#[derive(Drop)]
pub enum Statement {
    /// `CREATE TABLE table (column, ..)`
    Create {
        table: Text,
        columns: Items<Column>,
    },
    /// `INSERT INTO table VALUES (literal, ..), ..`
    Insert {
        table: Text,
        rows: Items<Items<Lit>>,
    },
    /// `LOAD table BYTES bytes`
    Load {
        table: Text,
        bytes: u64,
    },
    /// `UPDATE table SET column = literal, .. WHERE filter`
    Update {
        table: Text,
        sets: Items<(Text, Lit)>,
        filter: Option<Pred>,
    },
    /// `DELETE FROM table WHERE filter`
    Delete {
        table: Text,
        filter: Option<Pred>,
    },
    /// `PARTITION table ON (column, ..) SIZE size RADIUS radius`
    Partition {
        table: Text,
        columns: Items<Text>,
        size: u64,
        radius: Scaled,
    },
    /// `VACUUM version`
    Vacuum {
        version: u64,
    },
    Begin,
    Commit,
    Rollback,
    Certificate,
    Query(Query),
}
