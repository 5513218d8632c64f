//! Changes of tables, as statements write them.

use paql_ast::conditions::Pred;
use pq_base::Scaled;
use schema_types::{Column, Lit, Text};
use sqlite_items::Items;
use std::alloc::{AllocError, Global};
use std::marker::Model;

/// A change of a table, or of what is kept.
#[derive(Drop)]
pub enum Change {
    /// A new table with these columns.
    Create {
        table: Text,
        columns: Items<Column>,
    },
    /// New rows, with the next ids of the table.
    Insert {
        table: Text,
        rows: Items<Items<Lit>>,
    },
    /// New values in the rows that meet the condition, which keep their ids.
    Update {
        table: Text,
        sets: Items<(Text, Lit)>,
        filter: Option<Pred>,
    },
    /// The rows that meet the condition go.
    Delete {
        table: Text,
        filter: Option<Pred>,
    },
    /// From now on the table's groups are of these columns, with at most `size` rows and a radius.
    Partition {
        table: Text,
        columns: Items<Text>,
        size: u64,
        radius: Scaled,
    },
    /// The versions before this one are given up.
    Vacuum {
        version: u64,
    },
}

/// The changes that make one version, in their order. Contracts see the list of them.
#[derive(Drop)]
pub struct Commit {
    changes: Items<Change>,
}

impl Model for Commit {
    ghost use Rattle.std.specs.Prelude.{List};
    ghost use Rattle.std.specs.Coded.{codes};
    ghost use Rattle.std.specs.List.{AllByRecursion};
    ghost use Rattle.paql_ast.specs.contracts.conditions.Pred as pred;
    ghost use Rattle.version_store.specs.declared.changes.Change.{Change};
    ghost use Rattle.version_store.specs.Legal.{HasColumns};

    ghost Value = { List Change };

    ghost coded = { Prim.hlevel (codes, pred.the_row.coded) };

    ghost view = { λ c. c.changes };

    ghost invariant = { λ c. AllByRecursion HasColumns c.changes };
}

ghost use Rattle.std.specs.Prelude.{◌≡◌, ◌++◌, [], ◌∷◌, length, OnOk, OnErr};
ghost use Rattle.std.specs.List.{AllByRecursion};
ghost use Rattle.version_store.specs.Legal.{HasColumns};

impl Commit {
    /// No change. It takes no memory.
    pub fn new(alloc: Global) -> Commit
        ensures { result ≡ [] }
    {
        Commit {
            changes: Items::new(alloc),
        }
    }

    /// One change more. Out of memory changes nothing.
    pub fn push(&mut self, change: Change) -> Result<(), AllocError>
        requires { HasColumns change }
        ensures ok { OnOk result (self.new ≡ self.old ++ change ∷ []) }
        ensures err { OnErr result (self.new ≡ self.old) }
    {
        self.changes.push(change)
    }

    /// The changes.
    pub fn changes(&self) -> &[Change]
        ensures { result.now ≡ self.now }
    {
        self.changes.as_slice()
    }

    /// The changes, of which each new table has a column.
    pub(crate) fn legal(&self) -> &[Change]
        ensures value { result.now ≡ self.now }
        ensures columns { AllByRecursion HasColumns self.now }
    {
        self.changes.as_slice()
    }

    /// How many changes there are.
    pub fn len(&self) -> usize
        ensures { result ≡ length self.now }
    {
        self.changes.len()
    }
}
