//! What a condition or a sum can name.
ghost use Rattle.std.specs.Prelude.{◌≡◌, ◌≤◌, All, IfSome, IsTrue, slice_get, false};
ghost use Rattle.table_schema.specs.Columns.{has_legal_scale, scale_of};
ghost use Rattle.paql_bind.specs.Faults.{Refuses};
ghost use Rattle.paql_bind.specs.Names as names;
ghost use Rattle.paql_bind.specs.Scopes.{seen};

use crate::faults::{BindFault, no_column, wrong_kind};
use paql_ast::conditions::ColumnName;
use schema_types::{Column, Kind};
use std::alloc::Global;
use table_schema::Schema;

/// The columns that can be named, bare or with the one prefix.
#[derive(Drop)]
pub(crate) struct Scope<'a> {
    pub schema: &'a Schema,
    pub prefix: &'a [u8],
}

fn kind_at(columns: &[Column], place: usize) -> Option<Kind>
    requires { All (λ column. IsTrue (has_legal_scale column.kind)) columns.now }
    ensures value { result ≡ names.kind_of (slice_get columns.now place) }
    ensures legal { IfSome result (λ kind. IsTrue (has_legal_scale kind)) }
{
    match columns.get(place) {
        Some(column) => Some(column.kind),
        None => None,
    }
}

/// How many digits after the point the cells of a column keep.
fn scale_of(kind: Kind) -> u8
    requires { IsTrue (has_legal_scale kind) }
    ensures value { result ≡ scale_of kind }
    ensures small { result ≤ 6 }
{
    match kind {
        Kind::Dec(scale) => scale as u8,
        Kind::Int | Kind::Text => 0,
    }
}

impl Scope<'_> {
    /// The place of a column, from 0.
    fn place(&self, column: &ColumnName) -> Option<usize>
        ensures { result ≡ names.place_in (seen self.now) column.now }
    {
        match &column.prefix {
            Some(prefix) if prefix.as_slice() != self.prefix => None,
            _ => self.schema.place(column.name.as_slice()),
        }
    }

    fn kind(&self, column: &ColumnName) -> Option<Kind>
        ensures value { result ≡ names.kind_in (seen self.now) column.now }
        ensures legal { IfSome result (λ kind. IsTrue (has_legal_scale kind)) }
    {
        match self.place(column) {
            Some(place) => kind_at(self.schema.columns(), place),
            None => None,
        }
    }

    /// The place that a column is bound to: 0 if there is no such column, which is refused before.
    pub(crate) fn bound_place(&self, column: &ColumnName) -> usize
        ensures { result ≡ names.bound_place (seen self.now) column.now }
    {
        self.place(column).unwrap_or(0)
    }

    /// The scale that a column is bound to: 0 if there is no such column, which is refused before.
    pub(crate) fn bound_scale(&self, column: &ColumnName) -> u8
        ensures value { result ≡ names.bound_scale (seen self.now) column.now }
        ensures small { result ≤ 6 }
    {
        match self.kind(column) {
            Some(kind) => scale_of(kind),
            None => 0,
        }
    }

    pub(crate) fn is_text(&self, column: &ColumnName) -> bool
        ensures { result ≡ names.is_text_column (seen self.now) column.now }
    {
        matches!(self.kind(column), Some(Kind::Text))
    }

    /// Refuses a column that isn't there.
    pub(crate) fn check(&self, alloc: Global, column: &ColumnName) -> Result<(), BindFault>
        ensures { Refuses (names.column_faults (seen self.now) column.now) result }
    {
        if self.place(column).is_some() {
            return Ok(());
        }
        Err(no_column(alloc, column))
    }

    /// Refuses a column that is no text if a text is asked, and the other way round.
    pub(crate) fn check_kind(
        &self,
        alloc: Global,
        column: &ColumnName,
        textual: bool,
    ) -> Result<(), BindFault>
        ensures { Refuses (names.kind_faults (seen self.now) column.now textual) result }
    {
        if self.is_text(column) == textual {
            return Ok(());
        }
        Err(wrong_kind(alloc, column))
    }

    /// Refuses a column that can't be summed.
    pub(crate) fn check_summed(&self, alloc: Global, column: &ColumnName) -> Result<(), BindFault>
        ensures { Refuses (names.summed_faults (seen self.now) column.now) result }
    {
        self.check(alloc, column)?;
        self.check_kind(alloc, column, false)
    }
}
