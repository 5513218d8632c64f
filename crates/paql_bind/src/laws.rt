//! What binding promises to those who ask a bound query of rows.
ghost use Rattle.paql_bind.specs.Laws.{RowsCanBeAsked};

/// A bound query can be asked of each row that its table can have.
pub fn rows_can_be_asked()
    ensures { RowsCanBeAsked }
{}
