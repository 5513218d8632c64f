//! What the program of a query means.
ghost use Rattle.std.specs.Prelude.{List};
ghost use Rattle.table_schema.specs.declared.cells.Cell.{Cell};
ghost use Rattle.package_program.specs.Meaning.{ProgramKeepsMeaning, RowBoundHolds, BoundQueryIsTranslated};

/// Points are feasible if their packages meet the query, and cost what these are worth.
pub fn program_keeps_meaning()
    ensures { ProgramKeepsMeaning (List Cell) }
{}

/// The row bound of a bound query bounds the counts of each package that meets it.
pub fn row_bound_holds()
    ensures { RowBoundHolds }
{}

/// Both of these, of a bound query and rows that it can be asked of.
pub fn bound_query_is_translated()
    ensures { BoundQueryIsTranslated }
{}
