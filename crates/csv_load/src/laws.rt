//! Laws of loading, for those who read the definitions.
ghost use Rattle.csv_load.specs.Laws.{GivenRowsPass};

/// Each row that a body gives is one that the table takes.
pub fn given_rows_pass()
    ensures { GivenRowsPass }
{}
