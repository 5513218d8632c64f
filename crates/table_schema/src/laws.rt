//! Laws of schemas and rows, for those who read the definitions.
ghost use Rattle.table_schema.specs.Laws.{NoFaultIsSchema, OneUnits, GivenRowsFit};

/// Columns have no fault exactly if they are the columns of a table.
pub fn no_fault_is_schema()
    ensures { NoFaultIsSchema }
{}

/// A number gives one answer in units, the one of pq_base's definition.
pub fn one_units()
    ensures { OneUnits }
{}

/// A row that literals give fits the schema.
pub fn given_rows_fit()
    ensures { GivenRowsFit }
{}
