//! The law of the grammar. It has an empty body: its clause is the law.
ghost use Rattle.paql_grammar.specs.Exactness.{StatementsAreRead};

/// Statements are read exactly: what the reading answers is the one statement, or the first fault
/// and its kind.
pub fn statements_are_read()
    ensures { StatementsAreRead }
{}
