//! The laws of canonical texts. Each has an empty body: its clause is the law.
ghost use Rattle.paql_printer.specs.Canonical.{StatementsAreCanonical};
ghost use Rattle.paql_printer.specs.Texts.{CanonicalIsOne, CanonicalIsRead};

/// The lexemes that are printed for a statement's tree are a text of it, with no more depth than it
/// has.
pub fn statements_are_canonical()
    ensures { StatementsAreCanonical }
{}

/// The canonical text of a text's statement is a text of the same statement, and of no other.
pub fn canonical_is_read()
    ensures { CanonicalIsRead }
{}

/// Different statements have different canonical texts, so the canonical text of a statement can
/// stand for it.
pub fn canonical_is_one()
    ensures { CanonicalIsOne }
{}
