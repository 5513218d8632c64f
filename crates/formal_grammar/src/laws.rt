//! The laws of the theory, for any type of tokens and values. Each has an empty body: its clause is
//! the law.
ghost use Rattle.formal_grammar.specs.Laws.{OneValue, JudgesWhole, ReadsAll, Composes};

/// No text of a language that has exact parsers is ambiguous.
pub fn one_value<T, A>()
    ensures { OneValue T A }
{}

/// What an exact parser says of all of the tokens: found, too deep, or no text of the language.
pub fn judges_whole<T, A>()
    ensures { JudgesWhole T A }
{}

/// What is spelled is found.
pub fn reads_all<T, A>()
    ensures { ReadsAll T A }
{}

/// The rule for a sequence: exact parsers compose.
pub fn composes<T, A, B>()
    ensures { Composes T A B }
{}
