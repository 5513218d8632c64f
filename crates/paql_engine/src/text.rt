//! What the text of a frame is.
ghost use Rattle.std.specs.Prelude.{◌≡◌, ◌≢◌, ℕ, List, MatchOption};
ghost use Rattle.paql_ast.specs.declared.statements.Statement.TheVariants.{Load};

use paql_ast::statements::Statement;
use session_proto::refusals::TextFault;

/// What a text is.
#[derive(Drop)]
pub enum Text {
    Statement(Statement),
    /// No statement, with the place of the fault, counted from the text's first byte.
    Faulty(TextFault, usize),
    /// It has no token.
    Blank,
}

/// How many bytes of a body follow a statement, if it has one.
pub(crate) fn body_of(statement: &Statement) -> Option<u64>
    ensures { MatchOption result ((table : List ℕ) (count : ℕ) → statement.now ≢ Load table count)
        (λ count. (table : List ℕ) × (statement.now ≡ Load table count)) }
{
    match statement {
        Statement::Load { bytes, .. } => Some(*bytes),
        _ => None,
    }
}
