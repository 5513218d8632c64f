//! What the text of a frame is, by the parser.
ghost use Rattle.std.specs.Prelude.{IfOk};
ghost use Rattle.paql_engine.specs.Texts.{IsText};

use paql_engine::Text;
use paql_parser::{ParseFault, parse};
use session_proto::refusals::TextFault;
use std::alloc::{AllocError, Global};

/// What the text of a frame is.
pub(crate) fn read_text(alloc: Global, text: &[u8]) -> Result<Text, AllocError>
    ensures { IfOk result (λ found. IsText text.now found) }
{
    match parse(alloc, text) {
        Ok(Some(statement)) => Ok(Text::Statement(statement)),
        Ok(None) => Ok(Text::Blank),
        Err(ParseFault::Lex(at)) => Ok(Text::Faulty(TextFault::Lex, at)),
        Err(ParseFault::Syntax(at)) => Ok(Text::Faulty(TextFault::Syntax, at)),
        Err(ParseFault::Deep(at)) => Ok(Text::Faulty(TextFault::Deep, at)),
        Err(ParseFault::Memory) => Err(AllocError),
    }
}
