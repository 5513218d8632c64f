//! The check of a certificate: a script up to its first query, and then the certificate's text.
ghost use Rattle.std.specs.Prelude.{◌≡◌};
ghost use Rattle.pq_base.specs.Shown.{shown};
ghost use Rattle.version_store.specs.Vaults.{holding};
ghost use Rattle.session_server.specs.Checks.{ChecksWith, HasCheckCause, HasQuery, IsToldOrFault};
ghost use Rattle.session_server.specs.Checking.{Hears};

mod line;
mod reading_on;
mod script;

use crate::streams::{Put, put_all};
use line::{Line, judged};
use pq_base::{Sink, Source};
use reading_on::{collect, throw_away};
use script::{Script, Stop};
use std::alloc::{AllocError, Global};
use version_store::Vault;

/// How a check ends.
#[derive(Clone, Copy, Debug, PartialEq, Eq)]
pub enum CheckEnd {
    /// The certificate is valid, and the line says so.
    Valid,
    /// The line says that it is invalid.
    Invalid,
    /// The line says that a statement is refused, or that the text is no certificate's.
    Unjudged,
    /// The input ended before a query, and no statement was refused.
    Truncated,
    /// The source failed.
    ReadFault,
    /// The sink failed.
    WriteFault,
    /// Memory ran out.
    Memory,
    /// A statement is longer than any may be.
    TooLong,
    /// `MAX_BYTES` were taken.
    SessionLimit,
}

impl From<AllocError> for CheckEnd {
    ghost use Rattle.session_server.specs.declared.checking.CheckEnd.TheVariants.{Memory};

    ghost from_gives = { λ a e. e ≡ Memory };

    fn from(_error: AllocError) -> CheckEnd {
        CheckEnd::Memory
    }
}

/// Performs the statements of a source up to the first query over a vault, without replies. The rest
/// of the input, after one end of a line, is the certificate of an answer to that query, which isn't
/// solved. All input is read before the one line of the check is written. After a statement that is
/// refused the rest of the input is thrown away.
pub fn check_answer<V: Vault, S: Source, K: Sink>(
    alloc: Global,
    vault: &mut V,
    source: &mut S,
    sink: &mut K,
) -> CheckEnd
    ensures ends { ChecksWith (holding V.held V.own V.stake vault.old)
        (holding V.held V.own V.stake vault.new)
        (shown S.left S.faults source.old) (shown S.left S.faults source.new)
        (shown K.written K.faults sink.old) (shown K.written K.faults sink.new) result }
    ensures cause { HasCheckCause (shown S.left S.faults source.old) (shown S.left S.faults source.new)
        (shown K.written K.faults sink.old) (shown K.written K.faults sink.new) result }
    ensures complete { HasQuery (S.left source.old) → IsToldOrFault result }
{
    match hear(alloc, vault, source) {
        Ok(line) => match put_all(sink, &line.bytes) {
            Put::All => line.end,
            Put::Failed(_) => CheckEnd::WriteFault,
        },
        Err(end) => end,
    }
}

// Reads all of the input, and makes the line.
fn hear<V: Vault, S: Source>(alloc: Global, vault: &mut V, source: &mut S) -> Result<Line, CheckEnd>
    ensures { Hears (holding V.held V.own V.stake vault.old)
        (holding V.held V.own V.stake vault.new)
        (shown S.left S.faults source.old) (shown S.left S.faults source.new) result }
{
    let mut script = Script::new(alloc);
    match script.run(alloc, vault, source)? {
        Stop::Query(query) => {
            let first = Vec::from_slice(alloc, script.left())?;
            let after = collect(source, script.taken(), first)?;
            Ok(judged(alloc, vault, &query, &after)?)
        }
        Stop::Refused(line) => {
            throw_away(source, script.taken())?;
            Ok(Line {
                bytes: line,
                end: CheckEnd::Unjudged,
            })
        }
    }
}
