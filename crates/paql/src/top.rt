//! The top call: all that the program does.
ghost use Rattle.std.specs.Prelude.{◌≡◌};
ghost use Rattle.pq_base.specs.Shown.{shown};
ghost use Rattle.paql.specs.Status.{Does, code_of, check_code};

mod commands;

use commands::{Command, command_of};
use paql_engine::SessionEnd;
use pq_base::{Gate, Sink, Source};
use search_core::SoloSolver;
use session_server::{CheckEnd, check_answer, serve_session};
use std::alloc::Global;
use version_store::{SoloVault, VersionStore};

/// How the program ends.
#[derive(Clone, Copy, Debug, PartialEq, Eq)]
pub struct Status {
    /// 0 done, 1 input that ends inside a statement, 2 wrong words, 3 read fault, 4 write fault, 5 out of memory,
    /// 6 a statement that is too long, 7 too much input; and of a check 8 a certificate that is invalid, 9 a statement
    /// that is refused or a text that is no certificate's.
    pub code: u8,
}

/// Does all that the program does. For the one word `run` it answers the statements of the source, from no commit on.
/// For the one word `check` it performs those up to the first query, and checks the certificate after it. The runtime
/// and the gate are for workers, of which there are none yet.
pub fn paql_top<R, S: Source, K: Sink, G: Gate + Sync>(
    _rt: &R,
    alloc: Global,
    words: &[String],
    source: &mut S,
    sink: &mut K,
    _gate: &G,
) -> Status
    ensures does { Does words.now
        (shown S.left S.faults source.old) (shown S.left S.faults source.new)
        (shown K.written K.faults sink.old) (shown K.written K.faults sink.new) result.code }
    ensures unread { result.code ≡ 2 → source.new ≡ source.old }
    ensures unwritten { result.code ≡ 2 → sink.new ≡ sink.old }
{
    let Some(command) = command_of(words) else {
        return Status { code: 2 };
    };
    let Ok(store) = VersionStore::new(alloc) else {
        return Status { code: 5 };
    };
    let mut vault = SoloVault { store };
    match command {
        Command::Run => {
            let mut solver = SoloSolver;
            let end = serve_session(alloc, &mut vault, &mut solver, source, sink);
            Status { code: code_of(end) }
        }
        Command::Check => {
            let end = check_answer(alloc, &mut vault, source, sink);
            Status {
                code: check_code(end),
            }
        }
    }
}

// The status of a session's end.
fn code_of(end: SessionEnd) -> u8
    ensures { result ≡ code_of end }
{
    match end {
        SessionEnd::Done => 0,
        SessionEnd::Truncated => 1,
        SessionEnd::ReadFault => 3,
        SessionEnd::WriteFault => 4,
        SessionEnd::Memory => 5,
        SessionEnd::TooLong => 6,
        SessionEnd::SessionLimit => 7,
    }
}

// The status of a check's end.
fn check_code(end: CheckEnd) -> u8
    ensures { result ≡ check_code end }
{
    match end {
        CheckEnd::Valid => 0,
        CheckEnd::Truncated => 1,
        CheckEnd::ReadFault => 3,
        CheckEnd::WriteFault => 4,
        CheckEnd::Memory => 5,
        CheckEnd::TooLong => 6,
        CheckEnd::SessionLimit => 7,
        CheckEnd::Invalid => 8,
        CheckEnd::Unjudged => 9,
    }
}

#[cfg(test)]
mod certificate_tests;
#[cfg(test)]
mod check_tests;
#[cfg(test)]
mod load_tests;
#[cfg(test)]
mod session_tests;
#[cfg(test)]
mod tests;
#[cfg(test)]
mod vault_tests;
#[cfg(test)]
mod version_tests;
