//! `paql run` reads statements from standard input and answers them on standard output. `paql check` reads statements up to
//! a query, and then a certificate, and says whether it is valid.
#![tactic(auto)]

ghost use Rattle.std.specs.Prelude.{◌≡◌, ◌≢◌};
ghost use Rattle.std.specs.IoError.{error_kind};

mod top;

use pq_base::{OpenGate, ReadSource, WriteSink};
use std::io::ErrorKind;
use std::process::ExitCode;
use std::{env, io};
use thiserror::Error;
use top::Status;

/// Why the command line gives no words.
#[derive(Clone, Copy, Debug, PartialEq, Eq, Error)]
enum WordsFault {
    #[error("a word is no text")]
    NotText,
    #[error("no memory is left")]
    Memory,
}

impl WordsFault {
    fn of(fault: io::Error) -> WordsFault
        ensures memory { error_kind fault ≡ ErrorKind.OutOfMemory → result ≡ WordsFault.Memory }
        ensures not_text { error_kind fault ≢ ErrorKind.OutOfMemory → result ≡ WordsFault.NotText }
    {
        match fault.kind() {
            ErrorKind::OutOfMemory => WordsFault::Memory,
            _ => WordsFault::NotText,
        }
    }

    fn status(self) -> Status
        ensures not_text { self ≡ WordsFault.NotText → result.code ≡ 2 }
        ensures memory { self ≡ WordsFault.Memory → result.code ≡ 5 }
    {
        match self {
            WordsFault::NotText => Status { code: 2 },
            WordsFault::Memory => Status { code: 5 },
        }
    }
}

// The command line's words after the program's name.
fn words(rt: &HostRuntime) -> Result<Vec<String>, WordsFault> {
    let mut words = Vec::new(rt.alloc());
    for word in env::args(rt).map_err(WordsFault::of)?.skip(1) {
        if words.push(word).is_err() {
            return Err(WordsFault::Memory);
        }
    }
    Ok(words)
}

fn main(rt: HostRuntime) -> ExitCode {
    let mut source = ReadSource::new(rt.stdin());
    let mut sink = WriteSink::new(rt.stdout());
    let status = match words(&rt) {
        Ok(words) => top::paql_top(&rt, rt.alloc(), &words, &mut source, &mut sink, &OpenGate),
        Err(fault) => fault.status(),
    };
    ExitCode::from(status.code)
}
