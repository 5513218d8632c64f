//! The bytes of a reply that are still to be written.
ghost use Rattle.std.specs.Prelude.{◌≡◌, ◌≤◌, [], drop, length};
ghost use Rattle.session_proto.specs.Refusals.{refusal_of, not_built, memory};
ghost use Rattle.session_proto.specs.Replies.{reply_text};
ghost use Rattle.paql_engine.specs.Owing.{line_of};

use session_proto::{memory_line, not_built_line};
use std::alloc::Global;
use std::marker::Model;

/// The line of a reply.
#[derive(Debug, Drop)]
enum Line {
    /// The bytes that were made for it.
    Made(Vec<u8>),
    /// The constant line of a statement that isn't performed yet.
    NotBuilt,
    /// The constant line of a statement for which memory ran out.
    Memory,
}

/// The bytes of a reply that are still to be written. Contracts see the list of them.
#[derive(Debug, Drop)]
pub(crate) struct Owed {
    line: Line,
    at: usize,
}

impl Model for Owed {
    ghost use Rattle.std.specs.Prelude.{◌≤◌, List, ℕ, drop, length};
    ghost use Rattle.paql_engine.specs.Owing.{line_of};

    ghost Value = { List ℕ };

    ghost view = { λ o. drop o.at (line_of o.line) };

    ghost invariant = { λ o. o.at ≤ length (line_of o.line) };
}

impl Owed {
    /// No byte. It takes no memory.
    pub(crate) fn nothing(alloc: Global) -> Owed
        ensures { result ≡ [] }
    {
        Owed::made(Vec::new(alloc))
    }

    /// These bytes.
    pub(crate) fn made(bytes: Vec<u8>) -> Owed
        ensures { result ≡ bytes.items }
    {
        Owed {
            line: Line::Made(bytes),
            at: 0,
        }
    }

    /// The line of a statement that isn't performed yet. It takes no memory.
    pub(crate) fn not_built() -> Owed
        ensures { result ≡ reply_text (refusal_of not_built) }
    {
        Owed {
            line: Line::NotBuilt,
            at: 0,
        }
    }

    /// The line of a statement for which memory ran out. It takes no memory.
    pub(crate) fn memory() -> Owed
        ensures { result ≡ reply_text (refusal_of memory) }
    {
        Owed {
            line: Line::Memory,
            at: 0,
        }
    }

    /// The bytes.
    pub(crate) fn bytes(&self) -> &[u8]
        ensures { result.now ≡ self.now }
    {
        &bytes_of(&self.line)[self.at..]
    }

    /// So many of them were written.
    pub(crate) fn advance(&mut self, count: usize)
        requires { count ≤ length self.old }
        ensures { self.new ≡ drop count self.old }
    {
        let left = self.bytes().len() - count;
        self.at = bytes_of(&self.line).len() - left;
    }
}

// The whole line.
fn bytes_of(line: &Line) -> &[u8]
    ensures { result.now ≡ line_of line.now }
{
    match line {
        Line::Made(bytes) => bytes.as_slice(),
        Line::NotBuilt => not_built_line(),
        Line::Memory => memory_line(),
    }
}
