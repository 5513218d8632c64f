//! Writing a whole text.
ghost use Rattle.pq_base.specs.Shown.{shown};
ghost use Rattle.session_server.specs.Streams.{IsPut};

use pq_base::{Push, Sink};

/// What came of writing a text.
#[derive(Clone, Copy, Debug, PartialEq, Eq)]
pub(crate) enum Put {
    /// All of it was written.
    All,
    /// The sink failed after so many bytes.
    Failed(usize),
}

/// Writes the whole text, in as many pieces as the sink takes it.
pub(crate) fn put_all<K: Sink>(sink: &mut K, text: &[u8]) -> Put
    ensures { IsPut (shown K.written K.faults sink.old) (shown K.written K.faults sink.new)
        text.now result }
{
    let mut at = 0;
    while at < text.len() {
        match sink.write(text.split_at(at).1) {
            Push::Took(count) => at += count,
            Push::Failed => return Put::Failed(at),
        }
    }
    Put::All
}
