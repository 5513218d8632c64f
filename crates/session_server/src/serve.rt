//! The driver of a session machine over a source and a sink.
ghost use Rattle.std.specs.Prelude.{◌≡◌, ◌≢◌, ◌<◌, [], ℕ, List};
ghost use Rattle.pq_base.specs.Shown.{shown};
ghost use Rattle.version_store.specs.Vaults.{holding};
ghost use Rattle.paql_engine.specs.Conversation.{over, told, turns_left, framing, reading, none};
ghost use Rattle.paql_engine.specs.Machine.{Continues, HasText, room_of};
ghost use Rattle.paql_engine.specs.State.{Grows};
ghost use Rattle.session_server.specs.Driving.{PutsOwed, ReadsMore};
ghost use Rattle.session_server.specs.Ends.{EndsWith, HasCause, IsWholeScript, IsDoneOrFault};

use crate::reading::read_text;
use crate::streams::{Put, put_all};
use paql_engine::{MAX_READ, Machine, SessionEnd, Wish};
use pq_base::{Pull, Sink, Source};
use search_core::Solver;
use std::alloc::Global;
use version_store::Vault;

/// Answers the statements of a source over a vault. It reads only when the machine wishes to, which is when the bytes
/// taken hold no further whole statement and every reply so far is written. A transaction that is open at the end is
/// dropped.
pub fn serve_session<V: Vault, X: Solver, S: Source, K: Sink>(
    alloc: Global,
    vault: &mut V,
    solver: &mut X,
    source: &mut S,
    sink: &mut K,
) -> SessionEnd
    ensures ends { EndsWith (holding V.held V.own V.stake vault.old)
        (holding V.held V.own V.stake vault.new)
        (shown S.left S.faults source.old) (shown S.left S.faults source.new)
        (shown K.written K.faults sink.old) (shown K.written K.faults sink.new) result }
    ensures cause { HasCause (shown S.left S.faults source.old) (shown S.left S.faults source.new)
        (shown K.written K.faults sink.old) (shown K.written K.faults sink.new) result }
    ensures complete { IsWholeScript (S.left source.old) → IsDoneOrFault result }
{
    let mut machine = Machine::new(alloc);
    loop {
        match machine.wish(alloc, vault, solver) {
            Wish::Parse => parse_next(alloc, vault, solver, &mut machine),
            Wish::Write => write_owed(sink, &mut machine),
            Wish::Read(room) => read_more(source, &mut machine, room),
            Wish::End(end) => return end,
        }
    }
}

// Tells the machine what its text is.
fn parse_next<V: Vault, X: Solver>(
    alloc: Global,
    vault: &mut V,
    solver: &mut X,
    machine: &mut Machine,
)
    requires { (words : List ℕ) × HasText machine.old.talk words }
    ensures continues { Continues (over (holding V.held V.own V.stake vault.old) machine.old)
        (over (holding V.held V.own V.stake vault.new) machine.new) }
    ensures grows { Grows (holding V.held V.own V.stake vault.old)
        (holding V.held V.own V.stake vault.new) }
    ensures told { told machine.new.talk ≡ none }
    ensures turns { turns_left machine.new.talk < turns_left machine.old.talk }
{
    let parsed = read_text(alloc, machine.text());
    machine.parsed(alloc, vault, solver, parsed);
}

// Writes what is owed.
fn write_owed<K: Sink>(sink: &mut K, machine: &mut Machine)
    requires stage { machine.old.talk.stage ≡ framing }
    requires owed { machine.old.talk.owed ≢ [] }
    ensures { PutsOwed (shown K.written K.faults sink.old) (shown K.written K.faults sink.new)
        machine.old machine.new }
{
    match put_all(sink, machine.owed()) {
        Put::All => {
            let all = machine.owed().len();
            machine.wrote(all);
        }
        Put::Failed(count) => {
            machine.wrote(count);
            machine.write_failed();
        }
    }
}

// Reads once, and hands on what came.
fn read_more<S: Source>(source: &mut S, machine: &mut Machine, room: usize)
    requires stage { machine.old.talk.stage ≡ reading }
    requires room { room ≡ room_of machine.old.talk }
    requires some { 0 < room }
    ensures { ReadsMore (shown S.left S.faults source.old) (shown S.left S.faults source.new)
        machine.old machine.new }
{
    let mut buf = [0u8; MAX_READ];
    match source.read(&mut buf[..room]) {
        Pull::Failed => machine.read_failed(),
        Pull::Got(0) => machine.input_ended(),
        Pull::Got(count) => machine.feed(&buf[..count]),
    }
}
