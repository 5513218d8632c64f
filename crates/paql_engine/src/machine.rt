//! A session as a machine without input and output: bytes go in, and it says what it wishes next. A driver over a source
//! and a sink is a loop over its wishes.
ghost use Rattle.std.specs.Prelude.{◌≡◌, ◌<◌, ◌≤◌, [], List, ℕ, take, length, IfOk, MatchOption};
ghost use Rattle.session_proto.specs.Input.{content_of, awaiting};
ghost use Rattle.session_proto.specs.Causes.{text_cause};
ghost use Rattle.session_proto.specs.Refusals.{refusal_of};
ghost use Rattle.session_proto.specs.Replies.{reply_text};
ghost use Rattle.version_store.specs.Vaults.{Holding, holding};
ghost use Rattle.paql_engine.specs.Conversation.{IsServing, over, talks, told, turns_left, framing, reading, ended, none, input_ended, read_failed, write_failed};
ghost use Rattle.paql_engine.specs.Machine.{Continues, ContinuesOver, FeedsOver, WritesOver, HasText, room_of, without_owed, Wishes, IsParsed};
ghost use Rattle.paql_engine.specs.Replied.{reply_of, shown_as};
ghost use Rattle.paql_engine.specs.Stages.{stage_of};
ghost use Rattle.paql_engine.specs.State.{Grows, opening};
ghost use Rattle.paql_engine.specs.Turns.{IsFree, Performs, BeginsWith, Finishes, RefusesFault, Needs, Owes, IsOwedNow, IsSettled, IsFewer, IsLess, IsInputEnd, at_stage, waiting_for, stage_fed};

use crate::accepted::{Accepted, accepted_reply};
use crate::ending::{MAX_BYTES, MAX_READ, SessionEnd};
use crate::owed::Owed;
use crate::session::{Answer, Session};
use crate::text::{Text, body_of};
use paql_ast::statements::Statement;
use search_core::Solver;
use session_proto::refusals::{Refusal, TextFault, refusal_reply};
use session_proto::{Body, Framed, Framer, Reply, reply_bytes};
use std::alloc::{AllocError, Global};
use std::marker::Model;
use version_store::{Committed, Vault};

/// What a machine wishes next.
#[derive(Clone, Copy, Debug, PartialEq, Eq)]
pub enum Wish {
    /// Parse its `text`, and tell it by `parsed` what the text is.
    Parse,
    /// Write what is `owed`, and tell it by `wrote` how many bytes were taken, or `write_failed`.
    Write,
    /// Read at most so many bytes and `feed` them, or tell it `input_ended` or `read_failed`.
    Read(usize),
    /// The session ends so. There is nothing more to do.
    End(SessionEnd),
}

// What is to be done next.
#[derive(Debug, Drop)]
enum Stage {
    // Frame the bytes that are held, and write what is owed before that.
    Framing,
    // Parse this text.
    Parsing(Vec<u8>),
    // Read: no whole frame is held, and nothing is owed.
    Reading,
    // Nothing.
    Ended(SessionEnd),
}

/// A session's bytes, its transaction, and what it has still to write. Contracts see its session and its conversation.
/// Its commits are in a vault, the same one throughout the session, which is lent to the calls that may perform a
/// statement.
#[derive(Drop)]
pub struct Machine {
    framer: Framer,
    session: Session,
    waiting: Option<Statement>,
    owed: Owed,
    taken: usize,
    stage: Stage,
}

impl Model for Machine {
    ghost use Rattle.std.specs.Coded.{codes};
    ghost use Rattle.paql_ast.specs.contracts.conditions.Pred as pred;
    ghost use Rattle.paql_engine.specs.Conversation.{OwnMachine};
    ghost use Rattle.paql_engine.specs.Stages.{stage_of};

    ghost Value = { OwnMachine };

    ghost coded = { Prim.hlevel (codes, pred.the_row.coded) };

    ghost view = { λ m. record {
      session = m.session;
      talk = record {
        input = m.framer;
        waiting = m.waiting;
        owed = m.owed;
        taken = m.taken;
        stage = stage_of m.stage;
      };
    } };
}

impl Machine {
    /// A session at its beginning, whatever its vault holds. It takes no memory.
    pub fn new(alloc: Global) -> Machine
        ensures serves { (vault : Holding) → IsServing (opening vault) [] [] (over vault result) }
        ensures told { told result.talk ≡ none }
    {
        Machine {
            framer: Framer::new(alloc),
            session: Session::new(),
            waiting: None,
            owed: Owed::nothing(alloc),
            taken: 0,
            stage: Stage::Framing,
        }
    }

    /// What the machine wishes next. It frames the bytes that are held, and performs a statement whose body is whole.
    pub fn wish<V: Vault, X: Solver>(
        &mut self,
        alloc: Global,
        vault: &mut V,
        solver: &mut X,
    ) -> Wish
        ensures continues { Continues (over (holding V.held V.own V.stake vault.old) self.old)
            (over (holding V.held V.own V.stake vault.new) self.new) }
        ensures grows { Grows (holding V.held V.own V.stake vault.old)
            (holding V.held V.own V.stake vault.new) }
        ensures wish { Wishes result self.new.talk }
        ensures told { told self.new.talk ≡ told self.old.talk }
        ensures turns { turns_left self.new.talk ≤ turns_left self.old.talk }
    {
        match self.stage {
            Stage::Ended(end) => Wish::End(end),
            Stage::Parsing(_) => Wish::Parse,
            Stage::Framing | Stage::Reading => self.write_or_frame(alloc, vault, solver),
        }
    }

    /// The text that is to be parsed.
    pub fn text(&self) -> &[u8]
        requires { (words : List ℕ) × HasText self.now.talk words }
        ensures { HasText self.now.talk result.now }
    {
        match &self.stage {
            Stage::Parsing(text) => text.as_slice(),
            _ => unreachable!(),
        }
    }

    /// What the text is that was to be parsed. If memory ran out for its tree, the session ends.
    pub fn parsed<V: Vault, X: Solver>(
        &mut self,
        alloc: Global,
        vault: &mut V,
        solver: &mut X,
        parsed: Result<Text, AllocError>,
    )
        requires { IsParsed self.old.talk parsed }
        ensures continues { Continues (over (holding V.held V.own V.stake vault.old) self.old)
            (over (holding V.held V.own V.stake vault.new) self.new) }
        ensures grows { Grows (holding V.held V.own V.stake vault.old)
            (holding V.held V.own V.stake vault.new) }
        ensures told { told self.new.talk ≡ none }
        ensures turns { turns_left self.new.talk < turns_left self.old.talk }
    {
        match parsed {
            Ok(Text::Statement(statement)) => self.begin(alloc, vault, solver, statement),
            Ok(Text::Faulty(fault, at)) => self.refuse(alloc, fault, at),
            Ok(Text::Blank) => self.stage = Stage::Framing,
            Err(_) => {
                self.end(SessionEnd::Memory);
            }
        }
    }

    /// The bytes of replies that are to be written.
    pub fn owed(&self) -> &[u8]
        ensures { result.now ≡ self.now.talk.owed }
    {
        self.owed.bytes()
    }

    /// So many of the bytes owed were written.
    pub fn wrote(&mut self, count: usize)
        requires wished { self.old.talk.stage ≡ framing }
        requires count { count ≤ length self.old.talk.owed }
        ensures value { self.new ≡ talks self.old (without_owed self.old.talk count) }
        ensures writes { WritesOver self.old (take count self.old.talk.owed) self.new }
    {
        self.owed.advance(count);
    }

    /// Takes the bytes that were read. If memory runs out for them, the session ends.
    pub fn feed(&mut self, piece: &[u8])
        requires wished { self.old.talk.stage ≡ reading }
        requires some { 0 < length piece.now }
        requires room { length piece.now ≤ room_of self.old.talk }
        ensures feeds { FeedsOver self.old piece.now self.new }
        ensures told { told self.new.talk ≡ none }
        ensures turns { turns_left self.new.talk < turns_left self.old.talk }
    {
        self.taken += piece.len();
        self.stage = stage_after(self.framer.feed(piece));
    }

    /// Nothing is left to be read.
    pub fn input_ended(&mut self)
        requires { self.old.talk.stage ≡ reading }
        ensures continues { ContinuesOver self.old self.new }
        ensures told { told self.new.talk ≡ input_ended }
        ensures turns { turns_left self.new.talk < turns_left self.old.talk }
    {
        self.stage = Stage::Ended(end_of(&self.framer));
    }

    /// The source failed.
    pub fn read_failed(&mut self)
        requires { self.old.talk.stage ≡ reading }
        ensures continues { ContinuesOver self.old self.new }
        ensures told { told self.new.talk ≡ read_failed }
        ensures turns { turns_left self.new.talk < turns_left self.old.talk }
    {
        self.stage = Stage::Ended(SessionEnd::ReadFault);
    }

    /// The sink failed.
    pub fn write_failed(&mut self)
        requires { self.old.talk.stage ≡ framing }
        ensures continues { ContinuesOver self.old self.new }
        ensures told { told self.new.talk ≡ write_failed }
        ensures turns { turns_left self.new.talk < turns_left self.old.talk }
    {
        self.stage = Stage::Ended(SessionEnd::WriteFault);
    }

    // What is owed is written before anything is framed.
    fn write_or_frame<V: Vault, X: Solver>(
        &mut self,
        alloc: Global,
        vault: &mut V,
        solver: &mut X,
    ) -> Wish
        requires { IsFree self.old.talk.stage }
        ensures continues { Continues (over (holding V.held V.own V.stake vault.old) self.old)
            (over (holding V.held V.own V.stake vault.new) self.new) }
        ensures grows { Grows (holding V.held V.own V.stake vault.old)
            (holding V.held V.own V.stake vault.new) }
        ensures wish { Wishes result self.new.talk }
        ensures told { told self.new.talk ≡ none }
        ensures turns { turns_left self.new.talk ≤ turns_left self.old.talk }
    {
        if !self.owed.bytes().is_empty() {
            self.stage = Stage::Framing;
            return Wish::Write;
        }
        self.frame(alloc, vault, solver)
    }

    // Frames the next statement or body, if it is whole.
    fn frame<V: Vault, X: Solver>(&mut self, alloc: Global, vault: &mut V, solver: &mut X) -> Wish
        requires free { IsFree self.old.talk.stage }
        requires quiet { self.old.talk.owed ≡ [] }
        ensures continues { Continues (over (holding V.held V.own V.stake vault.old) self.old)
            (over (holding V.held V.own V.stake vault.new) self.new) }
        ensures grows { Grows (holding V.held V.own V.stake vault.old)
            (holding V.held V.own V.stake vault.new) }
        ensures wish { Wishes result self.new.talk }
        ensures told { told self.new.talk ≡ none }
        ensures turns { turns_left self.new.talk ≤ turns_left self.old.talk }
    {
        match self.framer.next(alloc) {
            Err(_) => self.end(SessionEnd::Memory),
            Ok(Framed::Need) => self.need(),
            Ok(Framed::TooLong) => self.end(SessionEnd::TooLong),
            Ok(Framed::Statement(text)) => {
                self.stage = Stage::Parsing(text);
                Wish::Parse
            }
            Ok(Framed::Body(body)) => self.finish(alloc, vault, solver, &body),
        }
    }

    // More bytes are needed.
    fn need(&mut self) -> Wish
        requires { self.old.talk.owed ≡ [] }
        ensures { Needs self.old result self.new }
    {
        let room = MAX_BYTES.saturating_sub(self.taken).min(MAX_READ);
        if room == 0 {
            return self.end(SessionEnd::SessionLimit);
        }
        self.stage = Stage::Reading;
        Wish::Read(room)
    }

    // The session ends so.
    fn end(&mut self, end: SessionEnd) -> Wish
        ensures stage { self.new ≡ talks self.old (at_stage self.old.talk (ended end)) }
        ensures wish { result ≡ Wish.End end }
    {
        self.stage = Stage::Ended(end);
        Wish::End(end)
    }

    // Performs a statement, or waits for its body.
    fn begin<V: Vault, X: Solver>(
        &mut self,
        alloc: Global,
        vault: &mut V,
        solver: &mut X,
        statement: Statement,
    )
        ensures begins { BeginsWith statement
            (over (holding V.held V.own V.stake vault.old) self.old)
            (over (holding V.held V.own V.stake vault.new) self.new) }
        ensures grows { Grows (holding V.held V.own V.stake vault.old)
            (holding V.held V.own V.stake vault.new) }
        ensures told { told self.new.talk ≡ none }
        ensures fewer { IsFewer self.old.talk self.new.talk }
    {
        match body_of(&statement) {
            Some(bytes) => self.wait_for(statement, bytes),
            None => {
                self.perform(alloc, vault, solver, statement, &Body::None);
            }
        }
    }

    // Waits for the body of a statement.
    fn wait_for(&mut self, statement: Statement, bytes: u64)
        ensures { self.new ≡ talks self.old
            (waiting_for self.old.talk statement (awaiting self.old.talk.input bytes)) }
    {
        self.framer.want_body(bytes);
        self.waiting = Some(statement);
        self.stage = Stage::Framing;
    }

    // Refuses a text that is no statement.
    fn refuse(&mut self, alloc: Global, fault: TextFault, at: usize)
        ensures refuses { RefusesFault fault at self.old self.new }
        ensures settled { IsSettled self.old.talk self.new.talk }
    {
        let answered = refused(alloc, fault, at);
        self.owe(owed_for(alloc, answered));
    }

    // Performs the statement whose body came.
    fn finish<V: Vault, X: Solver>(
        &mut self,
        alloc: Global,
        vault: &mut V,
        solver: &mut X,
        body: &Body,
    ) -> Wish
        requires { self.old.talk.owed ≡ [] }
        ensures finishes { Finishes (content_of body.now)
            (over (holding V.held V.own V.stake vault.old) self.old)
            (over (holding V.held V.own V.stake vault.new) self.new) }
        ensures grows { Grows (holding V.held V.own V.stake vault.old)
            (holding V.held V.own V.stake vault.new) }
        ensures wish { Wishes result self.new.talk }
        ensures told { told self.new.talk ≡ none }
        ensures less { IsLess self.old.talk self.new.talk }
    {
        match self.waiting.take() {
            Some(statement) => self.perform(alloc, vault, solver, statement, body),
            None => self.need(),
        }
    }

    // Performs a statement.
    fn perform<V: Vault, X: Solver>(
        &mut self,
        alloc: Global,
        vault: &mut V,
        solver: &mut X,
        statement: Statement,
        body: &Body,
    ) -> Wish
        ensures performs { Performs statement (content_of body.now)
            (over (holding V.held V.own V.stake vault.old) self.old)
            (over (holding V.held V.own V.stake vault.new) self.new) }
        ensures grows { Grows (holding V.held V.own V.stake vault.old)
            (holding V.held V.own V.stake vault.new) }
        ensures wish { Wishes result self.new.talk }
        ensures settled { IsSettled self.old.talk self.new.talk }
    {
        let answered = self.session.step(alloc, vault, solver, statement, body);
        self.owe(owed_for(alloc, answered))
    }

    // These bytes are to be written, if there was memory for them.
    fn owe(&mut self, owed: Option<Owed>) -> Wish
        ensures { IsOwedNow owed self.old result self.new }
    {
        match owed {
            Some(owed) => {
                self.owed = owed;
                self.stage = Stage::Framing;
                Wish::Write
            }
            None => self.end(SessionEnd::Memory),
        }
    }
}

// What is to be done after bytes came.
fn stage_after(fed: Result<(), AllocError>) -> Stage
    ensures { stage_of result ≡ stage_fed fed }
{
    match fed {
        Ok(()) => Stage::Framing,
        Err(_) => Stage::Ended(SessionEnd::Memory),
    }
}

// How a session ends with its input.
fn end_of(framer: &Framer) -> SessionEnd
    ensures { IsInputEnd framer.now result }
{
    if framer.is_clean() {
        SessionEnd::Done
    } else {
        SessionEnd::Truncated
    }
}

// The answer to a text that is no statement.
fn refused(alloc: Global, fault: TextFault, at: usize) -> Result<Answer, AllocError>
    ensures { IfOk result (λ answer. reply_of answer ≡ refusal_of (text_cause fault at)) }
{
    let reply = refusal_reply(alloc, Refusal::Text(fault, at as u64))?;
    Ok(Answer::Made(reply))
}

// The bytes of an answer, if there is memory for them. A constant line takes none.
fn owed_for(alloc: Global, answered: Result<Answer, AllocError>) -> Option<Owed>
    ensures { Owes answered result }
{
    match answered {
        Ok(Answer::Made(reply)) => bytes_of(alloc, &reply),
        Ok(Answer::Accepted(accepted, committed)) => accepted_bytes(alloc, accepted, committed),
        Ok(Answer::NotBuilt) => Some(Owed::not_built()),
        Err(_) => Some(Owed::memory()),
    }
}

// The bytes of the reply to an accepted commit, if there is memory for them.
fn accepted_bytes(alloc: Global, accepted: Accepted, committed: Committed) -> Option<Owed>
    ensures { MatchOption result (Unit {0}) (λ owed.
        owed ≡ reply_text (shown_as accepted committed.rows committed.version)) }
{
    match accepted_reply(alloc, accepted, committed) {
        Ok(reply) => bytes_of(alloc, &reply),
        Err(_) => None,
    }
}

// The bytes of a reply, if there is memory for them.
fn bytes_of(alloc: Global, reply: &Reply) -> Option<Owed>
    ensures { MatchOption result (Unit {0}) (λ owed. owed ≡ reply_text reply.now) }
{
    match reply_bytes(alloc, reply) {
        Ok(bytes) => Some(Owed::made(bytes)),
        Err(_) => None,
    }
}
