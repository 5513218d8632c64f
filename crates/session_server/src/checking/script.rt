//! The statements before the query of a check, performed without replies.
ghost use Rattle.std.specs.Prelude.{◌≡◌, ◌≤◌, ◌+◌, ◌<◌, IfOk};
ghost use Rattle.pq_base.specs.Shown.{Shown, shown};
ghost use Rattle.session_proto.specs.Input.{content_of};
ghost use Rattle.version_store.specs.Vaults.{Holding, holding};
ghost use Rattle.session_server.specs.Checking.{IsOn, BeginsNext, FinishesNext, PerformsNext, ReadsNext, Runs, StartsNext, TurnsNext, left_to_do};

use crate::checking::CheckEnd;
use crate::checking::line::{line_if_refused, refused_line};
use crate::checking::reading_on::read_piece;
use crate::reading::read_text;
use paql_ast::queries::Query;
use paql_ast::statements::Statement;
use paql_engine::{MAX_READ, Session, Text};
use pq_base::Source;
use search_core::SoloSolver;
use session_proto::{Body, Framed, Framer, Refusal, refusal_reply};
use std::alloc::Global;
use version_store::Vault;

/// What ends a script.
#[derive(Drop)]
pub(crate) enum Stop {
    /// The query. The certificate comes after it.
    Query(Query),
    /// A frame is refused, with the line that says so.
    Refused(Vec<u8>),
}

/// The frames of a source, performed one after the other over a vault.
#[derive(Drop)]
pub(crate) struct Script {
    framer: Framer,
    session: Session,
    waiting: Option<Statement>,
    taken: usize,
}

impl Script {
    /// Nothing was read yet. It takes no memory.
    pub(crate) fn new(alloc: Global) -> Script
        ensures { (vault : Holding) (source : Shown) → IsOn vault vault source source result }
    {
        Script {
            framer: Framer::new(alloc),
            session: Session::new(),
            waiting: None,
            taken: 0,
        }
    }

    /// How many bytes were taken.
    pub(crate) fn taken(&self) -> usize
        ensures { result ≡ self.now.taken }
    {
        self.taken
    }

    /// The bytes taken that come after the last frame.
    pub(crate) fn left(&self) -> &[u8]
        ensures { result.now ≡ self.now.framer.left }
    {
        self.framer.left()
    }

    /// Performs the frames up to the first that is a query, or is refused.
    pub(crate) fn run<V: Vault, S: Source>(
        &mut self,
        alloc: Global,
        vault: &mut V,
        source: &mut S,
    ) -> Result<Stop, CheckEnd>
        ensures { Runs (holding V.held V.own V.stake vault.old)
            (shown S.left S.faults source.old) self.old
            (holding V.held V.own V.stake vault.new)
            (shown S.left S.faults source.new) self.new result }
    {
        loop {
            if let Some(stop) = self.turn(alloc, vault, source)? {
                return Ok(stop);
            }
        }
    }

    // Performs the next frame, or reads on if none is whole.
    fn turn<V: Vault, S: Source>(
        &mut self,
        alloc: Global,
        vault: &mut V,
        source: &mut S,
    ) -> Result<Option<Stop>, CheckEnd>
        ensures turns { TurnsNext (holding V.held V.own V.stake vault.old)
            (shown S.left S.faults source.old) self.old
            (holding V.held V.own V.stake vault.new)
            (shown S.left S.faults source.new) self.new result }
        ensures fewer { IfOk result (λ stop. left_to_do self.new < left_to_do self.old) }
    {
        match self.framer.next(alloc)? {
            Framed::Statement(text) => self.begin(alloc, vault, &text),
            Framed::Body(body) => self.finish(alloc, vault, &body),
            Framed::TooLong => Err(CheckEnd::TooLong),
            Framed::Need => {
                self.read_more(source)?;
                Ok(None)
            }
        }
    }

    // Reads once, and feeds what came.
    fn read_more<S: Source>(&mut self, source: &mut S) -> Result<(), CheckEnd>
        ensures reads { ReadsNext (shown S.left S.faults source.old) self.old
            (shown S.left S.faults source.new) self.new result }
        ensures fewer { IfOk result (λ done. left_to_do self.new < left_to_do self.old) }
    {
        let mut buf = [0u8; MAX_READ];
        let count = read_piece(source, self.taken, &mut buf)?;
        if count == 0 {
            return Err(CheckEnd::Truncated);
        }
        self.taken += count;
        self.framer.feed(&buf[..count])?;
        Ok(())
    }

    // Begins the text of a frame.
    fn begin<V: Vault>(
        &mut self,
        alloc: Global,
        vault: &mut V,
        text: &[u8],
    ) -> Result<Option<Stop>, CheckEnd>
        ensures begins { BeginsNext text.now
            (holding V.held V.own V.stake vault.old) self.old
            (holding V.held V.own V.stake vault.new) self.new result }
        ensures little { left_to_do self.new ≤ left_to_do self.old + 1 }
    {
        match read_text(alloc, text)? {
            Text::Statement(statement) => self.start(alloc, vault, statement),
            Text::Faulty(fault, at) => {
                let reply = refusal_reply(alloc, Refusal::Text(fault, at as u64))?;
                Ok(Some(Stop::Refused(refused_line(alloc, &reply)?)))
            }
            Text::Blank => Ok(None),
        }
    }

    // Stops at a query, waits for the body of a LOAD, and performs another statement.
    fn start<V: Vault>(
        &mut self,
        alloc: Global,
        vault: &mut V,
        statement: Statement,
    ) -> Result<Option<Stop>, CheckEnd>
        ensures starts { StartsNext statement
            (holding V.held V.own V.stake vault.old) self.old
            (holding V.held V.own V.stake vault.new) self.new result }
        ensures little { left_to_do self.new ≤ left_to_do self.old + 1 }
    {
        match statement {
            Statement::Query(query) => Ok(Some(Stop::Query(query))),
            Statement::Load { table, bytes } => {
                self.framer.want_body(bytes);
                self.waiting = Some(Statement::Load { table, bytes });
                Ok(None)
            }
            other => self.perform(alloc, vault, other, &Body::None),
        }
    }

    // Performs the statement whose body came.
    fn finish<V: Vault>(
        &mut self,
        alloc: Global,
        vault: &mut V,
        body: &Body,
    ) -> Result<Option<Stop>, CheckEnd>
        ensures finishes { FinishesNext (content_of body.now)
            (holding V.held V.own V.stake vault.old) self.old
            (holding V.held V.own V.stake vault.new) self.new result }
        ensures same { left_to_do self.new ≡ left_to_do self.old }
    {
        match self.waiting.take() {
            Some(statement) => self.perform(alloc, vault, statement, body),
            None => Ok(None),
        }
    }

    // Performs a statement that is no query.
    fn perform<V: Vault>(
        &mut self,
        alloc: Global,
        vault: &mut V,
        statement: Statement,
        body: &Body,
    ) -> Result<Option<Stop>, CheckEnd>
        ensures performs { PerformsNext statement (content_of body.now)
            (holding V.held V.own V.stake vault.old) self.old
            (holding V.held V.own V.stake vault.new) self.new result }
        ensures same { left_to_do self.new ≡ left_to_do self.old }
    {
        let mut solver = SoloSolver;
        let answer = self
            .session
            .step(alloc, vault, &mut solver, statement, body)?;
        match line_if_refused(alloc, &answer)? {
            Some(line) => Ok(Some(Stop::Refused(line))),
            None => Ok(None),
        }
    }
}
