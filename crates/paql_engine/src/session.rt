//! A session over a vault: the changes of the transaction that is open, and what is kept of the last answer.
ghost use Rattle.std.specs.Prelude.{◌≡◌, ◌≢◌, ◌+◌, [], ◌∷◌, ◌++◌, IfOk, OnOk, OnErr, Some, None, true, ℕ, List, length};
ghost use Rattle.paql_ast.specs.declared.queries.Query.{Query};
ghost use Rattle.paql_ast.specs.declared.statements.Statement.{Statement};
ghost use Rattle.paql_ast.specs.declared.statements.Statement.TheVariants as statements;
ghost use Rattle.session_proto.specs.Answers as answers;
ghost use Rattle.session_proto.specs.Causes.{session_cause};
ghost use Rattle.session_proto.specs.Input.{content_of};
ghost use Rattle.session_proto.specs.Refusals.{refusal_of};
ghost use Rattle.version_store.specs.Laws.{HaveRows};
ghost use Rattle.version_store.specs.Legal.{HasColumns};
ghost use Rattle.version_store.specs.Vaults.{Holding, Sees, holding};
ghost use Rattle.version_store.specs.declared.changes.Change.{Change};
ghost use Rattle.paql_engine.specs.LoadSteps.{Inserts, LoadsTo};
ghost use Rattle.paql_engine.specs.Performed.{change_of, is_exact};
ghost use Rattle.paql_engine.specs.Showing.{RefusedSo, RefusesCommit, StepsTo, Looks, is_changing};
ghost use Rattle.paql_engine.specs.State.{Grows, nothing_done, session_over};
ghost use Rattle.paql_engine.specs.Steps.{Steps, IsOther};
ghost use Rattle.paql_engine.specs.Replied.{reply_of};

use crate::accepted::{Accepted, accepted_as};
use crate::asking::{Found, find};
use crate::changing::change_of;
use crate::{loading, refused};
use paql_ast::queries::{Method, Query};
use paql_ast::statements::Statement;
use query_answer::Kept;
use schema_types::{Lit, Text};
use search_core::Solver;
use session_proto::refusals::{BindFault, SessionFault};
use session_proto::{Body, Refusal, Reply, answers, refusal_reply};
use snapshots::Snapshot;
use sqlite_items::Items;
use std::alloc::{AllocError, Global};
use std::marker::Model;
use version_store::{Change, Commit, CommitFault, CommitKind, Committed, Vault, VaultFault};

/// What answers a statement.
#[derive(Debug, Drop)]
pub enum Answer {
    /// A reply that was made.
    Made(Reply),
    /// A commit was accepted, whose reply is still to be made.
    Accepted(Accepted, Committed),
    /// The statement isn't performed yet. Its line is constant, so that it takes no memory.
    NotBuilt,
}

/// The changes of the transaction that is open, and what is kept of the last query that was answered. The commits are in
/// a vault, which each call is lent, the same one throughout a session.
#[derive(Drop)]
pub struct Session {
    queue: Option<Commit>,
    kept: Option<Kept>,
}

impl Model for Session {
    ghost use Rattle.std.specs.Coded.{codes};
    ghost use Rattle.paql_ast.specs.contracts.conditions.Pred as pred;
    ghost use Rattle.paql_engine.specs.State.{OwnSession};

    ghost Value = { OwnSession };

    ghost coded = { Prim.hlevel (codes, pred.the_row.coded) };

    ghost view = { λ s. record { queue = s.queue; kept = s.kept } };
}

impl Session {
    /// No transaction, and nothing kept. It takes no memory.
    pub fn new() -> Session
        ensures { result ≡ nothing_done }
    {
        Session {
            queue: None,
            kept: None,
        }
    }

    /// Performs a statement with its body over a vault and gives its answer. If memory runs out, the session is as
    /// before.
    pub fn step<V: Vault, X: Solver>(
        &mut self,
        alloc: Global,
        vault: &mut V,
        solver: &mut X,
        statement: Statement,
        body: &Body,
    ) -> Result<Answer, AllocError>
        ensures ok { IfOk result (λ answer. Steps (V.held vault.new)
            (session_over (holding V.held V.own V.stake vault.old) self.old).state statement
            (content_of body.now) (reply_of answer)
            (session_over (holding V.held V.own V.stake vault.new) self.new).state) }
        ensures grows { Grows (holding V.held V.own V.stake vault.old)
            (holding V.held V.own V.stake vault.new) }
        ensures err { OnErr result (self.new ≡ self.old) }
        ensures sees { OnErr result (Sees (holding V.held V.own V.stake vault.old)
            (holding V.held V.own V.stake vault.new)) }
    {
        match statement {
            Statement::Begin => self.begin(alloc),
            Statement::Commit => self.commit(alloc, vault),
            Statement::Rollback => self.roll_back(alloc),
            Statement::Query(query) => self.ask(alloc, vault, solver, &query),
            Statement::Load { table, .. } => self.load(alloc, vault, table, body),
            Statement::Certificate => self.certificate(alloc),
            other => self.change_or_pass(alloc, vault, other),
        }
    }

    // A change, or a CREATE TABLE without a column, which isn't performed.
    fn change_or_pass<V: Vault>(
        &mut self,
        alloc: Global,
        vault: &mut V,
        statement: Statement,
    ) -> Result<Answer, AllocError>
        requires { is_changing statement ≡ true }
        ensures ok { IfOk result (StepsTo
            (session_over (holding V.held V.own V.stake vault.old) self.old) statement
            (session_over (holding V.held V.own V.stake vault.new) self.new)) }
        ensures grows { Grows (holding V.held V.own V.stake vault.old)
            (holding V.held V.own V.stake vault.new) }
        ensures err { OnErr result (self.new ≡ self.old) }
        ensures sees { OnErr result (Sees (holding V.held V.own V.stake vault.old)
            (holding V.held V.own V.stake vault.new)) }
    {
        match change_of(statement) {
            Some(change) => self.change(alloc, vault, change),
            None => Ok(self.pass_over()),
        }
    }

    // A statement that isn't performed.
    fn pass_over(&self) -> Answer
        ensures { (vault : Holding) (t : Statement) → IsOther vault.held self.now.queue t
            → StepsTo (session_over vault self.now) t (session_over vault self.now) result }
    {
        Answer::NotBuilt
    }

    // A change. In a transaction it is queued, and else it is a commit.
    fn change<V: Vault>(
        &mut self,
        alloc: Global,
        vault: &mut V,
        change: Change,
    ) -> Result<Answer, AllocError>
        requires { HasColumns change }
        ensures ok { IfOk result (λ answer. (t : Statement) → change_of t ≡ Some change → StepsTo
            (session_over (holding V.held V.own V.stake vault.old) self.old) t
            (session_over (holding V.held V.own V.stake vault.new) self.new) answer) }
        ensures grows { Grows (holding V.held V.own V.stake vault.old)
            (holding V.held V.own V.stake vault.new) }
        ensures err { OnErr result (self.new ≡ self.old) }
        ensures sees { OnErr result (Sees (holding V.held V.own V.stake vault.old)
            (holding V.held V.own V.stake vault.new)) }
    {
        match &mut self.queue {
            Some(queue) => queued(alloc, queue, change),
            None => self.commit_alone(alloc, vault, change),
        }
    }

    // A change outside a transaction.
    fn commit_alone<V: Vault>(
        &mut self,
        alloc: Global,
        vault: &mut V,
        change: Change,
    ) -> Result<Answer, AllocError>
        requires columns { HasColumns change }
        requires alone { self.old.queue ≡ None }
        ensures ok { IfOk result (λ answer. (t : Statement) → change_of t ≡ Some change → StepsTo
            (session_over (holding V.held V.own V.stake vault.old) self.old) t
            (session_over (holding V.held V.own V.stake vault.new) self.new) answer) }
        ensures grows { Grows (holding V.held V.own V.stake vault.old)
            (holding V.held V.own V.stake vault.new) }
        ensures err { OnErr result (self.new ≡ self.old) }
        ensures sees { OnErr result (Sees (holding V.held V.own V.stake vault.old)
            (holding V.held V.own V.stake vault.new)) }
    {
        let accepted = accepted_as(&change);
        let mut commit = Commit::new(alloc);
        commit.push(change)?;
        match vault.commit(alloc, commit) {
            Ok(committed) => Ok(Answer::Accepted(accepted, committed)),
            Err((fault, _)) => refused_commit(alloc, fault),
        }
    }

    // LOAD. In a transaction it is refused, and else it is a commit.
    fn load<V: Vault>(
        &self,
        alloc: Global,
        vault: &mut V,
        table: Text,
        body: &Body,
    ) -> Result<Answer, AllocError>
        ensures ok { IfOk result (LoadsTo
            (session_over (holding V.held V.own V.stake vault.old) self.now) table
            (content_of body.now)
            (session_over (holding V.held V.own V.stake vault.new) self.now)) }
        ensures grows { Grows (holding V.held V.own V.stake vault.old)
            (holding V.held V.own V.stake vault.new) }
        ensures sees { OnErr result (Sees (holding V.held V.own V.stake vault.old)
            (holding V.held V.own V.stake vault.new)) }
    {
        if self.queue.is_some() {
            return unready(alloc, SessionFault::InTransaction);
        }
        let snapshot = vault.snapshot()?;
        match loading::find(alloc, &snapshot, &table, body)? {
            loading::Found::Rows(rows) => insert(alloc, vault, table, rows),
            loading::Found::Many(count) => {
                refused_commit(alloc, loading::too_many(snapshot.version, count))
            }
            loading::Found::Refused(refusal) => refused(alloc, refusal),
        }
    }

    // BEGIN.
    fn begin(&mut self, alloc: Global) -> Result<Answer, AllocError>
        ensures ok { (vault : Holding) → IfOk result (StepsTo (session_over vault self.old)
            statements.Begin (session_over vault self.new)) }
        ensures err { OnErr result (self.new ≡ self.old) }
    {
        if self.queue.is_some() {
            return unready(alloc, SessionFault::InTransaction);
        }
        let reply = answers::begun(alloc)?;
        self.queue = Some(Commit::new(alloc));
        Ok(Answer::Made(reply))
    }

    // COMMIT. If it is refused, the transaction stays open, and its changes stay as they are.
    fn commit<V: Vault>(&mut self, alloc: Global, vault: &mut V) -> Result<Answer, AllocError>
        ensures ok { IfOk result (StepsTo
            (session_over (holding V.held V.own V.stake vault.old) self.old) statements.Commit
            (session_over (holding V.held V.own V.stake vault.new) self.new)) }
        ensures grows { Grows (holding V.held V.own V.stake vault.old)
            (holding V.held V.own V.stake vault.new) }
        ensures err { OnErr result (self.new ≡ self.old) }
        ensures sees { OnErr result (Sees (holding V.held V.own V.stake vault.old)
            (holding V.held V.own V.stake vault.new)) }
    {
        let Some(queue) = self.queue.take() else {
            return unready(alloc, SessionFault::NotInTransaction);
        };
        let accepted = Accepted::Transaction(queue.len() as u64);
        match vault.commit(alloc, queue) {
            Ok(committed) => Ok(Answer::Accepted(accepted, committed)),
            Err((fault, queue)) => {
                self.queue = Some(queue);
                refused_commit(alloc, fault)
            }
        }
    }

    // ROLLBACK.
    fn roll_back(&mut self, alloc: Global) -> Result<Answer, AllocError>
        ensures ok { (vault : Holding) → IfOk result (StepsTo (session_over vault self.old)
            statements.Rollback (session_over vault self.new)) }
        ensures err { OnErr result (self.new ≡ self.old) }
    {
        if self.queue.is_none() {
            return unready(alloc, SessionFault::NotInTransaction);
        }
        let reply = answers::rolled_back(alloc)?;
        self.queue = None;
        Ok(Answer::Made(reply))
    }

    // CERTIFICATE.
    fn certificate(&self, alloc: Global) -> Result<Answer, AllocError>
        ensures { (vault : Holding) → IfOk result (StepsTo (session_over vault self.now)
            statements.Certificate (session_over vault self.now)) }
    {
        let Some(kept) = &self.kept else {
            return unready(alloc, SessionFault::NoCertificate);
        };
        let bytes = kept.text(alloc)?;
        let reply = answers::certificate(alloc, bytes)?;
        Ok(Answer::Made(reply))
    }

    // A query.
    fn ask<V: Vault, X: Solver>(
        &mut self,
        alloc: Global,
        vault: &mut V,
        solver: &mut X,
        query: &Query,
    ) -> Result<Answer, AllocError>
        ensures ok { IfOk result (StepsTo
            (session_over (holding V.held V.own V.stake vault.old) self.old) (statements.Query query.now)
            (session_over (holding V.held V.own V.stake vault.new) self.new)) }
        ensures grows { Grows (holding V.held V.own V.stake vault.old)
            (holding V.held V.own V.stake vault.new) }
        ensures err { OnErr result (self.new ≡ self.old) }
        ensures sees { OnErr result (Sees (holding V.held V.own V.stake vault.old)
            (holding V.held V.own V.stake vault.new)) }
    {
        if !is_exact(query.method) {
            return Ok(self.pass_over());
        }
        let snapshot = match look(vault, query.version) {
            Ok(snapshot) => snapshot,
            Err(VaultFault::Unkept { asked, low, high }) => {
                let fault = BindFault::Unkept { asked, high, low };
                return refused(alloc, Some(Refusal::Bind(None, fault)));
            }
            Err(VaultFault::Memory(error)) => return Err(error),
        };
        match find(alloc, solver, query, &snapshot)? {
            Found::Reply(reply, kept) => {
                self.kept = Some(kept);
                Ok(Answer::Made(reply))
            }
            Found::Refused(refusal) => refused(alloc, refusal),
        }
    }
}

/// The version that is asked for, or the last.
pub(crate) fn look<V: Vault>(vault: &mut V, version: Option<u64>) -> Result<Snapshot, VaultFault>
    ensures sees { Sees (holding V.held V.own V.stake vault.old)
        (holding V.held V.own V.stake vault.new) }
    ensures looks { Looks (V.held vault.new) version result }
    ensures rows { IfOk result (λ snapshot. HaveRows snapshot.tables) }
{
    match version {
        Some(version) => vault.snapshot_at(version),
        None => match vault.snapshot() {
            Ok(snapshot) => Ok(snapshot),
            Err(error) => Err(VaultFault::Memory(error)),
        },
    }
}

// A commit of the rows of a LOAD.
fn insert<V: Vault>(
    alloc: Global,
    vault: &mut V,
    table: Text,
    rows: Items<Items<Lit>>,
) -> Result<Answer, AllocError>
    ensures ok { IfOk result (Inserts (holding V.held V.own V.stake vault.old)
        (holding V.held V.own V.stake vault.new) table rows) }
    ensures grows { Grows (holding V.held V.own V.stake vault.old)
        (holding V.held V.own V.stake vault.new) }
    ensures sees { OnErr result (Sees (holding V.held V.own V.stake vault.old)
        (holding V.held V.own V.stake vault.new)) }
{
    let mut commit = Commit::new(alloc);
    commit.push(Change::Insert { table, rows })?;
    match vault.commit(alloc, commit) {
        Ok(committed) => Ok(Answer::Accepted(Accepted::Loaded, committed)),
        Err((fault, _)) => refused_commit(alloc, fault),
    }
}

// A change goes to the end of the queue.
fn queued(alloc: Global, queue: &mut Commit, change: Change) -> Result<Answer, AllocError>
    requires { HasColumns change }
    ensures ok { IfOk result (λ answer.
        reply_of answer ≡ answers.queued (length queue.old + 1)) }
    ensures pushed { OnOk result (queue.new ≡ queue.old ++ change ∷ []) }
    ensures err { OnErr result (queue.new ≡ queue.old) }
{
    let reply = answers::queued(alloc, queue.changes().len() as u64 + 1)?;
    queue.push(change)?;
    Ok(Answer::Made(reply))
}

// The session isn't ready for a statement.
fn unready(alloc: Global, fault: SessionFault) -> Result<Answer, AllocError>
    ensures { IfOk result (λ answer. reply_of answer ≡ refusal_of (session_cause fault)) }
{
    refused(alloc, Some(Refusal::Session(fault)))
}

// The answer to a commit that the store refuses.
fn refused_commit(alloc: Global, fault: CommitFault) -> Result<Answer, AllocError>
    ensures { IfOk result (λ answer. RefusesCommit fault answer) }
{
    refused_for(alloc, &fault)
}

fn refused_for(alloc: Global, fault: &CommitFault) -> Result<Answer, AllocError>
    ensures { IfOk result (λ answer. RefusesCommit fault.now answer) }
{
    if let CommitKind::Memory(_) = fault.kind {
        return Err(AllocError);
    }
    refused(alloc, refused::kind(alloc, fault.change, &fault.kind)?)
}

// The answer that refuses a statement, or none if it can't be told.
fn refused(alloc: Global, refusal: Option<Refusal>) -> Result<Answer, AllocError>
    ensures { IfOk result (λ answer. RefusedSo refusal answer) }
{
    match refusal {
        Some(refusal) => Ok(Answer::Made(refusal_reply(alloc, refusal)?)),
        None => Ok(Answer::NotBuilt),
    }
}

// The method of a query is exact.
fn is_exact(method: Option<Method>) -> bool
    ensures { result ≡ is_exact method }
{
    match method {
        None | Some(Method::Direct) => true,
        Some(Method::SketchRefine) => false,
    }
}
