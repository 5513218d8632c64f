//! What is found of a query on the tables of a version.
ghost use Rattle.std.specs.Prelude.{◌≡◌, [], IfOk};
ghost use Rattle.version_store.specs.Laws.{HaveRows};
ghost use Rattle.paql_engine.specs.Queries.{IsBoundTo, faults_of, rows_asked};
ghost use Rattle.paql_engine.specs.Showing.{Finds};

use crate::refused;
use bound_query::BoundQuery;
use paql_ast::queries::Query;
use paql_bind::{BindFault, bind};
use query_answer::{Answered, Kept, answer};
use search_core::Solver;
use session_proto::{Refusal, Reply};
use snapshots::Snapshot;
use std::alloc::{AllocError, Global};
use table_schema::Row;

/// What is found of a query.
#[derive(Debug, Drop)]
pub(crate) enum Found {
    /// The reply that answers it, and what is kept of it.
    Reply(Reply, Kept),
    /// Why it is refused, or None if that shows a name that is no text.
    Refused(Option<Refusal>),
}

/// What is found of a query on the tables of a version.
pub(crate) fn find<X: Solver>(
    alloc: Global,
    solver: &mut X,
    query: &Query,
    snapshot: &Snapshot,
) -> Result<Found, AllocError>
    requires { HaveRows snapshot.now.tables }
    ensures { IfOk result (Finds snapshot.now.tables snapshot.now.version query.now) }
{
    match bind(alloc, snapshot.schemas(), query) {
        Ok(bound) => solve(alloc, solver, query, &bound, snapshot),
        Err(BindFault::Refused(fault)) => {
            Ok(Found::Refused(refused::binding(alloc, None, &fault)?))
        }
        Err(BindFault::Memory(error)) => Err(error),
    }
}

// The same for a query that is bound.
fn solve<X: Solver>(
    alloc: Global,
    solver: &mut X,
    query: &Query,
    bound: &BoundQuery,
    snapshot: &Snapshot,
) -> Result<Found, AllocError>
    requires rows { HaveRows snapshot.now.tables }
    requires good { faults_of snapshot.now.tables query.now ≡ [] }
    requires bound { IsBoundTo snapshot.now.tables query.now bound.now }
    ensures { IfOk result (Finds snapshot.now.tables snapshot.now.version query.now) }
{
    let rows = rows_asked(snapshot, query);
    match answer(alloc, solver, bound, rows, snapshot.version)? {
        Answered::Reply(reply, kept) => Ok(Found::Reply(reply, kept)),
        Answered::Refused(fault) => Ok(Found::Refused(Some(Refusal::Query(fault)))),
    }
}

/// The rows of the table that a query names.
pub(crate) fn rows_asked<'a>(snapshot: &'a Snapshot, query: &Query) -> &'a [(u64, Row)]
    ensures { result.now ≡ rows_asked snapshot.now.tables query.now }
{
    match snapshot.rows(query.table.as_slice()) {
        Some(rows) => rows,
        None => &[],
    }
}
