//! A query made ready, and not solved.
ghost use Rattle.std.specs.Prelude.{◌≡◌, []};
ghost use Rattle.version_store.specs.Laws.{HaveRows};
ghost use Rattle.version_store.specs.Vaults.{Sees, holding};
ghost use Rattle.paql_engine.specs.Queries.{IsBoundTo, faults_of, rows_asked};
ghost use Rattle.paql_engine.specs.Preparing.{Prepares, Readies, Programs, TellsForm, IsToldBy};
ghost use Rattle.paql_engine.specs.declared.preparing.PrepareFault.TheVariants.{Memory};

use crate::asking::rows_asked;
use crate::refused;
use crate::session::look;
use bound_query::BoundQuery;
use package_program::{FormFault, Linear, translate};
use paql_ast::queries::Query;
use paql_bind::{BindFault, bind};
use session_proto::refusals::{BindFault as Told, QueryFault};
use session_proto::{Refusal, Reply, refusal_reply};
use snapshots::Snapshot;
use std::alloc::{AllocError, Global};
use table_schema::Row;
use thiserror::Error;
use version_store::{Vault, VaultFault};

/// A query that is ready to be solved.
#[derive(Drop)]
pub struct Prepared {
    /// The query, bound to the tables of the version.
    pub bound: BoundQuery,
    /// The version that it reads.
    pub snapshot: Snapshot,
    /// Its program over the rows of its table.
    pub linear: Linear,
}

impl Prepared {
    /// The rows of the table that the query names.
    pub fn rows(&self, query: &Query) -> &[(u64, Row)]
        ensures { result.now ≡ rows_asked self.now.snapshot.tables query.now }
    {
        rows_asked(&self.snapshot, query)
    }
}

/// Why a query isn't made ready.
#[derive(Debug, Drop, Error)]
pub enum PrepareFault {
    /// The reply that refuses it.
    #[error("the query is refused")]
    Refused(Reply),
    /// The refusal shows a name that is no text, which no statement of a text has.
    #[error("a name of the query is no text")]
    NotBuilt,
    #[error("out of memory")]
    Memory(AllocError),
}

impl From<AllocError> for PrepareFault {
    ghost from_gives = { λ a e. e ≡ Memory a };

    fn from(error: AllocError) -> PrepareFault {
        PrepareFault::Memory(error)
    }
}

/// Makes a query ready: binds it to the tables of the version that it asks for, or of the last, and
/// translates it. It uses nothing that a session keeps. The method and the budget of the query
/// change nothing but its refusals, so that a query of any method is made ready.
pub fn prepare<V: Vault>(
    alloc: Global,
    vault: &mut V,
    query: &Query,
) -> Result<Prepared, PrepareFault>
    ensures sees { Sees (holding V.held V.own V.stake vault.old)
        (holding V.held V.own V.stake vault.new) }
    ensures gives { Prepares (V.held vault.new) query.now result }
{
    match look(vault, query.version) {
        Ok(snapshot) => {
            let (bound, linear) = ready(alloc, query, &snapshot)?;
            Ok(Prepared {
                bound,
                snapshot,
                linear,
            })
        }
        Err(VaultFault::Unkept { asked, low, high }) => {
            let fault = Told::Unkept { asked, high, low };
            Err(told(alloc, Some(Refusal::Bind(None, fault))))
        }
        Err(VaultFault::Memory(error)) => Err(PrepareFault::Memory(error)),
    }
}

// The query bound to the tables of a version, and its program.
fn ready(
    alloc: Global,
    query: &Query,
    snapshot: &Snapshot,
) -> Result<(BoundQuery, Linear), PrepareFault>
    requires { HaveRows snapshot.now.tables }
    ensures { Readies snapshot.now.tables query.now result }
{
    match bind(alloc, snapshot.schemas(), query) {
        Ok(bound) => {
            let linear = program(alloc, query, &bound, snapshot)?;
            Ok((bound, linear))
        }
        Err(BindFault::Refused(fault)) => {
            let refusal = refused::binding(alloc, None, &fault)?;
            Err(told(alloc, refusal))
        }
        Err(BindFault::Memory(error)) => Err(PrepareFault::Memory(error)),
    }
}

// The program of a query that is bound.
fn program(
    alloc: Global,
    query: &Query,
    bound: &BoundQuery,
    snapshot: &Snapshot,
) -> Result<Linear, PrepareFault>
    requires rows { HaveRows snapshot.now.tables }
    requires good { faults_of snapshot.now.tables query.now ≡ [] }
    requires bound { IsBoundTo snapshot.now.tables query.now bound.now }
    ensures { Programs snapshot.now.tables query.now bound.now result }
{
    match translate(alloc, bound, rows_asked(snapshot, query)) {
        Ok(linear) => Ok(linear),
        Err(fault) => Err(formless(alloc, fault)),
    }
}

// Why a query has no program.
fn formless(alloc: Global, fault: FormFault) -> PrepareFault
    ensures { TellsForm fault result }
{
    match fault {
        FormFault::LimitCandidates(count) => {
            told(
                alloc,
                Some(Refusal::Query(QueryFault::LimitCandidates(count))),
            )
        }
        FormFault::TooLarge { conjunct, total } => {
            let Ok(total) = total.to_string(alloc) else {
                return PrepareFault::Memory(AllocError);
            };
            let conjunct = u64::from(conjunct);
            told(
                alloc,
                Some(Refusal::Query(QueryFault::TooLarge { conjunct, total })),
            )
        }
        FormFault::Memory(error) => PrepareFault::Memory(error),
    }
}

// The fault that tells a refusal.
fn told(alloc: Global, refusal: Option<Refusal>) -> PrepareFault
    ensures { IsToldBy refusal result }
{
    let Some(refusal) = refusal else {
        return PrepareFault::NotBuilt;
    };
    match refusal_reply(alloc, refusal) {
        Ok(reply) => PrepareFault::Refused(reply),
        Err(error) => PrepareFault::Memory(error),
    }
}
