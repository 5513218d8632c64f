//! Whole queries.
ghost use Rattle.std.specs.Prelude.{◌≡◌, [], IfOk, Some, unwrap_or};
ghost use Rattle.paql_bind.specs.Constraints.{conjuncts_faults, goal_faults};
ghost use Rattle.paql_bind.specs.Conditions.{filter_faults, bound_filter};
ghost use Rattle.paql_bind.specs.Faults.{Refuses};
ghost use Rattle.paql_bind.specs.Names.{IsLegal};
ghost use Rattle.paql_bind.specs.Queries as queries;
ghost use Rattle.paql_bind.specs.RowBounds.{row_bound_of};
ghost use Rattle.paql_bind.specs.Scopes.{seen};
ghost use Rattle.paql_bind.specs.Sound.{IsSound};

use crate::conditions::{bound_pred, check_pred};
use crate::constraints::{bound_conjuncts, bound_goal, check_conjuncts, check_goal};
use crate::faults::{BindFault, Refusal, no_table};
use crate::limits::{DEFAULT_BUDGET, MAX_BUDGET, MAX_CONJUNCTS, MAX_ROW_BOUND, MAX_TERMS};
use crate::row_bounds::row_bound;
use crate::scope::Scope;
use bound_query::{BoundQuery, RowPred};
use paql_ast::conditions::Pred;
use paql_ast::queries::{Conjunct, Goal, Method, Query};
use schema_types::Text;
use sqlite_items::Items;
use std::alloc::{AllocError, Global};
use table_schema::{Schema, Schemas, schema_named};

/// The name of the rows: the alias, or the table's name if there is none.
fn relation(query: &Query) -> &Text
    ensures { result.now ≡ queries.relation query.now }
{
    match &query.alias {
        Some(alias) => alias,
        None => &query.table,
    }
}

/// Refuses a PACKAGE that names other things than the rows of the query.
fn check_of(alloc: Global, query: &Query) -> Result<(), BindFault>
    ensures { Refuses (queries.of_faults query.now) result }
{
    if query.of.as_slice() == relation(query).as_slice() {
        return Ok(());
    }
    Err(no_table(alloc, &query.of))
}

fn check_budget(budget: Option<u64>) -> Result<(), BindFault>
    ensures { Refuses (queries.budget_faults budget) result }
{
    match budget {
        Some(budget) if budget < 1 || budget > MAX_BUDGET => {
            Err(BindFault::Refused(Refusal::LimitBudget(budget)))
        }
        _ => Ok(()),
    }
}

fn check_filter(alloc: Global, scope: &Scope<'_>, filter: &Option<Pred>) -> Result<(), BindFault>
    ensures { Refuses (filter_faults (seen scope.now) filter.now) result }
{
    match filter {
        Some(pred) => check_pred(alloc, scope, pred),
        None => Ok(()),
    }
}

/// The faults inside WHERE, SUCH THAT and the goal.
fn check_inside(
    alloc: Global,
    rows: &Scope<'_>,
    copies: &Scope<'_>,
    query: &Query,
) -> Result<(), BindFault>
    ensures { Refuses (queries.inner_faults (seen rows.now) (seen copies.now) query.now) result }
{
    check_filter(alloc, rows, &query.filter)?;
    check_conjuncts(alloc, copies, query.conjuncts.as_slice())?;
    check_goal(alloc, copies, &query.goal)
}

fn check_number_of_conjuncts(conjuncts: &[Conjunct]) -> Result<(), BindFault>
    ensures { Refuses (queries.number_of_conjuncts conjuncts.now) result }
{
    if conjuncts.len() > MAX_CONJUNCTS {
        return Err(BindFault::Refused(Refusal::LimitConjuncts(conjuncts.len() as u64)));
    }
    Ok(())
}

/// How many terms are written, on both sides together.
fn written_terms(conjunct: &Conjunct) -> u128
    ensures { result ≡ queries.written_terms conjunct.now }
{
    match conjunct {
        Conjunct::Compare { left, right, .. } => left.len() as u128 + right.len() as u128,
        Conjunct::Between { sum, .. } => sum.len() as u128,
        Conjunct::Avg { .. } | Conjunct::AvgBetween { .. } => 0,
    }
}

/// How many places a constraint takes among the bound ones.
fn places_of(conjunct: &Conjunct) -> u64
    ensures { result ≡ queries.places_of conjunct.now }
{
    match conjunct {
        Conjunct::AvgBetween { .. } => 2,
        _ => 1,
    }
}

/// A counted number, held to 64 bits.
fn held(number: u128) -> u64
    ensures { result ≡ queries.held number }
{
    number.min(u128::from(u64::MAX)) as u64
}

fn check_number_of_terms(conjunct: u64, terms: u128) -> Result<(), BindFault>
    ensures { Refuses (queries.number_of_terms conjunct terms) result }
{
    if terms > MAX_TERMS as u128 {
        return Err(BindFault::Refused(Refusal::LimitTerms {
            conjunct,
            given: held(terms),
        }));
    }
    Ok(())
}

/// Refuses the first constraint with too many terms. There are few constraints.
fn check_terms(conjuncts: &[Conjunct]) -> Result<(), BindFault>
    requires { queries.number_of_conjuncts conjuncts.now ≡ [] }
    ensures { Refuses (queries.terms_faults 1 conjuncts.now) result }
{
    let mut number = 1u64;
    for conjunct in conjuncts {
        check_number_of_terms(number, written_terms(conjunct))?;
        number += places_of(conjunct);
    }
    Ok(())
}

fn check_parts(goal: &Option<Goal>) -> Result<(), BindFault>
    ensures { Refuses (queries.parts_faults goal.now) result }
{
    match goal {
        Some(goal) => check_number_of_terms(0, goal.parts.len() as u128),
        None => Ok(()),
    }
}

/// The limits on constraints and terms.
fn check_sizes(query: &Query) -> Result<(), BindFault>
    ensures { Refuses (queries.size_faults query.now) result }
{
    let conjuncts = query.conjuncts.as_slice();
    check_number_of_conjuncts(conjuncts)?;
    check_terms(conjuncts)?;
    check_parts(&query.goal)
}

/// A row bound that is there and isn't too great.
fn legal_bound(bound: Option<u128>) -> Result<u32, BindFault>
    ensures refused { Refuses (queries.bound_faults bound) result }
    ensures bound { IfOk result (λ legal. bound ≡ Some legal) }
{
    match bound {
        None => Err(BindFault::Refused(Refusal::Unbounded)),
        Some(bound) if bound > u128::from(MAX_ROW_BOUND) => {
            Err(BindFault::Refused(Refusal::LimitRepeat(held(bound))))
        }
        Some(bound) => Ok(bound as u32),
    }
}

/// Refuses a query by its first fault, and gives its row bound.
fn check_query(
    alloc: Global,
    rows: &Scope<'_>,
    copies: &Scope<'_>,
    query: &Query,
) -> Result<u32, BindFault>
    ensures refused { Refuses (queries.checked_faults (seen rows.now) (seen copies.now) query.now)
        result }
    ensures bound { IfOk result
        (λ bound. row_bound_of query.now.repeat query.now.conjuncts ≡ Some bound) }
{
    check_of(alloc, query)?;
    check_budget(query.budget)?;
    check_inside(alloc, rows, copies, query)?;
    check_sizes(query)?;
    legal_bound(row_bound(query.repeat, query.conjuncts.as_slice()))
}

fn bound_filter(
    alloc: Global,
    scope: &Scope<'_>,
    filter: &Option<Pred>,
) -> Result<RowPred, AllocError>
    ensures { IfOk result (λ bound. bound ≡ bound_filter (seen scope.now) filter.now) }
{
    match filter {
        Some(pred) => bound_pred(alloc, scope, pred),
        None => Ok(RowPred::All),
    }
}

fn budget_of(budget: Option<u64>) -> u32
    requires { queries.budget_faults budget ≡ [] }
    ensures { result ≡ unwrap_or budget DEFAULT_BUDGET }
{
    match budget {
        Some(budget) => budget as u32,
        None => DEFAULT_BUDGET,
    }
}

/// A query that isn't refused.
fn bound_in(
    alloc: Global,
    rows: &Scope<'_>,
    copies: &Scope<'_>,
    query: &Query,
    row_bound: u32,
) -> Result<BoundQuery, AllocError>
    requires budget { queries.budget_faults query.now.budget ≡ [] }
    requires conjuncts { conjuncts_faults (seen copies.now) query.now.conjuncts ≡ [] }
    requires goal { goal_faults (seen copies.now) query.now.goal ≡ [] }
    requires bound { row_bound_of query.now.repeat query.now.conjuncts ≡ Some row_bound }
    requires sound { IsSound (queries.bound_in (seen rows.now) (seen copies.now) query.now) }
    ensures { IfOk result
        (λ bound. queries.parts_of bound
        ≡ queries.bound_in (seen rows.now) (seen copies.now) query.now) }
{
    let table = Items::from_slice(alloc, query.table.as_slice())?;
    let filter = bound_filter(alloc, rows, &query.filter)?;
    let conjuncts = bound_conjuncts(alloc, copies, query.conjuncts.as_slice())?;
    let goal = bound_goal(alloc, copies, &query.goal)?;
    Ok(BoundQuery {
        table,
        version: query.version,
        filter,
        repeat: query.repeat,
        row_bound,
        conjuncts,
        goal,
        method: query.method.unwrap_or(Method::Direct),
        budget: budget_of(query.budget),
    })
}

fn bind_in(
    alloc: Global,
    rows: &Scope<'_>,
    copies: &Scope<'_>,
    query: &Query,
) -> Result<BoundQuery, BindFault>
    requires rows { IsLegal (seen rows.now) }
    requires copies { IsLegal (seen copies.now) }
    ensures refused { Refuses (queries.checked_faults (seen rows.now) (seen copies.now) query.now)
        result }
    ensures bound { IfOk result
        (λ bound. queries.parts_of bound
        ≡ queries.bound_in (seen rows.now) (seen copies.now) query.now) }
{
    let row_bound = check_query(alloc, rows, copies, query)?;
    bound_in(alloc, rows, copies, query, row_bound).map_err(BindFault::Memory)
}

fn bind_over(alloc: Global, schema: &Schema, query: &Query) -> Result<BoundQuery, BindFault>
    ensures refused { Refuses (queries.faults_over schema.now query.now) result }
    ensures bound { IfOk result
        (λ bound. queries.parts_of bound ≡ queries.bound_over schema.now query.now) }
{
    // Its columns keep few digits after the point, on which the sizes of a bound query rest.
    let _columns = schema.columns();
    let rows = Scope {
        schema,
        prefix: relation(query).as_slice(),
    };
    let copies = Scope {
        schema,
        prefix: query.package.as_slice(),
    };
    bind_in(alloc, &rows, &copies, query)
}

/// Binds a query to the tables that are there. A query that isn't a tree of the grammar, with `<>`
/// between sums, is bound as with `=`.
pub fn bind(alloc: Global, schemas: &Schemas, query: &Query) -> Result<BoundQuery, BindFault>
    ensures refused { Refuses (queries.query_faults schemas.now query.now) result }
    ensures bound { IfOk result
        (λ bound. queries.parts_of bound ≡ queries.bound_query_of schemas.now query.now) }
{
    match schema_named(schemas, query.table.as_slice()) {
        Some(schema) => bind_over(alloc, schema, query),
        None => Err(no_table(alloc, &query.table)),
    }
}
