//! From a bound query and the rows of its table to a program.
ghost use Rattle.std.specs.Prelude.{◌≡◌, ◌≤◌, IfOk, length, map, replicate};
ghost use Rattle.std.specs.List.{AllByRecursion};
ghost use Rattle.bound_query.specs.Asks.{asks, AreAskedOf};
ghost use Rattle.package_program.specs.Columns.{AreColumnsOf};
ghost use Rattle.package_program.specs.Program.{candidates, ids_of};
ghost use Rattle.package_program.specs.Translation.{most_candidates, entries_of, AreCandidates};
ghost use Rattle.package_program.specs.Translation.{CostGives, RowsGive, ProgramGives, Translates};

use crate::columns::Columns;
use crate::faults::FormFault;
use crate::linear::Linear;
use crate::rows::{Rows, negated};
use crate::sums::adds_of;
use bound_query::{BoundQuery, eval};
use lin_bound::Problem;
use sqlite_items::Items;
use std::alloc::{AllocError, Global};
use table_schema::Row;

/// The most rows that can be candidates.
const MOST_CANDIDATES: usize = 100_000;

/// The rows that pass.
fn candidates<'a>(
    alloc: Global,
    query: &BoundQuery,
    rows: &'a [(u64, Row)],
) -> Result<Vec<&'a (u64, Row)>, AllocError>
    requires { AreAskedOf query.now rows.now }
    ensures { IfOk result (λ found.
        entries_of found.items ≡ candidates (asks query.now) rows.now) }
{
    let mut found = Vec::new(alloc);
    for row in rows {
        if eval(&query.filter, row.1.as_slice()) {
            found.push(row)?;
        }
    }
    Ok(found)
}

/// So many variables, each at most so much.
fn uppers(alloc: Global, variables: usize, most: u32) -> Result<Items<u64>, AllocError>
    ensures { IfOk result (λ made. made ≡ replicate variables most) }
{
    Ok(Items::from_vec(vec![in alloc; u64::from(most); variables]?))
}

fn ids_of(alloc: Global, candidates: &[&(u64, Row)]) -> Result<Vec<u64>, AllocError>
    ensures { IfOk result (λ ids. ids.items ≡ ids_of (entries_of candidates.now)) }
{
    let mut ids = Vec::with_capacity(alloc, candidates.len())?;
    for candidate in candidates {
        ids.push(candidate.0)?;
    }
    Ok(ids)
}

/// The cost of each variable.
fn costs(
    alloc: Global,
    query: &BoundQuery,
    candidates: &[&(u64, Row)],
    columns: &Columns,
) -> Result<Items<i64>, FormFault>
    requires rows { AreCandidates query.now (entries_of candidates.now) }
    requires columns { AreColumnsOf (entries_of candidates.now) columns.now }
    ensures { CostGives query.now (entries_of candidates.now) result }
{
    let Some(goal) = &query.goal else {
        return adds_of(alloc, &[], candidates, columns, query.row_bound, 0);
    };
    let terms = goal.terms.as_slice();
    let sum = adds_of(alloc, terms, candidates, columns, query.row_bound, 0)?;
    if goal.maximize {
        Ok(sum)
    } else {
        Ok(negated(sum))
    }
}

/// The rows of all conjuncts.
fn rows_of(
    alloc: Global,
    query: &BoundQuery,
    candidates: &[&(u64, Row)],
    columns: &Columns,
) -> Result<Rows, FormFault>
    requires rows { AreCandidates query.now (entries_of candidates.now) }
    requires columns { AreColumnsOf (entries_of candidates.now) columns.now }
    ensures { RowsGive query.now (entries_of candidates.now) result }
{
    let mut rows = Rows::new(alloc);
    for (place, conjunct) in query.conjuncts.as_slice().iter().enumerate() {
        let number = place as u32 + 1;
        let terms = conjunct.terms.as_slice();
        let sum = adds_of(alloc, terms, candidates, columns, query.row_bound, number)?;
        rows.add(alloc, conjunct, sum)?;
    }
    Ok(rows)
}

/// The program over the candidates.
fn program_of(
    alloc: Global,
    query: &BoundQuery,
    candidates: &[&(u64, Row)],
) -> Result<Linear, FormFault>
    requires { AreCandidates query.now (entries_of candidates.now) }
    ensures { ProgramGives query.now (entries_of candidates.now) result }
{
    let columns = Columns::new(alloc, query, candidates)?;
    let cost = costs(alloc, query, candidates, &columns)?;
    let Rows { rows, rhs } = rows_of(alloc, query, candidates, &columns)?;
    let upper = uppers(alloc, candidates.len(), query.row_bound)?;
    let ids = ids_of(alloc, candidates)?;
    Ok(Linear::new(Problem::new(cost, rows, rhs, upper), ids))
}

/// The program of a query over the rows of its table, each after its id: a variable for each row
/// that passes WHERE, in ascending order of the ids. The time grows as the number of rows times
/// that of the terms.
pub fn translate(
    alloc: Global,
    query: &BoundQuery,
    rows: &[(u64, Row)],
) -> Result<Linear, FormFault>
    requires { AreAskedOf query.now rows.now }
    ensures { Translates query.now rows.now result }
{
    let candidates = candidates(alloc, query, rows)?;
    if candidates.len() > MOST_CANDIDATES {
        return Err(FormFault::LimitCandidates(candidates.len() as u64));
    }
    program_of(alloc, query, &candidates)
}
