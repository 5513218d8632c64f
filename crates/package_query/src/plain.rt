//! A plain, slow program for small queries. Its contracts are the definitions, so that what other
//! programs answer can be compared with it.
ghost use Rattle.std.specs.Prelude.{◌≡◌, ◌↔◌, ◌+◌, ◌^◌, ◌<◌, ◌≤◌, length, map, IsTrue, IfOk, MatchOption};
ghost use Rattle.std.specs.List.{AllByRecursion};
ghost use Rattle.package_query.specs.Package.{IsPackage, AscendsFrom};
ghost use Rattle.package_query.specs.Meaning.{IsAllowed, Keeps, Meets, Best, Empty, worth, goal_worth};
ghost use Rattle.package_query.specs.Plain.{conjunct_of, goal_of, query_of, HaveFewTerms, IsSmall, IsSmallPackage};

use crate::comparison::{Comparison, holds};
pub use crate::limits::{ascends, is_small};
use crate::search::search;
use crate::sums::{row_at, total};
use sqlite_items::Items;
use std::alloc::{AllocError, Global};

/// A condition on the package: the numbers at these places of each row's list are summed.
#[derive(Debug, Drop)]
pub struct PlainConjunct {
    pub terms: Items<usize>,
    pub comparison: Comparison,
}

/// The sum that is to be greatest, or least.
#[derive(Debug, Drop)]
pub struct PlainGoal {
    pub maximize: bool,
    pub terms: Items<usize>,
}

/// A package query over rows that are lists of numbers. Every row passes: leave out those that
/// don't. A row may occur `repeat + 1` times.
#[derive(Debug, Drop)]
pub struct PlainQuery {
    pub repeat: u64,
    pub conjuncts: Items<PlainConjunct>,
    pub goal: Option<PlainGoal>,
}

/// A best package: ids with their counts, and what the package is worth.
#[derive(Debug, Drop)]
pub struct PlainBest {
    pub pairs: Vec<(u64, u64)>,
    pub worth: i128,
}

/// Whether ids ascend, each with a count of at least 1.
pub fn is_package(pairs: &[(u64, u64)]) -> bool
    ensures { IsTrue result ↔ IsPackage pairs.now }
{
    let mut low: u128 = 0;
    for (id, count) in pairs {
        if u128::from(*id) < low {
            return false;
        }
        if *count == 0 {
            return false;
        }
        low = u128::from(*id) + 1;
    }
    true
}

/// Whether the package meets the query over this table, whose rows come after their ids.
pub fn meets(query: &PlainQuery, rows: &[(u64, Items<i64>)], pairs: &[(u64, u64)]) -> bool
    requires small { IsSmall query.now rows.now }
    requires ascends { AscendsFrom 0 rows.now }
    ensures { IsTrue result ↔ Meets (query_of query.now) rows.now pairs.now }
{
    if !is_package(pairs) {
        return false;
    }
    if !all_allowed(query, rows, pairs) {
        return false;
    }
    keeps_all(query.conjuncts.as_slice(), rows, pairs)
}

/// What a package of allowed pairs is worth, whether or not it keeps the conjuncts: the goal's
/// total, negated where it is to be least, and 0 without a goal.
pub fn worth(query: &PlainQuery, rows: &[(u64, Items<i64>)], pairs: &[(u64, u64)]) -> i128
    requires small { IsSmall query.now rows.now }
    requires ascends { AscendsFrom 0 rows.now }
    requires rises { IsPackage pairs.now }
    requires each { AllByRecursion (IsAllowed (query_of query.now) rows.now) pairs.now }
    ensures { result ≡ worth (query_of query.now) rows.now pairs.now }
{
    match &query.goal {
        None => 0,
        Some(goal) => goal_worth(goal, rows, pairs),
    }
}

/// The best of all packages that meet the query, `None` where none does. It tries each, so the
/// time grows as `repeat + 2` to the power of the number of rows.
pub fn best(
    alloc: Global,
    query: &PlainQuery,
    rows: &[(u64, Items<i64>)],
) -> Result<Option<PlainBest>, AllocError>
    requires small { IsSmall query.now rows.now }
    requires ascends { AscendsFrom 0 rows.now }
    ensures { IfOk result (λ found.
        MatchOption found (Empty (query_of query.now) rows.now) (λ best.
        Best (query_of query.now) rows.now best.pairs.items
        × (best.worth ≡ worth (query_of query.now) rows.now best.pairs.items))) }
{
    search(alloc, query, rows, rows, &[], None)
}

fn is_allowed(query: &PlainQuery, rows: &[(u64, Items<i64>)], pair: &(u64, u64)) -> bool
    requires { query.now.repeat < 2 ^ 20 }
    ensures { IsTrue result ↔ IsAllowed (query_of query.now) rows.now pair.now }
{
    row_at(pair.0, rows).is_some() && pair.1 <= query.repeat + 1
}

fn all_allowed(query: &PlainQuery, rows: &[(u64, Items<i64>)], pairs: &[(u64, u64)]) -> bool
    requires { query.now.repeat < 2 ^ 20 }
    ensures { IsTrue result ↔ AllByRecursion (IsAllowed (query_of query.now) rows.now) pairs.now }
{
    for pair in pairs {
        if !is_allowed(query, rows, pair) {
            return false;
        }
    }
    true
}

fn keeps(conjunct: &PlainConjunct, rows: &[(u64, Items<i64>)], pairs: &[(u64, u64)]) -> bool
    requires terms { length conjunct.now.terms ≤ 64 }
    requires pairs { IsSmallPackage pairs.now }
    ensures { IsTrue result ↔ Keeps rows.now pairs.now (conjunct_of conjunct.now) }
{
    holds(
        conjunct.comparison,
        total(conjunct.terms.as_slice(), rows, pairs),
    )
}

fn keeps_all(conjuncts: &[PlainConjunct], rows: &[(u64, Items<i64>)], pairs: &[(u64, u64)]) -> bool
    requires terms { HaveFewTerms conjuncts.now }
    requires pairs { IsSmallPackage pairs.now }
    ensures { IsTrue result
        ↔ AllByRecursion (Keeps rows.now pairs.now) (map conjunct_of conjuncts.now) }
{
    for conjunct in conjuncts {
        if !keeps(conjunct, rows, pairs) {
            return false;
        }
    }
    true
}

fn goal_worth(goal: &PlainGoal, rows: &[(u64, Items<i64>)], pairs: &[(u64, u64)]) -> i128
    requires terms { length goal.now.terms ≤ 64 }
    requires pairs { IsSmallPackage pairs.now }
    ensures { result ≡ goal_worth (goal_of (Some goal.now)) rows.now pairs.now }
{
    let sum = total(goal.terms.as_slice(), rows, pairs);
    if goal.maximize { sum } else { -sum }
}
