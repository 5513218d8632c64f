//! What the plain program asks of a query and its table, as tests.
ghost use Rattle.std.specs.Prelude.{◌↔◌, ◌≤◌, length, IsTrue, IfSome};
ghost use Rattle.package_query.specs.Package.{AscendsFrom};
ghost use Rattle.package_query.specs.Plain.{HaveFewTerms, IsSmall};
ghost use Rattle.package_query.specs.declared.plain.PlainGoal.{PlainGoal};

use crate::plain::{PlainConjunct, PlainGoal, PlainQuery};
use sqlite_items::Items;

fn have_few_terms(conjuncts: &[PlainConjunct]) -> bool
    ensures { IsTrue result ↔ HaveFewTerms conjuncts.now }
{
    for conjunct in conjuncts {
        if conjunct.terms.len() > 64 {
            return false;
        }
    }
    true
}

fn has_few_terms(goal: &Option<PlainGoal>) -> bool
    ensures { IsTrue result ↔ IfSome goal.now (λ (goal : PlainGoal). length goal.terms ≤ 64) }
{
    match goal {
        Some(goal) => goal.terms.len() <= 64,
        None => true,
    }
}

/// Whether every sum of the query over these rows stays within 128 bits.
pub fn is_small(query: &PlainQuery, rows: &[(u64, Items<i64>)]) -> bool
    ensures { IsTrue result ↔ IsSmall query.now rows.now }
{
    query.repeat < 1 << 20
        && have_few_terms(query.conjuncts.as_slice())
        && has_few_terms(&query.goal)
        && rows.len() < 1 << 32
}

/// Whether the ids of a table ascend.
pub fn ascends(rows: &[(u64, Items<i64>)]) -> bool
    ensures { IsTrue result ↔ AscendsFrom 0 rows.now }
{
    let mut low: u128 = 0;
    for entry in rows {
        if u128::from(entry.0) < low {
            return false;
        }
        low = u128::from(entry.0) + 1;
    }
    true
}
