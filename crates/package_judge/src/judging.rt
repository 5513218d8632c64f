//! Whether a package meets a query, and else where it breaks it.
ghost use Rattle.std.specs.Prelude.{◌≡◌, ◌≤◌, length, map};
ghost use Rattle.std.specs.List.{AllByRecursion};
ghost use Rattle.package_query.specs.Package.{AscendsFrom};
ghost use Rattle.package_query.specs.Meaning as meaning;
ghost use Rattle.bound_query.specs.Terms.{compared, conjunct_of, goal_of, term_value};
ghost use Rattle.bound_query.specs.Fits.{IsBoundConjunct, IsBoundGoal};
ghost use Rattle.bound_query.specs.Asks.{asks, AreAskedOf};
ghost use Rattle.package_judge.specs.Verdicts as verdicts;
ghost use Rattle.package_judge.specs.Verdicts.{first, IsVerdict};
ghost use Rattle.package_judge.specs.Sums.{AreSmall, RowsFit, RowsFitEach, RowsFitGoal};

use crate::packages::Package;
use crate::sums::{row_at, total};
use bound_query::{BoundConjunct, BoundGoal, BoundQuery, Op, eval};
use table_schema::Row;

/// Where a package breaks a query.
#[derive(Clone, Copy, Debug, PartialEq, Eq)]
pub enum Place {
    /// The table has no row with this id.
    Id(u64),
    /// WHERE doesn't let this row pass.
    Where(u64),
    /// There are more copies of this row than REPEAT allows.
    Repeat(u64),
    /// The constraint with this number, from 1, doesn't hold.
    Conjunct(u32),
}

/// What is said of a package.
#[derive(Clone, Copy, Debug, PartialEq, Eq)]
pub enum Verdict {
    /// It meets the query. The number is the total that is to be greatest or least, and 0 without a
    /// goal, in units of the goal's scale.
    Meets(i128),
    /// It doesn't, and this is the first place where it breaks the query: pair by pair the id,
    /// WHERE and REPEAT, and then constraint by constraint.
    Breaks(Place),
}

/// Judges a package by plain sums over the rows of a table, each after its id. It takes no memory.
pub fn judge(query: &BoundQuery, rows: &[(u64, Row)], package: &Package) -> Verdict
    requires { AreAskedOf query.now rows.now }
    ensures { IsVerdict (asks query.now) rows.now «package».now result }
{
    let pairs = package.pairs();
    if let Some(place) = broken_pair(query, rows, pairs) {
        return Verdict::Breaks(place);
    }
    if let Some(place) = broken_conjunct(query.conjuncts.as_slice(), rows, pairs) {
        return Verdict::Breaks(place);
    }
    Verdict::Meets(goal_total(&query.goal, rows, pairs))
}

/// Where a pair breaks the query's REPEAT.
fn broken_repeat(repeat: Option<u64>, pair: &(u64, u32)) -> Option<Place>
    ensures { result ≡ first (verdicts.count_breaks repeat pair.now) }
{
    match repeat {
        Some(more) if u128::from(pair.1) > u128::from(more) + 1 => Some(Place::Repeat(pair.0)),
        Some(_) | None => None,
    }
}

/// Where a pair breaks the query first.
fn broken_in(query: &BoundQuery, rows: &[(u64, Row)], pair: &(u64, u32)) -> Option<Place>
    requires { AreAskedOf query.now rows.now }
    ensures { result ≡ first (verdicts.pair_breaks (asks query.now) rows.now pair.now) }
{
    match row_at(pair.0, rows) {
        None => Some(Place::Id(pair.0)),
        Some(row) => {
            if !eval(&query.filter, row.as_slice()) {
                return Some(Place::Where(pair.0));
            }
            broken_repeat(query.repeat, pair)
        }
    }
}

/// Where the pairs break the query first.
fn broken_pair(query: &BoundQuery, rows: &[(u64, Row)], pairs: &[(u64, u32)]) -> Option<Place>
    requires { AreAskedOf query.now rows.now }
    ensures { result ≡ first (verdicts.pairs_break (asks query.now) rows.now pairs.now) }
{
    for pair in pairs {
        if let Some(place) = broken_in(query, rows, pair) {
            return Some(place);
        }
    }
    None
}

/// Whether a sum is as the constraint wants it.
fn keeps(op: Op, low: i128, high: i128, sum: i128) -> bool
    ensures { result ≡ verdicts.keeps (compared op low high) sum }
{
    match op {
        Op::Le => sum <= high,
        Op::Lt => sum < high,
        Op::Ge => sum >= high,
        Op::Gt => sum > high,
        Op::Eq => sum == high,
        Op::Between => low <= sum && sum <= high,
    }
}

fn holds(conjunct: &BoundConjunct, rows: &[(u64, Row)], pairs: &[(u64, u32)]) -> bool
    requires bound { IsBoundConjunct conjunct.now }
    requires ascends { AscendsFrom 0 rows.now }
    requires fits { RowsFit conjunct.now.terms rows.now }
    requires small { AreSmall pairs.now }
    ensures { result ≡ verdicts.keeps (compared conjunct.now.op conjunct.now.low conjunct.now.high)
        (meaning.total (map term_value conjunct.now.terms) rows.now pairs.now) }
{
    let sum = total(conjunct.terms.as_slice(), rows, pairs);
    keeps(conjunct.op, conjunct.low, conjunct.high, sum)
}

/// The first constraint that doesn't hold.
fn broken_conjunct(
    conjuncts: &[BoundConjunct],
    rows: &[(u64, Row)],
    pairs: &[(u64, u32)],
) -> Option<Place>
    requires bound { AllByRecursion IsBoundConjunct conjuncts.now }
    requires few { length conjuncts.now ≤ 62 }
    requires ascends { AscendsFrom 0 rows.now }
    requires fits { RowsFitEach conjuncts.now rows.now }
    requires small { AreSmall pairs.now }
    ensures { result
        ≡ first (verdicts.conjuncts_break rows.now pairs.now 1 (map conjunct_of conjuncts.now)) }
{
    let mut number: u32 = 1;
    for conjunct in conjuncts {
        if !holds(conjunct, rows, pairs) {
            return Some(Place::Conjunct(number));
        }
        number += 1;
    }
    None
}

fn goal_total(goal: &Option<BoundGoal>, rows: &[(u64, Row)], pairs: &[(u64, u32)]) -> i128
    requires bound { IsBoundGoal goal.now }
    requires ascends { AscendsFrom 0 rows.now }
    requires fits { RowsFitGoal goal.now rows.now }
    requires small { AreSmall pairs.now }
    ensures { result ≡ verdicts.goal_total (goal_of goal.now) rows.now pairs.now }
{
    match goal {
        None => 0,
        Some(goal) => total(goal.terms.as_slice(), rows, pairs),
    }
}
