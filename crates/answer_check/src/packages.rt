//! The package of a certificate: whether it meets the query, and what it is worth.
ghost use Rattle.std.specs.Prelude.{◌≡◌, ◌≤◌, ◌^◌, IfOk, unsigned_abs};
ghost use Rattle.bound_query.specs.Asks.{AreAskedOf};
ghost use Rattle.cert_text.specs.Certs.{RiseFrom};
ghost use Rattle.answer_check.specs.Verdicts.{HasProgram};
ghost use Rattle.answer_check.specs.Packages.{broken_by, cut_off, first_over, signed_by};
ghost use Rattle.answer_check.specs.Packages.{ComparesValue, IsJudged, JudgesPackage};

use crate::verdict::Verdict;
use bound_query::{BoundGoal, BoundQuery};
use package_judge::laws::meets_if_nothing_breaks;
use package_judge::{MAX_COUNT, Package, Place, Verdict as Judged, judge};
use std::alloc::{AllocError, Global};
use table_schema::Row;

/// The pairs up to the first one with too many copies, which has as many as a package can have,
/// and the id of that one.
struct CutOff {
    pairs: Vec<(u64, u32)>,
    over: Option<u64>,
}

fn cut_off(alloc: Global, pairs: &[(u64, u64)]) -> Result<CutOff, AllocError>
    ensures pairs { IfOk result (λ cut. cut.pairs.items ≡ cut_off pairs.now) }
    ensures over { IfOk result (λ cut. cut.over ≡ first_over pairs.now) }
{
    let mut taken = Vec::new(alloc);
    for (id, count) in pairs {
        if *count > u64::from(MAX_COUNT) {
            taken.push((*id, MAX_COUNT))?;
            let over = Some(*id);
            return Ok(CutOff { pairs: taken, over });
        }
        taken.push((*id, *count as u32))?;
    }
    let over = None;
    Ok(CutOff { pairs: taken, over })
}

/// What is said of pairs of which one has too many copies, by what is said of them up to that one.
fn broken_by(judged: Judged, over: u64) -> Place
    ensures { result ≡ broken_by judged over }
{
    match judged {
        Judged::Breaks(Place::Id(id)) => Place::Id(id),
        Judged::Breaks(Place::Where(id)) => Place::Where(id),
        Judged::Breaks(Place::Repeat(id)) => Place::Repeat(id),
        Judged::Breaks(Place::Conjunct(_)) | Judged::Meets(_) => Place::Repeat(over),
    }
}

/// The place at which pairs break the query first, or the goal's total if they break it nowhere.
fn judge_pairs(
    alloc: Global,
    query: &BoundQuery,
    rows: &[(u64, Row)],
    pairs: &[(u64, u64)],
) -> Result<Judged, AllocError>
    requires asked { AreAskedOf query.now rows.now }
    requires rise { RiseFrom 0 pairs.now }
    ensures { IfOk result (λ judged. IsJudged query.now rows.now pairs.now judged) }
{
    meets_if_nothing_breaks();
    let CutOff { pairs: taken, over } = cut_off(alloc, pairs)?;
    let package = Package::new(taken).unwrap();
    let judged = judge(query, rows, &package);
    match over {
        Some(id) => Ok(Judged::Breaks(broken_by(judged, id))),
        None => Ok(judged),
    }
}

/// The worth of a package, by its goal's total.
fn worth(goal: &Option<BoundGoal>, total: i128) -> i128
    requires { unsigned_abs total ≤ 2 ^ 60 }
    ensures { result ≡ signed_by goal.now total }
{
    match goal {
        Some(goal) if !goal.maximize => -total,
        Some(_) | None => total,
    }
}

/// What is wrong with the package of a certificate that claims a value, if anything is.
pub(crate) fn judge_package(
    alloc: Global,
    query: &BoundQuery,
    rows: &[(u64, Row)],
    pairs: &[(u64, u64)],
    claimed: i64,
) -> Result<Option<Verdict>, AllocError>
    requires asked { AreAskedOf query.now rows.now }
    requires program { HasProgram query.now rows.now }
    requires rise { RiseFrom 0 pairs.now }
    ensures { IfOk result (λ found. JudgesPackage query.now rows.now pairs.now claimed found) }
{
    match judge_pairs(alloc, query, rows, pairs)? {
        Judged::Breaks(place) => Ok(Some(Verdict::Package(place))),
        Judged::Meets(total) => Ok(wrong_value(claimed, worth(&query.goal, total))),
    }
}

/// What is wrong with a value, if it isn't what the package is worth.
fn wrong_value(claimed: i64, worth: i128) -> Option<Verdict>
    ensures { ComparesValue claimed worth result }
{
    if i128::from(claimed) == worth {
        None
    } else {
        Some(Verdict::Value { claimed, worth })
    }
}
