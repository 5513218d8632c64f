ghost use Rattle.std.specs.Prelude.{◌≡◌, ◌≤◌, ◌^◌, [], ◌∷◌, ℤ, IsTrue, IfOk};
ghost use Rattle.std.specs.Int.RustNames.{unsigned_abs};
ghost use Rattle.bound_query.specs.Fits.{IsBoundTerm, agg_fits, is_bound, fits};
ghost use Rattle.bound_query.specs.Asks.{IsAskedOf};

use super::*;
use bound_query::{
    BoundAgg, BoundConjunct, BoundGoal, BoundQuery, BoundTerm, Op, RowPred, RowRight,
};
use paql_ast::conditions::CmpOp;
use paql_ast::queries::Method;
use pq_base::Scaled;
use schema_types::Lit;
use sqlite_items::Items;
use std::alloc::{AllocError, Global};
use std::test::*;
use table_schema::{Cell, Row};

/// The greatest id that there is.
const LAST: u64 = u64::MAX;

#[test]
fn packages_are_judged(rt: HostRuntime) -> Result<(), Fail> {
    let cases: [(&[(u64, u32)], bool); 12] = [
        (&[], true),
        (&[(0, 1)], true),
        (&[(1, 1), (2, 3)], true),
        (&[(7, MAX_COUNT)], true),
        (&[(0, 1), (LAST, 2)], true),
        (&[(1, 0)], false),
        (&[(1, 1), (2, 0)], false),
        (&[(7, MAX_COUNT + 1)], false),
        (&[(7, u32::MAX)], false),
        (&[(2, 1), (2, 1)], false),
        (&[(3, 1), (2, 1)], false),
        (&[(LAST, 1), (LAST, 1)], false),
    ];
    for (case, good) in cases {
        match Package::new(case.to_vec(rt.alloc())?) {
            Some(package) => {
                assert!(rt; good, "{case:?}");
                assert_eq!(rt; package.pairs(), case, "{case:?}");
            }
            None => assert!(rt; !good, "{case:?}"),
        }
    }
    Ok(())
}

fn row(alloc: Global, units: i64) -> Result<Row, AllocError>
    ensures { IfOk result (λ made. made ≡ Cell.Num units ∷ []) }
{
    Ok(Items::from_vec(vec![in alloc; Cell::Num(units)]?))
}

/// `v < 9`
fn below_nine() -> RowPred
    ensures bound { IsTrue (is_bound result) }
    ensures fits { (units : ℤ) → IsTrue (fits (Cell.Num units ∷ []) result) }
{
    RowPred::Compare {
        column: 0,
        scale: 0,
        op: CmpOp::Lt,
        right: RowRight::Lit(Lit::Num(Scaled::new(9, 0))),
    }
}

/// 1 for each copy.
fn count() -> BoundTerm
    ensures bound { IsBoundTerm result }
    ensures fits { (units : ℤ) → unsigned_abs units ≤ 10 ^ 12
        → IsTrue (agg_fits (Cell.Num units ∷ []) result.agg) }
{
    BoundTerm {
        factor: 1,
        agg: BoundAgg::Count(RowPred::All),
        minus: 0,
    }
}

/// The number of each copy, less another.
fn numbers_less(minus: i128) -> BoundTerm
    requires { unsigned_abs minus ≤ 10 }
    ensures bound { IsBoundTerm result }
    ensures fits { (units : ℤ) → unsigned_abs units ≤ 10 ^ 12
        → IsTrue (agg_fits (Cell.Num units ∷ []) result.agg) }
{
    BoundTerm {
        factor: 1,
        agg: BoundAgg::Sum(0, RowPred::All),
        minus,
    }
}

fn one_term(alloc: Global, term: BoundTerm) -> Result<Items<BoundTerm>, AllocError>
    ensures { IfOk result (λ made. made ≡ term ∷ []) }
{
    Ok(Items::from_vec(vec![in alloc; term]?))
}

/// `REPEAT 1 WHERE v < 9 SUCH THAT COUNT(P.*) <= 3 AND SUM(P.v) BETWEEN 5 AND 14 AND AVG(P.v) <= 6
/// MINIMIZE SUM(P.v)`
fn query(alloc: Global) -> Result<BoundQuery, AllocError>
    ensures { IfOk result (λ made. (units : ℤ) → unsigned_abs units ≤ 10 ^ 12
        → IsAskedOf made (Cell.Num units ∷ [])) }
{
    let few = BoundConjunct {
        terms: one_term(alloc, count())?,
        op: Op::Le,
        high: 3,
        low: 0,
        scale: 0,
    };
    let ranged = BoundConjunct {
        terms: one_term(alloc, numbers_less(0))?,
        op: Op::Between,
        high: 14,
        low: 5,
        scale: 0,
    };
    let average = BoundConjunct {
        terms: one_term(alloc, numbers_less(6))?,
        op: Op::Le,
        high: 0,
        low: 0,
        scale: 0,
    };
    let goal = BoundGoal {
        terms: one_term(alloc, numbers_less(0))?,
        maximize: false,
        scale: 0,
    };
    let conjuncts = vec![in alloc; few, ranged, average]?;
    Ok(BoundQuery {
        table: Items::new(alloc),
        version: None,
        filter: below_nine(),
        repeat: Some(1),
        row_bound: 2,
        conjuncts: Items::from_vec(conjuncts),
        goal: Some(goal),
        method: Method::Direct,
        budget: 1,
    })
}

/// The verdict on these pairs over the rows 1, 3 and 8, which have the numbers 5, 7 and 9.
fn judged(alloc: Global, pairs: &[(u64, u32)]) -> Result<Option<Verdict>, AllocError> {
    let asked = query(alloc)?;
    let first = row(alloc, 5)?;
    let second = row(alloc, 7)?;
    let third = row(alloc, 9)?;
    let rows = vec![in alloc; (1, first), (3, second), (8, third)]?;
    let Some(package) = Package::new(pairs.to_vec(alloc)?) else {
        return Ok(None);
    };
    Ok(Some(judge(&asked, rows.as_slice(), &package)))
}

#[test]
fn packages_are_judged_by_a_query(rt: HostRuntime) -> Result<(), Fail> {
    let cases: [(&[(u64, u32)], Verdict); 12] = [
        (&[(1, 1)], Verdict::Meets(5)),
        (&[(1, 2)], Verdict::Meets(10)),
        (&[(1, 1), (3, 1)], Verdict::Meets(12)),
        (&[(2, 1)], Verdict::Breaks(Place::Id(2))),
        (&[(8, 1)], Verdict::Breaks(Place::Where(8))),
        (&[(8, 3)], Verdict::Breaks(Place::Where(8))),
        (&[(1, 3)], Verdict::Breaks(Place::Repeat(1))),
        (&[(1, 3), (2, 1)], Verdict::Breaks(Place::Repeat(1))),
        (&[(1, 2), (3, 2)], Verdict::Breaks(Place::Conjunct(1))),
        (&[], Verdict::Breaks(Place::Conjunct(2))),
        (&[(1, 1), (3, 2)], Verdict::Breaks(Place::Conjunct(2))),
        (&[(3, 2)], Verdict::Breaks(Place::Conjunct(3))),
    ];
    for (case, verdict) in cases {
        assert_eq!(rt; judged(rt.alloc(), case)?, Some(verdict), "{case:?}");
    }
    Ok(())
}
