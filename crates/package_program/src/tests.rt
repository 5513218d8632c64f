ghost use Rattle.std.specs.Prelude.{◌≡◌, ◌≤◌, ◌<◌, ◌^◌, [], ◌∷◌, ℤ, pos, IsTrue, IfOk};
ghost use Rattle.std.specs.Int.RustNames.{unsigned_abs};
ghost use Rattle.lin_bound.specs.Problem.{row_count};
ghost use Rattle.bound_query.specs.Fits.{IsBoundTerm, AreBoundTerms, IsBoundConjunct, rows_for, agg_fits, is_bound, fits};
ghost use Rattle.bound_query.specs.Asks.{IsAskedOf};

use super::*;
use bound_query::{
    BoundAgg, BoundConjunct, BoundGoal, BoundQuery, BoundTerm, Op, RowPred, RowRight,
};
use lin_bound::Problem;
use package_judge::Package;
use paql_ast::conditions::CmpOp;
use paql_ast::queries::Method;
use pq_base::Scaled;
use schema_types::Lit;
use sqlite_items::Items;
use std::alloc::{AllocError, Global};
use std::test::*;
use table_schema::{Cell, Row};

fn row(alloc: Global, units: i64) -> Result<Row, AllocError>
    ensures { IfOk result (λ made. made ≡ Cell.Num units ∷ []) }
{
    Ok(Items::from_vec(vec![in alloc; Cell::Num(units)]?))
}

/// `v < 9`
fn below_nine() -> RowPred
    ensures bound { IsTrue (is_bound result) }
    ensures fits { (units : ℤ) → IsTrue (fits (Cell.Num units ∷ []) result) }
{
    RowPred::Compare {
        column: 0,
        scale: 0,
        op: CmpOp::Lt,
        right: RowRight::Lit(Lit::Num(Scaled::new(9, 0))),
    }
}

/// So many times the number of each copy.
fn numbers_times(factor: i64) -> BoundTerm
    requires { unsigned_abs factor ≤ 10 ^ 12 }
    ensures bound { IsBoundTerm result }
    ensures fits { (units : ℤ) → unsigned_abs units ≤ 10 ^ 12
        → IsTrue (agg_fits (Cell.Num units ∷ []) result.agg) }
{
    BoundTerm {
        factor,
        agg: BoundAgg::Sum(0, RowPred::All),
        minus: 0,
    }
}

fn one_term(alloc: Global, term: BoundTerm) -> Result<Items<BoundTerm>, AllocError>
    ensures { IfOk result (λ made. made ≡ term ∷ []) }
{
    Ok(Items::from_vec(vec![in alloc; term]?))
}

/// What varies between the queries.
#[derive(Clone, Copy)]
struct Asked {
    op: Op,
    low: i64,
    high: i64,
    factor: i64,
    maximize: bool,
    /// The factor in the goal.
    times: i64,
}

/// The condition on these terms.
fn condition(terms: Items<BoundTerm>, asked: Asked) -> BoundConjunct
    requires { AreBoundTerms terms }
    ensures bound { IsBoundConjunct result }
    ensures terms { result.terms ≡ terms }
    ensures rows { rows_for result.op ≤ 2 }
{
    BoundConjunct {
        terms,
        op: asked.op,
        high: i128::from(asked.high),
        low: i128::from(asked.low),
        scale: 0,
    }
}

/// `REPEAT 1 WHERE v < 9 SUCH THAT factor * SUM(P.v) op high`, and the goal `times * SUM(P.v)`.
fn query(alloc: Global, asked: Asked) -> Result<BoundQuery, AllocError>
    requires factor { unsigned_abs asked.factor ≤ 10 ^ 12 }
    requires times { unsigned_abs asked.times ≤ 10 ^ 12 }
    ensures { IfOk result (λ made. (units : ℤ) → unsigned_abs units ≤ 10 ^ 12
        → IsAskedOf made (Cell.Num units ∷ [])) }
{
    let conjunct = condition(one_term(alloc, numbers_times(asked.factor))?, asked);
    let goal = BoundGoal {
        terms: one_term(alloc, numbers_times(asked.times))?,
        maximize: asked.maximize,
        scale: 0,
    };
    let conjuncts = vec![in alloc; conjunct]?;
    Ok(BoundQuery {
        table: Items::new(alloc),
        version: None,
        filter: below_nine(),
        repeat: Some(1),
        row_bound: 2,
        conjuncts: Items::from_vec(conjuncts),
        goal: Some(goal),
        method: Method::Direct,
        budget: 1,
    })
}

/// The rows 1, 4 and 9, which have the numbers `first`, 7 and 9.
fn table(alloc: Global, first: i64) -> Result<Vec<(u64, Row)>, AllocError>
    ensures { IfOk result (λ made. made.items ≡ (1, Cell.Num first ∷ [])
        ∷ (4, Cell.Num (pos 7) ∷ []) ∷ (9, Cell.Num (pos 9) ∷ []) ∷ []) }
{
    let one = row(alloc, first)?;
    let two = row(alloc, 7)?;
    let three = row(alloc, 9)?;
    Ok(vec![in alloc; (1, one), (4, two), (9, three)]?)
}

/// The program over these rows.
fn formed(alloc: Global, asked: Asked, first: i64) -> Result<Linear, FormFault>
    requires factor { unsigned_abs asked.factor ≤ 10 ^ 12 }
    requires times { unsigned_abs asked.times ≤ 10 ^ 12 }
    requires first { unsigned_abs first ≤ 10 ^ 12 }
{
    let asked = query(alloc, asked)?;
    let rows = table(alloc, first)?;
    translate(alloc, &asked, rows.as_slice())
}

/// What a problem says of a row, with its right-hand side after it.
fn row_told(alloc: Global, problem: &Problem, row: usize) -> Result<Vec<i64>, AllocError>
    requires { row < row_count problem.now }
{
    let mut told = Vec::new(alloc);
    for variable in 0..problem.variables() {
        told.push(problem.coefficient(row, variable))?;
    }
    told.push(problem.rhs(row))?;
    Ok(told)
}

/// All rows, and at last the costs.
fn told(alloc: Global, problem: &Problem) -> Result<Vec<Vec<i64>>, AllocError> {
    let mut told = Vec::new(alloc);
    for row in 0..problem.row_count() {
        told.push(row_told(alloc, problem, row)?)?;
    }
    let mut costs = Vec::new(alloc);
    for variable in 0..problem.variables() {
        costs.push(problem.cost(variable))?;
    }
    told.push(costs)?;
    Ok(told)
}

// 2^61
const MOST: i64 = 2_305_843_009_213_693_952;

const TRILLION: i64 = 1_000_000_000_000;

/// A query with this condition, whose goal is the sum of the numbers.
fn sum(op: Op, low: i64, high: i64, maximize: bool) -> Asked
    ensures factor { result.factor ≡ pos 1 }
    ensures times { result.times ≡ pos 1 }
{
    Asked {
        op,
        low,
        high,
        factor: 1,
        maximize,
        times: 1,
    }
}

#[test]
fn rows_of_each_comparison(rt: HostRuntime) -> Result<(), Fail> {
    let cases: [(Op, i64, i64, bool, &[&[i64]]); 8] = [
        (Op::Le, 0, 14, true, &[&[5, 7, 14], &[5, 7]]),
        (Op::Lt, 0, 14, true, &[&[5, 7, 13], &[5, 7]]),
        (Op::Ge, 0, 4, false, &[&[-5, -7, -4], &[-5, -7]]),
        (Op::Gt, 0, 4, false, &[&[-5, -7, -5], &[-5, -7]]),
        (Op::Eq, 0, 12, true, &[&[5, 7, 12], &[-5, -7, -12], &[5, 7]]),
        (
            Op::Between,
            5,
            14,
            true,
            &[&[5, 7, 14], &[-5, -7, -5], &[5, 7]],
        ),
        (Op::Le, 0, i64::MAX, true, &[&[5, 7, MOST], &[5, 7]]),
        (Op::Gt, 0, i64::MAX, true, &[&[-5, -7, -MOST], &[5, 7]]),
    ];
    for (op, low, high, maximize, want) in cases {
        let asked = sum(op, low, high, maximize);
        let linear = formed(rt.alloc(), asked, 5)?;
        assert_eq!(rt; linear.ids(), [1, 4].as_slice(), "{op:?}");
        assert_eq!(rt; linear.problem().uppers(), [2, 2].as_slice(), "{op:?}");
        let told = told(rt.alloc(), linear.problem())?;
        assert_eq!(rt; told.len(), want.len(), "{op:?}");
        for (row, want) in told.iter().zip(want) {
            assert_eq!(rt; row.as_slice(), *want, "{op:?}");
        }
    }
    Ok(())
}

#[test]
fn sums_that_are_too_large(rt: HostRuntime) -> Result<(), Fail> {
    // 2 * 10^12 * 10^6 is more than 2^60, and 2 * 10^12 * 576,460 is less.
    let cases = [
        (576_460, 576_460, None),
        (1_000_000, 1_000_000, Some((0, 2_000_000_000_000_000_000))),
        (1, 1_000_000, Some((1, 2_000_000_000_000_000_000))),
        (-1, -1_000_000, Some((1, 2_000_000_000_000_000_000))),
    ];
    for (times, factor, want) in cases {
        let asked = Asked {
            times,
            factor,
            ..sum(Op::Le, 0, 14, true)
        };
        let fault = match formed(rt.alloc(), asked, -TRILLION) {
            Err(FormFault::TooLarge { conjunct, total }) => Some((conjunct, total)),
            _ => None,
        };
        assert_eq!(rt; fault, want, "{times}, {factor}");
    }
    Ok(())
}

/// The package of the point of a package, if it has one.
fn there_and_back(
    alloc: Global,
    linear: &Linear,
    taken: &Package,
) -> Result<Option<Package>, AllocError> {
    let found = point_of(alloc, linear, taken)?;
    match found {
        Some(point) => Ok(Some(package_of(alloc, linear, &point)?)),
        None => Ok(None),
    }
}

#[test]
fn points_and_packages(rt: HostRuntime) -> Result<(), Fail> {
    let alloc = rt.alloc();
    let linear = formed(alloc, sum(Op::Le, 0, 14, true), 5)?;
    let cases: [(&[(u64, u32)], Option<&[u64]>); 7] = [
        (&[], Some(&[0, 0])),
        (&[(1, 2)], Some(&[2, 0])),
        (&[(1, 1), (4, 2)], Some(&[1, 2])),
        (&[(1, 3)], None),
        (&[(2, 1)], None),
        (&[(4, 1), (9, 1)], None),
        (&[(0, 1), (4, 1)], None),
    ];
    for (pairs, want) in cases {
        let taken = Package::new(pairs.to_vec(alloc)?).ok_or("no package")?;
        let point = point_of(alloc, &linear, &taken)?;
        assert_eq!(rt; point.is_some(), want.is_some(), "{pairs:?}");
        if let Some(counts) = want {
            let point = point.ok_or("no point")?;
            assert_eq!(rt; point.counts(), counts, "{pairs:?}");
            let back = there_and_back(alloc, &linear, &taken)?.ok_or("no package")?;
            assert_eq!(rt; back.pairs(), pairs, "{pairs:?}");
        }
    }
    Ok(())
}
