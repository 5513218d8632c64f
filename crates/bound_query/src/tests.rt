ghost use Rattle.std.specs.Prelude.{◌≡◌, ◌≤◌, [], ◌∷◌, ℤ, IsTrue, IfOk, false};
ghost use Rattle.std.specs.Int.RustNames.{unsigned_abs};
ghost use Rattle.bound_query.specs.Fits.{most_scale, most_units, is_text_lit, is_bound_lit, is_bound, fits};

use super::*;
use paql_ast::conditions::CmpOp;
use pq_base::Scaled;
use schema_types::Lit;
use sqlite_items::{Boxed, Items};
use std::alloc::{AllocError, Global};
use std::test::*;
use table_schema::Cell;

fn whole(value: i64) -> Lit
    requires { unsigned_abs value ≤ most_units }
    ensures number { is_text_lit result ≡ false }
    ensures bound { IsTrue (is_bound_lit result) }
{
    Lit::Num(Scaled::new(i128::from(value), 0))
}

/// `column op number` on a row of one number.
fn compares(units: i64, scale: u8, op: CmpOp, number: &Scaled) -> bool
    requires scale { scale ≤ most_scale }
    requires places { number.now.scale ≤ most_scale }
    requires small { unsigned_abs number.now.mant ≤ most_units }
{
    let pred = RowPred::Compare {
        column: 0,
        scale,
        op,
        right: RowRight::Lit(Lit::Num(*number)),
    };
    eval(&pred, &[Cell::Num(units)])
}

#[test]
fn numbers_of_other_scales(rt: HostRuntime) {
    assert!(rt; compares(5, 0, CmpOp::Eq, &Scaled::new(5, 0)));
    assert!(rt; compares(50, 1, CmpOp::Eq, &Scaled::new(5, 0)));
    assert!(rt; !compares(51, 1, CmpOp::Le, &Scaled::new(5, 0)));
    assert!(rt; compares(5, 0, CmpOp::Lt, &Scaled::new(500001, 5)));
    assert!(rt; compares(-51, 1, CmpOp::Lt, &Scaled::new(-5, 0)));
    assert!(rt; compares(i64::MAX, 6, CmpOp::Gt, &Scaled::new(1_000_000_000_000, 0)));
    assert!(rt; compares(i64::MIN, 0, CmpOp::Ne, &Scaled::new(-1, 6)));
}

/// `column op 'other'` on a row of one text.
fn compares_texts(alloc: Global, one: &[u8], op: CmpOp, other: &[u8]) -> Result<bool, AllocError> {
    let pred = RowPred::Compare {
        column: 0,
        scale: 0,
        op,
        right: RowRight::Lit(Lit::Text(Items::from_slice(alloc, other)?)),
    };
    Ok(eval(&pred, &[Cell::Text(Items::from_slice(alloc, one)?)]))
}

#[test]
fn texts_by_their_bytes(rt: HostRuntime) -> Result<(), Fail> {
    let alloc = rt.alloc();
    assert!(rt; compares_texts(alloc, b"it's", CmpOp::Eq, b"it's")?);
    assert!(rt; compares_texts(alloc, b"it's", CmpOp::Ne, b"it''s")?);
    assert!(rt; compares_texts(alloc, b"ab", CmpOp::Lt, b"abc")?);
    assert!(rt; compares_texts(alloc, "\u{e9}".as_bytes(), CmpOp::Gt, b"z")?);
    assert!(rt; compares_texts(alloc, b"", CmpOp::Le, b"")?);
    assert!(rt; compares_texts(alloc, b"B", CmpOp::Lt, b"a")?);
    Ok(())
}

/// `2 BETWEEN -3 AND 7`, for 2 the number given.
fn lies_between(units: i64) -> bool {
    let pred = RowPred::Between {
        column: 0,
        scale: 0,
        low: whole(-3),
        high: whole(7),
    };
    eval(&pred, &[Cell::Num(units)])
}

/// `number IN (2, 9)`
fn is_listed(alloc: Global, units: i64) -> Result<bool, AllocError> {
    let pred = RowPred::In {
        column: 0,
        scale: 0,
        list: Items::from_vec(vec![in alloc; whole(2), whole(9)]?),
    };
    Ok(eval(&pred, &[Cell::Num(units)]))
}

#[test]
fn ranges_and_lists(rt: HostRuntime) -> Result<(), Fail> {
    for (number, ranged, listed) in [
        (-4, false, false),
        (-3, true, false),
        (2, true, true),
        (7, true, false),
        (8, false, false),
        (9, false, true),
    ] {
        assert_eq!(rt; lies_between(number), ranged, "{number}");
        assert_eq!(rt; is_listed(rt.alloc(), number)?, listed, "{number}");
    }
    Ok(())
}

/// `a > b`, where b has a digit after the point.
fn above() -> RowPred
    ensures fits { (a b : ℤ) → IsTrue (fits (Cell.Num a ∷ Cell.Num b ∷ []) result) }
    ensures bound { IsTrue (is_bound result) }
{
    RowPred::Compare {
        column: 0,
        scale: 0,
        op: CmpOp::Gt,
        right: RowRight::Column {
            column: 1,
            scale: 1,
        },
    }
}

/// `a = 1`
fn is_one() -> RowPred
    ensures fits { (a b : ℤ) → IsTrue (fits (Cell.Num a ∷ Cell.Num b ∷ []) result) }
    ensures bound { IsTrue (is_bound result) }
{
    RowPred::Compare {
        column: 0,
        scale: 0,
        op: CmpOp::Eq,
        right: RowRight::Lit(whole(1)),
    }
}

/// `b = 0.2`
fn is_a_fifth() -> RowPred
    ensures fits { (a b : ℤ) → IsTrue (fits (Cell.Num a ∷ Cell.Num b ∷ []) result) }
    ensures bound { IsTrue (is_bound result) }
{
    RowPred::Compare {
        column: 1,
        scale: 1,
        op: CmpOp::Eq,
        right: RowRight::Lit(Lit::Num(Scaled::new(2, 1))),
    }
}

fn either(alloc: Global, one: RowPred, other: RowPred) -> Result<RowPred, AllocError>
    ensures { IfOk result (λ made. made ≡ RowPred.Or (one ∷ other ∷ [])) }
{
    let parts = vec![in alloc; one, other]?;
    Ok(RowPred::Or(Items::from_vec(parts)))
}

fn both(alloc: Global, one: RowPred, other: RowPred) -> Result<RowPred, AllocError>
    ensures { IfOk result (λ made. made ≡ RowPred.And (one ∷ other ∷ [])) }
{
    let parts = vec![in alloc; one, other]?;
    Ok(RowPred::And(Items::from_vec(parts)))
}

/// `NOT (a = 1 AND (a > b OR b = 0.2))`
fn is_nested(alloc: Global, a: i64, tenths: i64) -> Result<bool, AllocError> {
    let inner = either(alloc, above(), is_a_fifth())?;
    let outer = both(alloc, is_one(), inner)?;
    let pred = RowPred::Not(Boxed::new(alloc, outer)?);
    Ok(eval(&pred, &[Cell::Num(a), Cell::Num(tenths)]))
}

#[test]
fn conditions_in_conditions(rt: HostRuntime) -> Result<(), Fail> {
    for (a, tenths, meets) in [(1, 9, false), (1, 10, true), (1, 2, false), (3, 2, true)] {
        assert_eq!(rt; is_nested(rt.alloc(), a, tenths)?, meets, "{a}, {tenths}");
    }
    Ok(())
}
