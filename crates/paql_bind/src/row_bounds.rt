//! How often a row can occur in a package that meets a query, as far as REPEAT and counts say it.
ghost use Rattle.std.specs.Prelude.{◌≡◌, ◌^◌, ◌≤◌};
ghost use Rattle.paql_bind.specs.RowBounds as bounds;
ghost use Rattle.paql_bind.specs.Sums.{with_sign};

use paql_ast::aggregates::{Agg, Plain, SumItem, Term};
use paql_ast::conditions::CmpOp;
use paql_ast::queries::Conjunct;
use pq_base::Scaled;

/// What one side of a comparison of sums is.
#[derive(Clone, Copy, Debug)]
pub(crate) enum Side {
    /// The count of all copies, without a factor and without a minus.
    Count,
    /// One number, perhaps with a minus.
    Number { minus: bool, number: Scaled },
    Other,
}

fn plain_side(agg: &Agg) -> Side
    ensures { result ≡ bounds.plain_side agg.now.plain agg.now.only }
{
    match (&agg.plain, &agg.only) {
        (Plain::Count(_), None) => Side::Count,
        _ => Side::Other,
    }
}

fn agg_side(minus: bool, factor: Option<Scaled>, agg: &Agg) -> Side
    ensures { result ≡ bounds.agg_side minus factor agg.now }
{
    if minus {
        return Side::Other;
    }
    match factor {
        Some(_) => Side::Other,
        None => plain_side(agg),
    }
}

fn term_side(minus: bool, term: &Term) -> Side
    ensures { result ≡ bounds.term_side minus term.now }
{
    match term {
        Term::Number(number) => Side::Number {
            minus,
            number: *number,
        },
        Term::Agg { factor, agg } => agg_side(minus, *factor, agg),
    }
}

fn sum_side(items: &[SumItem]) -> Side
    ensures { result ≡ bounds.sum_side items.now }
{
    match items {
        [item] => term_side(item.minus, &item.term),
        _ => Side::Other,
    }
}

/// The digits of a number, and 0 for a negative one.
fn at_least_zero(minus: bool, digits: i128) -> u128
    ensures { result ≡ bounds.at_least_zero (with_sign minus digits) }
{
    if (digits < 0) == minus {
        digits.unsigned_abs()
    } else {
        0
    }
}

fn tens(scale: u8) -> u128
    requires { scale ≤ 30 }
    ensures value { result ≡ 10 ^ scale }
    ensures some { 1 ≤ result }
{
    10u128.pow(u32::from(scale))
}

/// What a count is bounded by that is compared with `digits / 10^scale`.
fn count_bound(op: CmpOp, digits: u128, scale: u8) -> Option<u128>
    requires { scale ≤ 30 }
    ensures { result ≡ bounds.count_bound op digits scale }
{
    let unit = tens(scale);
    match op {
        CmpOp::Le | CmpOp::Eq => Some(digits / unit),
        CmpOp::Lt => Some(digits.div_ceil(unit).saturating_sub(1)),
        CmpOp::Ge | CmpOp::Gt | CmpOp::Ne => None,
    }
}

/// The comparison with its sides exchanged.
fn mirrored(op: CmpOp) -> CmpOp
    ensures { result ≡ bounds.mirrored op }
{
    match op {
        CmpOp::Eq => CmpOp::Eq,
        CmpOp::Ne => CmpOp::Ne,
        CmpOp::Lt => CmpOp::Gt,
        CmpOp::Le => CmpOp::Ge,
        CmpOp::Gt => CmpOp::Lt,
        CmpOp::Ge => CmpOp::Le,
    }
}

fn number_bound(op: CmpOp, minus: bool, number: Scaled) -> Option<u128>
    ensures { result ≡ bounds.number_bound op minus number }
{
    count_bound(op, at_least_zero(minus, number.mant), number.scale)
}

fn sides_bound(left: Side, op: CmpOp, right: Side) -> Option<u128>
    ensures { result ≡ bounds.sides_bound left op right }
{
    match (left, right) {
        (Side::Count, Side::Number { minus, number }) => number_bound(op, minus, number),
        (Side::Number { minus, number }, Side::Count) => {
            number_bound(mirrored(op), minus, number)
        }
        _ => None,
    }
}

fn conjunct_bound(conjunct: &Conjunct) -> Option<u128>
    ensures { result ≡ bounds.conjunct_bound conjunct.now }
{
    match conjunct {
        Conjunct::Compare { left, op, right } => sides_bound(
            sum_side(left.as_slice()),
            *op,
            sum_side(right.as_slice()),
        ),
        Conjunct::Between { sum, high, .. } => {
            let high = Side::Number {
                minus: false,
                number: *high,
            };
            sides_bound(sum_side(sum.as_slice()), CmpOp::Le, high)
        }
        Conjunct::Avg { .. } | Conjunct::AvgBetween { .. } => None,
    }
}

/// The least of two bounds, of which either may be missing.
fn least(one: Option<u128>, other: Option<u128>) -> Option<u128>
    ensures { result ≡ bounds.least one other }
{
    match (one, other) {
        (Some(one), Some(other)) => Some(one.min(other)),
        (Some(one), None) => Some(one),
        (None, other) => other,
    }
}

/// How often a row can occur, if REPEAT or a count says it.
pub(crate) fn row_bound(repeat: Option<u64>, conjuncts: &[Conjunct]) -> Option<u128>
    ensures { result ≡ bounds.row_bound_of repeat conjuncts.now }
{
    let mut bound = match repeat {
        Some(k) => Some(u128::from(k) + 1),
        None => None,
    };
    for conjunct in conjuncts {
        bound = least(bound, conjunct_bound(conjunct));
    }
    bound
}
