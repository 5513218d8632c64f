//! Constraints and goals.
ghost use Rattle.std.specs.Prelude.{◌≡◌, ◌*◌, ◌^◌, ◌≤◌, ◌++◌, [], IfOk, OnOk};
ghost use Rattle.std.specs.Int.RustNames.{unsigned_abs};
ghost use Rattle.paql_bind.specs.Constraints as constraints;
ghost use Rattle.paql_bind.specs.Faults.{Refuses};
ghost use Rattle.paql_bind.specs.Names.{number_faults, summed_faults};
ghost use Rattle.paql_bind.specs.Scopes.{seen};
ghost use Rattle.paql_bind.specs.Sums.{sum_faults};

use crate::faults::BindFault;
use crate::numbers::{check_number, difference, in_units, scaled_units};
use crate::scope::Scope;
use crate::sums::{append_terms, check_sum, sum_number, sum_scale};
use bound_query::{BoundAgg, BoundConjunct, BoundGoal, BoundTerm, Op, RowPred};
use paql_ast::aggregates::SumItem;
use paql_ast::conditions::{CmpOp, ColumnName};
use paql_ast::queries::{Conjunct, Goal};
use pq_base::Scaled;
use sqlite_items::Items;
use std::alloc::{AllocError, Global};

fn check_ends(low: Scaled, high: Scaled) -> Result<(), BindFault>
    ensures { Refuses (number_faults low ++ number_faults high) result }
{
    check_number(low)?;
    check_number(high)
}

fn check_sides(
    alloc: Global,
    scope: &Scope<'_>,
    left: &[SumItem],
    right: &[SumItem],
) -> Result<(), BindFault>
    ensures { Refuses
        (sum_faults (seen scope.now) left.now ++ sum_faults (seen scope.now) right.now) result }
{
    check_sum(alloc, scope, left)?;
    check_sum(alloc, scope, right)
}

fn check_between(
    alloc: Global,
    scope: &Scope<'_>,
    sum: &[SumItem],
    low: Scaled,
    high: Scaled,
) -> Result<(), BindFault>
    ensures { Refuses
        (sum_faults (seen scope.now) sum.now ++ (number_faults low ++ number_faults high)) result }
{
    check_sum(alloc, scope, sum)?;
    check_ends(low, high)
}

fn check_average(
    alloc: Global,
    scope: &Scope<'_>,
    column: &ColumnName,
    limit: Scaled,
) -> Result<(), BindFault>
    ensures { Refuses (summed_faults (seen scope.now) column.now ++ number_faults limit) result }
{
    scope.check_summed(alloc, column)?;
    check_number(limit)
}

fn check_average_between(
    alloc: Global,
    scope: &Scope<'_>,
    column: &ColumnName,
    low: Scaled,
    high: Scaled,
) -> Result<(), BindFault>
    ensures { Refuses
        (summed_faults (seen scope.now) column.now ++ (number_faults low ++ number_faults high))
        result }
{
    scope.check_summed(alloc, column)?;
    check_ends(low, high)
}

/// Refuses a constraint by its first fault, from left to right.
fn check_conjunct(alloc: Global, scope: &Scope<'_>, conjunct: &Conjunct) -> Result<(), BindFault>
    ensures { Refuses (constraints.conjunct_faults (seen scope.now) conjunct.now) result }
{
    match conjunct {
        Conjunct::Compare { left, right, .. } => {
            check_sides(alloc, scope, left.as_slice(), right.as_slice())
        }
        Conjunct::Between { sum, low, high } => {
            check_between(alloc, scope, sum.as_slice(), *low, *high)
        }
        Conjunct::Avg { column, limit, .. } => check_average(alloc, scope, column, *limit),
        Conjunct::AvgBetween { column, low, high } => {
            check_average_between(alloc, scope, column, *low, *high)
        }
    }
}

pub(crate) fn check_conjuncts(
    alloc: Global,
    scope: &Scope<'_>,
    conjuncts: &[Conjunct],
) -> Result<(), BindFault>
    ensures { Refuses (constraints.conjuncts_faults (seen scope.now) conjuncts.now) result }
{
    for conjunct in conjuncts {
        check_conjunct(alloc, scope, conjunct)?;
    }
    Ok(())
}

pub(crate) fn check_goal(
    alloc: Global,
    scope: &Scope<'_>,
    goal: &Option<Goal>,
) -> Result<(), BindFault>
    ensures { Refuses (constraints.goal_faults (seen scope.now) goal.now) result }
{
    match goal {
        Some(goal) => check_sum(alloc, scope, goal.parts.as_slice()),
        None => Ok(()),
    }
}

/// `<>` compares no sums: the grammar has none.
fn bound_op(op: CmpOp) -> Op
    ensures { result ≡ constraints.bound_op op }
{
    match op {
        CmpOp::Eq | CmpOp::Ne => Op::Eq,
        CmpOp::Lt => Op::Lt,
        CmpOp::Le => Op::Le,
        CmpOp::Gt => Op::Gt,
        CmpOp::Ge => Op::Ge,
    }
}

fn bound_sums(
    alloc: Global,
    scope: &Scope<'_>,
    left: &[SumItem],
    op: Op,
    right: &[SumItem],
) -> Result<BoundConjunct, AllocError>
    requires left { sum_faults (seen scope.now) left.now ≡ [] }
    requires right { sum_faults (seen scope.now) right.now ≡ [] }
    ensures { IfOk result
        (λ bound. bound ≡ constraints.bound_sums (seen scope.now) left.now op right.now) }
{
    let scale = sum_scale(scope, left).max(sum_scale(scope, right));
    let mut terms = Vec::new(alloc);
    append_terms(alloc, scope, scale, false, left, &mut terms)?;
    append_terms(alloc, scope, scale, true, right, &mut terms)?;
    Ok(BoundConjunct {
        terms: Items::from_vec(terms),
        op,
        high: difference(
            sum_number(scope, scale, right),
            sum_number(scope, scale, left),
        ),
        low: 0,
        scale,
    })
}

fn bound_range(
    alloc: Global,
    scope: &Scope<'_>,
    sum: &[SumItem],
    low: Scaled,
    high: Scaled,
) -> Result<BoundConjunct, AllocError>
    requires sum { sum_faults (seen scope.now) sum.now ≡ [] }
    requires low { number_faults low ≡ [] }
    requires high { number_faults high ≡ [] }
    ensures { IfOk result
        (λ bound. bound ≡ constraints.bound_range (seen scope.now) sum.now low high) }
{
    let scale = sum_scale(scope, sum).max(low.scale.max(high.scale));
    let mut terms = Vec::new(alloc);
    append_terms(alloc, scope, scale, false, sum, &mut terms)?;
    let number = sum_number(scope, scale, sum);
    Ok(BoundConjunct {
        terms: Items::from_vec(terms),
        op: Op::Between,
        high: difference(scaled_units(scale, high), number),
        low: difference(scaled_units(scale, low), number),
        scale,
    })
}

/// For each copy the value less the limit.
fn average_term(scope: &Scope<'_>, scale: u8, column: &ColumnName, limit: Scaled) -> BoundTerm
    requires scale { scale ≤ 6 }
    requires limit { number_faults limit ≡ [] }
    ensures { result ≡ constraints.average_term (seen scope.now) scale column.now limit }
{
    BoundTerm {
        factor: in_units(scale, scope.bound_scale(column), 1) as i64,
        agg: BoundAgg::Sum(scope.bound_place(column), RowPred::All),
        minus: scaled_units(scale, limit),
    }
}

fn bound_average(
    alloc: Global,
    scope: &Scope<'_>,
    column: &ColumnName,
    op: Op,
    limit: Scaled,
) -> Result<BoundConjunct, AllocError>
    requires { number_faults limit ≡ [] }
    ensures { IfOk result
        (λ bound. bound ≡ constraints.bound_average (seen scope.now) column.now op limit) }
{
    let scale = scope.bound_scale(column).max(limit.scale);
    let mut terms = Vec::with_capacity(alloc, 1)?;
    terms.push(average_term(scope, scale, column, limit))?;
    Ok(BoundConjunct {
        terms: Items::from_vec(terms),
        op,
        high: 0,
        low: 0,
        scale,
    })
}

/// Appends a constraint that isn't refused: two for AVG .. BETWEEN.
fn append_conjunct(
    alloc: Global,
    scope: &Scope<'_>,
    conjunct: &Conjunct,
    bound: &mut Vec<BoundConjunct>,
) -> Result<(), AllocError>
    requires { constraints.conjunct_faults (seen scope.now) conjunct.now ≡ [] }
    ensures { OnOk result (bound.new.items
        ≡ bound.old.items ++ constraints.bound_conjunct (seen scope.now) conjunct.now) }
{
    match conjunct {
        Conjunct::Compare { left, op, right } => {
            let (left, right) = (left.as_slice(), right.as_slice());
            bound.push(bound_sums(alloc, scope, left, bound_op(*op), right)?)?;
        }
        Conjunct::Between { sum, low, high } => {
            bound.push(bound_range(alloc, scope, sum.as_slice(), *low, *high)?)?;
        }
        Conjunct::Avg { column, op, limit } => {
            bound.push(bound_average(alloc, scope, column, bound_op(*op), *limit)?)?;
        }
        Conjunct::AvgBetween { column, low, high } => {
            bound.push(bound_average(alloc, scope, column, Op::Le, *high)?)?;
            bound.push(bound_average(alloc, scope, column, Op::Ge, *low)?)?;
        }
    }
    Ok(())
}

/// Constraints that aren't refused.
pub(crate) fn bound_conjuncts(
    alloc: Global,
    scope: &Scope<'_>,
    conjuncts: &[Conjunct],
) -> Result<Items<BoundConjunct>, AllocError>
    requires { constraints.conjuncts_faults (seen scope.now) conjuncts.now ≡ [] }
    ensures { IfOk result
        (λ bound. bound ≡ constraints.bound_conjuncts (seen scope.now) conjuncts.now) }
{
    let mut bound = Vec::with_capacity(alloc, conjuncts.len())?;
    for conjunct in conjuncts {
        append_conjunct(alloc, scope, conjunct, &mut bound)?;
    }
    Ok(Items::from_vec(bound))
}

fn goal_at(alloc: Global, scope: &Scope<'_>, goal: &Goal) -> Result<BoundGoal, AllocError>
    requires { sum_faults (seen scope.now) goal.now.parts ≡ [] }
    ensures { IfOk result (λ bound. bound ≡ constraints.goal_at (seen scope.now) goal.now) }
{
    let parts = goal.parts.as_slice();
    let scale = sum_scale(scope, parts);
    let mut terms = Vec::with_capacity(alloc, parts.len())?;
    append_terms(alloc, scope, scale, false, parts, &mut terms)?;
    Ok(BoundGoal {
        terms: Items::from_vec(terms),
        maximize: goal.maximize,
        scale,
    })
}

/// A goal that isn't refused.
pub(crate) fn bound_goal(
    alloc: Global,
    scope: &Scope<'_>,
    goal: &Option<Goal>,
) -> Result<Option<BoundGoal>, AllocError>
    requires { constraints.goal_faults (seen scope.now) goal.now ≡ [] }
    ensures { IfOk result (λ bound. bound ≡ constraints.bound_goal (seen scope.now) goal.now) }
{
    match goal {
        Some(goal) => Ok(Some(goal_at(alloc, scope, goal)?)),
        None => Ok(None),
    }
}
