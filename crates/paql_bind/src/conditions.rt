//! Conditions on rows.
ghost use Rattle.std.specs.Prelude.{◌≡◌, IfOk, map, flat_map};
ghost use Rattle.bound_query.specs.Fits.{is_text_lit};
ghost use Rattle.paql_bind.specs.Faults.{Refuses};
ghost use Rattle.paql_bind.specs.Names as names;
ghost use Rattle.paql_bind.specs.Scopes.{seen};
ghost use Rattle.paql_bind.specs.Conditions as conditions;

use crate::faults::BindFault;
use crate::numbers::check_number;
use crate::scope::Scope;
use bound_query::{RowPred, RowRight};
use paql_ast::conditions::{CmpOp, ColumnName, Operand, Pred};
use schema_types::{Lit, Text};
use sqlite_items::{Boxed, Items};
use std::alloc::{AllocError, Global};
use table_schema::Schema;

fn is_text_lit(lit: &Lit) -> bool
    ensures { result ≡ is_text_lit lit.now }
{
    match lit {
        Lit::Num(_) => false,
        Lit::Text(_) => true,
    }
}

fn is_text_operand(scope: &Scope<'_>, right: &Operand) -> bool
    ensures { result ≡ conditions.is_text_operand (seen scope.now) right.now }
{
    match right {
        Operand::Lit(lit) => is_text_lit(lit),
        Operand::Column(column) => scope.is_text(column),
    }
}

fn check_lit(lit: &Lit) -> Result<(), BindFault>
    ensures { Refuses (conditions.lit_faults lit.now) result }
{
    match lit {
        Lit::Num(number) => check_number(*number),
        Lit::Text(_) => Ok(()),
    }
}

fn check_operand(alloc: Global, scope: &Scope<'_>, right: &Operand) -> Result<(), BindFault>
    ensures { Refuses (conditions.operand_faults (seen scope.now) right.now) result }
{
    match right {
        Operand::Lit(lit) => check_lit(lit),
        Operand::Column(column) => scope.check(alloc, column),
    }
}

/// Refuses a literal that can't be compared with the column.
fn check_against(
    alloc: Global,
    scope: &Scope<'_>,
    column: &ColumnName,
    lit: &Lit,
) -> Result<(), BindFault>
    ensures { Refuses (conditions.against_lit (seen scope.now) column.now lit.now) result }
{
    check_lit(lit)?;
    scope.check_kind(alloc, column, is_text_lit(lit))
}

fn check_comparison(
    alloc: Global,
    scope: &Scope<'_>,
    column: &ColumnName,
    right: &Operand,
) -> Result<(), BindFault>
    ensures { Refuses (conditions.comparison_faults (seen scope.now) column.now right.now) result }
{
    scope.check(alloc, column)?;
    check_operand(alloc, scope, right)?;
    scope.check_kind(alloc, column, is_text_operand(scope, right))
}

#[tactic(auto, using(crate::proofs::FaultLemmas::in_order))]
fn check_range(
    alloc: Global,
    scope: &Scope<'_>,
    column: &ColumnName,
    low: &Lit,
    high: &Lit,
) -> Result<(), BindFault>
    ensures { Refuses
        (conditions.range_faults (seen scope.now) column.now low.now high.now) result }
{
    scope.check(alloc, column)?;
    check_against(alloc, scope, column, low)?;
    check_against(alloc, scope, column, high)
}

fn check_list(
    alloc: Global,
    scope: &Scope<'_>,
    column: &ColumnName,
    list: &[Lit],
) -> Result<(), BindFault>
    ensures { Refuses
        (flat_map (conditions.against_lit (seen scope.now) column.now) list.now) result }
{
    for lit in list {
        check_against(alloc, scope, column, lit)?;
    }
    Ok(())
}

fn check_listed(
    alloc: Global,
    scope: &Scope<'_>,
    column: &ColumnName,
    list: &[Lit],
) -> Result<(), BindFault>
    ensures { Refuses (conditions.list_faults (seen scope.now) column.now list.now) result }
{
    scope.check(alloc, column)?;
    check_list(alloc, scope, column, list)
}

/// Refuses a condition by its first fault, from left to right.
#[cycle(checks)]
pub(crate) fn check_pred(alloc: Global, scope: &Scope<'_>, pred: &Pred) -> Result<(), BindFault>
    ensures { Refuses (conditions.pred_faults (seen scope.now) pred.now) result }
{
    match pred {
        Pred::Or(parts) => check_parts(alloc, scope, parts.as_slice()),
        Pred::And(parts) => check_parts(alloc, scope, parts.as_slice()),
        Pred::Not(denied) => check_pred(alloc, scope, denied.get()),
        Pred::Compare { column, right, .. } => check_comparison(alloc, scope, column, right),
        Pred::Between { column, low, high } => check_range(alloc, scope, column, low, high),
        Pred::In { column, list } => check_listed(alloc, scope, column, list.as_slice()),
    }
}

/// The parts of an AND or of an OR.
#[cycle(checks)]
fn check_parts(alloc: Global, scope: &Scope<'_>, parts: &[Pred]) -> Result<(), BindFault>
    ensures { Refuses (flat_map (conditions.pred_faults (seen scope.now)) parts.now) result }
{
    for part in parts {
        check_pred(alloc, scope, part)?;
    }
    Ok(())
}

fn copy_text(alloc: Global, text: &Text) -> Result<Text, AllocError>
    ensures { IfOk result (λ copy. copy ≡ text.now) }
{
    Items::from_slice(alloc, text.as_slice())
}

fn copy_lit(alloc: Global, lit: &Lit) -> Result<Lit, AllocError>
    ensures { IfOk result (λ copy. copy ≡ lit.now) }
{
    match lit {
        Lit::Num(number) => Ok(Lit::Num(*number)),
        Lit::Text(text) => Ok(Lit::Text(copy_text(alloc, text)?)),
    }
}

fn copy_lits(alloc: Global, list: &[Lit]) -> Result<Items<Lit>, AllocError>
    ensures { IfOk result (λ copy. copy ≡ list.now) }
{
    let mut copies = Vec::with_capacity(alloc, list.len())?;
    for lit in list {
        copies.push(copy_lit(alloc, lit)?)?;
    }
    Ok(Items::from_vec(copies))
}

fn bound_right(alloc: Global, scope: &Scope<'_>, right: &Operand) -> Result<RowRight, AllocError>
    ensures { IfOk result (λ bound. bound ≡ conditions.bound_right (seen scope.now) right.now) }
{
    match right {
        Operand::Lit(lit) => Ok(RowRight::Lit(copy_lit(alloc, lit)?)),
        Operand::Column(column) => Ok(RowRight::Column {
            column: scope.bound_place(column),
            scale: scope.bound_scale(column),
        }),
    }
}

fn bound_comparison(
    alloc: Global,
    scope: &Scope<'_>,
    column: &ColumnName,
    op: CmpOp,
    right: &Operand,
) -> Result<RowPred, AllocError>
    ensures { IfOk result
        (λ bound. bound ≡ conditions.bound_comparison (seen scope.now) column.now op right.now) }
{
    Ok(RowPred::Compare {
        column: scope.bound_place(column),
        scale: scope.bound_scale(column),
        op,
        right: bound_right(alloc, scope, right)?,
    })
}

fn bound_range(
    alloc: Global,
    scope: &Scope<'_>,
    column: &ColumnName,
    low: &Lit,
    high: &Lit,
) -> Result<RowPred, AllocError>
    ensures { IfOk result
        (λ bound. bound ≡ conditions.bound_range (seen scope.now) column.now low.now high.now) }
{
    Ok(RowPred::Between {
        column: scope.bound_place(column),
        scale: scope.bound_scale(column),
        low: copy_lit(alloc, low)?,
        high: copy_lit(alloc, high)?,
    })
}

fn bound_list(
    alloc: Global,
    scope: &Scope<'_>,
    column: &ColumnName,
    list: &[Lit],
) -> Result<RowPred, AllocError>
    ensures { IfOk result
        (λ bound. bound ≡ conditions.bound_list (seen scope.now) column.now list.now) }
{
    Ok(RowPred::In {
        column: scope.bound_place(column),
        scale: scope.bound_scale(column),
        list: copy_lits(alloc, list)?,
    })
}

/// A condition that isn't refused, with places in place of names.
#[cycle(bounds)]
pub(crate) fn bound_pred(
    alloc: Global,
    scope: &Scope<'_>,
    pred: &Pred,
) -> Result<RowPred, AllocError>
    ensures { IfOk result (λ bound. bound ≡ conditions.bound_pred (seen scope.now) pred.now) }
{
    match pred {
        Pred::Or(parts) => Ok(RowPred::Or(bound_parts(alloc, scope, parts.as_slice())?)),
        Pred::And(parts) => Ok(RowPred::And(bound_parts(alloc, scope, parts.as_slice())?)),
        Pred::Not(denied) => {
            let denied = bound_pred(alloc, scope, denied.get())?;
            Ok(RowPred::Not(Boxed::new(alloc, denied)?))
        }
        Pred::Compare { column, op, right } => {
            bound_comparison(alloc, scope, column, *op, right)
        }
        Pred::Between { column, low, high } => bound_range(alloc, scope, column, low, high),
        Pred::In { column, list } => bound_list(alloc, scope, column, list.as_slice()),
    }
}

/// The parts of an AND or of an OR.
#[cycle(bounds)]
fn bound_parts(
    alloc: Global,
    scope: &Scope<'_>,
    parts: &[Pred],
) -> Result<Items<RowPred>, AllocError>
    ensures { IfOk result
        (λ bound. bound ≡ map (conditions.bound_pred (seen scope.now)) parts.now) }
{
    let mut bound = Vec::with_capacity(alloc, parts.len())?;
    for part in parts {
        bound.push(bound_pred(alloc, scope, part)?)?;
    }
    Ok(Items::from_vec(bound))
}

/// Binds a condition on the rows of a table, whose columns are named bare or with the alias.
pub fn bind_pred(
    alloc: Global,
    schema: &Schema,
    alias: &[u8],
    pred: &Pred,
) -> Result<RowPred, BindFault>
    ensures refused { Refuses
        (conditions.pred_faults (names.scope schema.now alias.now) pred.now) result }
    ensures bound { IfOk result
        (λ bound. bound ≡ conditions.bound_pred (names.scope schema.now alias.now) pred.now) }
{
    let scope = Scope {
        schema,
        prefix: alias,
    };
    check_pred(alloc, &scope, pred)?;
    bound_pred(alloc, &scope, pred).map_err(BindFault::Memory)
}
