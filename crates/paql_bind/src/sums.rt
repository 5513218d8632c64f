//! Aggregates, and the sums of them and of numbers.
ghost use Rattle.std.specs.Prelude.{◌≡◌, ◌*◌, ◌^◌, ◌≤◌, ◌++◌, [], IfOk, OnOk};
ghost use Rattle.std.specs.Int.RustNames.{unsigned_abs};
ghost use Rattle.paql_bind.specs.Faults.{Refuses};
ghost use Rattle.paql_bind.specs.Scopes.{seen};
ghost use Rattle.paql_bind.specs.Sums as sums;

use crate::conditions::{bound_pred, check_pred};
use crate::faults::{BindFault, Refusal, no_table};
use crate::limits::MAX_FACTOR;
use crate::numbers::{check_number, in_units, scaled_units, with_sign};
use crate::scope::Scope;
use bound_query::{BoundAgg, BoundTerm, RowPred};
use paql_ast::aggregates::{Agg, Plain, SumItem, Term};
use paql_ast::conditions::Pred;
use pq_base::Scaled;
use schema_types::Text;
use std::alloc::{AllocError, Global};

/// Refuses a name that isn't the package's.
fn check_name(alloc: Global, scope: &Scope<'_>, name: &Text) -> Result<(), BindFault>
    ensures { Refuses (sums.name_faults (seen scope.now) name.now) result }
{
    if name.as_slice() == scope.prefix {
        return Ok(());
    }
    Err(no_table(alloc, name))
}

fn check_plain(alloc: Global, scope: &Scope<'_>, plain: &Plain) -> Result<(), BindFault>
    ensures { Refuses (sums.plain_faults (seen scope.now) plain.now) result }
{
    match plain {
        Plain::Count(Some(name)) => check_name(alloc, scope, name),
        Plain::Count(None) => Ok(()),
        Plain::Sum(column) => scope.check_summed(alloc, column),
    }
}

fn check_only(
    alloc: Global,
    scope: &Scope<'_>,
    only: &Option<(Text, Pred)>,
) -> Result<(), BindFault>
    ensures { Refuses (sums.only_faults (seen scope.now) only.now) result }
{
    let Some(only) = only else {
        return Ok(());
    };
    check_name(alloc, scope, &only.0)?;
    check_pred(alloc, scope, &only.1)
}

fn check_agg(alloc: Global, scope: &Scope<'_>, agg: &Agg) -> Result<(), BindFault>
    ensures { Refuses (sums.agg_faults (seen scope.now) agg.now) result }
{
    check_plain(alloc, scope, &agg.plain)?;
    check_only(alloc, scope, &agg.only)
}

/// Refuses a number that isn't whole, or is more than a factor can be.
fn check_whole(number: Scaled) -> Result<(), BindFault>
    ensures { Refuses (sums.whole_faults number) result }
{
    if number.scale == 0 && number.mant.unsigned_abs() <= MAX_FACTOR {
        return Ok(());
    }
    Err(BindFault::Refused(Refusal::Factor))
}

fn check_factor(factor: Option<Scaled>) -> Result<(), BindFault>
    ensures { Refuses (sums.factor_faults factor) result }
{
    let Some(number) = factor else {
        return Ok(());
    };
    check_number(number)?;
    check_whole(number)
}

fn check_term(alloc: Global, scope: &Scope<'_>, term: &Term) -> Result<(), BindFault>
    ensures { Refuses (sums.term_faults (seen scope.now) term.now) result }
{
    match term {
        Term::Number(number) => check_number(*number),
        Term::Agg { factor, agg } => {
            check_factor(*factor)?;
            check_agg(alloc, scope, agg)
        }
    }
}

/// Refuses a sum by its first fault, from left to right.
pub(crate) fn check_sum(
    alloc: Global,
    scope: &Scope<'_>,
    items: &[SumItem],
) -> Result<(), BindFault>
    ensures { Refuses (sums.sum_faults (seen scope.now) items.now) result }
{
    for item in items {
        check_term(alloc, scope, &item.term)?;
    }
    Ok(())
}

fn plain_scale(scope: &Scope<'_>, plain: &Plain) -> u8
    ensures value { result ≡ sums.plain_scale (seen scope.now) plain.now }
    ensures small { result ≤ 6 }
{
    match plain {
        Plain::Count(_) => 0,
        Plain::Sum(column) => scope.bound_scale(column),
    }
}

fn term_scale(scope: &Scope<'_>, term: &Term) -> u8
    requires { sums.term_faults (seen scope.now) term.now ≡ [] }
    ensures value { result ≡ sums.term_scale (seen scope.now) term.now }
    ensures small { result ≤ 6 }
{
    match term {
        Term::Number(number) => number.scale,
        Term::Agg { agg, .. } => plain_scale(scope, &agg.plain),
    }
}

/// The greatest scale of a sum's numbers and of the columns that it sums, 0 if it has none. The sum
/// isn't refused.
pub(crate) fn sum_scale(scope: &Scope<'_>, items: &[SumItem]) -> u8
    requires { sums.sum_faults (seen scope.now) items.now ≡ [] }
    ensures value { result ≡ sums.sum_scale (seen scope.now) items.now }
    ensures small { result ≤ 6 }
{
    let mut scale = 0u8;
    for item in items {
        scale = scale.max(term_scale(scope, &item.term));
    }
    scale
}

/// The condition on the copies that an aggregate takes.
fn bound_only(
    alloc: Global,
    scope: &Scope<'_>,
    only: &Option<(Text, Pred)>,
) -> Result<RowPred, AllocError>
    ensures { IfOk result (λ bound. bound ≡ sums.bound_only (seen scope.now) only.now) }
{
    match only {
        Some(only) => bound_pred(alloc, scope, &only.1),
        None => Ok(RowPred::All),
    }
}

fn bound_agg(alloc: Global, scope: &Scope<'_>, agg: &Agg) -> Result<BoundAgg, AllocError>
    ensures { IfOk result (λ bound. bound ≡ sums.bound_agg (seen scope.now) agg.now) }
{
    let pred = bound_only(alloc, scope, &agg.only)?;
    Ok(match &agg.plain {
        Plain::Count(_) => BoundAgg::Count(pred),
        Plain::Sum(column) => BoundAgg::Sum(scope.bound_place(column), pred),
    })
}

/// The digits of a factor that isn't refused: 1 if none is written.
fn factor_of(factor: Option<Scaled>) -> i128
    requires { sums.factor_faults factor ≡ [] }
    ensures value { result ≡ sums.factor_of factor }
    ensures small { unsigned_abs result ≤ 10 ^ 6 }
{
    match factor {
        Some(number) => number.mant,
        None => 1,
    }
}

fn bound_factor(scale: u8, places: u8, minus: bool, factor: Option<Scaled>) -> i64
    requires scale { scale ≤ 6 }
    requires good { sums.factor_faults factor ≡ [] }
    ensures { result ≡ sums.bound_factor scale places minus factor }
{
    with_sign(minus, in_units(scale, places, factor_of(factor))) as i64
}

fn bound_term(
    alloc: Global,
    scope: &Scope<'_>,
    scale: u8,
    minus: bool,
    factor: Option<Scaled>,
    agg: &Agg,
) -> Result<BoundTerm, AllocError>
    requires scale { scale ≤ 6 }
    requires good { sums.factor_faults factor ≡ [] }
    ensures { IfOk result
        (λ bound. bound ≡ sums.bound_term (seen scope.now) scale minus factor agg.now) }
{
    Ok(BoundTerm {
        factor: bound_factor(scale, plain_scale(scope, &agg.plain), minus, factor),
        agg: bound_agg(alloc, scope, agg)?,
        minus: 0,
    })
}

/// Appends the term of an aggregate, and nothing for a number.
fn append_term(
    alloc: Global,
    scope: &Scope<'_>,
    scale: u8,
    minus: bool,
    term: &Term,
    terms: &mut Vec<BoundTerm>,
) -> Result<(), AllocError>
    requires scale { scale ≤ 6 }
    requires good { sums.term_faults (seen scope.now) term.now ≡ [] }
    ensures { OnOk result (terms.new.items
        ≡ terms.old.items ++ sums.aggregates_of (seen scope.now) scale minus term.now) }
{
    match term {
        Term::Number(_) => Ok(()),
        Term::Agg { factor, agg } => {
            terms.push(bound_term(alloc, scope, scale, minus, *factor, agg)?)?;
            Ok(())
        }
    }
}

/// Appends the aggregates of a sum that isn't refused, in units of `10^-scale`. With `denied` each
/// has the other sign.
pub(crate) fn append_terms(
    alloc: Global,
    scope: &Scope<'_>,
    scale: u8,
    denied: bool,
    items: &[SumItem],
    terms: &mut Vec<BoundTerm>,
) -> Result<(), AllocError>
    requires scale { scale ≤ 6 }
    requires good { sums.sum_faults (seen scope.now) items.now ≡ [] }
    ensures { OnOk result (terms.new.items
        ≡ terms.old.items ++ sums.bound_terms (seen scope.now) scale denied items.now) }
{
    for item in items {
        append_term(alloc, scope, scale, item.minus != denied, &item.term, terms)?;
    }
    Ok(())
}

fn item_number(scale: u8, item: &SumItem) -> i128
    requires scale { scale ≤ 6 }
    requires good { sums.number_faults_of item.now.term ≡ [] }
    ensures value { result ≡ sums.item_number scale item.now }
    ensures small { unsigned_abs result ≤ 10 ^ 18 }
{
    match &item.term {
        Term::Number(number) => with_sign(item.minus, scaled_units(scale, *number)),
        Term::Agg { .. } => 0,
    }
}

/// The numbers of a sum that isn't refused, in units of `10^-scale`.
pub(crate) fn sum_number(scope: &Scope<'_>, scale: u8, items: &[SumItem]) -> i128
    requires scale { scale ≤ 6 }
    requires good { sums.sum_faults (seen scope.now) items.now ≡ [] }
    ensures value { result ≡ sums.sum_number scale items.now }
    ensures small { unsigned_abs result ≤ 2 ^ 64 * 10 ^ 18 }
{
    let mut number = 0i128;
    for item in items {
        number += item_number(scale, item);
    }
    number
}
