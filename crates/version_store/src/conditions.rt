//! Which rows of a table a change meets.
ghost use Rattle.std.specs.Prelude.{◌≡◌, IfOk, IsTrue};
ghost use Rattle.bound_query.specs.Fits.{fits, is_bound};
ghost use Rattle.paql_bind.specs.Conditions.{bound_filter};
ghost use Rattle.paql_bind.specs.Names.{scope};
ghost use Rattle.version_store.specs.Faults.{condition_faults};
ghost use Rattle.version_store.specs.Performing.{Judges, CanBeAsked};

use crate::faults::CommitKind;
use bound_query::RowPred;
use paql_ast::conditions::Pred;
use paql_bind::{BindFault, bind_pred};
use snapshots::Table;
use std::alloc::Global;

/// The condition with places in place of names. Without one it is met by each row.
pub(crate) fn bound_condition(
    alloc: Global,
    table: &Table,
    filter: &Option<Pred>,
) -> Result<RowPred, CommitKind>
    ensures judged { Judges (condition_faults table.now filter.now) result }
    ensures bound { IfOk result (λ bound. bound
        ≡ bound_filter (scope table.now.columns table.now.name) filter.now) }
    ensures asked { IfOk result (λ bound. CanBeAsked table.now.columns bound) }
{
    let _columns = table.columns.columns();
    let Some(pred) = filter else {
        return Ok(RowPred::All);
    };
    match bind_pred(alloc, &table.columns, table.name.as_slice(), pred) {
        Ok(bound) => Ok(bound),
        Err(BindFault::Refused(refusal)) => Err(CommitKind::Binding(refusal)),
        Err(BindFault::Memory(error)) => Err(CommitKind::Memory(error)),
    }
}
