//! The new values that an UPDATE sets.
ghost use Rattle.std.specs.Prelude.{◌≡◌, []};
ghost use Rattle.version_store.specs.Faults.{is_among, set_faults};
ghost use Rattle.version_store.specs.Performing.{Judges, set_names, own_set_faults};

use crate::faults::CommitKind;
use crate::kinds::{named_twice, no_column, set_kind};
use crate::naming::column_named;
use schema_types::{Lit, Text};
use std::alloc::Global;
use table_schema::{Schema, cell_fault};

/// The first fault of the SETs, if there is one.
pub(crate) fn check_sets(
    alloc: Global,
    schema: &Schema,
    sets: &[(Text, Lit)],
) -> Result<(), CommitKind>
    ensures { Judges (set_faults schema.now [] sets.now) result }
{
    for (place, set) in sets.iter().enumerate() {
        check_set(alloc, schema, &sets[..place], set)?;
    }
    Ok(())
}

/// The first fault of a SET after others.
fn check_set(
    alloc: Global,
    schema: &Schema,
    before: &[(Text, Lit)],
    set: &(Text, Lit),
) -> Result<(), CommitKind>
    ensures { Judges (own_set_faults schema.now (set_names before.now) set.now) result }
{
    let Some(column) = column_named(schema, &set.0) else {
        return Err(no_column(alloc, &set.0));
    };
    if is_set(before, &set.0) {
        return Err(named_twice(alloc, &set.0));
    }
    match cell_fault(column, &set.1) {
        Some(fault) => Err(set_kind(alloc, &set.0, fault)),
        None => Ok(()),
    }
}

/// The column is one of those before.
fn is_set(before: &[(Text, Lit)], name: &Text) -> bool
    ensures { result ≡ is_among name.now (set_names before.now) }
{
    for set in before {
        if set.0.as_slice() == name.as_slice() {
            return true;
        }
    }
    false
}
