//! The rows of a LOAD.
ghost use Rattle.std.specs.Prelude.{◌≡◌, ◌+◌, ◌<◌, ◌≤◌, IfOk, Some, slice_get};
ghost use Rattle.csv_load.specs.Loading.{GivesLoaded, OrMemory};
ghost use Rattle.session_proto.specs.Input.{content_of};
ghost use Rattle.paql_engine.specs.Loading.{Gives};
ghost use Rattle.paql_engine.specs.LoadSteps.{Finds, TellsFault, many_faults};

use crate::refused;
use csv_load::{LoadFault, Loaded, load};
use schema_types::{Lit, Text};
use session_proto::refusals::LoadFault as Told;
use session_proto::{Body, Refusal};
use snapshots::Snapshot;
use sqlite_items::Items;
use std::alloc::{AllocError, Global};
use table_schema::{Schema, schema_named};
use version_store::{CommitFault, CommitKind, MAX_COMMIT_ROWS, MAX_VERSION};

/// What is found of a body.
#[derive(Debug, Drop)]
pub(crate) enum Found {
    /// The rows that it gives.
    Rows(Items<Items<Lit>>),
    /// More rows than a commit may insert: how many.
    Many(u64),
    /// Why it gives none, or None if that shows a name that is no text.
    Refused(Option<Refusal>),
}

/// What is found of a body for a table of a version.
pub(crate) fn find(
    alloc: Global,
    snapshot: &Snapshot,
    table: &Text,
    body: &Body,
) -> Result<Found, AllocError>
    ensures { IfOk result (Finds snapshot.now.tables table.now (content_of body.now)) }
{
    let Some(schema) = schema_named(snapshot.schemas(), table.as_slice()) else {
        return Ok(Found::Refused(refused::no_table(alloc, None, table)?));
    };
    match rows_of(alloc, schema, body) {
        Ok(Loaded::Rows(rows)) => Ok(Found::Rows(rows)),
        Ok(Loaded::Many(count)) => Ok(Found::Many(count)),
        Err(fault) => Ok(Found::Refused(told(alloc, schema, &fault)?)),
    }
}

/// Why a commit of so many rows after this version is refused, though they fit their columns.
pub(crate) fn too_many(version: u64, count: u64) -> CommitFault
    requires last { version ≤ MAX_VERSION }
    requires many { MAX_COMMIT_ROWS < count }
    ensures { slice_get (many_faults (version + 1) count) 0 ≡ Some result }
{
    let kind = if version < MAX_VERSION {
        CommitKind::LimitCommit(count)
    } else {
        CommitKind::LimitVersions(version + 1)
    };
    CommitFault { change: 0, kind }
}

// What a body gives, of which no more rows are kept than a commit may insert.
fn rows_of(alloc: Global, schema: &Schema, body: &Body) -> Result<Loaded, LoadFault>
    ensures { OrMemory (GivesLoaded MAX_COMMIT_ROWS (Gives schema.now (content_of body.now))) result }
{
    match body {
        Body::None => load(alloc, schema, &[], MAX_COMMIT_ROWS),
        Body::Bytes(bytes) => load(alloc, schema, bytes.as_slice(), MAX_COMMIT_ROWS),
        Body::Skipped(_) => Err(LoadFault::LimitBytes),
    }
}

// Why a body gives no rows.
fn told(alloc: Global, schema: &Schema, fault: &LoadFault) -> Result<Option<Refusal>, AllocError>
    ensures { TellsFault schema.now fault.now result }
{
    match fault {
        LoadFault::LimitBytes => Ok(Some(Refusal::Load(Told::LimitBytes))),
        LoadFault::Header => Ok(Some(Refusal::Load(Told::Header))),
        LoadFault::BadRecord(number) => Ok(Some(Refusal::Load(Told::BadRecord(*number)))),
        LoadFault::BadCell(number, place) => match schema.columns().get(*place) {
            Some(column) => refused::bad_field(alloc, &column.name, *number),
            None => refused::bad_field(alloc, &Items::new(alloc), *number),
        },
        LoadFault::Memory(_) => Err(AllocError),
    }
}
