//! The replies to the statements that are performed, a function for each.
ghost use Rattle.std.specs.Prelude.{◌≡◌, [], ◌∷◌, IfOk, string_bytes, option_map};
ghost use Rattle.session_proto.specs.Answers as answers;
ghost use Rattle.session_proto.specs.Answers.{line, worth_of};

use crate::names::{keys, statuses};
use crate::replies::{Field, Reply};
use package_judge::Package;
use std::alloc::{AllocError, Global};

/// What a search that its budget cut off says of the goal, as it is printed.
#[derive(Debug, Drop)]
pub struct Worth {
    /// What no package is worth more than.
    pub bound: String,
    /// What the package is worth.
    pub objective: String,
}

/// The reply to CREATE TABLE.
pub fn created(alloc: Global, version: u64) -> Result<Reply, AllocError>
    ensures { IfOk result (λ reply. reply ≡ answers.created version) }
{
    of_version(alloc, statuses::CREATED, version)
}

/// The reply to INSERT, with the number of rows.
pub fn inserted(alloc: Global, rows: u64, version: u64) -> Result<Reply, AllocError>
    ensures { IfOk result (λ reply. reply ≡ answers.inserted rows version) }
{
    of_rows(alloc, statuses::INSERTED, rows, version)
}

/// The reply to LOAD, with the number of rows.
pub fn loaded(alloc: Global, rows: u64, version: u64) -> Result<Reply, AllocError>
    ensures { IfOk result (λ reply. reply ≡ answers.loaded rows version) }
{
    of_rows(alloc, statuses::LOADED, rows, version)
}

/// The reply to UPDATE, with the number of rows.
pub fn updated(alloc: Global, rows: u64, version: u64) -> Result<Reply, AllocError>
    ensures { IfOk result (λ reply. reply ≡ answers.updated rows version) }
{
    of_rows(alloc, statuses::UPDATED, rows, version)
}

/// The reply to DELETE, with the number of rows.
pub fn deleted(alloc: Global, rows: u64, version: u64) -> Result<Reply, AllocError>
    ensures { IfOk result (λ reply. reply ≡ answers.deleted rows version) }
{
    of_rows(alloc, statuses::DELETED, rows, version)
}

/// The reply to PARTITION.
pub fn partitioned(alloc: Global, version: u64) -> Result<Reply, AllocError>
    ensures { IfOk result (λ reply. reply ≡ answers.partitioned version) }
{
    of_version(alloc, statuses::PARTITIONED, version)
}

/// The reply to VACUUM, with the lowest version that is kept.
pub fn vacuumed(alloc: Global, low: u64, version: u64) -> Result<Reply, AllocError>
    ensures { IfOk result (λ reply. reply ≡ answers.vacuumed low version) }
{
    let reply = of_version(alloc, statuses::VACUUMED, version)?;
    reply.with_number(alloc, keys::LOW, low)
}

/// The reply to BEGIN.
pub fn begun(alloc: Global) -> Result<Reply, AllocError>
    ensures { IfOk result (λ reply. reply ≡ answers.begun) }
{
    Reply::of_status(alloc, statuses::BEGUN)
}

/// The reply to ROLLBACK.
pub fn rolled_back(alloc: Global) -> Result<Reply, AllocError>
    ensures { IfOk result (λ reply. reply ≡ answers.rolled_back) }
{
    Reply::of_status(alloc, statuses::ROLLED_BACK)
}

/// The reply to a change in a transaction, with the number of changes in its queue.
pub fn queued(alloc: Global, changes: u64) -> Result<Reply, AllocError>
    ensures { IfOk result (λ reply. reply ≡ answers.queued changes) }
{
    let reply = Reply::of_status(alloc, statuses::QUEUED)?;
    reply.with_number(alloc, keys::CHANGES, changes)
}

/// The reply to COMMIT, with the number of changes and of their rows.
pub fn committed(alloc: Global, changes: u64, rows: u64, version: u64) -> Result<Reply, AllocError>
    ensures { IfOk result (λ reply. reply ≡ answers.committed changes rows version) }
{
    let reply = of_rows(alloc, statuses::COMMITTED, rows, version)?;
    reply.with_number(alloc, keys::CHANGES, changes)
}

/// The reply with a best package, and what it is worth if there is a goal.
pub fn optimal(
    alloc: Global,
    objective: Option<String>,
    package: Package,
    version: u64,
) -> Result<Reply, AllocError>
    ensures { IfOk result (λ reply.
        reply ≡ answers.optimal (option_map string_bytes objective) «package» version) }
{
    let reply = of_package(alloc, statuses::OPTIMAL, package, version)?;
    match objective {
        None => Ok(reply),
        Some(worth) => reply.with(alloc, keys::OBJECTIVE, Field::Text(worth)),
    }
}

/// The reply to a query that no package meets.
pub fn infeasible(alloc: Global, version: u64) -> Result<Reply, AllocError>
    ensures { IfOk result (λ reply. reply ≡ answers.infeasible version) }
{
    of_version(alloc, statuses::INFEASIBLE, version)
}

/// The reply of a search that its budget cut off before it found a package, with the bound if there
/// is a goal.
pub fn undecided(
    alloc: Global,
    bound: Option<String>,
    nodes: u64,
    version: u64,
) -> Result<Reply, AllocError>
    ensures { IfOk result (λ reply.
        reply ≡ answers.undecided (option_map string_bytes bound) nodes version) }
{
    let reply = of_version(alloc, statuses::UNDECIDED, version)?;
    let reply = reply.with_number(alloc, keys::NODES, nodes)?;
    match bound {
        None => Ok(reply),
        Some(most) => reply.with(alloc, keys::BOUND, Field::Text(most)),
    }
}

/// The same with the best package that it found.
pub fn undecided_best(
    alloc: Global,
    worth: Option<Worth>,
    nodes: u64,
    package: Package,
    version: u64,
) -> Result<Reply, AllocError>
    ensures { IfOk result (λ reply.
        reply ≡ answers.undecided_best (option_map worth_of worth) nodes «package» version) }
{
    let reply = of_package(alloc, statuses::UNDECIDED, package, version)?;
    let reply = reply.with_number(alloc, keys::NODES, nodes)?;
    match worth {
        None => Ok(reply),
        Some(worth) => {
            let reply = reply.with(alloc, keys::OBJECTIVE, Field::Text(worth.objective))?;
            reply.with(alloc, keys::BOUND, Field::Text(worth.bound))
        }
    }
}

/// The reply with a package that SKETCHREFINE found, and what it is worth if there is a goal.
pub fn found(
    alloc: Global,
    objective: Option<String>,
    package: Package,
    version: u64,
) -> Result<Reply, AllocError>
    ensures { IfOk result (λ reply.
        reply ≡ answers.found (option_map string_bytes objective) «package» version) }
{
    let reply = of_package(alloc, statuses::FOUND, package, version)?;
    match objective {
        None => Ok(reply),
        Some(worth) => reply.with(alloc, keys::OBJECTIVE, Field::Text(worth)),
    }
}

/// The reply to a query for which SKETCHREFINE found no package.
pub fn not_found(alloc: Global, version: u64) -> Result<Reply, AllocError>
    ensures { IfOk result (λ reply. reply ≡ answers.not_found version) }
{
    of_version(alloc, statuses::NOT_FOUND, version)
}

/// The reply to CERTIFICATE, whose bytes come after the line.
pub fn certificate(alloc: Global, bytes: Vec<u8>) -> Result<Reply, AllocError>
    ensures { IfOk result (λ reply. reply ≡ answers.certificate bytes.items) }
{
    let reply = Reply::of_status(alloc, statuses::CERTIFICATE)?;
    let reply = reply.with_number(alloc, keys::BYTES, bytes.len() as u64)?;
    Ok(reply.with_tail(bytes))
}

fn of_version(alloc: Global, status: &str, version: u64) -> Result<Reply, AllocError>
    ensures { IfOk result (λ reply.
        reply ≡ line (answers.status status.now ∷ answers.version version ∷ [])) }
{
    let reply = Reply::of_status(alloc, status)?;
    reply.with_number(alloc, keys::VERSION, version)
}

fn of_rows(alloc: Global, status: &str, rows: u64, version: u64) -> Result<Reply, AllocError>
    ensures { IfOk result (λ reply. reply
        ≡ line (answers.rows rows ∷ answers.status status.now ∷ answers.version version ∷ [])) }
{
    let reply = of_version(alloc, status, version)?;
    reply.with_number(alloc, keys::ROWS, rows)
}

fn of_package(
    alloc: Global,
    status: &str,
    package: Package,
    version: u64,
) -> Result<Reply, AllocError>
    ensures { IfOk result (λ reply. reply ≡ line
        (answers.chosen «package» ∷ answers.status status.now ∷ answers.version version ∷ [])) }
{
    let reply = of_version(alloc, status, version)?;
    reply.with(alloc, keys::PACKAGE, Field::Pairs(package))
}
