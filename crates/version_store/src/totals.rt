//! How many entries tables have, and how many of them a version wrote.
ghost use Rattle.std.specs.Prelude.{◌≡◌, ◌==◌, length, IfSome, filter};
ghost use Rattle.version_store.specs.Counts.{entries_in, written_by, written_in};

use snapshots::{Shared, Table};

/// How many entries the tables have, if that is a number of 64 bits.
pub(crate) fn entries_in(tables: &[Shared<Table>]) -> Option<u64>
    ensures { IfSome result (λ count. count ≡ entries_in tables.now) }
{
    let mut count = 0u64;
    for table in tables {
        count = count.checked_add(table.get().entries.len() as u64)?;
    }
    Some(count)
}

/// How many entries of the tables this version wrote, if that is a number of 64 bits.
pub(crate) fn written_in(tables: &[Shared<Table>], version: u64) -> Option<u64>
    ensures { IfSome result (λ count. count ≡ written_in version tables.now) }
{
    let mut count = 0u64;
    for table in tables {
        count = count.checked_add(written_by(table.get(), version))?;
    }
    Some(count)
}

/// How many entries of the table this version wrote.
fn written_by(table: &Table, version: u64) -> u64
    ensures { result ≡ written_by version table.now }
{
    count_of(table.entries.versions(), version)
}

/// How many of the numbers are this one.
fn count_of(versions: &[u64], version: u64) -> u64
    ensures { result ≡ length (filter (λ born. born == version) versions.now) }
{
    let mut count = 0;
    for born in versions {
        count += u64::from(*born == version);
    }
    count
}
