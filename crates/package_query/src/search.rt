//! The search of the plain program through every package.
ghost use Rattle.std.specs.Prelude.{◌≡◌, ◌++◌, ◌≤◌, IfOk, Some};
ghost use Rattle.package_query.specs.Package.{AscendsFrom};
ghost use Rattle.package_query.specs.Plain.{query_of, IsSmall};
ghost use Rattle.package_query.specs.Search.{copies_of, IsFound, IsBetterOf, Improves, Extends};

use crate::plain::{PlainBest, PlainQuery, meets, worth};
use sqlite_items::Items;
use std::alloc::{AllocError, Global};

fn with_copies(
    alloc: Global,
    chosen: &[(u64, u64)],
    id: u64,
    count: u64,
) -> Result<Vec<(u64, u64)>, AllocError>
    ensures { IfOk result (λ longer. longer.items ≡ chosen.now ++ copies_of id count) }
{
    let mut longer = Vec::from_slice(alloc, chosen)?;
    if count == 0 {
        return Ok(longer);
    }
    longer.push((id, count))?;
    Ok(longer)
}

fn better(best: Option<PlainBest>, candidate: PlainBest) -> PlainBest
    ensures { IsBetterOf best candidate result }
{
    match best {
        Some(best) => {
            if best.worth >= candidate.worth {
                best
            } else {
                candidate
            }
        }
        None => candidate,
    }
}

fn with_package(
    alloc: Global,
    query: &PlainQuery,
    rows: &[(u64, Items<i64>)],
    pairs: &[(u64, u64)],
    best: Option<PlainBest>,
) -> Result<Option<PlainBest>, AllocError>
    requires small { IsSmall query.now rows.now }
    requires ascends { AscendsFrom 0 rows.now }
    requires found { IsFound (query_of query.now) rows.now best }
    ensures { IfOk result (λ after.
        Improves (query_of query.now) rows.now (λ other. other ≡ pairs.now) best after) }
{
    if !meets(query, rows, pairs) {
        return Ok(best);
    }
    let candidate = PlainBest {
        pairs: Vec::from_slice(alloc, pairs)?,
        worth: worth(query, rows, pairs),
    };
    Ok(Some(better(best, candidate)))
}

/// Tries each package that begins with the chosen pairs and goes on over the rows that are left.
pub fn search(
    alloc: Global,
    query: &PlainQuery,
    rows: &[(u64, Items<i64>)],
    left: &[(u64, Items<i64>)],
    chosen: &[(u64, u64)],
    best: Option<PlainBest>,
) -> Result<Option<PlainBest>, AllocError>
    requires small { IsSmall query.now rows.now }
    requires ascends { AscendsFrom 0 rows.now }
    requires found { IsFound (query_of query.now) rows.now best }
    ensures { IfOk result (λ after.
        Improves (query_of query.now) rows.now (Extends chosen.now left.now) best after) }
{
    let Some((first, others)) = left.split_first() else {
        return with_package(alloc, query, rows, chosen, best);
    };
    let mut best = best;
    for count in 0..query.repeat + 2 {
        let longer = with_copies(alloc, chosen, first.0, count)?;
        best = search(alloc, query, rows, others, &longer, best)?;
    }
    Ok(best)
}
