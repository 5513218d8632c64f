//! What one copy of each candidate adds to a sum.
ghost use Rattle.std.specs.Prelude.{◌≡◌, ◌*◌, ◌^◌, ◌<◌, ◌≤◌, IsTrue, map, length, pos, unsigned_abs};
ghost use Rattle.std.specs.List.{AllByRecursion};
ghost use Rattle.bound_query.specs.Fits.{AreBoundTerms, fits_terms};
ghost use Rattle.bound_query.specs.Terms.{term_value};
ghost use Rattle.package_program.specs.Columns.{AreColumnsOf};
ghost use Rattle.package_program.specs.Program.{per_copy, adds};
ghost use Rattle.package_program.specs.Translation.{most_candidates, entries_of, SumGives};

use crate::columns::Columns;
use crate::copies::per_copy;
use crate::faults::FormFault;
use bound_query::BoundTerm;
use sqlite_items::Items;
use std::alloc::Global;
use table_schema::Row;

/// The most that the copies of all candidates can change a sum.
const MOST_SUM: u128 = 1 << 60;

fn size_of(bound: u32, adds: i128) -> u128
    requires bound { bound ≤ 1000000 }
    requires adds { unsigned_abs adds ≤ 2 ^ 90 }
    ensures { result ≡ bound * unsigned_abs adds }
{
    u128::from(bound) * adds.unsigned_abs()
}

/// What one copy adds, and 0 if none can occur.
fn coefficient(bound: u32, adds: i128) -> i64
    requires { bound * unsigned_abs adds ≤ 2 ^ 60 }
    ensures none { bound ≡ 0 → result ≡ pos 0 }
    ensures some { 1 ≤ bound → result ≡ adds }
{
    if bound == 0 {
        return 0;
    }
    adds as i64
}

/// What one copy of each candidate adds to the sum that has this number, and 0 for each if none
/// can occur.
pub fn adds_of(
    alloc: Global,
    terms: &[BoundTerm],
    candidates: &[&(u64, Row)],
    columns: &Columns,
    bound: u32,
    number: u32,
) -> Result<Items<i64>, FormFault>
    requires terms { AreBoundTerms terms.now }
    requires fits { AllByRecursion (λ entry. IsTrue (fits_terms entry.1 terms.now))
        (entries_of candidates.now) }
    requires few { length candidates.now ≤ most_candidates }
    requires bound { bound ≤ 1000000 }
    requires kept { AreColumnsOf (entries_of candidates.now) columns.now }
    ensures { SumGives number bound (map term_value terms.now) (entries_of candidates.now)
        (adds bound (map term_value terms.now) (entries_of candidates.now)) result }
{
    let mut sum = Items::from_vec(Vec::with_capacity(alloc, candidates.len())?);
    let mut total: u128 = 0;
    for (place, candidate) in candidates.iter().enumerate() {
        let adds = per_copy(terms, columns, place, candidate.1.as_slice());
        total += size_of(bound, adds);
        if total > MOST_SUM {
            return Err(FormFault::TooLarge {
                conjunct: number,
                total,
            });
        }
        sum.push(coefficient(bound, adds))?;
    }
    Ok(sum)
}
