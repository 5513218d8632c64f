//! The sums of the plain program, in 128 bits.
ghost use Rattle.std.specs.Prelude.{◌≡◌, ◌^◌, ◌*◌, ◌≤◌, length, map, pos, ◌*ℤ◌};
ghost use Rattle.std.specs.Option.{option_copied};
ghost use Rattle.std.specs.Int.RustNames.{unsigned_abs};
ghost use Rattle.package_query.specs.Package.{row_at};
ghost use Rattle.package_query.specs.Meaning.{copies_give, pair_gives, total};
ghost use Rattle.package_query.specs.Plain.{number_at, IsSmallPackage};

use sqlite_items::Items;

fn number_at(place: usize, row: &Items<i64>) -> i64
    ensures { result ≡ number_at place row.now }
{
    row.get(place).copied().unwrap_or(0)
}

fn times(count: u64, number: i64) -> i128
    requires { count ≤ 2 ^ 20 }
    ensures value { result ≡ pos count *ℤ number }
    ensures small { unsigned_abs result ≤ 2 ^ 83 }
{
    i128::from(count) * i128::from(number)
}

fn copies_give(terms: &[usize], count: u64, row: &Items<i64>) -> i128
    requires terms { length terms.now ≤ 64 }
    requires count { count ≤ 2 ^ 20 }
    ensures value { result ≡ copies_give (map number_at terms.now) count row.now }
    ensures small { unsigned_abs result ≤ 2 ^ 89 }
{
    let mut sum: i128 = 0;
    for place in terms {
        sum += times(count, number_at(*place, row));
    }
    sum
}

/// The row with an id.
pub fn row_at(id: u64, rows: &[(u64, Items<i64>)]) -> Option<&Items<i64>>
    ensures { option_copied result ≡ row_at id rows.now }
{
    for entry in rows {
        if entry.0 == id {
            return Some(&entry.1);
        }
    }
    None
}

fn pair_gives(terms: &[usize], rows: &[(u64, Items<i64>)], pair: &(u64, u64)) -> i128
    requires terms { length terms.now ≤ 64 }
    requires count { pair.now.1 ≤ 2 ^ 20 }
    ensures value { result
        ≡ pair_gives (map number_at terms.now) pair.now.1 (row_at pair.now.0 rows.now) }
    ensures small { unsigned_abs result ≤ 2 ^ 89 }
{
    match row_at(pair.0, rows) {
        Some(row) => copies_give(terms, pair.1, row),
        None => 0,
    }
}

/// The total of a package over the numbers at these places.
pub fn total(terms: &[usize], rows: &[(u64, Items<i64>)], pairs: &[(u64, u64)]) -> i128
    requires terms { length terms.now ≤ 64 }
    requires pairs { IsSmallPackage pairs.now }
    ensures value { result ≡ total (map number_at terms.now) rows.now pairs.now }
    ensures small { unsigned_abs result ≤ 2 ^ 121 }
{
    let mut sum: i128 = 0;
    for pair in pairs {
        sum += pair_gives(terms, rows, pair);
    }
    sum
}
