//! A package: how often each row of a table is taken.
ghost use Rattle.std.specs.Prelude.{◌≡◌, ◌↔◌, IsTrue, MatchOption};
ghost use Rattle.package_judge.specs.Packages.{IsPackageOf};

use std::marker::Model;

/// A row may be taken at most so often.
pub const MAX_COUNT: u32 = 1_000_000;

/// A multiset of rows, as pairs of a row's id and how often the row is taken. The ids ascend, and
/// each count is from 1 to `MAX_COUNT`.
#[derive(Debug, Drop)]
pub struct Package {
    pairs: Vec<(u64, u32)>,
}

impl Model for Package {
    ghost use Rattle.std.specs.Prelude.{List, ℕ};
    ghost use Rattle.package_judge.specs.Packages.{IsPackageOf};

    ghost Value = { List (ℕ × ℕ) };

    ghost view = { λ p. p.pairs.items };

    ghost invariant = { λ p. IsPackageOf p.pairs.items };
}

impl Package {
    /// The package of these pairs, `None` if they are none. It takes no memory.
    pub fn new(pairs: Vec<(u64, u32)>) -> Option<Package>
        ensures { MatchOption result (¬ IsPackageOf pairs.items)
            (λ made. (made ≡ pairs.items) × IsPackageOf pairs.items) }
    {
        if is_package(&pairs) {
            Some(Package { pairs })
        } else {
            None
        }
    }

    /// The pairs of an id and a count, in the order of their ids.
    pub fn pairs(&self) -> &[(u64, u32)]
        ensures pairs { result.now ≡ self.now }
        ensures legal { IsPackageOf self.now }
    {
        self.pairs.as_slice()
    }
}

fn is_package(pairs: &[(u64, u32)]) -> bool
    ensures { IsTrue result ↔ IsPackageOf pairs.now }
{
    let mut low: u128 = 0;
    for (id, count) in pairs {
        if u128::from(*id) < low {
            return false;
        }
        if *count == 0 || *count > MAX_COUNT {
            return false;
        }
        low = u128::from(*id) + 1;
    }
    true
}
