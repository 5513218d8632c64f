//! From points of a program to packages, and back.
ghost use Rattle.std.specs.Prelude.{◌≡◌, ◌≤◌, ◌++◌, ◌∷◌, [], IfOk, MatchOption, OnOk};
ghost use Rattle.std.specs.List.{AllByRecursion};
ghost use Rattle.lin_bound.specs.Problem.{IsWithin};
ghost use Rattle.package_judge.specs.Packages.{IsLimited};
ghost use Rattle.package_program.specs.Points.{package_at, first_count, after_first, ArePairsOf, IsPointOf};

use crate::linear::Linear;
use lin_bound::Point;
use package_judge::Package;
use sqlite_items::Items;
use std::alloc::{AllocError, Global};

/// Adds the pair of an id, unless its count is 0.
fn put(pairs: &mut Vec<(u64, u32)>, id: u64, count: u64) -> Result<(), AllocError>
    requires { count ≤ 1000000 }
    ensures pairs { OnOk result
        (pairs.new.items ≡ pairs.old.items ++ package_at (id ∷ []) (count ∷ [])) }
    ensures limited { OnOk result
        (AllByRecursion IsLimited pairs.old.items → AllByRecursion IsLimited pairs.new.items) }
{
    if count == 0 {
        return Ok(());
    }
    pairs.push((id, count as u32))?;
    Ok(())
}

/// The package of a point within the uppers: a pair for each variable that isn't 0.
pub fn package_of(alloc: Global, linear: &Linear, point: &Point) -> Result<Package, AllocError>
    requires { IsWithin linear.now.problem point.now }
    ensures { IfOk result (λ made. made ≡ package_at linear.now.ids point.now) }
{
    let ids = linear.ids();
    let counts = point.counts();
    let mut pairs = Vec::new(alloc);
    for place in 0..ids.len() {
        put(&mut pairs, ids[place], counts[place])?;
    }
    Ok(Package::new(pairs).unwrap())
}

/// The count of the first pair if it has this id, and 0 if not, and the pairs that are left then.
fn take_id<'a>(pairs: &'a [(u64, u32)], id: u64) -> (u64, &'a [(u64, u32)])
    ensures count { result.0 ≡ first_count id pairs.now }
    ensures left { result.1.now ≡ after_first id pairs.now }
{
    match pairs.split_first() {
        Some((first, rest)) if first.0 == id => (u64::from(first.1), rest),
        _ => (0, pairs),
    }
}

/// The point of a package, `None` if an id is that of no variable, or a count exceeds the row
/// bound.
pub fn point_of(
    alloc: Global,
    linear: &Linear,
    package: &Package,
) -> Result<Option<Point>, AllocError>
    ensures { IfOk result (λ found. MatchOption found
        (¬ ArePairsOf linear.now «package».now) (IsPointOf linear.now «package».now)) }
{
    let ids = linear.ids();
    let uppers = linear.problem().uppers();
    let mut counts = Items::new(alloc);
    let mut left = package.pairs();
    for place in 0..ids.len() {
        let (count, rest) = take_id(left, ids[place]);
        if count > uppers[place] {
            return Ok(None);
        }
        counts.push(count)?;
        left = rest;
    }
    if !left.is_empty() {
        return Ok(None);
    }
    Ok(Some(Point::new(counts)))
}
