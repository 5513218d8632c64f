//! Bounds, boxes, paths and points of problems that were worked by hand.
ghost use Rattle.std.specs.Prelude.{◌≡◌, ◌∷◌, [], ◌≤◌, ◌^◌, slice_index, IfOk};
ghost use Rattle.lin_bound.specs.Problem.{variables, row_count, IsLegal};
ghost use Rattle.lin_bound.specs.Bound.{IsMult};
ghost use Rattle.lin_bound.specs.Box.{whole_box, IsPath, Splits};

use lin_bound::{
    Branch, Mult, Path, Point, Problem, bound, box_of, closed_holds_none, closes,
    ends_are_greatest, halves_cover, one_point_closes, plain_closing, plain_mult, try_box_of,
    weak_duality,
};
use sqlite_items::Items;
use std::alloc::{AllocError, Global};
use std::test::*;

/// A problem of two rows.
fn two_rows(
    alloc: Global,
    cost: &[i64],
    first: &[i64],
    second: &[i64],
    rhs: &[i64],
    upper: &[u64],
) -> Result<Problem, AllocError>
    requires { IsLegal (record { cost = cost.now; rows = first.now ∷ second.now ∷ []; rhs = rhs.now; upper = upper.now }) }
    ensures { IfOk result (λ problem. problem ≡ record { cost = cost.now; rows = first.now ∷ second.now ∷ []; rhs = rhs.now; upper = upper.now }) }
{
    let mut rows = Items::new(alloc);
    rows.push(Items::from_slice(alloc, first)?)?;
    rows.push(Items::from_slice(alloc, second)?)?;
    Ok(Problem::new(
        Items::from_slice(alloc, cost)?,
        rows,
        Items::from_slice(alloc, rhs)?,
        Items::from_slice(alloc, upper)?,
    ))
}

/// The rows 2(x + y + z) <= 3 and -2(x + y + z) <= -3 of three variables at most 1: no point keeps both.
fn odd_sum(alloc: Global) -> Result<Problem, AllocError>
    ensures rows { IfOk result (λ problem. row_count problem ≡ 2) }
    ensures variables { IfOk result (λ problem. variables problem ≡ 3) }
    ensures upper { IfOk result (λ problem. problem.upper ≡ 1 ∷ 1 ∷ 1 ∷ []) }
{
    two_rows(
        alloc,
        &[1, 1, 1],
        &[2, 2, 2],
        &[-2, -2, -2],
        &[3, -3],
        &[1, 1, 1],
    )
}

/// One variable at most 1, whose loads are as large as a problem can have.
fn largest(alloc: Global) -> Result<Problem, AllocError>
    ensures { IfOk result (λ problem. row_count problem ≡ 2) }
{
    two_rows(
        alloc,
        &[1_152_921_504_606_846_976],
        &[1_152_921_504_606_846_976],
        &[-1_152_921_504_606_846_976],
        &[2_305_843_009_213_693_952, -2_305_843_009_213_693_952],
        &[1],
    )
}

/// Multipliers for two rows.
fn multipliers(
    alloc: Global,
    problem: &Problem,
    d: u32,
    lambda: [u32; 2],
) -> Result<Mult, AllocError>
    requires rows { row_count problem.now ≡ 2 }
    requires d { d ≤ 2 ^ 30 }
    requires first { slice_index lambda 0 ≤ 2 ^ 30 }
    requires second { slice_index lambda 1 ≤ 2 ^ 30 }
    ensures { IfOk result (λ mult. IsMult problem.now mult) }
{
    Ok(Mult {
        d,
        lambda: Items::from_slice(alloc, &lambda)?,
    })
}

fn whole_bound(
    alloc: Global,
    problem: &Problem,
    d: u32,
    lambda: [u32; 2],
) -> Result<i128, AllocError>
    requires rows { row_count problem.now ≡ 2 }
    requires d { d ≤ 2 ^ 30 }
    requires first { slice_index lambda 0 ≤ 2 ^ 30 }
    requires second { slice_index lambda 1 ≤ 2 ^ 30 }
{
    let mult = multipliers(alloc, problem, d, lambda)?;
    let region = box_of(alloc, problem, &Path::new(alloc))?;
    Ok(bound(problem, &region, &mult))
}

/// The bounds of the whole box of `odd_sum`.
fn odd_bounds(alloc: Global) -> Result<[i128; 3], AllocError> {
    let odd = odd_sum(alloc)?;
    let first = whole_bound(alloc, &odd, 0, [1, 0])?;
    let second = whole_bound(alloc, &odd, 0, [0, 1])?;
    let cost = whole_bound(alloc, &odd, 1, [0, 0])?;
    Ok([first, second, cost])
}

/// The bounds of the whole box of `largest`, under the largest multipliers.
fn large_bounds(alloc: Global) -> Result<[i128; 3], AllocError> {
    let large = largest(alloc)?;
    let first = whole_bound(alloc, &large, 1_073_741_824, [1_073_741_824, 0])?;
    let second = whole_bound(alloc, &large, 1_073_741_824, [0, 1_073_741_824])?;
    let both = whole_bound(alloc, &large, 1_073_741_824, [1_073_741_824, 1_073_741_824])?;
    Ok([first, second, both])
}

#[test]
fn bounds_by_hand(rt: HostRuntime) -> Result<(), Fail> {
    assert_eq!(rt; odd_bounds(rt.alloc())?, [3, 3, 3]);
    assert_eq!(rt; large_bounds(rt.alloc())?, [1 << 91, 0, 1 << 90]);
    Ok(())
}

/// The path to the points with a second variable of 1, and to those with a first of 1 too.
fn two_ones(alloc: Global, problem: &Problem) -> Result<Path, AllocError>
    requires variables { variables problem.now ≡ 3 }
    requires upper { problem.now.upper ≡ 1 ∷ 1 ∷ 1 ∷ [] }
    ensures { IfOk result (λ path. IsPath problem.now path) }
{
    let second = Branch {
        var: 1,
        at: 0,
        high: true,
    };
    let first = Branch {
        var: 0,
        at: 0,
        high: true,
    };
    Path::new(alloc).child(alloc, second)?.child(alloc, first)
}

/// What the first two plain multipliers close of the box of `two_ones`, at the best values 3, 2 and none.
fn closed(alloc: Global) -> Result<[bool; 5], AllocError> {
    let odd = odd_sum(alloc)?;
    let path = two_ones(alloc, &odd)?;
    let region = box_of(alloc, &odd, &path)?;
    let cost = plain_mult(alloc, &odd, 0)?;
    let first = plain_mult(alloc, &odd, 1)?;
    Ok([
        closes(&odd, &region, &cost, Some(3)),
        closes(&odd, &region, &cost, Some(2)),
        closes(&odd, &region, &cost, None),
        closes(&odd, &region, &first, Some(-9)),
        closes(&odd, &region, &first, None),
    ])
}

#[test]
fn a_box_that_closes(rt: HostRuntime) -> Result<(), Fail> {
    assert_eq!(rt; closed(rt.alloc())?, [true, false, false, true, true]);
    Ok(())
}

/// The least number that closes the whole box of `odd_sum` and the box of `two_ones`.
fn least_closing(alloc: Global, best: Option<i64>) -> Result<[Option<usize>; 2], AllocError> {
    let odd = odd_sum(alloc)?;
    let whole = box_of(alloc, &odd, &Path::new(alloc))?;
    let path = two_ones(alloc, &odd)?;
    let part = box_of(alloc, &odd, &path)?;
    Ok([
        plain_closing(&odd, &whole, best),
        plain_closing(&odd, &part, best),
    ])
}

#[test]
fn plain_numbers_that_close(rt: HostRuntime) -> Result<(), Fail> {
    let cases = [
        (Some(3), [Some(0), Some(0)]),
        (Some(2), [None, Some(1)]),
        (None, [None, Some(1)]),
    ];
    for (best, numbers) in cases {
        assert_eq!(rt; least_closing(rt.alloc(), best)?, numbers);
    }
    Ok(())
}

/// The first and last place of each list of `odd_sum`.
fn told(problem: &Problem) -> [i64; 6]
    requires variables { variables problem.now ≡ 3 }
    requires rows { row_count problem.now ≡ 2 }
{
    [
        problem.cost(0),
        problem.cost(2),
        problem.coefficient(0, 2),
        problem.coefficient(1, 0),
        problem.rhs(0),
        problem.rhs(1),
    ]
}

#[test]
fn what_a_problem_tells(rt: HostRuntime) -> Result<(), Fail> {
    let odd = odd_sum(rt.alloc())?;
    assert_eq!(rt; told(&odd), [1, 1, 2, -2, 3, -3]);
    let point = Point::new(Items::from_slice(rt.alloc(), odd.uppers())?);
    assert_eq!(rt; point.counts(), [1, 1, 1].as_slice());
    Ok(())
}

/// How long the path of `two_ones` is, and its last branch.
fn last_branch(alloc: Global) -> Result<(usize, Branch), AllocError> {
    let last = Branch {
        var: 0,
        at: 0,
        high: true,
    };
    let path = Path::new(alloc).child(alloc, last)?.copy(alloc)?;
    Ok((path.len(), path.branch(0)))
}

/// The path of these variables, each at most 1 or at least 2.
fn path_of(alloc: Global, branches: &[(u32, bool)]) -> Result<Path, AllocError> {
    let mut path = Path::new(alloc);
    for (var, high) in branches {
        let branch = Branch {
            var: *var,
            at: 1,
            high: *high,
        };
        path = path.child(alloc, branch)?;
    }
    Ok(path)
}

#[test]
fn paths_compared(rt: HostRuntime) -> Result<(), Fail> {
    let path = path_of(rt.alloc(), &[(0, false), (1, true)])?;
    let cases: [(&[(u32, bool)], bool); 5] = [
        (&[(0, false), (1, true)], true),
        (&[(0, false), (1, false)], false),
        (&[(1, false), (1, true)], false),
        (&[(0, false)], false),
        (&[(0, false), (1, true), (2, true)], false),
    ];
    for (branches, same) in cases {
        assert_eq!(rt; path.is_same(&path_of(rt.alloc(), branches)?), same);
    }
    Ok(())
}

/// The box of a path of `odd_sum`, in words.
fn tried(alloc: Global, path: &Path) -> Result<String, AllocError> {
    let problem = odd_sum(alloc)?;
    let Some(region) = try_box_of(alloc, &problem, path)? else {
        return format!(in alloc; "none");
    };
    let mut text = String::new(alloc);
    for end in region.low.as_slice() {
        let end = *end;
        text.push_str(format!(in alloc; " {end}")?.as_str())?;
    }
    Ok(text)
}

/// The boxes of both halves of the whole box of `odd_sum`, split at this place.
fn both_tried(alloc: Global, var: u32, at: u64) -> Result<[String; 2], AllocError> {
    let (lower, upper) = Path::new(alloc).halves(alloc, var, at)?;
    Ok([tried(alloc, &lower)?, tried(alloc, &upper)?])
}

#[test]
fn paths_with_and_without_a_box(rt: HostRuntime) -> Result<(), Fail> {
    let cases = [
        (2, 0, " 0 0 0", " 0 0 1"),
        (2, 1, "none", "none"),
        (3, 0, "none", "none"),
    ];
    for (var, at, lower, upper) in cases {
        let [first, second] = both_tried(rt.alloc(), var, at)?;
        assert_eq!(rt; first.as_str(), lower);
        assert_eq!(rt; second.as_str(), upper);
    }
    Ok(())
}

#[test]
fn a_branch_is_small(rt: HostRuntime) -> Result<(), Fail> {
    assert_eq!(rt; std::mem::size_of::<Branch>(), 16);
    Ok(())
}

/// A copy of the plain multipliers of the first row of `odd_sum`, written over those of the cost.
fn overwritten(alloc: Global) -> Result<Mult, AllocError> {
    let problem = odd_sum(alloc)?;
    let first = plain_mult(alloc, &problem, 1)?.copy(alloc)?;
    let mut mult = plain_mult(alloc, &problem, 0)?;
    mult.copy_from(&first);
    Ok(mult)
}

/// A copy of a point of three counts, written over another.
fn moved(alloc: Global) -> Result<Point, AllocError> {
    let mut point = Point::new(Items::from_slice(alloc, &[1, 1, 1])?);
    point.copy_from(&[0, 3, 1]);
    point.copy(alloc)
}

#[test]
fn copies_in_place(rt: HostRuntime) -> Result<(), Fail> {
    let mult = overwritten(rt.alloc())?;
    assert_eq!(rt; mult.d, 0);
    assert_eq!(rt; mult.lambda.as_slice(), [1, 0].as_slice());
    assert_eq!(rt; moved(rt.alloc())?.counts(), [0, 3, 1].as_slice());
    Ok(())
}

#[test]
fn what_a_path_tells(rt: HostRuntime) -> Result<(), Fail> {
    let (length, last) = last_branch(rt.alloc())?;
    assert_eq!(rt; length, 1);
    assert_eq!(rt; last.var, 0);
    ends_are_greatest();
    weak_duality();
    closed_holds_none();
    one_point_closes();
    halves_cover();
    Ok(())
}

/// The rows x + 2y <= 5 and x >= 1, with x at most 3 and y at most 2.
fn some_points(alloc: Global) -> Result<Problem, AllocError> {
    two_rows(alloc, &[3, -4], &[1, 2], &[-1, 0], &[5, -1], &[3, 2])
}

/// The cost of a feasible point.
fn judged(alloc: Global, problem: &Problem, counts: &[u64]) -> Result<Option<i64>, AllocError> {
    let point = Point::new(Items::from_slice(alloc, counts)?);
    if !problem.is_feasible(&point) {
        return Ok(None);
    }
    Ok(Some(problem.cost_of(&point)))
}

#[test]
fn points_judged(rt: HostRuntime) -> Result<(), Fail> {
    let problem = some_points(rt.alloc())?;
    let cases: [(&[u64], Option<i64>); 7] = [
        (&[3, 1], Some(5)),
        (&[1, 2], Some(-5)),
        (&[3, 2], None),
        (&[0, 2], None),
        (&[4, 0], None),
        (&[1], None),
        (&[1, 1, 0], None),
    ];
    for (counts, want) in cases {
        assert_eq!(rt; judged(rt.alloc(), &problem, counts)?, want);
    }
    Ok(())
}
