//! What a tree that is not done leaves possible.
ghost use Rattle.std.specs.Prelude.{◌≡◌, ◌++◌, ◌∷◌, [], ◌<◌, IfOk, All, reverse};
ghost use Rattle.lin_bound.specs.Box.{whole_box, box_at, IsPath, IsRegion};
ghost use Rattle.lin_bound.specs.Bound.{IsMult, bound_of, plain};
ghost use Rattle.cert_tree.specs.Multipliers.{HasLegalMult};
ghost use Rattle.cert_tree.specs.Partial.{PartlyCertify, bound_by, bound_with, top, most_left};
ghost use Rattle.cert_tree.specs.Places.{mult_of, mult_at, IsNumber, halves_in, raised};

use crate::nodes::{Tree, TreeNode};
use lin_bound::{Mult, Path, Problem, Region, bound, box_of, plain_mult};
use std::alloc::{AllocError, Global};

/// The least value that counts.
const FLOOR: i64 = -(1 << 60);

/// A box still to come to: the path to it, and the number of the split that it is a half of.
#[derive(Debug, Drop)]
pub(crate) struct Place {
    path: Path,
    parent: Option<usize>,
}

/// The bound by multipliers on the cost itself, rounded down.
fn bound_by(problem: &Problem, region: &Region, mult: &Mult) -> i128
    requires region { IsRegion problem.now region.now }
    requires mult { IsMult problem.now mult.now }
    requires some { 0 < mult.now.d }
    ensures { result ≡ bound_by problem.now region.now mult.now mult.now.d }
{
    bound(problem, region, mult).div_euclid(i128::from(mult.d))
}

/// The lesser of the plain bound and the one by the multipliers of a split.
fn least_bound(problem: &Problem, region: &Region, parent: &TreeNode, most: i128) -> i128
    requires region { IsRegion problem.now region.now }
    requires parent { HasLegalMult problem.now parent.now }
    requires most { most ≡ bound_of problem.now region.now (plain problem.now 0) }
    ensures { result ≡ bound_with problem.now region.now (mult_of parent.now) }
{
    let TreeNode::Split { mult, .. } = parent else {
        return most;
    };
    if mult.d == 0 {
        return most;
    }
    most.min(bound_by(problem, region, mult))
}

/// The bound of a box under the split that it is a half of.
fn bound_with(
    problem: &Problem,
    region: &Region,
    nodes: &[TreeNode],
    parent: Option<usize>,
    cost: &Mult,
) -> i128
    requires region { IsRegion problem.now region.now }
    requires mults { All (HasLegalMult problem.now) nodes.now }
    requires parent { IsNumber nodes.now parent }
    requires cost { cost.now ≡ plain problem.now 0 }
    requires mult { IsMult problem.now cost.now }
    ensures { result ≡ bound_with problem.now region.now (mult_at nodes.now parent) }
{
    let most = bound(problem, region, cost);
    match parent {
        Some(number) => least_bound(problem, region, &nodes[number], most),
        None => most,
    }
}

/// The top of an open leaf.
fn top(
    alloc: Global,
    problem: &Problem,
    nodes: &[TreeNode],
    place: &Place,
    cost: &Mult,
) -> Result<i64, AllocError>
    requires path { IsPath problem.now place.now.path }
    requires mults { All (HasLegalMult problem.now) nodes.now }
    requires parent { IsNumber nodes.now place.now.parent }
    requires cost { cost.now ≡ plain problem.now 0 }
    requires mult { IsMult problem.now cost.now }
    ensures { IfOk result (λ most. most ≡
        top problem.now (box_at problem.now place.now.path) (mult_at nodes.now place.now.parent)) }
{
    let _legal = problem.variables();
    let region = box_of(alloc, problem, &place.path)?;
    let most = bound_with(problem, &region, nodes, place.parent, cost);
    Ok(i128::from(FLOOR).max(most) as i64)
}

/// The greatest so far, which a node that is an open leaf may raise.
fn raise(
    alloc: Global,
    problem: &Problem,
    nodes: &[TreeNode],
    node: &TreeNode,
    place: &Place,
    cost: &Mult,
    most: i64,
) -> Result<i64, AllocError>
    requires path { IsPath problem.now place.now.path }
    requires mults { All (HasLegalMult problem.now) nodes.now }
    requires parent { IsNumber nodes.now place.now.parent }
    requires cost { cost.now ≡ plain problem.now 0 }
    requires mult { IsMult problem.now cost.now }
    ensures { IfOk result (λ new. new ≡ raised problem.now nodes.now place.now most node.now) }
{
    match node {
        TreeNode::Open => Ok(most.max(top(alloc, problem, nodes, place, cost)?)),
        _ => Ok(most),
    }
}

/// Puts the halves of a split onto the stack, the lower one on top.
fn put_halves(
    alloc: Global,
    node: &TreeNode,
    number: usize,
    place: Place,
    pending: &mut Vec<Place>,
) -> Result<(), AllocError>
    ensures { IfOk result (λ _. pending.new.items ≡
        pending.old.items ++ reverse (halves_in number place node.now)) }
{
    let TreeNode::Split { var, at, .. } = node else {
        return Ok(());
    };
    let (lower, upper) = place.path.halves(alloc, *var, *at)?;
    let parent = Some(number);
    pending.push(Place {
        path: upper,
        parent,
    })?;
    pending.push(Place {
        path: lower,
        parent,
    })?;
    Ok(())
}

/// What a tree that is not done leaves possible: the greatest of the value, where there is one, and of the tops of its
/// open leaves. It takes the time of two bounds an open leaf, and of a copy of its path a node.
pub fn most_left(
    alloc: Global,
    problem: &Problem,
    tree: &Tree,
    best: Option<i64>,
) -> Result<i64, AllocError>
    requires parts { PartlyCertify problem.now best (whole_box problem.now ∷ []) tree.now }
    requires mults { All (HasLegalMult problem.now) tree.now }
    ensures { IfOk result (λ most. most ≡ most_left problem.now tree.now best) }
{
    let cost = plain_mult(alloc, problem, 0)?;
    let nodes = tree.nodes();
    let mut most = best.unwrap_or(FLOOR);
    let mut pending = Vec::new(alloc);
    pending.push(Place {
        path: Path::new(alloc),
        parent: None,
    })?;
    for number in 0..nodes.len() {
        let Some(place) = pending.pop() else {
            unreachable!()
        };
        let node = &nodes[number];
        most = raise(alloc, problem, nodes, node, &place, &cost, most)?;
        put_halves(alloc, node, number, place, &mut pending)?;
    }
    Ok(most)
}
