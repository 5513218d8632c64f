//! What is wrong at one place of a tree.
ghost use Rattle.std.specs.Prelude.{◌≡◌, ◌↔◌, IsTrue, length};
ghost use Rattle.lin_bound.specs.Box.{IsRegion};
ghost use Rattle.lin_bound.specs.Bound.{IsMult};
ghost use Rattle.cert_tree.specs.Multipliers.{HasLegalMult};
ghost use Rattle.cert_tree.specs.declared.nodes.TreeNode.TheVariants.{Leaf};
ghost use Rattle.cert_checker.specs.Faults.{target_of, MayClose, SplitIs, IsJudged};

use crate::answer::Reason;
use cert_tree::TreeNode;
use lin_bound::{Branch, Mult, Problem, Region, bound};

/// What the bound of a leaf has to stay below.
fn target_of(d: u32, best: Option<i64>) -> i128
    ensures { result ≡ target_of best d }
{
    match best {
        Some(value) => i128::from(d) * (i128::from(value) + 1),
        None => 0,
    }
}

/// Whether multipliers may close a box: with no value, only those that don't weigh the cost.
fn may_close(d: u32, best: Option<i64>) -> bool
    ensures { IsTrue result ↔ MayClose best d }
{
    match best {
        Some(_) => true,
        None => d == 0,
    }
}

/// What is wrong with a leaf.
fn leaf_fault(problem: &Problem, region: &Region, mult: &Mult, best: Option<i64>) -> Option<Reason>
    requires region { IsRegion problem.now region.now }
    requires mult { IsMult problem.now mult.now }
    ensures { IsJudged problem.now best region.now (Leaf mult.now) result }
{
    if !may_close(mult.d, best) {
        return Some(Reason::BadMult);
    }
    let most = bound(problem, region, mult);
    let target = target_of(mult.d, best);
    if most < target {
        return None;
    }
    Some(Reason::NotClosed {
        bound: most,
        target,
    })
}

/// What is wrong with a split.
fn split_fault(region: &Region, var: u32, at: u64) -> Option<Reason>
    requires { length region.now.low ≡ length region.now.high }
    ensures { SplitIs region.now var at result }
{
    let high = false;
    if region.is_split_by(Branch { var, at, high }) {
        return None;
    }
    Some(Reason::BadSplit)
}

/// What is wrong at a place, if anything is.
pub(crate) fn fault(
    problem: &Problem,
    region: &Region,
    node: &TreeNode,
    best: Option<i64>,
) -> Option<Reason>
    requires region { IsRegion problem.now region.now }
    requires mult { HasLegalMult problem.now node.now }
    ensures { IsJudged problem.now best region.now node.now result }
{
    match node {
        TreeNode::Leaf(mult) => leaf_fault(problem, region, mult, best),
        TreeNode::Split { var, at, .. } => split_fault(region, *var, *at),
        TreeNode::Open => Some(Reason::OpenLeaf),
    }
}
