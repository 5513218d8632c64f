//! The check of a tree.
ghost use Rattle.std.specs.Prelude.{◌≡◌, IfOk, All};
ghost use Rattle.cert_tree.specs.Trees.{IsWhole};
ghost use Rattle.cert_tree.specs.Multipliers.{HasLegalMult};
ghost use Rattle.cert_checker.specs.Faults.{IsChecked};

use crate::answer::CheckAnswer;
use crate::judging::fault;
use crate::walk::Walk;
use cert_tree::{Tree, TreeNode};
use lin_bound::Problem;
use std::alloc::{AllocError, Global};

/// Whether these nodes, which are one whole tree in preorder, are a certificate for the value, or for no value, or
/// else the first place that keeps them from being one. It takes the time of a bound a leaf, and the memory of one
/// box and one path.
pub fn check_nodes(
    alloc: Global,
    problem: &Problem,
    nodes: &[TreeNode],
    best: Option<i64>,
) -> Result<CheckAnswer, AllocError>
    requires whole { IsWhole 1 nodes.now }
    requires mults { All (HasLegalMult problem.now) nodes.now }
    ensures { IfOk result (λ answer. IsChecked problem.now nodes.now best answer) }
{
    let _legal = problem.variables();
    let mut walk = Walk::new(alloc, problem)?;
    for node in nodes {
        if let Some(reason) = fault(problem, walk.region(), node, best) {
            return Ok(CheckAnswer::Invalid(walk.path(alloc)?, reason));
        }
        if !walk.go_on(node)? {
            return Ok(CheckAnswer::Valid);
        }
    }
    unreachable!()
}

/// `check_nodes` of a tree.
pub fn check(
    alloc: Global,
    problem: &Problem,
    tree: &Tree,
    best: Option<i64>,
) -> Result<CheckAnswer, AllocError>
    requires { All (HasLegalMult problem.now) tree.now }
    ensures { IfOk result (λ answer. IsChecked problem.now tree.now best answer) }
{
    check_nodes(alloc, problem, tree.nodes(), best)
}
