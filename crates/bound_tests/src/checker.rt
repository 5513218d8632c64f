//! The check of trees written by hand: no sum of three even numbers is odd.
ghost use Rattle.std.specs.Prelude.{◌≡◌, ◌∷◌, [], ◌<◌, List, All, IfOk, IfSome, pos};
ghost use Rattle.lin_bound.specs.Problem.{ProblemData, row_count, IsLegal};
ghost use Rattle.cert_tree.specs.Trees.{IsWhole};
ghost use Rattle.cert_tree.specs.Multipliers.{HasLegalMult};
ghost use Rattle.cert_tree.specs.declared.nodes.TreeNode.{TreeNode};

use cert_checker::{CheckAnswer, Reason, check_nodes, first_fault_is_one};
use cert_tree::TreeNode;
use lin_bound::{Mult, Problem};
use sqlite_items::Items;
use std::alloc::{AllocError, Global};
use std::test::*;

/// The least numbers of a node.
#[derive(Clone, Copy)]
enum Line {
    Close(u8, u8, u8),
    Split(u8, u8),
    Open,
}

use Line::{Close, Open, Split};

/// A problem of two rows and no cost.
fn two_rows(
    alloc: Global,
    first: &[i64],
    second: &[i64],
    rhs: &[i64],
    upper: &[u64],
) -> Result<Problem, AllocError>
    requires { IsLegal (record { cost = pos 0 ∷ pos 0 ∷ pos 0 ∷ []; rows = first.now ∷ second.now ∷ []; rhs = rhs.now; upper = upper.now }) }
    ensures { IfOk result (λ problem. row_count problem ≡ 2) }
{
    let mut rows = Items::new(alloc);
    rows.push(Items::from_slice(alloc, first)?)?;
    rows.push(Items::from_slice(alloc, second)?)?;
    Ok(Problem::new(
        Items::from_slice(alloc, &[0, 0, 0])?,
        rows,
        Items::from_slice(alloc, rhs)?,
        Items::from_slice(alloc, upper)?,
    ))
}

/// The rows 2(x + y + z) <= 3 and -2(x + y + z) <= -3 of three variables at most 1.
fn odd_sum(alloc: Global) -> Result<Problem, AllocError>
    ensures { IfOk result (λ problem. row_count problem ≡ 2) }
{
    two_rows(alloc, &[2, 2, 2], &[-2, -2, -2], &[3, -3], &[1, 1, 1])
}

fn mult(alloc: Global, d: u8, first: u8, second: u8) -> Result<Mult, AllocError>
    ensures d { IfOk result (λ mult. mult.d ≡ d) }
    ensures lambda { IfOk result (λ mult. mult.lambda ≡ first ∷ second ∷ []) }
{
    let lambda = Items::from_slice(alloc, &[u32::from(first), u32::from(second)])?;
    let d = u32::from(d);
    Ok(Mult { d, lambda })
}

fn node_of(alloc: Global, line: Line) -> Result<TreeNode, AllocError>
    ensures { IfOk result (λ node.
        (p : ProblemData) → row_count p ≡ 2 → HasLegalMult p node) }
{
    match line {
        Line::Close(d, first, second) => Ok(TreeNode::Leaf(mult(alloc, d, first, second)?)),
        Line::Split(var, at) => Ok(TreeNode::Split {
            var: u32::from(var),
            at: u64::from(at),
            mult: mult(alloc, 0, 0, 0)?,
        }),
        Line::Open => Ok(TreeNode::Open),
    }
}

/// How many trees are still to come after a node.
fn trees_after(node: &TreeNode, trees: u32) -> u32
    requires some { 0 < trees }
    requires few { trees < 100 }
    ensures { (rest : List TreeNode) → IsWhole result rest → IsWhole trees (node.now ∷ rest) }
{
    match node {
        TreeNode::Split { .. } => trees + 1,
        TreeNode::Leaf(_) => trees - 1,
        TreeNode::Open => trees - 1,
    }
}

/// The nodes of the lines, if they are one whole tree.
fn tree_of(alloc: Global, lines: &[Line]) -> Result<Option<Vec<TreeNode>>, AllocError>
    ensures whole { IfOk result (λ tree. IfSome tree (λ nodes. IsWhole 1 nodes.items)) }
    ensures legal { IfOk result (λ tree. IfSome tree (λ nodes.
        (p : ProblemData) → row_count p ≡ 2 → All (HasLegalMult p) nodes.items)) }
{
    let mut nodes = Vec::new(alloc);
    let mut trees = 1;
    for line in lines {
        if trees == 0 || trees > 90 {
            return Ok(None);
        }
        let node = node_of(alloc, *line)?;
        trees = trees_after(&node, trees);
        nodes.push(node)?;
    }
    if trees > 0 {
        return Ok(None);
    }
    Ok(Some(nodes))
}

/// What the check says of the tree of the lines, if they are one.
fn checked(
    alloc: Global,
    lines: &[Line],
    best: Option<i64>,
) -> Result<Option<CheckAnswer>, AllocError> {
    let problem = odd_sum(alloc)?;
    let Some(nodes) = tree_of(alloc, lines)? else {
        return Ok(None);
    };
    let answer = check_nodes(alloc, &problem, nodes.as_slice(), best)?;
    Ok(Some(answer))
}

/// Whether it says that this is the first place at which something is wrong.
fn is_invalid(answer: &Option<CheckAnswer>, path: &[bool], reason: Reason) -> bool {
    match answer {
        Some(CheckAnswer::Invalid(at, why)) => at.as_slice() == path && *why == reason,
        _ => false,
    }
}

/// A certificate, with other nodes at the third and the fourth place.
fn worked(third: Line, fourth: Line) -> [Line; 11] {
    [
        Split(0, 0),
        Split(1, 0),
        third,
        fourth,
        Close(0, 0, 1),
        Close(0, 1, 0),
        Split(1, 0),
        Split(2, 0),
        Close(0, 0, 1),
        Close(0, 1, 0),
        Close(0, 1, 0),
    ]
}

#[test]
fn first_faults(rt: HostRuntime) -> Result<(), Fail> {
    let (leaf, split) = (Close(0, 0, 1), Split(2, 0));
    let good = checked(rt.alloc(), &worked(leaf, split), None)?;
    assert!(rt; matches!(good, Some(CheckAnswer::Valid)));
    let target = 0;
    let cases: [(Line, Line, &[bool], Reason); 7] = [
        (
            Close(0, 1, 1),
            split,
            &[false, false],
            Reason::NotClosed { bound: 0, target },
        ),
        (leaf, Split(2, 1), &[false, true], Reason::BadSplit),
        (leaf, Split(1, 1), &[false, true], Reason::BadSplit),
        (leaf, Split(3, 0), &[false, true], Reason::BadSplit),
        (Open, split, &[false, false], Reason::OpenLeaf),
        (Close(1, 0, 1), split, &[false, false], Reason::BadMult),
        (
            Close(0, 1, 0),
            split,
            &[false, false],
            Reason::NotClosed { bound: 3, target },
        ),
    ];
    for (third, fourth, path, reason) in cases {
        let answer = checked(rt.alloc(), &worked(third, fourth), None)?;
        assert!(rt; is_invalid(&answer, path, reason));
    }
    Ok(())
}

#[test]
fn values(rt: HostRuntime) -> Result<(), Fail> {
    let root = [Close(3, 0, 0)];
    let closed = checked(rt.alloc(), &root, Some(0))?;
    assert!(rt; matches!(closed, Some(CheckAnswer::Valid)));
    let target = -3;
    let below = checked(rt.alloc(), &root, Some(-2))?;
    assert!(rt; is_invalid(&below, &[], Reason::NotClosed { bound: 0, target }));
    first_fault_is_one();
    Ok(())
}
