//! Trees that are made of what a search did, in the order in which it did it, against trees written by hand.
ghost use Rattle.std.specs.Prelude.{◌≡◌, ◌∷◌, [], ◌++◌, ◌<◌, IfOk, vec_len};
ghost use Rattle.lin_bound.specs.Box.{lower, upper};
ghost use Rattle.cert_tree.specs.Records.{IsBalanced};
ghost use Rattle.cert_tree.specs.declared.records.Act.TheVariants.{Split};
ghost use Rattle.bound_tests.specs.Worked.{least_cost, open_records, open_paths, half_closed_records, half_closed_paths};

use cert_tree::{
    Act, Record, Tree, TreeNode, assemble, assembled_legal, assembled_partly, most_left,
};
use lin_bound::{Branch, Mult, Path, Problem};
use sqlite_items::Items;
use std::alloc::{AllocError, Global};
use std::test::*;

/// What a search does next: it closes the left path at a place, or splits it. `d` tells the multipliers apart.
#[derive(Clone, Copy)]
enum Step {
    Close {
        place: usize,
        d: u32,
    },
    Split {
        place: usize,
        var: u32,
        at: u64,
        d: u32,
    },
}

fn mult(alloc: Global, d: u32) -> Mult {
    Mult {
        d,
        lambda: Items::new(alloc),
    }
}

fn close(
    records: &mut Vec<Record>,
    left: &mut Vec<Path>,
    place: usize,
    mult: Mult,
) -> Result<(), AllocError>
    requires place { place < vec_len left.old }
    requires balanced { IsBalanced records.old.items left.old.items }
    ensures { IfOk result (λ _. IsBalanced records.new.items left.new.items) }
{
    let path = left.remove(place);
    records.push(Record {
        path,
        act: Act::Closed(mult),
    })?;
    Ok(())
}

fn split(
    alloc: Global,
    records: &mut Vec<Record>,
    left: &mut Vec<Path>,
    place: usize,
    var: u32,
    at: u64,
    mult: Mult,
) -> Result<(), AllocError>
    requires place { place < vec_len left.old }
    requires balanced { IsBalanced records.old.items left.old.items }
    ensures { IfOk result (λ _. IsBalanced records.new.items left.new.items) }
{
    let path = left.remove(place);
    let lower = Branch {
        var,
        at,
        high: false,
    };
    let upper = Branch {
        var,
        at,
        high: true,
    };
    left.push(path.child(alloc, lower)?)?;
    left.push(path.child(alloc, upper)?)?;
    records.push(Record {
        path,
        act: Act::Split { var, at, mult },
    })?;
    Ok(())
}

/// A step at a place past the end does nothing.
fn take(
    alloc: Global,
    records: &mut Vec<Record>,
    left: &mut Vec<Path>,
    step: Step,
) -> Result<(), AllocError>
    requires { IsBalanced records.old.items left.old.items }
    ensures { IfOk result (λ _. IsBalanced records.new.items left.new.items) }
{
    match step {
        Step::Close { place, d } => {
            if place >= left.len() {
                return Ok(());
            }
            close(records, left, place, mult(alloc, d))
        }
        Step::Split { place, var, at, d } => {
            if place >= left.len() {
                return Ok(());
            }
            split(alloc, records, left, place, var, at, mult(alloc, d))
        }
    }
}

fn tree_of(alloc: Global, steps: &[Step]) -> Result<Tree, AllocError> {
    let mut records = Vec::new(alloc);
    let mut left = Vec::new(alloc);
    left.push(Path::new(alloc))?;
    for step in steps {
        take(alloc, &mut records, &mut left, *step)?;
    }
    assemble(alloc, records, left)
}

fn node_text(alloc: Global, node: &TreeNode) -> Result<String, AllocError> {
    match node {
        TreeNode::Leaf(mult) => {
            let d = mult.d;
            format!(in alloc; "leaf {d};")
        }
        TreeNode::Split { var, at, mult } => {
            let d = mult.d;
            format!(in alloc; "split {var} {at} {d};")
        }
        TreeNode::Open => format!(in alloc; "open;"),
    }
}

fn text(alloc: Global, tree: &Tree) -> Result<String, AllocError> {
    let mut text = String::new(alloc);
    for node in tree.nodes() {
        text.push_str(node_text(alloc, node)?.as_str())?;
    }
    Ok(text)
}

const fn closed(place: usize, d: u32) -> Step {
    Step::Close { place, d }
}

const fn halved(place: usize, var: u32, at: u64, d: u32) -> Step {
    Step::Split { place, var, at, d }
}

#[test]
fn trees(rt: HostRuntime) -> Result<(), Fail> {
    let cases: [(&[Step], &str); 6] = [
        (&[], "open;"),
        (&[closed(0, 7)], "leaf 7;"),
        (
            &[halved(0, 0, 3, 1), closed(0, 2), closed(0, 3)],
            "split 0 3 1;leaf 2;leaf 3;",
        ),
        (
            &[halved(0, 0, 3, 1), closed(1, 3), closed(0, 2)],
            "split 0 3 1;leaf 2;leaf 3;",
        ),
        (
            &[halved(0, 0, 3, 1), closed(0, 2)],
            "split 0 3 1;leaf 2;open;",
        ),
        (
            &[
                halved(0, 0, 3, 1),
                halved(1, 2, 5, 2),
                closed(2, 6),
                halved(0, 0, 1, 3),
                closed(2, 5),
                closed(0, 8),
                closed(0, 4),
            ],
            "split 0 3 1;split 0 1 3;leaf 4;leaf 5;split 2 5 2;leaf 8;leaf 6;",
        ),
    ];
    for (steps, want) in cases {
        let tree = tree_of(rt.alloc(), steps)?;
        let made = text(rt.alloc(), &tree)?;
        assert_eq!(rt; made.as_str(), want);
    }
    Ok(())
}

/// The greatest of -3x - 4y with 2x + 3y >= 7, x at most 3 and y at most 2, which is -10.
fn least_cost(alloc: Global) -> Result<Problem, AllocError>
    ensures { IfOk result (λ problem. problem ≡ least_cost) }
{
    let mut rows = Items::new(alloc);
    rows.push(Items::from_slice(alloc, &[-2, -3])?)?;
    Ok(Problem::new(
        Items::from_slice(alloc, &[-3, -4])?,
        rows,
        Items::from_slice(alloc, &[-7])?,
        Items::from_slice(alloc, &[3, 2])?,
    ))
}

/// The multipliers of the cost and of one row.
fn mult_of(alloc: Global, d: u32, lambda: u32) -> Result<Mult, AllocError>
    ensures { IfOk result (λ mult. mult ≡ record { d = d; lambda = lambda ∷ [] }) }
{
    Ok(Mult {
        d,
        lambda: Items::from_slice(alloc, &[lambda])?,
    })
}

/// A record of a split, and the paths to its halves.
fn halved_at(
    alloc: Global,
    path: Path,
    var: u32,
    mult: Mult,
) -> Result<(Record, Path, Path), AllocError>
    ensures record_is { IfOk result (λ all. all.0 ≡ record { path = path; act = Split var 1 mult }) }
    ensures lower { IfOk result (λ all. all.1 ≡ path ++ lower var 1 ∷ []) }
    ensures upper { IfOk result (λ all. all.2 ≡ path ++ upper var 1 ∷ []) }
{
    let at = 1;
    let (lower, upper) = path.halves(alloc, var, at)?;
    let act = Act::Split { var, at, mult };
    Ok((Record { path, act }, lower, upper))
}

/// x at most 1 or more, and of the first half y at most 1 or more: all three are open.
fn open_parts(alloc: Global) -> Result<(Vec<Record>, Vec<Path>), AllocError>
    ensures records { IfOk result (λ both. both.0.items ≡ open_records) }
    ensures left { IfOk result (λ both. both.1.items ≡ open_paths) }
{
    let (root, below, above) = halved_at(alloc, Path::new(alloc), 0, mult_of(alloc, 2, 3)?)?;
    let (next, first, second) = halved_at(alloc, below, 1, mult_of(alloc, 1, 1)?)?;
    Ok((
        vec![in alloc; root, next]?,
        vec![in alloc; above, first, second]?,
    ))
}

/// x at most 1, which is closed for -10, or more, which is open.
fn half_closed_parts(alloc: Global) -> Result<(Vec<Record>, Vec<Path>), AllocError>
    ensures records { IfOk result (λ both. both.0.items ≡ half_closed_records) }
    ensures left { IfOk result (λ both. both.1.items ≡ half_closed_paths) }
{
    let (root, path, above) = halved_at(alloc, Path::new(alloc), 0, mult_of(alloc, 2, 3)?)?;
    let act = Act::Closed(mult_of(alloc, 2, 3)?);
    Ok((
        vec![in alloc; root, Record { path, act }]?,
        vec![in alloc; above]?,
    ))
}

fn left_of_open(alloc: Global, best: Option<i64>) -> Result<i64, AllocError> {
    let problem = least_cost(alloc)?;
    let (records, left) = open_parts(alloc)?;
    let tree = assemble(alloc, records, left)?;
    assembled_partly();
    assembled_legal();
    most_left(alloc, &problem, &tree, best)
}

fn left_of_half_closed(alloc: Global) -> Result<i64, AllocError> {
    let problem = least_cost(alloc)?;
    let (records, left) = half_closed_parts(alloc)?;
    let tree = assemble(alloc, records, left)?;
    assembled_partly();
    assembled_legal();
    most_left(alloc, &problem, &tree, Some(-10))
}

#[test]
fn what_is_left(rt: HostRuntime) -> Result<(), Fail> {
    // The open leaves come to -7, -9 and -10, by 3x + 4y >= 7, by the same at y >= 2, and by 6x + 8y >= 21 - y >= 19.
    for (best, want) in [(None, -7), (Some(-20), -7), (Some(-5), -5)] {
        assert_eq!(rt; left_of_open(rt.alloc(), best)?, want);
    }
    assert_eq!(rt; left_of_half_closed(rt.alloc())?, -10);
    Ok(())
}
