//! Problems solved by hand, nodes, and events one after another.
ghost use Rattle.std.specs.Prelude.{◌≡◌, ◌∷◌, [], pos, IfOk};
ghost use Rattle.lin_bound.specs.Problem.{IsLegal};
ghost use Rattle.lin_bound.specs.Bound.{IsMult};
ghost use Rattle.search_core.specs.Core.{Fits};

use super::*;
use lin_bound::{Branch, Path, Point, Problem, box_of, plain_mult};
use sqlite_items::Items;
use std::alloc::{AllocError, Global};
use std::test::*;

/// What the problem of these lists comes to, in words.
fn solve(
    alloc: Global,
    cost: &[i64],
    rows: Items<Items<i64>>,
    rhs: &[i64],
    upper: &[u64],
    budget: u32,
) -> Result<String, AllocError>
    requires { IsLegal (record { cost = cost.now; rows = rows; rhs = rhs.now; upper = upper.now }) }
{
    let problem = Problem::new(
        Items::from_slice(alloc, cost)?,
        rows,
        Items::from_slice(alloc, rhs)?,
        Items::from_slice(alloc, upper)?,
    );
    text(alloc, &SoloSolver.solve(alloc, &problem, budget.max(1))?)
}

fn one_row(alloc: Global, row: &[i64]) -> Result<Items<Items<i64>>, AllocError>
    ensures { IfOk result (λ rows. rows ≡ row.now ∷ []) }
{
    let mut rows = Items::new(alloc);
    rows.push(Items::from_slice(alloc, row)?)?;
    Ok(rows)
}

fn two_rows(alloc: Global, first: &[i64], second: &[i64]) -> Result<Items<Items<i64>>, AllocError>
    ensures { IfOk result (λ rows. rows ≡ first.now ∷ second.now ∷ []) }
{
    let mut rows = one_row(alloc, first)?;
    rows.push(Items::from_slice(alloc, second)?)?;
    Ok(rows)
}

/// An odd number is no sum of even ones.
fn odd_sum(alloc: Global, budget: u32) -> Result<String, AllocError> {
    let rows = two_rows(alloc, &[2, 2, 2], &[-2, -2, -2])?;
    solve(alloc, &[2, 2, 2], rows, &[3, -3], &[1, 1, 1], budget)
}

/// One of the values 2 and 9, at least 3.
fn one_of_two(alloc: Global, budget: u32) -> Result<String, AllocError> {
    let rows = two_rows(alloc, &[-2, -9], &[1, 1])?;
    solve(alloc, &[2, 9], rows, &[-3, 1], &[1, 1], budget)
}

/// Up to three fives, at most 14.
fn fives(alloc: Global, budget: u32) -> Result<String, AllocError> {
    let rows = one_row(alloc, &[5])?;
    solve(alloc, &[5], rows, &[14], &[3], budget)
}

/// At most six of twelve that are worth 1 each.
fn six_of_twelve(alloc: Global, budget: u32) -> Result<String, AllocError> {
    let rows = one_row(alloc, &[1; 12])?;
    solve(alloc, &[1; 12], rows, &[6], &[1; 12], budget)
}

/// An answer in words, with the number of its nodes.
fn text(alloc: Global, solved: &Solved) -> Result<String, AllocError> {
    match solved {
        Solved::Best { value, point, tree } => {
            let (value, nodes) = (*value, tree.nodes().len());
            let counts = counts_text(alloc, point)?;
            format!(in alloc; "best {value} at{counts} by {nodes}")
        }
        Solved::NoneExists { tree } => {
            let nodes = tree.nodes().len();
            format!(in alloc; "none by {nodes}")
        }
        Solved::Undecided { best, bound, tree } => {
            let (bound, nodes) = (*bound, tree.nodes().len());
            let found = found_text(alloc, best)?;
            format!(in alloc; "at most {bound},{found} by {nodes}")
        }
    }
}

fn counts_text(alloc: Global, point: &Point) -> Result<String, AllocError> {
    let mut text = String::new(alloc);
    for count in point.counts() {
        let count = *count;
        text.push_str(format!(in alloc; " {count}")?.as_str())?;
    }
    Ok(text)
}

fn found_text(alloc: Global, best: &Option<(i64, Point)>) -> Result<String, AllocError> {
    match best {
        Some((value, point)) => {
            let value = *value;
            let counts = counts_text(alloc, point)?;
            format!(in alloc; " {value} at{counts}")
        }
        None => format!(in alloc; " nothing"),
    }
}

#[test]
fn odd_sums(rt: HostRuntime) -> Result<(), Fail> {
    let cases = [
        (1, "at most 3, nothing by 3"),
        (9, "at most 3, nothing by 11"),
        (15, "none by 11"),
    ];
    for (budget, want) in cases {
        assert_eq!(rt; odd_sum(rt.alloc(), budget)?.as_str(), want);
    }
    Ok(())
}

#[test]
fn up_to_three_fives(rt: HostRuntime) -> Result<(), Fail> {
    let cases = [
        (1, "at most 14, 10 at 2 by 3"),
        (2, "at most 14, 10 at 2 by 3"),
        (3, "best 10 at 2 by 3"),
    ];
    for (budget, want) in cases {
        assert_eq!(rt; fives(rt.alloc(), budget)?.as_str(), want);
    }
    Ok(())
}

#[test]
fn one_value_of_two(rt: HostRuntime) -> Result<(), Fail> {
    assert_eq!(rt; one_of_two(rt.alloc(), 7)?.as_str(), "best 9 at 0 1 by 1");
    Ok(())
}

#[test]
fn six_ones_of_twelve(rt: HostRuntime) -> Result<(), Fail> {
    let solved = six_of_twelve(rt.alloc(), 200)?;
    assert_eq!(rt; solved.as_str(), "best 6 at 1 1 1 1 1 1 0 0 0 0 0 0 by 1");
    Ok(())
}

/// Fives up to these numbers, at most 14.
fn some_fives(alloc: Global, upper: &[u64]) -> Result<Problem, AllocError>
    requires { IsLegal (record { cost = pos 5 ∷ []; rows = (pos 5 ∷ []) ∷ []; rhs = pos 14 ∷ []; upper = upper.now }) }
    ensures { IfOk result (λ problem. problem ≡ record { cost = pos 5 ∷ []; rows = (pos 5 ∷ []) ∷ []; rhs = pos 14 ∷ []; upper = upper.now }) }
{
    let cost = Items::from_slice(alloc, &[5])?;
    let rows = one_row(alloc, &[5])?;
    let rhs = Items::from_slice(alloc, &[14])?;
    Ok(Problem::new(cost, rows, rhs, Items::from_slice(alloc, upper)?))
}

/// The multipliers of the cost alone, and a place that divides no box.
fn plain_proposal(alloc: Global, problem: &Problem) -> Result<Proposal, AllocError>
    ensures { IfOk result (λ proposal. IsMult problem.now proposal.mult) }
{
    Ok(Proposal {
        mult: plain_mult(alloc, problem, 0)?,
        var: 0,
        at: u64::MAX,
    })
}

/// What comes of the whole box for a value seen.
fn handled(alloc: Global, problem: &Problem, seen: Option<i64>) -> Result<Handled, AllocError> {
    let region = box_of(alloc, problem, &Path::new(alloc))?;
    let proposal = plain_proposal(alloc, problem)?;
    let mut work = Work::new(alloc, problem)?;
    Ok(handle_node(problem, &region, seen, &proposal, &mut work))
}

/// What comes of up to three fives, none seen or 15, and of none.
fn three_handled(alloc: Global) -> Result<[Handled; 3], AllocError> {
    let three = some_fives(alloc, &[3])?;
    let none = some_fives(alloc, &[0])?;
    Ok([
        handled(alloc, &three, None)?,
        handled(alloc, &three, Some(15))?,
        handled(alloc, &none, None)?,
    ])
}

/// Where the box of up to three fives is split, with this place proposed.
fn placed(alloc: Global, at: u64) -> Result<Option<(u32, u64)>, AllocError> {
    let problem = some_fives(alloc, &[3])?;
    let region = box_of(alloc, &problem, &Path::new(alloc))?;
    let mult = plain_mult(alloc, &problem, 0)?;
    let _legal = problem.variables();
    Ok(split_place(&region, &Proposal { mult, var: 0, at }))
}

#[test]
fn nodes_by_hand(rt: HostRuntime) -> Result<(), Fail> {
    let split = Handled::Split { var: 0, at: 1 };
    assert_eq!(rt;
        three_handled(rt.alloc())?,
        [split, Handled::Closed, Handled::Better]
    );
    assert_eq!(rt; placed(rt.alloc(), 2)?, Some((0, 2)));
    assert_eq!(rt; placed(rt.alloc(), 3)?, Some((0, 1)));
    Ok(())
}

/// The event in words: `t` takes the whole box, `l` the half of at most one five, `u` the other half, `k` looks, `h`
/// handles, `d` drops, and a digit is offered as a point.
fn event_of(alloc: Global, worker: u32, word: u8) -> Result<Event, AllocError>
    ensures { IfOk result (λ event. Fits (record { cost = pos 5 ∷ []; rows = (pos 5 ∷ []) ∷ []; rhs = pos 14 ∷ []; upper = 3 ∷ [] }) event) }
{
    let whole = Path::new(alloc);
    Ok(match word {
        b't' => Event::Take {
            worker,
            path: whole,
        },
        b'l' => Event::Take {
            worker,
            path: whole.child(alloc, half(false))?,
        },
        b'u' => Event::Take {
            worker,
            path: whole.child(alloc, half(true))?,
        },
        b'k' => Event::Look { worker },
        b'h' => Event::Handle {
            worker,
            proposal: plain_proposal(alloc, &some_fives(alloc, &[3])?)?,
        },
        b'd' => Event::Drop { worker },
        digit => Event::Offer {
            worker,
            point: Point::new(Items::from_slice(alloc, &[u64::from(digit.saturating_sub(b'0'))])?),
        },
    })
}

fn half(high: bool) -> Branch {
    Branch {
        at: 1,
        var: 0,
        high,
    }
}

/// Which of the events of a search for up to three fives are done, of workers and words in turn.
fn done(alloc: Global, budget: u32, events: &[(u32, u8)]) -> Result<String, AllocError> {
    let mut core = Core::new(alloc, some_fives(alloc, &[3])?, budget)?;
    let mut text = String::new(alloc);
    for (worker, word) in events {
        let event = event_of(alloc, *worker, *word)?;
        text.push(match core.step(alloc, event)? {
            Stepped::Done => '+',
            Stepped::NotEnabled => '-',
        })?;
    }
    Ok(text)
}

#[test]
fn events_in_turn(rt: HostRuntime) -> Result<(), Fail> {
    let cases: [(u32, &[(u32, u8)], &str); 4] = [
        (1, &[(0, b't'), (0, b't'), (0, b'k')], "+-+"),
        (0, &[(0, b't'), (0, b'2'), (1, b'3')], "-+-"),
        (
            3,
            &[
                (0, b'k'),
                (0, b't'),
                (1, b't'),
                (0, b'h'),
                (0, b'k'),
                (0, b'h'),
                (0, b'd'),
            ],
            "-+--++-",
        ),
        (
            3,
            &[
                (0, b't'),
                (0, b'k'),
                (0, b'h'),
                (1, b'l'),
                (1, b'd'),
                (1, b'u'),
                (0, b'2'),
                (1, b'k'),
                (1, b'h'),
                (0, b'l'),
                (1, b'l'),
                (0, b'd'),
            ],
            "++++++++++-+",
        ),
    ];
    for (budget, events, want) in cases {
        let shown = done(rt.alloc(), budget, events)?;
        assert_eq!(rt; shown.as_str(), want);
    }
    Ok(())
}
