//! Certificates written by hand, and changes of their lines.
ghost use Rattle.std.specs.Prelude.{◌≡◌, ◌<◌, ◌≤◌, [], ◌∷◌, IfOk, IsTrue, length, pos};
ghost use Rattle.bound_query.specs.Asks.{IsAskedOf};
ghost use Rattle.bound_query.specs.Fits.{AreBoundTerms, IsBoundConjunct, IsBoundTerm, agg_fits, fits, is_bound, rows_for};

use super::*;
use bound_query::{BoundAgg, BoundConjunct, BoundGoal, BoundQuery, BoundTerm, Op, RowPred};
use package_program::FormFault;
use paql_ast::queries::Method;
use sqlite_items::Items;
use std::alloc::{AllocError, Global};
use std::test::*;
use table_schema::{Cell, Row};

/// No WHERE.
fn each_row() -> RowPred
    ensures bound { IsTrue (is_bound result) }
    ensures fits { IsTrue (fits (Cell.Num (pos 2) ∷ []) result) }
{
    RowPred::All
}

/// The number of each copy.
fn number() -> BoundTerm
    ensures bound { IsBoundTerm result }
    ensures fits { IsTrue (agg_fits (Cell.Num (pos 2) ∷ []) result.agg) }
{
    BoundTerm {
        factor: 1,
        agg: BoundAgg::Sum(0, RowPred::All),
        minus: 0,
    }
}

/// The sum compared with 3.
fn condition(terms: Items<BoundTerm>, op: Op) -> BoundConjunct
    requires { AreBoundTerms terms }
    ensures bound { IsBoundConjunct result }
    ensures terms { result.terms ≡ terms }
    ensures rows { rows_for result.op ≤ 2 }
{
    BoundConjunct {
        terms,
        op,
        high: 3,
        low: 0,
        scale: 0,
    }
}

/// `REPEAT 0 SUCH THAT SUM(P.v) op 3`, with the same sum as its goal.
fn query(alloc: Global, op: Op, maximize: bool) -> Result<BoundQuery, AllocError>
    ensures { IfOk result (λ made. IsAskedOf made (Cell.Num (pos 2) ∷ [])) }
{
    let terms = Items::from_vec(vec![in alloc; number()]?);
    let conjuncts = vec![in alloc; condition(terms, op)]?;
    let goal = BoundGoal {
        terms: Items::from_vec(vec![in alloc; number()]?),
        maximize,
        scale: 0,
    };
    Ok(BoundQuery {
        table: Items::new(alloc),
        version: None,
        filter: each_row(),
        repeat: Some(0),
        row_bound: 1,
        conjuncts: Items::from_vec(conjuncts),
        goal: Some(goal),
        method: Method::Direct,
        budget: 1,
    })
}

/// The rows 1, 2 and 3, each with the number 2.
fn table(alloc: Global) -> Result<Vec<(u64, Row)>, AllocError>
    ensures { IfOk result (λ made. made.items ≡ (1, Cell.Num (pos 2) ∷ [])
        ∷ (2, Cell.Num (pos 2) ∷ []) ∷ (3, Cell.Num (pos 2) ∷ []) ∷ []) }
{
    let one = Items::from_vec(vec![in alloc; Cell::Num(2)]?);
    let two = Items::from_vec(vec![in alloc; Cell::Num(2)]?);
    let three = Items::from_vec(vec![in alloc; Cell::Num(2)]?);
    Ok(vec![in alloc; (1, one), (2, two), (3, three)]?)
}

/// The line that is said of a text.
fn said(alloc: Global, op: Op, maximize: bool, text: &[u8]) -> Result<String, FormFault> {
    let text = if text.len() < 1000 { text } else { &[] };
    let query = query(alloc, op, maximize)?;
    let rows = table(alloc)?;
    let verdict = judge_answer(alloc, &query, rows.as_slice(), text)?;
    Ok(verdict.line(alloc)?)
}

/// The lines with others in place of the one at a place, each with its line feed.
fn with_lines(
    alloc: Global,
    lines: &[&str],
    place: usize,
    others: &[&str],
) -> Result<Vec<u8>, AllocError>
    requires { place < length lines.now }
{
    let mut text = Vec::new(alloc);
    let (before, after) = (&lines[..place], &lines[place + 1..]);
    for line in before.iter().chain(others).chain(after) {
        text.extend_from_slice(line.as_bytes())?;
        text.push(b'\n')?;
    }
    Ok(text)
}

/// No sum of three twos, each at most once, is 3.
const ODD: [&str; 16] = [
    "PAQLCERT 1",
    "vars 3",
    "rows 2",
    "claim infeasible",
    "S 1 0 0 0 0",
    "S 2 0 0 0 0",
    "C 0 0 1",
    "S 3 0 0 0 0",
    "C 0 0 1",
    "C 0 1 0",
    "S 2 0 0 0 0",
    "S 3 0 0 0 0",
    "C 0 0 1",
    "C 0 1 0",
    "C 0 1 0",
    "end",
];

/// What is said where one line of it is left out, and where one is there twice.
const DROPPED: [&str; 16] = [
    "header",
    "line 2",
    "line 3",
    "line 4",
    "line 10",
    "line 10",
    "line 15",
    "line 10",
    "line 15",
    "line 15",
    "line 14",
    "line 14",
    "line 15",
    "line 15",
    "line 15",
    "truncated",
];

const DOUBLED: [&str; 16] = [
    "line 2",
    "line 3",
    "line 4",
    "line 5",
    "line 17",
    "line 17",
    "line 12",
    "line 17",
    "line 12",
    "line 12",
    "line 17",
    "line 17",
    "line 16",
    "line 16",
    "line 16",
    "trailing 17",
];

#[test]
fn no_package(rt: HostRuntime) -> Result<(), Fail> {
    let alloc = rt.alloc();
    let cases = [
        (0, "PAQLCERT 1", "VALID\n"),
        (6, "C 0 1 1", "INVALID .LL notclosed 0 0\n"),
        (7, "S 3 1 0 0 0", "INVALID .LR badsplit\n"),
        (9, "C 1 1 0", "INVALID .LRR badmult\n"),
        (14, "O", "INVALID .RR open\n"),
        (1, "vars 99999999999", "BADCERT line 2\n"),
        (3, "claim undecided none", "INVALID . open\n"),
    ];
    for (place, line, want) in cases {
        let text = with_lines(alloc, &ODD, place, &[line])?;
        assert_eq!(rt;
            said(alloc, Op::Eq, true, &text)?.as_str(),
            want,
            "{place} {line}"
        );
    }
    for place in 0..ODD.len() {
        let line = ODD[place];
        let dropped = said(alloc, Op::Eq, true, &with_lines(alloc, &ODD, place, &[])?)?;
        assert_eq!(rt; dropped, format!(in alloc; "BADCERT {}\n", DROPPED[place])?);
        let twice = with_lines(alloc, &ODD, place, &[line, line])?;
        let doubled = said(alloc, Op::Eq, true, &twice)?;
        assert_eq!(rt; doubled, format!(in alloc; "BADCERT {}\n", DOUBLED[place])?);
    }
    let whole = with_lines(alloc, &ODD, 0, &["PAQLCERT 1"])?;
    for size in 0..whole.len() {
        let cut = said(alloc, Op::Eq, true, &whole[..size])?;
        assert_eq!(rt; cut.as_str(), "BADCERT truncated\n", "{size}");
    }
    Ok(())
}

/// The greatest sum of three twos that is at most 3 is one of them.
const BEST: [&str; 18] = [
    "PAQLCERT 1",
    "vars 3",
    "rows 1",
    "claim optimal 2",
    "package 1",
    "1 1",
    "S 1 0 0 0",
    "S 2 0 0 0",
    "C 1 0",
    "S 3 0 0 0",
    "C 1 0",
    "C 0 1",
    "S 2 0 0 0",
    "S 3 0 0 0",
    "C 1 0",
    "C 0 1",
    "C 0 1",
    "end",
];

#[test]
fn best_package(rt: HostRuntime) -> Result<(), Fail> {
    let alloc = rt.alloc();
    let cases = [
        (0, "PAQLCERT 1", true, "VALID\n"),
        (0, "PAQLCERT 2", true, "BADCERT header\n"),
        (1, "vars 4", true, "INVALID shape\n"),
        (3, "claim optimal 3", true, "INVALID value 3 2\n"),
        (3, "claim undecided 1", true, "INVALID value 1 2\n"),
        (3, "claim undecided 2", true, "INVALID . open\n"),
        (3, "claim infeasible", true, "BADCERT line 5\n"),
        (5, "4 1", true, "INVALID package id 4\n"),
        (5, "1 2", true, "INVALID package repeat 1\n"),
        (5, "1 1000001", true, "INVALID package repeat 1\n"),
        (6, "O", true, "BADCERT line 8\n"),
        (7, "S 2 1 0 0", true, "INVALID .L badsplit\n"),
        (8, "C 1 1", true, "INVALID .LL notclosed 3 3\n"),
        (16, "C 1 0", true, "INVALID .RR notclosed 6 3\n"),
        (3, "claim optimal 2", false, "INVALID value 2 -2\n"),
        (3, "claim optimal -2", false, "INVALID .LL notclosed 0 -1\n"),
    ];
    for (place, line, maximize, want) in cases {
        let text = with_lines(alloc, &BEST, place, &[line])?;
        let line = said(alloc, Op::Le, maximize, &text)?;
        assert_eq!(rt; line.as_str(), want, "{place} {want}");
    }
    let text = with_lines(alloc, &BEST, 0, &["PAQLCERT 1"])?;
    let broken = said(alloc, Op::Ge, true, &text)?;
    assert_eq!(rt; broken.as_str(), "INVALID package conjunct 1\n");
    Ok(())
}
