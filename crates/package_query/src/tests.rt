use super::*;
use crate::plain::{ascends, best, is_package, is_small, meets, worth};
use sqlite_items::Items;
use std::alloc::{AllocError, Global};
use std::test::*;

/// A table and a query, in plain slices.
#[derive(Clone, Copy)]
struct Case<'a> {
    rows: &'a [(u64, [i64; 2])],
    repeat: u64,
    conjuncts: &'a [(usize, Comparison)],
    goal: Option<(bool, usize)>,
    want: Option<(&'a [(u64, u64)], i128)>,
}

fn table(alloc: Global, rows: &[(u64, [i64; 2])]) -> Result<Vec<(u64, Items<i64>)>, AllocError> {
    let mut made = Vec::new(alloc);
    for (id, numbers) in rows {
        made.push((*id, Items::from_slice(alloc, numbers)?))?;
    }
    Ok(made)
}

fn query(
    alloc: Global,
    repeat: u64,
    conditions: &[(usize, Comparison)],
    goal: Option<(bool, usize)>,
) -> Result<PlainQuery, AllocError> {
    let mut conjuncts = Vec::new(alloc);
    for (place, comparison) in conditions {
        conjuncts.push(PlainConjunct {
            terms: Items::from_slice(alloc, &[*place])?,
            comparison: *comparison,
        })?;
    }
    let goal = match goal {
        Some((maximize, place)) => Some(PlainGoal {
            maximize,
            terms: Items::from_slice(alloc, &[place])?,
        }),
        None => None,
    };
    Ok(PlainQuery {
        repeat,
        conjuncts: Items::from_vec(conjuncts),
        goal,
    })
}

#[test]
fn best_packages(rt: HostRuntime) -> Result<(), Fail> {
    let cases = [
        Case {
            rows: &[(1, [5, 1])],
            repeat: 2,
            conjuncts: &[(0, Comparison::AtMost(14))],
            goal: Some((true, 0)),
            want: Some((&[(1, 2)], 10)),
        },
        Case {
            rows: &[(1, [5, 1])],
            repeat: 2,
            conjuncts: &[(0, Comparison::AtMost(-1))],
            goal: Some((true, 0)),
            want: None,
        },
        Case {
            rows: &[(1, [2, 1]), (2, [9, 1])],
            repeat: 0,
            conjuncts: &[(0, Comparison::AtLeast(3)), (1, Comparison::AtMost(1))],
            goal: Some((true, 0)),
            want: Some((&[(2, 1)], 9)),
        },
        Case {
            rows: &[(1, [2, 1]), (2, [2, 1]), (3, [2, 1])],
            repeat: 0,
            conjuncts: &[(0, Comparison::Equals(3))],
            goal: None,
            want: None,
        },
        Case {
            rows: &[(1, [4, 1]), (7, [7, 1])],
            repeat: 1,
            conjuncts: &[(0, Comparison::AtLeast(8))],
            goal: Some((false, 0)),
            want: Some((&[(1, 2)], -8)),
        },
        Case {
            rows: &[],
            repeat: 0,
            conjuncts: &[],
            goal: Some((true, 0)),
            want: Some((&[], 0)),
        },
    ];
    for (number, case) in cases.iter().enumerate() {
        let rows = table(rt.alloc(), case.rows)?;
        let query = query(rt.alloc(), case.repeat, case.conjuncts, case.goal)?;
        assert!(rt; is_small(&query, &rows), "case {number}");
        assert!(rt; ascends(&rows), "case {number}");
        match (best(rt.alloc(), &query, &rows)?, case.want) {
            (Some(found), Some((pairs, value))) => {
                assert_eq!(rt; found.pairs.as_slice(), pairs, "case {number}");
                assert_eq!(rt; found.worth, value, "case {number}");
            }
            (found, want) => {
                assert_eq!(rt; found.is_some(), want.is_some(), "case {number}");
            }
        }
    }
    Ok(())
}

#[test]
fn packages_that_meet(rt: HostRuntime) -> Result<(), Fail> {
    let rows = table(rt.alloc(), &[(1, [3, 1]), (4, [5, 1])])?;
    let query = query(
        rt.alloc(),
        1,
        &[(1, Comparison::Between(1, 3))],
        Some((false, 0)),
    )?;
    assert!(rt; is_small(&query, &rows));
    assert!(rt; ascends(&rows));
    let cases: [(&[(u64, u64)], bool, bool); 7] = [
        (&[(1, 2), (4, 1)], true, true),
        (&[(4, 1), (1, 2)], false, false),
        (&[(1, 1), (1, 1)], false, false),
        (&[(1, 0)], false, false),
        (&[(2, 1)], true, false),
        (&[(1, 3)], true, false),
        (&[], true, false),
    ];
    for (pairs, rises, met) in cases {
        assert_eq!(rt; is_package(pairs), rises, "{pairs:?}");
        assert_eq!(rt; meets(&query, &rows, pairs), met, "{pairs:?}");
    }
    let pairs = [(1, 2), (4, 1)];
    assert!(rt; meets(&query, &rows, &pairs));
    assert_eq!(rt; worth(&query, &rows, &pairs), -11);
    Ok(())
}
