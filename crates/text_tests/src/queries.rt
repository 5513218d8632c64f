//! Package queries, and the places of their faults.
use paql_ast::aggregates::{Plain, SumItem, Term};
use paql_ast::conditions::CmpOp;
use paql_ast::queries::{Conjunct, Method, Query};
use paql_ast::statements::Statement;
use paql_parser::{ParseFault, parse};
use std::alloc::Global;
use std::process::Abort;
use std::test::*;

/// What the tests see of an answer: that all is a query, or the place of the fault.
#[derive(Clone, Copy, Debug, PartialEq, Eq)]
enum Answer {
    Read,
    Syntax(usize),
    Deep(usize),
    Other,
}

fn answer_of(alloc: Global, text: &[u8]) -> Answer {
    match parse(alloc, text) {
        Ok(Some(Statement::Query(_))) => Answer::Read,
        Err(ParseFault::Syntax(place)) => Answer::Syntax(place),
        Err(ParseFault::Deep(place)) => Answer::Deep(place),
        _ => Answer::Other,
    }
}

/// Each text has this answer.
fn assert_answers(rt: &impl Abort, alloc: Global, rows: &[(&[u8], Answer)]) {
    for (text, want) in rows {
        assert_eq!(rt; answer_of(alloc, text), *want);
    }
}

#[test]
fn queries_are_read(rt: HostRuntime) {
    let rows: [(&[u8], Answer); 6] = [
        (b"SELECT PACKAGE(T) AS P FROM T", Answer::Read),
        (
            b"select package ( \"T\" ) \"as\" from \"from\" as r",
            Answer::Read,
        ),
        (
            b"SELECT PACKAGE(R) AS P FROM Recipes R AT VERSION 3 REPEAT 0 WHERE R.gluten = 'free' SUCH THAT COUNT(P.*) = 3 AND SUM(P.kcal) BETWEEN 2.0 AND 2.5 MINIMIZE SUM(P.satfat) USING DIRECT BUDGET 50",
            Answer::Read,
        ),
        (
            b"SELECT PACKAGE(T) AS P FROM T SUCH THAT (SELECT COUNT(*) FROM P WHERE kind = 'veg') >= 2 * (SELECT SUM(v) FROM P WHERE NOT (v < 3 OR v IN (5, 6))) - 1 + COUNT(*)",
            Answer::Read,
        ),
        (
            b"SELECT PACKAGE(T) AS P FROM T SUCH THAT AVG(v) <= -5 AND AVG(P.v) BETWEEN -1 AND 2.5 MAXIMIZE -COUNT(*) + 2 * SUM(v) USING SKETCHREFINE",
            Answer::Read,
        ),
        (
            b"SELECT PACKAGE(T) AS P FROM T SUCH THAT SUM(v) BETWEEN 1 AND 2 AND -1 + SUM(v) < 2 BUDGET 5",
            Answer::Read,
        ),
    ];
    assert_answers(&rt, rt.alloc(), &rows);
}

#[test]
fn clauses_out_of_order(rt: HostRuntime) {
    let rows: [(&[u8], Answer); 9] = [
        (b"SELECT PACKAGE(T) AS FROM T", Answer::Syntax(21)),
        (b"SELECT PACKAGE T AS P FROM T", Answer::Syntax(15)),
        (
            b"SELECT PACKAGE(T) AS P FROM T AS REPEAT 1",
            Answer::Syntax(33),
        ),
        (
            b"SELECT PACKAGE(T) AS P FROM T SUCH COUNT(*) = 1",
            Answer::Syntax(35),
        ),
        (
            b"SELECT PACKAGE(T) AS P FROM T BUDGET 5 USING DIRECT",
            Answer::Syntax(39),
        ),
        (
            b"SELECT PACKAGE(T) AS P FROM T REPEAT 1 AT VERSION 2",
            Answer::Syntax(39),
        ),
        (
            b"SELECT PACKAGE(T) AS P FROM T AT VERSION 1.5",
            Answer::Syntax(41),
        ),
        (
            b"SELECT PACKAGE(T) AS P FROM T BUDGET 1234567890123456789",
            Answer::Syntax(37),
        ),
        (
            b"SELECT PACKAGE(T) AS P FROM T USING FAST",
            Answer::Syntax(36),
        ),
    ];
    assert_answers(&rt, rt.alloc(), &rows);
}

#[test]
fn faults_of_goals_and_counts(rt: HostRuntime) {
    let rows: [(&[u8], Answer); 7] = [
        (
            b"SELECT PACKAGE(T) AS P FROM T MAXIMIZE 3",
            Answer::Syntax(40),
        ),
        (
            b"SELECT PACKAGE(T) AS P FROM T MAXIMIZE SUM(v) + 3",
            Answer::Syntax(49),
        ),
        (
            b"SELECT PACKAGE(T) AS P FROM T MAXIMIZE SUM(v) + 3 BUDGET 1",
            Answer::Syntax(50),
        ),
        (
            b"SELECT PACKAGE(T) AS P FROM T SUCH THAT COUNT(P.) = 1",
            Answer::Syntax(48),
        ),
        (
            b"SELECT PACKAGE(T) AS P FROM T SUCH THAT COUNT(P) = 1",
            Answer::Syntax(47),
        ),
        (
            b"SELECT PACKAGE(T) AS P FROM T SUCH THAT (SELECT COUNT(*) FROM P) = 1",
            Answer::Syntax(63),
        ),
        (
            b"SELECT PACKAGE(T) AS P FROM T SUCH THAT (COUNT(*) = 1)",
            Answer::Syntax(41),
        ),
    ];
    assert_answers(&rt, rt.alloc(), &rows);
}

#[test]
fn faults_of_constraints(rt: HostRuntime) {
    let rows: [(&[u8], Answer); 7] = [
        (
            b"SELECT PACKAGE(T) AS P FROM T SUCH THAT 3 < COUNT(P.*) <= 4",
            Answer::Syntax(55),
        ),
        (
            b"SELECT PACKAGE(T) AS P FROM T SUCH THAT SUM(v) <> 3",
            Answer::Syntax(47),
        ),
        (
            b"SELECT PACKAGE(T) AS P FROM T SUCH THAT AVG(v) + 1 < 3",
            Answer::Syntax(47),
        ),
        (
            b"SELECT PACKAGE(T) AS P FROM T SUCH THAT 1 < AVG(v)",
            Answer::Syntax(44),
        ),
        (
            b"SELECT PACKAGE(T) AS P FROM T SUCH THAT - - 1 < 2",
            Answer::Syntax(42),
        ),
        (
            b"SELECT PACKAGE(T) AS P FROM T SUCH THAT 2 * 3 < COUNT(*)",
            Answer::Syntax(44),
        ),
        (
            b"SELECT PACKAGE(T) AS P FROM T SUCH THAT SUM(v) BETWEEN 1 AND",
            Answer::Syntax(60),
        ),
    ];
    assert_answers(&rt, rt.alloc(), &rows);
}

#[test]
fn brackets_are_counted(rt: HostRuntime) {
    let rows: [(&[u8], Answer); 3] = [
        (
            b"SELECT PACKAGE(T) AS P FROM T SUCH THAT (SELECT COUNT(*) FROM P WHERE ((((((((((((((((((((((((((((((((((((((((((((((((((((((((((((((((a = 1))))))))))))))))))))))))))))))))))))))))))))))))))))))))))))))))) = 1",
            Answer::Read,
        ),
        (
            b"SELECT PACKAGE(T) AS P FROM T WHERE (((((((((((((((((((((((((((((((((((((((((((((((((((((((((((((((((a",
            Answer::Deep(100),
        ),
        (
            b"SELECT PACKAGE(T) AS P FROM T SUCH THAT 1 < (SELECT COUNT(*) FROM P WHERE NOT NOT NOT NOT NOT NOT NOT NOT NOT NOT NOT NOT NOT NOT NOT NOT NOT NOT NOT NOT NOT NOT NOT NOT NOT NOT NOT NOT NOT NOT NOT NOT NOT NOT NOT NOT NOT NOT NOT NOT NOT NOT NOT NOT NOT NOT NOT NOT NOT NOT NOT NOT NOT NOT NOT NOT NOT NOT NOT NOT NOT NOT NOT NOT (a",
            Answer::Deep(330),
        ),
    ];
    assert_answers(&rt, rt.alloc(), &rows);
}

fn tree_of(alloc: Global, text: &[u8]) -> Option<Query> {
    match parse(alloc, text) {
        Ok(Some(Statement::Query(query))) => Some(query),
        _ => None,
    }
}

/// Whether the item is a COUNT of this package, with this sign, and a factor or none.
fn is_count(item: &SumItem, minus: bool, package: Option<&[u8]>, factor: Option<i128>) -> bool {
    match &item.term {
        Term::Agg { factor: times, agg } => {
            let counted = match &agg.plain {
                Plain::Count(Some(name)) => Some(name.as_slice()),
                Plain::Count(None) => None,
                Plain::Sum(_) => return false,
            };
            let times = match times {
                Some(times) => Some(times.mant),
                None => None,
            };
            item.minus == minus && counted == package && times == factor
        }
        Term::Number(_) => false,
    }
}

#[test]
fn trees(rt: HostRuntime) {
    let text =
        b"SELECT PACKAGE(R) P FROM Recipes AS R AT VERSION 3 REPEAT 0 SUCH THAT COUNT(*) - COUNT(Q.*) + 02.0 * COUNT(P.*) BETWEEN -2.50 AND 7 AND AVG(v) > 1 MINIMIZE -COUNT(P.*) USING SKETCHREFINE BUDGET 50";
    let Some(query) = tree_of(rt.alloc(), text) else {
        assert!(rt; false);
        return;
    };
    assert!(rt; query.of.as_slice() == b"R".as_slice());
    assert!(rt; query.package.as_slice() == b"P".as_slice());
    assert!(rt; query.table.as_slice() == b"Recipes".as_slice());
    assert!(rt; query.alias.is_some());
    assert_eq!(rt; query.version, Some(3));
    assert_eq!(rt; query.repeat, Some(0));
    assert!(rt; query.filter.is_none());
    assert_eq!(rt; query.method, Some(Method::SketchRefine));
    assert_eq!(rt; query.budget, Some(50));
    match query.conjuncts.as_slice() {
        [
            Conjunct::Between { sum, low, high },
            Conjunct::Avg {
                column,
                op: CmpOp::Gt,
                limit,
            },
        ] => {
            assert_eq!(rt; sum.len(), 3);
            assert_eq!(rt;
                (low.mant, low.scale, high.mant, high.scale),
                (-25, 1, 7, 0)
            );
            assert!(rt; column.prefix.is_none());
            assert_eq!(rt; limit.mant, 1);
            for (place, item) in sum.as_slice().iter().enumerate() {
                assert!(rt;
                    match place {
                        0 => is_count(item, false, None, None),
                        1 => is_count(item, true, Some(b"Q"), None),
                        _ => is_count(item, false, None, Some(2)),
                    }
                );
            }
        }
        _ => assert!(rt; false),
    }
    match &query.goal {
        Some(goal) => {
            assert!(rt; !goal.maximize);
            for item in goal.parts.as_slice() {
                assert!(rt; is_count(item, true, None, None));
            }
        }
        None => assert!(rt; false),
    }
}
