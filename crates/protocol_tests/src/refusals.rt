//! The lines of refusals.
use session_proto::refusals::{
    BindFault, CellFault, ChangeFault, CommitLimit, LoadFault, QueryFault, SessionFault, TextFault,
};
use session_proto::{Refusal, memory_line, not_built_line, refusal_reply, reply_bytes};
use std::test::Fail;

// A refusal with its line.
type Case = (Refusal, &'static str);

fn text_or_session(case: usize, _name: String) -> Option<Case> {
    match case {
        0 => Some((
            Refusal::Text(TextFault::Lex, 7),
            "{\"at\":7,\"error\":\"lex\",\"status\":\"refused\"}\n",
        )),
        1 => Some((
            Refusal::Text(TextFault::Syntax, 0),
            "{\"at\":0,\"error\":\"syntax\",\"status\":\"refused\"}\n",
        )),
        2 => Some((
            Refusal::Text(TextFault::Deep, u64::MAX),
            "{\"at\":18446744073709551615,\"error\":\"deep\",\"status\":\"refused\"}\n",
        )),
        3 => Some((
            Refusal::Session(SessionFault::InTransaction),
            "{\"error\":\"intransaction\",\"status\":\"refused\"}\n",
        )),
        4 => Some((
            Refusal::Session(SessionFault::NotInTransaction),
            "{\"error\":\"notintransaction\",\"status\":\"refused\"}\n",
        )),
        5 => Some((
            Refusal::Session(SessionFault::NoCertificate),
            "{\"error\":\"nocertificate\",\"status\":\"refused\"}\n",
        )),
        6 => Some((
            Refusal::Session(SessionFault::NotBuilt),
            "{\"error\":\"notbuilt\",\"status\":\"refused\"}\n",
        )),
        7 => Some((
            Refusal::Memory,
            "{\"error\":\"memory\",\"status\":\"refused\"}\n",
        )),
        _ => None,
    }
}

fn binding(case: usize, name: String) -> Option<Case> {
    match case {
        0 => Some((
            Refusal::Bind(
                None,
                BindFault::Unkept {
                    asked: 9,
                    high: 5,
                    low: 3,
                },
            ),
            "{\"asked\":9,\"error\":\"unkept\",\"high\":5,\"low\":3,\"status\":\"refused\"}\n",
        )),
        1 => Some((
            Refusal::Bind(
                Some(2),
                BindFault::Unkept {
                    asked: 9,
                    high: 5,
                    low: 3,
                },
            ),
            "{\"asked\":9,\"change\":2,\"error\":\"unkept\",\"high\":5,\"low\":3,\"status\":\"refused\"}\n",
        )),
        2 => Some((
            Refusal::Bind(None, BindFault::NoTable(name)),
            "{\"error\":\"notable\",\"name\":\"n\",\"status\":\"refused\"}\n",
        )),
        3 => Some((
            Refusal::Bind(Some(2), BindFault::NoTable(name)),
            "{\"change\":2,\"error\":\"notable\",\"name\":\"n\",\"status\":\"refused\"}\n",
        )),
        4 => Some((
            Refusal::Bind(None, BindFault::NoColumn(name)),
            "{\"error\":\"nocolumn\",\"name\":\"n\",\"status\":\"refused\"}\n",
        )),
        5 => Some((
            Refusal::Bind(Some(2), BindFault::NoColumn(name)),
            "{\"change\":2,\"error\":\"nocolumn\",\"name\":\"n\",\"status\":\"refused\"}\n",
        )),
        6 => Some((
            Refusal::Bind(None, BindFault::WrongKind(name)),
            "{\"error\":\"wrongkind\",\"name\":\"n\",\"status\":\"refused\"}\n",
        )),
        7 => Some((
            Refusal::Bind(Some(2), BindFault::WrongKind(name)),
            "{\"change\":2,\"error\":\"wrongkind\",\"name\":\"n\",\"status\":\"refused\"}\n",
        )),
        8 => Some((
            Refusal::Bind(None, BindFault::TooFine),
            "{\"error\":\"toofine\",\"status\":\"refused\"}\n",
        )),
        9 => Some((
            Refusal::Bind(Some(2), BindFault::TooFine),
            "{\"change\":2,\"error\":\"toofine\",\"status\":\"refused\"}\n",
        )),
        10 => Some((
            Refusal::Bind(None, BindFault::LiteralRange),
            "{\"error\":\"literalrange\",\"status\":\"refused\"}\n",
        )),
        11 => Some((
            Refusal::Bind(Some(2), BindFault::LiteralRange),
            "{\"change\":2,\"error\":\"literalrange\",\"status\":\"refused\"}\n",
        )),
        _ => None,
    }
}

fn query(case: usize, name: String) -> Option<Case> {
    match case {
        0 => Some((
            Refusal::Query(QueryFault::Factor),
            "{\"error\":\"factor\",\"status\":\"refused\"}\n",
        )),
        1 => Some((
            Refusal::Query(QueryFault::LimitBudget(0)),
            "{\"error\":\"limitbudget\",\"given\":0,\"status\":\"refused\"}\n",
        )),
        2 => Some((
            Refusal::Query(QueryFault::LimitConjuncts(32)),
            "{\"error\":\"limitconjuncts\",\"given\":32,\"status\":\"refused\"}\n",
        )),
        3 => Some((
            Refusal::Query(QueryFault::LimitTerms {
                conjunct: 0,
                given: 65,
            }),
            "{\"conjunct\":0,\"error\":\"limitterms\",\"given\":65,\"status\":\"refused\"}\n",
        )),
        4 => Some((
            Refusal::Query(QueryFault::Unbounded),
            "{\"error\":\"unbounded\",\"status\":\"refused\"}\n",
        )),
        5 => Some((
            Refusal::Query(QueryFault::LimitRepeat(1_000_001)),
            "{\"error\":\"limitrepeat\",\"given\":1000001,\"status\":\"refused\"}\n",
        )),
        6 => Some((
            Refusal::Query(QueryFault::LimitCandidates(100_001)),
            "{\"error\":\"limitcandidates\",\"given\":100001,\"status\":\"refused\"}\n",
        )),
        7 => Some((
            Refusal::Query(QueryFault::TooLarge {
                conjunct: 1,
                total: name,
            }),
            "{\"conjunct\":1,\"error\":\"toolarge\",\"status\":\"refused\",\"total\":\"n\"}\n",
        )),
        8 => Some((
            Refusal::Query(QueryFault::NoPartition(name)),
            "{\"error\":\"nopartition\",\"name\":\"n\",\"status\":\"refused\"}\n",
        )),
        _ => None,
    }
}

fn change(case: usize, name: String) -> Option<Case> {
    match case {
        0 => Some((
            Refusal::Change(2, ChangeFault::TableExists(name)),
            "{\"change\":2,\"error\":\"tableexists\",\"name\":\"n\",\"status\":\"refused\"}\n",
        )),
        1 => Some((
            Refusal::Change(2, ChangeFault::DuplicateColumn(name)),
            "{\"change\":2,\"error\":\"duplicatecolumn\",\"name\":\"n\",\"status\":\"refused\"}\n",
        )),
        2 => Some((
            Refusal::Change(2, ChangeFault::BadScale(name)),
            "{\"change\":2,\"error\":\"badscale\",\"name\":\"n\",\"status\":\"refused\"}\n",
        )),
        3 => Some((
            Refusal::Change(2, ChangeFault::TooManyColumns(33)),
            "{\"change\":2,\"error\":\"toomanycolumns\",\"given\":33,\"status\":\"refused\"}\n",
        )),
        4 => Some((
            Refusal::Change(2, ChangeFault::LimitPartition(9)),
            "{\"change\":2,\"error\":\"limitpartition\",\"given\":9,\"status\":\"refused\"}\n",
        )),
        5 => Some((
            Refusal::Change(
                2,
                ChangeFault::Arity {
                    have: 1,
                    row: 4,
                    want: 3,
                },
            ),
            "{\"change\":2,\"error\":\"arity\",\"have\":1,\"row\":4,\"status\":\"refused\",\"want\":3}\n",
        )),
        6 => Some((
            Refusal::Change(
                2,
                ChangeFault::Cell {
                    fault: CellFault::BadCell,
                    column: name,
                    row: 4,
                },
            ),
            "{\"change\":2,\"column\":\"n\",\"error\":\"badcell\",\"row\":4,\"status\":\"refused\"}\n",
        )),
        7 => Some((
            Refusal::Change(
                2,
                ChangeFault::Cell {
                    fault: CellFault::OutOfRange,
                    column: name,
                    row: 4,
                },
            ),
            "{\"change\":2,\"column\":\"n\",\"error\":\"outofrange\",\"row\":4,\"status\":\"refused\"}\n",
        )),
        8 => Some((
            Refusal::Change(
                2,
                ChangeFault::Cell {
                    fault: CellFault::TextTooLong,
                    column: name,
                    row: 4,
                },
            ),
            "{\"change\":2,\"column\":\"n\",\"error\":\"texttoolong\",\"row\":4,\"status\":\"refused\"}\n",
        )),
        _ => None,
    }
}

fn commit_or_load(case: usize, name: String) -> Option<Case> {
    match case {
        0 => Some((
            Refusal::Limit(CommitLimit::Tables, 65),
            "{\"error\":\"limittables\",\"given\":65,\"status\":\"refused\"}\n",
        )),
        1 => Some((
            Refusal::Limit(CommitLimit::Rows, 65),
            "{\"error\":\"limitrows\",\"given\":65,\"status\":\"refused\"}\n",
        )),
        2 => Some((
            Refusal::Limit(CommitLimit::Inserted, 65),
            "{\"error\":\"limitcommit\",\"given\":65,\"status\":\"refused\"}\n",
        )),
        3 => Some((
            Refusal::Limit(CommitLimit::Versions, 65),
            "{\"error\":\"limitversions\",\"given\":65,\"status\":\"refused\"}\n",
        )),
        4 => Some((
            Refusal::Load(LoadFault::LimitBytes),
            "{\"error\":\"limitbytes\",\"status\":\"refused\"}\n",
        )),
        5 => Some((
            Refusal::Load(LoadFault::Header),
            "{\"error\":\"header\",\"status\":\"refused\"}\n",
        )),
        6 => Some((
            Refusal::Load(LoadFault::BadRecord(4)),
            "{\"error\":\"badrecord\",\"record\":4,\"status\":\"refused\"}\n",
        )),
        7 => Some((
            Refusal::Load(LoadFault::BadCell {
                column: name,
                number: 4,
            }),
            "{\"column\":\"n\",\"error\":\"badcell\",\"record\":4,\"status\":\"refused\"}\n",
        )),
        _ => None,
    }
}

// The cases of each kind, by their numbers from 0.
fn case_of(kind: usize, case: usize, name: String) -> Option<Case> {
    match kind {
        0 => text_or_session(case, name),
        1 => binding(case, name),
        2 => query(case, name),
        3 => change(case, name),
        _ => commit_or_load(case, name),
    }
}

#[test]
fn refusals_are_the_lines_of_the_formats(rt: HostRuntime) -> Result<(), Fail> {
    let alloc = rt.alloc();
    for (kind, count) in [8, 12, 9, 9, 8].into_iter().enumerate() {
        for case in 0..count {
            let name = String::from_str(alloc, "n")?;
            let Some((refusal, want)) = case_of(kind, case, name) else {
                return Err(Fail::new("no such case"));
            };
            let reply = refusal_reply(alloc, refusal)?;
            let bytes = reply_bytes(alloc, &reply)?;
            assert_eq!(rt; bytes.as_slice(), want.as_bytes(), "{want}");
        }
    }
    Ok(())
}

#[test]
fn constant_lines_are_refusals(rt: HostRuntime) -> Result<(), Fail> {
    let line = b"{\"error\":\"memory\",\"status\":\"refused\"}\n";
    assert_eq!(rt; memory_line(), line.as_slice());
    let line = b"{\"error\":\"notbuilt\",\"status\":\"refused\"}\n";
    assert_eq!(rt; not_built_line(), line.as_slice());
    Ok(())
}
