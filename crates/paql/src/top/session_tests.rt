use super::*;
use package_query::{Comparison, PlainConjunct, PlainGoal, PlainQuery, plain};
use pq_base::{MemSink, MemSource};
use sqlite_items::Items;
use std::alloc::AllocError;
use std::process::Abort;
use std::test::Fail;

const CREATED: &str = "{\"status\":\"created\",\"version\":1}\n";

const CREATED_AND_NO_CERTIFICATE: &str =
    "{\"status\":\"created\",\"version\":1}\n{\"error\":\"nocertificate\",\"status\":\"refused\"}\n";

const CREATED_WITHOUT_HEADER: &str =
    "{\"status\":\"created\",\"version\":1}\n{\"error\":\"header\",\"status\":\"refused\"}\n";

const NO_TABLE: &str = "{\"error\":\"notable\",\"name\":\"T\",\"status\":\"refused\"}\n";

const BEGUN: &str = "{\"status\":\"begun\"}\n";

// A comment and a text with a semicolon, blank frames, and a body with semicolons and quotes.
const SCRIPT: &str = r#"CREATE TABLE T (v INT);
-- a comment; it isn't a statement
INSERT INTO T VALUES ('a;b''c;');
;-- blank;
 ;INSERT INTO T VALUES (7), (5);
LOAD T BYTES 12;a;'b';"c;--
SELECT PACKAGE(T) AS P FROM T REPEAT 0 SUCH THAT SUM(P.v) <= 11 MAXIMIZE SUM(P.v);
SELEC;
SELECT PACKAGE(T) AS P FROM T REPEAT 0 SUCH THAT SUM(P.v) <= 5 AND COUNT(P.*) >= 1 MAXIMIZE SUM(P.v);
LOAD T BYTES 2;;;ROLLBACK;
"#;

const SCRIPT_REPLIES: &str = r#"{"status":"created","version":1}
{"change":1,"column":"v","error":"badcell","row":1,"status":"refused"}
{"rows":2,"status":"inserted","version":2}
{"error":"header","status":"refused"}
{"objective":"7","package":[[1,1]],"status":"optimal","version":2}
{"at":1,"error":"syntax","status":"refused"}
{"objective":"5","package":[[2,1]],"status":"optimal","version":2}
{"error":"header","status":"refused"}
{"error":"notintransaction","status":"refused"}
"#;

// A session over memory: its bytes, the most that one read gives, and the number of the read and of the write that
// fail; 0 is none.
#[derive(Clone, Copy)]
struct Case<'a> {
    input: &'a str,
    piece: usize,
    read_fails: u64,
    write_fails: u64,
}

// A session in which no call fails.
fn session_of(input: &str) -> Case<'_> {
    Case {
        input,
        piece: 4096,
        read_fails: 0,
        write_fails: 0,
    }
}

// The session ends so, and just this was written.
fn assert_ends(
    rt: &impl Abort,
    alloc: Global,
    case: Case,
    want: SessionEnd,
    replies: &str,
) -> Result<(), Fail> {
    let bytes = case.input.as_bytes().to_vec(alloc)?;
    let mut source = MemSource::new(bytes, case.piece, vec![in alloc; case.read_fails; 1]?);
    let mut sink = MemSink::new(alloc, vec![in alloc; case.write_fails; 1]?);
    let mut vault = SoloVault {
        store: VersionStore::new(alloc)?,
    };
    let end = serve_session(alloc, &mut vault, &mut SoloSolver, &mut source, &mut sink);
    let start = case.input.get(..60).unwrap_or(case.input);
    assert_eq!(rt; end, want, "{start}");
    assert_eq!(rt; sink.written(), replies.as_bytes(), "{start}");
    Ok(())
}

// So many spaces, and an end after them.
fn spaces(alloc: Global, count: usize, ending: &str) -> Result<String, Fail> {
    let mut text = String::from_utf8(vec![in alloc; b' '; count]?)
        .ok()
        .ok_or("text")?;
    text.push_str(ending)?;
    Ok(text)
}

#[test]
fn any_pieces_give_the_same(rt: HostRuntime) -> Result<(), Fail> {
    for piece in [1, 2, 7, 64, 4096] {
        let case = Case {
            piece,
            ..session_of(SCRIPT)
        };
        assert_ends(&rt, rt.alloc(), case, SessionEnd::Done, SCRIPT_REPLIES)?;
    }
    Ok(())
}

#[test]
fn how_inputs_end(rt: HostRuntime) -> Result<(), Fail> {
    for (input, want, replies) in [
        ("", SessionEnd::Done, ""),
        (
            " \t\r\n-- a comment; and no statement\n ",
            SessionEnd::Done,
            "",
        ),
        (" -- a comment", SessionEnd::Done, ""),
        (" ; -- one;\n;;", SessionEnd::Done, ""),
        (
            "CREATE TABLE T (v INT); INSERT INTO T",
            SessionEnd::Truncated,
            CREATED,
        ),
        ("CREATE TABLE T (v INT)", SessionEnd::Truncated, ""),
        ("'it''s; -- no end", SessionEnd::Truncated, ""),
        (
            "LOAD T BYTES 999999999999999999;abc",
            SessionEnd::Truncated,
            "",
        ),
        ("LOAD T BYTES 3;ab", SessionEnd::Truncated, ""),
        ("LOAD T BYTES 3; ;;", SessionEnd::Done, NO_TABLE),
        ("LOAD T BYTES 0;", SessionEnd::Done, NO_TABLE),
        (
            "CREATE TABLE T (v INT);LOAD T BYTES 0;-",
            SessionEnd::Truncated,
            CREATED_WITHOUT_HEADER,
        ),
    ] {
        for piece in [1, 4096] {
            let case = Case {
                piece,
                ..session_of(input)
            };
            assert_ends(&rt, rt.alloc(), case, want, replies)?;
        }
    }
    Ok(())
}

#[test]
fn faults_of_source_and_sink(rt: HostRuntime) -> Result<(), Fail> {
    let create = "CREATE TABLE T (v INT);";
    let both = "CREATE TABLE T (v INT);CERTIFICATE;";
    for (input, piece, read_fails, write_fails, want, replies) in [
        (both, 1, 2, 0, SessionEnd::ReadFault, ""),
        (create, 4096, 1, 0, SessionEnd::ReadFault, ""),
        // The fault comes after the whole of the input, when its end would be told.
        (create, 4096, 2, 0, SessionEnd::ReadFault, CREATED),
        (both, 23, 2, 0, SessionEnd::ReadFault, CREATED),
        (both, 1, 28, 0, SessionEnd::ReadFault, CREATED),
        (both, 1, 0, 1, SessionEnd::WriteFault, ""),
        (both, 4096, 0, 1, SessionEnd::WriteFault, ""),
        (both, 1, 0, 2, SessionEnd::WriteFault, CREATED),
        (both, 4096, 0, 2, SessionEnd::WriteFault, CREATED),
        (
            both,
            4096,
            3,
            3,
            SessionEnd::Done,
            CREATED_AND_NO_CERTIFICATE,
        ),
        // No reply is owed, so that no call of the sink can fail.
        ("BEGIN", 4096, 0, 1, SessionEnd::Truncated, ""),
    ] {
        let case = Case {
            input,
            piece,
            read_fails,
            write_fails,
        };
        assert_ends(&rt, rt.alloc(), case, want, replies)?;
    }
    Ok(())
}

#[test]
fn how_long_a_statement_is(rt: HostRuntime) -> Result<(), Fail> {
    let alloc = rt.alloc();
    for (count, ending, want, replies) in [
        (1_048_576, "", SessionEnd::TooLong, ""),
        (1_048_576, ";BEGIN;", SessionEnd::TooLong, ""),
        (1_048_575, ";", SessionEnd::Done, ""),
        (1_048_575, "", SessionEnd::Done, ""),
        (1_048_570, "BEGIN;", SessionEnd::Done, BEGUN),
        (1_048_571, "BEGIN;", SessionEnd::TooLong, ""),
    ] {
        let text = spaces(alloc, count, ending)?;
        assert_ends(&rt, alloc, session_of(&text), want, replies)?;
    }
    Ok(())
}

#[test]
fn refusals_tell_their_place(rt: HostRuntime) -> Result<(), Fail> {
    let alloc = rt.alloc();
    let open = |count: usize| -> Result<String, Fail> {
        let mut text = String::from_str(alloc, "DELETE FROM T WHERE ")?;
        for _ in 0..count {
            text.push('(')?;
        }
        text.push(';')?;
        Ok(text)
    };
    let deepest = open(64)?;
    let deep = open(65)?;
    for (statement, error, at) in [
        ("BEGIN #;", "lex", 6),
        ("SELEC;", "syntax", 0),
        ("BEGIN BEGIN;", "syntax", 6),
        ("INSERT INTO T;", "syntax", 13),
        ("-- one\nSELEC;", "syntax", 7),
        ("SELEC #;", "lex", 6),
        (deepest.as_str(), "syntax", 84),
        (deep.as_str(), "deep", 84),
    ] {
        let text = format!(in alloc; "{statement}CREATE TABLE T (v INT);")?;
        let replies = format!(in alloc;
            "{{\"at\":{at},\"error\":\"{error}\",\"status\":\"refused\"}}\n{CREATED}"
        )?;
        assert_ends(&rt, alloc, session_of(&text), SessionEnd::Done, &replies)?;
    }
    Ok(())
}

// The rows of T, and then the statement is answered by these lines.
fn assert_reply(
    rt: &impl Abort,
    alloc: Global,
    rows: &str,
    text: &str,
    want: &str,
) -> Result<(), Fail> {
    let script = format!(in alloc; "CREATE TABLE T (v INT); INSERT INTO T VALUES {rows}; {text};")?;
    let bytes = script.as_bytes().to_vec(alloc)?;
    let mut source = MemSource::new(bytes, 4096, Vec::new(alloc));
    let mut sink = MemSink::new(alloc, Vec::new(alloc));
    let mut vault = SoloVault {
        store: VersionStore::new(alloc)?,
    };
    let end = serve_session(alloc, &mut vault, &mut SoloSolver, &mut source, &mut sink);
    assert_eq!(rt; end, SessionEnd::Done, "{text}");
    assert!(rt; sink.written().ends_with(want.as_bytes()), "{text}");
    Ok(())
}

#[test]
fn queries_that_are_answered(rt: HostRuntime) -> Result<(), Fail> {
    let alloc = rt.alloc();
    let ten = "{\"objective\":\"10\",\"package\":[[1,2]],\"status\":\"optimal\",\"version\":2}\n";
    let nothing = "{\"objective\":\"0\",\"package\":[],\"status\":\"optimal\",\"version\":2}\n";
    let infeasible = "{\"status\":\"infeasible\",\"version\":2}\n";
    let negative =
        "{\"objective\":\"-3\",\"package\":[[2,1]],\"status\":\"optimal\",\"version\":2}\n";
    let none = "{\"bound\":\"3\",\"nodes\":1,\"status\":\"undecided\",\"version\":2}\n";
    // One node: 2.8 items would come to 14, and two of them are found.
    let some =
        "{\"bound\":\"14\",\"nodes\":1,\"objective\":\"10\",\"package\":[[1,2]],\"status\":\"undecided\",\"version\":2}\n";
    for (rows, asks, budget, want) in [
        // Numbers are whole however they are written.
        ("(5.0), (-0)", "1 SUCH THAT SUM(P.v) <= 14", "", ten),
        ("(5)", "2 SUCH THAT SUM(P.v) <= 14.0", "BUDGET 20000", ten),
        ("(5)", "2 SUCH THAT COUNT(*) <= 0", "", nothing),
        ("(5)", "2 SUCH THAT SUM(P.v) <= -1", "", infeasible),
        ("(2), (-3)", "0 SUCH THAT SUM(P.v) <= -3", "", negative),
        (
            "(5)",
            "1000000000000 SUCH THAT COUNT(P.*) <= 3 AND SUM(P.v) <= 14",
            "",
            ten,
        ),
        (
            "(1000000000000)",
            "999999 SUCH THAT SUM(P.v) <= 14",
            "",
            nothing,
        ),
        (
            "(-1000000000000)",
            "0 SUCH THAT SUM(P.v) >= 1000000000000",
            "",
            infeasible,
        ),
        (
            "(2), (2), (2)",
            "0 SUCH THAT SUM(P.v) <= 3 AND SUM(P.v) >= 3",
            "BUDGET 1",
            none,
        ),
        (
            "(2), (2), (2)",
            "0 SUCH THAT SUM(P.v) <= 3 AND SUM(P.v) >= 3",
            "BUDGET 15",
            infeasible,
        ),
        ("(5)", "2 SUCH THAT SUM(P.v) <= 14", "BUDGET 1", some),
    ] {
        let text = format!(in alloc;
            "SELECT PACKAGE(T) AS P FROM T REPEAT {asks} MAXIMIZE SUM(P.v) {budget}"
        )?;
        assert_reply(&rt, alloc, rows, text.as_str(), want)?;
    }
    Ok(())
}

#[test]
fn queries_of_every_form(rt: HostRuntime) -> Result<(), Fail> {
    let alloc = rt.alloc();
    for (asks, want) in [
        (
            "(R) AS P FROM T R REPEAT 2 WHERE R.v > 4 MAXIMIZE SUM(P.v)",
            "{\"objective\":\"15\",\"package\":[[1,3]],",
        ),
        (
            "(T) AS P FROM T REPEAT 1 WHERE NOT v IN (5, 7) MINIMIZE COUNT(*)",
            "{\"objective\":\"0\",\"package\":[],",
        ),
        (
            "(T) AS P FROM T SUCH THAT COUNT(P.*) < 3 MAXIMIZE 2 * SUM(v) - COUNT(P.*)",
            "{\"objective\":\"18\",\"package\":[[1,2]],",
        ),
        (
            "(T) AS P FROM T REPEAT 0 SUCH THAT AVG(P.v) BETWEEN 4.1 AND 4.9 AND COUNT(P.*) >= 1",
            "{\"package\":[[1,1],[3,1]],",
        ),
        (
            "(T) AS P FROM T REPEAT 0 SUCH THAT 8 >= SUM(P.v) AND SUM(P.v) > COUNT(P.*) + 3 MAXIMIZE SUM(P.v)",
            "{\"objective\":\"8\",\"package\":[[1,1],[2,1]],",
        ),
        (
            "(T) AS P FROM T REPEAT 0 SUCH THAT (SELECT COUNT(*) FROM P WHERE v < 4) = 1 MINIMIZE SUM(P.v)",
            "{\"objective\":\"3\",\"package\":[[2,1]],",
        ),
        (
            "(T) AS P FROM T REPEAT 0 SUCH THAT SUM(P.v) = 1 USING DIRECT BUDGET 20000",
            "{\"status\":\"infeasible\",",
        ),
    ] {
        let text = format!(in alloc; "SELECT PACKAGE{asks}")?;
        let want = format!(in alloc; "{want}\"status\":\"optimal\",\"version\":2}}\n")?;
        let infeasible = "{\"status\":\"infeasible\",\"version\":2}\n";
        let line = if want.starts_with("{\"status\"") {
            infeasible
        } else {
            want.as_str()
        };
        assert_reply(&rt, alloc, "(5), (3), (4)", text.as_str(), line)?;
    }
    Ok(())
}

#[test]
fn how_many_conditions(rt: HostRuntime) -> Result<(), Fail> {
    let alloc = rt.alloc();
    let infeasible = "{\"status\":\"infeasible\",\"version\":2}\n";
    let many = "{\"error\":\"limitconjuncts\",\"given\":32,\"status\":\"refused\"}\n";
    for (more, want) in [(0, infeasible), (30, infeasible), (31, many)] {
        let mut text = String::from_str(
            alloc,
            "SELECT PACKAGE(T) AS P FROM T REPEAT 2 SUCH THAT SUM(P.v) <= -1",
        )?;
        for _ in 0..more {
            text.push_str(" AND COUNT(P.*) >= 1")?;
        }
        text.push_str(" MAXIMIZE SUM(P.v)")?;
        assert_reply(&rt, alloc, "(5)", text.as_str(), want)?;
    }
    Ok(())
}

// A condition as the plain program has it. A row is its value and a 1, which COUNT sums.
#[derive(Clone, Copy)]
enum Limit {
    SumAtMost(i64),
    SumAtLeast(i64),
    CountAtMost(i64),
    CountAtLeast(i64),
}

impl Limit {
    fn text(self, alloc: Global) -> Result<String, AllocError> {
        match self {
            Limit::SumAtMost(limit) => format!(in alloc; "SUM(P.v) <= {limit}"),
            Limit::SumAtLeast(limit) => format!(in alloc; "SUM(P.v) >= {limit}"),
            Limit::CountAtMost(limit) => format!(in alloc; "COUNT(P.*) <= {limit}"),
            Limit::CountAtLeast(limit) => format!(in alloc; "COUNT(P.*) >= {limit}"),
        }
    }

    fn plain(self, alloc: Global) -> Result<PlainConjunct, AllocError> {
        let (place, comparison) = match self {
            Limit::SumAtMost(limit) => (0, Comparison::AtMost(i128::from(limit))),
            Limit::SumAtLeast(limit) => (0, Comparison::AtLeast(i128::from(limit))),
            Limit::CountAtMost(limit) => (1, Comparison::AtMost(i128::from(limit))),
            Limit::CountAtLeast(limit) => (1, Comparison::AtLeast(i128::from(limit))),
        };
        Ok(PlainConjunct {
            terms: Items::from_slice(alloc, &[place])?,
            comparison,
        })
    }
}

// How the line begins by which the plain program would answer.
fn plain_start(
    rt: &impl Abort,
    alloc: Global,
    values: &[i64],
    repeat: u64,
    limits: &[Limit],
) -> Result<String, AllocError> {
    let mut conjuncts = Items::new(alloc);
    for limit in limits {
        conjuncts.push(limit.plain(alloc)?)?;
    }
    let query = PlainQuery {
        repeat,
        conjuncts,
        goal: Some(PlainGoal {
            maximize: true,
            terms: Items::from_slice(alloc, &[0])?,
        }),
    };
    let mut rows = Vec::new(alloc);
    for (place, value) in values.iter().enumerate() {
        rows.push((place as u64 + 1, Items::from_slice(alloc, &[*value, 1])?))?;
    }
    assert!(rt; plain::is_small(&query, &rows));
    assert!(rt; plain::ascends(&rows));
    match plain::best(alloc, &query, &rows)? {
        Some(found) => {
            let worth = found.worth;
            format!(in alloc; "{{\"objective\":\"{worth}\",")
        }
        None => String::from_str(alloc, "{\"status\":\"infeasible\","),
    }
}

// The script of the same query.
fn script_of(
    alloc: Global,
    values: &[i64],
    repeat: u64,
    limits: &[Limit],
) -> Result<String, AllocError> {
    let mut text = String::from_str(alloc, "CREATE TABLE T (v INT); INSERT INTO T VALUES ")?;
    for (place, value) in values.iter().enumerate() {
        let comma = if place == 0 { "" } else { ", " };
        text.push_str(format!(in alloc; "{comma}({value})")?.as_str())?;
    }
    text.push_str(format!(in alloc; "; SELECT PACKAGE(T) AS P FROM T REPEAT {repeat}")?.as_str())?;
    for (place, limit) in limits.iter().enumerate() {
        let word = if place == 0 { " SUCH THAT " } else { " AND " };
        text.push_str(word)?;
        text.push_str(limit.text(alloc)?.as_str())?;
    }
    text.push_str(" MAXIMIZE SUM(P.v);")?;
    Ok(text)
}

#[test]
fn the_plain_program_agrees(rt: HostRuntime) -> Result<(), Fail> {
    let alloc = rt.alloc();
    let cases: [(&[i64], u64, &[Limit]); 5] = [
        (
            &[7, 5, 3],
            2,
            &[Limit::SumAtMost(29), Limit::CountAtMost(5)],
        ),
        (
            &[7, 5, 3],
            2,
            &[Limit::SumAtMost(22), Limit::SumAtLeast(22)],
        ),
        (&[-7, 5, -3], 1, &[Limit::CountAtLeast(4)]),
        (
            &[4, 6, 10],
            2,
            &[Limit::SumAtMost(21), Limit::SumAtLeast(21)],
        ),
        (
            &[13, 8, 5, -2],
            1,
            &[
                Limit::SumAtMost(40),
                Limit::CountAtLeast(3),
                Limit::CountAtMost(4),
            ],
        ),
    ];
    for (values, repeat, limits) in cases {
        let script = script_of(alloc, values, repeat, limits)?;
        let bytes = script.as_bytes().to_vec(alloc)?;
        let mut source = MemSource::new(bytes, 4096, Vec::new(alloc));
        let mut sink = MemSink::new(alloc, Vec::new(alloc));
        let mut vault = SoloVault {
            store: VersionStore::new(alloc)?,
        };
        let end = serve_session(alloc, &mut vault, &mut SoloSolver, &mut source, &mut sink);
        assert_eq!(rt; end, SessionEnd::Done, "{script}");
        let start = plain_start(&rt, alloc, values, repeat, limits)?;
        let last = sink
            .written()
            .split(|byte| *byte == b'\n')
            .nth(2)
            .unwrap_or(b"");
        assert!(rt; last.starts_with(start.as_bytes()), "{script}");
    }
    Ok(())
}

// The input is answered to its end by these lines, and memory never runs out.
fn assert_large(rt: &impl Abort, alloc: Global, input: String, want: &str) -> Result<(), Fail> {
    let bytes = input.as_bytes().to_vec(alloc)?;
    let mut source = MemSource::new(bytes, 4096, Vec::new(alloc));
    let mut sink = MemSink::new(alloc, Vec::new(alloc));
    let mut vault = SoloVault {
        store: VersionStore::new(alloc)?,
    };
    let end = serve_session(alloc, &mut vault, &mut SoloSolver, &mut source, &mut sink);
    assert_eq!(rt; end, SessionEnd::Done);
    assert_eq!(rt; sink.written(), want.as_bytes());
    Ok(())
}

#[test]
fn many_rows_find_memory(rt: HostRuntime) -> Result<(), Fail> {
    let alloc = rt.alloc();
    let mut text = String::from_str(alloc, "CREATE TABLE T (v INT); INSERT INTO T VALUES (0)")?;
    for _ in 1..100_000 {
        text.push_str(",(0)")?;
    }
    text.push_str("; SELECT PACKAGE(T) AS P FROM T REPEAT 0 SUCH THAT SUM(P.v) <= -1")?;
    text.push_str(" MAXIMIZE SUM(P.v); BEGIN;")?;
    let want = format!(in alloc;
        "{CREATED}{{\"rows\":100000,\"status\":\"inserted\",\"version\":2}}\n{{\"status\":\"infeasible\",\"version\":2}}\n{BEGUN}"
    )?;
    assert_large(&rt, alloc, text, want.as_str())
}

#[test]
fn far_places_and_long_bodies_find_memory(rt: HostRuntime) -> Result<(), Fail> {
    let alloc = rt.alloc();
    let far = spaces(alloc, 1_000_000, "#;")?;
    assert_large(
        &rt,
        alloc,
        far,
        "{\"at\":1000000,\"error\":\"lex\",\"status\":\"refused\"}\n",
    )?;
    let mut long = String::from_str(alloc, "CREATE TABLE T (v INT);LOAD T BYTES 16777217;")?;
    long.push_str(spaces(alloc, 16_777_217, "BEGIN;")?.as_str())?;
    let want = format!(in alloc;
        "{CREATED}{{\"error\":\"limitbytes\",\"status\":\"refused\"}}\n{BEGUN}"
    )?;
    assert_large(&rt, alloc, long, want.as_str())
}

// A table of ones, and the query that wants each of them.
fn all_of_ones(alloc: Global, count: usize) -> Result<String, Fail> {
    let mut text = String::from_str(alloc, "CREATE TABLE T (v INT); INSERT INTO T VALUES (1)")?;
    for _ in 1..count {
        text.push_str(",(1)")?;
    }
    text.push_str("; SELECT PACKAGE(T) AS P FROM T REPEAT 0 SUCH THAT COUNT(P.*) >= ")?;
    text.push_str(count.to_string(alloc)?.as_str())?;
    text.push_str(" MAXIMIZE SUM(P.v) BUDGET 20000;")?;
    Ok(text)
}

// The pairs of the package that takes each of so many rows once.
fn pairs_of_all(alloc: Global, count: usize) -> Result<String, Fail> {
    let mut text = String::from_str(alloc, "[1,1]")?;
    for id in 2..=count {
        text.push_str(format!(in alloc; ",[{id},1]")?.as_str())?;
    }
    Ok(text)
}

#[test]
fn a_long_reply_finds_memory(rt: HostRuntime) -> Result<(), Fail> {
    let alloc = rt.alloc();
    let input = all_of_ones(alloc, 1_000)?;
    let pairs = pairs_of_all(alloc, 1_000)?;
    let want = format!(in alloc;
        "{CREATED}{{\"rows\":1000,\"status\":\"inserted\",\"version\":2}}\n{{\"objective\":\"1000\",\"package\":[{pairs}],\"status\":\"optimal\",\"version\":2}}\n"
    )?;
    assert_large(&rt, alloc, input, want.as_str())
}
