use super::*;
use pq_base::{MemSink, MemSource, OpenGate};
use std::alloc::AllocError;
use std::process::Abort;
use std::test::Fail;

const FIRST: &str =
    "CREATE TABLE T (v INT); INSERT INTO T VALUES (5); SELECT PACKAGE(T) AS P FROM T REPEAT 2 SUCH THAT SUM(P.v) <= 14 MAXIMIZE SUM(P.v);";

const CREATED: &str = "{\"status\":\"created\",\"version\":1}\n";

const TEN: &str =
    "{\"objective\":\"10\",\"package\":[[1,2]],\"status\":\"optimal\",\"version\":2}\n";

const NOTHING: &str = "{\"objective\":\"0\",\"package\":[],\"status\":\"optimal\",\"version\":2}\n";

const INFEASIBLE: &str = "{\"status\":\"infeasible\",\"version\":2}\n";

// One run over memory: the words, the input, the most that one read gives, and the number of the read and of the
// write that fail; 0 is none.
#[derive(Clone, Copy)]
struct Run<'a> {
    words: &'a [&'a str],
    input: &'a str,
    piece: usize,
    read_fails: u64,
    write_fails: u64,
}

// A run of the right words in which no call fails.
fn run_on(input: &str) -> Run<'_> {
    Run {
        words: &["run"],
        input,
        piece: 4096,
        read_fails: 0,
        write_fails: 0,
    }
}

// The status and what was written.
fn outcome(alloc: Global, case: Run) -> Result<(u8, Vec<u8>), Fail> {
    let mut words = Vec::new(alloc);
    for word in case.words {
        words.push(String::from_str(alloc, *word)?)?;
    }
    let bytes = case.input.as_bytes().to_vec(alloc)?;
    let mut source = MemSource::new(bytes, case.piece, vec![in alloc; case.read_fails; 1]?);
    let mut sink = MemSink::new(alloc, vec![in alloc; case.write_fails; 1]?);
    let status = paql_top(&(), alloc, &words, &mut source, &mut sink, &OpenGate);
    Ok((status.code, sink.written().to_vec(alloc)?))
}

// The input is answered to its end, by these lines.
fn assert_answered(rt: &impl Abort, alloc: Global, text: &str, lines: &str) -> Result<(), Fail> {
    let (status, out) = outcome(alloc, run_on(text))?;
    assert_eq!(rt; status, 0, "{text}");
    assert_eq!(rt; out.as_slice(), lines.as_bytes(), "{text}");
    Ok(())
}

// A table with these values.
fn table_of(alloc: Global, values: &str) -> Result<String, AllocError> {
    format!(in alloc; "CREATE TABLE T (v INT); INSERT INTO T VALUES {values};")
}

// The query with this after REPEAT, and this after the goal.
fn query_of(alloc: Global, asks: &str, ending: &str) -> Result<String, AllocError> {
    format!(in alloc; "SELECT PACKAGE(T) AS P FROM T REPEAT {asks} MAXIMIZE SUM(P.v){ending}")
}

// The table of so many values is made, and the text after it is answered by this line.
fn assert_last(
    rt: &impl Abort,
    alloc: Global,
    values: &str,
    rows: u32,
    text: &str,
    want: &str,
) -> Result<(), Fail> {
    let table = table_of(alloc, values)?;
    let text = format!(in alloc; "{table}{text}")?;
    let lines = format!(in alloc;
        "{CREATED}{{\"rows\":{rows},\"status\":\"inserted\",\"version\":2}}\n{want}"
    )?;
    assert_answered(rt, alloc, &text, &lines)
}

#[test]
fn scripts_are_answered(rt: HostRuntime) -> Result<(), Fail> {
    let alloc = rt.alloc();
    let second = "{\"objective\":\"9\",\"package\":[[2,1]],\"status\":\"optimal\",\"version\":2}\n";
    let negative =
        "{\"objective\":\"-3\",\"package\":[[1,1]],\"status\":\"optimal\",\"version\":2}\n";
    for (values, asks, rows, want) in [
        ("(5)", "2 SUCH THAT SUM(P.v) <= 14", 1, TEN),
        ("(5)", "2 SUCH THAT SUM(P.v) <= -1", 1, INFEASIBLE),
        (
            "(2),(9)",
            "0 SUCH THAT SUM(P.v) >= 3 AND COUNT(P.*) <= 1",
            2,
            second,
        ),
        ("(-3)", "998 SUCH THAT COUNT(P.*) >= 1", 1, negative),
        ("(-3)", "0 SUCH THAT COUNT(P.*) >= 0", 1, NOTHING),
        (
            "(2),(2),(2)",
            "0 SUCH THAT SUM(P.v) <= 3 AND SUM(P.v) >= 3",
            3,
            INFEASIBLE,
        ),
        (
            "(1000000000000)",
            "0 SUCH THAT SUM(P.v) <= -1000000000000",
            1,
            INFEASIBLE,
        ),
        // The row bound and the sums at their ends.
        ("(5)", "999999 SUCH THAT SUM(P.v) <= 14", 1, TEN),
        (
            "(5)",
            "5000000 SUCH THAT SUM(P.v) <= 14 AND COUNT(P.*) <= 3",
            1,
            TEN,
        ),
        ("(5)", "2 SUCH THAT COUNT(P.*) <= 0", 1, NOTHING),
        ("(5)", "5000000 SUCH THAT COUNT(P.*) <= -1", 1, INFEASIBLE),
        (
            "(1000000000000)",
            "999999 SUCH THAT SUM(P.v) <= 14",
            1,
            NOTHING,
        ),
    ] {
        let query = query_of(alloc, asks, ";")?;
        assert_last(&rt, alloc, values, rows, &query, want)?;
    }
    Ok(())
}

#[test]
fn budgets_are_kept(rt: HostRuntime) -> Result<(), Fail> {
    let alloc = rt.alloc();
    let none = "{\"bound\":\"3\",\"nodes\":1,\"status\":\"undecided\",\"version\":2}\n";
    // One node: 2.8 items would come to 14, and two of them are found.
    let some =
        "{\"bound\":\"14\",\"nodes\":1,\"objective\":\"10\",\"package\":[[1,2]],\"status\":\"undecided\",\"version\":2}\n";
    let odd = "0 SUCH THAT SUM(P.v) <= 3 AND SUM(P.v) >= 3";
    for (values, asks, ending, rows, want) in [
        ("(2),(2),(2)", odd, " BUDGET 1;", 3, none),
        ("(2),(2),(2)", odd, " BUDGET 15;", 3, INFEASIBLE),
        ("(5)", "2 SUCH THAT SUM(P.v) <= 14", " BUDGET 1;", 1, some),
        ("(5)", "2 SUCH THAT SUM(P.v) <= 14", " BUDGET 2000;", 1, TEN),
        (
            "(5)",
            "2 SUCH THAT SUM(P.v) <= 14",
            " BUDGET 20000;\n",
            1,
            TEN,
        ),
    ] {
        let query = query_of(alloc, asks, ending)?;
        assert_last(&rt, alloc, values, rows, &query, want)?;
    }
    Ok(())
}

#[test]
fn spellings_make_no_difference(rt: HostRuntime) -> Result<(), Fail> {
    let alloc = rt.alloc();
    let first = "{\"rows\":1,\"status\":\"inserted\",\"version\":2}\n";
    let lines = format!(in alloc; "{CREATED}{first}{TEN}")?;
    for text in [
        FIRST,
        "create table T (v int); insert into T values (5); select package(T) as P from T repeat 2 such that sum(P.v) <= 14 maximize sum(P.v);",
        "Create Table T (v Int); Insert Into T Values (5); Select Package(T) As P From T Repeat 2 Such That Sum(P.v) <= 14 Maximize Sum(P.v);",
        "CREATE TABLE T(v INT);INSERT INTO T VALUES(5);SELECT PACKAGE(T)AS P FROM T REPEAT 2 SUCH THAT SUM(P.v)<=14MAXIMIZE SUM(P.v);",
        "\n\tCREATE  TABLE\r\nT ( v INT ) ;INSERT INTO T VALUES ( 5 ) ; ;\nSELECT PACKAGE ( T ) AS P FROM T\nREPEAT 2\nSUCH THAT SUM ( P . v ) <= 14\nMAXIMIZE SUM ( P.v )\n;\n\n",
        "CREATE TABLE T (v INT); INSERT INTO T VALUES (05); SELECT PACKAGE(T) AS P FROM T REPEAT 02 SUCH THAT SUM(P.v) <= 0014 MAXIMIZE SUM(P.v) BUDGET 02000;",
        "CREATE TABLE T (v INT); INSERT INTO T VALUES (5.0); SELECT PACKAGE(T) AS P FROM T REPEAT 2 SUCH THAT SUM(P.v) <= 14.00 MAXIMIZE SUM(P.v);",
        "CREATE TABLE T (v INT); INSERT INTO T VALUES (5); SELECT PACKAGE(T) P FROM T REPEAT 2 SUCH THAT SUM(P.v) <= 14 MAXIMIZE SUM(P.v);",
        "-- one; two\nCREATE TABLE T -- it's a table;\n(v INT); INSERT INTO T VALUES (5); SELECT PACKAGE(T) AS P FROM T REPEAT 2 -- at most\nSUCH THAT SUM(P.v) <= 14 MAXIMIZE SUM(P.v); -- done",
        "CREATE TABLE \"T\" (\"v\" INT); INSERT INTO \"T\" VALUES (5); SELECT PACKAGE(\"T\") AS \"P\" FROM \"T\" REPEAT 2 SUCH THAT SUM(\"P\".\"v\") <= 14 MAXIMIZE SUM(\"P\".v);",
    ] {
        assert_answered(&rt, alloc, text, &lines)?;
    }
    let zero = "{\"objective\":\"0\",\"package\":[[1,1]],\"status\":\"optimal\",\"version\":2}\n";
    for (values, asks) in [
        ("(0)", "0 SUCH THAT COUNT(P.*) >= 1"),
        ("(-0)", "0 SUCH THAT COUNT(P.*) >= 1"),
        ("(- 0.0)", "0 SUCH THAT COUNT(P.*) >= 1"),
        ("(0)", "0 SUCH THAT COUNT(*) >= 01.0"),
    ] {
        let query = query_of(alloc, asks, " BUDGET 5 ;")?;
        assert_last(&rt, alloc, values, 1, &query, zero)?;
    }
    Ok(())
}

#[test]
fn queries_are_refused(rt: HostRuntime) -> Result<(), Fail> {
    let alloc = rt.alloc();
    for (asks, keys) in [
        (
            "FROM S REPEAT 1",
            "\"error\":\"notable\",\"name\":\"S\",\"status\":\"refused\"",
        ),
        (
            "FROM T R REPEAT 1",
            "\"error\":\"notable\",\"name\":\"T\",\"status\":\"refused\"",
        ),
        (
            "FROM T REPEAT 1 BUDGET 0",
            "\"error\":\"limitbudget\",\"given\":0,\"status\":\"refused\"",
        ),
        (
            "FROM T REPEAT 1 BUDGET 20001",
            "\"error\":\"limitbudget\",\"given\":20001,\"status\":\"refused\"",
        ),
        (
            "FROM T REPEAT 1 WHERE P.v = 1",
            "\"error\":\"nocolumn\",\"name\":\"P.v\",\"status\":\"refused\"",
        ),
        (
            "FROM T REPEAT 1 WHERE v = 'a'",
            "\"error\":\"wrongkind\",\"name\":\"v\",\"status\":\"refused\"",
        ),
        (
            "FROM T REPEAT 1 WHERE v > 0.0000001",
            "\"error\":\"toofine\",\"status\":\"refused\"",
        ),
        (
            "FROM T REPEAT 1 WHERE v > 1000000000001",
            "\"error\":\"literalrange\",\"status\":\"refused\"",
        ),
        (
            "FROM T REPEAT 1 MAXIMIZE 1.5 * SUM(P.v)",
            "\"error\":\"factor\",\"status\":\"refused\"",
        ),
        (
            "FROM T REPEAT 1 MAXIMIZE 1000001 * SUM(P.v)",
            "\"error\":\"factor\",\"status\":\"refused\"",
        ),
        (
            "FROM T MAXIMIZE SUM(P.v)",
            "\"error\":\"unbounded\",\"status\":\"refused\"",
        ),
        (
            "FROM T SUCH THAT COUNT(P.*) >= 3",
            "\"error\":\"unbounded\",\"status\":\"refused\"",
        ),
        (
            "FROM T SUCH THAT 1 * COUNT(P.*) <= 3",
            "\"error\":\"unbounded\",\"status\":\"refused\"",
        ),
        (
            "FROM T REPEAT 1000000",
            "\"error\":\"limitrepeat\",\"given\":1000001,\"status\":\"refused\"",
        ),
        (
            "FROM T SUCH THAT COUNT(P.*) < 1000001.5",
            "\"error\":\"limitrepeat\",\"given\":1000001,\"status\":\"refused\"",
        ),
    ] {
        let text = format!(in alloc; "SELECT PACKAGE(T) AS P {asks};")?;
        let want = format!(in alloc; "{{{keys}}}\n")?;
        assert_last(&rt, alloc, "(5)", 1, &text, &want)?;
    }
    let large = query_of(alloc, "999999 SUCH THAT SUM(P.v) <= 14", ";")?;
    let want =
        "{\"conjunct\":0,\"error\":\"toolarge\",\"status\":\"refused\",\"total\":\"2000000000000000000\"}\n";
    assert_last(
        &rt,
        alloc,
        "(1000000000000),(1000000000000)",
        2,
        &large,
        want,
    )
}

#[test]
fn changes_are_refused(rt: HostRuntime) -> Result<(), Fail> {
    let alloc = rt.alloc();
    for (change, keys) in [
        (
            "CREATE TABLE T (v INT)",
            "\"error\":\"tableexists\",\"name\":\"T\",\"status\":\"refused\"",
        ),
        (
            "CREATE TABLE S (v INT, v TEXT)",
            "\"error\":\"duplicatecolumn\",\"name\":\"v\",\"status\":\"refused\"",
        ),
        (
            "CREATE TABLE S (v DEC(7))",
            "\"error\":\"badscale\",\"name\":\"v\",\"status\":\"refused\"",
        ),
        (
            "INSERT INTO S VALUES (5)",
            "\"error\":\"notable\",\"name\":\"S\",\"status\":\"refused\"",
        ),
        (
            "INSERT INTO T VALUES (5), (6, 7)",
            "\"error\":\"arity\",\"have\":2,\"row\":2,\"status\":\"refused\",\"want\":1",
        ),
    ] {
        let text = format!(in alloc; "{change};")?;
        let want = format!(in alloc; "{{\"change\":1,{keys}}}\n")?;
        assert_last(&rt, alloc, "(5)", 1, &text, &want)?;
    }
    for (value, error) in [
        ("1.5", "badcell"),
        ("'a'", "badcell"),
        ("1000000000001", "outofrange"),
    ] {
        let text = format!(in alloc; "INSERT INTO T VALUES (5), ({value});")?;
        let want = format!(in alloc;
            "{{\"change\":1,\"column\":\"v\",\"error\":\"{error}\",\"row\":2,\"status\":\"refused\"}}\n"
        )?;
        assert_last(&rt, alloc, "(5)", 1, &text, &want)?;
    }
    Ok(())
}

#[test]
fn faulty_texts_tell_their_place(rt: HostRuntime) -> Result<(), Fail> {
    let alloc = rt.alloc();
    for (text, error, at) in [
        ("INSERT INTO T VALUES (5),;", "syntax", 25),
        ("INSERT INTO T VALUES (+5);", "syntax", 22),
        ("SELECT PACKAGE(T) AS P FROM T REPEAT -1;", "syntax", 37),
        (
            "SELECT PACKAGE(T) AS P FROM T REPEAT 2 BUDGET;",
            "syntax",
            45,
        ),
        (
            "SELECT PACKAGE(T) AS P FROM T REPEAT 2 BUDGET -5;",
            "syntax",
            46,
        ),
        (
            "SELECT PACKAGE(T) AS P FROM T SUCH THAT COUNT(*) <= 1 AND MAXIMIZE SUM(P.v);",
            "syntax",
            58,
        ),
        ("VACUUM 3 ?;", "lex", 9),
        ("UPDATE T SET v ! 5;", "lex", 15),
        ("CREATE TABLE \"S;", "lex", 13),
        ("LOAD T BYTES;", "syntax", 12),
    ] {
        let want = format!(in alloc;
            "{{\"at\":{at},\"error\":\"{error}\",\"status\":\"refused\"}}\n{TEN}"
        )?;
        let query = query_of(alloc, "2 SUCH THAT SUM(P.v) <= 14", ";")?;
        let text = format!(in alloc; "{text}{query}")?;
        assert_last(&rt, alloc, "(5)", 1, &text, &want)?;
    }
    Ok(())
}

// The run ends with this status, and just this was written.
fn assert_ends(
    rt: &impl Abort,
    alloc: Global,
    case: Run,
    want: u8,
    written: &str,
) -> Result<(), Fail> {
    let (status, out) = outcome(alloc, case)?;
    assert_eq!(rt; status, want, "{written}");
    assert_eq!(rt; out.as_slice(), written.as_bytes(), "{want}");
    Ok(())
}

#[test]
fn wrong_words_do_nothing(rt: HostRuntime) -> Result<(), Fail> {
    let first = run_on(FIRST);
    for case in [
        Run {
            words: &[],
            ..first
        },
        Run {
            words: &["run", "x"],
            ..first
        },
        Run {
            words: &["run", ""],
            ..first
        },
        Run {
            words: &["help"],
            ..first
        },
        Run {
            words: &["RUN"],
            ..first
        },
        Run {
            words: &["ru"],
            ..first
        },
    ] {
        assert_ends(&rt, rt.alloc(), case, 2, "")?;
    }
    Ok(())
}

#[test]
fn each_status_has_its_cause(rt: HostRuntime) -> Result<(), Fail> {
    let alloc = rt.alloc();
    let lines = format!(in alloc;
        "{CREATED}{{\"rows\":1,\"status\":\"inserted\",\"version\":2}}\n{TEN}"
    )?;
    for (piece, read_fails, write_fails, want, written) in [
        (1, 0, 0, 0, lines.as_str()),
        (1, 2, 0, 3, ""),
        (30, 2, 0, 3, CREATED),
        (4096, 2, 0, 3, lines.as_str()),
        (4096, 0, 1, 4, ""),
        (4096, 0, 2, 4, CREATED),
        (1, 30, 1, 4, ""),
    ] {
        let case = Run {
            piece,
            read_fails,
            write_fails,
            ..run_on(FIRST)
        };
        assert_ends(&rt, alloc, case, want, written)?;
    }
    for (input, want, written) in [
        ("", 0, ""),
        (" -- nothing;", 0, ""),
        ("CREATE TABLE T (v INT); INSERT", 1, CREATED),
        ("LOAD T BYTES 9;CREATE", 1, ""),
    ] {
        assert_ends(&rt, alloc, run_on(input), want, written)?;
    }
    Ok(())
}

#[test]
fn a_long_statement_has_its_status(rt: HostRuntime) -> Result<(), Fail> {
    let alloc = rt.alloc();
    let spaces = String::from_utf8(vec![in alloc; b' '; 1_048_576]?)
        .ok()
        .ok_or("text")?;
    assert_ends(&rt, alloc, run_on(&spaces), 6, "")
}
