use super::*;
use pq_base::{MemSink, MemSource, OpenGate};
use std::process::Abort;
use std::test::Fail;

const SCRIPT: &str = "CREATE TABLE T (v INT); INSERT INTO T VALUES (2),(2),(2);";

const QUERY: &str = "SELECT PACKAGE(T) AS P FROM T REPEAT 0 SUCH THAT SUM(P.v) = 3;";

// A certificate of the answer to the query: its first lines, two that cases change, and its last ones.
const FIRST: &str = "rows 2\nclaim infeasible\nS 1 0 0 0 0\nS 2 0 0 0 0\n";

const SEVENTH: &str = "C 0 0 1\n";

const EIGHTH: &str = "S 3 0 0 0 0\n";

const LAST: &str = "C 0 0 1\nC 0 1 0\nS 2 0 0 0 0\nS 3 0 0 0 0\nC 0 0 1\nC 0 1 0\nC 0 1 0\n";

// One check over memory: the number of the read and of the write that fail; 0 is none.
#[derive(Clone, Copy)]
struct Check<'a> {
    input: &'a str,
    piece: usize,
    read_fails: u64,
    write_fails: u64,
}

// A check in which no call fails.
fn check_of(input: &str) -> Check<'_> {
    Check {
        input,
        piece: 4096,
        read_fails: 0,
        write_fails: 0,
    }
}

// The check ends with this status and this line.
fn assert_check(
    rt: &impl Abort,
    alloc: Global,
    case: Check,
    code: u8,
    line: &str,
) -> Result<(), Fail> {
    let words = vec![in alloc; String::from_str(alloc, "check")?]?;
    let bytes = case.input.as_bytes().to_vec(alloc)?;
    let mut source = MemSource::new(bytes, case.piece, vec![in alloc; case.read_fails; 1]?);
    let mut sink = MemSink::new(alloc, vec![in alloc; case.write_fails; 1]?);
    let status = paql_top(&(), alloc, &words, &mut source, &mut sink, &OpenGate);
    assert_eq!(rt; status.code, code, "{line}");
    assert_eq!(rt; sink.written(), line.as_bytes(), "{code}");
    Ok(())
}

// The certificate with these lines in place of its own.
fn certificate(alloc: Global, head: &str, tail: &str) -> Result<String, Fail> {
    Ok(format!(in alloc; "PAQLCERT 1\nvars {head}{LAST}{tail}")?)
}

#[test]
fn certificates_are_judged(rt: HostRuntime) -> Result<(), Fail> {
    let alloc = rt.alloc();
    let right = format!(in alloc; "3\n{FIRST}{SEVENTH}{EIGHTH}")?;
    let open = format!(in alloc; "3\n{FIRST}C 0 1 1\n{EIGHTH}")?;
    let split = format!(in alloc; "3\n{FIRST}{SEVENTH}S 3 1 0 0 0\n")?;
    let many = format!(in alloc; "99999999999\n{FIRST}{SEVENTH}{EIGHTH}")?;
    for (between, head, tail, code, line) in [
        ("\n", right.as_str(), "end\n", 0, "VALID\n"),
        ("\r\n", right.as_str(), "end\n", 0, "VALID\n"),
        ("", right.as_str(), "end\n", 0, "VALID\n"),
        ("\n\n", right.as_str(), "end\n", 9, "BADCERT header\n"),
        (
            "\n",
            open.as_str(),
            "end\n",
            8,
            "INVALID .LL notclosed 0 0\n",
        ),
        ("\n", split.as_str(), "end\n", 8, "INVALID .LR badsplit\n"),
        ("\n", right.as_str(), "", 9, "BADCERT truncated\n"),
        ("\n", many.as_str(), "end\n", 9, "BADCERT line 2\n"),
        (
            "\n",
            right.as_str(),
            "end\nend\n",
            9,
            "BADCERT trailing 17\n",
        ),
    ] {
        let text = certificate(alloc, head, tail)?;
        let input = format!(in alloc; "{SCRIPT}{QUERY}{between}{text}")?;
        assert_check(&rt, alloc, check_of(&input), code, line)?;
        let bytewise = Check {
            piece: 1,
            ..check_of(&input)
        };
        assert_check(&rt, alloc, bytewise, code, line)?;
    }
    Ok(())
}

// Without the end of the query there is nothing to judge.
#[test]
fn nothing_is_judged_before_the_query(rt: HostRuntime) -> Result<(), Fail> {
    let alloc = rt.alloc();
    let whole = format!(in alloc; "{SCRIPT}{QUERY}")?;
    for count in 0..whole.len() {
        let cut = whole.get(..count).unwrap_or("");
        assert_check(&rt, alloc, check_of(cut), 1, "")?;
    }
    assert_check(&rt, alloc, check_of(&whole), 9, "BADCERT truncated\n")
}

// The first refusal is told, of a statement before the query or of the query, when all input is read.
#[test]
fn refusals_are_told(rt: HostRuntime) -> Result<(), Fail> {
    let alloc = rt.alloc();
    for (text, line) in [
        (
            "INSERT INTO S VALUES (2);",
            "REFUSED {\"change\":1,\"error\":\"notable\",\"name\":\"S\",\"status\":\"refused\"}\n",
        ),
        (
            "INSERT INTO;",
            "REFUSED {\"at\":11,\"error\":\"syntax\",\"status\":\"refused\"}\n",
        ),
        (
            "LOAD T BYTES 2;w\n",
            "REFUSED {\"error\":\"header\",\"status\":\"refused\"}\n",
        ),
        (
            "COMMIT;",
            "REFUSED {\"error\":\"notintransaction\",\"status\":\"refused\"}\n",
        ),
        (
            "SELECT PACKAGE(S) AS P FROM S REPEAT 0 SUCH THAT SUM(P.v) = 3;",
            "REFUSED {\"error\":\"notable\",\"name\":\"S\",\"status\":\"refused\"}\n",
        ),
    ] {
        let input = format!(in alloc; "{SCRIPT}{text}{QUERY}\nno certificate")?;
        assert_check(&rt, alloc, check_of(&input), 9, line)?;
        let late = Check {
            piece: 90,
            read_fails: 3,
            ..check_of(&input)
        };
        assert_check(&rt, alloc, late, 3, "")?;
    }
    Ok(())
}

// The rows of a LOAD, and those of a transaction.
#[test]
fn scripts_are_performed(rt: HostRuntime) -> Result<(), Fail> {
    let alloc = rt.alloc();
    let head = format!(in alloc; "3\n{FIRST}{SEVENTH}{EIGHTH}")?;
    let text = certificate(alloc, &head, "end\n")?;
    for script in [
        "CREATE TABLE T (v INT); LOAD T BYTES 8;v\n2\n2\n2\n",
        "BEGIN; CREATE TABLE T (v INT); INSERT INTO T VALUES (2),(2); COMMIT; -- ;\nINSERT INTO T VALUES (2);",
    ] {
        let input = format!(in alloc; "{script}{QUERY}\n{text}")?;
        assert_check(&rt, alloc, check_of(&input), 0, "VALID\n")?;
    }
    Ok(())
}

// A source or a sink that fails.
#[test]
fn faults_end_a_check(rt: HostRuntime) -> Result<(), Fail> {
    let alloc = rt.alloc();
    let input = format!(in alloc; "{SCRIPT}{QUERY}\nPAQLCERT 2\n")?;
    let case = Check {
        piece: 100,
        ..check_of(&input)
    };
    for read_fails in 1..4 {
        let fails = Check { read_fails, ..case };
        assert_check(&rt, alloc, fails, 3, "")?;
    }
    let unwritten = Check {
        write_fails: 1,
        ..case
    };
    assert_check(&rt, alloc, unwritten, 4, "")?;
    assert_check(&rt, alloc, case, 9, "BADCERT header\n")
}
