use super::*;
use pq_base::{MemSink, MemSource};
use std::process::Abort;
use std::test::Fail;

const MADE: &str = "CREATE TABLE T (v INT); INSERT INTO T VALUES (7), (5);";

const MADE_LINES: &str =
    "{\"status\":\"created\",\"version\":1}\n{\"rows\":2,\"status\":\"inserted\",\"version\":2}\n";

// Both rows are best.
const ALL: &str = "SELECT PACKAGE(T) AS P FROM T REPEAT 0 MAXIMIZE SUM(P.v);";

const ALL_LINE: &str =
    "{\"objective\":\"12\",\"package\":[[1,1],[2,1]],\"status\":\"optimal\",\"version\":2}\n";

// By the multiplier 1 of the goal the whole box has the bound 7 + 5.
const ALL_SHOWN: &str = r#"{"bytes":68,"status":"certificate"}
PAQLCERT 1
vars 2
rows 0
claim optimal 12
package 2
1 1
2 1
C 1
end
"#;

// Two rows are not three.
const THREE: &str = "SELECT PACKAGE(T) AS P FROM T REPEAT 0 SUCH THAT COUNT(P.*) >= 3;";

const THREE_LINE: &str = "{\"status\":\"infeasible\",\"version\":2}\n";

const THREE_SHOWN: &str = r#"{"bytes":52,"status":"certificate"}
PAQLCERT 1
vars 2
rows 1
claim infeasible
C 0 1
end
"#;

// Its version isn't there, so that it is refused.
const UNKEPT: &str = "SELECT PACKAGE(T) AS P FROM T AT VERSION 9 REPEAT 0;";

const UNKEPT_LINE: &str =
    "{\"asked\":9,\"error\":\"unkept\",\"high\":2,\"low\":0,\"status\":\"refused\"}\n";

const NO_CERTIFICATE: &str = "{\"error\":\"nocertificate\",\"status\":\"refused\"}\n";

const BEGUN: &str = "{\"status\":\"begun\"}\n";

const QUEUED: &str = "{\"changes\":1,\"status\":\"queued\"}\n";

// After a table of two rows the statements are answered by these lines, and the session is done.
fn assert_lines(rt: &impl Abort, alloc: Global, statements: &str, want: &str) -> Result<(), Fail> {
    let script = format!(in alloc; "{MADE}{statements}")?;
    let bytes = script.as_bytes().to_vec(alloc)?;
    let mut source = MemSource::new(bytes, 4096, Vec::new(alloc));
    let mut sink = MemSink::new(alloc, Vec::new(alloc));
    let mut vault = SoloVault {
        store: VersionStore::new(alloc)?,
    };
    let end = serve_session(alloc, &mut vault, &mut SoloSolver, &mut source, &mut sink);
    let lines = format!(in alloc; "{MADE_LINES}{want}")?;
    assert_eq!(rt; end, SessionEnd::Done, "{statements}");
    assert_eq!(rt; sink.written(), lines.as_bytes(), "{statements}");
    Ok(())
}

// In a transaction too, and its queue stays as it was.
#[test]
fn nothing_is_kept_at_first(rt: HostRuntime) -> Result<(), Fail> {
    let alloc = rt.alloc();
    let statements = format!(in alloc; "CERTIFICATE; {UNKEPT}BEGIN; CERTIFICATE; VACUUM 1;")?;
    let want = format!(in alloc; "{NO_CERTIFICATE}{UNKEPT_LINE}{BEGUN}{NO_CERTIFICATE}{QUEUED}")?;
    assert_lines(&rt, alloc, &statements, &want)
}

// Only an answered query changes what is kept.
#[test]
fn the_last_answer_is_certified(rt: HostRuntime) -> Result<(), Fail> {
    let alloc = rt.alloc();
    let statements = format!(in alloc;
        "{ALL}CERTIFICATE; CERTIFICATE; {UNKEPT}CERTIFICATE; BEGIN; DELETE FROM T; CERTIFICATE; {THREE}CERTIFICATE;"
    )?;
    let want = format!(in alloc;
        "{ALL_LINE}{ALL_SHOWN}{ALL_SHOWN}{UNKEPT_LINE}{ALL_SHOWN}{BEGUN}{QUEUED}{ALL_SHOWN}{THREE_LINE}{THREE_SHOWN}"
    )?;
    assert_lines(&rt, alloc, &statements, &want)
}
