use super::*;
use pq_base::{MemSink, MemSource};
use std::process::Abort;
use std::test::Fail;

const CREATED: &str = "{\"status\":\"created\",\"version\":1}\n";

const BEGUN: &str = "{\"status\":\"begun\"}\n";

const ROLLED_BACK: &str = "{\"status\":\"rolledback\"}\n";

const NOT_BUILT: &str = "{\"error\":\"notbuilt\",\"status\":\"refused\"}\n";

// After a table T of the column v the statements are answered by these lines, and the session is done.
fn assert_lines(rt: &impl Abort, alloc: Global, statements: &str, want: &str) -> Result<(), Fail> {
    let script = format!(in alloc; "CREATE TABLE T (v INT); {statements}")?;
    let bytes = script.as_bytes().to_vec(alloc)?;
    let mut source = MemSource::new(bytes, 4096, Vec::new(alloc));
    let mut sink = MemSink::new(alloc, Vec::new(alloc));
    let mut vault = SoloVault {
        store: VersionStore::new(alloc)?,
    };
    let end = serve_session(alloc, &mut vault, &mut SoloSolver, &mut source, &mut sink);
    let start = statements.get(..60).unwrap_or(statements);
    let lines = format!(in alloc; "{CREATED}{want}")?;
    assert_eq!(rt; end, SessionEnd::Done, "{start}");
    assert_eq!(rt; sink.written(), lines.as_bytes(), "{start}");
    Ok(())
}

// A query of one row with the greatest value.
fn greatest(alloc: Global, version: &str) -> Result<String, Fail> {
    let text = format!(in alloc;
        "SELECT PACKAGE(T) AS P FROM T {version} REPEAT 0 SUCH THAT COUNT(P.*) = 1 MAXIMIZE SUM(P.v);"
    )?;
    Ok(text)
}

// Its answer.
fn found(alloc: Global, value: i64, id: u64, version: u64) -> Result<String, Fail> {
    let line = format!(in alloc;
        "{{\"objective\":\"{value}\",\"package\":[[{id},1]],\"status\":\"optimal\",\"version\":{version}}}\n"
    )?;
    Ok(line)
}

fn changed(alloc: Global, rows: u64, status: &str, version: u64) -> Result<String, Fail> {
    let line = format!(in alloc;
        "{{\"rows\":{rows},\"status\":\"{status}\",\"version\":{version}}}\n"
    )?;
    Ok(line)
}

fn queued(alloc: Global, changes: u64) -> Result<String, Fail> {
    let line = format!(in alloc; "{{\"changes\":{changes},\"status\":\"queued\"}}\n")?;
    Ok(line)
}

fn unkept(alloc: Global, asked: u64, high: u64, low: u64) -> Result<String, Fail> {
    let line = format!(in alloc;
        "{{\"asked\":{asked},\"error\":\"unkept\",\"high\":{high},\"low\":{low},\"status\":\"refused\"}}\n"
    )?;
    Ok(line)
}

#[test]
fn versions_are_answered(rt: HostRuntime) -> Result<(), Fail> {
    let alloc = rt.alloc();
    let last = greatest(alloc, "")?;
    let second = greatest(alloc, "AT VERSION 2")?;
    let third = greatest(alloc, "AT VERSION 3")?;
    let ninth = greatest(alloc, "AT VERSION 9")?;
    let statements = format!(in alloc;
        "INSERT INTO T VALUES (7), (5); UPDATE T SET v = 9 WHERE v < 6; {last}{second}DELETE FROM T WHERE v = 9;
        {last}{third}{ninth}VACUUM 3; {second}{third}INSERT INTO T VALUES (1); {last}"
    )?;
    let mut want = changed(alloc, 2, "inserted", 2)?;
    want.push_str(&changed(alloc, 1, "updated", 3)?)?;
    want.push_str(&found(alloc, 9, 2, 3)?)?;
    want.push_str(&found(alloc, 7, 1, 2)?)?;
    want.push_str(&changed(alloc, 1, "deleted", 4)?)?;
    want.push_str(&found(alloc, 7, 1, 4)?)?;
    want.push_str(&found(alloc, 9, 2, 3)?)?;
    want.push_str(&unkept(alloc, 9, 4, 0)?)?;
    want.push_str("{\"low\":3,\"status\":\"vacuumed\",\"version\":5}\n")?;
    want.push_str(&unkept(alloc, 2, 5, 3)?)?;
    want.push_str(&found(alloc, 9, 2, 3)?)?;
    want.push_str(&changed(alloc, 1, "inserted", 6)?)?;
    want.push_str(&found(alloc, 7, 1, 6)?)?;
    assert_lines(&rt, alloc, &statements, &want)
}

// A transaction that is open takes no BEGIN; a refused COMMIT keeps it, and it goes on.
#[test]
fn transactions_are_answered(rt: HostRuntime) -> Result<(), Fail> {
    let alloc = rt.alloc();
    let last = greatest(alloc, "")?;
    let statements = format!(in alloc;
        "COMMIT; ROLLBACK; BEGIN; BEGIN; INSERT INTO T VALUES (1); UPDATE S SET v = 1; COMMIT; ROLLBACK;
        BEGIN; CREATE TABLE S (w INT); INSERT INTO S VALUES (1), (2); DELETE FROM S WHERE w = 1; COMMIT;
        BEGIN; COMMIT; INSERT INTO T VALUES (6); {last}"
    )?;
    let unopened = "{\"error\":\"notintransaction\",\"status\":\"refused\"}\n";
    let mut want = format!(in alloc;
        "{unopened}{unopened}{BEGUN}{{\"error\":\"intransaction\",\"status\":\"refused\"}}\n"
    )?;
    want.push_str(&queued(alloc, 1)?)?;
    want.push_str(&queued(alloc, 2)?)?;
    want.push_str("{\"change\":2,\"error\":\"notable\",\"name\":\"S\",\"status\":\"refused\"}\n")?;
    want.push_str(ROLLED_BACK)?;
    want.push_str(BEGUN)?;
    for number in 1..=3 {
        want.push_str(&queued(alloc, number)?)?;
    }
    want.push_str("{\"changes\":3,\"rows\":3,\"status\":\"committed\",\"version\":2}\n")?;
    want.push_str(BEGUN)?;
    want.push_str("{\"changes\":0,\"rows\":0,\"status\":\"committed\",\"version\":3}\n")?;
    want.push_str(&changed(alloc, 1, "inserted", 4)?)?;
    want.push_str(&found(alloc, 6, 1, 4)?)?;
    assert_lines(&rt, alloc, &statements, &want)
}

// In a transaction too, and its queue stays as it was.
#[test]
fn statements_that_are_not_built(rt: HostRuntime) -> Result<(), Fail> {
    let alloc = rt.alloc();
    let one = queued(alloc, 1)?;
    let two = queued(alloc, 2)?;
    for statement in [
        "SELECT PACKAGE(T) AS P FROM T REPEAT 0 USING SKETCHREFINE;",
        "SELECT PACKAGE(T) AS P FROM T AT VERSION 9 REPEAT 0 USING SKETCHREFINE;",
    ] {
        let statements = format!(in alloc; "{statement}BEGIN; VACUUM 1; {statement}VACUUM 1;")?;
        let want = format!(in alloc; "{NOT_BUILT}{BEGUN}{one}{NOT_BUILT}{two}")?;
        assert_lines(&rt, alloc, &statements, &want)?;
    }
    Ok(())
}

// Rows that are written anew count beside the old ones, until their versions are given up.
#[test]
fn vacuum_makes_room(rt: HostRuntime) -> Result<(), Fail> {
    let alloc = rt.alloc();
    let mut statements = String::from_str(alloc, "INSERT INTO T VALUES (0)")?;
    for _ in 1..100_000 {
        statements.push_str(",(0)")?;
    }
    statements.push_str("; UPDATE T SET v = 0; INSERT INTO T VALUES (1); VACUUM 3;")?;
    statements.push_str("INSERT INTO T VALUES (1);")?;
    let mut want = changed(alloc, 100_000, "inserted", 2)?;
    want.push_str(&changed(alloc, 100_000, "updated", 3)?)?;
    want.push_str("{\"error\":\"limitrows\",\"given\":200001,\"status\":\"refused\"}\n")?;
    want.push_str("{\"low\":3,\"status\":\"vacuumed\",\"version\":4}\n")?;
    want.push_str(&changed(alloc, 1, "inserted", 5)?)?;
    assert_lines(&rt, alloc, &statements, &want)
}
