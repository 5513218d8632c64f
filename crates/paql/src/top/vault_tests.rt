use super::*;
use pq_base::{MemSink, MemSource, Scaled};
use schema_types::Lit;
use sqlite_items::Items;
use std::alloc::AllocError;
use std::test::Fail;
use version_store::{Change, Commit, MemVault};

// A commit of others: a row of this value.
fn row_of(alloc: Global, value: u32) -> Result<Commit, AllocError> {
    let mut row = Items::new(alloc);
    row.push(Lit::Num(Scaled::of(i128::from(value), 0)))?;
    let mut rows = Items::new(alloc);
    rows.push(row)?;
    let table = Items::from_slice(alloc, b"T")?;
    let mut commit = Commit::new(alloc);
    commit.push(Change::Insert { table, rows })?;
    Ok(commit)
}

// Others commit between the statements: the last version shows their rows, a version that is asked for doesn't, and only
// the session's own accepted commits count as its own.
#[test]
fn others_commit_between_statements(rt: HostRuntime) -> Result<(), Fail> {
    let alloc = rt.alloc();
    let mut visits = Vec::new(alloc);
    for value in [0, 7, 0, 9, 11, 12, 1, 0] {
        let visit = match value {
            0 => None,
            value => Some(row_of(alloc, value)?),
        };
        visits.push(visit)?;
    }
    let query = "REPEAT 0 SUCH THAT COUNT(P.*) = 1 MAXIMIZE SUM(P.v);";
    let script = format!(in alloc;
        "CREATE TABLE T (v INT); INSERT INTO T VALUES (5);
        SELECT PACKAGE(T) AS P FROM T {query} SELECT PACKAGE(T) AS P FROM T {query}
        SELECT PACKAGE(T) AS P FROM T AT VERSION 3 {query}
        BEGIN; INSERT INTO T VALUES (13); COMMIT; INSERT INTO S VALUES (1);
        SELECT PACKAGE(T) AS P FROM T {query}"
    )?;
    let want = "{\"status\":\"created\",\"version\":1}
{\"rows\":1,\"status\":\"inserted\",\"version\":3}
{\"objective\":\"7\",\"package\":[[1,1]],\"status\":\"optimal\",\"version\":3}
{\"objective\":\"9\",\"package\":[[3,1]],\"status\":\"optimal\",\"version\":4}
{\"objective\":\"7\",\"package\":[[1,1]],\"status\":\"optimal\",\"version\":3}
{\"status\":\"begun\"}
{\"changes\":1,\"status\":\"queued\"}
{\"changes\":1,\"rows\":1,\"status\":\"committed\",\"version\":7}
{\"change\":1,\"error\":\"notable\",\"name\":\"S\",\"status\":\"refused\"}
{\"objective\":\"13\",\"package\":[[6,1]],\"status\":\"optimal\",\"version\":8}
";
    let mut vault = MemVault::new(alloc, 1, visits)?;
    let bytes = script.as_bytes().to_vec(alloc)?;
    let mut source = MemSource::new(bytes, 4096, Vec::new(alloc));
    let mut sink = MemSink::new(alloc, Vec::new(alloc));
    let end = serve_session(alloc, &mut vault, &mut SoloSolver, &mut source, &mut sink);
    assert_eq!(rt; end, SessionEnd::Done);
    assert_eq!(rt; sink.written(), want.as_bytes());
    assert_eq!(rt; vault.own(), 3);
    assert_eq!(rt; vault.store().version(), 8);
    Ok(())
}

// Others commit between the look of a LOAD at its table and its commit.
#[test]
fn others_commit_within_a_load(rt: HostRuntime) -> Result<(), Fail> {
    let alloc = rt.alloc();
    let mut visits = Vec::new(alloc);
    for value in [0, 0, 7, 8, 0] {
        let visit = match value {
            0 => None,
            value => Some(row_of(alloc, value)?),
        };
        visits.push(visit)?;
    }
    let script = "CREATE TABLE T (v INT);LOAD T BYTES 4;v
5
LOAD T BYTES 1;x
SELECT PACKAGE(T) AS P FROM T REPEAT 0 SUCH THAT COUNT(P.*) = 1 MINIMIZE SUM(P.v);";
    let want = "{\"status\":\"created\",\"version\":1}
{\"rows\":1,\"status\":\"loaded\",\"version\":3}
{\"error\":\"header\",\"status\":\"refused\"}
{\"objective\":\"5\",\"package\":[[2,1]],\"status\":\"optimal\",\"version\":4}
";
    let mut vault = MemVault::new(alloc, 1, visits)?;
    let bytes = script.as_bytes().to_vec(alloc)?;
    let mut source = MemSource::new(bytes, 4096, Vec::new(alloc));
    let mut sink = MemSink::new(alloc, Vec::new(alloc));
    let end = serve_session(alloc, &mut vault, &mut SoloSolver, &mut source, &mut sink);
    assert_eq!(rt; end, SessionEnd::Done);
    assert_eq!(rt; sink.written(), want.as_bytes());
    assert_eq!(rt; vault.own(), 2);
    Ok(())
}
