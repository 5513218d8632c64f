use super::*;
use pq_base::{MemSink, MemSource};
use std::process::Abort;
use std::test::Fail;

// The session is done, and these are its lines.
fn assert_lines(rt: &impl Abort, alloc: Global, script: &str, want: &str) -> Result<(), Fail> {
    let bytes = script.as_bytes().to_vec(alloc)?;
    let mut source = MemSource::new(bytes, 4096, Vec::new(alloc));
    let mut sink = MemSink::new(alloc, Vec::new(alloc));
    let mut vault = SoloVault {
        store: VersionStore::new(alloc)?,
    };
    let end = serve_session(alloc, &mut vault, &mut SoloSolver, &mut source, &mut sink);
    let start = script.get(..60).unwrap_or(script);
    assert_eq!(rt; end, SessionEnd::Done, "{start}");
    assert_eq!(rt; sink.written(), want.as_bytes(), "{start}");
    Ok(())
}

// Rows of a body, of which one is found; then a record without a text for each column.
#[test]
fn rows_are_loaded(rt: HostRuntime) -> Result<(), Fail> {
    let script = r#"CREATE TABLE T (v INT, s TEXT);LOAD T BYTES 16;v,s
5,"a,b"
6,x
LOAD T BYTES 6;v,s
5
SELECT PACKAGE(T) AS P FROM T REPEAT 0 WHERE s = 'a,b' SUCH THAT COUNT(P.*) = 1 MAXIMIZE SUM(P.v);
LOAD T BYTES 3;v,sLOAD T BYTES 10;v,s
7,y
8,"#;
    let want = r#"{"status":"created","version":1}
{"rows":2,"status":"loaded","version":2}
{"error":"badrecord","record":1,"status":"refused"}
{"objective":"5","package":[[1,1]],"status":"optimal","version":2}
{"rows":0,"status":"loaded","version":3}
{"rows":2,"status":"loaded","version":4}
"#;
    assert_lines(&rt, rt.alloc(), script, want)
}

// Each refusal of a body, the first in order; none of them makes a version.
#[test]
fn bodies_are_refused(rt: HostRuntime) -> Result<(), Fail> {
    let script =
        r#"CREATE TABLE T (v DEC(1), s TEXT);LOAD S BYTES 1;xLOAD T BYTES 0;LOAD T BYTES 4;s,v
LOAD T BYTES 15;v,s
0.5,x
9,y,zLOAD T BYTES 12;v,s
x,y,z
7,LOAD T BYTES 12;v,s
0.25,x
7INSERT INTO T VALUES (1, 'a');"#;
    let want = r#"{"status":"created","version":1}
{"error":"notable","name":"S","status":"refused"}
{"error":"header","status":"refused"}
{"error":"header","status":"refused"}
{"error":"badrecord","record":2,"status":"refused"}
{"error":"badrecord","record":1,"status":"refused"}
{"column":"v","error":"badcell","record":1,"status":"refused"}
{"rows":1,"status":"inserted","version":2}
"#;
    assert_lines(&rt, rt.alloc(), script, want)
}

// A transaction takes no LOAD, whatever its table and its body, and keeps its queue.
#[test]
fn no_load_in_a_transaction(rt: HostRuntime) -> Result<(), Fail> {
    let script = "CREATE TABLE T (v INT);BEGIN;INSERT INTO T VALUES (1);LOAD T BYTES 4;v
5
LOAD S BYTES 1;xCOMMIT;LOAD T BYTES 4;v
5
";
    let want = r#"{"status":"created","version":1}
{"status":"begun"}
{"changes":1,"status":"queued"}
{"error":"intransaction","status":"refused"}
{"error":"intransaction","status":"refused"}
{"changes":1,"rows":1,"status":"committed","version":2}
{"rows":1,"status":"loaded","version":3}
"#;
    assert_lines(&rt, rt.alloc(), script, want)
}

// More rows than can be kept: the commit is refused. A bad record after them decides before it.
#[test]
fn too_many_rows_are_loaded(rt: HostRuntime) -> Result<(), Fail> {
    let alloc = rt.alloc();
    let mut body = String::from_str(alloc, "v\n")?;
    for _ in 0..200_001 {
        body.push_str("1\n")?;
    }
    let bytes = body.len();
    let more = bytes + 2;
    let script = format!(in alloc;
        "CREATE TABLE T (v INT);LOAD T BYTES {bytes};{body}LOAD T BYTES {more};{body}x\n"
    )?;
    let want = r#"{"status":"created","version":1}
{"error":"limitrows","given":200001,"status":"refused"}
{"column":"v","error":"badcell","record":200002,"status":"refused"}
"#;
    assert_lines(&rt, alloc, script.as_str(), want)
}

// PARTITION makes a version, in a transaction as well. Then each of its refusals.
#[test]
fn tables_are_partitioned(rt: HostRuntime) -> Result<(), Fail> {
    let script =
        "CREATE TABLE T (a INT, b INT, c INT, d INT, e INT, f INT, g INT, h INT, i DEC(2), s TEXT);
PARTITION T ON (a, i) SIZE 2 RADIUS 0.5; BEGIN; PARTITION T ON (b) SIZE 200000 RADIUS 0; COMMIT;
PARTITION S ON (a) SIZE 2 RADIUS 3;
PARTITION T ON (a, w) SIZE 0 RADIUS 3;
PARTITION T ON (s, a, a) SIZE 2 RADIUS 3;
PARTITION T ON (b, a, b) SIZE 2 RADIUS 3;
PARTITION T ON (a, b, c, d, e, f, g, h, i) SIZE 0 RADIUS 3;
PARTITION T ON (a) SIZE 0 RADIUS 0.0000001;
PARTITION T ON (a) SIZE 200001 RADIUS 3;
PARTITION T ON (a) SIZE 1 RADIUS 0.0000001;
PARTITION T ON (a) SIZE 1 RADIUS 1000000000001;
VACUUM 3;";
    let want = r#"{"status":"created","version":1}
{"status":"partitioned","version":2}
{"status":"begun"}
{"changes":1,"status":"queued"}
{"changes":1,"rows":0,"status":"committed","version":3}
{"change":1,"error":"notable","name":"S","status":"refused"}
{"change":1,"error":"nocolumn","name":"w","status":"refused"}
{"change":1,"error":"wrongkind","name":"s","status":"refused"}
{"change":1,"error":"duplicatecolumn","name":"b","status":"refused"}
{"change":1,"error":"limitpartition","given":9,"status":"refused"}
{"change":1,"error":"limitpartition","given":0,"status":"refused"}
{"change":1,"error":"limitpartition","given":200001,"status":"refused"}
{"change":1,"error":"toofine","status":"refused"}
{"change":1,"error":"literalrange","status":"refused"}
{"low":3,"status":"vacuumed","version":4}
"#;
    assert_lines(&rt, rt.alloc(), script, want)
}
