//! A worked certificate, and what is said of changes of it.
use cert_text::{CertFault, read_cert, texts_are_apart, wholes_are_read, write_cert};
use std::alloc::{AllocError, Global};
use std::test::*;

/// That no point keeps 2(x + y + z) = 3 with x, y and z at most 1.
const WORKED: &[u8] =
    b"PAQLCERT 1\nvars 3\nrows 2\nclaim infeasible\nS 1 0 0 0 0\nS 2 0 0 0 0\nC 0 0 1\nS 3 0 0 0 0\nC 0 0 1\nC 0 1 0\nS 2 0 0 0 0\nS 3 0 0 0 0\nC 0 0 1\nC 0 1 0\nC 0 1 0\nend\n";

/// The fault of a text, and its line.
fn told(alloc: Global, text: &[u8]) -> (&'static str, u64) {
    match read_cert(alloc, text) {
        Ok(_) => ("ok", 0),
        Err(CertFault::BadHeader) => ("header", 0),
        Err(CertFault::BadLine(line)) => ("line", line),
        Err(CertFault::Truncated) => ("truncated", 0),
        Err(CertFault::Trailing(line)) => ("trailing", line),
        Err(CertFault::Memory(_)) => ("memory", 0),
    }
}

/// A text read and written again, and nothing if it is none.
fn again(alloc: Global, text: &[u8]) -> Result<Vec<u8>, AllocError> {
    match read_cert(alloc, text) {
        Ok(cert) => write_cert(alloc, &cert),
        Err(_) => Ok(Vec::new(alloc)),
    }
}

#[test]
fn read_and_written(rt: HostRuntime) -> Result<(), Fail> {
    assert!(rt; again(rt.alloc(), WORKED)?.as_slice() == WORKED);
    let greatest: &[u8] =
        b"PAQLCERT 1\nvars 4294967295\nrows 1\nclaim undecided -1152921504606846976\npackage 2\n999999999999 1000000000000\n1000000000000 1\nS 4294967295 1000000000000 1073741824 1073741824\nO\nC 0 1073741824\nend\n";
    assert!(rt; again(rt.alloc(), greatest)?.as_slice() == greatest);
    texts_are_apart();
    wholes_are_read();
    Ok(())
}

#[test]
fn faults(rt: HostRuntime) -> Result<(), Fail> {
    let cases: [(&[u8], &str, u64); 22] = [
        (WORKED, "ok", 0),
        (b"", "truncated", 0),
        (b"PAQLCERT", "truncated", 0),
        (b"PAQLCERT 1\nvars 4294967295", "truncated", 0),
        (
            b"PAQLCERT 1\nvars 3\nrows 0\nclaim optimal -",
            "truncated",
            0,
        ),
        (
            b"PAQLCERT 1\nvars 3\nrows 0\nclaim infeasible\nO\nend",
            "truncated",
            0,
        ),
        (
            b"PAQLCERT 1\nvars 3\nrows 0\nclaim infeasible\nO\nend\n",
            "ok",
            0,
        ),
        (
            b"PAQLCERT 1\nvars 3\nrows 0\nclaim infeasible\nO\nend\n\n",
            "trailing",
            7,
        ),
        (b"PAQLCERT 1 \n", "header", 0),
        (b"paql", "header", 0),
        (b"PAQLCERT 1\nvars 4294967296", "line", 2),
        (b"PAQLCERT 1\nvars 03\n", "line", 2),
        (b"PAQLCERT 1\nvars  3\n", "line", 2),
        (b"PAQLCERT 1\nvars 3\nvars 3\n", "line", 3),
        (b"PAQLCERT 1\nvars 3\nrows 65", "line", 3),
        (b"PAQLCERT 1\nvars 3\nrows 0\nclaim optimal -0", "line", 4),
        (
            b"PAQLCERT 1\nvars 3\nrows 0\nclaim optimal 0\npackage 2\n1000000000000 1\n",
            "line",
            6,
        ),
        (
            b"PAQLCERT 1\nvars 3\nrows 0\nclaim optimal 0\npackage 2\n7 1\n7 1\n",
            "line",
            7,
        ),
        (
            b"PAQLCERT 1\nvars 3\nrows 0\nclaim optimal 0\npackage 1\n7 0\n",
            "line",
            6,
        ),
        (
            b"PAQLCERT 1\nvars 3\nrows 0\nclaim optimal 0\npackage 1\nO\n",
            "line",
            6,
        ),
        (
            b"PAQLCERT 1\nvars 3\nrows 0\nclaim infeasible\nC 0 1\n",
            "line",
            5,
        ),
        (
            b"PAQLCERT 1\nvars 3\nrows 0\nclaim infeasible\nC 0\nO",
            "line",
            6,
        ),
    ];
    for (text, fault, line) in cases {
        assert!(rt; told(rt.alloc(), text) == (fault, line));
    }
    Ok(())
}
