//! Names and packages in replies, and what comes after a line.
use package_judge::Package;
use session_proto::answers::{certificate, found};
use session_proto::refusals::BindFault;
use session_proto::{Refusal, refusal_reply, reply_bytes};
use std::test::*;

#[test]
fn names_are_texts_of_json(rt: HostRuntime) -> Result<(), Fail> {
    let alloc = rt.alloc();
    // Quotes, backslashes, control bytes and letters beyond ASCII.
    let cases = [
        (
            "a\"b\\c",
            "{\"error\":\"notable\",\"name\":\"a\\\"b\\\\c\",\"status\":\"refused\"}\n",
        ),
        (
            "\u{0}\u{1f}\n\t\r\u{8}\u{c}",
            "{\"error\":\"notable\",\"name\":\"\\u0000\\u001f\\n\\t\\r\\b\\f\",\"status\":\"refused\"}\n",
        ),
        (
            "caf\u{e9} \u{1f34e}/\u{7f}",
            "{\"error\":\"notable\",\"name\":\"caf\u{e9} \u{1f34e}/\u{7f}\",\"status\":\"refused\"}\n",
        ),
    ];
    for (name, want) in cases {
        let name = String::from_str(alloc, name)?;
        let reply = refusal_reply(alloc, Refusal::Bind(None, BindFault::NoTable(name)))?;
        let bytes = reply_bytes(alloc, &reply)?;
        assert_eq!(rt; bytes.as_slice(), want.as_bytes());
    }
    Ok(())
}

#[test]
fn packages_may_be_empty(rt: HostRuntime) -> Result<(), Fail> {
    let alloc = rt.alloc();
    let Some(package) = Package::new(Vec::new(alloc)) else {
        return Err(Fail::new("no package"));
    };
    let objective = Some(String::from_str(alloc, "-10.5")?);
    let reply = found(alloc, objective, package, u64::MAX)?;
    let want =
        "{\"objective\":\"-10.5\",\"package\":[],\"status\":\"found\",\"version\":18446744073709551615}\n";
    assert!(rt; reply.tail().is_empty());
    let bytes = reply_bytes(alloc, &reply)?;
    assert_eq!(rt; bytes.as_slice(), want.as_bytes());
    Ok(())
}

#[test]
fn certificates_are_tails(rt: HostRuntime) -> Result<(), Fail> {
    let reply = certificate(rt.alloc(), b"a\n\"".to_vec(rt.alloc())?)?;
    assert_eq!(rt; reply.tail(), b"a\n\"".as_slice());
    Ok(())
}
