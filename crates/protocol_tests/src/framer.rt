//! The frames of bytes that come in pieces.
ghost use Rattle.std.specs.Prelude.{◌<◌};

use session_proto::{Body, Framed, Framer, MAX_BODY, MAX_FRAME};
use std::alloc::{AllocError, Global};
use std::test::*;

// The number after `LOAD `, as the tests' stand-in for a parser.
fn body_of(text: &[u8]) -> Option<u64> {
    let digits = text.strip_prefix(b"LOAD ".as_slice())?;
    std::str::from_utf8(digits).ok()?.parse::<u64>().ok()
}

// Feeds the bytes in pieces of one size and writes down what comes: a statement in brackets, a body in
// braces, the number of bytes thrown away in double braces, and how it ends.
fn told(alloc: Global, bytes: &[u8], size: usize) -> Result<Vec<u8>, AllocError>
    requires { 0 < size }
{
    let mut framer = Framer::new(alloc);
    let mut told = Vec::new(alloc);
    for piece in bytes.chunks(size) {
        framer.feed(piece)?;
        if tell_all(alloc, &mut framer, &mut told)? {
            told.extend_from_slice(b" long")?;
            return Ok(told);
        }
    }
    told.extend_from_slice(if framer.is_clean() {
        b" clean"
    } else {
        b" open!"
    })?;
    Ok(told)
}

// Whether the frame is too long.
fn tell_all(alloc: Global, framer: &mut Framer, told: &mut Vec<u8>) -> Result<bool, AllocError> {
    for _ in 0..1000 {
        match framer.next(alloc)? {
            Framed::Statement(text) => {
                if let Some(bytes) = body_of(&text) {
                    framer.want_body(bytes);
                }
                told.push(b'[')?;
                told.extend_from_slice(&text)?;
                told.push(b']')?;
            }
            Framed::Body(body) => tell_body(alloc, &body, told)?,
            Framed::Need => return Ok(false),
            Framed::TooLong => return Ok(true),
        }
    }
    Ok(false)
}

fn tell_body(alloc: Global, body: &Body, told: &mut Vec<u8>) -> Result<(), AllocError> {
    match body {
        Body::None => told.extend_from_slice(b"none")?,
        Body::Bytes(bytes) => {
            told.push(b'{')?;
            told.extend_from_slice(bytes)?;
            told.push(b'}')?;
        }
        Body::Skipped(count) => {
            let count = format!(in alloc; "{{{{{count}}}}}")?;
            told.extend_from_slice(count.as_bytes())?;
        }
    }
    Ok(())
}

#[test]
fn any_pieces_give_the_same(rt: HostRuntime) -> Result<(), Fail> {
    let cases: [(&[u8], &[u8]); 36] = [
        (b"", b" clean"),
        (b" \t\r\n", b" clean"),
        (b"a;", b"[a] clean"),
        (b" a ;b;\n", b"[ a ][b] clean"),
        (b";;a;;", b"[a] clean"),
        (b" ; -- c;\n;a;", b"[a] clean"),
        (b"a", b" open!"),
        (b"a;b", b"[a] open!"),
        // Texts hide a `;`, and a doubled quote goes on.
        (b"'a;b';", b"['a;b'] clean"),
        (b"'it''s;';c;", b"['it''s;'][c] clean"),
        (b"'a;", b" open!"),
        (b"'a\n;", b" open!"),
        (b"'--';a;", b"['--'][a] clean"),
        (b"'-'-- ;\n;", b"['-'-- ;\n] clean"),
        // Double quotes hide nothing.
        (b"\"a;b\";", b"[\"a][b\"] clean"),
        (b"\"a'b\";", b" open!"),
        // Comments go to the next line feed, or to the end.
        (b"--a;b\nc;", b"[--a;b\nc] clean"),
        (b"a--b;c\n;d;", b"[a--b;c\n][d] clean"),
        (b"-- a", b" clean"),
        (b"a; -- b", b"[a] clean"),
        (b"a; -- b\n", b"[a] clean"),
        (b"a; -- b\nc", b"[a] open!"),
        (b"-- it's\n;a;", b"[a] clean"),
        (b"a -", b" open!"),
        (b"-", b" open!"),
        (b"-;", b"[-] clean"),
        (b"-'-';", b"[-'-'] clean"),
        (b"- -;\n", b"[- -] clean"),
        (b"---;\n;a;", b"[a] clean"),
        (b"-\n-;", b"[-\n-] clean"),
        (b"--\r;a;", b" clean"),
        // Bodies are taken whatever is in them.
        (b"LOAD 3;';-a;", b"[LOAD 3]{';-}[a] clean"),
        (b"LOAD 0;a;", b"[LOAD 0]{}[a] clean"),
        (b"LOAD 4;abc", b"[LOAD 4] open!"),
        (b"LOAD 1; LOAD 2;;; ;x", b"[LOAD 1]{ }[LOAD 2]{;;} open!"),
        (b"LOAD 2;\n\n -- \n", b"[LOAD 2]{\n\n} clean"),
    ];
    for (bytes, want) in cases {
        for size in 1..20 {
            let told = told(rt.alloc(), bytes, size)?;
            assert_eq!(rt; told.as_slice(), want, "{bytes:?} in pieces of {size}");
        }
    }
    Ok(())
}

#[test]
fn long_frames(rt: HostRuntime) -> Result<(), Fail> {
    let cases: [(u8, usize, bool); 6] = [
        (b' ', MAX_FRAME, true),
        (b' ', MAX_FRAME - 1, false),
        (b'a', MAX_FRAME, true),
        (b'a', MAX_FRAME - 1, false),
        (b'\'', MAX_FRAME, true),
        (b'\'', MAX_FRAME - 2, false),
    ];
    for (byte, count, is_long) in cases {
        for size in [4096, MAX_FRAME * 2] {
            let mut bytes = vec![in rt.alloc(); byte; count]?;
            bytes.extend_from_slice(b";z")?;
            let told = told(rt.alloc(), &bytes, size)?;
            assert_eq!(rt; told.ends_with(b" long"), is_long, "{count} of {byte}");
            assert_eq!(rt; told.ends_with(b" open!"), !is_long, "{count} of {byte}");
        }
    }
    Ok(())
}

#[test]
fn large_bodies(rt: HostRuntime) -> Result<(), Fail> {
    let cases: [(&[u8], usize, &[u8]); 2] = [
        (
            b"LOAD 16777217;",
            MAX_BODY as usize + 1,
            b"[LOAD 16777217]{{16777217}}[z] clean",
        ),
        (
            b"LOAD 20000000;",
            20_000_000,
            b"[LOAD 20000000]{{20000000}}[z] clean",
        ),
    ];
    for (load, count, want) in cases {
        for size in [4096, 1 << 25] {
            let mut bytes = Vec::from_slice(rt.alloc(), load)?;
            bytes.extend_from_slice(&vec![in rt.alloc(); b';'; count]?)?;
            bytes.extend_from_slice(b"z;")?;
            let told = told(rt.alloc(), &bytes, size)?;
            assert_eq!(rt; told.as_slice(), want, "{count} bytes");
        }
    }
    let mut bytes = Vec::from_slice(rt.alloc(), b"LOAD 16777216;")?;
    bytes.extend_from_slice(&vec![in rt.alloc(); b';'; MAX_BODY as usize]?)?;
    bytes.extend_from_slice(b"z;")?;
    let told = told(rt.alloc(), &bytes, 4096)?;
    assert_eq!(rt; told.len(), bytes.len() + 10);
    assert!(rt; told.ends_with(b";}[z] clean"));
    Ok(())
}
