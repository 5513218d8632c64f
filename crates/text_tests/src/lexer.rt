//! The tokens of texts, or where their faults are.
use paql_lexer::{Kind, LexFault, Token, no_cut, one_cut, tokens};
use std::test::Fail;

/// The kinds and places of a text's tokens, or where its fault is.
type Want = (
    &'static [u8],
    Result<&'static [(Kind, usize, usize)], usize>,
);

#[test]
fn cuts_tokens(rt: HostRuntime) -> Result<(), Fail> {
    let cases: [Want; 18] = [
        (b"", Ok(&[])),
        (b" \t\r\n-- only a comment", Ok(&[])),
        (b"Select", Ok(&[(Kind::Select, 0, 6)])),
        (b"selects", Ok(&[(Kind::Name, 0, 7)])),
        (b"a--b\nc", Ok(&[(Kind::Name, 0, 1), (Kind::Name, 5, 6)])),
        (b"\"from\"", Ok(&[(Kind::QuotedName, 0, 6)])),
        (b"1.", Ok(&[(Kind::Number, 0, 1), (Kind::Dot, 1, 2)])),
        (
            b"1.25 .5",
            Ok(&[
                (Kind::Number, 0, 4),
                (Kind::Dot, 5, 6),
                (Kind::Number, 6, 7),
            ]),
        ),
        (b"'a''b'", Ok(&[(Kind::Text, 0, 6)])),
        (
            b"<=<>!=-->",
            Ok(&[
                (Kind::LessOrEqual, 0, 2),
                (Kind::NotEqual, 2, 4),
                (Kind::NotEqual, 4, 6),
            ]),
        ),
        (b"< =", Ok(&[(Kind::Less, 0, 1), (Kind::Equal, 2, 3)])),
        (b"x 'a''", Err(2)),
        (b"'\xff'", Err(0)),
        (b"\"1a\"", Err(0)),
        (b"a ! b", Err(2)),
        (b"a;", Err(1)),
        (b"1234567890123456789012345678901", Err(0)),
        (b"1.234567890123456789012345678901", Err(0)),
    ];
    for (text, want) in cases {
        let found = tokens(rt.alloc(), text);
        match want {
            Ok(all) => {
                let found = found?;
                assert_eq!(rt; found.len(), all.len());
                for (token, (kind, start, end)) in found.iter().zip(all) {
                    assert_eq!(rt;
                        *token,
                        Token {
                            kind: *kind,
                            start: *start,
                            end: *end
                        }
                    );
                }
            }
            Err(at) => assert!(rt; matches!(found, Err(LexFault::Lex(place)) if place == at)),
        }
    }
    Ok(())
}

#[test]
fn laws_can_be_called(_rt: HostRuntime) {
    one_cut();
    no_cut();
}
