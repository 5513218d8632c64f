//! What is read of the start of a text, or where the reading stops.
use formal_grammar::{ReadError, Why};
use paql_lexer::{Kind, tokens};
use paql_reader::{
    Source, column, comparison, condition, lit, lits, name, sees, signed, take, whole,
};
use std::alloc::Global;
use std::test::*;

/// What is to be read.
#[derive(Clone, Copy, Debug, PartialEq, Eq)]
enum Part {
    Name,
    Column,
    Lit,
    Lits,
    Condition(u32),
}

/// What the tests see of an answer: how many tokens are left, after what was read or where it stopped.
#[derive(Clone, Copy, Debug, PartialEq, Eq)]
enum Answer {
    Read(usize),
    Syntax(usize),
    Deep(usize),
    Other,
}

fn left_behind(alloc: Global, part: Part, source: Source<'_>) -> Result<usize, ReadError> {
    let rest = match part {
        Part::Name => name(alloc, source)?.1,
        Part::Column => column(alloc, source)?.1,
        Part::Lit => lit(alloc, source)?.1,
        Part::Lits => lits(alloc, 0, source)?.1,
        Part::Condition(depth) => condition(alloc, depth, source)?.1,
    };
    Ok(rest.tokens.len())
}

fn answer_of(alloc: Global, part: Part, text: &[u8]) -> Answer {
    let Ok(tokens) = tokens(alloc, text) else {
        return Answer::Other;
    };
    let source = Source {
        text,
        tokens: tokens.as_slice(),
    };
    match left_behind(alloc, part, source) {
        Ok(left) => Answer::Read(left),
        Err(ReadError::Stopped(Why::Syntax, left)) => Answer::Syntax(left),
        Err(ReadError::Stopped(Why::Deep, left)) => Answer::Deep(left),
        Err(ReadError::Memory) => Answer::Other,
    }
}

#[test]
fn answers(rt: HostRuntime) {
    let rows: [(Part, &[u8], Answer); 20] = [
        (Part::Name, b"a b", Answer::Read(1)),
        (Part::Name, b"\"where\"", Answer::Read(0)),
        (Part::Name, b"where a", Answer::Syntax(2)),
        (Part::Column, b"a.b.c", Answer::Read(2)),
        (Part::Column, b"a.1", Answer::Syntax(1)),
        (Part::Lit, b"'it''s' 1", Answer::Read(1)),
        (Part::Lit, b"-2.50", Answer::Read(0)),
        (Part::Lit, b"- 'x'", Answer::Syntax(1)),
        (Part::Lit, b"", Answer::Syntax(0)),
        (Part::Lits, b"1, 'x', -3)", Answer::Read(1)),
        (Part::Lits, b"1,)", Answer::Syntax(1)),
        (
            Part::Condition(0),
            b"a = b.c AND c IN (1, 2) OR d",
            Answer::Syntax(0),
        ),
        (
            Part::Condition(0),
            b"a <> 'x' OR b BETWEEN 1 AND 2 AND c > -1 d",
            Answer::Read(1),
        ),
        (Part::Condition(0), b"a = 1 OR NOT b = 1", Answer::Deep(4)),
        (Part::Condition(0), b"a = 1 AND AND", Answer::Syntax(1)),
        (
            Part::Condition(1),
            b"(a = 1) AND NOT b = 2",
            Answer::Read(0),
        ),
        (Part::Condition(1), b"(NOT a = 1)", Answer::Deep(5)),
        (Part::Condition(1), b"(a = 1 OR b = 1", Answer::Syntax(0)),
        (
            Part::Condition(2),
            b"NOT (a = 1 OR b <= 2) AND c IN ('x')",
            Answer::Read(0),
        ),
        (Part::Condition(2), b"a LIKE 'x'", Answer::Syntax(2)),
    ];
    for (part, text, want) in rows {
        assert_eq!(rt; answer_of(rt.alloc(), part, text), want);
    }
}

#[test]
fn values(rt: HostRuntime) -> Result<(), Fail> {
    let text = b"<= -2.50 007";
    let tokens = tokens(rt.alloc(), text).ok().ok_or("the text has tokens")?;
    let source = Source {
        text,
        tokens: tokens.as_slice(),
    };
    assert!(rt; sees(source, Kind::LessOrEqual));
    let (_, rest) = comparison(source).ok().ok_or("a comparison stands first")?;
    let (value, rest) = signed(rest).ok().ok_or("a number stands behind it")?;
    assert_eq!(rt; (value.mant, value.scale), (-25, 1));
    let (count, rest) = whole(rest).ok().ok_or("a whole number stands last")?;
    assert_eq!(rt; count, 7);
    assert!(rt; !sees(rest, Kind::Number));
    assert!(rt; take(rest, Kind::Number).is_err());
    Ok(())
}
