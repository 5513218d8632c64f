use crate::laws::{composes, judges_whole, one_value, reads_all};
use crate::sample::{Expr, ParseFault, Sign, Token, one_tree, parse};
use crate::stop::ReadError;
use sqlite_items::Items;
use std::alloc::{AllocError, AllocFailed, Global};
use std::test::*;

const ONE: Token = Token::Number(1);

const OPEN: Token = Token::Sign(Sign::Open);

const CLOSE: Token = Token::Sign(Sign::Close);

const PLUS: Token = Token::Sign(Sign::Plus);

const BANG: Token = Token::Sign(Sign::Bang);

/// What the tests see of an answer: of a sum the number of its items and its mark.
#[derive(Clone, Copy, Debug, PartialEq, Eq)]
enum Answer {
    Sum(usize, bool),
    Number,
    Syntax(usize),
    Deep(usize),
    Memory,
}

fn answer_of(alloc: Global, tokens: &[Token]) -> Answer {
    match parse(alloc, tokens) {
        Ok(Expr::Sum(items, marked)) => Answer::Sum(items.len(), marked),
        Ok(Expr::Number(_)) => Answer::Number,
        Err(ParseFault::Syntax(at)) => Answer::Syntax(at),
        Err(ParseFault::Deep(at)) => Answer::Deep(at),
        Err(ParseFault::Memory) => Answer::Memory,
    }
}

#[test]
fn answers(rt: HostRuntime) {
    let rows: [(&[Token], Answer); 13] = [
        (&[ONE], Answer::Sum(1, false)),
        (&[ONE, PLUS, ONE, BANG], Answer::Sum(2, true)),
        (
            &[OPEN, ONE, PLUS, ONE, CLOSE, PLUS, ONE],
            Answer::Sum(2, false),
        ),
        (&[], Answer::Syntax(0)),
        (&[PLUS], Answer::Syntax(0)),
        (&[ONE, PLUS], Answer::Syntax(2)),
        (&[ONE, ONE], Answer::Syntax(1)),
        (&[ONE, BANG, PLUS, ONE], Answer::Syntax(2)),
        (&[OPEN, ONE], Answer::Syntax(2)),
        (
            &[OPEN, OPEN, OPEN, OPEN, ONE, CLOSE, CLOSE, CLOSE, CLOSE],
            Answer::Sum(1, false),
        ),
        (&[OPEN, OPEN, OPEN, OPEN, OPEN, ONE], Answer::Deep(4)),
        (
            &[ONE, PLUS, OPEN, OPEN, OPEN, OPEN, OPEN, BANG],
            Answer::Deep(6),
        ),
        (&[ONE, ONE, OPEN, OPEN, OPEN, OPEN, OPEN], Answer::Syntax(1)),
    ];
    for (tokens, want) in rows {
        assert_eq!(rt; answer_of(rt.alloc(), tokens), want);
    }
}

fn number_at(items: &Items<Expr>, at: usize) -> Option<u64> {
    match items.get(at) {
        Some(Expr::Number(n)) => Some(*n),
        _ => None,
    }
}

#[test]
fn brackets_are_gone(rt: HostRuntime) -> Result<(), Fail> {
    let tokens = [OPEN, Token::Number(7), BANG, CLOSE, PLUS, Token::Number(9)];
    let sum = parse(rt.alloc(), &tokens)
        .ok()
        .ok_or("the tokens spell a sum")?;
    let Expr::Sum(items, _) = sum else {
        return Err("a sum is no number".into())
    };
    assert_eq!(rt; number_at(&items, 1), Some(9));
    let Some(Expr::Sum(inner, marked)) = items.get(0) else {
        return Err("the first item is a sum".into())
    };
    assert!(rt; *marked);
    assert_eq!(rt; number_at(inner, 0), Some(7));
    Ok(())
}

#[test]
fn laws_and_errors(rt: HostRuntime) {
    one_tree();
    one_value::<u8, u64>();
    judges_whole::<u8, u64>();
    reads_all::<u8, u64>();
    composes::<u8, u64, u8>();
    assert_eq!(rt; ReadError::from(AllocError), ReadError::Memory);
}
