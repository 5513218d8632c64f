//! A small grammar that is read with the theory from end to end: sums in brackets.
//!
//! ```text
//! sum  = item { "+" item } [ "!" ]
//! item = number | "(" sum ")"
//! ```
ghost use Rattle.std.specs.Prelude.{◌≡◌, ℕ, List, IfOk, MatchResult};
ghost use Rattle.formal_grammar.specs.Parse as parse;
ghost use Rattle.formal_grammar.specs.Parse.{Gives, accept, this, separated, all_of};
ghost use Rattle.formal_grammar.specs.Fault.{IsOnly, IsSyntaxFault, IsDeepFault};
ghost use Rattle.formal_grammar.specs.SampleGrammar as grammar;
ghost use Rattle.formal_grammar.specs.SampleReading as read;

use crate::stop::{ReadError, Why};
use sqlite_items::Items;
use std::alloc::Global;

/// The signs of the sample's texts.
#[derive(Clone, Copy, Debug, PartialEq, Eq)]
pub enum Sign {
    Open,
    Close,
    Plus,
    Bang,
}

/// A token of the sample's texts.
#[derive(Clone, Copy, Debug, PartialEq, Eq)]
pub enum Token {
    Number(u64),
    Sign(Sign),
}

/// A number, or a sum. Brackets are gone.
#[derive(Drop)]
pub enum Expr {
    Number(u64),
    /// The items, of which there is at least one, and whether the sum ends with `!`.
    Sum(Items<Expr>, bool),
}

/// Why tokens are refused. The number is a place among them, or their count where the end is
/// refused.
#[derive(Clone, Copy, Debug, PartialEq, Eq)]
pub enum ParseFault {
    Memory,
    Syntax(usize),
    Deep(usize),
}

/// How many brackets may be open at one place.
pub const MAX_DEPTH: u32 = 4;

/// The sum that the tokens spell.
pub fn parse(alloc: Global, tokens: &[Token]) -> Result<Expr, ParseFault>
    // What is found is what the tokens spell, and they spell nothing else.
    ensures found { IfOk result (λ t. IsOnly (λ m. grammar.sum m) 4 tokens.now t) }
    // What is spelled is found, unless memory runs out.
    ensures complete { (t : _) → grammar.sum 4 tokens.now t
        → MatchResult result (λ u. u ≡ t) (λ e. e ≡ ParseFault.Memory) }
    // The tokens before this place begin a sum, and with the token there they begin none, however
    // deep.
    ensures syntax { (at : ℕ) → result ≡ Err (ParseFault.Syntax at)
        → IsSyntaxFault (λ m. grammar.sum m) 4 tokens.now at }
    // A bracket opens at this place, and with it the tokens begin only sums with more open than are
    // allowed.
    ensures deep { (at : ℕ) → result ≡ Err (ParseFault.Deep at)
        → IsDeepFault grammar.opens (λ m. grammar.sum m) 4 tokens.now at }
{
    match whole(alloc, tokens) {
        Ok(expr) => Ok(expr),
        Err(ReadError::Memory) => Err(ParseFault::Memory),
        Err(ReadError::Stopped(Why::Syntax, left)) => Err(ParseFault::Syntax(tokens.len() - left)),
        Err(ReadError::Stopped(Why::Deep, left)) => Err(ParseFault::Deep(tokens.len() - left)),
    }
}

/// A law: tokens spell one sum at most, whatever the depth.
pub fn one_tree()
    ensures { (m n : ℕ) (tokens : List Token) (t u : _) → grammar.sum m tokens t
        → grammar.sum n tokens u → t ≡ u }
{}

fn whole(alloc: Global, tokens: &[Token]) -> Result<Expr, ReadError>
    ensures { Gives (λ x. x) result (all_of (read.sum (read.item MAX_DEPTH)) tokens.now) }
{
    let (expr, rest) = sum(alloc, MAX_DEPTH, tokens)?;
    if !rest.is_empty() {
        return Err(ReadError::Stopped(Why::Syntax, rest.len()));
    }
    Ok(expr)
}

fn sees(tokens: &[Token], sign: Sign) -> bool
    ensures { result ≡ parse.sees (read.is sign) tokens.now }
{
    match tokens {
        [Token::Sign(first), ..] => *first == sign,
        _ => false,
    }
}

fn take(tokens: &[Token], sign: Sign) -> Result<&[Token], ReadError>
    ensures { Gives (λ x. (tt, x.now)) result (accept (this (read.is sign)) tokens.now) }
{
    match tokens {
        [Token::Sign(first), rest @ ..] if *first == sign => Ok(rest),
        _ => Err(ReadError::Stopped(Why::Syntax, tokens.len())),
    }
}

#[tactic(auto, unfolding(crate::specs::SampleReading::number))]
fn number(tokens: &[Token]) -> Result<(Expr, &[Token]), ReadError>
    ensures { Gives (λ x. (x.0, x.1.now)) result (read.number tokens.now) }
{
    match tokens {
        [Token::Number(n), rest @ ..] => Ok((Expr::Number(*n), rest)),
        _ => Err(ReadError::Stopped(Why::Syntax, tokens.len())),
    }
}

#[tactic(auto, unfolding(crate::specs::SampleReading::mark))]
fn mark(tokens: &[Token]) -> Result<(bool, &[Token]), ReadError>
    ensures { Gives (λ x. (x.0, x.1.now)) result (read.mark tokens.now) }
{
    if !sees(tokens, Sign::Bang) {
        return Ok((false, tokens));
    }
    let rest = take(tokens, Sign::Bang)?;
    Ok((true, rest))
}

#[cycle(sums)]
#[tactic(auto, unfolding(crate::specs::SampleReading::sum))]
fn sum(alloc: Global, depth: u32, tokens: &[Token]) -> Result<(Expr, &[Token]), ReadError>
    ensures { Gives (λ x. (x.0, x.1.now)) result (read.sum (read.item depth) tokens.now) }
{
    let (items, rest) = items(alloc, depth, tokens)?;
    let (marked, rest) = mark(rest)?;
    Ok((Expr::Sum(items, marked), rest))
}

#[cycle(sums)]
fn items(alloc: Global, depth: u32, tokens: &[Token]) -> Result<(Items<Expr>, &[Token]), ReadError>
    ensures { Gives (λ x. (x.0, x.1.now)) result
        (separated (read.is Sign.Plus) (read.item depth) tokens.now) }
{
    let (first, mut rest) = item(alloc, depth, tokens)?;
    let mut items = Items::new(alloc);
    items.push(first)?;
    'parts: while sees(rest, Sign::Plus) {
        let (next, after) = next_item(alloc, depth, rest)?;
        items.push(next)?;
        rest = after;
    }
    Ok((items, rest))
}

#[cycle(sums)]
fn next_item(alloc: Global, depth: u32, tokens: &[Token]) -> Result<(Expr, &[Token]), ReadError>
    ensures { Gives (λ x. (x.0, x.1.now)) result (read.next_item (read.item depth) tokens.now) }
{
    let rest = take(tokens, Sign::Plus)?;
    item(alloc, depth, rest)
}

#[cycle(sums)]
#[tactic(auto, unfolding(crate::specs::SampleReading::item))]
fn item(alloc: Global, depth: u32, tokens: &[Token]) -> Result<(Expr, &[Token]), ReadError>
    ensures { Gives (λ x. (x.0, x.1.now)) result (read.item depth tokens.now) }
{
    if !sees(tokens, Sign::Open) {
        return number(tokens);
    }
    if depth == 0 {
        return Err(ReadError::Stopped(Why::Deep, tokens.len()));
    }
    bracketed(alloc, depth - 1, tokens)
}

#[cycle(sums)]
#[tactic(auto, unfolding(crate::specs::SampleReading::bracketed))]
fn bracketed(alloc: Global, depth: u32, tokens: &[Token]) -> Result<(Expr, &[Token]), ReadError>
    ensures { Gives (λ x. (x.0, x.1.now)) result
        (read.bracketed (read.sum (read.item depth)) tokens.now) }
{
    let rest = take(tokens, Sign::Open)?;
    let (expr, rest) = sum(alloc, depth, rest)?;
    let rest = take(rest, Sign::Close)?;
    Ok((expr, rest))
}
