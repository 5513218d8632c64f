//! The token at the start of a text, by its first byte.
ghost use Rattle.std.specs.Prelude.{◌≡◌, ◌↔◌, ℕ, ◌<◌, ◌≤◌, ◌++◌, ◌∷◌, [], List, length, map};
ghost use Rattle.std.specs.Prelude.{IsTrue, IsUtf8, MatchOption};
ghost use Rattle.std.specs.Str.{str_eq_ignore_ascii_case};
ghost use Rattle.std.specs.Str.Parse.{AllDigits};
ghost use Rattle.pq_base.specs.Decimal.{BeginsWithDigit, point_and};
ghost use Rattle.paql_lexer.specs.Keywords as keywords;
ghost use Rattle.paql_lexer.specs.Lexical as lexical;

use crate::gaps::{Run, split_run};
use crate::vocabulary::{KEYWORDS, Kind};
use pq_base::decimal::split_digits;

/// A kind of token, and its length in bytes.
pub(crate) type Cut = (Kind, usize);

/// What the first byte of a token says.
#[derive(Clone, Copy, Debug)]
pub(crate) enum Class {
    /// A keyword or a name.
    Letter,
    /// A number.
    Digit,
    /// A text.
    Quote,
    /// A quoted name.
    NameQuote,
    /// A sign, or nothing.
    Mark,
}

/// The most bytes of a word.
const MOST_WORD_BYTES: usize = 64;

/// The most digits of a number.
const MOST_DIGITS: usize = 30;

fn class_of(byte: u8) -> Class
    ensures { result ≡ lexical.class_of byte }
{
    if byte.is_ascii_alphabetic() || byte == b'_' {
        Class::Letter
    } else if byte.is_ascii_digit() {
        Class::Digit
    } else if byte == b'\'' {
        Class::Quote
    } else if byte == b'"' {
        Class::NameQuote
    } else {
        Class::Mark
    }
}

fn same_word(one: &[u8], other: &[u8]) -> bool
    ensures { result ≡ str_eq_ignore_ascii_case one.now other.now }
{
    one.eq_ignore_ascii_case(other)
}

fn kind_in(mut table: &[(&[u8], Kind)], word: &[u8]) -> Kind
    requires { IsTrue (keywords.rises 0 (map (λ entry. (entry.0.now, entry.1)) table.now)) }
    ensures { result ≡ keywords.kind_in (map (λ entry. (entry.0.now, entry.1)) table.entry.now)
        word.now }
{
    while let [entry, rest @ ..] = table {
        if entry.0.len() > word.len() {
            return Kind::Name;
        }
        if same_word(entry.0, word) {
            return entry.1;
        }
        table = rest;
    }
    Kind::Name
}

/// The keyword that a word is without regard to ASCII case, else a name.
pub fn word_kind(word: &[u8]) -> Kind
    ensures { result ≡ keywords.word_kind word.now }
{
    kind_in(&KEYWORDS, word)
}

fn word(text: &[u8]) -> Option<Cut>
    requires { lexical.BeginsWithLetter text.now }
    ensures { lexical.Finds lexical.IsWordToken text.now result }
{
    let (word, _) = split_run(Run::Word, text);
    if word.len() > MOST_WORD_BYTES {
        return None;
    }
    Some((word_kind(word), word.len()))
}

fn is_letter_first(text: &[u8]) -> bool
    ensures { IsTrue result ↔ lexical.BeginsWithLetter text.now }
{
    match text {
        [byte, ..] => byte.is_ascii_alphabetic() || *byte == b'_',
        [] => false,
    }
}

fn begins_with(first: u8, text: &[u8]) -> bool
    ensures { IsTrue result ↔ lexical.BeginsWith first text.now }
{
    match text {
        [byte, ..] => *byte == first,
        [] => false,
    }
}

fn quoted_name(body: &[u8]) -> Option<Cut>
    ensures { lexical.Finds lexical.IsQuotedName (34 ∷ body.now) result }
{
    let (name, rest) = split_run(Run::Word, body);
    if !is_letter_first(name) {
        return None;
    }
    if name.len() > MOST_WORD_BYTES {
        return None;
    }
    if !begins_with(b'"', rest) {
        return None;
    }
    Some((Kind::QuotedName, name.len() + 2))
}

/// The digits after the point at the start of a text, if there are some, and what comes
/// after them.
fn split_fraction(text: &[u8]) -> (&[u8], &[u8])
    requires { ¬ BeginsWithDigit text.now }
    ensures whole { text.now ≡ point_and result.0.now ++ result.1.now }
    ensures digits { AllDigits 10 result.0.now }
    ensures ends { ¬ BeginsWithDigit result.1.now }
    ensures longest { result.0.now ≡ [] → ¬ lexical.BeginsWithPlace result.1.now }
{
    match text {
        [b'.', places @ ..] => {
            let (digits, rest) = split_digits(places);
            if digits.is_empty() {
                return text.split_at(0);
            }
            (digits, rest)
        }
        _ => text.split_at(0),
    }
}

fn number(text: &[u8]) -> Option<Cut>
    requires { BeginsWithDigit text.now }
    ensures { lexical.Finds lexical.IsNumber text.now result }
{
    let (whole, behind) = split_digits(text);
    let (fraction, rest) = split_fraction(behind);
    if whole.len() + fraction.len() > MOST_DIGITS {
        return None;
    }
    Some((Kind::Number, text.len() - rest.len()))
}

/// How many bytes the character has that the byte begins, where a closing quote has 0.
fn step_len(byte: u8, rest: &[u8]) -> usize
    ensures closes { result ≡ 0 → lexical.Closes byte rest.now }
    ensures goes { 0 < result → lexical.GoesOn byte rest.now result }
{
    if byte != b'\'' {
        return 1;
    }
    if begins_with(b'\'', rest) { 2 } else { 0 }
}

/// How many bytes come before the closing quote.
fn content_len(body: &[u8]) -> Option<usize>
    ensures { MatchOption result ((content : List ℕ) → ¬ lexical.ClosesBehind body.now content)
        (λ len. (content : List ℕ) × lexical.ClosesBehind body.now content
        × (length (lexical.doubled content) ≡ len)) }
{
    let mut at = 0;
    while at < body.len() {
        let (_, behind) = body.split_at(at + 1);
        let step = step_len(body[at], behind);
        if step == 0 {
            return Some(at);
        }
        at += step;
    }
    None
}

fn is_utf8(bytes: &[u8]) -> bool
    ensures { IsTrue result ↔ IsUtf8 bytes.now }
{
    str::from_utf8(bytes).is_ok()
}

fn text_literal(body: &[u8]) -> Option<Cut>
    ensures { lexical.Finds lexical.IsText (39 ∷ body.now) result }
{
    let Some(len) = content_len(body) else {
        return None;
    };
    if !is_utf8(&body[..len]) {
        return None;
    }
    Some((Kind::Text, len + 2))
}

fn short_sign(byte: u8) -> Option<Kind>
    ensures { result ≡ lexical.short_sign byte }
{
    match byte {
        b'(' => Some(Kind::LeftParen),
        b')' => Some(Kind::RightParen),
        b',' => Some(Kind::Comma),
        b'.' => Some(Kind::Dot),
        b'*' => Some(Kind::Star),
        b'+' => Some(Kind::Plus),
        b'-' => Some(Kind::Minus),
        b'=' => Some(Kind::Equal),
        b'<' => Some(Kind::Less),
        b'>' => Some(Kind::Greater),
        _ => None,
    }
}

fn long_sign(first: u8, second: u8) -> Option<Kind>
    ensures { result ≡ lexical.long_sign first second }
{
    match (first, second) {
        (b'<', b'=') => Some(Kind::LessOrEqual),
        (b'<', b'>') => Some(Kind::NotEqual),
        (b'>', b'=') => Some(Kind::GreaterOrEqual),
        (b'!', b'=') => Some(Kind::NotEqual),
        _ => None,
    }
}

fn long_sign_at(text: &[u8]) -> Option<Kind>
    ensures { result ≡ lexical.long_sign_at text.now }
{
    match text {
        [first, second, ..] => long_sign(*first, *second),
        _ => None,
    }
}

fn sign(text: &[u8]) -> Option<Cut>
    ensures { lexical.Finds lexical.IsSign text.now result }
{
    if let Some(kind) = long_sign_at(text) {
        return Some((kind, 2));
    }
    match text {
        [first, ..] => {
            let Some(kind) = short_sign(*first) else {
                return None;
            };
            Some((kind, 1))
        }
        [] => None,
    }
}

/// The token at the start of a text, where one begins there.
pub(crate) fn token_at(text: &[u8]) -> Option<Cut>
    ensures { lexical.Finds lexical.Is text.now result }
{
    match text {
        [first, body @ ..] => match class_of(*first) {
            Class::Letter => word(text),
            Class::Digit => number(text),
            Class::Quote => text_literal(body),
            Class::NameQuote => quoted_name(body),
            Class::Mark => sign(text),
        },
        [] => None,
    }
}
