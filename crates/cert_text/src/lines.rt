//! Lines of a text, and how they fit what may come.
ghost use Rattle.std.specs.Prelude.{◌≡◌, ◌≢◌, [], ◌∷◌, ◌++◌, ◌+◌, ◌<◌, IfOk, MatchOption, ℕ, List, length, drop};
ghost use Rattle.std.specs.Str.Parse.{AllDigits};
ghost use Rattle.pq_base.specs.Decimal.{BeginsWithDigit};
ghost use Rattle.cert_text.specs.Numbers.{FitsAs, AddsFit, IsLast, IsNext};
ghost use Rattle.cert_text.specs.Lines.{word};
ghost use Rattle.cert_text.specs.Expected.{ranges, IsSound};
ghost use Rattle.cert_text.specs.Rules.{IsRow, RowIs, RowBegins, BeginsAny, HasNoFeed};
ghost use Rattle.cert_text.specs.declared.numbers.Range.{Range};

use crate::kinds::{Expect, Kind};
use crate::numbers::Fit;
use pq_base::decimal::split_digits;
use std::alloc::AllocError;

/// The first line of a text, and what comes after its line feed.
pub(crate) fn split_line(text: &[u8]) -> Option<(&[u8], &[u8])>
    ensures { MatchOption result (HasNoFeed text.now)
        (λ both. HasNoFeed both.0.now × (text.now ≡ both.0.now ++ (10 ∷ both.1.now))) }
{
    for (at, byte) in text.iter().enumerate() {
        if *byte == b'\n' {
            return Some((&text[..at], &text[at + 1..]));
        }
    }
    None
}

/// The number at a place of a line, if it is the last one.
fn last_number(expect: Expect, kind: Kind, place: usize, digits: &[u8]) -> Option<u64>
    requires digits { AllDigits 10 digits.now }
    requires within { place < length (ranges expect kind) }
    requires sound { IsSound expect }
    ensures { IsLast (drop place (ranges expect kind)) digits.now result }
{
    let range = expect.range(kind, place);
    if place + 1 < expect.count(kind) {
        return None;
    }
    range.number(digits)
}

/// How digits with nothing after them fit the numbers from a place on.
fn fit_last(
    expect: Expect,
    kind: Kind,
    place: usize,
    digits: &[u8],
    numbers: &mut Vec<u64>,
) -> Result<Fit, AllocError>
    requires digits { AllDigits 10 digits.now }
    requires within { place < length (ranges expect kind) }
    requires sound { IsSound expect }
    ensures { IfOk result (λ fit. AddsFit (drop place (ranges expect kind)) digits.now
        numbers.old.items numbers.new.items fit) }
{
    if let Some(number) = last_number(expect, kind, place, digits) {
        numbers.push(number)?;
        return Ok(Fit::Whole);
    }
    if expect.range(kind, place).can_begin(digits) {
        return Ok(Fit::Begun);
    }
    Ok(Fit::Bad)
}

/// The number at a place of a line, if it fits and a blank and another one come after it.
fn next_number(expect: Expect, kind: Kind, place: usize, digits: &[u8], more: &[u8]) -> Option<u64>
    requires digits { AllDigits 10 digits.now }
    requires all { ¬ BeginsWithDigit more.now }
    requires some { 0 < length more.now }
    requires within { place < length (ranges expect kind) }
    requires sound { IsSound expect }
    ensures { (range : Range) → drop place (ranges expect kind)
        ≡ range ∷ drop (place + 1) (ranges expect kind)
        → IsNext range (drop (place + 1) (ranges expect kind)) digits.now more.now result }
{
    let range = expect.range(kind, place);
    if place + 1 == expect.count(kind) {
        return None;
    }
    if more[0] != b' ' {
        return None;
    }
    range.number(digits)
}

/// How a text fits the numbers of a line.
fn fit_numbers(
    expect: Expect,
    kind: Kind,
    text: &[u8],
    numbers: &mut Vec<u64>,
) -> Result<Fit, AllocError>
    requires some { 0 < length (ranges expect kind) }
    requires sound { IsSound expect }
    ensures { IfOk result (λ fit. AddsFit (ranges expect kind) text.now
        numbers.old.items numbers.new.items fit) }
{
    let mut rest = text;
    for place in 0..expect.count(kind) {
        let (digits, more) = split_digits(rest);
        if more.is_empty() {
            let fit = fit_last(expect, kind, place, digits, numbers)?;
            return Ok(fit);
        }
        let Some(number) = next_number(expect, kind, place, digits, more) else {
            return Ok(Fit::Bad);
        };
        numbers.push(number)?;
        rest = &more[1..];
    }
    unreachable!()
}

/// How a text fits a word alone.
fn fit_word(word: &[u8], text: &[u8]) -> Fit
    ensures { FitsAs word.now [] text.now [] result }
{
    if text == word {
        return Fit::Whole;
    }
    if word.starts_with(text) {
        return Fit::Begun;
    }
    Fit::Bad
}

/// How a text that doesn't begin with the word of a line with numbers fits the line.
fn fit_before(expect: Expect, kind: Kind, words: &[u8], text: &[u8]) -> Fit
    requires word { words.now ≡ word kind }
    requires sound { IsSound expect }
    requires apart { (rest : List ℕ) → text.now ≡ words.now ++ rest → ⊥ }
    ensures { FitsAs (word kind) (ranges expect kind) text.now [] result }
{
    if words.starts_with(text) {
        return Fit::Begun;
    }
    Fit::Bad
}

/// How a text fits a line of a kind, whose numbers are left if it is whole.
fn fit(expect: Expect, kind: Kind, text: &[u8], numbers: &mut Vec<u64>) -> Result<Fit, AllocError>
    requires { IsSound expect }
    ensures { IfOk result (λ fit.
        FitsAs (word kind) (ranges expect kind) text.now numbers.new.items fit) }
{
    numbers.clear();
    let word = kind.word();
    if expect.count(kind) == 0 {
        return Ok(fit_word(word, text));
    }
    match text.strip_prefix(word) {
        Some(rest) => fit_numbers(expect, kind, rest, numbers),
        None => Ok(fit_before(expect, kind, word, text)),
    }
}

/// Whether a text is a line of a kind. Its numbers are left.
fn is_whole(
    expect: Expect,
    kind: Kind,
    text: &[u8],
    numbers: &mut Vec<u64>,
) -> Result<bool, AllocError>
    requires { IsSound expect }
    ensures { IfOk result (λ whole. RowIs expect kind text.now numbers.new.items whole) }
{
    let how = fit(expect, kind, text, numbers)?;
    match how {
        Fit::Whole => Ok(true),
        Fit::Begun => Ok(false),
        Fit::Bad => Ok(false),
    }
}

/// Whether some line of a kind begins with a text.
fn may_begin(
    expect: Expect,
    kind: Kind,
    text: &[u8],
    numbers: &mut Vec<u64>,
) -> Result<bool, AllocError>
    requires { IsSound expect }
    ensures { IfOk result (λ begins. RowBegins expect kind text.now begins) }
{
    let how = fit(expect, kind, text, numbers)?;
    match how {
        Fit::Whole => Ok(true),
        Fit::Begun => Ok(true),
        Fit::Bad => Ok(false),
    }
}

/// The kind of a line that may come. Its numbers are left.
pub(crate) fn row(
    expect: Expect,
    line: &[u8],
    numbers: &mut Vec<u64>,
) -> Result<Option<Kind>, AllocError>
    requires { IsSound expect }
    ensures { IfOk result (λ found. IsRow expect line.now numbers.new.items found) }
{
    for kind in expect.kinds() {
        if is_whole(expect, *kind, line, numbers)? {
            return Ok(Some(*kind));
        }
    }
    Ok(None)
}

/// Whether some line that may come begins with the text.
pub(crate) fn begins_row(
    expect: Expect,
    text: &[u8],
    numbers: &mut Vec<u64>,
) -> Result<bool, AllocError>
    requires { IsSound expect }
    ensures { IfOk result (λ begins. BeginsAny expect text.now begins) }
{
    for kind in expect.kinds() {
        if may_begin(expect, *kind, text, numbers)? {
            return Ok(true);
        }
    }
    Ok(false)
}
