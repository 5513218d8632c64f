//! The line that tells a verdict.
ghost use Rattle.std.specs.Prelude.{◌≡◌, ◌++◌, IfOk, map, string_bytes};
ghost use Rattle.answer_check.specs.Lines.{bad_words, letter, line_of, place_words, reason_words, words};

use crate::verdict::{BadText, Verdict};
use cert_checker::Reason;
use package_judge::Place;
use std::alloc::{AllocError, Global};

fn bad_words(alloc: Global, bad: BadText) -> Result<String, AllocError>
    ensures { IfOk result (λ text. string_bytes text ≡ bad_words bad) }
{
    match bad {
        BadText::Header => format!(in alloc; "header"),
        BadText::Line(number) => format!(in alloc; "line {number}"),
        BadText::Truncated => format!(in alloc; "truncated"),
        BadText::Trailing(number) => format!(in alloc; "trailing {number}"),
    }
}

fn place_words(alloc: Global, place: Place) -> Result<String, AllocError>
    ensures { IfOk result (λ text. string_bytes text ≡ place_words place) }
{
    match place {
        Place::Id(id) => format!(in alloc; "id {id}"),
        Place::Where(id) => format!(in alloc; "where {id}"),
        Place::Repeat(id) => format!(in alloc; "repeat {id}"),
        Place::Conjunct(number) => format!(in alloc; "conjunct {number}"),
    }
}

fn reason_words(alloc: Global, reason: Reason) -> Result<String, AllocError>
    ensures { IfOk result (λ text. string_bytes text ≡ reason_words reason) }
{
    match reason {
        Reason::NotClosed { bound, target } => format!(in alloc; "notclosed {bound} {target}"),
        Reason::BadSplit => format!(in alloc; "badsplit"),
        Reason::OpenLeaf => format!(in alloc; "open"),
        Reason::BadMult => format!(in alloc; "badmult"),
    }
}

/// A letter for each half that leads to a place.
fn letters(alloc: Global, path: &[bool]) -> Result<String, AllocError>
    ensures { IfOk result (λ text. string_bytes text ≡ map letter path.now) }
{
    let mut text = String::new(alloc);
    for upper in path {
        text.push(if *upper { 'R' } else { 'L' })?;
    }
    Ok(text)
}

/// The verdict in words, without the end of its line.
fn words(alloc: Global, verdict: &Verdict) -> Result<String, AllocError>
    ensures { IfOk result (λ text. string_bytes text ≡ words verdict.now) }
{
    match verdict {
        Verdict::BadCert(bad) => {
            let bad = bad_words(alloc, *bad)?;
            format!(in alloc; "BADCERT {bad}")
        }
        Verdict::Shape => format!(in alloc; "INVALID shape"),
        Verdict::Package(place) => {
            let place = place_words(alloc, *place)?;
            format!(in alloc; "INVALID package {place}")
        }
        Verdict::Value { claimed, worth } => {
            format!(in alloc; "INVALID value {claimed} {worth}")
        }
        Verdict::Fault(path, reason) => {
            let path = letters(alloc, path.as_slice())?;
            let reason = reason_words(alloc, *reason)?;
            format!(in alloc; "INVALID .{path} {reason}")
        }
        Verdict::Valid => format!(in alloc; "VALID"),
    }
}

impl Verdict {
    /// The line that tells it, with its line feed.
    pub fn line(&self, alloc: Global) -> Result<String, AllocError>
        ensures { IfOk result (λ text. string_bytes text ≡ line_of self.now) }
    {
        let mut text = words(alloc, self)?;
        text.push('\n')?;
        Ok(text)
    }
}
