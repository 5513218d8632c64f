//! The line of a check.
ghost use Rattle.std.specs.Prelude.{◌≡◌, ◌+◌, ◌<◌, ◌^◌, ◌↔◌, ◌++◌, codes, length, map, IfOk, IsTrue};
ghost use Rattle.paql_engine.specs.Performed.{is_exact};
ghost use Rattle.paql_engine.specs.Replied.{reply_of};
ghost use Rattle.session_proto.specs.Replies.{member_of};
ghost use Rattle.version_store.specs.Vaults.{Sees, holding};
ghost use Rattle.session_server.specs.Checks.{IsRefusal, SaysRefused, status_refused, certificate_in, past_feed, end_of, refused_line};
ghost use Rattle.session_server.specs.Telling.{IsReadyOver, IsUnjudged, TellsQuery, TellsRefusal, TellsVerdict};

use crate::checking::CheckEnd;
use answer_check::{Verdict, judge_text, valid_shows};
use paql_ast::queries::{Method, Query};
use paql_engine::{Answer, PrepareFault, Prepared, prepare};
use session_proto::{Field, Member, Reply, not_built_line, reply_bytes};
use std::alloc::{AllocError, Global};
use version_store::Vault;

/// The line of a check, and how the check ends with it.
#[derive(Debug, Drop)]
pub(crate) struct Line {
    pub bytes: Vec<u8>,
    pub end: CheckEnd,
}

/// The line of a reply that refuses.
pub(crate) fn refused_line(alloc: Global, reply: &Reply) -> Result<Vec<u8>, AllocError>
    ensures { IfOk result (λ line. line.items ≡ refused_line reply.now) }
{
    let bytes = reply_bytes(alloc, reply)?;
    line_of(alloc, &bytes)
}

/// The line of an answer, if it is a refusal.
pub(crate) fn line_if_refused(alloc: Global, answer: &Answer) -> Result<Option<Vec<u8>>, AllocError>
    ensures { TellsRefusal (reply_of answer.now) result }
{
    match answer {
        Answer::Made(reply) if is_refusal(reply) => Ok(Some(refused_line(alloc, reply)?)),
        Answer::Made(_) | Answer::Accepted(_, _) => Ok(None),
        Answer::NotBuilt => Ok(Some(line_of(alloc, not_built_line())?)),
    }
}

/// What is told of a query and the bytes after it.
pub(crate) fn judged<V: Vault>(
    alloc: Global,
    vault: &mut V,
    query: &Query,
    after: &[u8],
) -> Result<Line, AllocError>
    requires { length after.now + 1 < 2 ^ 64 }
    ensures sees { Sees (holding V.held V.own V.stake vault.old)
        (holding V.held V.own V.stake vault.new) }
    ensures tells { IfOk result (λ line. TellsQuery (V.held vault.new) query.now after.now line) }
{
    if !is_exact(query.method) {
        return unjudged(alloc, not_built_line());
    }
    match prepare(alloc, vault, query) {
        Ok(prepared) => verdict_line(alloc, query, &prepared, certificate_in(after)),
        Err(PrepareFault::Refused(reply)) => {
            let bytes = reply_bytes(alloc, &reply)?;
            unjudged(alloc, &bytes)
        }
        Err(PrepareFault::NotBuilt) => unjudged(alloc, not_built_line()),
        Err(PrepareFault::Memory(error)) => Err(error),
    }
}

// The line of what is said of a certificate's text.
fn verdict_line(
    alloc: Global,
    query: &Query,
    prepared: &Prepared,
    text: &[u8],
) -> Result<Line, AllocError>
    requires short { length text.now + 1 < 2 ^ 64 }
    requires ready { IsReadyOver query.now prepared.now }
    ensures { IfOk result (λ line. TellsVerdict query.now prepared.now text.now line) }
{
    valid_shows();
    let rows = prepared.rows(query);
    let problem = prepared.linear.problem();
    let verdict = judge_text(alloc, &prepared.bound, rows, problem, text)?;
    let bytes = verdict.line(alloc)?.into_bytes();
    Ok(Line {
        bytes,
        end: end_of(&verdict),
    })
}

// The line of a reply that refuses the query.
fn unjudged(alloc: Global, reply: &[u8]) -> Result<Line, AllocError>
    ensures { IfOk result (λ line. IsUnjudged reply.now line) }
{
    let bytes = line_of(alloc, reply)?;
    Ok(Line {
        bytes,
        end: CheckEnd::Unjudged,
    })
}

// The line of the bytes of a reply.
fn line_of(alloc: Global, reply: &[u8]) -> Result<Vec<u8>, AllocError>
    ensures { IfOk result (λ line. line.items ≡ codes "REFUSED " ++ reply.now) }
{
    let mut line = Vec::from_slice(alloc, b"REFUSED ")?;
    line.extend_from_slice(reply)?;
    Ok(line)
}

// How a check ends by its verdict.
fn end_of(verdict: &Verdict) -> CheckEnd
    ensures { result ≡ end_of verdict.now }
{
    match verdict {
        Verdict::Valid => CheckEnd::Valid,
        Verdict::BadCert(_) => CheckEnd::Unjudged,
        _ => CheckEnd::Invalid,
    }
}

// The certificate is what comes after a query, without one end of a line.
fn certificate_in(after: &[u8]) -> &[u8]
    ensures { result.now ≡ certificate_in after.now }
{
    let Some((first, rest)) = after.split_first() else {
        return after;
    };
    if *first == b'\r' {
        past_feed(after, rest)
    } else {
        past_feed(after, after)
    }
}

// What comes after a line feed, if the rest begins with one, or else the whole.
fn past_feed<'a>(whole: &'a [u8], rest: &'a [u8]) -> &'a [u8]
    ensures { result.now ≡ past_feed whole.now rest.now }
{
    match rest.split_first() {
        Some((first, text)) if *first == b'\n' => text,
        _ => whole,
    }
}

// The status of a reply is that it refuses.
fn is_refusal(reply: &Reply) -> bool
    ensures { IsTrue result ↔ IsRefusal reply.now }
{
    says_refused(reply.members())
}

// One of the members says so.
fn says_refused(members: &[Member]) -> bool
    ensures { IsTrue result ↔ SaysRefused (map member_of members.now) }
{
    let Some((first, others)) = members.split_first() else {
        return false;
    };
    is_status_refused(first) || says_refused(others)
}

fn is_status_refused(member: &Member) -> bool
    ensures { IsTrue result ↔ (member_of member.now ≡ status_refused) }
{
    match &member.value {
        Field::Text(words) => member.key.as_str() == "status" && words.as_str() == "refused",
        _ => false,
    }
}

// The method of a query is exact.
fn is_exact(method: Option<Method>) -> bool
    ensures { result ≡ is_exact method }
{
    match method {
        None | Some(Method::Direct) => true,
        Some(Method::SketchRefine) => false,
    }
}
