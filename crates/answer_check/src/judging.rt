//! The judging of a certificate's text.
ghost use Rattle.std.specs.Prelude.{◌≡◌, ◌+◌, ◌<◌, ◌≤◌, ◌^◌, ◌↔◌, IfOk, IsTrue, length};
ghost use Rattle.bound_query.specs.Asks.{AreAskedOf};
ghost use Rattle.cert_text.specs.Certs.{IsCert};
ghost use Rattle.answer_check.specs.Verdicts.{program_of, HasProgram, HasShape, Judges, Says, SaysOf, Shows};
ghost use Rattle.answer_check.specs.Trees.{JudgesTree, OfClaim};
ghost use Rattle.answer_check.specs.declared.verdict.Verdict.TheVariants.{Valid};

use crate::laws::valid_shows;
use crate::packages::judge_package;
use crate::verdict::{BadText, Verdict};
use bound_query::BoundQuery;
use cert_checker::{CheckAnswer, Reason, check_nodes};
use cert_text::{CertFault, CertText, Claim, read_cert};
use lin_bound::Problem;
use package_program::{FormFault, translate};
use sqlite_items::Items;
use std::alloc::{AllocError, Global};
use table_schema::Row;

/// What is said of a text that is to be a certificate for a query over the rows of its table, in
/// ascending order of ids. The query isn't solved: the package is judged by plain sums, and the
/// tree by one bound a leaf. It is refused as a query is that has no program.
pub fn judge_answer(
    alloc: Global,
    query: &BoundQuery,
    rows: &[(u64, Row)],
    text: &[u8],
) -> Result<Verdict, FormFault>
    requires asked { AreAskedOf query.now rows.now }
    requires short { length text.now + 1 < 2 ^ 64 }
    ensures judged { Judges query.now rows.now text.now result }
    ensures shows { IfOk result (λ verdict. verdict ≡ Valid → Shows query.now rows.now text.now) }
{
    valid_shows();
    let linear = translate(alloc, query, rows)?;
    Ok(judge_text(alloc, query, rows, linear.problem(), text)?)
}

/// The same for a query whose program is at hand.
pub fn judge_text(
    alloc: Global,
    query: &BoundQuery,
    rows: &[(u64, Row)],
    problem: &Problem,
    text: &[u8],
) -> Result<Verdict, AllocError>
    requires asked { AreAskedOf query.now rows.now }
    requires program { HasProgram query.now rows.now }
    requires problem { problem.now ≡ program_of query.now rows.now }
    requires short { length text.now + 1 < 2 ^ 64 }
    ensures { IfOk result (λ verdict. Says query.now rows.now text.now verdict) }
{
    match read_cert(alloc, text) {
        Ok(cert) => judge_cert(alloc, query, rows, problem, &cert),
        Err(CertFault::BadHeader) => Ok(Verdict::BadCert(BadText::Header)),
        Err(CertFault::BadLine(line)) => Ok(Verdict::BadCert(BadText::Line(line))),
        Err(CertFault::Truncated) => Ok(Verdict::BadCert(BadText::Truncated)),
        Err(CertFault::Trailing(line)) => Ok(Verdict::BadCert(BadText::Trailing(line))),
        Err(CertFault::Memory(error)) => Err(error),
    }
}

/// What is said of a certificate.
fn judge_cert(
    alloc: Global,
    query: &BoundQuery,
    rows: &[(u64, Row)],
    problem: &Problem,
    cert: &CertText,
) -> Result<Verdict, AllocError>
    requires asked { AreAskedOf query.now rows.now }
    requires program { HasProgram query.now rows.now }
    requires problem { problem.now ≡ program_of query.now rows.now }
    requires cert { IsCert cert.now }
    ensures { IfOk result (λ verdict. SaysOf query.now rows.now cert.now verdict) }
{
    if !has_shape(problem, cert) {
        return Ok(Verdict::Shape);
    }
    if let Some(value) = cert.claim.value() {
        let found = judge_package(alloc, query, rows, cert.pairs.as_slice(), value)?;
        if let Some(wrong) = found {
            return Ok(wrong);
        }
    }
    judge_tree(alloc, problem, cert)
}

/// Whether the certificate is of as many variables and rows as the program.
fn has_shape(problem: &Problem, cert: &CertText) -> bool
    ensures { IsTrue result ↔ HasShape problem.now cert.now }
{
    cert.vars as usize == problem.variables() && cert.rows as usize == problem.row_count()
}

/// What is said of the tree of a certificate before which nothing is wrong.
fn judge_tree(alloc: Global, problem: &Problem, cert: &CertText) -> Result<Verdict, AllocError>
    requires cert { IsCert cert.now }
    requires shape { HasShape problem.now cert.now }
    ensures { IfOk result (λ verdict. JudgesTree problem.now cert.now verdict) }
{
    match check_nodes(alloc, problem, cert.nodes.as_slice(), cert.claim.value())? {
        CheckAnswer::Invalid(path, reason) => Ok(Verdict::Fault(path, reason)),
        CheckAnswer::Valid => Ok(of_claim(alloc, cert.claim)),
    }
}

/// What is said of a claim with whose tree nothing is wrong.
fn of_claim(alloc: Global, claim: Claim) -> Verdict
    ensures { OfClaim claim result }
{
    match claim {
        Claim::Optimal(_) | Claim::Infeasible => Verdict::Valid,
        Claim::Undecided(_) => Verdict::Fault(Items::new(alloc), Reason::OpenLeaf),
    }
}
