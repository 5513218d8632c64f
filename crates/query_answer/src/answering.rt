//! The answer to a query.
ghost use Rattle.std.specs.Prelude.{◌≡◌, [], IfOk};
ghost use Rattle.bound_query.specs.Asks.{AreAskedOf};
ghost use Rattle.package_program.specs.Translation.{linear_of};
ghost use Rattle.query_answer.specs.Answers.{Answers, HasProgram};
ghost use Rattle.lin_bound.specs.Problem.{IsWithin};
ghost use Rattle.package_program.specs.Points.{package_at};
ghost use Rattle.query_answer.specs.Answers.{shown};
ghost use Rattle.query_answer.specs.Searched.{IsCounted, IsTold, pairs_in, shows};
ghost use Rattle.session_proto.specs.Answers as answers;
ghost use Rattle.search_core.specs.Search.{value_in};
ghost use Rattle.cert_text.specs.declared.value.Claim.TheVariants.{Infeasible, Optimal, Undecided};

use crate::kept::Kept;
use crate::showing::{shown, shown_pair};
use bound_query::BoundQuery;
use cert_text::Claim;
use cert_tree::Tree;
use lin_bound::Point;
use package_judge::Package;
use package_program::{FormFault, Linear, package_of, translate};
use search_core::{Solved, Solver};
use session_proto::refusals::QueryFault;
use session_proto::{Reply, answers};
use sqlite_items::Items;
use std::alloc::{AllocError, Global};
use table_schema::Row;

/// What becomes of a query.
#[derive(Debug, Drop)]
pub enum Answered {
    /// The reply to it, and what is kept of it.
    Reply(Reply, Kept),
    /// There are too many candidates, or a sum could be too large.
    Refused(QueryFault),
}

/// Answers a query over the rows of its table, in ascending order of ids, at a version. The search
/// is exact, and does at most as many nodes as the query's budget.
pub fn answer<X: Solver>(
    alloc: Global,
    solver: &mut X,
    query: &BoundQuery,
    rows: &[(u64, Row)],
    version: u64,
) -> Result<Answered, AllocError>
    requires { AreAskedOf query.now rows.now }
    ensures { IfOk result (λ answered. Answers query.now rows.now version answered) }
{
    match translate(alloc, query, rows) {
        Ok(linear) => solve(alloc, solver, query, rows, linear, version),
        Err(FormFault::LimitCandidates(count)) => {
            Ok(Answered::Refused(QueryFault::LimitCandidates(count)))
        }
        Err(FormFault::TooLarge { conjunct, total }) => {
            let total = total.to_string(alloc)?;
            Ok(Answered::Refused(QueryFault::TooLarge {
                conjunct: u64::from(conjunct),
                total,
            }))
        }
        Err(FormFault::Memory(error)) => Err(error),
    }
}

// Solves the program of a query, and keeps it with the tree of the answer.
fn solve<X: Solver>(
    alloc: Global,
    solver: &mut X,
    query: &BoundQuery,
    rows: &[(u64, Row)],
    linear: Linear,
    version: u64,
) -> Result<Answered, AllocError>
    requires asked { AreAskedOf query.now rows.now }
    requires program { HasProgram query.now rows.now }
    requires linear { linear ≡ linear_of query.now rows.now }
    ensures { IfOk result (λ answered. Answers query.now rows.now version answered) }
{
    let _rows = rows;
    let solved = solver.solve(alloc, linear.problem(), query.budget)?;
    let _legal = linear.problem().variables();
    match solved {
        Solved::NoneExists { tree } => infeasible(alloc, linear, tree, version),
        Solved::Best { value, point, tree } => {
            optimal(alloc, query, linear, (value, point), tree, version)
        }
        Solved::Undecided { best, bound, tree } => {
            undecided(alloc, query, linear, (bound, best), tree, version)
        }
    }
}

// What is kept of an answer.
fn kept(linear: Linear, claim: Claim, pairs: Items<(u64, u64)>, tree: Tree) -> Kept
    ensures problem { result.problem ≡ linear.problem }
    ensures claim { result.claim ≡ claim }
    ensures pairs { result.pairs ≡ pairs }
    ensures tree { result.tree ≡ tree }
{
    let problem = linear.into_problem();
    Kept {
        problem,
        claim,
        pairs,
        tree,
    }
}

// What is claimed of a search that its budget cut off.
fn claim_of(best: &Option<(i64, Point)>) -> Claim
    ensures { result ≡ Undecided (value_in best.now) }
{
    match best {
        Some((value, _)) => Claim::Undecided(Some(*value)),
        None => Claim::Undecided(None),
    }
}

// The pairs of a package once more.
fn copied(alloc: Global, package: &Package) -> Result<Items<(u64, u64)>, AllocError>
    ensures { IfOk result (λ pairs. pairs ≡ «package».now) }
{
    let mut pairs = Items::new(alloc);
    for (id, count) in package.pairs() {
        pairs.push((*id, u64::from(*count)))?;
    }
    Ok(pairs)
}

// The answer if there is no package.
fn infeasible(
    alloc: Global,
    linear: Linear,
    tree: Tree,
    version: u64,
) -> Result<Answered, AllocError>
    ensures { IfOk result (λ answered. IsTold
        (answers.infeasible version) linear.problem Infeasible [] tree answered) }
{
    let reply = answers::infeasible(alloc, version)?;
    let pairs = Items::new(alloc);
    let kept = kept(linear, Claim::Infeasible, pairs, tree);
    Ok(Answered::Reply(reply, kept))
}

// The answer with a best point, which has its cost before it.
fn optimal(
    alloc: Global,
    query: &BoundQuery,
    linear: Linear,
    best: (i64, Point),
    tree: Tree,
    version: u64,
) -> Result<Answered, AllocError>
    requires { IsWithin linear.problem best.1 }
    ensures { IfOk result (λ answered. IsTold
        (answers.optimal (shown query.now.goal best.0) (package_at linear.ids best.1) version)
        linear.problem (Optimal best.0) (package_at linear.ids best.1) tree answered) }
{
    let (value, point) = best;
    let package = package_of(alloc, &linear, &point)?;
    let pairs = copied(alloc, &package)?;
    let objective = shown(alloc, &query.goal, value)?;
    let reply = answers::optimal(alloc, objective, package, version)?;
    let kept = kept(linear, Claim::Optimal(value), pairs, tree);
    Ok(Answered::Reply(reply, kept))
}

// The answer if the budget cut the search off, with its bound and the best point so far.
fn undecided(
    alloc: Global,
    query: &BoundQuery,
    linear: Linear,
    found: (i64, Option<(i64, Point)>),
    tree: Tree,
    version: u64,
) -> Result<Answered, AllocError>
    requires { IsCounted linear.problem found.1 }
    ensures { IfOk result (λ answered. IsTold
        (shows query.now linear.ids found.0 found.1 version)
        linear.problem (Undecided (value_in found.1)) (pairs_in linear.ids found.1)
        tree answered) }
{
    let (bound, best) = found;
    let claim = claim_of(&best);
    let (reply, pairs) = open_reply(alloc, query, &linear, bound, best, version)?;
    let kept = kept(linear, claim, pairs, tree);
    Ok(Answered::Reply(reply, kept))
}

// The reply of a search that its budget cut off, and the pairs of its package.
fn open_reply(
    alloc: Global,
    query: &BoundQuery,
    linear: &Linear,
    bound: i64,
    best: Option<(i64, Point)>,
    version: u64,
) -> Result<(Reply, Items<(u64, u64)>), AllocError>
    requires { IsCounted linear.now.problem best }
    ensures reply { IfOk result (λ both.
        both.0 ≡ shows query.now linear.now.ids bound best version) }
    ensures pairs { IfOk result (λ both. both.1 ≡ pairs_in linear.now.ids best) }
{
    let nodes = u64::from(query.budget);
    match best {
        None => {
            let bound = shown(alloc, &query.goal, bound)?;
            let reply = answers::undecided(alloc, bound, nodes, version)?;
            Ok((reply, Items::new(alloc)))
        }
        Some((value, point)) => {
            let package = package_of(alloc, linear, &point)?;
            let pairs = copied(alloc, &package)?;
            let worth = shown_pair(alloc, &query.goal, bound, value)?;
            let reply = answers::undecided_best(alloc, worth, nodes, package, version)?;
            Ok((reply, pairs))
        }
    }
}
