//! Writing a certificate text.
ghost use Rattle.std.specs.Prelude.{◌≡◌, ◌++◌, ◌∷◌, [], ◌<◌, ◌≤◌, IfOk, map, length};
ghost use Rattle.std.specs.Fmt.{decimal};
ghost use Rattle.cert_text.specs.Numbers.{blanked, listed};
ghost use Rattle.cert_text.specs.Lines.{row};
ghost use Rattle.cert_text.specs.Certs.{IsCert, cert_with, rows_of, cert_text, claim_row, value_row, package_rows, pair_row, node_row};
ghost use Rattle.cert_text.specs.Rules.{Puts};

use crate::kinds::Kind;
use crate::numbers::put_number;
use crate::value::{CertText, Claim};
use cert_tree::TreeNode;
use lin_bound::Mult;
use std::alloc::{AllocError, Global};

/// Appends a number after a blank.
fn put_blanked(out: &mut Vec<u8>, number: u64) -> Result<(), AllocError>
    ensures { IfOk result (λ _. out.new.items ≡ out.old.items ++ (32 ∷ decimal number)) }
{
    out.push(b' ')?;
    put_number(out, number)?;
    Ok(())
}

/// Appends numbers, each after a blank.
fn put_blanks(out: &mut Vec<u8>, numbers: &[u64]) -> Result<(), AllocError>
    ensures { IfOk result (λ _. out.new.items ≡ out.old.items ++ blanked numbers.now) }
{
    for number in numbers {
        put_blanked(out, *number)?;
    }
    Ok(())
}

/// Appends numbers, one blank between two of them.
fn put_listed(out: &mut Vec<u8>, numbers: &[u64]) -> Result<(), AllocError>
    ensures { IfOk result (λ _. out.new.items ≡ out.old.items ++ listed numbers.now) }
{
    let [first, others @ ..] = numbers else {
        return Ok(());
    };
    put_number(out, *first)?;
    put_blanks(out, others)?;
    Ok(())
}

/// Appends a line.
fn put_line(out: &mut Vec<u8>, kind: Kind, numbers: &[u64]) -> Result<(), AllocError>
    ensures { IfOk result (λ _. Puts out.old.items out.new.items (row kind numbers.now ∷ [])) }
{
    out.extend_from_slice(kind.word())?;
    put_listed(out, numbers)?;
    out.push(b'\n')?;
    Ok(())
}

/// Appends multipliers, that of the cost first.
fn put_mult(out: &mut Vec<u8>, mult: &Mult) -> Result<(), AllocError>
    ensures { IfOk result (λ _. out.new.items
        ≡ out.old.items ++ listed (mult.now.d ∷ mult.now.lambda)) }
{
    put_number(out, u64::from(mult.d))?;
    for multiplier in mult.lambda.as_slice() {
        put_blanked(out, u64::from(*multiplier))?;
    }
    Ok(())
}

/// Appends the line of a closed leaf.
fn put_leaf(out: &mut Vec<u8>, mult: &Mult) -> Result<(), AllocError>
    ensures { IfOk result (λ _. Puts out.old.items out.new.items
        (row Kind.Close (mult.now.d ∷ mult.now.lambda) ∷ [])) }
{
    out.extend_from_slice(Kind::Close.word())?;
    put_mult(out, mult)?;
    out.push(b'\n')?;
    Ok(())
}

/// Appends the line of a split.
fn put_split(out: &mut Vec<u8>, var: u64, at: u64, mult: &Mult) -> Result<(), AllocError>
    ensures { IfOk result (λ _. Puts out.old.items out.new.items
        (row Kind.Split (var ∷ (at ∷ (mult.now.d ∷ mult.now.lambda))) ∷ [])) }
{
    out.extend_from_slice(Kind::Split.word())?;
    put_number(out, var)?;
    put_blanked(out, at)?;
    out.push(b' ')?;
    put_mult(out, mult)?;
    out.push(b'\n')?;
    Ok(())
}

/// Appends the line of a node.
fn put_node(out: &mut Vec<u8>, node: &TreeNode) -> Result<(), AllocError>
    ensures { IfOk result (λ _. Puts out.old.items out.new.items (node_row node.now ∷ [])) }
{
    match node {
        TreeNode::Leaf(mult) => put_leaf(out, mult),
        TreeNode::Split { var, at, mult } => put_split(out, u64::from(*var) + 1, *at, mult),
        TreeNode::Open => put_line(out, Kind::Open, &[]),
    }
}

/// Appends the lines of nodes.
fn put_nodes(out: &mut Vec<u8>, nodes: &[TreeNode]) -> Result<(), AllocError>
    ensures { IfOk result (λ _. Puts out.old.items out.new.items (map node_row nodes.now)) }
{
    for node in nodes {
        put_node(out, node)?;
    }
    Ok(())
}

/// Appends the line of a value.
fn put_value(out: &mut Vec<u8>, plain: Kind, minus: Kind, value: i64) -> Result<(), AllocError>
    ensures { IfOk result (λ _. Puts out.old.items out.new.items
        (value_row plain minus value ∷ [])) }
{
    if value < 0 {
        return put_line(out, minus, &[value.unsigned_abs()]);
    }
    put_line(out, plain, &[value.unsigned_abs()])
}

/// Appends the line of a claim.
fn put_claim(out: &mut Vec<u8>, claim: Claim) -> Result<(), AllocError>
    ensures { IfOk result (λ _. Puts out.old.items out.new.items (claim_row claim ∷ [])) }
{
    match claim {
        Claim::Optimal(value) => put_value(out, Kind::Optimal, Kind::OptimalMinus, value),
        Claim::Infeasible => put_line(out, Kind::Infeasible, &[]),
        Claim::Undecided(None) => put_line(out, Kind::UndecidedNone, &[]),
        Claim::Undecided(Some(value)) => {
            put_value(out, Kind::Undecided, Kind::UndecidedMinus, value)
        }
    }
}

/// Appends the line of a pair.
fn put_pair(out: &mut Vec<u8>, pair: (u64, u64)) -> Result<(), AllocError>
    ensures { IfOk result (λ _. Puts out.old.items out.new.items (pair_row pair ∷ [])) }
{
    put_line(out, Kind::Pair, &[pair.0, pair.1])
}

/// Appends the lines of a package.
fn put_pairs(out: &mut Vec<u8>, pairs: &[(u64, u64)]) -> Result<(), AllocError>
    ensures { IfOk result (λ _. Puts out.old.items out.new.items
        (row Kind.Package (length pairs.now ∷ []) ∷ map pair_row pairs.now)) }
{
    put_line(out, Kind::Package, &[pairs.len() as u64])?;
    for pair in pairs {
        put_pair(out, *pair)?;
    }
    Ok(())
}

/// Appends the lines of the package that belongs to a claim, if it has a value.
fn put_package(out: &mut Vec<u8>, claim: Claim, pairs: &[(u64, u64)]) -> Result<(), AllocError>
    ensures { IfOk result (λ _. Puts out.old.items out.new.items (package_rows claim pairs.now)) }
{
    match claim {
        Claim::Optimal(_) => put_pairs(out, pairs),
        Claim::Infeasible => Ok(()),
        Claim::Undecided(None) => Ok(()),
        Claim::Undecided(Some(_)) => put_pairs(out, pairs),
    }
}

/// Appends the lines of a certificate that has these parts, which need not fit one. If there is no memory, a part of
/// them may be there.
pub fn write_lines(
    out: &mut Vec<u8>,
    vars: u32,
    rows: u32,
    claim: Claim,
    pairs: &[(u64, u64)],
    nodes: &[TreeNode],
) -> Result<(), AllocError>
    ensures { IfOk result (λ _. out.new.items
        ≡ out.old.items ++ cert_text (cert_with vars rows claim pairs.now nodes.now)) }
{
    put_line(out, Kind::Header, &[])?;
    put_line(out, Kind::Vars, &[u64::from(vars)])?;
    put_line(out, Kind::Rows, &[u64::from(rows)])?;
    put_claim(out, claim)?;
    put_package(out, claim, pairs)?;
    put_nodes(out, nodes)?;
    put_line(out, Kind::End, &[])?;
    Ok(())
}

/// Appends the text of a certificate. If there is no memory, a part of it may be there.
pub fn write_part(out: &mut Vec<u8>, cert: &CertText) -> Result<(), AllocError>
    requires { IsCert cert.now }
    ensures { IfOk result (λ _. out.new.items ≡ out.old.items ++ cert_text cert.now) }
{
    let pairs = cert.pairs.as_slice();
    let nodes = cert.nodes.as_slice();
    write_lines(out, cert.vars, cert.rows, cert.claim, pairs, nodes)
}

/// The text of a certificate.
pub fn write_cert(alloc: Global, cert: &CertText) -> Result<Vec<u8>, AllocError>
    requires { IsCert cert.now }
    ensures { IfOk result (λ text. text.items ≡ cert_text cert.now) }
{
    let mut out = Vec::new(alloc);
    write_part(&mut out, cert)?;
    Ok(out)
}
