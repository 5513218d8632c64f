//! Reading a certificate text.
ghost use Rattle.std.specs.Prelude.{◌≡◌, ◌++◌, ◌∷◌, ℕ, ◌+◌, ◌^◌, ◌<◌, ◌≤◌, IfOk, pos, neg_ℤ, length, take, drop};
ghost use Rattle.std.specs.List.{AllByRecursion};
ghost use Rattle.cert_text.specs.Rules.{mult_of, split_of, tail, taken, Carries, IsSplitLine, HasNoFeed};
ghost use Rattle.cert_text.specs.Expected.{IsSound, first};
ghost use Rattle.cert_text.specs.Answers.{IsPart, IsRead, IsBadAt, IsNextFault, IsNextAnswer};

use crate::kinds::{Expect, Kind};
use crate::lines::{begins_row, row, split_line};
use crate::value::{CertFault, CertText, Claim, Part};
use cert_tree::TreeNode;
use lin_bound::Mult;
use sqlite_items::Items;
use std::alloc::{AllocError, Global};

/// A value of this size.
fn plain(magnitude: u64) -> i64
    requires { magnitude ≤ 2 ^ 60 }
    ensures { result ≡ pos magnitude }
{
    magnitude as i64
}

/// A value of this size with a minus.
fn minus(magnitude: u64) -> i64
    requires { magnitude ≤ 2 ^ 60 }
    ensures { result ≡ neg_ℤ (pos magnitude) }
{
    -plain(magnitude)
}

/// The same numbers, which are small.
fn narrowed(alloc: Global, numbers: &[u64]) -> Result<Items<u32>, AllocError>
    requires { AllByRecursion (λ number. number ≤ 2 ^ 30) numbers.now }
    ensures { IfOk result (λ narrow. narrow ≡ numbers.now) }
{
    let mut narrow = Vec::with_capacity(alloc, numbers.len())?;
    for number in numbers {
        narrow.push(*number as u32)?;
    }
    Ok(Items::from_vec(narrow))
}

/// The first number, and 0 if there is none.
fn first(numbers: &[u64]) -> u64
    ensures { result ≡ first numbers.now }
{
    match numbers {
        [number, ..] => *number,
        [] => 0,
    }
}

/// The numbers after the first one.
fn tail(numbers: &[u64]) -> &[u64]
    ensures { result.now ≡ tail numbers.now }
{
    match numbers {
        [_, others @ ..] => others,
        [] => numbers,
    }
}

/// The multipliers of a line.
fn mult_of(alloc: Global, numbers: &[u64]) -> Result<Mult, AllocError>
    requires first { first numbers.now ≤ 2 ^ 30 }
    requires tail { AllByRecursion (λ number. number ≤ 2 ^ 30) (tail numbers.now) }
    ensures { IfOk result (λ mult. mult ≡ mult_of numbers.now) }
{
    let lambda = narrowed(alloc, tail(numbers))?;
    let d = first(numbers) as u32;
    Ok(Mult { d, lambda })
}

/// The node of a split's line.
fn split_of(alloc: Global, numbers: &[u64]) -> Result<TreeNode, AllocError>
    requires { IsSplitLine numbers.now }
    ensures { IfOk result (λ node. node ≡ split_of numbers.now) }
{
    let others = tail(numbers);
    let mult = mult_of(alloc, tail(others))?;
    let var = (first(numbers) - 1) as u32;
    let at = first(others);
    Ok(TreeNode::Split { var, at, mult })
}

/// Takes over what a line says.
fn take_line(
    alloc: Global,
    cert: &mut CertText,
    kind: Kind,
    numbers: &[u64],
) -> Result<(), AllocError>
    requires { Carries kind numbers.now }
    ensures { IfOk result (λ _. cert.new ≡ taken cert.old kind numbers.now) }
{
    match kind {
        Kind::Header => {}
        Kind::Vars => cert.vars = first(numbers) as u32,
        Kind::Rows => cert.rows = first(numbers) as u32,
        Kind::Optimal => cert.claim = Claim::Optimal(plain(first(numbers))),
        Kind::OptimalMinus => cert.claim = Claim::Optimal(minus(first(numbers))),
        Kind::Infeasible => cert.claim = Claim::Infeasible,
        Kind::Undecided => cert.claim = Claim::Undecided(Some(plain(first(numbers)))),
        Kind::UndecidedMinus => cert.claim = Claim::Undecided(Some(minus(first(numbers)))),
        Kind::UndecidedNone => cert.claim = Claim::Undecided(None),
        Kind::Package => {}
        Kind::Pair => cert.pairs.push((first(numbers), first(tail(numbers))))?,
        Kind::Close => cert.nodes.push(TreeNode::Leaf(mult_of(alloc, numbers)?))?,
        Kind::Split => cert.nodes.push(split_of(alloc, numbers)?)?,
        Kind::Open => cert.nodes.push(TreeNode::Open)?,
        Kind::End => {}
    }
    Ok(())
}

/// The fault of a bad line after so many others.
fn bad_line(line: u64, count: u64) -> CertFault
    requires { line + count < 2 ^ 64 }
    ensures { IsBadAt line count result }
{
    if count == 0 {
        return CertFault::BadHeader;
    }
    CertFault::BadLine(line + count)
}

/// The fault of a text whose last line has no line feed.
fn fault_at_end(
    expect: Expect,
    rest: &[u8],
    line: u64,
    count: u64,
    numbers: &mut Vec<u64>,
) -> CertFault
    requires sound { IsSound expect }
    requires fits { line + count < 2 ^ 64 }
    requires none { HasNoFeed rest.now }
    ensures { IsNextFault expect rest.now line count result }
{
    match begins_row(expect, rest, numbers) {
        Ok(true) => CertFault::Truncated,
        Ok(false) => bad_line(line, count),
        Err(fault) => CertFault::Memory(fault),
    }
}

/// The kind of the next line and how many bytes it has with its line feed. Its numbers are left.
fn next_row(
    expect: Expect,
    rest: &[u8],
    line: u64,
    count: u64,
    numbers: &mut Vec<u64>,
) -> Result<(Kind, usize), CertFault>
    requires sound { IsSound expect }
    requires fits { line + count < 2 ^ 64 }
    requires size { length rest.now + 1 < 2 ^ 64 }
    ensures { IsNextAnswer expect rest.now line count numbers.new.items result }
{
    let Some((now, _)) = split_line(rest) else {
        return Err(fault_at_end(expect, rest, line, count, numbers));
    };
    match row(expect, now, numbers) {
        Ok(Some(kind)) => Ok((kind, now.len() + 1)),
        Ok(None) => Err(bad_line(line, count)),
        Err(fault) => Err(CertFault::Memory(fault)),
    }
}

/// Reads the certificate at the beginning of a text whose lines are counted from `line` on.
pub fn read_part(alloc: Global, text: &[u8], line: u64) -> Result<Part, CertFault>
    requires { line + length text.now < 2 ^ 64 }
    ensures { IsPart text.now line result }
{
    let mut cert = CertText {
        vars: 0,
        rows: 0,
        claim: Claim::Infeasible,
        pairs: Items::new(alloc),
        nodes: Items::new(alloc),
    };
    let mut expect = Expect::AtHeader;
    let mut numbers = Vec::new(alloc);
    let mut end = 0;
    let mut count = 0;
    'lines: while !expect.is_done() {
        let (kind, size) = match next_row(expect, &text[end..], line, count, &mut numbers) {
            Ok(both) => both,
            Err(fault) => return Err(fault),
        };
        if let Err(fault) = take_line(alloc, &mut cert, kind, &numbers) {
            return Err(CertFault::Memory(fault));
        }
        expect = expect.after(kind, &numbers);
        end += size;
        count += 1;
    }
    let line = line + count;
    Ok(Part { cert, end, line })
}

/// Reads a text that is to be one certificate.
pub fn read_cert(alloc: Global, text: &[u8]) -> Result<CertText, CertFault>
    requires { length text.now + 1 < 2 ^ 64 }
    ensures { IsRead text.now result }
{
    match read_part(alloc, text, 1) {
        Ok(part) => whole_of(part, text),
        Err(fault) => Err(fault),
    }
}

/// The certificate of a part that is to be the whole text.
fn whole_of(part: Part, text: &[u8]) -> Result<CertText, CertFault>
    requires { IsPart text.now 1 (Ok part) }
    ensures { IsRead text.now result }
{
    let Part { cert, end, line } = part;
    if end < text.len() {
        return Err(CertFault::Trailing(line));
    }
    Ok(cert)
}
