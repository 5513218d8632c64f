//! The canonical texts of trees that are built by hand.
use paql_ast::conditions::{CmpOp, ColumnName, Operand, Pred};
use paql_ast::statements::Statement;
use paql_printer::print;
use pq_base::Scaled;
use schema_types::{Lit, Text};
use sqlite_items::{Boxed, Items};
use std::alloc::{AllocError, Global};
use std::test::*;

fn word(alloc: Global, bytes: &[u8]) -> Result<Text, AllocError> {
    Items::from_slice(alloc, bytes)
}

fn column(alloc: Global, name: &[u8]) -> Result<ColumnName, AllocError> {
    let name = word(alloc, name)?;
    Ok(ColumnName { prefix: None, name })
}

/// `name = 1`
fn is_one(alloc: Global, name: &[u8]) -> Result<Pred, AllocError> {
    let column = column(alloc, name)?;
    Ok(Pred::Compare {
        column,
        op: CmpOp::Eq,
        right: Operand::Lit(Lit::Num(Scaled::new(1, 0))),
    })
}

fn either(alloc: Global, one: Pred, other: Pred) -> Result<Pred, AllocError> {
    let parts = vec![in alloc; one, other]?;
    Ok(Pred::Or(Items::from_vec(parts)))
}

fn both(alloc: Global, one: Pred, other: Pred) -> Result<Pred, AllocError> {
    let parts = vec![in alloc; one, other]?;
    Ok(Pred::And(Items::from_vec(parts)))
}

fn not(alloc: Global, denied: Pred) -> Result<Pred, AllocError> {
    let denied = Boxed::new(alloc, denied)?;
    Ok(Pred::Not(denied))
}

fn is_printed(alloc: Global, statement: &Statement, want: &[u8]) -> Result<bool, AllocError> {
    Ok(print(alloc, statement)?.as_slice() == want)
}

/// `a = 1 OR b = 1`
fn a_or_b(alloc: Global) -> Result<Pred, AllocError> {
    let one = is_one(alloc, b"a")?;
    let other = is_one(alloc, b"b")?;
    either(alloc, one, other)
}

/// `(a = 1 OR b = 1) AND NOT (a = 1 OR b = 1)`
fn filter(alloc: Global) -> Result<Pred, AllocError> {
    let one = a_or_b(alloc)?;
    let other = a_or_b(alloc)?;
    let denied = not(alloc, other)?;
    both(alloc, one, denied)
}

#[test]
fn conditions_with_brackets(rt: HostRuntime) -> Result<(), Fail> {
    let alloc = rt.alloc();
    let table = word(alloc, b"T")?;
    let filter = Some(filter(alloc)?);
    let text = b"DELETE FROM T WHERE (a = 1 OR b = 1) AND NOT (a = 1 OR b = 1)";
    assert!(rt; is_printed(alloc, &Statement::Delete { table, filter }, text)?);
    Ok(())
}
