//! Worked queries over a table `T` with the columns `v INT`, `d DEC(2)` and `s TEXT`.
ghost use Rattle.std.specs.Prelude.{◌<◌, ◌≤◌, ◌^◌};

use crate::{BindFault, Refusal, bind, bind_pred};
use bound_query::{BoundQuery, RowPred, RowRight};
use paql_ast::aggregates::{Agg, Plain, SumItem, Term};
use paql_ast::conditions::{CmpOp, ColumnName, Operand, Pred};
use paql_ast::queries::{Conjunct, Goal, Query};
use pq_base::Scaled;
use schema_types::{Column, Kind, Lit};
use sqlite_items::Items;
use std::alloc::{AllocError, Global};
use std::test::*;
use table_schema::{Schema, Schemas};

fn add_column(
    alloc: Global,
    columns: &mut Items<Column>,
    name: &[u8],
    kind: Kind,
) -> Result<(), AllocError> {
    let name = Items::from_slice(alloc, name)?;
    columns.push(Column { name, kind })
}

fn schema_of_t(alloc: Global) -> Result<Option<Schema>, AllocError> {
    let mut columns = Items::new(alloc);
    let name = Items::from_slice(alloc, b"v")?;
    columns.push(Column {
        name,
        kind: Kind::Int,
    })?;
    add_column(alloc, &mut columns, b"d", Kind::Dec(2))?;
    add_column(alloc, &mut columns, b"s", Kind::Text)?;
    if columns.is_empty() {
        return Ok(None);
    }
    Ok(Schema::new(columns).ok())
}

fn tables(alloc: Global) -> Result<Schemas, AllocError> {
    let mut tables = Items::new(alloc);
    if let Some(schema) = schema_of_t(alloc)? {
        tables.push((Items::from_slice(alloc, b"T")?, schema))?;
    }
    Ok(tables)
}

fn column_of(alloc: Global, prefix: &[u8], name: &[u8]) -> Result<ColumnName, AllocError> {
    Ok(ColumnName {
        prefix: Some(Items::from_slice(alloc, prefix)?),
        name: Items::from_slice(alloc, name)?,
    })
}

fn item_of(minus: bool, term: Term) -> SumItem {
    SumItem { minus, term }
}

fn counted(factor: Option<Scaled>) -> Term {
    Term::Agg {
        factor,
        agg: Agg {
            plain: Plain::Count(None),
            only: None,
        },
    }
}

fn sum_of(alloc: Global, item: SumItem) -> Result<Items<SumItem>, AllocError> {
    let mut items = Items::new(alloc);
    items.push(item)?;
    Ok(items)
}

/// `SUM(P.name)`
fn goal_of(alloc: Global, name: &[u8]) -> Result<Goal, AllocError> {
    let plain = Plain::Sum(column_of(alloc, b"P", name)?);
    let term = Term::Agg {
        factor: None,
        agg: Agg { plain, only: None },
    };
    Ok(Goal {
        maximize: true,
        parts: sum_of(alloc, item_of(false, term))?,
    })
}

/// `SELECT PACKAGE(T) AS P FROM T ..`
fn query_of(
    alloc: Global,
    repeat: Option<u64>,
    conjuncts: Items<Conjunct>,
    goal: Option<Goal>,
) -> Result<Query, AllocError> {
    Ok(Query {
        of: Items::from_slice(alloc, b"T")?,
        package: Items::from_slice(alloc, b"P")?,
        table: Items::from_slice(alloc, b"T")?,
        alias: None,
        version: None,
        repeat,
        filter: None,
        conjuncts,
        goal,
        method: None,
        budget: None,
    })
}

/// The refusal's word and the name that it tells.
fn told(answer: &Result<BoundQuery, BindFault>) -> (&str, &[u8]) {
    match answer {
        Ok(_) => ("bound", b"".as_slice()),
        Err(BindFault::Memory(_)) => ("memory", b"".as_slice()),
        Err(BindFault::Refused(Refusal::NoTable(name))) => ("notable", name.as_slice()),
        Err(BindFault::Refused(Refusal::NoColumn(name))) => ("nocolumn", name.as_slice()),
        Err(BindFault::Refused(Refusal::WrongKind(name))) => ("wrongkind", name.as_slice()),
        Err(BindFault::Refused(Refusal::Unbounded)) => ("unbounded", b"".as_slice()),
        Err(BindFault::Refused(Refusal::LimitRepeat(_))) => ("limitrepeat", b"".as_slice()),
        Err(BindFault::Refused(_)) => ("another", b"".as_slice()),
    }
}

#[test]
fn refuses_goals(rt: HostRuntime) -> Result<(), Fail> {
    let alloc = rt.alloc();
    let tables = tables(alloc)?;
    let cases: [(&[u8], Option<u64>, &str, &[u8]); 6] = [
        (b"v", Some(0), "bound", b""),
        (b"w", Some(0), "nocolumn", b"P.w"),
        (b"s", None, "wrongkind", b"P.s"),
        (b"v", None, "unbounded", b""),
        (b"v", Some(999_999), "bound", b""),
        (b"v", Some(1_000_000), "limitrepeat", b""),
    ];
    for (name, repeat, word, of) in cases {
        let goal = Some(goal_of(alloc, name)?);
        let query = query_of(alloc, repeat, Items::new(alloc), goal)?;
        let result = bind(alloc, &tables, &query);
        assert_eq!(rt; told(&result).0, word);
        assert_eq!(rt; told(&result).1, of);
    }
    Ok(())
}

/// How often a row can occur, if something says it, and the count's factor and its limit.
fn bounds_of(bound: &BoundQuery) -> Option<(u32, i64, i128)> {
    let conjunct = bound.conjuncts.get(0)?;
    let term = conjunct.terms.get(0)?;
    Some((bound.row_bound, term.factor, conjunct.high))
}

#[test]
fn bounds_rows(rt: HostRuntime) -> Result<(), Fail> {
    let alloc = rt.alloc();
    let tables = tables(alloc)?;
    let whole = |digits: i128| Scaled::of(digits.clamp(-9, 99), 0);
    let tenths = |digits: i128| Scaled::of(digits.clamp(-9, 99), 1);
    let cases = [
        (CmpOp::Le, false, whole(4), None, Some((4, 1, 4))),
        (CmpOp::Le, false, tenths(35), None, Some((3, 10, 35))),
        (CmpOp::Lt, false, tenths(35), None, Some((3, 10, 35))),
        (CmpOp::Lt, false, whole(3), None, Some((2, 1, 3))),
        (CmpOp::Lt, false, whole(0), None, Some((0, 1, 0))),
        (CmpOp::Eq, true, whole(3), None, Some((0, 1, -3))),
        (CmpOp::Ge, false, whole(3), None, None),
        (CmpOp::Le, false, whole(4), Some(whole(2)), None),
    ];
    for (op, minus, number, factor, want) in cases {
        let left = sum_of(alloc, item_of(false, counted(factor)))?;
        let right = sum_of(alloc, item_of(minus, Term::Number(number)))?;
        let mut conjuncts = Items::new(alloc);
        conjuncts.push(Conjunct::Compare { left, op, right })?;
        let query = query_of(alloc, None, conjuncts, None)?;
        match bind(alloc, &tables, &query) {
            Ok(bound) => assert_eq!(rt; bounds_of(&bound), want),
            Err(fault) => {
                assert_eq!(rt; told(&Err(fault)).0, "unbounded");
                assert_eq!(rt; None, want);
            }
        }
    }
    Ok(())
}

/// The factor, the minus and the scale of an average.
fn average_of(bound: &BoundQuery) -> Option<(i64, i128, u8)> {
    let conjunct = bound.conjuncts.get(0)?;
    let term = conjunct.terms.get(0)?;
    Some((term.factor, term.minus, conjunct.scale))
}

#[test]
fn averages_have_one_scale(rt: HostRuntime) -> Result<(), Fail> {
    let alloc = rt.alloc();
    let tables = tables(alloc)?;
    let cases: [(&[u8], Scaled, (i64, i128, u8)); 3] = [
        (b"v", Scaled::of(5, 0), (1, 5, 0)),
        (b"v", Scaled::of(55, 1), (10, 55, 1)),
        (b"d", Scaled::of(5, 0), (1, 500, 2)),
    ];
    for (name, limit, want) in cases {
        let column = column_of(alloc, b"P", name)?;
        let mut conjuncts = Items::new(alloc);
        conjuncts.push(Conjunct::Avg {
            column,
            op: CmpOp::Le,
            limit,
        })?;
        let query = query_of(alloc, Some(0), conjuncts, None)?;
        match bind(alloc, &tables, &query) {
            Ok(bound) => assert_eq!(rt; average_of(&bound), Some(want)),
            Err(fault) => assert!(rt; false, "{fault}"),
        }
    }
    Ok(())
}

#[test]
fn binds_conditions(rt: HostRuntime) -> Result<(), Fail> {
    let alloc = rt.alloc();
    let schema = schema_of_t(alloc)?.ok_or("no schema")?;
    let pred = Pred::Compare {
        column: column_of(alloc, b"T", b"d")?,
        op: CmpOp::Gt,
        right: Operand::Lit(Lit::Num(Scaled::of(1, 0))),
    };
    match bind_pred(alloc, &schema, b"T", &pred) {
        Ok(
            RowPred::Compare {
                column,
                scale,
                right: RowRight::Lit(_),
                ..
            },
        ) => assert_eq!(rt; (column, scale), (1, 2)),
        _ => assert!(rt; false),
    }
    let refused = bind_pred(alloc, &schema, b"R", &pred);
    assert!(rt; matches!(refused, Err(BindFault::Refused(Refusal::NoColumn(_)))));
    Ok(())
}
