//! Statements of each kind, and the places of faults.
use paql_ast::conditions::Pred;
use paql_ast::statements::Statement;
use paql_parser::{ParseFault, one_tree, parse};
use pq_base::Scaled;
use schema_types::Lit;
use sqlite_items::Items;
use std::alloc::Global;
use std::test::*;

/// Which statement was found.
#[derive(Clone, Copy, Debug, PartialEq, Eq)]
enum Line {
    Create,
    Insert,
    Load,
    Update,
    Delete,
    Partition,
    Vacuum,
    Begin,
    Commit,
    Rollback,
    Certificate,
    Query,
}

/// What the tests see of an answer.
#[derive(Clone, Copy, Debug, PartialEq, Eq)]
enum Answer {
    Nothing,
    Found(Line),
    Lex(usize),
    Syntax(usize),
    Deep(usize),
    Memory,
}

fn line_of(statement: &Statement) -> Line {
    match statement {
        Statement::Create { .. } => Line::Create,
        Statement::Insert { .. } => Line::Insert,
        Statement::Load { .. } => Line::Load,
        Statement::Update { .. } => Line::Update,
        Statement::Delete { .. } => Line::Delete,
        Statement::Partition { .. } => Line::Partition,
        Statement::Vacuum { .. } => Line::Vacuum,
        Statement::Begin => Line::Begin,
        Statement::Commit => Line::Commit,
        Statement::Rollback => Line::Rollback,
        Statement::Certificate => Line::Certificate,
        Statement::Query(_) => Line::Query,
    }
}

fn answer_of(alloc: Global, text: &[u8]) -> Answer {
    match parse(alloc, text) {
        Ok(None) => Answer::Nothing,
        Ok(Some(statement)) => Answer::Found(line_of(&statement)),
        Err(ParseFault::Lex(at)) => Answer::Lex(at),
        Err(ParseFault::Syntax(at)) => Answer::Syntax(at),
        Err(ParseFault::Deep(at)) => Answer::Deep(at),
        Err(ParseFault::Memory) => Answer::Memory,
    }
}

#[test]
fn answers(rt: HostRuntime) {
    let rows: [(&[u8], Answer); 29] = [
        (b"", Answer::Nothing),
        (b" -- only a comment", Answer::Nothing),
        (
            b"CREATE TABLE T (a INT, b DEC(2), c TEXT)",
            Answer::Found(Line::Create),
        ),
        (
            b"insert into \"table\" values (1, 'it''s'), (-2.50, '')",
            Answer::Found(Line::Insert),
        ),
        (b"LOAD T BYTES 12", Answer::Found(Line::Load)),
        (
            b"UPDATE T SET a = 1, b = 'x' WHERE a <> b",
            Answer::Found(Line::Update),
        ),
        (b"DELETE FROM T", Answer::Found(Line::Delete)),
        (
            b"DELETE FROM T WHERE a = 1 OR b BETWEEN 1 AND 2 AND NOT c IN ('x', -1)",
            Answer::Found(Line::Delete),
        ),
        (
            b"PARTITION T ON (a, b) SIZE 100 RADIUS 0.5",
            Answer::Found(Line::Partition),
        ),
        (b"VACUUM 3", Answer::Found(Line::Vacuum)),
        (b"BEGIN", Answer::Found(Line::Begin)),
        (b"Commit", Answer::Found(Line::Commit)),
        (b"rollback", Answer::Found(Line::Rollback)),
        (b"CERTIFICATE", Answer::Found(Line::Certificate)),
        (b"SELECT PACKAGE(T) AS P FROM T", Answer::Found(Line::Query)),
        (b"BEGIN #", Answer::Lex(6)),
        (b"SELEC", Answer::Syntax(0)),
        (b"BEGIN BEGIN", Answer::Syntax(6)),
        (b"VACUUM 1.5", Answer::Syntax(7)),
        (b"VACUUM 1234567890123456789", Answer::Syntax(7)),
        (b"DELETE FROM where", Answer::Syntax(12)),
        (b"CREATE TABLE T (a DEC)", Answer::Syntax(21)),
        (b"INSERT INTO T VALUES (1,)", Answer::Syntax(24)),
        (b"DELETE FROM T WHERE (a = 1", Answer::Syntax(26)),
        (
            b"DELETE FROM T WHERE ((((((((((((((((((((((((((((((((((((((((((((((((((((((((((((((((v = 1))))))))))))))))))))))))))))))))))))))))))))))))))))))))))))))))",
            Answer::Found(Line::Delete),
        ),
        (
            b"DELETE FROM T WHERE NOT NOT NOT NOT NOT NOT NOT NOT NOT NOT NOT NOT NOT NOT NOT NOT NOT NOT NOT NOT NOT NOT NOT NOT NOT NOT NOT NOT NOT NOT NOT NOT NOT NOT NOT NOT NOT NOT NOT NOT NOT NOT NOT NOT NOT NOT NOT NOT NOT NOT NOT NOT NOT NOT NOT NOT NOT NOT NOT NOT NOT NOT NOT NOT v IN (1)",
            Answer::Found(Line::Delete),
        ),
        (
            b"DELETE FROM T WHERE (((((((((((((((((((((((((((((((((((((((((((((((((((((((((((((((((",
            Answer::Deep(84),
        ),
        (
            b"DELETE FROM T WHERE NOT NOT NOT NOT NOT NOT NOT NOT NOT NOT NOT NOT NOT NOT NOT NOT NOT NOT NOT NOT NOT NOT NOT NOT NOT NOT NOT NOT NOT NOT NOT NOT NOT NOT NOT NOT NOT NOT NOT NOT NOT NOT NOT NOT NOT NOT NOT NOT NOT NOT NOT NOT NOT NOT NOT NOT NOT NOT NOT NOT NOT NOT NOT NOT NOT ",
            Answer::Deep(276),
        ),
        (
            b"DELETE FROM T WHERE a (((((((((((((((((((((((((((((((((((((((((((((((((((((((((((((((((",
            Answer::Syntax(22),
        ),
    ];
    for (text, want) in rows {
        assert_eq!(rt; answer_of(rt.alloc(), text), want);
    }
}

fn is_number(lit: &Lit, want: Scaled) -> bool {
    match lit {
        Lit::Num(number) => *number == want,
        Lit::Text(_) => false,
    }
}

/// Whether the part is a BETWEEN of these numbers.
fn is_between(part: &Pred, least: Scaled, most: Scaled) -> bool {
    match part {
        Pred::Between { low, high, .. } => is_number(low, least) && is_number(high, most),
        _ => false,
    }
}

/// The parts of the AND by which a DELETE chooses its rows.
fn and_of_delete(statement: Statement) -> Option<Items<Pred>> {
    let Statement::Delete { filter, .. } = statement else {
        return None;
    };
    match filter? {
        Pred::And(parts) => Some(parts),
        _ => None,
    }
}

#[test]
fn brackets_of_and_are_gone(rt: HostRuntime) -> Result<(), Fail> {
    let text = b"DELETE FROM T WHERE a = 1 AND (b = 2 AND c BETWEEN -1 AND 2.50)";
    let statement = parse(rt.alloc(), text)
        .ok()
        .flatten()
        .ok_or("the text spells a statement")?;
    let parts = and_of_delete(statement).ok_or("the statement is a DELETE with an AND")?;
    assert_eq!(rt; parts.len(), 3);
    let last = parts.get(2).ok_or("there is a third part")?;
    assert!(rt; is_between(last, Scaled::new(-1, 0), Scaled::new(25, 1)));
    one_tree();
    Ok(())
}

#[test]
fn examples_of_each_line(rt: HostRuntime) -> Result<(), Fail> {
    let rows = [
        b"CREATE TABLE Recipes (name TEXT, kcal DEC(1), n INT)".as_slice(),
        b"INSERT INTO Recipes VALUES ('soup', 0.7, 1), ('rice', 0.8, 2)".as_slice(),
        b"LOAD Recipes BYTES 120".as_slice(),
        b"UPDATE Recipes SET kcal = 0.9, n = 3 WHERE name = 'soup'".as_slice(),
        b"DELETE FROM Recipes WHERE kcal > 1".as_slice(),
        b"PARTITION Recipes ON (kcal, n) SIZE 100 RADIUS 0.5".as_slice(),
        b"VACUUM 3".as_slice(),
        b"BEGIN".as_slice(),
        b"INSERT INTO T VALUES ('it''s', -0.7)".as_slice(),
        b"DELETE FROM T WHERE kcal < 1 OR n = 2".as_slice(),
        b"DELETE FROM T WHERE kcal < 1 AND n = 2".as_slice(),
        b"DELETE FROM T WHERE NOT (n = 2)".as_slice(),
        b"DELETE FROM T WHERE n BETWEEN 1 AND 3".as_slice(),
        b"DELETE FROM T WHERE name IN ('soup', 'rice')".as_slice(),
        b"DELETE FROM T WHERE kcal <> fat".as_slice(),
        b"DELETE FROM T WHERE R.kcal != -1.5".as_slice(),
        b"SELECT PACKAGE(R) AS P FROM Recipes R AT VERSION 2 REPEAT 0 WHERE R.kcal < 1 SUCH THAT COUNT(P.*) = 3 MINIMIZE SUM(P.fat) USING DIRECT BUDGET 500".as_slice(),
        b"SELECT PACKAGE(R) AS P FROM Recipes R SUCH THAT SUM(P.kcal) BETWEEN 2.0 AND 2.5".as_slice(),
        b"SELECT PACKAGE(R) AS P FROM Recipes R SUCH THAT AVG(P.kcal) <= 0.8".as_slice(),
        b"SELECT PACKAGE(R) AS P FROM Recipes R SUCH THAT COUNT(*) >= 2".as_slice(),
        b"SELECT PACKAGE(R) AS P FROM Recipes R SUCH THAT 2 * COUNT(P.*) - SUM(P.n) + 1 <= 3".as_slice(),
        b"SELECT PACKAGE(R) AS P FROM Recipes R SUCH THAT 3 <= 2 * SUM(P.n)".as_slice(),
        b"SELECT PACKAGE(R) AS P FROM Recipes R SUCH THAT (SELECT COUNT(*) FROM P WHERE n > 1) = 0".as_slice(),
        b"SELECT PACKAGE(R) AS P FROM Recipes R SUCH THAT AVG(kcal) BETWEEN 0.1 AND 2".as_slice(),
        b"SELECT PACKAGE(R) AS P FROM \"from\" MAXIMIZE SUM(P.kcal) - 2 * COUNT(P.*) -- a comment".as_slice(),
    ];
    for text in rows {
        assert!(rt; matches!(parse(rt.alloc(), text), Ok(Some(_))));
    }
    Ok(())
}
