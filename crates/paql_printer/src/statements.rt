//! All statements.
ghost use Rattle.std.specs.Prelude.{◌≡◌, ℕ, List, IfOk};
ghost use Rattle.paql_ast.specs.declared.statements.Statement.TheVariants as statements;
ghost use Rattle.paql_printer.specs.Print as print;
ghost use Rattle.paql_grammar.specs.Texts.{IsStatement};
ghost use Rattle.paql_printer.specs.Texts.{canonical_text};
ghost use Rattle.paql_printer.specs.Fronts.{Writes};

use crate::leaves::{name, number, whole};
use crate::lists::listed;
use crate::queries::{filter, query};
use crate::writer::Writer;
use paql_ast::conditions::Pred;
use paql_ast::statements::Statement;
use paql_lexer::Kind;
use pq_base::Scaled;
use schema_types::{Column, Lit, Text};
use sqlite_items::Items;
use std::alloc::{AllocError, Global};

fn create(writer: &mut Writer, table: &Text, columns: &[Column]) -> Result<(), AllocError>
    ensures { Writes result writer.old writer.new
        (print.statement (statements.Create table.now columns.now)) }
{
    writer.word(Kind::Create)?;
    writer.word(Kind::Table)?;
    name(writer, table)?;
    writer.word(Kind::LeftParen)?;
    listed(writer, columns)?;
    writer.word(Kind::RightParen)
}

fn insert(writer: &mut Writer, table: &Text, rows: &[Items<Lit>]) -> Result<(), AllocError>
    ensures { Writes result writer.old writer.new
        (print.statement (statements.Insert table.now rows.now)) }
{
    writer.word(Kind::Insert)?;
    writer.word(Kind::Into)?;
    name(writer, table)?;
    writer.word(Kind::Values)?;
    listed(writer, rows)
}

fn load(writer: &mut Writer, table: &Text, bytes: u64) -> Result<(), AllocError>
    ensures { Writes result writer.old writer.new
        (print.statement (statements.Load table.now bytes)) }
{
    writer.word(Kind::Load)?;
    name(writer, table)?;
    writer.word(Kind::Bytes)?;
    whole(writer, bytes)
}

fn update(
    writer: &mut Writer,
    table: &Text,
    sets: &[(Text, Lit)],
    of: &Option<Pred>,
) -> Result<(), AllocError>
    ensures { Writes result writer.old writer.new
        (print.statement (statements.Update table.now sets.now of.now)) }
{
    writer.word(Kind::Update)?;
    name(writer, table)?;
    writer.word(Kind::Set)?;
    listed(writer, sets)?;
    filter(writer, of)
}

fn delete(writer: &mut Writer, table: &Text, of: &Option<Pred>) -> Result<(), AllocError>
    ensures { Writes result writer.old writer.new
        (print.statement (statements.Delete table.now of.now)) }
{
    writer.word(Kind::Delete)?;
    writer.word(Kind::From)?;
    name(writer, table)?;
    filter(writer, of)
}

fn partition(
    writer: &mut Writer,
    table: &Text,
    columns: &[Text],
    size: u64,
    radius: Scaled,
) -> Result<(), AllocError>
    ensures { Writes result writer.old writer.new
        (print.statement (statements.Partition table.now columns.now size radius)) }
{
    writer.word(Kind::Partition)?;
    name(writer, table)?;
    writer.word(Kind::On)?;
    writer.word(Kind::LeftParen)?;
    listed(writer, columns)?;
    writer.word(Kind::RightParen)?;
    writer.word(Kind::Size)?;
    whole(writer, size)?;
    writer.word(Kind::Radius)?;
    number(writer, radius)
}

fn vacuum(writer: &mut Writer, version: u64) -> Result<(), AllocError>
    ensures { Writes result writer.old writer.new (print.statement (statements.Vacuum version)) }
{
    writer.word(Kind::Vacuum)?;
    whole(writer, version)
}

/// The lexemes of a statement.
fn lexemes(writer: &mut Writer, statement: &Statement) -> Result<(), AllocError>
    ensures { Writes result writer.old writer.new (print.statement statement.now) }
{
    match statement {
        Statement::Create { table, columns } => create(writer, table, columns.as_slice()),
        Statement::Insert { table, rows } => insert(writer, table, rows.as_slice()),
        Statement::Load { table, bytes } => load(writer, table, *bytes),
        Statement::Update {
            table,
            sets,
            filter,
        } => { update(writer, table, sets.as_slice(), filter) }
        Statement::Delete { table, filter } => delete(writer, table, filter),
        Statement::Partition {
            table,
            columns,
            size,
            radius,
        } => partition(writer, table, columns.as_slice(), *size, *radius),
        Statement::Vacuum { version } => vacuum(writer, *version),
        Statement::Begin => writer.word(Kind::Begin),
        Statement::Commit => writer.word(Kind::Commit),
        Statement::Rollback => writer.word(Kind::Rollback),
        Statement::Certificate => writer.word(Kind::Certificate),
        Statement::Query(asked) => query(writer, asked),
    }
}

/// The canonical text of a statement. Keywords are in upper case, and a name is in double
/// quotes where it would be a keyword. One space is between two lexemes, but none beside a
/// point, after `(`, before `)` and `,`, between PACKAGE, COUNT, SUM, AVG or DEC and its
/// bracket, and after a minus that is a sign.
pub fn print(alloc: Global, statement: &Statement) -> Result<Vec<u8>, AllocError>
    ensures canonical { IfOk result (λ text. text.items ≡ canonical_text statement.now) }

    // Where some text is one of the statement, so is this, and of no other statement: parsing it
    // gives the statement.
    ensures read { IfOk result (λ text. (source : List ℕ) → IsStatement source statement.now
        → IsStatement text.items statement.now) }
{
    let mut writer = Writer::new(alloc);
    lexemes(&mut writer, statement)?;
    Ok(writer.into_bytes())
}
