//! Lists with commas between their entries.
ghost use Rattle.paql_lexer.specs.declared.vocabulary.Kind.TheVariants as kinds;
ghost use Rattle.paql_printer.specs.Print as print;
ghost use Rattle.paql_printer.specs.Fronts.{Writes};
ghost use Rattle.paql_printer.specs.Parts.{separator};

use crate::leaves::{lit, name, whole};
use crate::writer::Writer;
use paql_lexer::Kind;
use schema_types::{Column, Lit, Text};
use sqlite_items::Items;
use std::alloc::AllocError;

/// What is in a list.
pub(crate) trait Entry {
    ghost use Rattle.std.specs.Prelude.{List};
    ghost use Rattle.paql_grammar.specs.Lexemes.{Lexeme};

    ghost lexemes: { Self → List Lexeme };

    fn write(&self, writer: &mut Writer) -> Result<(), AllocError>
        ensures { Writes result writer.old writer.new (lexemes self.now) };
}

impl Entry for Lit {
    ghost lexemes = { print.lit };

    fn write(&self, writer: &mut Writer) -> Result<(), AllocError> {
        lit(writer, self)
    }
}

impl Entry for Text {
    ghost use Rattle.paql_printer.specs.Parts.{named};

    ghost lexemes = { named };

    fn write(&self, writer: &mut Writer) -> Result<(), AllocError> {
        name(writer, self)
    }
}

impl Entry for Items<Lit> {
    ghost lexemes = { print.tuple };

    fn write(&self, writer: &mut Writer) -> Result<(), AllocError> {
        writer.word(Kind::LeftParen)?;
        listed(writer, self.as_slice())?;
        writer.word(Kind::RightParen)
    }
}

impl Entry for (Text, Lit) {
    ghost lexemes = { print.assignment };

    fn write(&self, writer: &mut Writer) -> Result<(), AllocError> {
        name(writer, &self.0)?;
        writer.word(Kind::Equal)?;
        lit(writer, &self.1)
    }
}

impl Entry for Column {
    ghost lexemes = { print.defined_column };

    fn write(&self, writer: &mut Writer) -> Result<(), AllocError> {
        name(writer, &self.name)?;
        column_kind(writer, self.kind)
    }
}

fn column_kind(writer: &mut Writer, kind: schema_types::Kind) -> Result<(), AllocError>
    ensures { Writes result writer.old writer.new (print.column_kind kind) }
{
    match kind {
        schema_types::Kind::Int => writer.word(Kind::Int),
        schema_types::Kind::Dec(scale) => {
            writer.word(Kind::Dec)?;
            writer.word(Kind::LeftParen)?;
            whole(writer, scale)?;
            writer.word(Kind::RightParen)
        }
        schema_types::Kind::Text => writer.word(Kind::TextType),
    }
}

/// Writes the word, but before the first part.
pub(crate) fn separate(writer: &mut Writer, kind: Kind, at: usize) -> Result<(), AllocError>
    ensures { Writes result writer.old writer.new (separator kind at) }
{
    if at == 0 {
        return Ok(());
    }
    writer.word(kind)
}

/// Writes a list.
pub(crate) fn listed<T: Entry>(writer: &mut Writer, entries: &[T]) -> Result<(), AllocError>
    ensures { Writes result writer.old writer.new (print.listed kinds.Comma T.lexemes entries.now) }
{
    for (at, entry) in entries.iter().enumerate() {
        separate(writer, Kind::Comma, at)?;
        entry.write(writer)?;
    }
    Ok(())
}
