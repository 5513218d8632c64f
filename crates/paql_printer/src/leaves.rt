//! Names, numbers, literals, columns and comparisons.
ghost use Rattle.std.specs.Prelude.{◌≡◌, ◌∷◌, [], OnOk};
ghost use Rattle.paql_lexer.specs.declared.vocabulary.Kind.TheVariants as kinds;
ghost use Rattle.paql_lexer.specs.Lexical.{doubled};
ghost use Rattle.paql_printer.specs.Print as print;
ghost use Rattle.paql_printer.specs.Spellings as spellings;
ghost use Rattle.paql_printer.specs.Spellings.{spelled};
ghost use Rattle.paql_printer.specs.Fronts.{Writes, more, put};

use crate::writer::Writer;
use paql_ast::conditions::{CmpOp, ColumnName, Operand};
use paql_lexer::{Kind, word_kind};
use pq_base::Scaled;
use pq_base::decimal::print_decimal;
use schema_types::{Lit, Text};
use std::alloc::AllocError;

/// A name, in double quotes where it would be a keyword.
pub(crate) fn name(writer: &mut Writer, name: &Text) -> Result<(), AllocError>
    ensures { OnOk result (writer.new ≡ put writer.old (spellings.name name.now)) }
{
    let word = name.as_slice();
    if word_kind(word) == Kind::Name {
        return writer.lexeme(Kind::Name, word);
    }
    writer.begin(Kind::QuotedName)?;
    writer.append(b"\"")?;
    writer.append(word)?;
    writer.append(b"\"")
}

/// A byte, or two where it is a quote.
fn append_byte(writer: &mut Writer, byte: u8) -> Result<(), AllocError>
    ensures { OnOk result (writer.new ≡ more writer.old (doubled (byte ∷ []))) }
{
    if byte == b'\'' {
        return writer.append(b"''");
    }
    writer.append(&[byte])
}

/// The bytes, with each quote doubled.
fn append_doubled(writer: &mut Writer, content: &[u8]) -> Result<(), AllocError>
    ensures { OnOk result (writer.new ≡ more writer.old (doubled content.now)) }
{
    for byte in content {
        append_byte(writer, *byte)?;
    }
    Ok(())
}

/// A text in single quotes.
fn quoted(writer: &mut Writer, content: &Text) -> Result<(), AllocError>
    ensures { OnOk result (writer.new ≡ put writer.old (spellings.quoted content.now)) }
{
    writer.begin(Kind::Text)?;
    writer.append(b"'")?;
    append_doubled(writer, content.as_slice())?;
    writer.append(b"'")
}

/// A number without its sign.
pub(crate) fn number(writer: &mut Writer, value: Scaled) -> Result<(), AllocError>
    ensures { OnOk result (writer.new ≡ put writer.old (spellings.number value)) }
{
    let digits = print_decimal(writer.alloc(), value.mant.abs(), value.scale)?;
    writer.lexeme(Kind::Number, digits.as_bytes())
}

/// A whole number.
pub(crate) fn whole(writer: &mut Writer, value: u64) -> Result<(), AllocError>
    ensures { OnOk result (writer.new ≡ put writer.old (spellings.whole value)) }
{
    let digits = value.to_string(writer.alloc())?;
    writer.lexeme(Kind::Number, digits.as_bytes())
}

/// A number, after a minus where it is below zero.
pub(crate) fn signed(writer: &mut Writer, value: Scaled) -> Result<(), AllocError>
    ensures { Writes result writer.old writer.new (spellings.signed value) }
{
    if value.mant < 0 {
        writer.word(Kind::Minus)?;
    }
    number(writer, value)
}

/// A number or a text.
pub(crate) fn lit(writer: &mut Writer, lit: &Lit) -> Result<(), AllocError>
    ensures { Writes result writer.old writer.new (print.lit lit.now) }
{
    match lit {
        Lit::Num(value) => signed(writer, *value),
        Lit::Text(content) => quoted(writer, content),
    }
}

fn prefix(writer: &mut Writer, prefix: &Option<Text>) -> Result<(), AllocError>
    ensures { Writes result writer.old writer.new
        (print.optional (λ word. spellings.name word ∷ (spelled kinds.Dot ∷ [])) prefix.now) }
{
    match prefix {
        Some(word) => {
            name(writer, word)?;
            writer.word(Kind::Dot)
        }
        None => Ok(()),
    }
}

/// A column, with a name before it or not.
pub(crate) fn column(writer: &mut Writer, column: &ColumnName) -> Result<(), AllocError>
    ensures { Writes result writer.old writer.new (print.column column.now) }
{
    prefix(writer, &column.prefix)?;
    name(writer, &column.name)
}

fn operator_kind(op: CmpOp) -> Kind
    ensures { result ≡ print.operator op }
{
    match op {
        CmpOp::Eq => Kind::Equal,
        CmpOp::Ne => Kind::NotEqual,
        CmpOp::Lt => Kind::Less,
        CmpOp::Le => Kind::LessOrEqual,
        CmpOp::Gt => Kind::Greater,
        CmpOp::Ge => Kind::GreaterOrEqual,
    }
}

/// A comparison.
pub(crate) fn operator(writer: &mut Writer, op: CmpOp) -> Result<(), AllocError>
    ensures { OnOk result (writer.new ≡ put writer.old (spelled (print.operator op))) }
{
    writer.word(operator_kind(op))
}

/// What a column is compared with.
pub(crate) fn operand(writer: &mut Writer, operand: &Operand) -> Result<(), AllocError>
    ensures { Writes result writer.old writer.new (print.operand operand.now) }
{
    match operand {
        Operand::Lit(value) => lit(writer, value),
        Operand::Column(of) => column(writer, of),
    }
}
