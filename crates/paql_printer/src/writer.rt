//! The text that is being written: lexemes with the spaces of a canonical text between them.
ghost use Rattle.std.specs.Prelude.{◌≡◌, OnOk};
ghost use Rattle.paql_printer.specs.Spacing as spacing;
ghost use Rattle.paql_printer.specs.Spellings.{spelled};
ghost use Rattle.paql_printer.specs.Fronts.{Writes, begun, more, of_kind, put, start};

use crate::spellings::spelling;
use paql_lexer::Kind;
use std::alloc::{AllocError, Global};
use std::marker::Model;

/// What is written so far.
#[derive(Drop)]
pub(crate) struct Writer {
    alloc: Global,
    bytes: Vec<u8>,
    before: Kind,
    last: Kind,
}

impl Model for Writer {
    ghost use Rattle.paql_printer.specs.Fronts.{Front};

    ghost Value = { Front };

    ghost view = { λ w. record { bytes = w.bytes.items; before = w.before; last = w.last } };
}

/// Whether a minus after a lexeme of this kind is between two terms of a sum.
fn ends_term(kind: Kind) -> bool
    ensures { result ≡ spacing.ends_term (of_kind kind) }
{
    kind == Kind::Number || kind == Kind::RightParen
}

/// Whether the bracket after a word of this kind follows without a space.
fn calls(kind: Kind) -> bool
    ensures { result ≡ spacing.calls (of_kind kind) }
{
    kind == Kind::Package
        || kind == Kind::Count
        || kind == Kind::Sum
        || kind == Kind::Avg
        || kind == Kind::Dec
}

/// Whether no space is between the last lexeme and the next one.
fn touches(before: Kind, last: Kind, next: Kind) -> bool
    ensures { result ≡ spacing.touches (of_kind before) (of_kind last) (of_kind next) }
{
    last == Kind::Dot
        || next == Kind::Dot
        || last == Kind::LeftParen
        || next == Kind::RightParen
        || next == Kind::Comma
        || (next == Kind::LeftParen && calls(last))
        || (last == Kind::Minus && !ends_term(before))
}

impl Writer {
    /// An empty text.
    pub(crate) fn new(alloc: Global) -> Writer
        ensures { result ≡ start }
    {
        Writer {
            alloc,
            bytes: Vec::new(alloc),
            before: Kind::LeftParen,
            last: Kind::LeftParen,
        }
    }

    /// Where a number's digits are kept for a moment.
    pub(crate) fn alloc(&self) -> Global {
        self.alloc
    }

    /// The text.
    pub(crate) fn into_bytes(self) -> Vec<u8>
        ensures { result.items ≡ self.bytes }
    {
        let Writer { bytes, .. } = self;
        bytes
    }

    /// Begins a lexeme, after a space where one is there.
    #[tactic(auto, unfolding(crate::specs::Fronts::begun))]
    pub(crate) fn begin(&mut self, kind: Kind) -> Result<(), AllocError>
        ensures { OnOk result (self.new ≡ begun self.old kind) }
    {
        if !touches(self.before, self.last, kind) {
            self.bytes.push(b' ')?;
        }
        self.before = self.last;
        self.last = kind;
        Ok(())
    }

    /// Writes bytes of the lexeme that has begun.
    #[tactic(auto, unfolding(crate::specs::Fronts::more))]
    pub(crate) fn append(&mut self, bytes: &[u8]) -> Result<(), AllocError>
        ensures { OnOk result (self.new ≡ more self.old bytes.now) }
    {
        self.bytes.extend_from_slice(bytes)?;
        Ok(())
    }

    /// Writes a lexeme.
    #[tactic(auto, unfolding(crate::specs::Fronts::put))]
    pub(crate) fn lexeme(&mut self, kind: Kind, bytes: &[u8]) -> Result<(), AllocError>
        ensures { OnOk result
            (self.new ≡ put self.old (record { kind = kind; bytes = bytes.now })) }
    {
        self.begin(kind)?;
        self.append(bytes)
    }

    /// Writes a keyword or a sign.
    pub(crate) fn word(&mut self, kind: Kind) -> Result<(), AllocError>
        ensures { OnOk result (self.new ≡ put self.old (spelled kind)) }
    {
        self.lexeme(kind, spelling(kind))
    }
}
