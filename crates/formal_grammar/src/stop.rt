//! Why a parser stopped.
ghost use Rattle.std.specs.Prelude.{◌≡◌};
ghost use Rattle.formal_grammar.specs.declared.stop.ReadError.TheVariants.{Memory};

use std::alloc::{AllocError, AllocFailed};

/// Why a token cannot be at its place.
#[derive(Clone, Copy, Debug, PartialEq, Eq)]
pub enum Why {
    /// With it, or with the end, the tokens so far begin no text of the language.
    Syntax,
    /// With it the tokens so far begin only texts that nest more deeply than is allowed.
    Deep,
}

/// Why a function of a parser has no value.
#[derive(Clone, Copy, Debug, PartialEq, Eq)]
pub enum ReadError {
    /// Memory ran out.
    Memory,
    /// The tokens are refused. The number is how many are left, the refused one included, so that
    /// an error passes from a part to the whole unchanged.
    Stopped(Why, usize),
}

impl From<AllocError> for ReadError {
    ghost from_gives = { λ _ e. e ≡ Memory };

    fn from(_e: AllocError) -> ReadError {
        ReadError::Memory
    }
}

impl<T: Drop> From<AllocFailed<T>> for ReadError {
    ghost from_gives = { λ _ e. e ≡ Memory };

    fn from(_e: AllocFailed<T>) -> ReadError {
        ReadError::Memory
    }
}
