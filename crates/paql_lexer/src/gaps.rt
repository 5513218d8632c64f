//! What is between tokens: space and comments.
ghost use Rattle.std.specs.Prelude.{◌≡◌, ℕ, ◌<◌, ◌++◌, ◌∷◌, List, length, MatchOption};
ghost use Rattle.paql_lexer.specs.Lexical as lexical;

/// The bytes that a run goes on with.
#[derive(Clone, Copy, Debug)]
pub(crate) enum Run {
    /// Those of a word.
    Word,
    /// Those of a line.
    Line,
}

/// Whether a run goes on with the byte.
fn is_in_run(run: Run, byte: u8) -> bool
    ensures { result ≡ lexical.in_run run byte }
{
    match run {
        Run::Word => byte.is_ascii_alphanumeric() || byte == b'_',
        Run::Line => byte != b'\n',
    }
}

/// The run at the start of a text, and what comes after it.
pub(crate) fn split_run(run: Run, text: &[u8]) -> (&[u8], &[u8])
    ensures whole { text.now ≡ result.0.now ++ result.1.now }
    ensures all { lexical.AllIn (lexical.in_run run) result.0.now }
    ensures ends { lexical.EndsRun (lexical.in_run run) result.1.now }
{
    for (at, byte) in text.iter().enumerate() {
        if !is_in_run(run, *byte) {
            return text.split_at(at);
        }
    }
    text.split_at(text.len())
}

fn is_space(byte: u8) -> bool
    ensures { result ≡ lexical.is_space byte }
{
    byte == b'\t' || byte == b'\n' || byte == b'\r' || byte == b' '
}

/// What comes after a space, or after the bytes of a comment, at the start of a text.
fn skip_piece(text: &[u8]) -> Option<&[u8]>
    ensures { MatchOption result (lexical.NoneAt lexical.IsPiece text.now)
        (λ rest. (piece : List ℕ) × lexical.IsPiece piece rest.now
        × (text.now ≡ piece ++ rest.now)) }
{
    match text {
        [byte, rest @ ..] if is_space(*byte) => Some(rest),
        [b'-', b'-', rest @ ..] => Some(split_run(Run::Line, rest).1),
        _ => None,
    }
}

/// What comes after all space and comments at the start of a text.
pub(crate) fn skip_gap(text: &[u8]) -> &[u8]
    ensures { (gap : List ℕ) × lexical.IsGap gap result.now × (text.now ≡ gap ++ result.now) }
{
    let mut rest = text;
    while let Some(behind) = skip_piece(rest) {
        rest = behind;
    }
    rest
}
