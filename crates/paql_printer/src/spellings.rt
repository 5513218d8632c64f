//! How keywords and signs are spelled.
ghost use Rattle.std.specs.Prelude.{◌≡◌, map};
ghost use Rattle.paql_printer.specs.Spellings as spellings;

use paql_lexer::{KEYWORDS, Kind};

/// Each sign, with its kind.
const SIGNS: [(&[u8], Kind); 13] = [
    (b"(", Kind::LeftParen),
    (b")", Kind::RightParen),
    (b",", Kind::Comma),
    (b".", Kind::Dot),
    (b"*", Kind::Star),
    (b"+", Kind::Plus),
    (b"-", Kind::Minus),
    (b"=", Kind::Equal),
    (b"<", Kind::Less),
    (b"<=", Kind::LessOrEqual),
    (b">", Kind::Greater),
    (b">=", Kind::GreaterOrEqual),
    (b"<>", Kind::NotEqual),
];

/// The bytes beside the kind in a table, or none where it isn't there.
fn spelling_in(mut table: &[(&'static [u8], Kind)], kind: Kind) -> &'static [u8]
    ensures { result.now
        ≡ spellings.spelling_in (map (λ entry. (entry.0.now, entry.1)) table.entry.now) kind }
{
    while let [entry, rest @ ..] = table {
        if entry.1 == kind {
            return entry.0;
        }
        table = rest;
    }
    &[]
}

/// A keyword in upper case, or a sign.
pub(crate) fn spelling(kind: Kind) -> &'static [u8]
    ensures { result.now ≡ (spellings.spelled kind).bytes }
{
    let sign = spelling_in(&SIGNS, kind);
    if !sign.is_empty() {
        return sign;
    }
    spelling_in(&KEYWORDS, kind)
}
