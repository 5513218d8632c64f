//! Kinds of lines, and which of them may come next.
ghost use Rattle.std.specs.Prelude.{◌≡◌, ◌↔◌, ◌∷◌, ◌+◌, ◌^◌, ◌<◌, ◌≤◌, IsTrue, ℕ, List, length, drop};
ghost use Rattle.cert_text.specs.Lines.{word};
ghost use Rattle.cert_text.specs.Expected.{ranges, kinds, after, rows_in, IsSound, trees_in, nodes_or_end, pairs_or_nodes, first, id_range, AreGood};
ghost use Rattle.cert_text.specs.Rules.{Follows};

use crate::numbers::Range;

/// The greatest id, count and place of a split.
const MOST: u64 = 1_000_000_000_000;
/// The range of a value's size, and of one below 0.
const VALUE: Range = Range {
    low: 0,
    high: 1 << 60,
};

const BELOW: Range = Range {
    low: 1,
    high: 1 << 60,
};
/// The range of a multiplier.
const WEIGHT: Range = Range {
    low: 0,
    high: 1 << 30,
};

/// The kinds of lines, a value with a minus apart.
#[derive(Clone, Copy, Debug, PartialEq, Eq)]
pub(crate) enum Kind {
    Header,
    Vars,
    Rows,
    Optimal,
    OptimalMinus,
    Infeasible,
    Undecided,
    UndecidedMinus,
    UndecidedNone,
    Package,
    Pair,
    Close,
    Split,
    Open,
    End,
}

/// What comes next: `left` pairs come after the next one, and `trees` trees after the next one.
#[derive(Clone, Copy, Debug, PartialEq, Eq)]
pub(crate) enum Expect {
    AtHeader,
    AtVars,
    AtRows,
    AtClaim(u32),
    AtPackage(u32),
    AtPairs { rows: u32, low: u64, left: u64 },
    AtNodes { rows: u32, trees: u64 },
    AtEnd,
    Done,
}

impl Kind {
    /// The words of such a line.
    pub(crate) fn word(self) -> &'static [u8]
        ensures { result.now ≡ word self }
    {
        match self {
            Kind::Header => b"PAQLCERT 1",
            Kind::Vars => b"vars ",
            Kind::Rows => b"rows ",
            Kind::Optimal => b"claim optimal ",
            Kind::OptimalMinus => b"claim optimal -",
            Kind::Infeasible => b"claim infeasible",
            Kind::Undecided => b"claim undecided ",
            Kind::UndecidedMinus => b"claim undecided -",
            Kind::UndecidedNone => b"claim undecided none",
            Kind::Package => b"package ",
            Kind::Pair => b"",
            Kind::Close => b"C ",
            Kind::Split => b"S ",
            Kind::Open => b"O",
            Kind::End => b"end",
        }
    }
}

/// Nodes of so many trees, and then the end.
fn nodes_or_end(rows: u32, trees: u64) -> Expect
    ensures { result ≡ nodes_or_end rows trees }
{
    match trees.checked_sub(1) {
        Some(trees) => Expect::AtNodes { rows, trees },
        None => Expect::AtEnd,
    }
}

/// So many pairs, and then the nodes of one tree.
fn pairs_or_nodes(rows: u32, low: u64, count: u64) -> Expect
    ensures { result ≡ pairs_or_nodes rows low count }
{
    match count.checked_sub(1) {
        Some(left) => Expect::AtPairs { rows, low, left },
        None => Expect::AtNodes { rows, trees: 0 },
    }
}

impl Expect {
    /// Whether nothing more comes.
    pub(crate) fn is_done(self) -> bool
        ensures { IsTrue result ↔ (self ≡ Expect.Done) }
    {
        matches!(self, Expect::Done)
    }

    /// How many rows the problem has.
    fn rows(self) -> u32
        ensures { result ≡ rows_in self }
    {
        match self {
            Expect::AtClaim(rows) => rows,
            Expect::AtPackage(rows) => rows,
            Expect::AtPairs { rows, .. } => rows,
            Expect::AtNodes { rows, .. } => rows,
            _ => 0,
        }
    }

    /// The range of the next id.
    fn ids(self) -> Range
        requires { IsSound self }
        ensures { result ≡ id_range self }
    {
        match self {
            Expect::AtPairs { low, left, .. } => Range {
                low,
                high: MOST - left,
            },
            _ => Range { low: 0, high: 0 },
        }
    }

    /// The kinds of lines that may come.
    pub(crate) fn kinds(self) -> &'static [Kind]
        ensures { result.now ≡ kinds self }
    {
        match self {
            Expect::AtHeader => &[Kind::Header],
            Expect::AtVars => &[Kind::Vars],
            Expect::AtRows => &[Kind::Rows],
            Expect::AtClaim(_) => &[
                Kind::Optimal,
                Kind::OptimalMinus,
                Kind::Infeasible,
                Kind::UndecidedNone,
                Kind::Undecided,
                Kind::UndecidedMinus,
            ],
            Expect::AtPackage(_) => &[Kind::Package],
            Expect::AtPairs { .. } => &[Kind::Pair],
            Expect::AtNodes { .. } => &[Kind::Close, Kind::Split, Kind::Open],
            Expect::AtEnd => &[Kind::End],
            Expect::Done => &[],
        }
    }

    /// How many numbers a line has.
    pub(crate) fn count(self, kind: Kind) -> usize
        ensures { result ≡ length (ranges self kind) }
    {
        match kind {
            Kind::Header => 0,
            Kind::Infeasible => 0,
            Kind::UndecidedNone => 0,
            Kind::Open => 0,
            Kind::End => 0,
            Kind::Pair => 2,
            Kind::Close => self.rows() as usize + 1,
            Kind::Split => self.rows() as usize + 3,
            _ => 1,
        }
    }

    /// The range of a number of a line.
    pub(crate) fn range(self, kind: Kind, place: usize) -> Range
        requires within { place < length (ranges self kind) }
        requires sound { IsSound self }
        ensures value { drop place (ranges self kind)
            ≡ result ∷ drop (place + 1) (ranges self kind) }
        ensures good { AreGood (ranges self kind) }
    {
        match kind {
            Kind::Vars => Range {
                low: 0,
                high: u64::from(u32::MAX),
            },
            Kind::Rows => Range { low: 0, high: 64 },
            Kind::Optimal => VALUE,
            Kind::Undecided => VALUE,
            Kind::OptimalMinus => BELOW,
            Kind::UndecidedMinus => BELOW,
            Kind::Package => Range {
                low: 0,
                high: MOST + 1,
            },
            Kind::Pair => self.pair_range(place),
            Kind::Split => self.split_range(place),
            Kind::Close => WEIGHT,
            Kind::Header => WEIGHT,
            Kind::Infeasible => WEIGHT,
            Kind::UndecidedNone => WEIGHT,
            Kind::Open => WEIGHT,
            Kind::End => WEIGHT,
        }
    }

    /// The range of a number of a pair.
    fn pair_range(self, place: usize) -> Range
        requires within { place < 2 }
        requires sound { IsSound self }
        ensures { drop place (ranges self Kind.Pair)
            ≡ result ∷ drop (place + 1) (ranges self Kind.Pair) }
    {
        if place == 0 {
            return self.ids();
        }
        Range { low: 1, high: MOST }
    }

    /// The range of a number of a split.
    fn split_range(self, place: usize) -> Range
        requires { place < length (ranges self Kind.Split) }
        ensures { drop place (ranges self Kind.Split)
            ≡ result ∷ drop (place + 1) (ranges self Kind.Split) }
    {
        if place == 0 {
            return Range {
                low: 1,
                high: u64::from(u32::MAX),
            };
        }
        if place == 1 {
            return Range { low: 0, high: MOST };
        }
        WEIGHT
    }

    /// What comes after a pair.
    fn after_pair(self, id: u64) -> Expect
        requires { id + 1 < 2 ^ 64 }
        ensures { (numbers : List ℕ) → first numbers ≡ id → result ≡ after self Kind.Pair numbers }
    {
        match self {
            Expect::AtPairs { rows, left, .. } => pairs_or_nodes(rows, id + 1, left),
            _ => Expect::Done,
        }
    }

    /// What comes after a leaf, closed or open.
    fn after_leaf(self) -> Expect
        ensures close { (numbers : List ℕ) → result ≡ after self Kind.Close numbers }
        ensures open { (numbers : List ℕ) → result ≡ after self Kind.Open numbers }
    {
        match self {
            Expect::AtNodes { rows, trees } => nodes_or_end(rows, trees),
            _ => Expect::Done,
        }
    }

    /// What comes after a split.
    fn after_split(self) -> Expect
        requires { trees_in self + 1 < 2 ^ 64 }
        ensures { (numbers : List ℕ) → result ≡ after self Kind.Split numbers }
    {
        match self {
            Expect::AtNodes { rows, trees } => Expect::AtNodes {
                rows,
                trees: trees + 1,
            },
            _ => Expect::Done,
        }
    }

    /// What may come after one more line.
    pub(crate) fn after(self, kind: Kind, numbers: &[u64]) -> Expect
        requires follows { Follows self kind numbers.now }
        requires few { trees_in self + 1 < 2 ^ 64 }
        ensures { result ≡ after self kind numbers.now }
    {
        let rows = self.rows();
        match kind {
            Kind::Header => Expect::AtVars,
            Kind::Vars => Expect::AtRows,
            Kind::Rows => Expect::AtClaim(numbers[0] as u32),
            Kind::Optimal => Expect::AtPackage(rows),
            Kind::OptimalMinus => Expect::AtPackage(rows),
            Kind::Undecided => Expect::AtPackage(rows),
            Kind::UndecidedMinus => Expect::AtPackage(rows),
            Kind::Infeasible => Expect::AtNodes { rows, trees: 0 },
            Kind::UndecidedNone => Expect::AtNodes { rows, trees: 0 },
            Kind::Package => pairs_or_nodes(rows, 0, numbers[0]),
            Kind::Pair => self.after_pair(numbers[0]),
            Kind::Close => self.after_leaf(),
            Kind::Open => self.after_leaf(),
            Kind::Split => self.after_split(),
            Kind::End => Expect::Done,
        }
    }
}
