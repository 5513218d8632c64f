ghost use Rattle.std.specs.Prelude.{◌↔◌, IsTrue};
ghost use Rattle.package_query.specs.Query.{Holds};

/// What a condition says of a total.
#[derive(Clone, Copy, Debug, PartialEq, Eq)]
pub enum Comparison {
    /// At most this number: `<=`.
    AtMost(i128),
    /// Less than this number: `<`.
    Below(i128),
    /// At least this number: `>=`.
    AtLeast(i128),
    /// More than this number: `>`.
    Above(i128),
    /// This number: `=`.
    Equals(i128),
    /// From the first number to the second, both among them: `BETWEEN`.
    Between(i128, i128),
}

/// Whether the total keeps the comparison.
pub fn holds(comparison: Comparison, total: i128) -> bool
    ensures { IsTrue result ↔ Holds comparison total }
{
    match comparison {
        Comparison::AtMost(most) => total <= most,
        Comparison::Below(end) => total < end,
        Comparison::AtLeast(least) => total >= least,
        Comparison::Above(end) => total > end,
        Comparison::Equals(number) => total == number,
        Comparison::Between(least, most) => least <= total && total <= most,
    }
}
