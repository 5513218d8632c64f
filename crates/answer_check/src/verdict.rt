//! What is said of a certificate.
use cert_checker::Reason;
use package_judge::Place;
use sqlite_items::Items;

/// Why a text is no certificate's.
#[derive(Clone, Copy, Debug, PartialEq, Eq)]
pub enum BadText {
    /// The first line is wrong.
    Header,
    /// No text goes on with the line of this number, from 1.
    Line(u64),
    /// The text ends too early.
    Truncated,
    /// Bytes come after the certificate, from this line on.
    Trailing(u64),
}

/// What is said of a certificate: the first of these that applies.
#[derive(Debug, Drop)]
pub enum Verdict {
    /// The text is no certificate's.
    BadCert(BadText),
    /// The query's program has other numbers of variables or rows.
    Shape,
    /// The package that belongs to a claim with a value breaks the query, first at this place.
    Package(Place),
    /// The package is worth something else than is claimed.
    Value { claimed: i64, worth: i128 },
    /// The tree is no certificate for what is claimed: the halves that lead to the first place that
    /// is wrong, `true` for an upper one, and the reason. A claim that is undecided has no
    /// certificate, so its root is open if nothing else is wrong.
    Fault(Items<bool>, Reason),
    /// What is claimed is so.
    Valid,
}
