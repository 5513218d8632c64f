//! What a certificate text says, and why a text is none.
ghost use Rattle.std.specs.Prelude.{◌≡◌};

use cert_tree::TreeNode;
use sqlite_items::Items;
use std::alloc::AllocError;
use thiserror::Error;

/// What a search claims of a problem's greatest value.
#[derive(Clone, Copy, Debug, PartialEq, Eq)]
pub enum Claim {
    /// It is this.
    Optimal(i64),
    /// No point is feasible.
    Infeasible,
    /// It is at least this, if there is a value.
    Undecided(Option<i64>),
}

impl Claim {
    ghost use Rattle.cert_text.specs.Claims.{claimed};

    /// The value that is claimed, if one is.
    pub fn value(self) -> Option<i64>
        ensures { result ≡ claimed self }
    {
        match self {
            Claim::Optimal(value) => Some(value),
            Claim::Infeasible => None,
            Claim::Undecided(value) => value,
        }
    }
}

/// A certificate: how many variables and rows the problem has, the claim, the pairs of ids and counts of a package,
/// and the nodes of one tree in preorder.
#[derive(Debug, Drop)]
pub struct CertText {
    pub vars: u32,
    pub rows: u32,
    pub claim: Claim,
    pub pairs: Items<(u64, u64)>,
    pub nodes: Items<TreeNode>,
}

/// A certificate at the beginning of a text, how many bytes it has, and the number of the line after it.
#[derive(Debug, Drop)]
pub struct Part {
    pub cert: CertText,
    pub end: usize,
    pub line: u64,
}

/// Why a text is no certificate's.
#[derive(Debug, Drop, Error)]
pub enum CertFault {
    /// The first line is wrong.
    #[error("this is no certificate")]
    BadHeader,
    /// No text goes on with this line.
    #[error("line {0} is no line of a certificate there")]
    BadLine(u64),
    /// The text ends too early.
    #[error("the certificate isn't whole")]
    Truncated,
    /// Bytes come after the certificate, from this line on.
    #[error("something comes after the certificate, on line {0}")]
    Trailing(u64),
    /// There is no memory.
    #[error("out of memory")]
    Memory(AllocError),
}
