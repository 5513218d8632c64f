//! What a check of a tree comes to.
use sqlite_items::Items;

/// Why a tree is no certificate at a place.
#[derive(Clone, Copy, Debug, PartialEq, Eq)]
pub enum Reason {
    /// The bound of a leaf isn't below what it has to stay below.
    NotClosed { bound: i128, target: i128 },
    /// A split doesn't divide its box.
    BadSplit,
    /// Nothing was done at a leaf.
    OpenLeaf,
    /// A leaf weighs the cost, though there is no value.
    BadMult,
}

/// That a tree is a certificate, or the first place in preorder that keeps it from being one: the halves that lead
/// there, `true` for an upper one, and the reason.
#[derive(Debug, Drop)]
pub enum CheckAnswer {
    Valid,
    Invalid(Items<bool>, Reason),
}
