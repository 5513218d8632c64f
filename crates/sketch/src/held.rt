//! What is held of a part.

use sqlite_items::Items;

/// How much of a part a solution takes, before and after the part is refined.
#[derive(Debug, Drop)]
pub enum HeldPart {
    /// So many units of the part's variable in the sketch.
    Sketch(u64),
    /// So many units of each member, in the part's order.
    Real(Items<u64>),
}
