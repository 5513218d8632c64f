//! Certificates of a search over boxes: whole trees of nodes in preorder, what they show, and how what a search
//! recorded makes one.
#![tactic(auto)]

mod assembly;
mod laws;
mod nodes;
mod possible;
mod records;

pub use assembly::assemble;
pub use laws::{
    assembled_certifies, assembled_legal, assembled_partly, certified_is_best, certified_is_empty,
    most_left_is_greatest, nodes_are_few, partial_bounds,
};
pub use nodes::{Tree, TreeNode};
pub use possible::most_left;
pub use records::{Act, Record};
