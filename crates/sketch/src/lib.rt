//! The sketch of a problem, a variable a part of its variables, and the problems that refine it part by part.
#![tactic(auto)]

mod giving;
mod held;
mod joining;
mod laws;
mod lines;
mod refining;
mod sketching;

pub use giving::{given, given_cost};
pub use held::HeldPart;
pub use joining::joined;
pub use laws::{
    each_is_part, each_is_sketched, joined_adds_up, joined_is_feasible, one_is_held_anew,
    one_is_joined, others_are_small, others_are_the_rest, refined_keeps_rows, sketch_adds_up,
    worked_parts,
};
pub use refining::refine_problem;
pub use sketching::sketch_problem;

#[cfg(test)]
mod tests;
