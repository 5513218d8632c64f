//! Tests of bounds over boxes, and of certificates: their trees, their check and their texts.
#![tactic(auto)]

#[cfg(test)]
mod bounds;
#[cfg(test)]
mod checker;
#[cfg(test)]
mod texts;
#[cfg(test)]
mod trees;
