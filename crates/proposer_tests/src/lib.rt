//! Tests of how good the multipliers and the points are that a search tries.
#![tactic(auto)]

#[cfg(test)]
mod rounder;
#[cfg(test)]
mod simplex;
