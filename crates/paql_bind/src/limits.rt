//! The limits of queries.

/// The most nodes that a query can ask for, of a search that ends without an answer.
pub const MAX_BUDGET: u64 = 20_000;

/// The nodes of a search if the query doesn't say how many.
pub const DEFAULT_BUDGET: u32 = 2_000;

/// The most constraints that a query can write.
pub const MAX_CONJUNCTS: usize = 31;

/// The most terms of a constraint, on both sides together, and of a goal.
pub const MAX_TERMS: usize = 64;

/// How often a row can occur at most in the packages of a query.
pub const MAX_ROW_BOUND: u32 = 1_000_000;

/// The greatest factor of a term.
pub const MAX_FACTOR: u128 = 1_000_000;

/// The most digits after the point of a number in a query.
pub const MAX_LITERAL_SCALE: u8 = 6;

/// The most units of its own last digit that a number in a query can be, with either sign.
pub const MAX_LITERAL_UNITS: u128 = 1_000_000_000_000;
