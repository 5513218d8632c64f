//! The limits of tables.

/// The most columns of a table.
pub const MAX_COLUMNS: usize = 32;

/// The most digits that a decimal column keeps after the point.
pub const MAX_SCALE: u64 = 6;

/// The most bytes of a text in a cell.
pub const MAX_TEXT_BYTES: usize = 255;
