//! How a session ends.

/// A session takes no more bytes than this, which are 2^30.
pub const MAX_BYTES: usize = 1 << 30;

/// A session asks for no more bytes than this at a time.
pub const MAX_READ: usize = 4096;

/// How a session ends.
#[derive(Clone, Copy, Debug, PartialEq, Eq)]
pub enum SessionEnd {
    /// The input ended clean.
    Done,
    /// It ended inside a statement or a body.
    Truncated,
    /// The source failed.
    ReadFault,
    /// The sink failed.
    WriteFault,
    /// Memory ran out for bytes that came, for a tree, or for the line of a reply. If it runs out while a statement
    /// is performed, the session goes on.
    Memory,
    /// A statement is longer than any may be.
    TooLong,
    /// `MAX_BYTES` were taken.
    SessionLimit,
}
