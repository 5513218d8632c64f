//! Laws of sessions.
ghost use Rattle.paql_engine.specs.Laws.{BlankIsTokenless, LongerHistory, MostBytes, NobodyElse, RefusedAlike};

/// The text of a frame is blank exactly if it has no token.
pub fn blank_is_tokenless()
    ensures { BlankIsTokenless }
{}

/// A session takes 2^30 bytes at most.
pub fn most_bytes()
    ensures { MostBytes }
{}

/// A step over a history is a step over each longer one.
pub fn longer_history()
    ensures { LongerHistory }
{}

/// A session over a vault that nobody else commits to has seen just its own accepted commits, in order.
pub fn nobody_else()
    ensures { NobodyElse }
{}

/// A query whose method is exact is refused when it is made ready exactly if a step refuses it, and for the same cause.
pub fn refused_alike()
    ensures { RefusedAlike }
{}
