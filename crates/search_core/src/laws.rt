//! What is known of a search after any list of events, and of a solver's answers.
ghost use Rattle.search_core.specs.Runs.{RunsKeep, BestIsOffered, SplitsWereOpen};
ghost use Rattle.search_core.specs.Solver.{EnoughDecides};

/// What holds of a search holds after any list of events: records and what is to do are balanced, the best point is
/// feasible, each record is right, and no more nodes were begun than may be.
pub fn runs_keep()
    ensures { RunsKeep }
{}

/// The best point is one that was offered, and no offered point is better.
pub fn best_is_offered()
    ensures { BestIsOffered }
{}

/// Each box that was split was plainly open for the value that its worker had looked at.
pub fn splits_were_open()
    ensures { SplitsWereOpen }
{}

/// A budget of twice as many nodes as there are points, less one, decides every problem.
pub fn enough_decides()
    ensures { EnoughDecides }
{}
