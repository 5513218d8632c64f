//! What follows from the definitions alone. A law is a function that does nothing.
ghost use Rattle.package_judge.specs.Verdicts.{MeetsIfNothingBreaks};

/// A package meets a query exactly if there is no place where it breaks it.
pub fn meets_if_nothing_breaks()
    ensures { MeetsIfNothingBreaks }
{}
