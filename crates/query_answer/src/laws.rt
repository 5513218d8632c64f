//! What is kept of an answer can be written.
ghost use Rattle.query_answer.specs.Laws.{AnswersAreWritten};

/// What is kept of an answer can be written as a certificate, where no id of the rows is above 10^12: then its text
/// is one that a reader takes.
pub fn answers_are_written()
    ensures { AnswersAreWritten }
{}
