//! What a valid certificate shows.
ghost use Rattle.answer_check.specs.Laws.{ValidShows};

use package_judge::laws::meets_if_nothing_breaks;

/// If a text is called valid, it is a certificate's, and what it claims of the query is so.
pub fn valid_shows()
    ensures { ValidShows }
{
    meets_if_nothing_breaks();
}
