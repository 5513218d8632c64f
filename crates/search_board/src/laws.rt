//! Laws of the definitions: what ranks and lists of draws say.
ghost use Rattle.search_board.specs.Laws.{DrawsFit, NoneIsNoOffer, RanksFollow, TopIsBest};

/// The greater of two values has the greater rank, and each value ranks above none.
pub fn ranks_follow_values()
    ensures { RanksFollow }
{}

/// The rank that is best among offers is the rank of one of them, and none has a greater one.
pub fn top_is_the_best()
    ensures { TopIsBest }
{}

/// Where all draws are the numbers below one that is at most the budget, there are at most so many.
pub fn draws_fit_the_budget()
    ensures { DrawsFit }
{}

/// Between any two steps the word of the best value is 0 exactly if nothing was offered.
pub fn none_is_no_offer()
    ensures { NoneIsNoOffer }
{}
