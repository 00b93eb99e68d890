//! Laws of the answer.

ghost use Rattle.maid_laws.specs.Answers.{ChoicesAreBest, AnswersAreBest, AnswersAreSubgamePerfect, AnswersAreOptimal, AnswersAreAccepted, GainsAreOptima, OneAnswer, AnswerExists, WorthInBase, WorthUnderTheProfile};

/// Answered choices that are best against the bases make a profile that is best in its bases: so
/// does an answer, an accepted report, and a report whose choices still hold at changed numbers.
pub fn answers_are_best()
    ensures choices { ChoicesAreBest }
    ensures answers { AnswersAreBest }
{}

/// From no subgame start does an agent gain by other rules of its own than the answered ones.
pub fn answers_are_subgame_perfect()
    ensures law { AnswersAreSubgamePerfect }
{}

/// Where one agent owns all decisions, no profile is worth more to it than the answered one.
pub fn answers_are_optimal()
    ensures law { AnswersAreOptimal }
{}

/// The fraction that is printed for an agent that owns all decisions is the optimum of the diagram.
pub fn gains_are_optima()
    ensures law { GainsAreOptima }
{}

/// An answer is a report that is accepted.
pub fn answers_are_accepted()
    ensures law { AnswersAreAccepted }
{}

/// A diagram whose decisions have an order of solving has an answer, and no diagram has two.
pub fn one_answer()
    ensures exists { AnswerExists }
    ensures one { OneAnswer }
{}

/// A row of a live decision that a profile reaches is worth under the profile itself what it is
/// worth against the base, and so is a row of an answer.
pub fn worth_under_the_profile()
    ensures base { WorthInBase }
    ensures answer { WorthUnderTheProfile }
{}
