//! Laws of the diagrams that are compared.

ghost use Rattle.optimum_gap.specs.Laws.{AnswersAreBaselines, CoversControl, CoversWithArc, CoversWithoutArc};

/// The answer of a diagram tells each agent's optimum in the diagram in which only that agent
/// decides.
pub fn answers_are_baselines()
    ensures { AnswersAreBaselines }
{}

/// An arc into a decision, or a chance node in place of a decision, widens what counts in an
/// agent's scope.
pub fn edits_keep_scopes()
    ensures without { CoversWithoutArc }
    ensures with { CoversWithArc }
    ensures control { CoversControl }
{}
