//! Laws over the definitions alone.

ghost use Rattle.relevance_graph.specs.Kept.{ControlKeepsSearches, KeptSearchesStand, WalksToGoalsStand};

/// What is kept of the search for a decision is also that of another diagram that keeps all that
/// the search looks at.
pub fn kept_searches_stand()
    ensures { KeptSearchesStand }
{}

/// Where a chance node becomes a decision, as where anything changes that searches for decisions
/// don't look at, walks lead to the goals of the decisions from where they led before.
pub fn walks_to_goals_stand()
    ensures control { ControlKeepsSearches }
    ensures walks { WalksToGoalsStand }
{}
