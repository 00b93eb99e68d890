//! Laws of plans in scopes: their results are the sums of the scope's part, and are within its P.

ghost use Rattle.scope_sums.specs.Laws.{SumsOfScopes, GainsOfAgentsScopes, MassOfAgentsScopes};
ghost use Rattle.scope_sums.specs.Laws.{ScopesFitPlans, AgentsScopesFitPlans, MissingIsPositive};
ghost use Rattle.scope_sums.specs.Laws.{PlansCanBeAsked, UtilitysPlanCanBeAsked};

/// The results of plans, each times the totals that the plan lacks of the scope's nodes, give the
/// gains and masses of the scope's part.
pub fn plans_sum_scopes()
    ensures sums { SumsOfScopes }
    ensures agents { GainsOfAgentsScopes }
    ensures mass { MassOfAgentsScopes }
{}

/// The totals of plans, those that they lack of the scope's nodes, and their results times these,
/// are within the scope's P: of a decision for pure and uniform rules, of an agent for pure ones.
pub fn plans_keep_scopes()
    ensures decisions { ScopesFitPlans }
    ensures agents { AgentsScopesFitPlans }
    ensures positive { MissingIsPositive }
{}

/// The plans of decisions and of utilities may be asked for.
pub fn plans_can_be_asked()
    ensures decisions { PlansCanBeAsked }
    ensures utilities { UtilitysPlanCanBeAsked }
{}
