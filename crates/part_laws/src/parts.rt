//! Laws of parts of a diagram and of scopes.

ghost use Rattle.part_laws.specs.PartLaws.{AncestorsAreClosed, PartsAreGraphs, PartsHaveTables, PartsAreDiagrams, PartsHaveProfiles, NodesOfParts, RulesOfParts};
ghost use Rattle.part_laws.specs.PartLaws.{GainsOfParts, MassesOfParts, AgentsGainsOfParts, MassOfParts, LeftOutIsPositive, LawOfParts, SumsReadWeights, ChoicesOfParts, WorthsOfParts};
ghost use Rattle.part_laws.specs.ScopeLaws.{ScopesAreParts, AgentsScopesAreParts, ReliesInScope, SumsOfScopesFit, SumsOfAgentsScopesFit, AnswersHaveUnitRules, BasesHaveSmallRules, ScopedSumsHaveRoom, ScopedBoundsAreWeaker, FirstFailureExists, FirstPassingExists};

/// Nodes and all their ancestors make a diagram of their own, whose nodes are the old ones
/// renumbered, and a profile's rules at its decisions are a profile of it.
pub fn parts_are_diagrams()
    ensures ancestors { AncestorsAreClosed }
    ensures graph { PartsAreGraphs }
    ensures tables { PartsHaveTables }
    ensures diagram { PartsAreDiagrams }
    ensures profiles { PartsHaveProfiles }
    ensures nodes { NodesOfParts }
    ensures rules { RulesOfParts }
{}

/// The law of parts: the sums of a part are those of the whole, but for one positive factor, the
/// totals left out.
pub fn law_of_parts()
    ensures gains { GainsOfParts }
    ensures masses { MassesOfParts }
    ensures agents { AgentsGainsOfParts }
    ensures mass { MassOfParts }
    ensures lists { LawOfParts }
    ensures reads { SumsReadWeights }
    ensures positive { LeftOutIsPositive }
{}

/// So a part has the whole's best states, rows without mass and fractions.
pub fn parts_decide()
    ensures choices { ChoicesOfParts }
    ensures worths { WorthsOfParts }
{}

/// The scope of a decision or of an agent makes a part with all that its sums look at, and a
/// decision relies only on decisions of its scope.
pub fn scopes_are_parts()
    ensures decisions { ScopesAreParts }
    ensures agents { AgentsScopesAreParts }
    ensures relies { ReliesInScope }
{}

/// The sums over a scope's part are at most its bound: of a decision for pure and uniform rules, of
/// an agent for pure ones. Where the bounds of all scopes hold, and so wherever the bound of the
/// whole holds, no such sum leaves its range.
pub fn scoped_sums_fit()
    ensures decisions { SumsOfScopesFit }
    ensures agents { SumsOfAgentsScopesFit }
    ensures answers { AnswersHaveUnitRules }
    ensures bases { BasesHaveSmallRules }
    ensures room { ScopedSumsHaveRoom }
    ensures weaker { ScopedBoundsAreWeaker }
{}

/// Where the bounds of scopes don't all hold there is a first that fails, and where the product of
/// a scope passes there is a first node at which it does.
pub fn failing_bounds_have_places()
    ensures scope { FirstFailureExists }
    ensures node { FirstPassingExists }
{}
