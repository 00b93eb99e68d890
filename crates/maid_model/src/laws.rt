//! Laws over the definitions alone.

ghost use Rattle.maid_model.specs.Laws.{TestsDescent, GraphsHaveOrders, ListsWorlds, EndsWithWorldsFrom, HasRules, TestsDiagrams, TestsRules, TestsProfiles};

/// The test of descent inside the sums says where a path of arcs leads.
pub fn descent_is_tested()
    ensures { TestsDescent }
{}

/// Every graph has a list of all nodes in which each stands after its parents.
pub fn graph_has_order()
    ensures { GraphsHaveOrders }
{}

/// The list of all worlds has each world once, and the worlds from one on are its end.
pub fn worlds_are_listed()
    ensures once { ListsWorlds }
    ensures from { EndsWithWorldsFrom }
{}

/// A profile has a rule for each decision.
pub fn profile_has_rules()
    ensures { HasRules }
{}

/// What passes the tests of a diagram, of a rule or of a profile is one.
pub fn literals_are_tested()
    ensures diagram { TestsDiagrams }
    ensures rule { TestsRules }
    ensures profile { TestsProfiles }
{}
