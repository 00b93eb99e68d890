//! Laws of the cycles of parents, over the definitions alone.

ghost use Rattle.diagram_graph.specs.Laws.{CycleLeadsBack, OneCycle, CycleOrNone};

/// Lists of parents with a first cycle have a directed cycle, and one first cycle at most.
pub fn parents_have_one_cycle_at_most()
    ensures leads_back { CycleLeadsBack }
    ensures one_cycle { OneCycle }
{}

/// Lists of parents, each of which has a list, have no directed cycle or a first one.
pub fn parents_have_a_cycle_or_none()
    ensures covered { CycleOrNone }
{}
