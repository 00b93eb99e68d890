//! Laws of arcs that are removed.

ghost use Rattle.arc_laws.specs.Arcs.{KeptWithoutArc, LessWithoutArc, AsMuchWithoutArc, SameWithoutArc, SameWhenTrimmed};

/// The removal of an arc into a decision: no agent can get more, and where the arc is not requisite
/// the decision's agent can get as much. So one agent's optimum stays the same.
pub fn arc_removed()
    ensures kept { KeptWithoutArc }
    ensures less { LessWithoutArc }
    ensures as_much { AsMuchWithoutArc }
    ensures same { SameWithoutArc }
{}

/// The trimmed diagram has the same optimum.
pub fn trimmed_optimum()
    ensures same { SameWhenTrimmed }
{}
