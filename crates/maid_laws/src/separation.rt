//! Laws of separated tables.

ghost use Rattle.maid_laws.specs.Separation.{SharedNodeJoins, SplitExists, SumsSeparate};
ghost use Rattle.maid_laws.specs.Walks.{WalksTurn, ChildrenJoin};

/// An active walk may be read from either end.
pub fn walks_turn()
    ensures law { WalksTurn }
{}

/// Given any fixed nodes, active walks tell the tables that hang together with a utility from those
/// that don't.
pub fn separated_tables()
    ensures shared { SharedNodeJoins }
    ensures children { ChildrenJoin }
{}

/// Given any fixed nodes, a sum over worlds is a product of a sum over the tables that hang
/// together with a utility and of one over the others.
pub fn separated_sums()
    ensures tests { SplitExists }
    ensures sums { SumsSeparate }
{}
