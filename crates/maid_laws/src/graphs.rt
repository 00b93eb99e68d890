//! Laws of graphs.

ghost use Rattle.maid_laws.specs.Orders.{AcyclicIffListed, ListingExists};

/// There is no directed cycle exactly where the nodes can be listed with parents first, and a
/// diagram's chance nodes and decisions can.
pub fn parents_first_lists()
    ensures acyclic { AcyclicIffListed }
    ensures listing { ListingExists }
{}
