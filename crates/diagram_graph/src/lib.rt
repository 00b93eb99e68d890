//! Orders: items of any kind that need one another are placed in order by `place_all`, which finds
//! the nodes of an influence diagram with parents first, and the first directed cycle of a list of
//! parents.
//!
//! Edits: the diagram without an arc into a decision or with one more, with a chance node as a
//! decision, or with the decisions of all agents but one as chance nodes; and the part that some
//! nodes and all their ancestors make.
#![tactic(auto)]

mod adding;
mod arcs;
mod copies;
mod cycles;
mod kinds;
mod laws;
mod needs;
mod parts;
mod placing;
mod room;
mod rounds;

pub use adding::{AddFault, add_arc, add_arc_in, is_too_large};
pub use arcs::{RemoveFault, lose_arc, remove_arc, remove_arc_in};
pub use copies::{copy_diagram, copy_nodes};
pub use cycles::{first_cycle, topological};
pub use kinds::{MakeFault, decide_at, fix_others, make_decision};
pub use laws::{parents_have_a_cycle_or_none, parents_have_one_cycle_at_most};
pub use needs::Needs;
pub use parts::{SubDiagram, part};
pub use placing::{Placing, place_all};
