//! The diagram without the arcs that decisions do not need.

ghost use Rattle.std.specs.Prelude.{IfOk};
ghost use Rattle.requisite_trim.specs.Trims.{IsTrimming};

use crate::looks::first_to_remove;
use arc_laws::trimmed_optimum;
use diagram_graph::{copy_diagram, lose_arc};
use maid_model::Diagram;
use std::alloc::{AllocError, Global};

/// A diagram in which every arc into a decision is requisite, and the arcs that were removed, from
/// and to, in order of removal.
#[derive(Debug, Drop)]
pub struct Trimmed {
    pub diagram: Diagram,
    pub removed: Vec<(usize, usize)>,
}

/// Removes the first arc that is not requisite, in text order of decisions and then in the order of
/// the decision's parents, and looks anew after each removal, until none is left (Lauritzen and
/// Nilsson 2001). An arc that one look keeps may go at a later one. Where one agent owns all
/// decisions, the trimmed diagram has the same optimum, also where decisions rely on one another in
/// a cycle.
///
/// A look searches once for each decision, and once more for the one whose arc goes. A search looks
/// at each node a few times at worst, and mostly ends early where all parents are requisite: at
/// worst decisions times nodes for each removed arc. The diagram is copied once.
///
/// # Errors
///
/// Only where memory runs out.
pub fn trim(alloc: Global, diagram: &Diagram) -> Result<Trimmed, AllocError>
    ensures { IfOk result (λ t. IsTrimming diagram.now t.diagram t.removed.items) }
{
    trimmed_optimum();
    let _count = diagram.count();
    let mut removed = Vec::new(alloc);
    let mut trimmed = copy_diagram(alloc, diagram)?;
    'looks: while let Some((from, to)) = first_to_remove(&trimmed) {
        trimmed = lose_arc(alloc, trimmed, from, to)?;
        removed.push((from, to))?;
    }
    let _count = trimmed.count();
    Ok(Trimmed {
        diagram: trimmed,
        removed,
    })
}
