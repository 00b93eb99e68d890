//! The totals of tables and rules, and products of them.

ghost use Rattle.std.specs.Prelude.{◌≡◌, ℕ, ◌<◌, ◌≤◌, IfOk, OnOk, length, slice_index};
ghost use Rattle.maid_model.specs.Diagrams.{IsDiagram, greatest_number};
ghost use Rattle.maid_model.specs.Profiles.{IsProfile};
ghost use Rattle.node_sets.specs.declared.sets.TheConstants.{MOST_NODES};
ghost use Rattle.rule_solver.specs.Totals.{HasTotals, product_in};

use maid_model::{Diagram, Kind, Profile};
use node_sets::NodeSet;
use std::alloc::{AllocError, Global};

/// The totals of all nodes: what each row of a node's table or rule adds up to, and 1 at a utility.
///
/// They stay as long as the total of each rule does, so a caller that goes from one profile of pure
/// rules to the next lists them once. It looks at each node and at each rule once.
///
/// # Errors
///
/// Only where memory runs out.
pub fn list_totals(
    alloc: Global,
    diagram: &Diagram,
    profile: &Profile,
) -> Result<Vec<u128>, AllocError>
    requires { IsProfile diagram.now.nodes profile.now }
    ensures totals { IfOk result (λ totals. HasTotals diagram.now.nodes profile.now totals.items) }
    ensures diagram { OnOk result (IsDiagram diagram.now) }
{
    let rules = profile.rules();
    let mut totals = Vec::with_capacity(alloc, diagram.count())?;
    // Rules stand in text order of their decisions, so the next decision's is at the place behind
    // the last one's.
    let mut place = 0;
    for v in 0..diagram.count() {
        let total = match diagram.kind(v) {
            Kind::Chance => diagram.weight_total(v),
            Kind::Decision => {
                let rule = &rules[place];
                place += 1;
                rule.total
            }
            Kind::Utility => 1,
        };
        totals.push(total)?;
    }
    Ok(totals)
}

/// The product of the listed totals of these nodes. It goes over no node that the set lacks.
pub(crate) fn product_in(totals: &[u128], set: &NodeSet) -> u128
    requires few { length totals.now ≤ MOST_NODES }
    requires some { (v : ℕ) → v < length totals.now → 0 < slice_index totals.now v }
    requires fits { product_in totals.now set.now ≤ greatest_number }
    ensures { result ≡ product_in totals.now set.now }
{
    let mut product = 1;
    let mut from = 0;
    'members: while let Some(v) = set.first_between(from, totals.len()) {
        product *= totals[v];
        from = v + 1;
    }
    product
}
