//! Which plans fit cells of 64 bits.

ghost use Rattle.std.specs.Prelude.{◌≡◌, ◌↔◌, ◌*◌, ◌<◌, ◌≤◌, ℕ, IsTrue, Some, length, slice_index};
ghost use Rattle.cell_rings.specs.Rings.{most_size, small_size};
ghost use Rattle.eliminate.specs.Results.{greatest_value};
ghost use Rattle.maid_model.specs.Diagrams.{IsDiagram};
ghost use Rattle.maid_model.specs.Gains.{greatest_abs};
ghost use Rattle.node_sets.specs.declared.sets.TheConstants.{MOST_NODES};
ghost use Rattle.node_sets.specs.Sets.{IsIn};
ghost use Rattle.plan_sums.specs.Plans.{PlanView};
ghost use Rattle.size_precheck.specs.Sizes.{IsPlanned};
ghost use Rattle.eliminate.specs.Steps.{HasOwnTable};
ghost use Rattle.rule_solver.specs.Totals.{FitsByTotals, TellsSmall};

use crate::totals::product_in;
use maid_model::Diagram;
use node_sets::NodeSet;
use size_precheck::Plan;

/// Half of what a signed number of 64 bits holds.
const MOST_SMALL: u128 = (1 << 62) - 1;

/// The nodes whose own tables the plan has: its members but for the decision left out.
fn ruled_nodes(plan: &Plan) -> NodeSet
    requires { (d : ℕ) → plan.now.plan.without ≡ Some d → d < MOST_NODES }
    ensures { (v : ℕ) → IsIn result v ↔ HasOwnTable plan.now v }
{
    let mut ruled = plan.members();
    if let Some(d) = plan.without() {
        ruled.remove(d);
    }
    ruled
}

/// The greatest absolute value of the cells.
fn greatest_abs(cells: &[i128]) -> u128
    ensures { result ≡ greatest_abs cells.now }
{
    let mut greatest = 0;
    for cell in cells {
        greatest = cell.unsigned_abs().max(greatest);
    }
    greatest
}

/// The greater of 1 and the greatest absolute value of the utility; 1 without one.
pub(crate) fn greatest_value(diagram: &Diagram, utility: Option<usize>) -> u128
    requires { (u : ℕ) → utility ≡ Some u → u < length diagram.now.nodes }
    ensures { result ≡ greatest_value diagram.now.nodes utility }
{
    match utility {
        Some(u) => greatest_abs(diagram.cells(u)).max(1),
        None => 1,
    }
}

/// Whether twice the total fits a signed number of 64 bits.
fn is_small(total: u128) -> bool
    ensures { IsTrue result ↔ (2 * total ≤ small_size) }
{
    total <= MOST_SMALL
}

/// Whether all numbers in a run of the plan surely fit cells of 64 bits, by the totals of the
/// nodes' tables and rules.
pub(crate) fn fits_small(diagram: &Diagram, totals: &[u128], plan: &Plan) -> bool
    requires diagram { IsDiagram diagram.now }
    requires planned { (asked : PlanView) × IsPlanned diagram.now.nodes asked plan.now }
    requires some { (v : ℕ) → v < length totals.now → 0 < slice_index totals.now v }
    requires fits { FitsByTotals diagram.now.nodes totals.now plan.now.plan most_size }
    ensures { TellsSmall diagram.now.nodes totals.now plan.now.plan result }
{
    let tables = product_in(totals, &ruled_nodes(plan));
    let value = greatest_value(diagram, plan.utility());
    is_small(tables * value)
}
