//! Laws of trees, faults and diagrams, over the definitions alone.

ghost use Rattle.net_build.specs.Laws.{Covered, Exclusive, OneDiagram, OneFault, SomeDiagram};

use diagram_graph::{parents_have_a_cycle_or_none, parents_have_one_cycle_at_most};
use net_parser::blocks_stand_in_their_text;
use weight_scale::{
    a_numeral_has_a_decimal_or_none, rows_are_scaled_or_too_wide, rows_scale_in_one_way,
};

/// The passes over a tree find nothing or a fault, and never both.
pub fn a_tree_has_a_fault_or_none()
    ensures covered { Covered }
    ensures exclusive { Exclusive }
{
    a_numeral_has_a_decimal_or_none();
    rows_are_scaled_or_too_wide();
    parents_have_a_cycle_or_none();
    parents_have_one_cycle_at_most();
}

/// The passes over a tree find one fault at most: the first.
pub fn a_tree_has_one_fault()
    ensures one_fault { OneFault }
{
    parents_have_one_cycle_at_most();
}

/// A tree that a text's tokens spell, and in which the passes find nothing, stands for one diagram
/// and the names in it.
pub fn a_tree_stands_for_one_diagram()
    ensures some_diagram { SomeDiagram }
    ensures one_diagram { OneDiagram }
{
    a_numeral_has_a_decimal_or_none();
    rows_are_scaled_or_too_wide();
    blocks_stand_in_their_text();
    rows_scale_in_one_way();
}
