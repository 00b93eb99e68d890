//! Finite sums of whole numbers over the states of listed nodes, and their lemmas, which the crates
//! above cite from `proofs/`; and the values of a list in order of first sight. Nothing here knows
//! of diagrams: a world is a function from numbers to states.
#![tactic(auto)]

ghost use Rattle.finite_sums.specs.Laws.{ShuffledSums, SumsMultiply, TotalsComeOut};

/// Nodes may be summed in any order.
pub fn shuffled_sums()
    ensures { ShuffledSums }
{}

/// A sum over two lists of two factors, neither of which looks at the other's list, is a product of
/// two sums.
pub fn sums_multiply()
    ensures { SumsMultiply }
{}

/// Tables none of which looks at a later node of the list, summed over the list, leave their
/// totals.
pub fn totals_come_out()
    ensures { TotalsComeOut }
{}
