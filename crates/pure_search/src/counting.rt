//! How many pure profiles and worlds there are, and the limits that they keep.

ghost use Rattle.std.specs.Prelude.{◌≡◌, ◌≤◌, ◌↔◌, IfOk, IsTrue, length};
ghost use Rattle.first_fault.specs.Answers.{Passes};
ghost use Rattle.maid_model.specs.declared.limits.TheConstants.{COUNT_END, MOST_PROFILES};
ghost use Rattle.maid_model.specs.Bounds.{stopped};
ghost use Rattle.maid_model.specs.Diagrams.{IsDiagram};
ghost use Rattle.maid_model.specs.Worlds.{worlds};
ghost use Rattle.pure_search.specs.Faults.{CanBeListed, search_bound_pass, count_pass, pure_fault};
ghost use Rattle.pure_search.specs.Games.{counts_for, list_count};

use crate::PureFault;
use maid_model::{COUNT_END, Diagram, MOST_LEAVES, MOST_LISTED, MOST_PROFILES};
use tree_checker::leaves;
use weight_scale::{BoundPlace, bound};

/// Refuses a diagram that doesn't keep the weight bound.
pub(crate) fn keep_bound(diagram: &Diagram) -> Result<(), PureFault>
    ensures rows { Passes pure_fault (search_bound_pass diagram.now) result }
    ensures diagram { IsDiagram diagram.now }
{
    match bound(diagram) {
        BoundPlace::Within => Ok(()),
        BoundPlace::Node(v) => Err(PureFault::WeightBound { node: Some(v) }),
        BoundPlace::Utilities => Err(PureFault::WeightBound { node: None }),
    }
}

/// How many lists of choices there are, or 10^18 where that is less. It takes no memory.
fn profiles(counts: &[usize]) -> u128
    ensures { result ≡ stopped (length (worlds counts.now)) }
{
    let mut count: u128 = 1;
    for choices in counts {
        count = COUNT_END.min(count * *choices as u128);
    }
    count
}

/// Whether so many profiles and worlds can be listed together.
fn is_small(profiles: u128, leaves: u128) -> bool
    requires profiles { profiles ≤ COUNT_END }
    requires leaves { leaves ≤ COUNT_END }
    ensures { IsTrue result ↔ CanBeListed profiles leaves }
{
    profiles <= MOST_PROFILES && leaves <= MOST_LEAVES && profiles * leaves <= MOST_LISTED
}

/// How many lists of choices there are. Refuses a diagram with too many of them, or too many
/// worlds.
pub(crate) fn keep_counts(diagram: &Diagram, counts: &[usize]) -> Result<u128, PureFault>
    requires { counts.now ≡ counts_for diagram.now.nodes }
    ensures rows { Passes pure_fault (count_pass diagram.now) result }
    ensures profiles { IfOk result (λ profiles. profiles ≡ list_count diagram.now.nodes) }
    ensures few { IfOk result (λ profiles. profiles ≤ MOST_PROFILES) }
{
    let profiles = profiles(counts);
    let leaves = leaves(diagram);
    if is_small(profiles, leaves) {
        Ok(profiles)
    } else {
        Err(PureFault::TooLarge { profiles, leaves })
    }
}
