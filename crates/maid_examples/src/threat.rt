//! An empty threat: no agent gains by leaving it, and it is not subgame-perfect.

ghost use Rattle.maid_examples.specs.EmptyThreat.{IsSoundSample, HoldsAtFirst, FailsAfterLeft, IsNotBest};

use maid_model::literals_are_tested;

/// A threat that no agent gains by leaving, and that is neither subgame-perfect nor best in its
/// bases: it would not be kept.
pub fn empty_threat()
    ensures sound { IsSoundSample }
    ensures first { HoldsAtFirst }
    ensures later { FailsAfterLeft }
    ensures base { IsNotBest }
{
    literals_are_tested();
}
