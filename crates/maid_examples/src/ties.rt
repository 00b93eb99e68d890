//! Two states of one agent: a tie, and two that differ.

ghost use Rattle.maid_examples.specs.Tie.{AreSound, HasTie, HasBest, LacksRules};

use maid_model::literals_are_tested;

/// One agent between two states: at a tie the first is the answer and both are accepted; of two
/// that differ one is optimal and the other isn't.
pub fn tie_and_best()
    ensures sound { AreSound }
    ensures tie { HasTie }
    ensures best { HasBest }
    ensures lack { LacksRules }
{
    literals_are_tested();
}
