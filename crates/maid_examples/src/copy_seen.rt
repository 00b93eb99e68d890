//! The follower sees a copy of the choice in its place.

ghost use Rattle.maid_examples.specs.Samples.{HasSums};
ghost use Rattle.maid_examples.specs.CopySeen.{copied, IsSoundSample, HasReliance, HasStarts};

use maid_model::literals_are_tested;

/// A follower who sees a copy of the leader's choice in its place: the sums stay, but each relies
/// on the other, and no subgame starts after the leader's choice.
pub fn copy_in_place()
    ensures sound { IsSoundSample }
    ensures sums { HasSums copied 2 }
    ensures reliance { HasReliance }
    ensures starts { HasStarts }
{
    literals_are_tested();
}
