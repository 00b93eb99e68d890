//! The follower sees the leader's choice.

ghost use Rattle.maid_examples.specs.Samples.{HasSums};
ghost use Rattle.maid_examples.specs.FollowerLeader.{sight, IsSoundSample, HasSumsInProportion, HasReliance, HasStarts};

use maid_model::literals_are_tested;

/// A follower who sees the leader's choice: the sums, who relies on whom, and where subgames start.
pub fn follower_and_leader()
    ensures sound { IsSoundSample }
    ensures sums { HasSums sight 1 }
    ensures proportion { HasSumsInProportion }
    ensures reliance { HasReliance }
    ensures starts { HasStarts }
{
    literals_are_tested();
}
