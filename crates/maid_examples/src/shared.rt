//! A result that two agents share.

ghost use Rattle.maid_examples.specs.Team.{IsSoundSample, AreNone, IsShared, HasSums, HasReliance, HasAnswer};

use maid_laws::answers_are_subgame_perfect;
use maid_model::literals_are_tested;

/// A leader and a follower who share a utility: whose it is, what makes no diagram, the sums, in
/// which it counts in full for each of them, and the answer.
pub fn shared_result()
    ensures sound { IsSoundSample }
    ensures others { AreNone }
    ensures shared { IsShared }
    ensures sums { HasSums }
    ensures reliance { HasReliance }
    ensures answer { HasAnswer }
{
    literals_are_tested();
    answers_are_subgame_perfect();
}
