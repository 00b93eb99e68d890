//! A node stands between the leader's choice and the follower's pay.

ghost use Rattle.maid_examples.specs.NodeBetween.{AreSound, HasJoinedSums, HasPartedSums, HasReliance};

use maid_model::literals_are_tested;

/// A node between the leader's choice and what the follower gets: with two states the follower
/// relies on the leader, and with one state it doesn't.
pub fn one_state_between()
    ensures sound { AreSound }
    ensures joined { HasJoinedSums }
    ensures parted { HasPartedSums }
    ensures reliance { HasReliance }
{
    literals_are_tested();
}
