//! The follower sees the leader's choice: both of its rows are answered.

ghost use Rattle.maid_examples.specs.SightAnswered.{HasNoReliance, HasAnswer};

use maid_laws::answers_are_accepted;
use maid_model::literals_are_tested;

/// A follower who sees the leader's choice: nobody relies on anybody, and both of its rows are
/// answered.
pub fn answer_in_sight()
    ensures reliance { HasNoReliance }
    ensures answer { HasAnswer }
{
    literals_are_tested();
    answers_are_accepted();
}
