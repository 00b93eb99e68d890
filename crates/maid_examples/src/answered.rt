//! The follower sees a copy of the leader's choice: its answer, and what is none by one entry.

ghost use Rattle.maid_examples.specs.CopyAnswered.{HasReliance, HasAnswer, HasAccepted, IsPerfect};

use maid_laws::{answers_are_best, answers_are_subgame_perfect};
use maid_model::literals_are_tested;

/// A follower who sees a copy of the leader's choice: the answer, with a row that is never reached,
/// and reports that are no answer by one entry; which of them are accepted.
pub fn answer_by_copy()
    ensures reliance { HasReliance }
    ensures answer { HasAnswer }
    ensures accepted { HasAccepted }
    ensures perfect { IsPerfect }
{
    literals_are_tested();
    answers_are_best();
    answers_are_subgame_perfect();
}
