//! An outing whose weather is seen, and a coin beside it.

ghost use Rattle.maid_examples.specs.Trip.{IsSoundSample, HasSums, HasASubgame, IsTripSolved, HasWeatherControl, HasAPart};

use maid_laws::{
    answers_are_best, answers_are_optimal, answers_are_subgame_perfect, gains_are_optima,
};
use maid_model::literals_are_tested;

/// An agent who sees the weather: sums, a subgame, the answer, a plan that is no answer, and what
/// control of the weather is worth; and a coin beside it that is no part of it.
pub fn a_trip()
    ensures sound { IsSoundSample }
    ensures sums { HasSums }
    ensures subgame { HasASubgame }
    ensures solved { IsTripSolved }
    ensures control { HasWeatherControl }
    ensures part { HasAPart }
{
    literals_are_tested();
    answers_are_best();
    answers_are_optimal();
    answers_are_subgame_perfect();
    gains_are_optima();
}
