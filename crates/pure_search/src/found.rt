//! What is found.

use maid_model::{Answer, Ratio};
use std::marker::Model;

/// A pure profile: an answer for each decision in text order, whose rows say no worth, and each
/// agent's expected utility under it, in lowest terms.
#[derive(Debug, Drop)]
pub struct Pure {
    pub answers: Vec<Answer>,
    pub gains: Vec<Ratio>,
}

impl Model for Pure {
    ghost use Rattle.pure_search.specs.Found.{PureView};

    ghost Value = { PureView };

    ghost view = { λ p. record { answers = p.answers.items; gains = p.gains.items } };
}
