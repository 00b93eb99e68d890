//! Answers: rows, worths and gains.

ghost use Rattle.std.specs.Prelude.{◌<◌, ◌≤◌, nat_abs};
ghost use Rattle.maid_model.specs.Answers.{IsFraction};
ghost use Rattle.maid_model.specs.Diagrams.{greatest_number};

use std::marker::Model;
use whole_num::reduce;

/// A fraction.
#[derive(Clone, Copy, Debug, PartialEq, Eq)]
pub struct Ratio {
    pub num: i128,
    pub den: u128,
}

impl Ratio {
    /// The fraction of two numbers, in lowest terms.
    pub fn reduced(num: i128, den: u128) -> Ratio
        requires den { 0 < den }
        requires num { nat_abs num ≤ greatest_number }
        ensures { IsFraction result num den }
    {
        let (num, den) = reduce(num, den);
        Ratio { num, den }
    }
}

/// What is answered in one row of a decision: the chosen state, counted from 0, and what it is
/// worth, or `None` where the row is marked as never reached.
#[derive(Clone, Copy, Debug, PartialEq, Eq)]
pub struct Row {
    pub choice: usize,
    pub worth: Option<Ratio>,
}

/// What is answered at a decision: one row for each choice of its parents' states, the first parent
/// slowest.
#[derive(Debug, Drop)]
pub struct Answer {
    pub decision: usize,
    pub rows: Vec<Row>,
}

impl Model for Answer {
    ghost use Rattle.maid_model.specs.Views.{AnswerView};

    ghost Value = { AnswerView };

    ghost view = { λ a. record { decision = a.decision; rows = a.rows.items } };
}

/// An answered diagram: the decisions in the order of solving, an answer for each in that order,
/// and each agent's expected utility under the answered rules.
#[derive(Debug, Drop)]
pub struct Solved {
    pub order: Vec<usize>,
    pub answers: Vec<Answer>,
    pub gains: Vec<Ratio>,
}

impl Model for Solved {
    ghost use Rattle.maid_model.specs.Views.{SolvedView};

    ghost Value = { SolvedView };

    ghost view = { λ s.
        record { order = s.order.items; answers = s.answers.items; gains = s.gains.items } };
}
