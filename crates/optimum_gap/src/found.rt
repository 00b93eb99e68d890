//! What is found of an edit.

use maid_model::Ratio;

/// What an edit is worth to the agent who decides, or the first reason why no value stands there.
#[derive(Debug, Drop)]
pub enum Found {
    /// The difference of the two optima, in lowest terms.
    Value(Ratio),
    /// The graph alone tells that the edit does not matter: the two optima are equal.
    Worthless,
    /// The edited diagram has a relevance cycle: each decision of the list relies on the next, and
    /// the last on the first.
    Cycle(Vec<usize>),
    /// The edited diagram passes the weight bound.
    Bound,
    /// The edited diagram passes a limit of rules, or its run one of cells or of work.
    TooLarge,
}
