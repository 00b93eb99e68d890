//! What a check says of a report.

/// Why a line of a report fails.
#[derive(Clone, Copy, Debug, PartialEq, Eq)]
pub enum Cause {
    /// A decision of the order stands before one that it relies on.
    Order,
    /// Some state has a greater gain than the chosen one.
    Choice,
    /// The printed worth is not that of the choice.
    Worth,
    /// A row that its decision's base reaches is marked as never reached, or another one is not.
    Never,
    /// The printed expected utility is not the agent's.
    Gain,
}

/// What a check says: the report is accepted, or its first line that fails, counted from 1, and why
/// that line does.
#[derive(Clone, Copy, Debug, PartialEq, Eq)]
pub enum Verdict {
    Accepted,
    Rejected { line: usize, cause: Cause },
}
