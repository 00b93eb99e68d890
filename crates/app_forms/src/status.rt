//! How a run ends.

ghost use Rattle.std.specs.Prelude.{◌≡◌};
ghost use Rattle.app_forms.specs.Status.{code_of};

/// How a run ended.
#[derive(Clone, Copy, Debug, PartialEq, Eq)]
pub enum Status {
    /// `out` took the whole text.
    Done,
    /// The words are of no form.
    Usage,
    /// A file isn't there.
    Absent,
    /// A file couldn't be read.
    ReadFault,
    /// A file is longer than its limit.
    TextTooLong,
    /// A file's text isn't a diagram, or not a report.
    TextFault,
    /// The decisions rely on each other in a cycle.
    Cycle,
    /// The diagram's weights may be too great for exact numbers.
    WeightBound,
    /// A limit is passed: of a run's cells or work, of worlds, of pure profiles, or of rules.
    TooLarge,
    /// `out` couldn't be written.
    WriteFault,
    /// Memory ran out.
    NoMemory,
    /// The report is not accepted: one of its lines is wrong.
    Rejected,
    /// No node has that agent.
    UnknownAgent,
    /// From each pure profile some agent gains by other rules of its own.
    NoPure = 14,
    /// Two decisions have different owners.
    NotOneAgent,
    /// Each round of updating raised.
    RoundsSpent,
    /// No chance node has that name.
    UnknownNode,
    /// The node has no state with that label.
    UnknownState,
    /// The node descends from a decision.
    BelowDecision,
    /// The node never has that state.
    Impossible,
    /// The node's table has no such row.
    UnknownRow,
    /// The row gives no other state any weight.
    NoOthers,
}

impl Status {
    /// The code that the program ends with: 0 to 12 and 14 to 22 in the order of the variants.
    pub fn code(self) -> u8
        ensures { result ≡ code_of self }
    {
        self as u8
    }
}
