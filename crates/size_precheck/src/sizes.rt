//! What a size is.

/// How large a plan is, or a run of plans. Both numbers stop at 10^18.
#[derive(Clone, Copy, Debug, PartialEq, Eq)]
pub struct Size {
    /// How many cells a plan's tables have together; of a run, those of its largest plan.
    pub cells: u128,
    /// How many products of cells are taken; of a run, those of all its plans.
    pub work: u128,
}
