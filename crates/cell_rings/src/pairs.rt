//! Two runs of cells at once.

/// Two runs of neighbouring cells, each with its factor.
#[derive(Clone, Copy)]
pub struct RunPair<F> {
    pub first: F,
    pub second: F,
    /// The place at which the run of the first factor begins.
    pub from: usize,
    /// The place at which the run of the second begins.
    pub beside: usize,
}
