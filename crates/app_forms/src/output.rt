//! What a run writes to `out`, made whole before its first byte is written.

use crate::Status;

/// The text for `out`, and the status that the run ends with once it is written.
#[derive(Drop)]
pub struct Output {
    /// The status: [`Status::Done`], or [`Status::Rejected`] of a verdict.
    pub status: Status,
    /// The whole text.
    pub text: Vec<u8>,
}
