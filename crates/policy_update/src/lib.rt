//! Single policy updating (Lauritzen and Nilsson 2001): the decisions of one agent are improved one
//! by one, round after round, until a round changes nothing. It needs no order of solving, and ends
//! at a local optimum.
#![tactic(auto)]

mod faults;
mod keeping;
mod laws;
mod limits;
mod rounds;
mod rows;
mod starting;
mod updating;

pub use faults::UpdateFault;
pub use laws::updates_have_one_outcome;
pub use updating::{Updated, update};
