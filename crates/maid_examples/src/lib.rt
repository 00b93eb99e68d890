//! Small diagrams on which the definitions are worked out by hand: each public function has as its
//! contract that they come to the same.
#![tactic(auto)]

mod answered;
mod coins;
mod copy_seen;
mod follower_leader;
mod guess;
mod node_between;
mod outing;
mod shared;
mod sighted;
#[cfg(test)]
mod tests;
mod threat;
mod ties;
#[cfg(test)]
mod trials;

pub use answered::answer_by_copy;
pub use coins::pennies;
pub use copy_seen::copy_in_place;
pub use follower_leader::follower_and_leader;
pub use guess::two_coins;
pub use node_between::one_state_between;
pub use outing::a_trip;
pub use shared::shared_result;
pub use sighted::answer_in_sight;
pub use threat::empty_threat;
pub use ties::tie_and_best;
