//! What the plans of a scope sum to: the gains and masses of the part of a decision's or an agent's
//! scope.
#![tactic(auto)]

mod scope_laws;

pub use scope_laws::{plans_can_be_asked, plans_keep_scopes, plans_sum_scopes};
