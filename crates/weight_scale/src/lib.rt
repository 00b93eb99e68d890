//! The numbers of a text made exact: `numeral` gives a numeral's value as a whole number and its
//! decimals, `scale_rows` takes the rows of a chance table in proportion, and `bound` says whether
//! the sums over the worlds that matter to a decision or an agent have room. `decision_scope` and
//! `agent_scope` give the nodes that matter to them, and `scope_given` those that matter to an
//! agent where a node's state is given.
#![tactic(auto)]

mod decimal;
mod digits;
mod laws;
mod numerals;
mod plain;
mod products;
mod rows;
mod scaling;
mod scopes;
mod weight_bound;

pub use decimal::Decimal;
pub use laws::{
    a_numeral_has_a_decimal_or_none, bound_has_one_place, rows_are_scaled_or_too_wide,
    rows_scale_in_one_way,
};
pub use numerals::{numeral, whole_numeral};
pub use plain::plain_total;
pub use scaling::{ScaleFault, Scaled, scale_rows};
pub use scopes::{agent_scope, decision_scope, place_given, scope_given};
pub use weight_bound::{BoundPlace, bound};
