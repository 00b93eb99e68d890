//! Laws of parts of a diagram and of the scopes of decisions and agents: each is the contract of a
//! function without parameters and with an empty body.
#![tactic(auto)]

mod parts;

pub use parts::{
    failing_bounds_have_places, law_of_parts, parts_are_diagrams, parts_decide, scoped_sums_fit,
    scopes_are_parts,
};
