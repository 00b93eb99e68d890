//! Influence diagrams of several agents: their nodes, rules, worlds and sums over worlds. The
//! definitions that the whole repository believes stand in `specs/`, one file a subject.
#![tactic(auto)]

mod answers;
mod diagrams;
mod graph;
mod indexing;
mod laws;
mod limits;
mod names;
mod profiles;
mod pure_rules;
mod utilities;
mod weights;
mod world_sums;
mod worlds;

pub use answers::{Answer, Ratio, Row, Solved};
pub use diagrams::{Diagram, Kind, Node};
pub use laws::{
    descent_is_tested, graph_has_order, literals_are_tested, profile_has_rules, worlds_are_listed,
};
pub use limits::{
    COUNT_END, GREATEST_NUMBER, MOST_AGENTS, MOST_CELLS, MOST_DECIMALS, MOST_LEAVES, MOST_LISTED,
    MOST_NAME_BYTES, MOST_PARENTS, MOST_PLAN_CELLS, MOST_PROFILES, MOST_RULE_CELLS, MOST_STATES,
    MOST_WORK,
};
pub use names::{Names, first_place};
pub use node_sets::MOST_NODES;
pub use profiles::{Profile, Rule};
pub use utilities::goals_of;
pub use world_sums::{base_sums, leaf_sum};
pub use worlds::World;
