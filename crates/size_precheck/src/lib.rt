//! How large the tables of a run get, before any of them is made: the order in which each plan
//! eliminates its nodes, and exact counts of its cells and of its work.
#![tactic(auto)]

mod classes;
mod counts;
mod decisions;
mod joint_orders;
mod joints;
mod keeping;
mod kinds;
mod laws;
mod nodes_above;
mod planners;
mod plans;
mod runs;
mod simulation;
mod sizes;
mod starts;
mod worths;

pub use decisions::{DecisionPlans, plan_decision, plan_decision_by};
pub use joint_orders::{MOST_PAIR_CELLS, pair_room};
pub use keeping::{KeptPlans, KeptRun, keep_edited, keep_plans};
pub use laws::{greedy_orders, kept_plans_stand, kept_runs_stand, sizes_of_plans};
pub use planners::Planner;
pub use plans::{Plan, make_plan, plan_by};
pub use runs::{RunPlans, measure, plan_run, plan_run_by, plan_run_with};
pub use sizes::Size;
pub use worths::plan_worths;
