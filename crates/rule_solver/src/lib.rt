//! The answer of a diagram: the order of solving, the first best state in each row of each
//! decision, and what the plan is worth to each agent. It is subgame-perfect, and optimal where one
//! agent owns all decisions.
//!
//! ```rust
//! use net_build::build;
//! use net_lexer::lex;
//! use net_parser::parse;
//! use report_text::print_report;
//! use rule_solver::solve;
//!
//! let tokens = lex(alloc, text)?;
//! let syntax = parse(alloc, text, &tokens)?;
//! let (diagram, names) = build(alloc, text, &tokens, &syntax)?;
//! let solved = solve(alloc, &diagram)?;
//! let report = print_report(alloc, &diagram, &names, &solved)?;
//! ```
#![tactic(auto)]

mod answering;
mod bases;
mod decision_sums;
mod faults;
mod joint_goals;
mod keeping;
mod laws;
mod limits;
mod numbers;
mod odometer;
mod optima;
mod reading;
mod rows;
mod solving;
mod spaces;
mod state_sums;
mod totals;
mod widths;
mod worths;

pub use bases::base_of;
pub use decision_sums::{RowSums, Setting, row_gains_by, row_sums, row_sums_by, spaces_for};
pub use faults::SolveFault;
pub use keeping::{KeptDiagram, keep_diagram, kept_diagrams_stand};
pub use laws::{counted_plans_have_room, measured_plans_have_room, orders_list_decisions};
pub use limits::{keep_bound, keeps_plan_limits};
pub use optima::optimum_with;
pub use rows::row_gains;
pub use solving::{solve, solve_by, solve_by_relevance};
pub use spaces::Workspaces;
pub use state_sums::sum_at;
pub use totals::list_totals;
pub use worths::{expected, expected_along, expected_by};
