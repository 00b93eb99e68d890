//! The report of an answered diagram, printed and read. A report is one text for one value: what is
//! printed reads back as the value, and what is read prints as the text.
#![tactic(auto)]

mod cuts;
mod laws;
mod lines;
mod next_lines;
mod numbers;
mod orders;
mod reading;
mod report;
mod row_runs;
mod value_lines;

pub use laws::reports_read_one_way;
pub use reading::{ReportFault, read_report};
pub use report::{print_report, push_gains, push_head, push_row, push_row_front, push_state};
