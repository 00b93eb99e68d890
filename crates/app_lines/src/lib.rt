//! The lines that a run tells beside its report: where a place of a text stands, lines of nodes'
//! names, of removed arcs, of choices and of agents' fractions; and the text of a generated
//! diagram.
#![tactic(auto)]

mod choices;
mod demo;
mod gains;
mod names;
mod places;
mod removed;

pub use choices::choice_lines;
pub use demo::demo_text;
pub use gains::gain_lines;
pub use names::list_line;
pub use places::place;
pub use removed::removed_lines;
