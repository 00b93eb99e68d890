//! What each form of the command line answers: words to a form, and a file's bytes to the form's
//! text or to a refusal.
//!
//! ```rust
//! use app_forms::{Form, form_of};
//!
//! let Some(Form::Text(form)) = form_of(words) else {
//!     return Ok(());
//! };
//! let text = form.text(alloc, bytes)?;
//! ```
//!
//! All of it is pure: no form reads a file or writes one. `check`, the form with two files, is
//! answered in two steps ([`check::examine`], [`check::judge`]), since its second file is asked for
//! only where nothing is found in the first.
#![tactic(auto)]

mod fault_words;
mod forms;
mod laws;
pub mod lines;
mod output;
mod reading;
mod refusal;
mod status;

pub use forms::{Form, TextForm, check, form_of};
pub use laws::{
    a_text_has_a_diagram_or_a_fault, answered_diagrams_are_clear, one_status,
    outcomes_have_their_statuses,
};
pub use output::Output;
pub use refusal::Refusal;
pub use status::Status;
