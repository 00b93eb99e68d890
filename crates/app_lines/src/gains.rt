//! The agents' lines of a report.

ghost use Rattle.std.specs.Prelude.{◌≡◌, IfOk, length};
ghost use Rattle.maid_model.specs.Reports.{gain_lines};

use maid_model::{Names, Ratio};
use report_text::push_gains;
use std::alloc::{AllocError, Global};

/// For each agent the line `agent AGENT = VALUE`, as in a report: its quoted name, and its fraction
/// as the pair that it is, so a reduced fraction is printed reduced.
pub fn gain_lines(alloc: Global, names: &Names, gains: &[Ratio]) -> Result<Vec<u8>, AllocError>
    requires { length gains.now ≡ length names.now.agents }
    ensures { IfOk result (λ text. text.items ≡ gain_lines names.now 0 gains.now) }
{
    let mut text = Vec::new(alloc);
    push_gains(&mut text, names, gains)?;
    Ok(text)
}
