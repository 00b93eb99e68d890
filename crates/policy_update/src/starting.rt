//! The first states of all decisions.

ghost use Rattle.std.specs.Prelude.{◌≡◌, IfOk};
ghost use Rattle.maid_model.specs.Nodes.{decisions_of};
ghost use Rattle.policy_update.specs.Steps.{first_choices};

use maid_model::{Answer, Diagram, Row};
use std::alloc::{AllocError, Global};

/// The first state in each row of each decision, without worths.
pub(crate) fn first_choices(
    alloc: Global,
    diagram: &Diagram,
    decisions: &[usize],
) -> Result<Vec<Answer>, AllocError>
    requires { decisions.now ≡ decisions_of diagram.now.nodes }
    ensures { IfOk result (λ answers. answers.items ≡ first_choices diagram.now.nodes) }
{
    let mut answers = Vec::with_capacity(alloc, decisions.len())?;
    for decision in decisions {
        let first = Row {
            choice: 0,
            worth: None,
        };
        let rows = vec![in alloc; first; diagram.rows(*decision)]?;
        answers.push(Answer {
            decision: *decision,
            rows,
        })?;
    }
    Ok(answers)
}
