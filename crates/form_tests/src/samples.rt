//! A small diagram that several tests run.

ghost use Rattle.std.specs.Prelude.{◌≡◌, IfOk};
ghost use Rattle.form_tests.specs.Checking.{reply_diagram};

use maid_model::Diagram;
use sample_diagrams::{decision, sample_diagram, utility};
use std::alloc::{AllocError, Global};

/// A plan, a reply that sees it, and what the pairs pay: 1, 4, 3 and 2.
pub(crate) fn reply_diagram(alloc: Global) -> Result<Diagram, AllocError>
    ensures { IfOk result (λ d. d ≡ reply_diagram) }
{
    let nodes = [
        decision(0, 2, &[]),
        decision(0, 2, &[0]),
        utility(0, &[0, 1], &[1, 4, 3, 2]),
    ];
    sample_diagram(alloc, &nodes, 1, 0)
}
