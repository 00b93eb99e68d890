//! The text of a diagram.

ghost use Rattle.std.specs.Prelude.{◌≡◌, IfOk};
ghost use Rattle.maid_model.specs.Names.{NamesFit};
ghost use Rattle.net_print.specs.Printed.{printed};

use crate::blocks::push_blocks;
use crate::potentials::push_potentials;
use maid_model::{Diagram, Names};
use std::alloc::{AllocError, Global};

/// The text of a diagram with these names: first each node's block, then each node's potential, a
/// line each. Weights are printed as reduced rows of whole numbers, and utilities as decimals. Its
/// cost is that of the text it makes.
#[tactic(auto, using(std::proofs::Common::append_assoc), unfolding(crate::specs::Printed::printed))]
pub fn print(alloc: Global, diagram: &Diagram, names: &Names) -> Result<Vec<u8>, AllocError>
    requires { NamesFit diagram.now names.now }
    ensures { IfOk result (λ text. text.items ≡ printed diagram.now names.now) }
{
    let mut out = Vec::new(alloc);
    push_blocks(&mut out, diagram, names)?;
    push_potentials(&mut out, diagram, names)?;
    Ok(out)
}
