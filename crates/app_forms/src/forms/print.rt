//! `print F`: the text of a diagram.

ghost use Rattle.std.specs.Prelude.{IfOk, IfErr};
ghost use Rattle.app_forms.specs.Print.{printing};
ghost use Rattle.app_forms.specs.Reading.{Prints, TellsFor};
ghost use Rattle.net_print.specs.RoundTrip.{IsPrintable};

use crate::refusal::Refusal;
use maid_model::{Diagram, Names};
use net_print::{print, printed_texts_read_back};
use std::alloc::Global;

/// The text of the diagram. It stands for the same diagram and names.
///
/// # Errors
///
/// Want of memory.
pub fn answer(alloc: Global, diagram: &Diagram, names: &Names) -> Result<Vec<u8>, Refusal>
    requires { IsPrintable diagram.now names.now }
    ensures ok { IfOk result (Prints printing diagram.now names.now) }
    ensures err { IfErr result (TellsFor printing diagram.now names.now) }
{
    printed_texts_read_back();
    Ok(print(alloc, diagram, names)?)
}
