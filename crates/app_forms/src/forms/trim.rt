//! `trim F`: the diagram without the arcs that decisions do not need.

ghost use Rattle.std.specs.Prelude.{IfOk, IfErr};
ghost use Rattle.app_lines.specs.Removed.{AreNamed};
ghost use Rattle.maid_model.specs.Names.{NamesFit};
ghost use Rattle.app_forms.specs.Reading.{Prints, TellsFor};
ghost use Rattle.net_print.specs.RoundTrip.{IsPrintable};
ghost use Rattle.app_forms.specs.Trim.{trimming, IsTrimmedText};

use crate::refusal::Refusal;
use app_lines::removed_lines;
use maid_model::{Diagram, Names};
use net_print::{commented_texts_read_back, print};
use requisite_trim::trim;
use std::alloc::{AllocError, Global};

// The lines of the removed arcs, and then the text of the diagram without them.
fn trimmed_text(
    alloc: Global,
    trimmed: &Diagram,
    names: &Names,
    removed: &[(usize, usize)],
) -> Result<Vec<u8>, AllocError>
    requires fit { NamesFit trimmed.now names.now }
    requires named { AreNamed names.now removed.now }
    ensures { IfOk result (IsTrimmedText trimmed.now names.now removed.now) }
{
    let mut text = removed_lines(alloc, names, removed)?;
    text.extend_from_slice(&print(alloc, trimmed, names)?)?;
    Ok(text)
}

/// The arcs of the diagram that its decisions do not need, a comment line each, and then the text
/// of the diagram without them. The whole stands for the trimmed diagram and the same names.
///
/// # Errors
///
/// Want of memory.
pub fn answer(alloc: Global, diagram: &Diagram, names: &Names) -> Result<Vec<u8>, Refusal>
    requires { IsPrintable diagram.now names.now }
    ensures ok { IfOk result (Prints trimming diagram.now names.now) }
    ensures err { IfErr result (TellsFor trimming diagram.now names.now) }
{
    commented_texts_read_back();
    let less = trim(alloc, diagram)?;
    Ok(trimmed_text(alloc, &less.diagram, names, &less.removed)?)
}
