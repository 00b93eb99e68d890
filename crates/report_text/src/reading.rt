//! A report, read.

ghost use Rattle.std.specs.Prelude.{◌≡◌, IfOk, IfErr};
ghost use Rattle.maid_model.specs.Names.{NamesFit};
ghost use Rattle.report_text.specs.Reading.{AreTold, CanStand, IsReadAs, IsBadLineOrNoMemory};
ghost use Rattle.report_text.specs.Slots.{IsDecisionOrder, IsStuckBehindOrder, ShowsSolved};

use crate::lines::LineReader;
use crate::next_lines::{next_answers, next_gains, next_order, pass_end, pass_words};
use maid_model::{Diagram, Names, Solved};
use std::alloc::{AllocError, AllocFailed, Global};
use thiserror::Error;

/// Why a text was not read as a report.
#[derive(Clone, Copy, Debug, PartialEq, Eq, Error)]
pub enum ReportFault {
    /// No report of the diagram has the text's lines up to and with this one, counted from 1. Where
    /// the text ends too early it is the number after its last line.
    #[error("bad line {line}")]
    BadLine { line: usize },
    /// Memory ran out, which says nothing of the text.
    #[error("out of memory")]
    NoMemory,
}

impl<T: Drop> From<AllocFailed<T>> for ReportFault {
    ghost use Rattle.report_text.specs.declared.reading.ReportFault.TheVariants.{NoMemory};

    ghost from_gives = { λ _ fault. fault ≡ NoMemory };

    fn from(_failed: AllocFailed<T>) -> ReportFault {
        ReportFault::NoMemory
    }
}

impl From<AllocError> for ReportFault {
    ghost use Rattle.report_text.specs.declared.reading.ReportFault.TheVariants.{NoMemory};

    ghost from_gives = { λ _ fault. fault ≡ NoMemory };

    fn from(_error: AllocError) -> ReportFault {
        ReportFault::NoMemory
    }
}

// Reads what stands behind the line of the order.
fn read_behind(
    alloc: Global,
    lines: &mut LineReader,
    diagram: &Diagram,
    names: &Names,
    agents: usize,
    order: Vec<usize>,
) -> Result<Solved, ReportFault>
    requires fit { NamesFit diagram.now names.now }
    requires agents { agents ≡ diagram.now.agents }
    requires order { IsDecisionOrder diagram.now.nodes order.items }
    ensures value { IfOk result (CanStand diagram.now) }
    ensures order { IfOk result (λ solved. solved.order ≡ order.items) }
    ensures bytes { IfOk result (ShowsSolved diagram.now names.now lines.old.rest) }
    ensures err { IfErr result (IsStuckBehindOrder diagram.now names.now order.items lines.old) }
{
    let mut scratch = Vec::new(alloc);
    let answers = next_answers(alloc, lines, &mut scratch, diagram, names, &order)?;
    let gains = next_gains(alloc, lines, &mut scratch, names, agents)?;
    pass_end(lines)?;
    Ok(Solved {
        order,
        answers,
        gains,
    })
}

/// The value whose report the text is, byte for byte.
///
/// It goes over the text once and prints each line anew to compare, so the cost is that of the text
/// and of a search among the names for each decision of the order.
///
/// # Errors
///
/// `BadLine` where the text is no report of the diagram: the least line, counted from 1, up to and
/// with which no report has the text's lines, or the number after the last line where the text ends
/// too early. `NoMemory` may come at any point.
pub fn read_report(
    alloc: Global,
    diagram: &Diagram,
    names: &Names,
    text: &[u8],
) -> Result<Solved, ReportFault>
    requires fit { NamesFit diagram.now names.now }
    requires told { AreTold names.now }
    ensures ok { IfOk result (IsReadAs diagram.now names.now text.now) }
    ensures err { IfErr result (IsBadLineOrNoMemory diagram.now names.now text.now) }
{
    let agents = diagram.agents();
    let mut lines = LineReader::new(text);
    pass_words(&mut lines, b"maidsolve report 1")?;
    let order = next_order(alloc, &mut lines, diagram, names)?;
    read_behind(alloc, &mut lines, diagram, names, agents, order)
}
