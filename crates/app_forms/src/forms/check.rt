//! `check F R`: the verdict on a finished report.

ghost use Rattle.std.specs.Prelude.{◌≡◌, IfOk, IfErr, OnOk};
ghost use Rattle.first_fault.specs.Answers.{IsFaultOrNoMemory};
ghost use Rattle.maid_model.specs.Names.{NamesFit};
ghost use Rattle.maid_model.specs.Scopes.{KeepsScopedBounds};
ghost use Rattle.report_text.specs.Reading.{AreTold, bad_line, report_pass};
ghost use Rattle.app_forms.specs.Check.{CanBeChecked, cause_words, examining, verdict_line, status_after};
ghost use Rattle.app_forms.specs.Reading.{IsExamined, Judges, TellsFor, TellsOf, GivesOutput};
ghost use Rattle.app_forms.specs.Tasks.{comes_of};

use crate::output::Output;
use crate::reading::Source;
use crate::refusal::{Refusal, told};
use crate::{Status, lines};
use line_pieces::Piece::{Number, Text};
use line_pieces::joined;
use maid_model::{Diagram, MOST_LEAVES, Names};
use report_text::{ReportFault, read_report};
use std::alloc::{AllocError, Global};
use tree_checker::{Cause, Verdict, check, leaves};
use weight_scale::{BoundPlace, bound};

// Refuses a diagram that passes the weight bound.
fn keep_bound(alloc: Global, diagram: &Diagram, names: &Names) -> Result<(), Refusal>
    requires { NamesFit diagram.now names.now }
    ensures ok { OnOk result (KeepsScopedBounds diagram.now) }
    ensures err { IfErr result (TellsFor examining diagram.now names.now) }
{
    match bound(diagram) {
        BoundPlace::Within => Ok(()),
        BoundPlace::Node(v) => Err(told(
            Status::WeightBound,
            lines::weight_bound(alloc, names, Some(v)),
        )),
        BoundPlace::Utilities => Err(told(
            Status::WeightBound,
            lines::weight_bound(alloc, names, None),
        )),
    }
}

/// The diagram that the bytes of a check's first file stand for, and the names in it. It keeps the
/// weight bound and the limit of leaves.
///
/// # Errors
///
/// The fault of the bytes, the place at which the weight bound is passed, the leaves where they are
/// too many, or want of memory.
pub fn examine(alloc: Global, name: &str, bytes: &[u8]) -> Result<(Diagram, Names), Refusal>
    ensures ok { IfOk result (λ built. IsExamined bytes.now built.0 built.1) }
    ensures err { IfErr result (TellsOf (comes_of examining name.now bytes.now)) }
{
    let (diagram, names) = Source { name, bytes }.diagram(alloc)?;
    keep_bound(alloc, &diagram, &names)?;
    let leaves = leaves(&diagram);
    if leaves > MOST_LEAVES {
        return Err(told(Status::TooLarge, lines::too_many_leaves(alloc, leaves)));
    }
    Ok((diagram, names))
}

// The words of a cause.
fn cause_words(cause: Cause) -> &'static [u8]
    ensures { result.now ≡ cause_words cause }
{
    match cause {
        Cause::Order => b"order",
        Cause::Choice => b"choice",
        Cause::Worth => b"worth",
        Cause::Never => b"never",
        Cause::Gain => b"gain",
    }
}

// The line of a report that is rejected.
fn rejection(alloc: Global, line: usize, cause: Cause) -> Result<Vec<u8>, AllocError>
    ensures { IfOk result (λ text. text.items ≡ verdict_line (Verdict.Rejected line cause)) }
{
    joined(
        alloc,
        &[
            Text(b"rejected line "),
            Number(line as u128),
            Text(b": "),
            Text(cause_words(cause)),
            Text(b"\n"),
        ],
    )
}

// The verdict as a line, with the status that it ends a run with.
fn output(alloc: Global, verdict: Verdict) -> Result<Output, AllocError>
    ensures status { IfOk result (λ output. output.status ≡ status_after verdict) }
    ensures text { IfOk result (λ output. output.text.items ≡ verdict_line verdict) }
{
    Ok(match verdict {
        Verdict::Accepted => Output {
            status: Status::Done,
            text: Vec::from_slice(alloc, b"accepted\n")?,
        },
        Verdict::Rejected { line, cause } => Output {
            status: Status::Rejected,
            text: rejection(alloc, line, cause)?,
        },
    })
}

// The refusal of bytes that are no report of the diagram.
fn bad_report(
    alloc: Global,
    diagram: &Diagram,
    names: &Names,
    name: &str,
    bytes: &[u8],
    fault: ReportFault,
) -> Refusal
    requires { IsFaultOrNoMemory bad_line (report_pass diagram.now names.now bytes.now) fault }
    ensures { TellsOf (Judges diagram.now names.now name.now bytes.now) result }
{
    match fault {
        ReportFault::BadLine { line } => told(
            Status::TextFault,
            lines::bad_line(alloc, name.as_bytes(), line),
        ),
        ReportFault::NoMemory => Refusal::NoMemory,
    }
}

/// The verdict on the report that the bytes of a check's second file are, of the diagram in the
/// first.
///
/// # Errors
///
/// The first line with which no report of the diagram begins, or want of memory.
pub fn judge(
    alloc: Global,
    diagram: &Diagram,
    names: &Names,
    name: &str,
    bytes: &[u8],
) -> Result<Output, Refusal>
    requires fit { NamesFit diagram.now names.now }
    requires told { AreTold names.now }
    requires can { CanBeChecked diagram.now }
    ensures ok { IfOk result (GivesOutput (Judges diagram.now names.now name.now bytes.now)) }
    ensures err { IfErr result (TellsOf (Judges diagram.now names.now name.now bytes.now)) }
{
    match read_report(alloc, diagram, names, bytes) {
        Ok(solved) => Ok(output(alloc, check(alloc, diagram, &solved)?)?),
        Err(fault) => Err(bad_report(alloc, diagram, names, name, bytes, fault)),
    }
}
