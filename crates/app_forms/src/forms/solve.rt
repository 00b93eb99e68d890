//! `solve F`: the report.

ghost use Rattle.std.specs.Prelude.{IfOk, IfErr, OnOk};
ghost use Rattle.first_fault.specs.Answers.{IsFaultOrNoMemory};
ghost use Rattle.maid_model.specs.Names.{NamesFit};
ghost use Rattle.app_forms.specs.Reading.{Prints, TellsFor, TellsFound};
ghost use Rattle.app_forms.specs.Solve.{IsSolution, IsSolvable, solver_stages, solving};
ghost use Rattle.relevance_graph.specs.Relevant.{IsRelevance};
ghost use Rattle.rule_solver.specs.Faults.{solve_fault, solve_pass};

use crate::refusal::{Refusal, told};
use crate::{Status, lines};
use app_lines::list_line;
use maid_model::{Diagram, Names, Solved};
use relevance_graph::{Relevance, find_relevance};
use report_text::print_report;
use rule_solver::{SolveFault, solve_by_relevance};
use std::alloc::Global;

// The refusal of a diagram that isn't solved.
fn refusal(alloc: Global, diagram: &Diagram, names: &Names, fault: &SolveFault) -> Refusal
    requires fit { NamesFit diagram.now names.now }
    requires fault { IsFaultOrNoMemory solve_fault (solve_pass diagram.now) fault.now }
    ensures { TellsFound diagram.now names.now solver_stages result }
{
    match fault {
        SolveFault::Cycle { list } => told(
            Status::Cycle,
            list_line(alloc, names, b"relevance cycle:", list),
        ),
        SolveFault::WeightBound { node } => told(
            Status::WeightBound,
            lines::weight_bound(alloc, names, *node),
        ),
        SolveFault::TooLarge { cells, work } => told(
            Status::TooLarge,
            lines::too_large(alloc, *cells, *work),
        ),
        SolveFault::NoMemory => Refusal::NoMemory,
    }
}

/// The answer of a diagram whose relevance graph is known.
///
/// # Errors
///
/// The relevance cycle, the place at which the weight bound is passed, the cells and the work of a
/// run that passes a limit, or want of memory.
pub fn solve_by_graph(
    alloc: Global,
    diagram: &Diagram,
    names: &Names,
    relevance: &Relevance,
) -> Result<Solved, Refusal>
    requires fit { NamesFit diagram.now names.now }
    requires relevance { IsRelevance diagram.now.nodes relevance.now }
    ensures solvable { OnOk result (IsSolvable diagram.now) }
    ensures ok { IfOk result (IsSolution diagram.now) }
    ensures err { IfErr result (TellsFound diagram.now names.now solver_stages) }
{
    match solve_by_relevance(alloc, diagram, relevance) {
        Ok(solved) => Ok(solved),
        Err(fault) => Err(refusal(alloc, diagram, names, &fault)),
    }
}

/// The answer of a diagram.
///
/// # Errors
///
/// Those of [`solve_by_graph`].
pub fn solve_diagram(alloc: Global, diagram: &Diagram, names: &Names) -> Result<Solved, Refusal>
    requires { NamesFit diagram.now names.now }
    ensures solvable { OnOk result (IsSolvable diagram.now) }
    ensures ok { IfOk result (IsSolution diagram.now) }
    ensures err { IfErr result (TellsFound diagram.now names.now solver_stages) }
{
    let relevance = find_relevance(alloc, diagram)?;
    solve_by_graph(alloc, diagram, names, &relevance)
}

/// The report of the diagram's answer.
///
/// # Errors
///
/// Those of [`solve_diagram`].
pub fn answer(alloc: Global, diagram: &Diagram, names: &Names) -> Result<Vec<u8>, Refusal>
    requires { NamesFit diagram.now names.now }
    ensures ok { IfOk result (Prints solving diagram.now names.now) }
    ensures err { IfErr result (TellsFor solving diagram.now names.now) }
{
    let solved = solve_diagram(alloc, diagram, names)?;
    Ok(print_report(alloc, diagram, names, &solved)?)
}
