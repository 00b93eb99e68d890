//! A line for each chance node.

ghost use Rattle.std.specs.Prelude.{◌≡◌, ◌<◌, All, IfOk, IfSome, length, map};
ghost use Rattle.maid_model.specs.declared.diagrams.Kind.TheVariants.{Chance};
ghost use Rattle.maid_model.specs.Answers.{IsAnswer};
ghost use Rattle.maid_model.specs.Nodes.{is_chance, node_at};
ghost use Rattle.maid_model.specs.Scopes.{KeepsScopedBounds};
ghost use Rattle.optimum_gap.specs.Baselines.{HoldsBaseline};
ghost use Rattle.rule_solver.specs.Kept.{IsKeptDiagram};
ghost use Rattle.rule_solver.specs.Rooms.{AreLeft};
ghost use Rattle.control_incentive.specs.Lines.{HasChanceNodes, TellControls, TellIncentives, chance_nodes, line_node};
ghost use Rattle.control_incentive.specs.Steps.{AreChanceNodes, AreControlLinesOf, IsControlLineOf, IsKeptIfSome};

use crate::finding::find;
use crate::paths::Paths;
use diagram_graph::{copy_diagram, fix_others};
use maid_model::{Diagram, Kind, Solved};
use node_sets::NodeSet;
use optimum_gap::{Baseline, Found, answers_are_baselines};
use requisite_trim::trim;
use rule_solver::{KeptDiagram, Workspaces, keep_diagram};
use std::alloc::{AllocError, Global};

/// What control of the chance node is worth to the agent, and which incentives it has there.
#[derive(Debug, Drop)]
pub struct ControlLine {
    pub node: usize,
    /// Whether in the trimmed diagram a path leads from the node to a decision of the agent.
    pub response: bool,
    /// Whether a path leads from a decision of the agent through the node to a utility of the
    /// agent.
    pub instrumental: bool,
    pub found: Found,
}

/// Whether the node is a chance node.
fn is_chance(diagram: &Diagram, v: usize) -> bool
    requires { v < length diagram.now.nodes }
    ensures { result ≡ is_chance (node_at diagram.now.nodes v).kind }
{
    match diagram.kind(v) {
        Kind::Chance => true,
        Kind::Decision => false,
        Kind::Utility => false,
    }
}

/// The chance nodes, in text order.
fn chance_nodes(alloc: Global, diagram: &Diagram) -> Result<Vec<usize>, AllocError>
    ensures { IfOk result (λ nodes. nodes.items ≡ chance_nodes diagram.now.nodes) }
{
    let mut nodes = Vec::new(alloc);
    for v in 0..diagram.count() {
        if is_chance(diagram, v) {
            nodes.push(v)?;
        }
    }
    Ok(nodes)
}

/// The plans of the diagram and the searches for its decisions, if any node matters, and else
/// nothing: then no edited diagram is solved.
fn keep_for(
    alloc: Global,
    alone: &Diagram,
    matter: &NodeSet,
) -> Result<Option<KeptDiagram>, AllocError>
    ensures kept { IfOk result (λ kept. IfSome kept (IsKeptDiagram alone.now.nodes)) }
    ensures some { IfOk result (IsKeptIfSome matter.now) }
{
    match matter.first_from(0) {
        Some(_) => Ok(Some(keep_diagram(alloc, alone)?)),
        None => Ok(None),
    }
}

/// The line of a chance node. The copy is of the baseline's diagram, and stays so.
fn control_line(
    alloc: Global,
    baseline: &Baseline,
    copy: &mut Diagram,
    kept: Option<&KeptDiagram>,
    left: &mut Option<Workspaces>,
    paths: &Paths,
    node: usize,
) -> Result<ControlLine, AllocError>
    requires baseline { HoldsBaseline baseline.now }
    requires copy { copy.old ≡ baseline.now.diagram.now }
    requires kept { IfSome kept (λ known. IsKeptDiagram baseline.now.diagram.now.nodes known.now) }
    requires left { AreLeft left.old }
    requires chance { (node_at baseline.now.diagram.now.nodes node).kind ≡ Chance }
    requires within { node < length baseline.now.diagram.now.nodes }
    ensures node { IfOk result (λ line. line.node ≡ node) }
    ensures line { IfOk result (IsControlLineOf baseline.now paths.now) }
    ensures again { copy.new ≡ copy.old }
    ensures left { AreLeft left.new }
{
    let _count = baseline.diagram.count();
    let response = paths.respond.holds(node);
    let instrumental = paths.instruments.holds(node);
    let matters = paths.matter.holds(node);
    let found = find(alloc, baseline, copy, kept, left, matters, node)?;
    Ok(ControlLine {
        node,
        response,
        instrumental,
        found,
    })
}

/// A line for each of the chance nodes. All runs share their workspaces and one copy of the
/// baseline's diagram.
fn control_lines(
    alloc: Global,
    baseline: &Baseline,
    copy: &mut Diagram,
    kept: Option<&KeptDiagram>,
    paths: &Paths,
    nodes: &[usize],
) -> Result<Vec<ControlLine>, AllocError>
    requires baseline { HoldsBaseline baseline.now }
    requires copy { copy.old ≡ baseline.now.diagram.now }
    requires kept { IfSome kept (λ known. IsKeptDiagram baseline.now.diagram.now.nodes known.now) }
    requires chance { AreChanceNodes baseline.now.diagram.now.nodes nodes.now }
    requires within { All (λ v. v < length baseline.now.diagram.now.nodes) nodes.now }
    ensures nodes { IfOk result (λ lines. map line_node lines.items ≡ nodes.now) }
    ensures lines { IfOk result (λ lines. AreControlLinesOf baseline.now paths.now lines.items) }
{
    let mut lines = Vec::with_capacity(alloc, nodes.len())?;
    let mut left = None;
    for node in nodes {
        let line = control_line(alloc, baseline, copy, kept, &mut left, paths, *node)?;
        lines.push(line)?;
    }
    Ok(lines)
}

/// What control is worth to the agent: a line for each chance node of the diagram, in text order.
///
/// Everything is asked in the diagram in which only this agent decides and the others take the
/// answered choices. A line says the first of these that applies: `Worthless` where in the trimmed
/// diagram no path leads from the node to a utility of the agent; `TooLarge` where as a decision
/// the node makes too much of the rules; `Cycle`, `Bound` or `TooLarge` where the solver refuses
/// the diagram in which the agent decides at the node; and else `Value`, the optimum of that
/// diagram less the optimum before. The two flags are facts of the graph, and no value is claimed
/// from them.
///
/// The optimum before is the answer's own gain. It trims the diagram and searches it a few times,
/// and each line costs at most one edit and one run of the solver. The plans of the agent's
/// decisions and those of the utilities' worths are made once for all lines, and copied for each
/// run, which makes only those of the node's decision. The searches for the agent's decisions are
/// made once, too, and each run makes only that for the node. The runs share their workspaces, and
/// one copy of the diagram, in which the agent decides at one node after another.
///
/// # Errors
///
/// Only where memory runs out.
pub fn control(
    alloc: Global,
    diagram: &Diagram,
    solved: &Solved,
    agent: usize,
) -> Result<Vec<ControlLine>, AllocError>
    // The solver answers this of the diagram.
    requires answer { IsAnswer diagram.now solved.now }
    requires bound { KeepsScopedBounds diagram.now }
    requires agent { agent < diagram.now.agents }
    ensures nodes { IfOk result (λ lines. HasChanceNodes diagram.now.nodes lines.items) }
    ensures lines { IfOk result (λ lines. TellIncentives diagram.now solved.now agent lines.items) }
    ensures worths { IfOk result (λ lines. TellControls diagram.now solved.now agent lines.items) }
{
    answers_are_baselines();
    let _count = diagram.count();
    let alone = fix_others(alloc, diagram, agent, solved)?;
    let trimmed = trim(alloc, &alone)?;
    let paths = Paths::find(&alone, &trimmed.diagram, agent);
    let baseline = Baseline {
        diagram: &alone,
        agent,
        optimum: solved.gains[agent],
    };
    let nodes = chance_nodes(alloc, diagram)?;
    let kept = keep_for(alloc, &alone, &paths.matter)?;
    let mut copy = copy_diagram(alloc, &alone)?;
    control_lines(alloc, &baseline, &mut copy, kept.as_ref(), &paths, &nodes)
}
