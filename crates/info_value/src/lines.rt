//! A line for each arc that is asked about.

ghost use Rattle.std.specs.Prelude.{◌≡◌, ◌<◌, IfOk, OnOk, length};
ghost use Rattle.maid_model.specs.Answers.{IsAnswer};
ghost use Rattle.maid_model.specs.Scopes.{KeepsScopedBounds};
ghost use Rattle.optimum_gap.specs.Baselines.{HoldsBaseline};
ghost use Rattle.requisite_trim.specs.Needs.{TellsNeeds};
ghost use Rattle.info_value.specs.Alone.{AppendsArcs, AreInfoLinesOf, AskFor, CanAsk, CanAskAll, CanAskEach, IsInfoLineAlone, StayLinesOf};
ghost use Rattle.info_value.specs.Lines.{AreInfoLines, HasAskedArcs, TellWorths};
ghost use Rattle.info_value.specs.Shared.{IsShared};

use crate::arcs::{below, decides, may_see};
use crate::finding::{find_seen, find_unseen};
use crate::sharing::Shared;
use diagram_graph::fix_others;
use maid_model::{Diagram, Solved, descent_is_tested};
use optimum_gap::{Baseline, Found, answers_are_baselines};
use requisite_trim::RequisiteNodes;
use std::alloc::{AllocError, Global};

/// What it is worth to the agent of the decision `to` to see the node `from` before it decides.
#[derive(Debug, Drop)]
pub struct InfoLine {
    pub from: usize,
    pub to: usize,
    /// Whether the arc is there.
    pub has: bool,
    pub found: Found,
}

/// The line of an arc, where a search has told which nodes its head needs.
fn info_line(
    alloc: Global,
    baseline: &Baseline,
    shared: &mut Shared,
    requisites: &RequisiteNodes,
    from: usize,
    to: usize,
) -> Result<InfoLine, AllocError>
    requires baseline { HoldsBaseline baseline.now }
    requires asked { CanAsk baseline.now.diagram.now.nodes (from, to) }
    requires needs { TellsNeeds baseline.now.diagram.now.nodes to requisites.now }
    requires shared { IsShared baseline.now.diagram.now shared.old }
    ensures tail { IfOk result (λ line. line.from ≡ from) }
    ensures head { IfOk result (λ line. line.to ≡ to) }
    ensures line { IfOk result (IsInfoLineAlone baseline.now.diagram.now baseline.now.agent) }
    ensures shared { OnOk result (IsShared baseline.now.diagram.now shared.new) }
{
    let seen = baseline.diagram.parents(to);
    let needed = requisites.has(from);
    if seen.contains(&from) {
        let found = find_seen(alloc, baseline, shared, needed, from, to)?;
        Ok(InfoLine {
            from,
            to,
            has: true,
            found,
        })
    } else {
        let found = find_unseen(alloc, baseline, shared, needed, from, to)?;
        Ok(InfoLine {
            from,
            to,
            has: false,
            found,
        })
    }
}

/// Appends a line for each arc into the decision that is asked about. One search tells what the
/// decision needs.
fn push_lines_into(
    alloc: Global,
    lines: &mut Vec<InfoLine>,
    diagram: &Diagram,
    baseline: &Baseline,
    shared: &mut Shared,
    decision: usize,
) -> Result<(), AllocError>
    requires baseline { HoldsBaseline baseline.now }
    requires shared { IsShared baseline.now.diagram.now shared.old }
    requires within { decision < length diagram.now.nodes }
    requires asked { CanAskAll diagram.now.nodes baseline.now.diagram.now.nodes decision }
    ensures arcs { OnOk result (AppendsArcs diagram.now decision lines.old.items lines.new.items) }
    ensures lines { OnOk result (StayLinesOf baseline.now lines.old.items lines.new.items) }
    ensures shared { OnOk result (IsShared baseline.now.diagram.now shared.new) }
{
    let below = below(diagram, decision);
    let requisites = RequisiteNodes::of(baseline.diagram, decision);
    for v in 0..diagram.count() {
        if may_see(diagram, &below, decision, v) {
            lines.push(info_line(alloc, baseline, shared, &requisites, v, decision)?)?;
        }
    }
    Ok(())
}

/// A line for each arc that is asked about.
fn info_lines(
    alloc: Global,
    diagram: &Diagram,
    baseline: &Baseline,
) -> Result<Vec<InfoLine>, AllocError>
    requires baseline { HoldsBaseline baseline.now }
    requires asked { CanAskEach diagram.now.nodes baseline.now }
    ensures arcs { IfOk result (λ lines. AskFor diagram.now.nodes baseline.now lines.items) }
    ensures lines { IfOk result (λ lines. AreInfoLinesOf baseline.now lines.items) }
{
    let mut lines = Vec::new(alloc);
    let mut shared = Shared {
        copy: None,
        worths: None,
        left: None,
    };
    for v in 0..diagram.count() {
        if decides(diagram, baseline.agent, v) {
            push_lines_into(alloc, &mut lines, diagram, baseline, &mut shared, v)?;
        }
    }
    Ok(lines)
}

/// What information is worth to the agent: a line for each of its decisions in text order and each
/// other chance node or decision in text order that does not descend from it.
///
/// Everything is asked in the diagram in which only this agent decides and the others take the
/// answered choices. A line says the first of these that applies: `TooLarge` where the arc is not
/// there and can't be added for the limits on rules; `Worthless` where the arc is not requisite, or
/// would not be; `Cycle`, `Bound` or `TooLarge` where the solver refuses the diagram without the
/// arc, or with it; and else `Value`, the optimum with the arc less that without it.
///
/// The optimum of the diagram as it is is the answer's own gain, and one search of the graph tells
/// of all arcs into a decision. So a line that says `Worthless`, or `TooLarge` for the limits on
/// rules, costs neither an edit nor a search of its own. Each other line costs one edit and one run
/// of the solver. The lines share one copy of the diagram, in which one decision after another
/// gains or loses an arc; the first line that edits it makes it. The plans of the utilities' worths
/// are made once, and a run makes those anew to which the line's decision leads. The runs share
/// their workspaces.
///
/// # Errors
///
/// Only where memory runs out.
pub fn info(
    alloc: Global,
    diagram: &Diagram,
    solved: &Solved,
    agent: usize,
) -> Result<Vec<InfoLine>, AllocError>
    // The solver answers this of the diagram.
    requires answer { IsAnswer diagram.now solved.now }
    requires bound { KeepsScopedBounds diagram.now }
    requires agent { agent < diagram.now.agents }
    ensures asked { IfOk result (λ lines. HasAskedArcs diagram.now.nodes agent lines.items) }
    ensures lines { IfOk result (λ lines. AreInfoLines diagram.now solved.now agent lines.items) }
    ensures worths { IfOk result (λ lines. TellWorths diagram.now solved.now agent lines.items) }
{
    answers_are_baselines();
    descent_is_tested();
    let _count = diagram.count();
    let alone = fix_others(alloc, diagram, agent, solved)?;
    let baseline = Baseline {
        diagram: &alone,
        agent,
        optimum: solved.gains[agent],
    };
    info_lines(alloc, diagram, &baseline)
}
