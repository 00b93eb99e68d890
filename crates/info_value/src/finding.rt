//! What is found of one arc.

ghost use Rattle.std.specs.Prelude.{◌↔◌, IsTrue, IfOk, OnOk};
ghost use Rattle.maid_model.specs.Graph.{Arc};
ghost use Rattle.maid_model.specs.Nodes.{IsDecision};
ghost use Rattle.maid_model.specs.Relevance.{IsRequisite};
ghost use Rattle.optimum_gap.specs.Baselines.{HoldsBaseline};
ghost use Rattle.info_value.specs.Alone.{CanAsk, HasRoomForArc, IsFoundOfSeen, IsUnseenFoundOf, WouldBeNeeded};
ghost use Rattle.info_value.specs.Shared.{IsShared};

use crate::sharing::Shared;
use arc_laws::arc_removed;
use diagram_graph::{add_arc_in, is_too_large, remove_arc_in};
use optimum_gap::{Baseline, Found, edits_keep_scopes};
use std::alloc::{AllocError, Global};

/// What is found of an arc that is there, whose tail is needed or not. Where it is, the arc is
/// taken out of the copy of the diagram, which is solved, and then the decision is put back.
pub(crate) fn find_seen(
    alloc: Global,
    baseline: &Baseline,
    shared: &mut Shared,
    needed: bool,
    from: usize,
    to: usize,
) -> Result<Found, AllocError>
    requires baseline { HoldsBaseline baseline.now }
    requires shared { IsShared baseline.now.diagram.now shared.old }
    requires decision { IsDecision baseline.now.diagram.now.nodes to }
    requires arc { Arc baseline.now.diagram.now.nodes from to }
    requires needed { IsTrue needed ↔ IsRequisite baseline.now.diagram.now.nodes to from }
    ensures found { IfOk result
        (IsFoundOfSeen baseline.now.diagram.now baseline.now.agent from to) }
    ensures shared { OnOk result (IsShared baseline.now.diagram.now shared.new) }
{
    arc_removed();
    edits_keep_scopes();
    if !needed {
        return Ok(Found::Worthless);
    }
    let _count = baseline.diagram.count();
    let mut less = shared.take_copy(alloc, baseline.diagram)?;
    let seeing = remove_arc_in(alloc, &mut less, from, to)?;
    let kept = shared.keep(alloc, baseline.diagram, &less, to)?;
    let found = baseline.loss(alloc, &less, Some(&kept), &mut shared.left)?;
    less.exchange(to, seeing);
    shared.copy = Some(less);
    Ok(found)
}

/// What is found of an arc that is not there, whose tail would be needed or not. Where it would,
/// the arc is added to the copy of the diagram, which is solved, and then the decision is put back.
pub(crate) fn find_unseen(
    alloc: Global,
    baseline: &Baseline,
    shared: &mut Shared,
    would_need: bool,
    from: usize,
    to: usize,
) -> Result<Found, AllocError>
    requires baseline { HoldsBaseline baseline.now }
    requires shared { IsShared baseline.now.diagram.now shared.old }
    requires asked { CanAsk baseline.now.diagram.now.nodes (from, to) }
    requires absent { Arc baseline.now.diagram.now.nodes from to → ⊥ }
    requires would_need { IsTrue would_need ↔ WouldBeNeeded baseline.now from to }
    ensures found { IfOk result (IsUnseenFoundOf baseline.now from to) }
    ensures graph { IfOk result (HasRoomForArc baseline.now.diagram.now from to) }
    ensures shared { OnOk result (IsShared baseline.now.diagram.now shared.new) }
{
    edits_keep_scopes();
    let _count = baseline.diagram.count();
    if is_too_large(baseline.diagram, from, to) {
        return Ok(Found::TooLarge);
    }
    if !would_need {
        return Ok(Found::Worthless);
    }
    let mut more = shared.take_copy(alloc, baseline.diagram)?;
    let blind = add_arc_in(alloc, &mut more, from, to)?;
    let kept = shared.keep(alloc, baseline.diagram, &more, to)?;
    let found = baseline.gain(alloc, &more, Some(&kept), &mut shared.left)?;
    more.exchange(to, blind);
    shared.copy = Some(more);
    Ok(found)
}
