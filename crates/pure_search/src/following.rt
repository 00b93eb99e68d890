//! A sum that goes from one list of choices to the next.

ghost use Rattle.std.specs.Prelude.{◌≡◌, ◌↔◌, ◌<◌, ◌++◌, Contains, IfOk, IsTrue, OnOk};
ghost use Rattle.maid_model.specs.Nodes.{decisions_of};
ghost use Rattle.maid_model.specs.Parts.{place_in};
ghost use Rattle.maid_model.specs.Profiles.{pure_row};
ghost use Rattle.maid_model.specs.Scopes.{scope_for};
ghost use Rattle.maid_model.specs.Worlds.{IsWorld};
ghost use Rattle.pure_search.specs.Following.{FollowsChoices, IsRuleOfDecision, TakesRuleIfKept, TellsPlace, rule_taking};
ghost use Rattle.pure_search.specs.Games.{IsSearched, counts_for, part_of_agent};
ghost use Rattle.tree_checker.specs.AgentSums.{IsAgentSum};

use diagram_graph::SubDiagram;
use maid_model::{Diagram, Rule};
use std::alloc::{AllocError, Global};
use tree_checker::AgentSum;

/// The place of the node among the kept ones.
fn place_of(kept: &[usize], node: usize) -> Option<usize>
    ensures { TellsPlace kept.now node result }
{
    for (place, v) in kept.iter().enumerate() {
        if *v == node {
            return Some(place);
        }
    }
    None
}

/// Appends weight 1 at the choice and 0 at the other states.
fn push_row(weights: &mut Vec<u128>, states: usize, choice: usize) -> Result<(), AllocError>
    ensures { OnOk result (weights.new.items ≡ weights.old.items ++ pure_row states choice) }
{
    for state in 0..states {
        weights.push(u128::from(state == choice))?;
    }
    Ok(())
}

/// The rule of total 1 that takes in each row the choice.
fn rule_taking(
    alloc: Global,
    place: usize,
    states: usize,
    choices: &[usize],
) -> Result<Rule, AllocError>
    ensures { IfOk result (λ rule. rule ≡ rule_taking place states choices.now) }
{
    let mut weights = Vec::new(alloc);
    for choice in choices {
        push_row(&mut weights, states, *choice)?;
    }
    Ok(Rule {
        decision: place,
        total: 1,
        weights,
    })
}

/// Puts the rule that takes these choices in the place of the decision's, where the part has the
/// decision.
fn take_choices(
    alloc: Global,
    part: &SubDiagram,
    decision: usize,
    states: usize,
    choices: &[usize],
    sum: &mut AgentSum,
) -> Result<(), AllocError>
    requires sum { IsAgentSum part.now.diagram.nodes sum.old }
    requires rule { Contains part.now.nodes.items decision → IsRuleOfDecision part.now.diagram.nodes
        (rule_taking (place_in part.now.nodes.items decision) states choices.now) }
    ensures { OnOk result (TakesRuleIfKept part.now.diagram.nodes part.now.nodes.items decision
        (rule_taking (place_in part.now.nodes.items decision) states choices.now) sum.old sum.new) }
{
    if let Some(place) = place_of(&part.nodes, decision) {
        let rule = rule_taking(alloc, place, states, choices)?;
        sum.put(&part.diagram, rule);
    }
    Ok(())
}

/// Whether the two lists are one.
fn are_same(these: &[usize], those: &[usize]) -> bool
    ensures { IsTrue result ↔ (these.now ≡ those.now) }
{
    these == those
}

/// Takes the sum from one list of choices to another: it puts the rules of those decisions of the
/// part whose choices differ.
pub(crate) fn follow(
    alloc: Global,
    diagram: &Diagram,
    decisions: &[usize],
    agent: usize,
    part: &SubDiagram,
    before: &[usize],
    choices: &[usize],
    sum: &mut AgentSum,
) -> Result<(), AllocError>
    requires decisions { decisions.now ≡ decisions_of diagram.now.nodes }
    requires agent { agent < diagram.now.agents }
    requires bound { IsSearched diagram.now }
    requires part { part.now.diagram ≡ part_of_agent diagram.now agent }
    requires nodes { part.now.nodes.items ≡ scope_for diagram.now.nodes agent }
    requires before { IsWorld (counts_for diagram.now.nodes) before.now }
    requires choices { IsWorld (counts_for diagram.now.nodes) choices.now }
    requires sum { FollowsChoices diagram.now.nodes agent before.now sum.old }
    ensures { OnOk result (FollowsChoices diagram.now.nodes agent choices.now sum.new) }
{
    let _count = diagram.count();
    let mut start = 0;
    for decision in decisions {
        let end = start + diagram.rows(*decision);
        let these = &choices[start..end];
        if !are_same(&before[start..end], these) {
            let states = diagram.states(*decision);
            take_choices(alloc, part, *decision, states, these, sum)?;
        }
        start = end;
    }
    Ok(())
}
