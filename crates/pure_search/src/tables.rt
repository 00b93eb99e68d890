//! The table of what all lists of choices give an agent.

ghost use Rattle.std.specs.Prelude.{◌≡◌, ◌<◌, ◌+◌, IfOk, OnOk};
ghost use Rattle.maid_model.specs.Nodes.{decisions_of};
ghost use Rattle.maid_model.specs.Scopes.{scope_for};
ghost use Rattle.maid_model.specs.Worlds.{IsWorld, worlds_from};
ghost use Rattle.pure_search.specs.Following.{FollowsChoices};
ghost use Rattle.pure_search.specs.Games.{AddsRow, AddsRows, IsGameOf, IsSearched, MarksBest, MarksStable, counts_for, key_of, IsGainTableOf, list_count, part_of_agent};

use crate::answering::profile_of;
use crate::following::follow;
use crate::games::Game;
use crate::keys::key_of;
use crate::marks::keep_greatest;
use crate::odometer::{first_choices, next_choices};
use diagram_graph::{SubDiagram, part};
use maid_model::Diagram;
use std::alloc::{AllocError, Global};
use tree_checker::{AgentSum, rules_in_part, utilities_of};

/// For each list of choices, in their order, the number of the others' choices, and what it gives
/// the agent.
#[derive(Drop)]
struct Table {
    keys: Vec<usize>,
    gains: Vec<i128>,
}

/// The part of the diagram that the agent's utilities and their ancestors make.
pub(crate) fn part_for(
    alloc: Global,
    diagram: &Diagram,
    agent: usize,
) -> Result<SubDiagram, AllocError>
    ensures diagram { IfOk result (λ part. part.diagram ≡ part_of_agent diagram.now agent) }
    ensures nodes { IfOk result (λ part. part.nodes.items ≡ scope_for diagram.now.nodes agent) }
{
    let _count = diagram.count();
    let utilities = utilities_of(alloc, diagram, agent)?;
    part(alloc, diagram, &utilities)
}

/// The agent's sum in its part, under the choices.
fn sum_under(
    alloc: Global,
    diagram: &Diagram,
    game: &Game,
    agent: usize,
    part: &SubDiagram,
    choices: &[usize],
) -> Result<AgentSum, AllocError>
    requires decisions { game.now.decisions.items ≡ decisions_of diagram.now.nodes }
    requires agent { agent < diagram.now.agents }
    requires bound { IsSearched diagram.now }
    requires part { part.now.diagram ≡ part_of_agent diagram.now agent }
    requires nodes { part.now.nodes.items ≡ scope_for diagram.now.nodes agent }
    requires choices { IsWorld (counts_for diagram.now.nodes) choices.now }
    ensures { IfOk result (FollowsChoices diagram.now.nodes agent choices.now) }
{
    let _count = diagram.count();
    let profile = profile_of(alloc, diagram, &game.decisions, choices)?;
    let rules = rules_in_part(alloc, diagram, &profile, &part.nodes)?;
    AgentSum::new(alloc, &part.diagram, rules, agent)
}

/// Appends the row of the choices to the table. The sum is the one under these choices.
fn add_row(
    diagram: &Diagram,
    game: &Game,
    agent: usize,
    part: &SubDiagram,
    choices: &[usize],
    sum: &mut AgentSum,
    table: &mut Table,
) -> Result<(), AllocError>
    requires game { IsGameOf diagram.now.nodes game.now }
    requires agent { agent < diagram.now.agents }
    requires bound { IsSearched diagram.now }
    requires part { part.now.diagram ≡ part_of_agent diagram.now agent }
    requires nodes { part.now.nodes.items ≡ scope_for diagram.now.nodes agent }
    requires choices { IsWorld (counts_for diagram.now.nodes) choices.now }
    requires sum { FollowsChoices diagram.now.nodes agent choices.now sum.old }
    ensures row { OnOk result (AddsRow diagram.now.nodes agent choices.now table.old table.new) }
    ensures sum { sum.new ≡ sum.old }
{
    let _count = diagram.count();
    let key = key_of(agent, &game.counts, &game.owners, choices);
    let gain = sum.gain(&part.diagram);
    table.keys.push(key)?;
    table.gains.push(gain)?;
    Ok(())
}

/// Appends the rows of the choices and of all lists after them to the table. The choices change on
/// the way.
fn add_rows(
    alloc: Global,
    diagram: &Diagram,
    game: &Game,
    agent: usize,
    part: &SubDiagram,
    choices: &mut [usize],
    table: &mut Table,
) -> Result<(), AllocError>
    requires game { IsGameOf diagram.now.nodes game.now }
    requires agent { agent < diagram.now.agents }
    requires bound { IsSearched diagram.now }
    requires part { part.now.diagram ≡ part_of_agent diagram.now agent }
    requires nodes { part.now.nodes.items ≡ scope_for diagram.now.nodes agent }
    requires choices { IsWorld (counts_for diagram.now.nodes) choices.old }
    ensures { OnOk result (AddsRows diagram.now.nodes agent
        (worlds_from (counts_for diagram.now.nodes) choices.old) table.old table.new) }
{
    let mut before = Vec::from_slice(alloc, choices)?;
    let mut sum = sum_under(alloc, diagram, game, agent, part, choices)?;
    'profiles: loop {
        add_row(diagram, game, agent, part, choices, &mut sum, table)?;
        before.copy_from_slice(choices);
        if !next_choices(&game.counts, choices) {
            return Ok(());
        }
        follow(
            alloc,
            diagram,
            &game.decisions,
            agent,
            part,
            &before,
            choices,
            &mut sum,
        )?;
    }
}

/// The table of the agent.
fn table_for(
    alloc: Global,
    diagram: &Diagram,
    game: &Game,
    agent: usize,
) -> Result<Table, AllocError>
    requires game { IsGameOf diagram.now.nodes game.now }
    requires agent { agent < diagram.now.agents }
    requires bound { IsSearched diagram.now }
    ensures { IfOk result (IsGainTableOf diagram.now.nodes agent) }
{
    let _count = diagram.count();
    let mut choices = first_choices(alloc, &game.counts)?;
    let part = part_for(alloc, diagram, agent)?;
    let mut table = Table {
        keys: Vec::new(alloc),
        gains: Vec::new(alloc),
    };
    add_rows(alloc, diagram, game, agent, &part, &mut choices, &mut table)?;
    Ok(table)
}

/// Takes the marks from the lists of choices that are not best for the agent. All are best for one
/// that has no choice.
fn keep_best(
    alloc: Global,
    diagram: &Diagram,
    game: &Game,
    agent: usize,
    marks: &mut [bool],
) -> Result<(), AllocError>
    requires game { IsGameOf diagram.now.nodes game.now }
    requires agent { agent < diagram.now.agents }
    requires bound { IsSearched diagram.now }
    requires marks { MarksBest diagram.now.nodes agent marks.old }
    ensures { OnOk result (MarksBest diagram.now.nodes (agent + 1) marks.new) }
{
    if !game.owners.contains(&agent) {
        return Ok(());
    }
    let table = table_for(alloc, diagram, game, agent)?;
    keep_greatest(alloc, &table.keys, &table.gains, marks)?;
    Ok(())
}

/// Marks the lists of choices from which no agent gains.
pub(crate) fn stable_marks(
    alloc: Global,
    diagram: &Diagram,
    game: &Game,
    profiles: usize,
) -> Result<Vec<bool>, AllocError>
    requires game { IsGameOf diagram.now.nodes game.now }
    requires bound { IsSearched diagram.now }
    requires profiles { profiles ≡ list_count diagram.now.nodes }
    ensures { IfOk result (λ marks. MarksStable diagram.now.nodes marks.items) }
{
    let _count = diagram.count();
    let mut marks = vec![in alloc; true; profiles]?;
    for agent in 0..diagram.agents() {
        keep_best(alloc, diagram, game, agent, &mut marks)?;
    }
    Ok(marks)
}
