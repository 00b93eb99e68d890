//! The owners of decisions and utilities, as numbers of agents in order of first sight.

ghost use Rattle.std.specs.Prelude.{◌≡◌, ◌<◌, ◌∷◌, length, IfOk};
ghost use Rattle.net_build.specs.Blocks.{has_agent, place_among};
ghost use Rattle.maid_model.specs.Names.{list_of};
ghost use Rattle.first_fault.specs.Answers.{Passes};
ghost use Rattle.net_build.specs.Passes.{build_fault};
ghost use Rattle.net_build.specs.Table.{owner_rows, many_agents_row};
ghost use Rattle.net_parser.specs.Owned.{IsBlockOf};
ghost use Rattle.net_build.specs.Answered.{AnswersList, texts_in};
ghost use Rattle.net_build.specs.NodeCalls.{AddsAgent, AddsAgents, AddsNamedOwners, AddsOwners, AreNamedOwners, AreOwners, PassesOwners, places_among, sight_rows};

use crate::faults::{BuildFault, BuildKind, Limit};
use crate::labels::title;
use crate::owner_names::read_names;
use crate::places::place_of;
use maid_model::MOST_AGENTS;
use net_parser::{Block, BlockKind};
use std::alloc::{AllocError, Global};

/// The numbers of a node's owners: of the first, and of the further ones in written order.
#[derive(Drop)]
pub struct Owners {
    pub first: usize,
    pub more: Vec<usize>,
}

// The number of an agent, which is added where it is new.
fn number_agent(
    alloc: Global,
    agents: &mut Vec<Vec<u8>>,
    agent: &[u8],
    at: u32,
) -> Result<usize, BuildFault>
    ensures rows { Passes build_fault (many_agents_row (texts_in agents.old) at agent.now)
        result }
    ensures agents { AddsAgent agent.now agents.old agents.new result }
    ensures place { IfOk result (λ place.
        place ≡ place_among (texts_in agents.new) agent.now) }
{
    if let Some(place) = place_of(agents, agent) {
        return Ok(place);
    }
    let place = agents.len();
    if place >= MOST_AGENTS {
        let passed = BuildKind::LimitPassed {
            which: Limit::Agents,
            got: MOST_AGENTS as u128 + 1,
        };
        return Err(passed.at(at));
    }
    agents.push(Vec::from_slice(alloc, agent)?)?;
    Ok(place)
}

// The numbers of these owners, each of which is added where it is new.
fn number_owners(
    alloc: Global,
    agents: &mut Vec<Vec<u8>>,
    names: &[Vec<u8>],
    at: u32,
) -> Result<Vec<usize>, BuildFault>
    ensures rows { Passes build_fault
        (sight_rows agents.old at names.now) result }
    ensures agents { AddsAgents (list_of names.now) agents.old agents.new result }
    ensures numbers { AnswersList result (places_among agents.new names.now) }
{
    let mut numbers = Vec::new(alloc);
    for name in names {
        numbers.push(number_agent(alloc, agents, name, at)?)?;
    }
    Ok(numbers)
}

// The owners with these numbers, of which there is one or more.
fn owners_from(alloc: Global, numbers: &[usize]) -> Result<Owners, AllocError>
    requires { 0 < length numbers.now }
    ensures { IfOk result (λ owners. owners.first ∷ owners.more.items ≡ numbers.now) }
{
    let more = Vec::from_slice(alloc, &numbers[1..])?;
    Ok(Owners {
        first: numbers[0],
        more,
    })
}

// The owners of a decision or a utility.
fn agent_owners(
    alloc: Global,
    text: &[u8],
    block: &Block<'_>,
    agents: &mut Vec<Vec<u8>>,
) -> Result<Owners, BuildFault>
    requires own { IsBlockOf text.now block.now }
    requires named { 0 < length block.now.names }
    ensures rows { Passes build_fault (owner_rows text.now (texts_in agents.old) block.now)
        result }
    ensures agents { AddsNamedOwners text.now block.now agents.old agents.new result }
    ensures owners { IfOk result (AreNamedOwners text.now agents.new block.now) }
{
    let names = read_names(alloc, text, block)?;
    let numbers = number_owners(alloc, agents, &names, title(block).start)?;
    Ok(owners_from(alloc, &numbers)?)
}

/// A decision or a utility.
fn has_agent(kind: BlockKind) -> bool
    ensures { result ≡ has_agent kind }
{
    matches!(kind, BlockKind::Decision | BlockKind::Utility)
}

/// The numbers of a node's owners; a chance node has none, which is written 0.
pub fn read_owners(
    alloc: Global,
    text: &[u8],
    block: &Block<'_>,
    agents: &mut Vec<Vec<u8>>,
) -> Result<Owners, BuildFault>
    requires own { IsBlockOf text.now block.now }
    requires named { 0 < length block.now.names }
    ensures rows { PassesOwners text.now agents.old block.now result }
    ensures agents { AddsOwners text.now block.now agents.old agents.new result }
    ensures owners { IfOk result (AreOwners text.now agents.new block.now) }
{
    if has_agent(block.kind) {
        agent_owners(alloc, text, block, agents)
    } else {
        Ok(Owners {
            first: 0,
            more: Vec::new(alloc),
        })
    }
}
