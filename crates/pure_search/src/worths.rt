//! What a profile is worth to each agent.

ghost use Rattle.std.specs.Prelude.{◌≡◌, ◌<◌, IfOk, length};
ghost use Rattle.maid_model.specs.Answers.{IsGains};
ghost use Rattle.maid_model.specs.Profiles.{IsProfile};
ghost use Rattle.maid_model.specs.Scopes.{KeepsScopedBounds};
ghost use Rattle.part_laws.specs.ScopeLaws.{HasUnitRules};
ghost use Rattle.tree_checker.specs.Judged.{AreWorth};

use crate::tables::part_for;
use maid_model::{Diagram, Profile, Ratio};
use std::alloc::{AllocError, Global};
use tree_checker::{gain_over, mass_of, rules_in_part};

/// What the rules are worth to the agent, by the worlds of its part.
fn worth(
    alloc: Global,
    diagram: &Diagram,
    chosen: &Profile,
    agent: usize,
) -> Result<Ratio, AllocError>
    requires agent { agent < diagram.now.agents }
    requires chosen { IsProfile diagram.now.nodes chosen.now }
    requires pure { HasUnitRules diagram.now.nodes chosen.now }
    requires bound { KeepsScopedBounds diagram.now }
    ensures { IfOk result (AreWorth diagram.now chosen.now agent) }
{
    let _count = diagram.count();
    let part = part_for(alloc, diagram, agent)?;
    let rules = rules_in_part(alloc, diagram, chosen, &part.nodes)?;
    let sum = gain_over(alloc, &part.diagram, &rules, agent)?;
    let mass = mass_of(&part.diagram, &rules);
    Ok(Ratio::reduced(sum, mass * diagram.scale()))
}

/// What the rules are worth to each agent.
pub(crate) fn worths(
    alloc: Global,
    diagram: &Diagram,
    chosen: &Profile,
) -> Result<Vec<Ratio>, AllocError>
    requires chosen { IsProfile diagram.now.nodes chosen.now }
    requires pure { HasUnitRules diagram.now.nodes chosen.now }
    requires bound { KeepsScopedBounds diagram.now }
    ensures count { IfOk result (λ gains. length gains.items ≡ diagram.now.agents) }
    ensures gains { IfOk result (λ gains. IsGains diagram.now chosen.now gains.items) }
{
    let mut gains = Vec::new(alloc);
    for agent in 0..diagram.agents() {
        gains.push(worth(alloc, diagram, chosen, agent)?)?;
    }
    Ok(gains)
}
