//! A part of a diagram with a profile's rules in it.

ghost use Rattle.std.specs.Prelude.{◌≡◌, ℕ, ◌<◌, length, Contains, IfOk};
ghost use Rattle.maid_model.specs.Parts.{IsAncestral, place_in, rules_in};
ghost use Rattle.maid_model.specs.Profiles.{IsProfile};
ghost use Rattle.tree_checker.specs.Judged.{part_above, HasNodesAbove, HasRulesAbove};

use crate::bases::copy_rule;
use diagram_graph::{SubDiagram, part};
use maid_model::{Diagram, Kind, Profile, profile_has_rules};
use part_laws::parts_are_diagrams;
use std::alloc::{AllocError, Global};

/// A part of a diagram, and a profile's rules at its decisions.
#[derive(Drop)]
pub(crate) struct RuledPart {
    pub part: SubDiagram,
    pub rules: Profile,
}

/// The profile's rules at the decisions among the kept nodes, each with its number among them.
///
/// # Errors
///
/// Only where memory runs out.
pub fn rules_in_part(
    alloc: Global,
    diagram: &Diagram,
    profile: &Profile,
    kept: &[usize],
) -> Result<Profile, AllocError>
    requires kept { IsAncestral diagram.now.nodes kept.now }
    requires profile { IsProfile diagram.now.nodes profile.now }
    ensures { IfOk result (λ rules. rules ≡ rules_in diagram.now.nodes profile.now kept.now) }
{
    // A profile has a rule for each decision.
    profile_has_rules();
    let mut rules = Vec::new(alloc);
    for (place, v) in kept.iter().enumerate() {
        if let Kind::Decision = diagram.kind(*v) {
            rules.push(copy_rule(alloc, profile.rule(*v), place)?)?;
        }
    }
    Ok(Profile::from_rules(rules))
}

/// The part that these nodes and all their ancestors make, with the profile's rules in it.
pub(crate) fn ruled_part(
    alloc: Global,
    diagram: &Diagram,
    profile: &Profile,
    of: &[usize],
) -> Result<RuledPart, AllocError>
    requires of { (v : ℕ) → Contains of.now v → v < length diagram.now.nodes }
    requires profile { IsProfile diagram.now.nodes profile.now }
    ensures nodes { IfOk result (HasNodesAbove diagram.now.nodes of.now) }
    ensures diagram { IfOk result (λ ruled.
        ruled.part.diagram ≡ part_above diagram.now of.now) }
    ensures rules { IfOk result (HasRulesAbove diagram.now.nodes profile.now of.now) }
{
    // Nodes and all their ancestors have with each node its parents.
    parts_are_diagrams();
    let _count = diagram.count();
    let part = part(alloc, diagram, of)?;
    let rules = rules_in_part(alloc, diagram, profile, &part.nodes)?;
    Ok(RuledPart { part, rules })
}

/// The first place at which the node stands in the list.
pub(crate) fn place_of(list: &[usize], node: usize) -> usize
    requires { Contains list.now node }
    ensures { result ≡ place_in list.now node }
{
    for (place, v) in list.iter().enumerate() {
        if *v == node {
            return place;
        }
    }
    unreachable!()
}
