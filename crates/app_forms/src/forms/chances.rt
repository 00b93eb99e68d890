//! A chance node and one of its states, as the words name them.

ghost use Rattle.std.specs.Prelude.{◌≢◌, ◌<◌, IfSome, IfNone, IfOk, IfErr, length};
ghost use Rattle.maid_model.specs.declared.diagrams.Kind.TheVariants.{Utility};
ghost use Rattle.maid_model.specs.Names.{IsFirstPlace, NamesFit, labels_of};
ghost use Rattle.maid_model.specs.Nodes.{node_at};
ghost use Rattle.app_forms.specs.Chances.{HasChanceNode, IsChanceNode, IsStatePlace, LacksLabel};
ghost use Rattle.app_forms.specs.Reading.{TellsFound};
ghost use Rattle.app_forms.specs.Stages.{name_stages};

use crate::refusal::{Refusal, told};
use crate::{Status, lines};
use maid_model::{Diagram, Kind, Names};
use std::alloc::Global;

/// A chance node and one of its states, by number.
#[derive(Clone, Copy)]
pub struct StatePlace {
    /// The node.
    pub node: usize,
    /// Its state.
    pub state: usize,
}

// The node of that name, if it is a chance node.
fn chance_node(diagram: &Diagram, names: &Names, name: &[u8]) -> Option<usize>
    requires { NamesFit diagram.now names.now }
    ensures some { IfSome result (IsChanceNode diagram.now names.now name.now) }
    ensures none { IfNone result (¬ HasChanceNode diagram.now names.now name.now) }
{
    for v in 0..diagram.count() {
        if names.name(v) == name {
            return match diagram.kind(v) {
                Kind::Chance => Some(v),
                Kind::Decision => None,
                Kind::Utility => None,
            };
        }
    }
    None
}

// The first state of the chance node with that label.
fn first_state(diagram: &Diagram, names: &Names, node: usize, label: &[u8]) -> Option<usize>
    requires fit { NamesFit diagram.now names.now }
    requires node { node < length diagram.now.nodes }
    requires kind { (node_at diagram.now.nodes node).kind ≢ Utility }
    ensures some { IfSome result (IsFirstPlace (labels_of names.now node) label.now) }
    ensures none { IfNone result (LacksLabel names.now node label.now) }
{
    for state in 0..diagram.states(node) {
        if names.label(node, state) == label {
            return Some(state);
        }
    }
    None
}

/// The chance node of that name, and the first of its states with that label.
///
/// # Errors
///
/// A name that no chance node has, a label that none of its states has, or want of memory.
pub fn find_state(
    alloc: Global,
    diagram: &Diagram,
    names: &Names,
    node: &str,
    state: &str,
) -> Result<StatePlace, Refusal>
    requires { NamesFit diagram.now names.now }
    ensures ok { IfOk result (IsStatePlace diagram.now names.now node.now state.now) }
    ensures err { IfErr result (TellsFound diagram.now names.now (name_stages node.now state.now)) }
{
    let Some(x) = chance_node(diagram, names, node.as_bytes()) else {
        return Err(told(
            Status::UnknownNode,
            lines::told(alloc, b"unknown chance node: ", node.as_bytes()),
        ));
    };
    match first_state(diagram, names, x, state.as_bytes()) {
        Some(s) => Ok(StatePlace { node: x, state: s }),
        None => Err(told(
            Status::UnknownState,
            lines::told(alloc, b"unknown state: ", state.as_bytes()),
        )),
    }
}
