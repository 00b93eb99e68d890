//! Nodes of another kind: a chance node under an agent's control, and decisions of other agents as
//! chance nodes.

ghost use Rattle.std.specs.Prelude.{◌≡◌, ℕ, ◌<◌, ◌≤◌, ◌*◌, ◌↔◌, ◌++◌, map, length, pos, IsTrue, IfOk, OnOk, IsErrOf, OnErr};
ghost use Rattle.maid_model.specs.declared.diagrams.Kind.TheVariants.{Chance};
ghost use Rattle.maid_model.specs.declared.limits.TheConstants.{MOST_CELLS};
ghost use Rattle.maid_model.specs.Answers.{FitsAnswers, rows_at};
ghost use Rattle.maid_model.specs.Edits.{as_chance, made_decision};
ghost use Rattle.maid_model.specs.Nodes.{IsDecision, node_at};
ghost use Rattle.maid_model.specs.Profiles.{pure_row};
ghost use Rattle.diagram_graph.specs.Edited.{DecidesAlone, IsDecidedAt, IsFixedNode, IsOthersDecision, IsWithDecision, pure_cells};
ghost use Rattle.diagram_graph.specs.Room.{LacksRoomFor};

use crate::copies::{copy_diagram, copy_node, with_nodes};
use crate::room::{cells_at, rule_cells};
use arc_laws::{answer_is_optimum, controlled};
use maid_model::{Answer, Diagram, Kind, MOST_RULE_CELLS, Node, Row, Solved};
use smallvec::SmallVec;
use std::alloc::{AllocError, Global};
use thiserror::Error;

/// Why no chance node became a decision.
#[derive(Clone, Copy, Debug, PartialEq, Eq, Error)]
pub enum MakeFault {
    /// All rules together would have too many cells.
    #[error("too many cells of rules")]
    TooLarge,
    /// Memory ran out, which says nothing of the diagram.
    #[error("out of memory")]
    NoMemory,
}

impl From<AllocError> for MakeFault {
    ghost use Rattle.diagram_graph.specs.declared.kinds.MakeFault.TheVariants.{NoMemory};

    ghost from_gives = { λ _ fault. fault ≡ NoMemory };

    fn from(_failed: AllocError) -> MakeFault {
        MakeFault::NoMemory
    }
}

/// A decision of the agent with the node's states and parents.
fn decision_node(
    alloc: Global,
    diagram: &Diagram,
    v: usize,
    agent: usize,
) -> Result<Node, AllocError>
    requires { v < length diagram.now.nodes }
    ensures { IfOk result (λ made. made ≡ made_decision diagram.now.nodes agent v) }
{
    let parents = SmallVec::from_slice(alloc, diagram.parents(v))?;
    Ok(Node {
        kind: Kind::Decision,
        owner: agent,
        more: SmallVec::new(alloc),
        states: diagram.states(v),
        parents,
        cells: Vec::new(alloc),
    })
}

/// Whether all rules together would have too many cells if the chance node were a decision.
fn lacks_room(diagram: &Diagram, node: usize) -> bool
    requires { (node_at diagram.now.nodes node).kind ≡ Chance }
    ensures { (agent : ℕ) → IsTrue result ↔ LacksRoomFor diagram.now agent node }
{
    let _count = diagram.count();
    rule_cells(diagram) + cells_at(diagram, node) > MOST_RULE_CELLS
}

/// Makes the chance node a decision of the agent, for whose rule there is room. Gives the node as
/// it was.
fn put_decision(
    alloc: Global,
    diagram: &mut Diagram,
    node: usize,
    agent: usize,
) -> Result<Node, AllocError>
    requires chance { (node_at diagram.old.nodes node).kind ≡ Chance }
    requires agent { agent < diagram.old.agents }
    requires room { LacksRoomFor diagram.old agent node → ⊥ }
    ensures made { IfOk result (IsDecidedAt diagram.old agent node diagram.new) }
    ensures same { OnErr result (diagram.new ≡ diagram.old) }
{
    controlled();
    let _count = diagram.count();
    let made = decision_node(alloc, diagram, node, agent)?;
    Ok(diagram.exchange(node, made))
}

/// Makes the chance node a decision of the agent in the diagram itself, as `make_decision` does in
/// a copy, and gives the node as it was: `Diagram::exchange` puts it back. It takes memory for the
/// decision's parents alone, and looks at the rules of all decisions.
///
/// # Errors
///
/// Those of `make_decision`. The diagram is as it was then.
pub fn decide_at(
    alloc: Global,
    diagram: &mut Diagram,
    node: usize,
    agent: usize,
) -> Result<Node, MakeFault>
    requires chance { (node_at diagram.old.nodes node).kind ≡ Chance }
    requires agent { agent < diagram.old.agents }
    ensures made { IfOk result (IsDecidedAt diagram.old agent node diagram.new) }
    ensures too_large { IsErrOf result MakeFault.TooLarge ↔ LacksRoomFor diagram.old agent node }
    ensures same { OnErr result (diagram.new ≡ diagram.old) }
{
    if lacks_room(diagram, node) {
        return Err(MakeFault::TooLarge);
    }
    Ok(put_decision(alloc, diagram, node, agent)?)
}

/// The diagram in which the chance node is a decision of the agent, with the same states and
/// parents and without its table. It takes the time and the memory of a copy of all cells.
///
/// It is refused exactly where all rules together would have more than 262,144 cells, and else
/// where memory ran out.
pub fn make_decision(
    alloc: Global,
    diagram: &Diagram,
    node: usize,
    agent: usize,
) -> Result<Diagram, MakeFault>
    requires chance { (node_at diagram.now.nodes node).kind ≡ Chance }
    requires agent { agent < diagram.now.agents }
    ensures made { IfOk result (IsWithDecision diagram.now agent node) }
    ensures too_large { IsErrOf result MakeFault.TooLarge ↔ LacksRoomFor diagram.now agent node }
{
    if lacks_room(diagram, node) {
        return Err(MakeFault::TooLarge);
    }
    let mut copy = copy_diagram(alloc, diagram)?;
    put_decision(alloc, &mut copy, node, agent)?;
    Ok(copy)
}

/// The rows answered at the decision, none where it has no answer.
fn rows_at(answers: &[Answer], decision: usize) -> &[Row]
    ensures { result.now ≡ rows_at answers.now decision }
{
    for answer in answers {
        if answer.decision == decision {
            return &answer.rows;
        }
    }
    &[]
}

/// Appends weight 1 at the choice and 0 at the other states.
fn push_row(cells: &mut Vec<i128>, states: usize, choice: usize) -> Result<(), AllocError>
    ensures { OnOk result (cells.new.items ≡ cells.old.items ++ map pos (pure_row states choice)) }
{
    for state in 0..states {
        cells.push(i128::from(state == choice))?;
    }
    Ok(())
}

/// In each row weight 1 at its choice and 0 at the other states.
fn pure_cells(alloc: Global, rows: &[Row], states: usize) -> Result<Vec<i128>, AllocError>
    requires { length rows.now * states ≤ MOST_CELLS }
    ensures { IfOk result (λ cells. cells.items ≡ pure_cells states rows.now) }
{
    let mut cells = Vec::with_capacity(alloc, rows.len() * states)?;
    for row in rows {
        push_row(&mut cells, states, row.choice)?;
    }
    Ok(cells)
}

/// The decision as a chance node that takes the answered choices.
fn chance_node(
    alloc: Global,
    diagram: &Diagram,
    answers: &[Answer],
    v: usize,
) -> Result<Node, AllocError>
    requires decision { IsDecision diagram.now.nodes v }
    requires fits { FitsAnswers diagram.now.nodes answers.now }
    ensures { IfOk result (λ fixed. fixed ≡ as_chance diagram.now.nodes answers.now v) }
{
    let states = diagram.states(v);
    let cells = pure_cells(alloc, rows_at(answers, v), states)?;
    let parents = SmallVec::from_slice(alloc, diagram.parents(v))?;
    Ok(Node {
        kind: Kind::Chance,
        owner: 0,
        more: SmallVec::new(alloc),
        states,
        parents,
        cells,
    })
}

/// Whether the node is a decision of another agent.
fn is_others(diagram: &Diagram, agent: usize, v: usize) -> bool
    requires { v < length diagram.now.nodes }
    ensures { IsTrue result ↔ IsOthersDecision diagram.now.nodes agent v }
{
    diagram.kind(v) == Kind::Decision && diagram.agent_of(v) != agent
}

/// The node, as a chance node where it is a decision of another agent.
fn fixed_node(
    alloc: Global,
    diagram: &Diagram,
    agent: usize,
    answers: &[Answer],
    v: usize,
) -> Result<Node, AllocError>
    requires within { v < length diagram.now.nodes }
    requires fits { FitsAnswers diagram.now.nodes answers.now }
    ensures { IfOk result (IsFixedNode diagram.now.nodes agent answers.now v) }
{
    if is_others(diagram, agent, v) {
        chance_node(alloc, diagram, answers, v)
    } else {
        copy_node(alloc, diagram.node(v))
    }
}

/// The diagram in which only the agent decides: each decision of another agent is a chance node
/// with weight 1 on the answered choice of each row and 0 elsewhere. It takes the time and the
/// memory of a copy of all cells, and of the cells of the other agents' rules.
///
/// # Errors
///
/// Only where memory runs out.
pub fn fix_others(
    alloc: Global,
    diagram: &Diagram,
    agent: usize,
    solved: &Solved,
) -> Result<Diagram, AllocError>
    requires { FitsAnswers diagram.now.nodes solved.now.answers }
    ensures { IfOk result (DecidesAlone diagram.now agent solved.now.answers) }
{
    answer_is_optimum();
    let mut nodes = Vec::with_capacity(alloc, diagram.count())?;
    for v in 0..diagram.count() {
        nodes.push(fixed_node(alloc, diagram, agent, &solved.answers, v)?)?;
    }
    with_nodes(alloc, diagram, nodes)
}
