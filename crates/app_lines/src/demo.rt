//! The text of the generated diagram: stages of a state, a decision and a utility, each state but
//! the first behind the state and the decision before it.

ghost use Rattle.std.specs.Prelude.{◌≡◌, ◌<◌, IfOk};
ghost use Rattle.app_lines.specs.Demo.{state_block, choice_block, worth_block, stage_blocks, later_potential, state_potential, choice_potential, worth_potential, stage_potentials, demo_text, blocks_of, potentials_of};
ghost use Rattle.line_pieces.specs.Pushed.{PushAppends};

use line_pieces::Piece::{Number, Text};
use line_pieces::push_pieces;
use std::alloc::{AllocError, Global};

fn push_state_block(out: &mut Vec<u8>, stage: usize) -> Result<(), AllocError>
    ensures { PushAppends out.old out.new result (state_block stage) }
{
    push_pieces(
        out,
        &[
            Text(b"node X"),
            Number(stage as u128),
            Text(b" { states = (\"s1\" \"s2\"); }\n"),
        ],
    )
}

fn push_choice_block(out: &mut Vec<u8>, stage: usize) -> Result<(), AllocError>
    ensures { PushAppends out.old out.new result (choice_block stage) }
{
    push_pieces(
        out,
        &[
            Text(b"decision D"),
            Number(stage as u128),
            Text(b" { states = (\"stay\" \"flip\"); agent = \"agent\"; }\n"),
        ],
    )
}

fn push_worth_block(out: &mut Vec<u8>, stage: usize) -> Result<(), AllocError>
    ensures { PushAppends out.old out.new result (worth_block stage) }
{
    push_pieces(
        out,
        &[
            Text(b"utility U"),
            Number(stage as u128),
            Text(b" { agent = \"agent\"; }\n"),
        ],
    )
}

#[tactic(auto, using(std::proofs::Common::append_assoc))]
fn push_stage_blocks(out: &mut Vec<u8>, stage: usize) -> Result<(), AllocError>
    ensures { PushAppends out.old out.new result (stage_blocks stage) }
{
    push_state_block(out, stage)?;
    push_choice_block(out, stage)?;
    push_worth_block(out, stage)
}

// Appends the potential of a state behind the state and the decision of the stage before.
fn push_later_potential(out: &mut Vec<u8>, stage: usize) -> Result<(), AllocError>
    requires { 0 < stage }
    ensures { PushAppends out.old out.new result (later_potential stage) }
{
    let before = stage as u128 - 1;
    push_pieces(
        out,
        &[
            Text(b"potential (X"),
            Number(stage as u128),
            Text(b" | X"),
            Number(before),
            Text(b" D"),
            Number(before),
            Text(b") { data = (1 0 1 1 0 1 1 1); }\n"),
        ],
    )
}

fn push_state_potential(out: &mut Vec<u8>, stage: usize) -> Result<(), AllocError>
    ensures { PushAppends out.old out.new result (state_potential stage) }
{
    if stage == 0 {
        out.extend_from_slice(b"potential (X0) { data = (1 1); }\n")
    } else {
        push_later_potential(out, stage)
    }
}

fn push_choice_potential(out: &mut Vec<u8>, stage: usize) -> Result<(), AllocError>
    ensures { PushAppends out.old out.new result (choice_potential stage) }
{
    push_pieces(
        out,
        &[
            Text(b"potential (D"),
            Number(stage as u128),
            Text(b" | X"),
            Number(stage as u128),
            Text(b") { }\n"),
        ],
    )
}

fn push_worth_potential(out: &mut Vec<u8>, stage: usize) -> Result<(), AllocError>
    ensures { PushAppends out.old out.new result (worth_potential stage) }
{
    push_pieces(
        out,
        &[
            Text(b"potential (U"),
            Number(stage as u128),
            Text(b" | X"),
            Number(stage as u128),
            Text(b") { data = (1 0); }\n"),
        ],
    )
}

#[tactic(auto, using(std::proofs::Common::append_assoc))]
fn push_stage_potentials(out: &mut Vec<u8>, stage: usize) -> Result<(), AllocError>
    ensures { PushAppends out.old out.new result (stage_potentials stage) }
{
    push_state_potential(out, stage)?;
    push_choice_potential(out, stage)?;
    push_worth_potential(out, stage)
}

fn push_blocks(out: &mut Vec<u8>, stages: usize) -> Result<(), AllocError>
    ensures { PushAppends out.old out.new result (blocks_of stages) }
{
    for stage in 0..stages {
        push_stage_blocks(out, stage)?;
    }
    Ok(())
}

fn push_potentials(out: &mut Vec<u8>, stages: usize) -> Result<(), AllocError>
    ensures { PushAppends out.old out.new result (potentials_of stages) }
{
    for stage in 0..stages {
        push_stage_potentials(out, stage)?;
    }
    Ok(())
}

/// The text of the generated diagram of `k` stages, in the form in which diagrams are printed: the
/// node blocks of each stage, and then the potentials of each. In state `s1` a stage is worth 1,
/// and from `s2` a decision that flips leads to either state. The program takes 1 to 60 stages. Its
/// cost is that of the text it makes.
pub fn demo_text(alloc: Global, k: usize) -> Result<Vec<u8>, AllocError>
    ensures { IfOk result (λ text. text.items ≡ demo_text k) }
{
    let mut text = Vec::new(alloc);
    push_blocks(&mut text, k)?;
    push_potentials(&mut text, k)?;
    Ok(text)
}
