//! A walk that copies cells in another order.

ghost use Rattle.std.specs.Prelude.{◌≡◌, ◌+◌, ◌-◌, ◌≤◌, length, take, [], ◌∷◌};
ghost use Rattle.factor_core.specs.Copies.{count_of_steps, CanCopy, HasCopied, CanCopyAllOf, CanCopyOf, Gathers, GathersTwo};

use crate::sources::{Source, Stored};
use crate::walks::after;
use cell_rings::Cell;

/// One step of a copy: how many states its node has, and how far apart the cells of neighbouring
/// states stand in what is read.
#[derive(Clone, Copy)]
pub struct Step {
    pub states: usize,
    pub stride: usize,
}

/// Copies the cells of the last step. Gives the place behind them.
fn copy_run<C: Cell, S: Source<C>>(
    step: Step,
    source: &S,
    from: usize,
    out: &mut [C],
    at: usize,
) -> usize
    requires { CanCopyOf S.Source source.now (step ∷ []) from out.old at }
    ensures next { result ≡ at + step.states }
    ensures out { Gathers C.ring (S.cells source.now) (step ∷ []) from out.old at out.new result }
{
    let mut place = at;
    let mut here = from;
    for _ in 0..step.states {
        out[place] = source.read(here);
        place += 1;
        here += step.stride;
    }
    place
}

/// Copies the cells of the last two steps. Gives the place behind them.
fn copy_rows<C: Cell, S: Source<C>>(
    step: Step,
    inner: Step,
    source: &S,
    from: usize,
    out: &mut [C],
    at: usize,
) -> usize
    requires { CanCopyOf S.Source source.now (step ∷ (inner ∷ [])) from out.old at }
    ensures next { result ≡ at + count_of_steps (step ∷ (inner ∷ [])) }
    ensures out { GathersTwo C.ring (S.cells source.now) step inner from out.old at out.new result }
{
    let mut place = at;
    let mut here = from;
    for _ in 0..step.states {
        place = copy_run(inner, source, here, out, place);
        here += step.stride;
    }
    place
}

/// Copies the cells that the steps read, the first step slowest, to the places from `at` on. Gives
/// the place behind them.
pub fn copy_walk<C: Cell, S: Source<C>>(
    steps: &[Step],
    source: &S,
    from: usize,
    out: &mut [C],
    at: usize,
) -> usize
    requires { CanCopyOf S.Source source.now steps.now from out.old at }
    ensures next { result ≡ at + count_of_steps steps.now }
    ensures cells { Gathers C.ring (S.cells source.now) steps.now from out.old at out.new result }
{
    if steps.is_empty() {
        out[at] = source.read(from);
        return at + 1;
    }
    let step = steps[0];
    if steps.len() == 1 {
        return copy_run(step, source, from, out, at);
    }
    if steps.len() == 2 {
        return copy_rows(step, steps[1], source, from, out, at);
    }
    let rest = after(steps, 1);
    let mut place = at;
    let mut here = from;
    for _ in 0..step.states {
        place = copy_walk(rest, source, here, out, place);
        here += step.stride;
    }
    place
}

/// Copies cells that stand before `start` to the places from there on.
pub fn copy_at<C: Cell>(steps: &[Step], from: usize, all: &mut [C], start: usize)
    requires start { start ≤ length all.old }
    requires can { CanCopy (Unit {0}) start steps.now from (length all.old - start) 0 }
    ensures { HasCopied C.ring (take start all.old) steps.now from start all.old all.new }
{
    let (cells, out) = all.split_at_mut(start);
    copy_walk(steps, &Stored { cells }, from, out, 0);
}

/// Copies cells of a source to the places from `start` on.
pub fn copy_from<C: Cell, S: Source<C>>(steps: &[Step], source: &S, all: &mut [C], start: usize)
    requires start { start ≤ length all.old }
    requires can { CanCopyAllOf S.Source source.now steps.now all.old start }
    ensures { HasCopied C.ring (S.cells source.now) steps.now 0 start all.old all.new }
{
    let (_, out) = all.split_at_mut(start);
    copy_walk(steps, source, 0, out, 0);
}
