//! The walk of joins and products of few operands along short axes: cell by cell, the operands
//! counted by the compiler.

ghost use Rattle.std.specs.Prelude.{◌≡◌, ◌+◌, ◌*◌, ◌<◌, ◌≤◌, length, drop, [], ◌∷◌, ◌↔◌, IsTrue};
ghost use Rattle.factor_core.specs.Narrow.{AreNarrow};
ghost use Rattle.factor_core.specs.Walks.{CanWalk, IsPair, AddsTotal, AddsCube, AddsOneAxis, AddsTwoAxes, CanWalkCube, CanWalkTwoAxes};

use crate::narrow::Narrow;
use crate::walks::{Axis, add_at, advance, after, product, walk};
use cell_rings::Cell;

/// From how many states on a run along an axis is worth its set-up.
pub const LONG: usize = 8;

/// The most operands that are counted by the compiler.
pub const FEW: usize = 12;

/// The strides below the first row, which has one for each place.
fn rows_below<'a>(strides: &'a [usize], places: &[usize]) -> &'a [usize]
    requires { length places.now ≤ length strides.now }
    ensures { result.now ≡ drop (length places.now) strides.now }
{
    after(strides, places.len())
}

/// The walk over one axis along which the result stands: one sum.
fn add_sum<C: Cell, const N: usize>(
    axis: Axis,
    strides: &[usize],
    cells: &[C],
    places: &[usize; N],
    out: &mut [C],
    at: usize,
)
    requires stands { axis.out ≡ 0 }
    requires can { CanWalk C.ring cells.now (axis ∷ []) strides.now places.now out.old at }
    ensures { AddsOneAxis C.ring cells.now axis strides.now places.now at out.old out.new }
{
    let mut here = *places;
    let mut sum = C::zero();
    for _ in 0..axis.states {
        sum = sum.add(product(cells, &here));
        advance(&mut here, strides);
    }
    add_at(out, at, sum);
}

/// The walk over one axis, cell by cell.
fn add_each<C: Cell, const N: usize>(
    axis: Axis,
    strides: &[usize],
    cells: &[C],
    places: &[usize; N],
    out: &mut [C],
    at: usize,
)
    requires { CanWalk C.ring cells.now (axis ∷ []) strides.now places.now out.old at }
    ensures { AddsOneAxis C.ring cells.now axis strides.now places.now at out.old out.new }
{
    let mut here = *places;
    let mut place = at;
    for _ in 0..axis.states {
        add_at(out, place, product(cells, &here));
        place += axis.out;
        advance(&mut here, strides);
    }
}

/// The walk over one axis.
fn add_line<C: Cell, const N: usize>(
    axis: Axis,
    strides: &[usize],
    cells: &[C],
    places: &[usize; N],
    out: &mut [C],
    at: usize,
)
    requires { CanWalk C.ring cells.now (axis ∷ []) strides.now places.now out.old at }
    ensures { AddsOneAxis C.ring cells.now axis strides.now places.now at out.old out.new }
{
    if axis.out == 0 {
        add_sum(axis, strides, cells, places, out, at)
    } else {
        add_each(axis, strides, cells, places, out, at)
    }
}

/// The walk over two axes.
fn add_lines<C: Cell, const N: usize>(
    axis: Axis,
    inner: Axis,
    strides: &[usize],
    cells: &[C],
    places: &[usize; N],
    out: &mut [C],
    at: usize,
)
    requires { CanWalkTwoAxes C.ring cells.now axis inner strides.now places.now out.old at }
    ensures { AddsTwoAxes C.ring cells.now axis inner strides.now places.now at out.old out.new }
{
    let below = rows_below(strides, places);
    let mut here = *places;
    let mut place = at;
    for _ in 0..axis.states {
        add_line(inner, below, cells, &here, out, place);
        place += axis.out;
        advance(&mut here, strides);
    }
}

/// The walk over one axis of two states along which the result stands.
fn add_pair<C: Cell, const N: usize>(
    axis: Axis,
    strides: &[usize],
    cells: &[C],
    places: &[usize; N],
    out: &mut [C],
    at: usize,
)
    requires pair { IsPair axis }
    requires can { CanWalk C.ring cells.now (axis ∷ []) strides.now places.now out.old at }
    ensures { AddsOneAxis C.ring cells.now axis strides.now places.now at out.old out.new }
{
    prove!(axis.states == 2);
    let mut there = *places;
    let first = product(cells, &there);
    advance(&mut there, strides);
    let second = product(cells, &there);
    add_at(out, at, first.add(second));
}

/// The walk over an axis and a pair.
fn add_pairs<C: Cell, const N: usize>(
    axis: Axis,
    inner: Axis,
    strides: &[usize],
    cells: &[C],
    places: &[usize; N],
    out: &mut [C],
    at: usize,
)
    requires pair { IsPair inner }
    requires can { CanWalkTwoAxes C.ring cells.now axis inner strides.now places.now out.old at }
    ensures { AddsTwoAxes C.ring cells.now axis inner strides.now places.now at out.old out.new }
{
    let below = rows_below(strides, places);
    let mut here = *places;
    let mut place = at;
    for _ in 0..axis.states {
        add_pair(inner, below, cells, &here, out, place);
        place += axis.out;
        advance(&mut here, strides);
    }
}

/// The walk over two axes and a pair.
fn add_planes<C: Cell, const N: usize>(
    outer: Axis,
    axis: Axis,
    inner: Axis,
    strides: &[usize],
    cells: &[C],
    places: &[usize; N],
    out: &mut [C],
    at: usize,
)
    requires pair { IsPair inner }
    requires can { CanWalkCube C.ring cells.now outer axis inner strides.now places.now out.old at }
    ensures { AddsCube C.ring cells.now outer axis inner strides.now places.now at out.old out.new }
{
    let below = rows_below(strides, places);
    let mut here = *places;
    let mut place = at;
    for _ in 0..outer.states {
        add_pairs(axis, inner, below, cells, &here, out, place);
        place += outer.out;
        advance(&mut here, strides);
    }
}

/// Whether the axis has two states, along which the result stands.
fn is_pair(axis: Axis) -> bool
    ensures { IsTrue result ↔ IsPair axis }
{
    axis.states == 2 && axis.out == 0
}

/// The walk over two axes or fewer.
fn walk_flat<C: Cell, const N: usize>(
    axes: &[Axis],
    strides: &[usize],
    cells: &[C],
    places: &[usize; N],
    out: &mut [C],
    at: usize,
)
    requires most { length axes.now < 3 }
    requires can { CanWalk C.ring cells.now axes.now strides.now places.now out.old at }
    ensures { AddsTotal C.ring cells.now axes.now strides.now places.now at out.old out.new }
{
    if axes.is_empty() {
        add_at(out, at, product(cells, places));
        return;
    }
    let axis = axes[0];
    if axes.len() == 1 {
        add_line(axis, strides, cells, places, out, at);
        return;
    }
    if is_pair(axes[1]) {
        add_pairs(axis, axes[1], strides, cells, places, out, at);
        return;
    }
    add_lines(axis, axes[1], strides, cells, places, out, at);
}

/// Adds to each cell of the result what the walk over the axes leads there.
fn walk_cells<C: Cell, const N: usize>(
    axes: &[Axis],
    strides: &[usize],
    cells: &[C],
    places: &[usize; N],
    out: &mut [C],
    at: usize,
)
    requires { CanWalk C.ring cells.now axes.now strides.now places.now out.old at }
    ensures { AddsTotal C.ring cells.now axes.now strides.now places.now at out.old out.new }
{
    if axes.len() < 3 {
        walk_flat(axes, strides, cells, places, out, at);
        return;
    }
    let axis = axes[0];
    if axes.len() == 3 && is_pair(axes[2]) {
        add_planes(axis, axes[1], axes[2], strides, cells, places, out, at);
        return;
    }
    let rest = after(axes, 1);
    let below = rows_below(strides, places);
    let mut here = *places;
    let mut place = at;
    for _ in 0..axis.states {
        walk_cells(rest, below, cells, &here, out, place);
        place += axis.out;
        advance(&mut here, strides);
    }
}

/// Whether the axis at that place from the end is short, or there is none.
fn is_short(axes: &[Axis], behind: usize) -> bool {
    axes.len() <= behind || axes[axes.len() - 1 - behind].states < LONG
}

/// The walk over the axes, cell by cell where there are N operands.
fn walk_counted<C: Cell, const N: usize>(
    narrow: Narrow,
    axes: &[Axis],
    strides: &[usize],
    cells: &[C],
    places: &mut [usize],
    out: &mut [C],
    at: usize,
)
    requires few { N ≤ 12 }
    requires narrow { AreNarrow C.ring C.bits C.narrow cells.now narrow }
    requires can { CanWalk C.ring cells.now axes.now strides.now places.old out.old at }
    ensures { AddsTotal C.ring cells.now axes.now strides.now places.old at out.old out.new }
{
    match places.as_array::<N>() {
        Some(places) => walk_cells(axes, strides, cells, places, out, at),
        None => walk(narrow, axes, strides, cells, places, out, at),
    }
}

/// The walk over the axes, cell by cell where there are seven operands or more, and still few.
fn walk_several<C: Cell>(
    narrow: Narrow,
    axes: &[Axis],
    strides: &[usize],
    cells: &[C],
    places: &mut [usize],
    out: &mut [C],
    at: usize,
)
    requires narrow { AreNarrow C.ring C.bits C.narrow cells.now narrow }
    requires can { CanWalk C.ring cells.now axes.now strides.now places.old out.old at }
    ensures { AddsTotal C.ring cells.now axes.now strides.now places.old at out.old out.new }
{
    match places.len() {
        7 => walk_counted::<C, 7>(narrow, axes, strides, cells, places, out, at),
        8 => walk_counted::<C, 8>(narrow, axes, strides, cells, places, out, at),
        9 => walk_counted::<C, 9>(narrow, axes, strides, cells, places, out, at),
        10 => walk_counted::<C, 10>(narrow, axes, strides, cells, places, out, at),
        11 => walk_counted::<C, 11>(narrow, axes, strides, cells, places, out, at),
        12 => walk_counted::<C, 12>(narrow, axes, strides, cells, places, out, at),
        _ => walk(narrow, axes, strides, cells, places, out, at),
    }
}

/// The walk over the axes, cell by cell where there are few operands.
fn walk_few<C: Cell>(
    narrow: Narrow,
    axes: &[Axis],
    strides: &[usize],
    cells: &[C],
    places: &mut [usize],
    out: &mut [C],
    at: usize,
)
    requires narrow { AreNarrow C.ring C.bits C.narrow cells.now narrow }
    requires can { CanWalk C.ring cells.now axes.now strides.now places.old out.old at }
    ensures { AddsTotal C.ring cells.now axes.now strides.now places.old at out.old out.new }
{
    match places.len() {
        1 => walk_counted::<C, 1>(narrow, axes, strides, cells, places, out, at),
        2 => walk_counted::<C, 2>(narrow, axes, strides, cells, places, out, at),
        3 => walk_counted::<C, 3>(narrow, axes, strides, cells, places, out, at),
        4 => walk_counted::<C, 4>(narrow, axes, strides, cells, places, out, at),
        5 => walk_counted::<C, 5>(narrow, axes, strides, cells, places, out, at),
        6 => walk_counted::<C, 6>(narrow, axes, strides, cells, places, out, at),
        _ => walk_several(narrow, axes, strides, cells, places, out, at),
    }
}

/// The walk over the axes, cell by cell where there are few operands and the last axes are short.
pub fn walk_over<C: Cell>(
    narrow: Narrow,
    axes: &[Axis],
    strides: &[usize],
    cells: &[C],
    places: &mut [usize],
    out: &mut [C],
    at: usize,
)
    requires narrow { AreNarrow C.ring C.bits C.narrow cells.now narrow }
    requires can { CanWalk C.ring cells.now axes.now strides.now places.old out.old at }
    ensures { AddsTotal C.ring cells.now axes.now strides.now places.old at out.old out.new }
{
    if is_short(axes, 0) && is_short(axes, 1) {
        walk_few(narrow, axes, strides, cells, places, out, at);
        return;
    }
    walk(narrow, axes, strides, cells, places, out, at);
}
