//! The walk of joins and products: over axes, from the slowest to a run of cells.

ghost use Rattle.std.specs.Prelude.{◌≡◌, ◌==◌, if◌then◌else◌, ℕ, ◌+◌, ◌*◌, ◌^◌, ◌<◌, ◌≤◌, length, take, drop, [], ◌∷◌, All, ◌↔◌, IfSome, IsTrue, slice_index};
ghost use Rattle.cell_rings.specs.Sums.{cell_at, product_from, product_at, ProductFits, AddsCells, AreWithin, AddsFour, AddsTwo, HasRoomForFour, HasRoomForTwo};
ghost use Rattle.factor_core.specs.Walks.{shifted, CanWalk, IsRun, IsTurned, MovesAlong, IsDot, IsRunAt, IsSecondRun, CanReadRun, further, AddsTotal, HaveMoved, sum_along, AddsOneAxis, AddsTwoAxes, CanAdvance, CanRetreat, CanWalkTwoAxes, HaveAdvanced, IsInnerMoved, IsWithinSizes, ProductsAlongFit, SumAlongFits};
ghost use Rattle.factor_core.specs.Narrow.{AreNarrow};

use crate::narrow::Narrow;
use cell_rings::{Cell, RunPair};

/// One axis of a walk: how many states its node has, and how far the result's place moves from one
/// state to the next, which is 0 at the node that is summed.
#[derive(Clone, Copy)]
pub struct Axis {
    pub states: usize,
    pub out: usize,
}

/// What of the list follows its first n items.
pub fn after<T>(list: &[T], n: usize) -> &[T]
    requires { n ≤ length list.now }
    ensures { result.now ≡ drop n list.now }
{
    list.split_at(n).1
}

/// Moves each place by its stride, the strides of this axis standing first.
pub fn advance(places: &mut [usize], strides: &[usize])
    requires strides { length places.old ≤ length strides.now }
    requires fits { CanAdvance strides.now places.old }
    ensures { HaveAdvanced strides.now places.old places.new }
{
    for i in 0..places.len() {
        places[i] += strides[i];
    }
}

/// Moves each place back by as many strides as there are states.
fn retreat(places: &mut [usize], strides: &[usize], states: usize)
    requires strides { length places.old ≤ length strides.now }
    requires fits { CanRetreat states strides.now places.old }
    ensures { HaveMoved states strides.now places.new places.old }
{
    for i in 0..places.len() {
        places[i] -= states * strides[i];
    }
}

/// The product of the cells at these places.
pub fn product<C: Cell>(cells: &[C], places: &[usize]) -> C
    requires within { All (λ p. p < length cells.now) places.now }
    requires fits { ProductFits C.ring cells.now 1 places.now }
    ensures product { result ≡ product_at C.ring cells.now places.now }
    ensures size { IsWithinSizes C.ring cells.now places.now result }
{
    let mut product = C::one();
    for place in places {
        product = product.mul(cells[*place]);
    }
    product
}

/// Adds the cell to the result's cell at a place.
pub fn add_at<C: Cell>(out: &mut [C], at: usize, cell: C)
    requires at { at < length out.old }
    requires fits { C.ring.size (cell_at C.ring out.old at) + C.ring.size cell ≤ C.ring.most }
    ensures { AddsCells C.ring (λ p. if p == at then cell else C.ring.nought) out.old out.new }
{
    out[at] = out[at].add(cell);
}

/// The first n items of the list.
pub fn before<T>(list: &[T], n: usize) -> &[T]
    requires { n ≤ length list.now }
    ensures { result.now ≡ take n list.now }
{
    list.split_at(n).0
}

/// Whether the result and the last operand move cell by cell along the axis while the other
/// operands stand.
fn is_run(axis: Axis, strides: &[usize], count: usize) -> bool
    requires { count ≤ length strides.now }
    ensures { IsTrue result → IsRun axis strides.now count }
{
    if count == 0 || axis.out != 1 {
        return false;
    }
    let last = count - 1;
    for i in 0..last {
        if strides[i] != 0 {
            return false;
        }
    }
    strides[last] == 1
}

/// Whether the result and the first of two operands move cell by cell along the axis while the
/// second stands.
fn is_turned(axis: Axis, strides: &[usize], count: usize) -> bool
    requires { count ≤ length strides.now }
    ensures { IsTrue result ↔ IsTurned axis strides.now count }
{
    count == 2 && axis.out == 1 && strides[0] == 1 && strides[1] == 0
}

/// Whether one operand and the result move cell by cell along the axis while the others stand: if
/// so, whether that operand is the first of two, and not the last.
fn run_along(axis: Axis, strides: &[usize], count: usize) -> Option<bool>
    requires { count ≤ length strides.now }
    ensures { IfSome result (λ turned. MovesAlong turned axis strides.now count) }
{
    if is_run(axis, strides, count) {
        return Some(false);
    }
    if is_turned(axis, strides, count) {
        return Some(true);
    }
    None
}

/// What a walk adds along an axis that one operand and the result move along while the other
/// operands stand: the product of the cells that stand, times each cell of a run.
#[derive(Clone, Copy)]
struct Run<C> {
    factor: C,
    /// The place at which the run begins.
    from: usize,
}

/// The run of the operand that moves: the first of two where it is turned, else the last.
fn read_run<C: Cell>(turned: bool, cells: &[C], places: &[usize]) -> Run<C>
    requires { CanReadRun turned C.ring cells.now places.now }
    ensures { IsRunAt turned C.ring cells.now places.now result.factor result.from }
{
    if turned {
        return Run {
            factor: cells[places[1]],
            from: places[0],
        };
    }
    let last = places.len() - 1;
    Run {
        factor: product(cells, before(places, last)),
        from: places[last],
    }
}

/// The runs at two states of the axis above, whose strides stand first, and the places after these
/// states.
fn next_pair<C: Cell>(
    turned: bool,
    strides: &[usize],
    cells: &[C],
    places: &mut [usize],
) -> RunPair<C>
    requires first { CanReadRun turned C.ring cells.now places.old }
    requires second { CanReadRun turned C.ring cells.now (shifted 1 strides.now places.old) }
    requires few { length cells.now ≤ 2 ^ 32 }
    requires near { All (λ d. d ≤ 2 ^ 32) strides.now }
    requires enough { length places.old ≤ length strides.now }
    ensures first { IsRunAt turned C.ring cells.now places.old result.first result.from }
    ensures second { IsSecondRun turned C.ring cells.now strides.now places.old result }
    ensures places { places.new ≡ shifted 2 strides.now places.old }
{
    let first = read_run(turned, cells, places);
    advance(places, strides);
    let second = read_run(turned, cells, places);
    advance(places, strides);
    RunPair {
        first: first.factor,
        second: second.factor,
        from: first.from,
        beside: second.from,
    }
}

/// Adds both runs of n cells, each times its factor, the faster way where all of them are narrow.
fn add_two<C: Cell>(
    narrow: Narrow,
    out: &mut [C],
    at: usize,
    n: usize,
    pair: &RunPair<C>,
    cells: &[C],
)
    requires narrow { AreNarrow C.ring C.bits C.narrow cells.now narrow }
    requires out { at + n ≤ length out.old }
    requires cells { AreWithin cells.now pair.now n }
    requires room { HasRoomForTwo C.ring C.ring.size out.old at n cells.now pair.now }
    ensures { AddsTwo C.ring (λ f. f) out.old out.new at n cells.now pair.now }
{
    if narrow.has(pair.from, n) && narrow.has(pair.beside, n) {
        C::add_two_narrow(out, at, n, pair, cells)
    } else {
        C::add_two_scaled(out, at, n, pair, cells)
    }
}

/// Adds the four runs of n cells of two pairs, the faster way where all of them are narrow.
fn add_four<C: Cell>(
    narrow: Narrow,
    out: &mut [C],
    at: usize,
    n: usize,
    one: &RunPair<C>,
    other: &RunPair<C>,
    cells: &[C],
)
    requires narrow { AreNarrow C.ring C.bits C.narrow cells.now narrow }
    requires out { at + n ≤ length out.old }
    requires cells { AreWithin cells.now one.now n × AreWithin cells.now other.now n }
    requires room { HasRoomForFour C.ring C.ring.size out.old at n cells.now one.now other.now }
    ensures { AddsFour C.ring (λ f. f) out.old out.new at n cells.now one.now other.now }
{
    if narrow.has(one.from, n)
        && narrow.has(one.beside, n)
        && narrow.has(other.from, n)
        && narrow.has(other.beside, n)
    {
        C::add_four_narrow(out, at, n, one, other, cells)
    } else {
        C::add_two_scaled(out, at, n, one, cells);
        C::add_two_scaled(out, at, n, other, cells)
    }
}

/// The walk over one axis along which one operand runs.
fn add_moved<C: Cell>(
    turned: bool,
    axis: Axis,
    strides: &[usize],
    cells: &[C],
    places: &[usize],
    out: &mut [C],
    at: usize,
)
    requires moved { MovesAlong turned axis strides.now (length places.now) }
    requires can { CanWalk C.ring cells.now (axis ∷ []) strides.now places.now out.old at }
    ensures { AddsOneAxis C.ring cells.now axis strides.now places.now at out.old out.new }
{
    let run = read_run(turned, cells, places);
    C::add_scaled(out, at, axis.states, run.factor, cells, run.from);
}

/// The walk over the summed axis and a run, four states at a time, then two, then one.
fn add_runs<C: Cell>(
    narrow: Narrow,
    turned: bool,
    sum: Axis,
    axis: Axis,
    strides: &[usize],
    cells: &[C],
    places: &mut [usize],
    out: &mut [C],
    at: usize,
)
    requires narrow { AreNarrow C.ring C.bits C.narrow cells.now narrow }
    requires sum { sum.out ≡ 0 }
    requires moved { IsInnerMoved turned axis strides.now places.old }
    requires can { CanWalkTwoAxes C.ring cells.now sum axis strides.now places.old out.old at }
    ensures adds { AddsTwoAxes C.ring cells.now sum axis strides.now places.old at out.old out.new }
    ensures places { places.new ≡ places.old }
{
    let below = after(strides, places.len());
    let mut s = 0;
    while s < sum.states {
        let left = sum.states - s;
        if left >= 4 {
            let one = next_pair(turned, strides, cells, places);
            let other = next_pair(turned, strides, cells, places);
            add_four(narrow, out, at, axis.states, &one, &other, cells);
            s += 4;
        } else if left >= 2 {
            let pair = next_pair(turned, strides, cells, places);
            add_two(narrow, out, at, axis.states, &pair, cells);
            s += 2;
        } else {
            add_moved(turned, axis, below, cells, places, out, at);
            advance(places, strides);
            s += 1;
        }
    }
    retreat(places, strides, sum.states);
}

/// How many of the strides are 0 before the first that isn't.
fn count_standing(strides: &[usize], count: usize) -> usize
    requires { count ≤ length strides.now }
    ensures within { result ≤ count }
    ensures fixed { (i : ℕ) → i < result → slice_index strides.now i ≡ 0 }
{
    for i in 0..count {
        if strides[i] != 0 {
            return i;
        }
    }
    count
}

/// Whether the result stands along the axis, while the operands from one on move cell by cell and
/// those before it stand.
fn is_dot(axis: Axis, strides: &[usize], stand: usize, count: usize) -> bool
    requires count { count ≤ length strides.now }
    requires stand { stand ≤ count }
    requires fixed { (i : ℕ) → i < stand → slice_index strides.now i ≡ 0 }
    ensures { IsTrue result → IsDot axis strides.now stand count }
{
    if axis.out != 0 {
        return false;
    }
    for i in stand..count {
        if strides[i] != 1 {
            return false;
        }
    }
    true
}

/// The product of a factor and the cells that stand s cells further than the places.
fn product_along<C: Cell>(cells: &[C], factor: C, places: &[usize], s: usize) -> C
    requires within { All (λ p. p + s < length cells.now) places.now }
    requires fits { ProductFits C.ring cells.now (C.ring.size factor) (further s places.now) }
    ensures { result ≡ product_from C.ring cells.now factor (further s places.now) }
{
    let mut product = factor;
    for place in places {
        product = product.mul(cells[*place + s]);
    }
    product
}

/// The sum, over n cells from each place on, of the products of a factor and those cells.
fn dot<C: Cell>(n: usize, cells: &[C], factor: C, places: &[usize]) -> C
    requires within { All (λ p. p + n ≤ length cells.now) places.now }
    requires fits { ProductsAlongFit C.ring n cells.now factor places.now }
    requires room { SumAlongFits C.ring n cells.now factor places.now }
    ensures { result ≡ sum_along C.ring n cells.now factor places.now }
{
    if places.len() == 2 {
        return C::dot(n, factor, cells, places[0], places[1]);
    }
    let mut sum = C::zero();
    for s in 0..n {
        let product = product_along(cells, factor, places, s);
        sum = sum.add(product);
    }
    sum
}

/// The walk over one axis along which the result stands.
fn add_dot<C: Cell>(
    axis: Axis,
    stand: usize,
    strides: &[usize],
    cells: &[C],
    places: &[usize],
    out: &mut [C],
    at: usize,
)
    requires dot { IsDot axis strides.now stand (length places.now) }
    requires can { CanWalk C.ring cells.now (axis ∷ []) strides.now places.now out.old at }
    ensures { AddsOneAxis C.ring cells.now axis strides.now places.now at out.old out.new }
{
    let front = before(places, stand);
    let moving = after(places, stand);
    let factor = product(cells, front);
    let sum = dot(axis.states, cells, factor, moving);
    add_at(out, at, sum);
}

/// The walk over one axis, cell by cell.
fn add_line<C: Cell>(
    axis: Axis,
    strides: &[usize],
    cells: &[C],
    places: &mut [usize],
    out: &mut [C],
    at: usize,
)
    requires { CanWalk C.ring cells.now (axis ∷ []) strides.now places.old out.old at }
    ensures adds { AddsOneAxis C.ring cells.now axis strides.now places.old at out.old out.new }
    ensures places { places.new ≡ places.old }
{
    let mut place = at;
    for _ in 0..axis.states {
        add_at(out, place, product(cells, places));
        place += axis.out;
        advance(places, strides);
    }
    retreat(places, strides, axis.states);
}

/// The walk over one axis, by runs where the operands allow.
fn add_axis<C: Cell>(
    axis: Axis,
    strides: &[usize],
    cells: &[C],
    places: &mut [usize],
    out: &mut [C],
    at: usize,
)
    requires { CanWalk C.ring cells.now (axis ∷ []) strides.now places.old out.old at }
    ensures adds { AddsOneAxis C.ring cells.now axis strides.now places.old at out.old out.new }
    ensures places { places.new ≡ places.old }
{
    if let Some(turned) = run_along(axis, strides, places.len()) {
        add_moved(turned, axis, strides, cells, places, out, at);
        return;
    }
    let stand = count_standing(strides, places.len());
    if is_dot(axis, strides, stand, places.len()) {
        add_dot(axis, stand, strides, cells, places, out, at);
        return;
    }
    add_line(axis, strides, cells, places, out, at);
}

/// The walk over one axis or none.
fn walk_end<C: Cell>(
    axes: &[Axis],
    strides: &[usize],
    cells: &[C],
    places: &mut [usize],
    out: &mut [C],
    at: usize,
)
    requires most { length axes.now < 2 }
    requires can { CanWalk C.ring cells.now axes.now strides.now places.old out.old at }
    ensures adds { AddsTotal C.ring cells.now axes.now strides.now places.old at out.old out.new }
    ensures places { places.new ≡ places.old }
{
    if axes.is_empty() {
        add_at(out, at, product(cells, places));
    } else {
        add_axis(axes[0], strides, cells, places, out, at);
    }
}

/// Adds to each cell of the result what the walk over the axes leads there.
pub fn walk<C: Cell>(
    narrow: Narrow,
    axes: &[Axis],
    strides: &[usize],
    cells: &[C],
    places: &mut [usize],
    out: &mut [C],
    at: usize,
)
    requires narrow { AreNarrow C.ring C.bits C.narrow cells.now narrow }
    requires can { CanWalk C.ring cells.now axes.now strides.now places.old out.old at }
    ensures adds { AddsTotal C.ring cells.now axes.now strides.now places.old at out.old out.new }
    ensures places { places.new ≡ places.old }
{
    if axes.len() < 2 {
        walk_end(axes, strides, cells, places, out, at);
        return;
    }
    let axis = axes[0];
    let rest = after(axes, 1);
    let below = after(strides, places.len());
    if axes.len() == 2 && axis.out == 0 {
        if let Some(turned) = run_along(axes[1], below, places.len()) {
            add_runs(
                narrow, turned, axis, axes[1], strides, cells, places, out, at,
            );
            return;
        }
    }
    let mut place = at;
    for _ in 0..axis.states {
        walk(narrow, rest, below, cells, places, out, place);
        place += axis.out;
        advance(places, strides);
    }
    retreat(places, strides, axis.states);
}
