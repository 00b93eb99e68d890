//! What a cell is.

ghost use Rattle.std.specs.Prelude.{◌≡◌, ℕ, ℤ, ◌+◌, ◌*◌, ◌<◌, ◌≤◌, max, nat_abs, length, IsTrue};
ghost use Rattle.cell_rings.specs.Sums.{ring_sum, one_sizes, dot_scaled, AreWithin, IsNarrowRun, IsNarrowPair, AddsFour, AddsOne, AddsTwo, HasRoomForDot, HasRoomForFour, HasRoomForOne, HasRoomForTwo};
ghost use Rattle.cell_rings.specs.Rings.{Ring, IsRing, IsSize};

use crate::pairs::RunPair;

/// A cell of a table. `ring` has its two operations and its sizes; a result fits where its size is
/// at most `ring.most`. The laws, of the operations and of the sizes, are all that the layers above
/// know. A cell is narrow where its `bits` are below `narrow`: runs of such cells are multiplied
/// faster.
pub trait Cell: Copy {
    ghost ring: { Ring Self };

    ghost of_weight: { ℕ → Self };

    ghost of_value: { ℤ → Self };

    ghost bits: { Self → ℕ };

    ghost narrow: { ℕ };

    /// The cell that adds nothing.
    fn zero() -> Self
        ensures { result ≡ ring.nought };

    /// The cell that multiplies by nothing.
    fn one() -> Self
        ensures { result ≡ ring.unit };

    /// The cell of a weight.
    fn weight(w: u128) -> Self
        requires { 2 * w ≤ ring.most }
        ensures { result ≡ of_weight w };

    /// The cell of a utility's value.
    fn value(v: i128) -> Self
        requires { 2 * nat_abs v ≤ ring.most }
        ensures { result ≡ of_value v };

    /// The sum.
    fn add(self, other: Self) -> Self
        requires { ring.size self + ring.size other ≤ ring.most }
        ensures { result ≡ ring.plus self other };

    /// The product.
    fn mul(self, other: Self) -> Self
        requires { ring.size self * ring.size other ≤ ring.most }
        ensures { result ≡ ring.times self other };

    /// Adds to n cells of the result, from `at` on, the factor times the cells from `from` on.
    fn add_scaled(out: &mut [Self], at: usize, n: usize, factor: Self, cells: &[Self], from: usize)
        requires out { at + n ≤ length out.old }
        requires cells { from + n ≤ length cells.now }
        requires room { HasRoomForOne ring factor out.old at n cells.now from }
        ensures { AddsOne ring factor out.old out.new at n cells.now from }
    {
        for i in 0..n {
            out[at + i] = out[at + i].add(factor.mul(cells[from + i]));
        }
    }

    /// Adds to n cells of the result, from `at` on, the cells of both runs, each times its factor.
    fn add_two_scaled(out: &mut [Self], at: usize, n: usize, pair: &RunPair<Self>, cells: &[Self])
        requires out { at + n ≤ length out.old }
        requires cells { AreWithin cells.now pair.now n }
        requires room { HasRoomForTwo ring ring.size out.old at n cells.now pair.now }
        ensures { AddsTwo ring (λ f. f) out.old out.new at n cells.now pair.now }
    {
        for i in 0..n {
            let both = pair
                .first
                .mul(cells[pair.from + i])
                .add(pair.second.mul(cells[pair.beside + i]));
            out[at + i] = out[at + i].add(both);
        }
    }

    /// Whether n cells from one on are narrow. It may say no of any, and looks at each of them
    /// otherwise.
    fn are_narrow(cells: &[Self], from: usize, n: usize) -> bool
        requires { from + n ≤ length cells.now }
        ensures { IsTrue result → IsNarrowRun ring bits narrow cells.now from n }
    {
        let _ = cells;
        let _ = from;
        let _ = n;
        false
    }

    /// The same as `add_two_scaled`, where the cells of both runs are narrow.
    fn add_two_narrow(out: &mut [Self], at: usize, n: usize, pair: &RunPair<Self>, cells: &[Self])
        requires out { at + n ≤ length out.old }
        requires cells { AreWithin cells.now pair.now n }
        requires narrow { IsNarrowPair ring bits narrow cells.now pair.now n }
        requires room { HasRoomForTwo ring ring.size out.old at n cells.now pair.now }
        ensures { AddsTwo ring (λ f. f) out.old out.new at n cells.now pair.now }
    {
        Self::add_two_scaled(out, at, n, pair, cells)
    }

    /// The same as `add_two_scaled` for one pair of runs and another.
    fn add_four_narrow(
        out: &mut [Self],
        at: usize,
        n: usize,
        one: &RunPair<Self>,
        other: &RunPair<Self>,
        cells: &[Self],
    )
        requires out { at + n ≤ length out.old }
        requires cells { AreWithin cells.now one.now n × AreWithin cells.now other.now n }
        requires one { IsNarrowPair ring bits narrow cells.now one.now n }
        requires other { IsNarrowPair ring bits narrow cells.now other.now n }
        requires room { HasRoomForFour ring ring.size out.old at n cells.now one.now other.now }
        ensures { AddsFour ring (λ f. f) out.old out.new at n cells.now one.now other.now }
    {
        Self::add_two_narrow(out, at, n, one, cells);
        Self::add_two_narrow(out, at, n, other, cells)
    }

    /// The sum of the products of the factor and the cells of two runs of n cells, from `from` on
    /// and from `beside` on.
    fn dot(n: usize, factor: Self, cells: &[Self], from: usize, beside: usize) -> Self
        requires cells { (from + n ≤ length cells.now) × (beside + n ≤ length cells.now) }
        requires first { (i : ℕ) → i < n → one_sizes ring factor cells.now from i ≤ ring.most }
        requires room { HasRoomForDot ring n factor cells.now from beside }
        ensures { result ≡ ring_sum ring n (dot_scaled ring factor cells.now from beside) }
    {
        let mut sum = Self::zero();
        for i in 0..n {
            let scaled = factor.mul(cells[from + i]);
            let product = scaled.mul(cells[beside + i]);
            sum = sum.add(product);
        }
        sum
    }

    ghost laws: { IsRing ring };

    ghost sizes: { IsSize ring ring.size };

    ghost weight_sizes: { (w : ℕ) → ring.size (of_weight w) ≤ w };

    ghost one_fits: { 1 ≤ ring.most };

    ghost value_sizes: { (v : ℤ) → ring.size (of_value v) ≤ 2 * max 1 (nat_abs v) };
}
