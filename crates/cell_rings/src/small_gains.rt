//! Whole numbers with a sign, in 64 bits.

ghost use Rattle.std.specs.Prelude.{◌≡◌, ◌↔◌, ◌+◌, ◌-◌, ◌*◌, ◌^◌, ◌<◌, ◌≤◌, pos, nat_abs, length, IsTrue};
ghost use Rattle.std.specs.Int.{w64, cast_unsigned};
ghost use Rattle.cell_rings.specs.Sums.{AddsTwo, AreWithin, HasRoomForTwo};
ghost use Rattle.cell_rings.specs.Words.{AreHalves, FitsHalf};
ghost use Rattle.cell_rings.specs.KindLaws.{small_has_room, small_gain_laws, small_gain_sizes, at_most_itself, value_at_most};
ghost use Rattle.cell_rings.specs.Kinds.{small_gain_kind, small_gain_of};

use crate::cells::Cell;
use crate::pairs::RunPair;

/// A whole number with a sign, where a bound keeps every sum below 2^63.
#[derive(Clone, Copy, Debug, PartialEq, Eq)]
pub struct SmallGain(pub i64);

impl Cell for SmallGain {
    ghost ring = { small_gain_kind };

    ghost of_weight = { λ w. small_gain_of (pos w) };

    ghost of_value = { small_gain_of };

    ghost bits = { λ a. cast_unsigned w64 a.0 };

    ghost narrow = { 2 ^ 32 };

    ghost laws = { small_gain_laws };

    ghost sizes = { small_gain_sizes };

    ghost weight_sizes = { at_most_itself };

    ghost one_fits = { small_has_room };

    ghost value_sizes = { value_at_most };

    fn zero() -> SmallGain {
        SmallGain(0)
    }

    fn one() -> SmallGain {
        SmallGain(1)
    }

    fn weight(w: u128) -> SmallGain {
        SmallGain(w as i64)
    }

    fn value(v: i128) -> SmallGain {
        SmallGain(v as i64)
    }

    fn add(self, other: SmallGain) -> SmallGain {
        SmallGain(self.0 + other.0)
    }

    fn mul(self, other: SmallGain) -> SmallGain {
        SmallGain(self.0 * other.0)
    }

    fn are_narrow(cells: &[SmallGain], from: usize, n: usize) -> bool
        requires { from + n ≤ length cells.now }
        ensures { IsTrue result ↔ AreHalves cells.now from n }
    {
        are_halves(cells, from, n)
    }

    fn add_two_narrow(
        out: &mut [SmallGain],
        at: usize,
        n: usize,
        pair: &RunPair<SmallGain>,
        cells: &[SmallGain],
    ) {
        if is_half(bits_of(pair.first)) && is_half(bits_of(pair.second)) {
            add_two_halves(out, at, n, *pair, cells)
        } else {
            add_two_long(out, at, n, *pair, cells)
        }
    }
}

/// Both products and their sum added to each cell of the run.
fn add_two_long(
    out: &mut [SmallGain],
    at: usize,
    n: usize,
    pair: RunPair<SmallGain>,
    cells: &[SmallGain],
)
    requires out { at + n ≤ length out.old }
    requires cells { AreWithin cells.now pair n }
    requires room { HasRoomForTwo small_gain_kind small_gain_kind.size out.old at n cells.now pair }
    ensures { AddsTwo small_gain_kind (λ f. f) out.old out.new at n cells.now pair }
{
    for i in 0..n {
        let both = pair
            .first
            .mul(cells[pair.from + i])
            .add(pair.second.mul(cells[pair.beside + i]));
        out[at + i] = out[at + i].add(both);
    }
}

/// The same where all factors are from 0 and below 2^32: the compiler has one instruction for two
/// such products.
#[inline(never)]
fn add_two_halves(
    out: &mut [SmallGain],
    at: usize,
    n: usize,
    pair: RunPair<SmallGain>,
    cells: &[SmallGain],
)
    requires out { at + n ≤ length out.old }
    requires cells { AreWithin cells.now pair n }
    requires first { FitsHalf pair.first }
    requires second { FitsHalf pair.second }
    requires from { AreHalves cells.now pair.from n }
    requires beside { AreHalves cells.now pair.beside n }
    requires room { HasRoomForTwo small_gain_kind small_gain_kind.size out.old at n cells.now pair }
    ensures { AddsTwo small_gain_kind (λ f. f) out.old out.new at n cells.now pair }
{
    for i in 0..n {
        let both = half_product(pair.first, cells[pair.from + i]).add(half_product(
            pair.second,
            cells[pair.beside + i],
        ));
        out[at + i] = out[at + i].add(both);
    }
}

/// The bits of the number.
fn bits_of(a: SmallGain) -> u64
    ensures { result ≡ cast_unsigned w64 a.0 }
{
    a.0.cast_unsigned()
}

/// Whether the bits are those of a number from 0 and below 2^32.
fn is_half(bits: u64) -> bool
    ensures { IsTrue result ↔ bits < 2 ^ 32 }
{
    bits < 0x1_0000_0000
}

/// Whether n cells from one on are from 0 and below 2^32. It looks at the bits of all of them
/// together.
fn are_halves(cells: &[SmallGain], from: usize, n: usize) -> bool
    requires { from + n ≤ length cells.now }
    ensures { IsTrue result ↔ AreHalves cells.now from n }
{
    let mut bits = 0u64;
    for i in 0..n {
        bits |= bits_of(cells[from + i]);
    }
    is_half(bits)
}

/// The product of two numbers from 0 and below 2^32.
fn half_product(a: SmallGain, b: SmallGain) -> SmallGain
    requires { FitsHalf a × FitsHalf b × (nat_abs a.0 * nat_abs b.0 ≤ 2 ^ 63 - 1) }
    ensures { result ≡ small_gain_kind.times a b }
{
    SmallGain(half_times(bits_of(a), bits_of(b)).cast_signed())
}

/// The product of two halves of words.
fn half_times(a: u64, b: u64) -> u64
    requires { (a < 2 ^ 32) × (b < 2 ^ 32) }
    ensures { result ≡ a * b }
{
    (a as u32 as u64) * (b as u32 as u64)
}
