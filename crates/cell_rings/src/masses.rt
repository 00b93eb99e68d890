//! Whole numbers from 0.

ghost use Rattle.std.specs.Prelude.{◌≡◌, ◌+◌, ◌-◌, ◌*◌, ◌^◌, ◌<◌, ◌≤◌, length};
ghost use Rattle.cell_rings.specs.Sums.{AddsTwo, AreWithin, HasRoomForTwo};
ghost use Rattle.cell_rings.specs.KindLaws.{most_has_room, mass_laws, mass_sizes, at_most_itself, one_at_most};
ghost use Rattle.cell_rings.specs.Kinds.{mass_kind, mass_of};

use crate::cells::Cell;
use crate::pairs::RunPair;

/// A whole number from 0.
#[derive(Clone, Copy, Debug, PartialEq, Eq)]
pub struct Mass(pub u128);

impl Cell for Mass {
    ghost ring = { mass_kind };

    ghost of_weight = { mass_of };

    ghost of_value = { λ _. mass_of 1 };

    ghost bits = { λ _. 0 };

    ghost narrow = { 0 };

    ghost laws = { mass_laws };

    ghost sizes = { mass_sizes };

    ghost weight_sizes = { at_most_itself };

    ghost one_fits = { most_has_room };

    ghost value_sizes = { one_at_most };

    fn zero() -> Mass {
        Mass(0)
    }

    fn one() -> Mass {
        Mass(1)
    }

    fn weight(w: u128) -> Mass {
        Mass(w)
    }

    fn value(_v: i128) -> Mass {
        Mass(1)
    }

    fn add(self, other: Mass) -> Mass {
        Mass(self.0 + other.0)
    }

    fn mul(self, other: Mass) -> Mass {
        Mass(self.0 * other.0)
    }

    fn add_two_scaled(out: &mut [Mass], at: usize, n: usize, pair: &RunPair<Mass>, cells: &[Mass]) {
        if pair.first.0 >> 64 == 0 && pair.second.0 >> 64 == 0 {
            let short = RunPair {
                first: pair.first.0 as u64,
                second: pair.second.0 as u64,
                from: pair.from,
                beside: pair.beside,
            };
            add_two_short(out, at, n, short, cells)
        } else {
            add_two_long(out, at, n, *pair, cells)
        }
    }
}

/// Both products and their sum added to each cell of the run.
fn add_two_long(out: &mut [Mass], at: usize, n: usize, pair: RunPair<Mass>, cells: &[Mass])
    requires out { at + n ≤ length out.old }
    requires cells { AreWithin cells.now pair n }
    requires room { HasRoomForTwo mass_kind mass_kind.size out.old at n cells.now pair }
    ensures { AddsTwo mass_kind (λ f. f) out.old out.new at n cells.now pair }
{
    for i in 0..n {
        let both = pair
            .first
            .mul(cells[pair.from + i])
            .add(pair.second.mul(cells[pair.beside + i]));
        out[at + i] = out[at + i].add(both);
    }
}

/// The same where both factors are below 2^64, with two products of 64 bits in place of three.
#[inline(never)]
fn add_two_short(out: &mut [Mass], at: usize, n: usize, pair: RunPair<u64>, cells: &[Mass])
    requires out { at + n ≤ length out.old }
    requires cells { AreWithin cells.now pair n }
    requires room { HasRoomForTwo mass_kind (λ f. f) out.old at n cells.now pair }
    ensures { AddsTwo mass_kind mass_of out.old out.new at n cells.now pair }
{
    for i in 0..n {
        let both = short_product(pair.first, cells[pair.from + i]).add(short_product(
            pair.second,
            cells[pair.beside + i],
        ));
        out[at + i] = out[at + i].add(both);
    }
}

/// The product with a number below 2^64.
fn short_product(a: u64, b: Mass) -> Mass
    requires { a * b.0 ≤ 2 ^ 127 - 1 }
    ensures { result ≡ mass_of (a * b.0) }
{
    Mass(short_times(a, b.0))
}

/// The product of a number below 2^64 and one of two words. The upper word is multiplied in 64
/// bits, since the compiler makes a whole product of 128 bits of anything else.
fn short_times(a: u64, b: u128) -> u128
    requires { a * b < 2 ^ 127 }
    ensures { result ≡ a * b }
{
    let low = a as u128 * (b & 0xffff_ffff_ffff_ffff);
    let high = a * (b >> 64) as u64;
    low + ((high as u128) << 64)
}
