//! Whole numbers with a sign.

ghost use Rattle.std.specs.Prelude.{◌≡◌, ◌↔◌, ◌+◌, ◌-◌, ◌*◌, ◌%◌, ◌^◌, ◌<◌, ◌≤◌, ◌*ℤ◌, ◌≤ℤ◌, ◌<ℤ◌, ℤ, pos, nat_abs, length, IsTrue};
ghost use Rattle.std.specs.Int.{cast_unsigned};
ghost use Rattle.cell_rings.specs.Sums.{two_scaled, two_sizes, AddsFour, AddsTwo, AreWithin, HasRoomForFour, HasRoomForTwo};
ghost use Rattle.cell_rings.specs.Words.{whole, of_word, word_size, word_pair, AreWords, AreWordPair, FitsWord};
ghost use Rattle.cell_rings.specs.KindLaws.{most_has_room, gain_laws, gain_sizes, at_most_itself, value_at_most};
ghost use Rattle.cell_rings.specs.Kinds.{gain_kind, as_gain};

use crate::cells::Cell;
use crate::pairs::RunPair;

/// A whole number with a sign.
#[derive(Clone, Copy, Debug, PartialEq, Eq)]
pub struct Gain(pub i128);

impl Cell for Gain {
    ghost ring = { gain_kind };

    ghost of_weight = { λ w. as_gain (pos w) };

    ghost of_value = { as_gain };

    ghost bits = { λ a. nat_abs a.0 };

    ghost narrow = { 2 ^ 63 };

    ghost laws = { gain_laws };

    ghost sizes = { gain_sizes };

    ghost weight_sizes = { at_most_itself };

    ghost one_fits = { most_has_room };

    ghost value_sizes = { value_at_most };

    fn zero() -> Gain {
        Gain(0)
    }

    fn one() -> Gain {
        Gain(1)
    }

    fn weight(w: u128) -> Gain {
        Gain(w as i128)
    }

    fn value(v: i128) -> Gain {
        Gain(v)
    }

    fn add(self, other: Gain) -> Gain {
        Gain(self.0 + other.0)
    }

    fn mul(self, other: Gain) -> Gain {
        Gain(self.0 * other.0)
    }

    fn add_two_scaled(out: &mut [Gain], at: usize, n: usize, pair: &RunPair<Gain>, cells: &[Gain]) {
        if is_short(pair.first) && is_short(pair.second) {
            let short = RunPair {
                first: pair.first.0 as u64,
                second: pair.second.0 as u64,
                from: pair.from,
                beside: pair.beside,
            };
            add_two_short(out, at, n, short, cells)
        } else {
            add_two_long(out, at, n, *pair, cells)
        }
    }

    fn are_narrow(cells: &[Gain], from: usize, n: usize) -> bool
        requires { from + n ≤ length cells.now }
        ensures { IsTrue result ↔ AreWords cells.now from n }
    {
        are_words(cells, from, n)
    }

    fn add_two_narrow(out: &mut [Gain], at: usize, n: usize, pair: &RunPair<Gain>, cells: &[Gain]) {
        if has_words(*pair) {
            add_two_words(out, at, n, in_word_pair(*pair), cells)
        } else {
            let split = RunPair {
                first: in_words(pair.first),
                second: in_words(pair.second),
                from: pair.from,
                beside: pair.beside,
            };
            add_two_split(out, at, n, split, cells)
        }
    }

    fn add_four_narrow(
        out: &mut [Gain],
        at: usize,
        n: usize,
        one: &RunPair<Gain>,
        other: &RunPair<Gain>,
        cells: &[Gain],
    ) {
        if has_words(*one) && has_words(*other) {
            add_four_words(out, at, n, in_word_pair(*one), in_word_pair(*other), cells)
        } else {
            Gain::add_two_narrow(out, at, n, one, cells);
            Gain::add_two_narrow(out, at, n, other, cells)
        }
    }
}

/// Whether the number is from 0 and below 2^63.
fn is_short(a: Gain) -> bool
    ensures { IsTrue result ↔ ((pos 0 ≤ℤ a.0) × (a.0 <ℤ pos (2 ^ 63))) }
{
    a.0 >= 0 && a.0 < 0x8000_0000_0000_0000
}

/// Both products and their sum added to each cell of the run.
fn add_two_long(out: &mut [Gain], at: usize, n: usize, pair: RunPair<Gain>, cells: &[Gain])
    requires out { at + n ≤ length out.old }
    requires cells { AreWithin cells.now pair n }
    requires room { HasRoomForTwo gain_kind gain_kind.size out.old at n cells.now pair }
    ensures { AddsTwo gain_kind (λ f. f) out.old out.new at n cells.now pair }
{
    for i in 0..n {
        let both = pair
            .first
            .mul(cells[pair.from + i])
            .add(pair.second.mul(cells[pair.beside + i]));
        out[at + i] = out[at + i].add(both);
    }
}

/// The same where both factors are below 2^64, with two products of 64 bits in place of three.
#[inline(never)]
fn add_two_short(out: &mut [Gain], at: usize, n: usize, pair: RunPair<u64>, cells: &[Gain])
    requires out { at + n ≤ length out.old }
    requires cells { AreWithin cells.now pair n }
    requires room { HasRoomForTwo gain_kind (λ f. f) out.old at n cells.now pair }
    ensures { AddsTwo gain_kind (λ f. as_gain (pos f)) out.old out.new at n cells.now pair }
{
    for i in 0..n {
        let both = short_product(pair.first, cells[pair.from + i]).add(short_product(
            pair.second,
            cells[pair.beside + i],
        ));
        out[at + i] = out[at + i].add(both);
    }
}

/// The same where all absolute values are below 2^63, with one product of 64 bits.
#[inline(never)]
fn add_two_words(out: &mut [Gain], at: usize, n: usize, pair: RunPair<Word>, cells: &[Gain])
    requires out { at + n ≤ length out.old }
    requires cells { AreWithin cells.now pair n }
    requires narrow { AreWordPair cells.now pair n }
    requires room { HasRoomForTwo gain_kind word_size out.old at n cells.now pair }
    ensures { AddsTwo gain_kind of_word out.old out.new at n cells.now pair }
{
    for i in 0..n {
        out[at + i] = out[at + i].add(word_sum(pair, cells, i));
    }
}

/// The same for one pair of runs and another, so that each cell of the result is read and written
/// once for four products.
#[inline(never)]
fn add_four_words(
    out: &mut [Gain],
    at: usize,
    n: usize,
    one: RunPair<Word>,
    other: RunPair<Word>,
    cells: &[Gain],
)
    requires out { at + n ≤ length out.old }
    requires cells { AreWithin cells.now one n × AreWithin cells.now other n }
    requires one { AreWordPair cells.now one n }
    requires other { AreWordPair cells.now other n }
    requires room { HasRoomForFour gain_kind word_size out.old at n cells.now one other }
    ensures { AddsFour gain_kind of_word out.old out.new at n cells.now one other }
{
    for i in 0..n {
        let four = word_sum(one, cells, i).add(word_sum(other, cells, i));
        out[at + i] = out[at + i].add(four);
    }
}

/// The same where the cells' absolute values are below 2^63 and the factors are any, with two
/// products of 64 bits in place of three.
#[inline(never)]
fn add_two_split(out: &mut [Gain], at: usize, n: usize, pair: RunPair<Split>, cells: &[Gain])
    requires out { at + n ≤ length out.old }
    requires cells { AreWithin cells.now pair n }
    requires narrow { AreWordPair cells.now pair n }
    requires room { HasRoomForTwo gain_kind (λ f. nat_abs (whole f)) out.old at n cells.now pair }
    ensures { AddsTwo gain_kind (λ f. as_gain (whole f)) out.old out.new at n cells.now pair }
{
    for i in 0..n {
        let both = split_product(pair.first, cells[pair.from + i]).add(split_product(
            pair.second,
            cells[pair.beside + i],
        ));
        out[at + i] = out[at + i].add(both);
    }
}

/// The product with a number below 2^64.
fn short_product(a: u64, b: Gain) -> Gain
    requires { a * nat_abs b.0 ≤ 2 ^ 127 - 1 }
    ensures { result ≡ as_gain (pos a *ℤ b.0) }
{
    Gain(short_times(a, b.0.cast_unsigned()).cast_signed())
}

/// The lowest 128 bits of the product of a number below 2^64 and one of two words.
fn short_times(a: u64, b: u128) -> u128
    ensures { result ≡ a * b % 2 ^ 128 }
{
    let low = a as u128 * (b & 0xffff_ffff_ffff_ffff);
    let high = a.wrapping_mul((b >> 64) as u64);
    low.wrapping_add((high as u128) << 64)
}

/// Whether the absolute values of n cells from one on are below 2^63. It looks at the bits of all
/// of them together.
fn are_words(cells: &[Gain], from: usize, n: usize) -> bool
    requires { from + n ≤ length cells.now }
    ensures { IsTrue result ↔ AreWords cells.now from n }
{
    let mut bits = 0u128;
    for i in 0..n {
        bits |= bits_of(cells[from + i]);
    }
    fit_word(bits)
}

/// The bits of the number's absolute value.
fn bits_of(a: Gain) -> u128
    ensures { result ≡ nat_abs a.0 }
{
    a.0.unsigned_abs()
}

/// Whether the bits are those of a number below 2^63.
fn fit_word(bits: u128) -> bool
    ensures { IsTrue result ↔ bits < 2 ^ 63 }
{
    bits < 0x8000_0000_0000_0000
}

/// Whether the number's absolute value is below 2^63.
fn is_word(a: Gain) -> bool
    ensures { IsTrue result ↔ FitsWord a }
{
    fit_word(bits_of(a))
}

/// A number whose absolute value is below 2^63, in one word.
#[derive(Clone, Copy)]
struct Word {
    value: i64,
}

/// The number in one word.
fn in_word(a: Gain) -> Word
    requires { FitsWord a }
    ensures { result.value ≡ a.0 }
{
    Word { value: a.0 as i64 }
}

/// Whether the absolute values of both factors are below 2^63.
fn has_words(pair: RunPair<Gain>) -> bool
    ensures { IsTrue result ↔ (FitsWord pair.first × FitsWord pair.second) }
{
    is_word(pair.first) && is_word(pair.second)
}

/// The runs with their factors in one word each.
fn in_word_pair(pair: RunPair<Gain>) -> RunPair<Word>
    requires { FitsWord pair.first × FitsWord pair.second }
    ensures { result ≡ word_pair pair }
{
    RunPair {
        first: in_word(pair.first),
        second: in_word(pair.second),
        from: pair.from,
        beside: pair.beside,
    }
}

/// The i-th cells of both runs, each times its factor, added up.
fn word_sum(pair: RunPair<Word>, cells: &[Gain], i: usize) -> Gain
    requires cells { AreWithin cells.now pair (i + 1) }
    requires narrow { AreWordPair cells.now pair (i + 1) }
    requires room { two_sizes gain_kind word_size cells.now pair i ≤ gain_kind.most }
    ensures { result ≡ two_scaled gain_kind of_word cells.now pair i }
{
    let first = word_product(pair.first, cells[pair.from + i]);
    let second = word_product(pair.second, cells[pair.beside + i]);
    first.add(second)
}

/// The product of a number in one word and one whose absolute value is below 2^63.
fn word_product(a: Word, b: Gain) -> Gain
    requires word { FitsWord b }
    requires room { nat_abs a.value * nat_abs b.0 ≤ 2 ^ 127 - 1 }
    ensures { result ≡ as_gain (a.value *ℤ b.0) }
{
    Gain((a.value as i128).wrapping_mul(b.0 as i64 as i128))
}

/// A number in two words: the lower one, and how often 2^64 is added to that, each with a sign.
#[derive(Clone, Copy)]
struct Split {
    low: i64,
    high: i64,
}

/// The number in two words.
fn in_words(a: Gain) -> Split
    ensures { whole result ≡ a.0 }
{
    let bits = a.0.cast_unsigned();
    let low = (bits & 0xffff_ffff_ffff_ffff) as u64;
    let high = (bits >> 64) as u64;
    Split {
        low: low.cast_signed(),
        high: high.wrapping_add(low >> 63).cast_signed(),
    }
}

/// The product of a number and one whose absolute value is below 2^63. What passes 128 bits on the
/// way falls away.
fn split_product(a: Split, b: Gain) -> Gain
    requires word { FitsWord b }
    requires room { nat_abs (whole a) * nat_abs b.0 ≤ 2 ^ 127 - 1 }
    ensures { result ≡ as_gain (whole a *ℤ b.0) }
{
    let b = b.0 as i64 as i128;
    let low = (a.low as i128).wrapping_mul(b);
    let high = (a.high as i128).wrapping_mul(b);
    Gain(low.wrapping_add(high.wrapping_mul(0x1_0000_0000_0000_0000)))
}
