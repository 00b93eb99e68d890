//! Intervals of fractions, which conditions make narrower.

ghost use Rattle.std.specs.Prelude.{◌≡◌, ℕ, ◌<◌, ◌≤◌, ◌+◌, ◌*◌, ◌^◌, All, length, nat_abs};
ghost use Rattle.maid_model.specs.Gains.{AreSmallGains};
ghost use Rattle.threshold.specs.Held.{AllBestIn, AreEndGains, HoldsSomewhere, IsBestIn, IsGreater};
ghost use Rattle.threshold.specs.Held.{IsLesser, IsNotBelow, IsPart, IsRange, IsWithin};
ghost use Rattle.threshold.specs.Held.{Narrows, lead_at};

use maid_model::Row;
use std::cmp::Ordering;
use whole_num::compare_parts;

/// A fraction from 0 to 1.
#[derive(Clone, Copy)]
pub(crate) struct Part {
    pub num: u128,
    pub den: u128,
}

/// The fractions from the one to the other.
#[derive(Clone, Copy)]
pub(crate) struct Held {
    pub low: Part,
    pub high: Part,
}

/// The greater of two fractions.
fn greater(a: Part, b: Part) -> Part
    requires a { IsPart a }
    requires b { IsPart b }
    ensures part { IsPart result }
    ensures from { IsGreater a b result }
{
    match compare_parts(a.num, a.den, b.num, b.den) {
        Ordering::Less => b,
        Ordering::Equal | Ordering::Greater => a,
    }
}

/// The lesser of two fractions.
fn lesser(a: Part, b: Part) -> Part
    requires a { IsPart a }
    requires b { IsPart b }
    ensures part { IsPart result }
    ensures up_to { IsLesser a b result }
{
    match compare_parts(b.num, b.den, a.num, a.den) {
        Ordering::Less => b,
        Ordering::Equal | Ordering::Greater => a,
    }
}

/// All fractions from 0 to 1.
pub(crate) fn all_fractions() -> Held
    ensures range { IsRange result }
    ensures all { (num den : ℕ) → num ≤ den → IsWithin result num den }
{
    Held {
        low: Part { num: 0, den: 1 },
        high: Part { num: 1, den: 1 },
    }
}

/// The fractions of the interval at which a number that goes evenly from `nought` at 0 to `one` at
/// 1 is not below nought. It is so somewhere.
fn narrow(held: Held, nought: i128, one: i128) -> Held
    requires range { IsRange held }
    requires nought { nat_abs nought < 2 ^ 127 }
    requires one { nat_abs one < 2 ^ 127 }
    requires somewhere { HoldsSomewhere (IsNotBelow nought one) }
    ensures { Narrows (IsNotBelow nought one) held result }
{
    // Where the number is nought.
    let turn = Part {
        num: nought.unsigned_abs(),
        den: nought.unsigned_abs() + one.unsigned_abs(),
    };
    let Held { low, high } = held;
    if nought < 0 {
        Held {
            low: greater(low, turn),
            high,
        }
    } else if one < 0 {
        Held {
            low,
            high: lesser(high, turn),
        }
    } else {
        held
    }
}

/// How much more the one gains than the other.
fn lead(gains: &[i128], best: usize, other: usize) -> i128
    requires best { best < length gains.now }
    requires other { other < length gains.now }
    requires small { AreSmallGains gains.now }
    ensures lead { result ≡ lead_at gains.now best other }
    ensures room { nat_abs result < 2 ^ 127 }
{
    gains[best] - gains[other]
}

/// The fractions of the interval at which no state gains more in the row than the choice. The lists
/// have a gain for each row and state, the state fastest, at the probabilities 0 and 1.
fn narrow_row(
    held: Held,
    nought: &[i128],
    one: &[i128],
    states: usize,
    line: usize,
    choice: usize,
) -> Held
    requires range { IsRange held }
    requires nought { line * states + states ≤ length nought.now }
    requires one { line * states + states ≤ length one.now }
    requires small_nought { AreSmallGains nought.now }
    requires small_one { AreSmallGains one.now }
    requires choice { choice < states }
    requires somewhere { HoldsSomewhere (IsBestIn nought.now one.now states choice line) }
    ensures { Narrows (IsBestIn nought.now one.now states choice line) held result }
{
    let best = line * states + choice;
    let mut held = held;
    for state in 0..states {
        let other = line * states + state;
        held = narrow(held, lead(nought, best, other), lead(one, best, other));
    }
    held
}

/// The fractions of the interval at which no state gains more in any row than the row's choice.
pub(crate) fn narrow_rows(
    held: Held,
    nought: &[i128],
    one: &[i128],
    states: usize,
    rows: &[Row],
) -> Held
    requires range { IsRange held }
    requires gains { AreEndGains nought.now one.now states rows.now }
    requires choices { All (λ row. row.choice < states) rows.now }
    ensures { Narrows (AllBestIn nought.now one.now states rows.now) held result }
{
    let mut held = held;
    for (line, row) in rows.iter().enumerate() {
        held = narrow_row(held, nought, one, states, line, row.choice);
    }
    held
}
