//! The weights of chance tables.

ghost use Rattle.std.specs.Prelude.{◌≡◌, ◌<◌, length, IfOk};
ghost use Rattle.std.specs.Int.{◌∣◌};
ghost use Rattle.net_build.specs.TableParts.{IsWeighed, PassesWeights};

use crate::faults::{BuildFault, BuildKind};
use net_lexer::Token;
use std::alloc::Global;
use weight_scale::{Decimal, ScaleFault, scale_rows};

/// The weights of a chance table of these numbers, which stand at these tokens: its rows taken in
/// proportion, and brought to one total. The word `data` stands at `at`. Refused are, in this
/// order, the first number below nought, the first row of total nought, and a common total that is
/// too great.
pub fn weights(
    alloc: Global,
    at: u32,
    tokens: &[Token],
    decimals: &[Decimal],
    states: usize,
) -> Result<Vec<i128>, BuildFault>
    requires states { 0 < states }
    requires whole { states ∣ length decimals.now }
    requires len { length decimals.now ≡ length tokens.now }
    ensures rows { PassesWeights states at tokens.now decimals.now result }
    ensures weighed { IfOk result (λ cells.
        IsWeighed decimals.now states cells.items) }
{
    match scale_rows(alloc, decimals, states) {
        Ok(scaled) => Ok(scaled.weights),
        Err(ScaleFault::Negative { place }) => { Err(BuildKind::Negative.at(tokens[place].start)) }
        Err(ScaleFault::ZeroRow { row }) => {
            Err(BuildKind::ZeroRow.at(tokens[row * states].start))
        }
        Err(ScaleFault::WideWeight) => Err(BuildKind::WideWeight.at(at)),
        Err(ScaleFault::NoMemory) => Err(BuildFault::NoMemory),
    }
}
