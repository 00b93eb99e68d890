//! Pairs of a mass and a gain.

ghost use Rattle.std.specs.Prelude.{◌≡◌, ◌*◌, ◌^◌, ◌<◌, ◌*ℤ◌, pos, nat_abs};
ghost use Rattle.cell_rings.specs.KindLaws.{most_has_room, both_laws, both_sizes, pair_of_weight, pair_of_value};
ghost use Rattle.cell_rings.specs.Kinds.{both_kind, both_of};

use crate::cells::Cell;

/// A whole number from 0 and one with a sign.
#[derive(Clone, Copy, Debug, PartialEq, Eq)]
pub struct Both {
    pub m: u128,
    pub g: i128,
}

impl Cell for Both {
    ghost ring = { both_kind };

    ghost of_weight = { λ w. both_of w (pos 0) };

    ghost of_value = { λ v. both_of 1 v };

    ghost bits = { λ _. 0 };

    ghost narrow = { 0 };

    ghost laws = { both_laws };

    ghost sizes = { both_sizes };

    ghost weight_sizes = { pair_of_weight };

    ghost one_fits = { most_has_room };

    ghost value_sizes = { pair_of_value };

    fn zero() -> Both {
        Both { m: 0, g: 0 }
    }

    fn one() -> Both {
        Both { m: 1, g: 0 }
    }

    fn weight(w: u128) -> Both {
        Both { m: w, g: 0 }
    }

    fn value(v: i128) -> Both {
        Both { m: 1, g: v }
    }

    fn add(self, other: Both) -> Both {
        Both {
            m: self.m + other.m,
            g: self.g + other.g,
        }
    }

    fn mul(self, other: Both) -> Both {
        Both {
            m: self.m * other.m,
            g: scaled(self.m, other.g) + scaled(other.m, self.g),
        }
    }
}

/// The product. Where it is 0 the first factor may pass what a signed number holds, so the bits are
/// multiplied.
fn scaled(m: u128, g: i128) -> i128
    requires { m * nat_abs g < 2 ^ 127 }
    ensures { result ≡ pos m *ℤ g }
{
    m.cast_signed().wrapping_mul(g)
}
