//! Whole numbers from 0, in 64 bits.

ghost use Rattle.cell_rings.specs.KindLaws.{small_has_room, small_mass_laws, small_mass_sizes, at_most_itself, one_at_most};
ghost use Rattle.cell_rings.specs.Kinds.{small_mass_kind, small_mass_of};

use crate::cells::Cell;

/// A whole number from 0, where a bound keeps every sum below 2^63.
#[derive(Clone, Copy, Debug, PartialEq, Eq)]
pub struct SmallMass(pub u64);

impl Cell for SmallMass {
    ghost ring = { small_mass_kind };

    ghost of_weight = { small_mass_of };

    ghost of_value = { λ _. small_mass_of 1 };

    ghost bits = { λ _. 0 };

    ghost narrow = { 0 };

    ghost laws = { small_mass_laws };

    ghost sizes = { small_mass_sizes };

    ghost weight_sizes = { at_most_itself };

    ghost one_fits = { small_has_room };

    ghost value_sizes = { one_at_most };

    fn zero() -> SmallMass {
        SmallMass(0)
    }

    fn one() -> SmallMass {
        SmallMass(1)
    }

    fn weight(w: u128) -> SmallMass {
        SmallMass(w as u64)
    }

    fn value(_v: i128) -> SmallMass {
        SmallMass(1)
    }

    fn add(self, other: SmallMass) -> SmallMass {
        SmallMass(self.0 + other.0)
    }

    fn mul(self, other: SmallMass) -> SmallMass {
        SmallMass(self.0 * other.0)
    }
}
