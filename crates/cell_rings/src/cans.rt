//! Truth values.

ghost use Rattle.std.specs.Prelude.{nat_lt, true};
ghost use Rattle.cell_rings.specs.KindLaws.{most_has_room, can_laws, can_sizes, can_of_weight, one_at_most};
ghost use Rattle.cell_rings.specs.Kinds.{can_kind, can_of};

use crate::cells::Cell;

/// A truth value.
#[derive(Clone, Copy, Debug, PartialEq, Eq)]
pub struct Can(pub bool);

impl Cell for Can {
    ghost ring = { can_kind };

    ghost of_weight = { λ w. can_of (nat_lt 0 w) };

    ghost of_value = { λ _. can_of true };

    ghost bits = { λ _. 0 };

    ghost narrow = { 0 };

    ghost laws = { can_laws };

    ghost sizes = { can_sizes };

    ghost weight_sizes = { can_of_weight };

    ghost one_fits = { most_has_room };

    ghost value_sizes = { one_at_most };

    fn zero() -> Can {
        Can(false)
    }

    fn one() -> Can {
        Can(true)
    }

    fn weight(w: u128) -> Can {
        Can(w > 0)
    }

    fn value(_v: i128) -> Can {
        Can(true)
    }

    fn add(self, other: Can) -> Can {
        Can(self.0 | other.0)
    }

    fn mul(self, other: Can) -> Can {
        Can(self.0 & other.0)
    }
}
