//! Cells that are whole numbers, or hold one.

ghost use Rattle.std.specs.Prelude.{◌≡◌, ℤ};
ghost use Rattle.factor_core.specs.Operations.{cells_by};
ghost use Rattle.plan_sums.specs.Laws.{IsCellMap};
ghost use Rattle.plan_sums.specs.Plans.{gain_cells};
ghost use Rattle.rule_solver.specs.Numbers.{gain_numbers, small_gain_numbers};

use cell_rings::{Both, Cell, Gain, SmallGain};

/// A cell that holds a whole number with a sign.
pub(crate) trait HasNumber: Cell {
    ghost number: { Self → ℤ };

    /// The number.
    fn number(self) -> i128
        ensures { result ≡ number self };
}

/// A cell that is its number, added and multiplied as that.
pub(crate) trait Number: HasNumber {
    ghost is_map: { IsCellMap (cells_by Self.ring Self.of_weight Self.of_value) gain_cells
        Self.number };
}

impl HasNumber for Gain {
    ghost number = { λ a. a.0 };

    fn number(self) -> i128 {
        self.0
    }
}

impl Number for Gain {
    ghost is_map = { gain_numbers };
}

impl HasNumber for SmallGain {
    ghost number = { λ a. a.0 };

    fn number(self) -> i128 {
        self.0 as i128
    }
}

impl Number for SmallGain {
    ghost is_map = { small_gain_numbers };
}

/// A pair holds its gain.
impl HasNumber for Both {
    ghost number = { λ a. a.g };

    fn number(self) -> i128 {
        self.g
    }
}
