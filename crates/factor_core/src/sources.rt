//! What cells are copied from.

ghost use Rattle.std.specs.Prelude.{◌≡◌, ◌*◌, ◌<◌, ◌≤◌, ℤ, List, All, map, length, pos, nat_abs, ◌≤ℤ◌};
ghost use Rattle.cell_rings.specs.Sums.{cell_at};

use cell_rings::Cell;

/// A list of cells, or of numbers that stand for cells.
pub trait Source<C: Cell> {
    ghost cells: { Self → List C };

    ghost is_fit: { Self → Type 0 };

    /// The cell at a place.
    fn read(&self, place: usize) -> C
        requires fit { is_fit self.now }
        requires within { place < length (cells self.now) }
        ensures { result ≡ cell_at C.ring (cells self.now) place };
}

/// Cells themselves.
#[derive(Drop)]
pub struct Stored<'a, C> {
    pub cells: &'a [C],
}

impl<'a, C: Cell> Source<C> for Stored<'a, C> {
    ghost cells = { λ s. s.cells.now };

    ghost is_fit = { λ s. Unit {0} };

    fn read(&self, place: usize) -> C {
        self.cells[place]
    }
}

/// The cells of a chance node's weights.
#[derive(Drop)]
pub struct ChanceCells<'a> {
    pub cells: &'a [i128],
}

impl<'a, C: Cell> Source<C> for ChanceCells<'a> {
    ghost cells = { λ s. map (λ z. C.of_weight (nat_abs z)) s.cells.now };

    ghost is_fit = { λ s. All (λ z. (pos 0 ≤ℤ z) × (2 * nat_abs z ≤ C.ring.most)) s.cells.now };

    fn read(&self, place: usize) -> C {
        C::weight(self.cells[place] as u128)
    }
}

/// The cells of a rule's weights.
#[derive(Drop)]
pub struct RuleCells<'a> {
    pub cells: &'a [u128],
}

impl<'a, C: Cell> Source<C> for RuleCells<'a> {
    ghost cells = { λ s. map C.of_weight s.cells.now };

    ghost is_fit = { λ s. All (λ w. 2 * w ≤ C.ring.most) s.cells.now };

    fn read(&self, place: usize) -> C {
        C::weight(self.cells[place])
    }
}

/// The cells of a utility's values.
#[derive(Drop)]
pub struct ValueCells<'a> {
    pub cells: &'a [i128],
}

impl<'a, C: Cell> Source<C> for ValueCells<'a> {
    ghost cells = { λ s. map C.of_value s.cells.now };

    ghost is_fit = { λ s. All (λ z. 2 * nat_abs z ≤ C.ring.most) s.cells.now };

    fn read(&self, place: usize) -> C {
        C::value(self.cells[place])
    }
}
