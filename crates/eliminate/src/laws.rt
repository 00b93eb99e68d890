//! Laws over the definitions alone.

ghost use Rattle.eliminate.specs.Laws.{ValuesFit, WeightsFit};

/// The numbers of a chance or decision node's first table fit where its total does, and those of a
/// utility where the greatest does. So callers of `sum_tables` know that they may ask for these
/// tables.
pub fn first_numbers_fit()
    ensures weights { WeightsFit }
    ensures values { ValuesFit }
{}
