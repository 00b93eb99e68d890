//! Laws of numerals, of scaled rows and of the weight bound, over the definitions alone.

ghost use Rattle.weight_scale.specs.Laws.{DecimalOrNone, ScaledOrTooWide, NeverScaledAndTooWide, ScaledIsTable, ScalesInOneWay, HasBoundPlace, OneBoundPlace};

/// Each numeral has a decimal, or none at all.
pub fn a_numeral_has_a_decimal_or_none()
    ensures { DecimalOrNone }
{}

/// Rows without numbers below nought and of totals above nought have a scaling, which is a table,
/// or too great a common total, and never both.
pub fn rows_are_scaled_or_too_wide()
    ensures covered { ScaledOrTooWide }
    ensures exclusive { NeverScaledAndTooWide }
    ensures table { ScaledIsTable }
{}

/// The rows of a table have one scaling: the weights and their total are determined.
pub fn rows_scale_in_one_way()
    ensures { ScalesInOneWay }
{}

/// Either the weight bound holds in the scopes of all decisions and agents, or it fails first at
/// one node or at the utilities: one of the three, and at one node at most.
pub fn bound_has_one_place()
    ensures some { HasBoundPlace }
    ensures one { OneBoundPlace }
{}
