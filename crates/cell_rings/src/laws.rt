//! Laws of the rings.

ghost use Rattle.cell_rings.specs.Rings.{IsRing, IsSize, IsMap, mass_ring, gain_ring, can_ring, both_ring, mass_size, gain_size, can_size, both_size};
ghost use Rattle.cell_rings.specs.Kinds.{mass_kind, gain_kind, can_kind, both_kind, pair_in};

/// The four rings of numbers are commutative semirings, each with its size.
pub fn four_rings()
    ensures mass { IsRing mass_ring }
    ensures gain { IsRing gain_ring }
    ensures can { IsRing can_ring }
    ensures both { IsRing both_ring }
    ensures size_of_mass { IsSize mass_ring mass_size }
    ensures size_of_gain { IsSize gain_ring gain_size }
    ensures size_of_can { IsSize can_ring can_size }
    ensures size_of_both { IsSize both_ring both_size }
{}

/// A cell of each kind is added and multiplied as the number, the truth value or the pair in it.
pub fn kinds_are_numbers()
    ensures mass { IsMap mass_kind mass_ring (λ a. a.0) }
    ensures gain { IsMap gain_kind gain_ring (λ a. a.0) }
    ensures can { IsMap can_kind can_ring (λ a. a.0) }
    ensures both { IsMap both_kind both_ring pair_in }
{}
