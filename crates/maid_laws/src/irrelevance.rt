//! The law of irrelevance.

ghost use Rattle.maid_laws.specs.Irrelevance.{Irrelevance, MassAtEachState, NoGainWithoutMass};

/// Rules on which a decision does not rely don't matter to it (Koller and Milch 2003): where two
/// profiles agree at the decisions that it relies on, the gains of its states are in one proportion
/// in each row.
pub fn irrelevant_rules()
    ensures law { Irrelevance }
{}

/// The mass of a row is the same at every state of the decision, and where it is nought no state
/// gains anything.
pub fn mass_at_each_state()
    ensures same { MassAtEachState }
    ensures none { NoGainWithoutMass }
{}
