//! The laws of totals and of products.

ghost use Rattle.maid_laws.specs.Sums.{LawOfTotals, WeightsAddUp, LawOfProducts, SumsInAnyOrder};

/// Tables and rules summed over their nodes leave their totals.
pub fn law_of_totals()
    ensures totals { LawOfTotals }
    ensures weights { WeightsAddUp }
{}

/// A sum over two lists of nodes of two factors that look at one list each is a product of two
/// sums, and nodes may be summed in any order.
pub fn law_of_products()
    ensures products { LawOfProducts }
    ensures order { SumsInAnyOrder }
{}
