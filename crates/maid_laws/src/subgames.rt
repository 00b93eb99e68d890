//! Laws of subgames, and the exchange.

ghost use Rattle.maid_laws.specs.Exchange.{Exchange, OneAgent};
ghost use Rattle.maid_laws.specs.Starts.{InformationKept, NoRelianceBack};

/// At a subgame start each later decision sees each live node before it, and relies on no decision
/// before it.
pub fn later_decisions()
    ensures sees { InformationKept }
    ensures relies { NoRelianceBack }
{}

/// A profile that is best in its bases, along an order of solving, is subgame-perfect.
pub fn exchange()
    ensures law { Exchange }
{}

/// Where one agent owns all decisions, a subgame-perfect profile is optimal.
pub fn one_agent()
    ensures law { OneAgent }
{}
