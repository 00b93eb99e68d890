//! Laws of control.

ghost use Rattle.arc_laws.specs.Control.{UnreachedRule, KeptAsDecision, MoreWithControl, SameWithControl};

/// The rule of a decision from which no utility of an agent descends does not matter to the agent.
pub fn rule_unreached()
    ensures law { UnreachedRule }
{}

/// Control of a chance node never lowers an agent's optimum, and leaves it as it is where no
/// utility of the agent descends from the node in the trimmed diagram.
pub fn controlled()
    ensures kept { KeptAsDecision }
    ensures more { MoreWithControl }
    ensures same { SameWithControl }
{}
