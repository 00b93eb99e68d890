//! Laws of information and control values.

ghost use Rattle.arc_laws.specs.Worths.{ValueExists, OneDifference, SeenValue, UnseenValue, ControlValue, OneAgentDiagram, AnswerIsOptimum};

/// Two diagrams in which one agent owns all decisions differ in worth to it by one fraction.
pub fn one_value()
    ensures exists { ValueExists }
    ensures one { OneDifference }
{}

/// Information is not worth less than nothing, and nothing where the arc is not requisite.
pub fn arc_value()
    ensures seen { SeenValue }
    ensures unseen { UnseenValue }
{}

/// Control is not worth less than nothing, and nothing where no utility of the agent descends from
/// the node in the trimmed diagram.
pub fn control_value()
    ensures law { ControlValue }
{}

/// In the diagram in which only the agent decides and the others take the answered choices, the
/// agent's optimum is what the answer gives it.
pub fn answer_is_optimum()
    ensures diagram { OneAgentDiagram }
    ensures optimum { AnswerIsOptimum }
{}
