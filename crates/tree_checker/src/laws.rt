//! Laws of verdicts.

ghost use Rattle.tree_checker.specs.Laws.{OneVerdict, AcceptedIsSound};

/// What a report can show has one verdict at most.
pub fn verdicts_are_one()
    ensures { OneVerdict }
{}

/// The rules of an accepted report are subgame-perfect, and the optimum where one agent owns all
/// decisions.
pub fn accepted_reports_are_sound()
    ensures { AcceptedIsSound }
{}
