//! Laws of the sizes of runs.

ghost use Rattle.rule_solver.specs.Laws.{CountedPlansHaveRoom, CountedRunsHaveRoom};
ghost use Rattle.rule_solver.specs.Laws.{MeasuredPlansHaveRoom, OrdersListDecisions};

use maid_model::descent_is_tested;
use size_precheck::greedy_orders;

/// An order of solving lists each decision once, as `size_precheck::plan_run` and `measure` ask
/// for.
pub fn orders_list_decisions()
    ensures { OrdersListDecisions }
{}

/// Plans that are counted together each have at most the cells of their size: those of a run, also
/// where further plans are counted with them, and these.
pub fn counted_plans_have_room()
    ensures run { CountedRunsHaveRoom }
    ensures further { CountedPlansHaveRoom }
{
    greedy_orders();
    descent_is_tested();
}

/// What `size_precheck::measure` counts tells what `row_sums` and `expected` ask for: where the
/// greatest cells of a run in the order of solving keep the limit, the plans of each decision and
/// of each utility do.
pub fn measured_plans_have_room()
    ensures { MeasuredPlansHaveRoom }
{
    orders_list_decisions();
    counted_plans_have_room();
}
