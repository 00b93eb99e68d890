//! Laws over the definitions alone.

ghost use Rattle.plan_sums.specs.Plans.{mass_cells, gain_cells, can_cells, both_cells};
ghost use Rattle.size_precheck.specs.Kept.{KeptPlansStand, KeptRunsStand};
ghost use Rattle.size_precheck.specs.Laws.{StopsAtTheEnd, OneListOfScopes, HasGreedyOrder, OneGreedyOrder, GreedyOrdersAreOrders, OneSize};

/// Each plan has exactly one greedy order, which takes each of the nodes that the plan eliminates
/// once.
pub fn greedy_orders()
    ensures some { HasGreedyOrder }
    ensures one { OneGreedyOrder }
    ensures orders { GreedyOrdersAreOrders }
{}

/// Plans have one size in all; it does not matter where counts stop, nor with which cells and rules
/// the tables are made.
pub fn sizes_of_plans()
    ensures one { OneSize }
    ensures stops { StopsAtTheEnd }
    ensures mass { OneListOfScopes mass_cells }
    ensures gain { OneListOfScopes gain_cells }
    ensures can { OneListOfScopes can_cells }
    ensures both { OneListOfScopes both_cells }
{}

/// Plans that are kept of a decision are also those of another diagram that keeps all that they
/// look at.
pub fn kept_plans_stand()
    ensures { KeptPlansStand }
{}

/// So is all that is kept of the diagram's plans.
pub fn kept_runs_stand()
    ensures { KeptRunsStand }
{}
