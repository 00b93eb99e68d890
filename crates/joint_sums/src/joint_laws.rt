//! Laws of joint sums: they are the sums of the goals' own plans, and elimination gets them.

ghost use Rattle.cell_rings.specs.Rings.{both_size};
ghost use Rattle.joint_sums.specs.Laws.{JointGains, RunsJoint, MapsJoint};
ghost use Rattle.joint_sums.specs.Laws.{JointFits, JointHolds, JointKeeps, SummedByPlans};
ghost use Rattle.plan_sums.specs.Plans.{mass_cells, both_cells};

/// The gain of the joint sum is the sum of the goals' plans, elimination in any order gives the
/// joint sum, and its mass is the joint sum of masses.
pub fn goals_sum_together()
    ensures gains { JointGains }
    ensures any_order { RunsJoint both_cells }
    ensures masses { MapsJoint both_cells mass_cells (λ a. a.m) }
{}

/// Each value inside an elimination keeps the bound of the joint sum.
pub fn joint_keeps_sizes()
    ensures { JointFits both_cells both_size }
{}

/// At each step some live table holds the node, and the last table looks at the decision and its
/// parents. The steps are at the nodes that the goals' own plans eliminate.
pub fn joint_scopes()
    ensures holds { JointHolds both_cells }
    ensures keeps { JointKeeps both_cells }
    ensures steps { SummedByPlans }
{}
