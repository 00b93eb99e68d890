//! Laws of updating.

ghost use Rattle.policy_update.specs.Laws.{OneRefusal, OneUpdate};

use reach_laws::{pure_profiles_listed, updating_ends};
use size_precheck::sizes_of_plans;
use weight_scale::bound_has_one_place;

/// A diagram of one agent has one result, and what refuses a diagram is one fault.
pub fn updates_have_one_outcome()
    ensures refusal { OneRefusal }
    ensures update { OneUpdate }
{
    pure_profiles_listed();
    updating_ends();
    sizes_of_plans();
    bound_has_one_place();
}
