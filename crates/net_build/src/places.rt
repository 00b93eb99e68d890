//! Places in lists of names.

ghost use Rattle.maid_model.specs.Names.{list_of};
ghost use Rattle.net_build.specs.NodeCalls.{IsPlaceAmong};

use maid_model::first_place;

/// The first place of the name in the list, if it stands there. It compares the name with each.
pub fn place_of(names: &[Vec<u8>], name: &[u8]) -> Option<usize>
    ensures { IsPlaceAmong (list_of names.now) name.now result }
{
    first_place(names, name)
}
