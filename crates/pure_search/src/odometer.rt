//! Lists of choices, one after another.

ghost use Rattle.std.specs.Prelude.{◌≡◌, ◌<◌, [], ◌∷◌, IfOk, IsTrue, IsFalse, All};
ghost use Rattle.maid_model.specs.Worlds.{IsWorld, worlds_from};
ghost use Rattle.pure_search.specs.Games.{AreFirstChoices, StandsRightBefore};

use std::alloc::{AllocError, Global};

/// The first list: the first choice everywhere.
pub(crate) fn first_choices(alloc: Global, counts: &[usize]) -> Result<Vec<usize>, AllocError>
    requires { All (λ n. 0 < n) counts.now }
    ensures world { IfOk result (λ choices. IsWorld counts.now choices.items) }
    ensures all { IfOk result (AreFirstChoices counts.now) }
{
    let choices = vec![in alloc; 0; counts.len()]?;
    Ok(choices)
}

/// Goes on to the next list of choices, the last place fastest. `false` where this was the last
/// one. It takes no memory.
pub(crate) fn next_choices(counts: &[usize], choices: &mut [usize]) -> bool
    requires { IsWorld counts.now choices.old }
    ensures world { IsWorld counts.now choices.new }
    ensures more { IsTrue result → StandsRightBefore counts.now choices.old choices.new }
    ensures last { IsFalse result → worlds_from counts.now choices.old ≡ choices.old ∷ [] }
{
    let mut place = choices.len();
    while place > 0 {
        place -= 1;
        let choice = choices[place];
        if choice < counts[place] - 1 {
            choices[place] = choice + 1;
            return true;
        }
        choices[place] = 0;
    }
    false
}
