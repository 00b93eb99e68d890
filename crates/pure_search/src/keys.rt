//! The number of what the others choose.

ghost use Rattle.std.specs.Prelude.{◌≡◌, ◌<◌, ◌≤◌, length};
ghost use Rattle.maid_model.specs.Worlds.{IsWorld, worlds};
ghost use Rattle.maid_model.specs.declared.limits.TheConstants.{MOST_PROFILES};
ghost use Rattle.pure_search.specs.Games.{key_from, unless_own};

/// A choice, or the first one where it is the agent's own.
fn unless_own(agent: usize, owner: usize, choice: usize) -> usize
    ensures { result ≡ unless_own agent owner choice }
{
    if owner == agent { 0 } else { choice }
}

/// The number whose digits are the others' choices, and 0 at the agent's own places: lists of
/// choices have the same number exactly where they agree on the others' choices.
pub(crate) fn key_of(agent: usize, counts: &[usize], owners: &[usize], choices: &[usize]) -> usize
    requires choices { IsWorld counts.now choices.now }
    requires owners { length owners.now ≡ length counts.now }
    requires few { length (worlds counts.now) ≤ MOST_PROFILES }
    ensures key { result ≡ key_from agent 0 counts.now owners.now choices.now }
    ensures within { result < length (worlds counts.now) }
{
    let mut key = 0;
    for (place, count) in counts.iter().enumerate() {
        key = key * *count + unless_own(agent, owners[place], choices[place]);
    }
    key
}
