//! The entries of a table that are the greatest of those with the same key.

ghost use Rattle.std.specs.Prelude.{◌≡◌, ◌<◌, All, IfNone, IfOk, IfSome, OnOk, false, length};
ghost use Rattle.pure_search.specs.Games.{AreGreatest, IsFirstMark, KeepsGreatest, MarksNone};

use std::alloc::{AllocError, Global};

/// For each key the greatest entry that has it.
fn greatest_entries(alloc: Global, keys: &[usize], gains: &[i128]) -> Result<Vec<i128>, AllocError>
    requires len { length keys.now ≡ length gains.now }
    requires keys { All (λ key. key < length gains.now) keys.now }
    ensures { IfOk result (λ best. AreGreatest keys.now gains.now (length gains.now) best.items) }
{
    let mut best = vec![in alloc; i128::MIN; gains.len()]?;
    for (place, gain) in gains.iter().enumerate() {
        let key = keys[place];
        if best[key] < *gain {
            best[key] = *gain;
        }
    }
    Ok(best)
}

/// Takes the mark from each entry that is not the greatest of its key.
pub(crate) fn keep_greatest(
    alloc: Global,
    keys: &[usize],
    gains: &[i128],
    marks: &mut [bool],
) -> Result<(), AllocError>
    requires len { length keys.now ≡ length gains.now }
    requires keys { All (λ key. key < length gains.now) keys.now }
    requires marks { length marks.old ≡ length gains.now }
    ensures { OnOk result (KeepsGreatest keys.now gains.now marks.old marks.new) }
{
    let best = greatest_entries(alloc, keys, gains)?;
    for (place, gain) in gains.iter().enumerate() {
        if *gain < best[keys[place]] {
            marks[place] = false;
        }
    }
    Ok(())
}

/// The first place with a mark.
pub(crate) fn first_mark(marks: &[bool]) -> Option<usize>
    ensures some { IfSome result (IsFirstMark marks.now) }
    ensures none { IfNone result (MarksNone marks.now) }
{
    for (place, mark) in marks.iter().enumerate() {
        if *mark {
            return Some(place);
        }
    }
    None
}
