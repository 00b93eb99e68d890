//! A diagram that reports and lines are of, and its names.

ghost use Rattle.std.specs.Prelude.{◌≡◌, IfOk};
ghost use Rattle.text_tests.specs.Samples.{AreCopies, tie_diagram, tie_names};

use maid_model::{Diagram, Names};
use sample_diagrams::{decision, sample_diagram, utility};
use std::alloc::{AllocError, Global};

/// A decision of two states, whose two states are worth the same.
pub(crate) fn tie_diagram(alloc: Global) -> Result<Diagram, AllocError>
    ensures { IfOk result (λ d. d ≡ tie_diagram) }
{
    let nodes = [decision(0, 2, &[]), utility(0, &[0], &[5, 5])];
    sample_diagram(alloc, &nodes, 1, 0)
}

/// Copies of the words.
pub(crate) fn list_words(alloc: Global, words: &[&[u8]]) -> Result<Vec<Vec<u8>>, AllocError>
    ensures { IfOk result (AreCopies words.now) }
{
    let mut list = Vec::new(alloc);
    for word in words {
        list.push(Vec::from_slice(alloc, word)?)?;
    }
    Ok(list)
}

pub(crate) fn tie_names(alloc: Global) -> Result<Names, AllocError>
    ensures { IfOk result (λ n. n ≡ tie_names) }
{
    let nodes = list_words(alloc, &[b"D", b"U"])?;
    let mut labels = Vec::new(alloc);
    labels.push(list_words(alloc, &[b"x", b"y"])?)?;
    labels.push(Vec::new(alloc))?;
    let agents = list_words(alloc, &[b"agent"])?;
    Ok(Names::from_lists(nodes, labels, agents))
}
