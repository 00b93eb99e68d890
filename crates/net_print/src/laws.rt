//! Laws of printed texts, over the definitions alone.

ghost use Rattle.net_print.specs.RoundTrip.{RoundTrip, CommentedRoundTrip};

/// The printed text of a diagram, whose names have the form of names in a text, has a list of
/// tokens; they spell a tree, no pass finds a fault in it, and it stands for the very same diagram
/// and names.
pub fn printed_texts_read_back()
    ensures { RoundTrip }
{}

/// So it is with comment lines before the printed text: they are read over, and the text stands for
/// the very same diagram and names.
pub fn commented_texts_read_back()
    ensures { CommentedRoundTrip }
{}
