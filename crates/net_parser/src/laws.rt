//! Laws of trees and faults, over the definitions alone.

ghost use Rattle.net_parser.specs.Laws.{OneTree, Covered, Exclusive, OneFault, OwnBlocks};

use net_lexer::tokens_stand_in_their_text;

/// Tokens have a tree or a fault, never both, and only one of either.
pub fn tokens_read_one_way()
    ensures one_tree { OneTree }
    ensures covered { Covered }
    ensures exclusive { Exclusive }
    ensures one_fault { OneFault }
{}

/// The blocks that the tokens of a text spell are made of these tokens, with as many names as the
/// kind of block asks for.
pub fn blocks_stand_in_their_text()
    ensures blocks { OwnBlocks }
{
    tokens_stand_in_their_text();
}
