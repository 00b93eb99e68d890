//! Laws of token lists and faults, over the definitions alone.

ghost use Rattle.net_lexer.specs.Laws.{Covered, Exclusive, OneList, OneFault, EachToken, InOrder};

/// Each text has a token list or a fault, never both, and only one of either.
pub fn every_text_reads_one_way()
    ensures covered { Covered }
    ensures exclusive { Exclusive }
    ensures one_list { OneList }
    ensures one_fault { OneFault }
{}

/// The tokens of a text's list are tokens of the text, and each ends before the next one begins.
pub fn tokens_stand_in_their_text()
    ensures tokens { EachToken }
    ensures in_order { InOrder }
{}
