//! What the words come to where each row is a test.

ghost use Rattle.first_fault.specs.Tables.{FindsTheFirst, FindsNoRepeat, FindsTheRepeat, CountsWhere, LooksAtTheValue, FindsAlways, TellsTheFirst, AnswersWithoutFault, StagesInTurn, ResultsTell, TablesAreCovered, TablesAreExclusive, TablesHaveOneFault, StagesEndAlike};

/// A table finds the fault of the first row whose test holds, and nothing where none does.
pub fn a_table_finds_its_first_fault()
    ensures first { FindsTheFirst }
    ensures always { FindsAlways }
    ensures only { CountsWhere }
    ensures over { LooksAtTheValue }
{}

/// A table finds nothing or a fault, never both, and one fault at most.
pub fn a_table_has_one_outcome()
    ensures covered { TablesAreCovered }
    ensures exclusive { TablesAreExclusive }
    ensures one_fault { TablesHaveOneFault }
{}

/// Where each item sees those before it, the first repeat is found.
pub fn repeats_are_found_in_turn()
    ensures none { FindsNoRepeat }
    ensures first { FindsTheRepeat }
{}

/// What code answers of a table: there is an answer where no test holds, and an error tells the
/// first fault or want of memory.
pub fn answers_tell_the_first_fault()
    ensures err { TellsTheFirst }
    ensures ok { AnswersWithoutFault }
{}

/// Stages end with the first fault of theirs, or with what they lead to.
pub fn stages_come_in_turn()
    ensures outcome { StagesInTurn }
    ensures one { StagesEndAlike }
    ensures results { ResultsTell }
{}
