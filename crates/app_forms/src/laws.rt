//! Laws of what comes of a file's bytes.

ghost use Rattle.app_forms.specs.Laws.{OneStatus, ClearOrRefused, RefusedAsBytes, WrittenAsText, ClearIfAnswered, TextOrFault};

use net_build::{a_tree_has_a_fault_or_none, a_tree_stands_for_one_diagram};
use net_lexer::every_text_reads_one_way;
use net_parser::tokens_read_one_way;
use report_text::reports_read_one_way;
use tree_checker::verdicts_are_one;

/// A request's bytes come to one status, and they are refused only where a stage finds something.
pub fn one_status()
    ensures one { OneStatus }
    ensures clear { ClearOrRefused }
{
    every_text_reads_one_way();
    tokens_read_one_way();
    a_tree_has_a_fault_or_none();
    a_tree_stands_for_one_diagram();
    reports_read_one_way();
    verdicts_are_one();
}

/// A request's bytes are refused with a status of bytes, and what is written for them has that of a
/// run that is done or of a verdict.
pub fn outcomes_have_their_statuses()
    ensures refused { RefusedAsBytes }
    ensures written { WrittenAsText }
{}

/// No stage finds anything in bytes that stand for a diagram which the request can answer.
pub fn answered_diagrams_are_clear()
    ensures { ClearIfAnswered }
{}

/// The bytes of a file stand for a diagram, or have a fault that is told.
pub fn a_text_has_a_diagram_or_a_fault()
    ensures { TextOrFault }
{
    every_text_reads_one_way();
    tokens_read_one_way();
    a_tree_has_a_fault_or_none();
    a_tree_stands_for_one_diagram();
}
