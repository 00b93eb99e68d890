//! Tests of `report_text`: a report read and printed back.

ghost use Rattle.maid_model.specs.Names.{NamesFit};
ghost use Rattle.report_text.specs.Reading.{AreTold};

use crate::samples::{tie_diagram, tie_names};
use maid_model::{Answer, Diagram, Names, Ratio, Row, Solved};
use report_text::{ReportFault, print_report, read_report};
use std::alloc::{AllocError, Global};
use std::test::Fail;

const REPORT: &[u8] =
    b"maidsolve report 1\norder: D\ndecision D by \"agent\" sees\nrow 1: -> 2 \"y\" = -5/2\nagent \"agent\" = 5\n";

// What the report says of the diagram with a tie.
fn read(alloc: Global, report: &[u8]) -> Result<Solved, Fail> {
    let diagram = tie_diagram(alloc)?;
    let names = tie_names(alloc)?;
    Ok(read_report(alloc, &diagram, &names, report)?)
}

// What the report says of that diagram, printed.
fn printed(alloc: Global, diagram: &Diagram, names: &Names, report: &[u8]) -> Result<Vec<u8>, Fail>
    requires fit { NamesFit diagram.now names.now }
    requires told { AreTold names.now }
{
    let solved = read_report(alloc, diagram, names, report)?;
    Ok(print_report(alloc, diagram, names, &solved)?)
}

// What the report says of the diagram with a tie, printed.
fn printed_back(alloc: Global, report: &[u8]) -> Result<Vec<u8>, Fail> {
    let diagram = tie_diagram(alloc)?;
    let names = tie_names(alloc)?;
    printed(alloc, &diagram, &names, report)
}

// Whether there is one answer, which has this row alone.
fn has_row(answers: &[Answer], row: Row) -> bool {
    if answers.len() != 1 {
        return false;
    }
    let answer = &answers[0];
    answer.rows.as_slice() == [row].as_slice()
}

#[test]
fn a_report_tells_its_order_rows_and_gains(rt: HostRuntime) -> Result<(), Fail> {
    let solved = read(rt.alloc(), REPORT)?;
    let row = Row {
        choice: 1,
        worth: Some(Ratio { num: -5, den: 2 }),
    };
    let gain = Ratio { num: 5, den: 1 };
    let told = [
        solved.order.as_slice() == [0].as_slice(),
        has_row(&solved.answers, row),
        solved.gains.as_slice() == [gain].as_slice(),
    ];
    assert_eq!(rt; told, [true, true, true]);
    Ok(())
}

#[test]
fn a_report_reads_back(rt: HostRuntime) -> Result<(), Fail> {
    let printed = printed_back(rt.alloc(), REPORT)?;
    assert_eq!(rt; printed.as_slice(), REPORT);
    Ok(())
}

// The bad line that the report is refused with, or 0.
fn bad_line(alloc: Global, report: &[u8]) -> Result<usize, AllocError> {
    let diagram = tie_diagram(alloc)?;
    let names = tie_names(alloc)?;
    match read_report(alloc, &diagram, &names, report) {
        Err(ReportFault::BadLine { line }) => Ok(line),
        Ok(_) | Err(ReportFault::NoMemory) => Ok(0),
    }
}

const BAD_REPORT: &[u8] =
    b"maidsolve report 1\norder: D\ndecision D by \"agent\" sees\nrow 1: -> 1 \"x\" never\nagent \"agent\" = 4/2\n";

#[test]
fn the_first_bad_line_is_told(rt: HostRuntime) -> Result<(), Fail> {
    assert_eq!(rt; bad_line(rt.alloc(), BAD_REPORT)?, 5);
    assert_eq!(rt; bad_line(rt.alloc(), &BAD_REPORT[..28])?, 3);
    Ok(())
}
