//! Devices that fail at one call, for each form of words: what was taken before it stands, and a
//! later call changes nothing.

use crate::running::{REPORT, ended};
use maid_app::{Status, lines};
use std::alloc::{AllocError, Global};
use std::test::Fail;

// A run of each form that ends well, and at how many calls of the shelf: a start, four reads of the
// diagram and one that gives nothing; for a check five more for the report, since it has three
// reads.
const RUNS: [(&str, u64); 12] = [
    ("solve steer.net", 6),
    ("graph steer.net", 6),
    ("print steer.net", 6),
    ("trim steer.net", 6),
    ("info steer.net agent", 6),
    ("control steer.net agent", 6),
    ("pure steer.net", 6),
    ("update steer.net", 6),
    ("given steer.net X p", 6),
    ("threshold steer.net X 1 p", 6),
    ("check steer.net steer.rep", 11),
    ("demo 2", 0),
];

// The same forms, each of a file that is not there; `demo`, which reads none, has a count that it
// refuses.
const REFUSED: [(&str, Status, &str); 12] = [
    ("solve gone.net", Status::Absent, ABSENT),
    ("graph gone.net", Status::Absent, ABSENT),
    ("print gone.net", Status::Absent, ABSENT),
    ("trim gone.net", Status::Absent, ABSENT),
    ("info gone.net agent", Status::Absent, ABSENT),
    ("control gone.net agent", Status::Absent, ABSENT),
    ("pure gone.net", Status::Absent, ABSENT),
    ("update gone.net", Status::Absent, ABSENT),
    ("given gone.net X p", Status::Absent, ABSENT),
    ("threshold gone.net X 1 p", Status::Absent, ABSENT),
    ("check gone.net steer.rep", Status::Absent, ABSENT),
    ("demo 61", Status::Usage, lines::USAGE),
];

const ABSENT: &str = "absent: gone.net\n";

// The room of `out`: all that any of the runs writes.
const ROOM: usize = 1000;

// Whether the run ends well with this text: it makes no call of these numbers.
fn ends_well(alloc: Global, words: &str, calls: [u64; 3], text: &[u8]) -> Result<bool, AllocError> {
    Ok(ended(alloc, words, calls, ROOM)?.is(Status::Done, text, &[]))
}

// Whether the run tells a read fault where this call of the shelf fails, and writes no text.
fn tells_the_read(alloc: Global, words: &str, call: u64) -> Result<bool, AllocError> {
    let line = if call < 7 {
        "read fault: steer.net\n"
    } else {
        "read fault: steer.rep\n"
    };
    let end = ended(alloc, words, [call, 0, 0], ROOM)?;
    Ok(end.is(Status::ReadFault, &[], line.as_bytes()))
}

// Whether the run tells a write fault where this call of `out` fails, which has taken ten bytes at
// each one before.
fn tells_the_write(
    alloc: Global,
    words: &str,
    call: usize,
    text: &[u8],
) -> Result<bool, AllocError> {
    let end = ended(alloc, words, [0, call as u64, 0], ROOM)?;
    let taken = call.saturating_sub(1).saturating_mul(10);
    Ok(
        end.status == Status::WriteFault
            && end.out().len() == taken
            && text.starts_with(end.out())
            && end.err() == "write fault\n".as_bytes(),
    )
}

// Whether the run ends with this status and no text where this call of `err` fails, which has taken
// seven bytes of the line at each one before, or all of it.
fn keeps_the_status(
    alloc: Global,
    words: &str,
    call: usize,
    status: Status,
    line: &[u8],
) -> Result<bool, AllocError> {
    let end = ended(alloc, words, [0, 0, call as u64], ROOM)?;
    let taken = call.saturating_sub(1).saturating_mul(7).min(line.len());
    Ok(
        end.status == status
            && end.out().is_empty()
            && end.err().len() == taken
            && line.starts_with(end.err()),
    )
}

// The first call of the shelf whose failure the run does not tell, or the one after the last where
// that changes anything; 0 where the run does not end well of itself.
fn wrong_read(alloc: Global, words: &str, calls: u64) -> Result<Option<u64>, AllocError> {
    let whole = ended(alloc, words, [0, 0, 0], ROOM)?;
    if whole.status != Status::Done {
        return Ok(Some(0));
    }
    let after = calls.saturating_add(1);
    for call in 1..after {
        if !tells_the_read(alloc, words, call)? {
            return Ok(Some(call));
        }
    }
    let ends = ends_well(alloc, words, [after, 0, 0], whole.out())?;
    Ok(if ends { None } else { Some(after) })
}

#[test]
fn each_call_of_the_shelf_fails_in_turn(rt: HostRuntime) -> Result<(), Fail> {
    for (words, calls) in &RUNS {
        let wrong = wrong_read(rt.alloc(), words, *calls)?;
        assert!(rt; wrong.is_none(), "{words} {wrong:?}");
    }
    Ok(())
}

// The same for the calls of `out`.
fn wrong_write(alloc: Global, words: &str) -> Result<Option<usize>, AllocError> {
    let whole = ended(alloc, words, [0, 0, 0], ROOM)?;
    if whole.status != Status::Done {
        return Ok(Some(0));
    }
    let after = whole.out().len().div_ceil(10) + 1;
    for call in 1..after {
        if !tells_the_write(alloc, words, call, whole.out())? {
            return Ok(Some(call));
        }
    }
    let ends = ends_well(alloc, words, [0, after as u64, 0], whole.out())?;
    Ok(if ends { None } else { Some(after) })
}

// Ten bytes a write: the bytes before the call that fails have been taken, and no others.
#[test]
fn each_write_of_the_text_fails_in_turn(rt: HostRuntime) -> Result<(), Fail> {
    for (words, _) in &RUNS {
        let wrong = wrong_write(rt.alloc(), words)?;
        assert!(rt; wrong.is_none(), "{words} {wrong:?}");
    }
    Ok(())
}

// The first call of `err`, up to the one after the last, that does not keep the status where it
// fails.
fn wrong_line(
    alloc: Global,
    words: &str,
    status: Status,
    line: &[u8],
) -> Result<Option<usize>, AllocError> {
    for call in 1..line.len().div_ceil(7) + 2 {
        if !keeps_the_status(alloc, words, call, status, line)? {
            return Ok(Some(call));
        }
    }
    Ok(None)
}

// Seven bytes a write. The status stays what it is, and `out` is not touched.
#[test]
fn each_write_of_the_line_fails_in_turn(rt: HostRuntime) -> Result<(), Fail> {
    for (words, status, line) in &REFUSED {
        let wrong = wrong_line(rt.alloc(), words, *status, line.as_bytes())?;
        assert!(rt; wrong.is_none(), "{words} {wrong:?}");
    }
    Ok(())
}

// What was written before the fault is the report's own beginning.
#[test]
fn a_full_disk_has_the_beginning_of_the_report(rt: HostRuntime) -> Result<(), Fail> {
    let report = REPORT.as_bytes();
    for room in 0..report.len() {
        let end = ended(rt.alloc(), "solve steer.net", [0, 0, 0], room)?;
        let line = "write fault\n".as_bytes();
        assert!(rt; end.is(Status::WriteFault, &report[..room], line), "{room}");
    }
    Ok(())
}
