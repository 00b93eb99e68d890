//! Runs over devices in memory.

ghost use Rattle.std.specs.Prelude.{◌≤◌};

use maid_app::{Status, lines, run};
use maid_io::{MemShelf, MemSink};
use std::alloc::{AllocError, Global};
use std::test::Fail;

// A driver sees which way the road bends, and steers.
const STEER: &str = "node X { states = (\"p\" \"q\"); }
decision D { states = (\"l\" \"r\"); }
utility U { }
potential (X) { data = (1 1); }
potential (D | X) { }
potential (U | X D) { data = (3 0 0 1); }
";

pub const REPORT: &str = "maidsolve report 1
order: D
decision D by \"agent\" sees X
row 1: \"p\" -> 1 \"l\" = 3
row 2: \"q\" -> 2 \"r\" = 1
agent \"agent\" = 2
";

// He steers to the wrong side where it bends to q.
const WORSE_REPORT: &str = "maidsolve report 1
order: D
decision D by \"agent\" sees X
row 1: \"p\" -> 1 \"l\" = 3
row 2: \"q\" -> 1 \"l\" = 0
agent \"agent\" = 3/2
";

// The same where the road never bends to p.
const NEVER: &str = "node X { states = (\"p\" \"q\"); }
decision D { states = (\"l\" \"r\"); }
utility U { }
potential (X) { data = (0 2); }
potential (D | X) { }
potential (U | X D) { data = (3 0 0 1); }
";

const NEVER_REPORT: &str = "maidsolve report 1
order: D
decision D by \"agent\" sees X
row 1: \"p\" -> 1 \"l\" never
row 2: \"q\" -> 2 \"r\" = 1
agent \"agent\" = 1
";

// A leader and a follower.
const LEAD: &str = "decision Leader { states = (\"a\" \"b\"); agent = \"A\"; }
decision Follower { states = (\"x\" \"y\"); agent = \"B\"; }
utility UA { agent = \"A\"; }
utility UB { agent = \"B\"; }
potential (Follower | Leader) { }
potential (UA | Leader Follower) { data = (2 0 3 1); }
potential (UB | Leader Follower) { data = (1 0 0 1); }
";

const LEAD_REPORT: &str = "maidsolve report 1
order: Follower Leader
decision Follower by \"B\" sees Leader
row 1: \"a\" -> 1 \"x\" = 1
row 2: \"b\" -> 2 \"y\" = 1
decision Leader by \"A\" sees
row 1: -> 1 \"a\" = 2
agent \"A\" = 2
agent \"B\" = 1
";

const LEAD_GRAPH: &str = "relies Leader: Follower\nrelies Follower:\norder: Follower Leader\n";

// Two agents who choose at the same time.
const PENNIES: &str = "decision P { states = (\"h\" \"t\"); agent = \"A\"; }
decision Q { states = (\"h\" \"t\"); agent = \"B\"; }
utility UA { agent = \"A\"; }
utility UB { agent = \"B\"; }
potential (UA | P Q) { data = (1 -1 -1 1); }
potential (UB | P Q) { data = (-1 1 1 -1); }
";

const PENNIES_GRAPH: &str = "relies P: Q\nrelies Q: P\ncycle: P Q\n";

// Rows in proportion.
const THIRDS: &str = "node A { states = (\"x\" \"y\" \"z\"); }
node B { states = (\"u\" \"v\"); }
potential (A) { data = (0.333333 0.333333 0.333333); }
potential (B | A) { data = ((0.3 0.7) (0.333333 0.666667) (1 0)); }
";

const THIRDS_PRINT: &str = "node A { states = (\"x\" \"y\" \"z\"); }
node B { states = (\"u\" \"v\"); }
potential (A) { data = (1 1 1); }
potential (B | A) { data = (3 7 333333 666667 1 0); }
";

// The first decision needs the node X only as long as the second one tells of it.
const ARCS: &str = "decision D0 { states = (\"a\" \"b\"); }
decision D1 { states = (\"a\" \"b\"); }
node X { states = (\"p\" \"q\"); }
utility U { }
potential (D0 | X) { }
potential (D1 | X D0) { }
potential (X) { data = (1 1); }
potential (U | D0 D1) { data = (0 3 2 1); }
";

const ARCS_TRIM: &str = "% removed X -> D1
% removed X -> D0
decision D0 { states = (\"a\" \"b\"); agent = \"agent\"; }
decision D1 { states = (\"a\" \"b\"); agent = \"agent\"; }
node X { states = (\"p\" \"q\"); }
utility U { agent = \"agent\"; }
potential (D0) { }
potential (D1 | D0) { }
potential (X) { data = (1 1); }
potential (U | D0 D1) { data = (0 3 2 1); }
";

const ZERO: &str = "node A { states = (\"x\" \"y\"); } potential (A) { data = (0 0); }";

const RING: &str =
    "node A { states = (\"x\"); } node B { states = (\"x\"); } potential (A | B) { data = (1); } potential (B | A) { data = (1); }";

const DEMO_1: &str = "demo 1\nnodes 3\nagent \"agent\" = 1/2\n";

const DEMO_2: &str = "demo 2\nnodes 6\nagent \"agent\" = 5/4\n";

const DEMO_60: &str =
    "demo 60\nnodes 180\nagent \"agent\" = 68022368771803971585/1152921504606846976\n";

// The words, the call of the shelf that fails, where one does, and the text that `out` takes.
const WRITTEN: [(&str, u64, &str); 11] = [
    ("solve steer.net", 0, REPORT),
    ("solve never.net", 0, NEVER_REPORT),
    ("solve lead.net", 0, LEAD_REPORT),
    ("graph lead.net", 0, LEAD_GRAPH),
    ("graph pennies.net", 0, PENNIES_GRAPH),
    ("print thirds.net", 0, THIRDS_PRINT),
    ("trim arcs.net", 0, ARCS_TRIM),
    ("check steer.net steer.rep", 0, "accepted\n"),
    ("demo 1", 1, DEMO_1),
    ("demo 2", 1, DEMO_2),
    ("demo 60", 1, DEMO_60),
];

// Reports that are no answers, and the line that says where.
const REJECTED: [(&str, &str); 2] = [
    ("check steer.net worse.rep", "rejected line 5: choice\n"),
    ("check never.net steer.rep", "rejected line 4: never\n"),
];

// Words of no form.
const FORMLESS: [&str; 11] = [
    "check steer.net",
    "demo",
    "demo 0",
    "demo 61",
    "demo 01",
    "demo +1",
    "demo x",
    "demo 100",
    "demo 1 2",
    "",
    "--help",
];

// The words, the call of the shelf that fails, where one does, the status, and the line that `err`
// takes.
const TOLD: [(&str, u64, Status, &str); 9] = [
    (
        "solve pennies.net",
        0,
        Status::Cycle,
        "relevance cycle: P Q\n",
    ),
    (
        "check arcs.net steer.rep",
        0,
        Status::TextFault,
        "steer.rep:2: bad line\n",
    ),
    (
        "check steer.net gone.rep",
        0,
        Status::Absent,
        "absent: gone.rep\n",
    ),
    ("solve gone.net", 0, Status::Absent, "absent: gone.net\n"),
    (
        "solve steer.net",
        1,
        Status::ReadFault,
        "read fault: steer.net\n",
    ),
    (
        "solve steer.net",
        2,
        Status::ReadFault,
        "read fault: steer.net\n",
    ),
    (
        "solve open.net",
        0,
        Status::TextFault,
        "open.net:2:6: open string\n",
    ),
    (
        "graph zero.net",
        0,
        Status::TextFault,
        "zero.net:1:56: zero row\n",
    ),
    (
        "solve ring.net",
        0,
        Status::TextFault,
        "ring.net:1:6: graph cycle: A B\n",
    ),
];

// The codes of the statuses above.
const CODES: [(Status, u8); 8] = [
    (Status::Done, 0),
    (Status::Usage, 1),
    (Status::Absent, 2),
    (Status::ReadFault, 3),
    (Status::TextFault, 5),
    (Status::Cycle, 6),
    (Status::WriteFault, 9),
    (Status::Rejected, 11),
];

// The files of the shelf.
const FILES: [(&str, &str); 11] = [
    ("steer.net", STEER),
    ("never.net", NEVER),
    ("lead.net", LEAD),
    ("pennies.net", PENNIES),
    ("thirds.net", THIRDS),
    ("arcs.net", ARCS),
    ("zero.net", ZERO),
    ("ring.net", RING),
    ("open.net", "net {\n a = \"b"),
    ("steer.rep", REPORT),
    ("worse.rep", WORSE_REPORT),
];

// How a run ended, and what `out` and `err` took.
#[derive(Drop)]
pub struct Ending {
    pub status: Status,
    out: MemSink,
    err: MemSink,
}

impl Ending {
    // The bytes that `out` took.
    pub fn out(&self) -> &[u8] {
        self.out.bytes()
    }

    // The bytes that `err` took.
    pub fn err(&self) -> &[u8] {
        self.err.bytes()
    }

    // Whether it ended with this status, and `out` and `err` took these bytes.
    pub fn is(&self, status: Status, out: &[u8], err: &[u8]) -> bool {
        self.status == status && self.out() == out && self.err() == err
    }
}

// The file of that name with this text.
fn file(alloc: Global, name: &str, text: &[u8]) -> Result<(String, Vec<u8>), AllocError> {
    Ok((name.to_string(alloc)?, text.to_vec(alloc)?))
}

// The files of the shelf.
fn files(alloc: Global) -> Result<Vec<(String, Vec<u8>)>, AllocError> {
    let mut files = Vec::new(alloc);
    for (name, text) in &FILES {
        files.push(file(alloc, name, text.as_bytes())?)?;
    }
    Ok(files)
}

// The words between the spaces.
fn list_of(alloc: Global, words: &str) -> Result<Vec<String>, AllocError> {
    let mut list = Vec::new(alloc);
    for word in words.split_whitespace() {
        list.push(word.to_string(alloc)?)?;
    }
    Ok(list)
}

// A sink of so much room, which takes at most `piece` bytes a write and fails at that call.
fn sink(alloc: Global, room: usize, call: u64, piece: usize) -> Result<MemSink, AllocError>
    requires { 1 ≤ piece }
{
    MemSink::new(alloc, room, vec![in alloc; call]?, piece)
}

// Runs the words over a shelf of these files that gives 50 bytes a read at most, an `out` with so
// much room that takes ten a write, and an `err` that takes seven. Of each the call of that number
// fails.
fn ended_over(
    alloc: Global,
    words: &str,
    files: Vec<(String, Vec<u8>)>,
    [shelf_call, out_call, err_call]: [u64; 3],
    room: usize,
) -> Result<Ending, AllocError> {
    let mut shelf = MemShelf::new(files, vec![in alloc; shelf_call]?, 50);
    let mut out = sink(alloc, room, out_call, 10)?;
    let mut err = sink(alloc, 200, err_call, 7)?;
    let list = list_of(alloc, words)?;
    let status = status_of(alloc, &list, &mut shelf, &mut out, &mut err);
    Ok(Ending { status, out, err })
}

// The status of the run. What else `run` promises of it is of no use here.
fn status_of(
    alloc: Global,
    words: &[String],
    shelf: &mut MemShelf,
    out: &mut MemSink,
    err: &mut MemSink,
) -> Status {
    run(alloc, words, shelf, out, err)
}

// The same over the files above.
pub fn ended(
    alloc: Global,
    words: &str,
    calls: [u64; 3],
    room: usize,
) -> Result<Ending, AllocError> {
    ended_over(alloc, words, files(alloc)?, calls, room)
}

// Whether the run ends so, where that call of the shelf fails and `out` has room for 400 bytes.
fn ends(
    alloc: Global,
    words: &str,
    call: u64,
    status: Status,
    out: &str,
    err: &str,
) -> Result<bool, AllocError> {
    let end = ended(alloc, words, [call, 0, 0], 400)?;
    Ok(end.is(status, out.as_bytes(), err.as_bytes()))
}

// Whether a run over a file of this text tells a fault of the text.
fn is_refused(alloc: Global, text: &[u8]) -> Result<bool, AllocError> {
    let mut files = Vec::new(alloc);
    files.push(file(alloc, "cut.net", text)?)?;
    let end = ended_over(alloc, "solve cut.net", files, [0, 0, 0], 400)?;
    Ok(
        end.status == Status::TextFault
            && end.out().is_empty()
            && end.err().starts_with("cut.net:".as_bytes()),
    )
}

// The text of the generated diagram of K stages: they are worth K - 1 + 2^-K.
fn demo_of(alloc: Global, k: u32) -> Result<String, AllocError>
    requires low { 1 ≤ k }
    requires high { k ≤ 60 }
{
    let whole = 1u128 << k;
    format!(in alloc;
        "demo {k}\nnodes {}\nagent \"agent\" = {}/{whole}\n",
        3 * k,
        u128::from(k - 1) * whole + 1
    )
}

// Whether the generated diagram of K stages is solved.
fn is_solved(alloc: Global, k: u32) -> Result<bool, AllocError>
    requires low { 1 ≤ k }
    requires high { k ≤ 60 }
{
    let words = format!(in alloc; "demo {k}")?;
    let want = demo_of(alloc, k)?;
    ends(alloc, &words, 1, Status::Done, &want, "")
}

#[test]
fn texts_are_written(rt: HostRuntime) -> Result<(), Fail> {
    for (words, call, text) in &WRITTEN {
        assert!(rt;
            ends(rt.alloc(), words, *call, Status::Done, text, "")?,
            "{words}"
        );
    }
    Ok(())
}

#[test]
fn reports_are_rejected(rt: HostRuntime) -> Result<(), Fail> {
    for (words, text) in &REJECTED {
        assert!(rt;
            ends(rt.alloc(), words, 0, Status::Rejected, text, "")?,
            "{words}"
        );
    }
    Ok(())
}

#[test]
fn words_of_no_form_are_refused(rt: HostRuntime) -> Result<(), Fail> {
    for words in &FORMLESS {
        assert!(rt;
            ends(rt.alloc(), words, 0, Status::Usage, "", lines::USAGE)?,
            "{words}"
        );
    }
    Ok(())
}

#[test]
fn faults_are_told(rt: HostRuntime) -> Result<(), Fail> {
    for (words, call, status, line) in &TOLD {
        assert!(rt;
            ends(rt.alloc(), words, *call, *status, "", line)?,
            "{words} {call}"
        );
    }
    Ok(())
}

// `out` has room for ten bytes.
#[test]
fn a_report_is_cut_off(rt: HostRuntime) -> Result<(), Fail> {
    let end = ended(rt.alloc(), "solve steer.net", [0, 0, 0], 10)?;
    let taken = "maidsolve ".as_bytes();
    assert!(rt; end.is(Status::WriteFault, taken, "write fault\n".as_bytes()));
    Ok(())
}

#[test]
fn statuses_have_their_codes(rt: HostRuntime) {
    for (status, code) in &CODES {
        assert!(rt; status.code() == *code, "{code}");
    }
}

// A text that is cut short anywhere is refused: it ends within a block, or a node has no table yet.
#[test]
fn each_beginning_of_a_text_is_refused(rt: HostRuntime) -> Result<(), Fail> {
    let text = STEER.trim_end().as_bytes();
    for length in 1..text.len() {
        assert!(rt; is_refused(rt.alloc(), &text[..length])?, "{length}");
    }
    Ok(())
}

// None of the generated texts is refused.
#[test]
fn each_generated_diagram_is_solved(rt: HostRuntime) -> Result<(), Fail> {
    for k in 1..61u32 {
        assert!(rt; is_solved(rt.alloc(), k)?, "{k}");
    }
    Ok(())
}
