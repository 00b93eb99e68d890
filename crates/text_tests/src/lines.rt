//! Tests of `app_lines`: places in a small text, lines of short lists, and generated texts.

use crate::samples::{list_words, tie_diagram, tie_names};
use app_lines::{choice_lines, demo_text, gain_lines, place};
use maid_model::{Answer, Names, Ratio, Row};
use std::alloc::{AllocError, Global};
use std::test::Fail;

// Each row has a place in the text, and its line and column.
const PLACES: &[(usize, (usize, usize))] = &[
    (0, (1, 1)),
    (2, (1, 3)),
    (3, (2, 1)),
    (4, (3, 1)),
    (6, (3, 3)),
];

#[test]
fn lines_and_columns(rt: HostRuntime) {
    for &(at, want) in PLACES {
        assert_eq!(rt; place(b"ab\n\ncd", at), want, "{at}");
    }
}

// The lines of two agents, one of whom has quotes in the name.
fn two_gains(alloc: Global) -> Result<Vec<u8>, AllocError> {
    let agents = list_words(alloc, &[b"A", b"\"B\""])?;
    let names = Names::from_lists(Vec::new(alloc), Vec::new(alloc), agents);
    let gains = [Ratio { num: -3, den: 1 }, Ratio { num: 5, den: 4 }];
    gain_lines(alloc, &names, &gains)
}

#[test]
fn an_agent_a_line(rt: HostRuntime) -> Result<(), Fail> {
    let text = two_gains(rt.alloc())?;
    assert_eq!(rt;
        text.as_slice(),
        b"agent \"A\" = -3\nagent \"\\\"B\\\"\" = 5/4\n".as_slice()
    );
    Ok(())
}

const ONE_STAGE: &str = "node X0 { states = (\"s1\" \"s2\"); }
decision D0 { states = (\"stay\" \"flip\"); agent = \"agent\"; }
utility U0 { agent = \"agent\"; }
potential (X0) { data = (1 1); }
potential (D0 | X0) { }
potential (U0 | X0) { data = (1 0); }
";

const TWO_STAGES: &str = "node X0 { states = (\"s1\" \"s2\"); }
decision D0 { states = (\"stay\" \"flip\"); agent = \"agent\"; }
utility U0 { agent = \"agent\"; }
node X1 { states = (\"s1\" \"s2\"); }
decision D1 { states = (\"stay\" \"flip\"); agent = \"agent\"; }
utility U1 { agent = \"agent\"; }
potential (X0) { data = (1 1); }
potential (D0 | X0) { }
potential (U0 | X0) { data = (1 0); }
potential (X1 | X0 D0) { data = (1 0 1 1 0 1 1 1); }
potential (D1 | X1) { }
potential (U1 | X1) { data = (1 0); }
";

// Each row has a count of stages, and the text with so many.
const GENERATED: &[(usize, &str)] = &[(1, ONE_STAGE), (2, TWO_STAGES)];

#[test]
fn generated_texts(rt: HostRuntime) -> Result<(), Fail> {
    for &(k, want) in GENERATED {
        let text = demo_text(rt.alloc(), k)?;
        assert_eq!(rt; text.as_slice(), want.as_bytes(), "{k}");
    }
    Ok(())
}

// The lines of the second choice in the diagram with a tie, which is worth 5.
fn one_choice(alloc: Global) -> Result<Vec<u8>, AllocError> {
    let diagram = tie_diagram(alloc)?;
    let names = tie_names(alloc)?;
    let row = Row {
        choice: 1,
        worth: Some(Ratio { num: 5, den: 1 }),
    };
    let rows = [row].to_vec(alloc)?;
    let answers = [Answer { decision: 0, rows }];
    choice_lines(alloc, &diagram, &names, &answers)
}

// The worth is not told.
#[test]
fn a_choice_a_line(rt: HostRuntime) -> Result<(), Fail> {
    let text = one_choice(rt.alloc())?;
    assert_eq!(rt;
        text.as_slice(),
        b"decision D by \"agent\" sees\nrow 1: -> 2 \"y\"\n".as_slice()
    );
    Ok(())
}
