//! Tests of `net_print`: small diagrams, printed.

use crate::building::built;
use net_print::print;
use std::alloc::Global;
use std::test::Fail;

const THIRDS: &str = "node A { states = (\"x\" \"y\" \"z\"); }
node B { states = (\"u\" \"v\"); }
potential (A) { data = (0.333333 0.333333 0.333333); }
potential (B | A) { data = ((0.3 0.7) (0.333333 0.666667) (1 0)); }
";

const PRINTED_THIRDS: &str = "node A { states = (\"x\" \"y\" \"z\"); }
node B { states = (\"u\" \"v\"); }
potential (A) { data = (1 1 1); }
potential (B | A) { data = (3 7 333333 666667 1 0); }
";

// Escapes, an agent that isn't named, values with and without decimals, and potentials in another
// order.
const MIXED: &str = "utility U { agent = \"A\\\\\"; } node C { states = (\"a\\\"\" \"b\"); }
potential (C) { data = (2 6); } potential (U | C) { data = (0.50 -1.25); }
decision D { states = (\"l\"); } utility V { } potential (V | C) { data = (-30 1e1); }";

const PRINTED_MIXED: &str = "utility U { agent = \"A\\\\\"; }
node C { states = (\"a\\\"\" \"b\"); }
decision D { states = (\"l\"); agent = \"agent\"; }
utility V { agent = \"agent\"; }
potential (U | C) { data = (0.5 -1.25); }
potential (C) { data = (1 3); }
potential (D) { }
potential (V | C) { data = (-30 10); }
";

// Each row has a text, and the text that its diagram is printed as.
const ROWS: &[(&str, &str)] = &[
    (THIRDS, PRINTED_THIRDS),
    (PRINTED_THIRDS, PRINTED_THIRDS),
    (MIXED, PRINTED_MIXED),
    (PRINTED_MIXED, PRINTED_MIXED),
];

// The text of the diagram that the text stands for.
fn printed(alloc: Global, text: &str) -> Result<Vec<u8>, Fail> {
    let (diagram, names) = built(alloc, text)?;
    Ok(print(alloc, &diagram, &names)?)
}

#[test]
fn texts_are_printed(rt: HostRuntime) -> Result<(), Fail> {
    for &(text, want) in ROWS {
        let out = printed(rt.alloc(), text)?;
        assert_eq!(rt; out.as_slice(), want.as_bytes());
    }
    Ok(())
}
