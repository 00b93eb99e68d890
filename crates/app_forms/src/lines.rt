//! The lines that go to `err`.

ghost use Rattle.std.specs.Prelude.{◌≡◌, ◌++◌, ◌<◌, IfOk, IfSome, length};
ghost use Rattle.maid_model.specs.Reports.{line};
ghost use Rattle.app_forms.specs.Lines.{fault_line, too_large_line, unknown_row_line, impossible_line, profiles_line, no_equilibrium_line, rounds_line, leaves_line, bad_line_line, bound_line};

use app_lines::place;
use line_pieces::Piece::{Number, Text};
use line_pieces::joined;
use maid_model::Names;
use std::alloc::{AllocError, Global};

/// The line for words that are of no form.
pub const USAGE: &str =
    "usage: maidsolve solve F | check F R | graph F | print F | trim F | info F A | control F A | demo K | pure F | update F | given F X S | threshold F X ROW STATE\n";

/// The line where `out` couldn't be written.
pub const WRITE_FAULT: &str = "write fault\n";

/// The line where memory ran out.
pub const NO_MEMORY: &str = "no memory\n";

/// The line of these two pieces.
pub fn told<'a>(alloc: Global, head: &'a [u8], name: &'a [u8]) -> Result<Vec<u8>, AllocError>
    ensures { IfOk result (λ text. text.items ≡ line (head.now ++ name.now)) }
{
    joined(alloc, &[Text(head), Text(name), Text(b"\n")])
}

/// The line of a run that is too large: the most cells of one of its plans, and the work of all.
pub fn too_large(alloc: Global, cells: u128, work: u128) -> Result<Vec<u8>, AllocError>
    ensures { IfOk result (λ text. text.items ≡ too_large_line cells work) }
{
    joined(
        alloc,
        &[
            Text(b"too large: cells "),
            Number(cells),
            Text(b" work "),
            Number(work),
            Text(b"\n"),
        ],
    )
}

/// The line of a row that a table has not, counted from 1.
pub fn unknown_row(alloc: Global, row: usize) -> Result<Vec<u8>, AllocError>
    ensures { IfOk result (λ text. text.items ≡ unknown_row_line row) }
{
    joined(
        alloc,
        &[Text(b"unknown row: "), Number(row as u128), Text(b"\n")],
    )
}

/// The line of evidence without weight: the node's name, and the state's label.
pub fn impossible<'a>(alloc: Global, node: &'a [u8], state: &'a [u8]) -> Result<Vec<u8>, AllocError>
    ensures { IfOk result (λ text. text.items ≡ impossible_line node.now state.now) }
{
    joined(
        alloc,
        &[
            Text(b"impossible: "),
            Text(node),
            Text(b" "),
            Text(state),
            Text(b"\n"),
        ],
    )
}

/// The line of a diagram of so many pure profiles and leaves that no equilibrium is looked for.
pub fn too_many_profiles(alloc: Global, profiles: u128, leaves: u128) -> Result<Vec<u8>, AllocError>
    ensures { IfOk result (λ text. text.items ≡ profiles_line profiles leaves) }
{
    joined(
        alloc,
        &[
            Text(b"too large: profiles "),
            Number(profiles),
            Text(b" leaves "),
            Number(leaves),
            Text(b"\n"),
        ],
    )
}

/// The line of a diagram whose pure profiles are so many, and none an equilibrium.
pub fn no_equilibrium(alloc: Global, profiles: u128) -> Result<Vec<u8>, AllocError>
    ensures { IfOk result (λ text. text.items ≡ no_equilibrium_line profiles) }
{
    joined(
        alloc,
        &[
            Text(b"no pure equilibrium: "),
            Number(profiles),
            Text(b" profiles\n"),
        ],
    )
}

/// The line of an update of which so many rounds raised.
pub fn rounds_spent(alloc: Global, rounds: u64) -> Result<Vec<u8>, AllocError>
    ensures { IfOk result (λ text. text.items ≡ rounds_line rounds) }
{
    joined(
        alloc,
        &[Text(b"rounds spent: "), Number(rounds as u128), Text(b"\n")],
    )
}

/// The line of a diagram of so many leaves that no report of it is looked at.
pub fn too_many_leaves(alloc: Global, leaves: u128) -> Result<Vec<u8>, AllocError>
    ensures { IfOk result (λ text. text.items ≡ leaves_line leaves) }
{
    joined(
        alloc,
        &[Text(b"too large: leaves "), Number(leaves), Text(b"\n")],
    )
}

/// The line of a diagram that passes the weight bound: the node at which it does, or that its
/// utilities do.
pub fn weight_bound(
    alloc: Global,
    names: &Names,
    node: Option<usize>,
) -> Result<Vec<u8>, AllocError>
    requires { IfSome node (λ v. v < length names.now.nodes) }
    ensures { IfOk result (λ text. text.items ≡ bound_line names.now node) }
{
    match node {
        Some(v) => told(alloc, b"weight bound: node ", names.name(v)),
        None => told(alloc, b"weight bound: utilities", b""),
    }
}

/// The line of a report's first bad line, which is counted from 1.
pub fn bad_line(alloc: Global, name: &[u8], at: usize) -> Result<Vec<u8>, AllocError>
    ensures { IfOk result (λ text. text.items ≡ bad_line_line name.now at) }
{
    joined(
        alloc,
        &[
            Text(name),
            Text(b":"),
            Number(at as u128),
            Text(b": bad line\n"),
        ],
    )
}

/// The line of a fault of the file's bytes: the file, the line and the column of the place, and
/// what is wrong there. A place behind the bytes is their end.
pub fn fault<'a>(
    alloc: Global,
    name: &'a [u8],
    bytes: &[u8],
    at: usize,
    words: &'a [u8],
) -> Result<Vec<u8>, AllocError>
    ensures { IfOk result (λ text. text.items ≡ fault_line name.now bytes.now at words.now) }
{
    let (line, column) = place(bytes, at.min(bytes.len()));
    joined(
        alloc,
        &[
            Text(name),
            Text(b":"),
            Number(line as u128),
            Text(b":"),
            Number(column as u128),
            Text(b": "),
            Text(words),
            Text(b"\n"),
        ],
    )
}
