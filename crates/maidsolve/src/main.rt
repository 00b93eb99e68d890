//! Solves influence diagrams: [`maid_app::run`] over the system's files, words and streams.
#![tactic(auto)]

use maid_app::{Status, lines, run};
use maid_io::{DirShelf, WriteSink, write_all};
use std::io::ErrorKind;
use std::process::ExitCode;
use std::rt::Env;
use std::{env, io};

// The words after the program's name.
fn words(rt: &(impl Env + AllocGlobal)) -> io::Result<Vec<String>> {
    let mut words = Vec::new(rt.alloc());
    for word in env::args(rt)?.skip(1) {
        words.push(word)?;
    }
    Ok(words)
}

fn main(rt: HostRuntime) -> ExitCode {
    let mut err = WriteSink::new(rt.stderr());
    let words = match words(&rt) {
        Ok(words) => words,
        Err(error) => {
            let (line, status) = match error.kind() {
                ErrorKind::OutOfMemory => (lines::NO_MEMORY, Status::NoMemory),
                _ => (lines::USAGE, Status::Usage),
            };
            let _ = write_all(&mut err, line.as_bytes());
            return ExitCode::from(status.code());
        }
    };
    let mut shelf = DirShelf::new(&rt);
    let mut out = WriteSink::new(rt.stdout());
    let status = run(rt.alloc(), &words, &mut shelf, &mut out, &mut err);
    ExitCode::from(status.code())
}
