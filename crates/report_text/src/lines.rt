//! The lines of a text that are still to be read.

ghost use Rattle.std.specs.Prelude.{◌≡◌, ◌+◌, [], ◌↔◌, true, length, IsTrue, IfOk, IfErr};
ghost use Rattle.report_text.specs.Slots.{IsTaken, lacks};

use crate::ReportFault;
use crate::cuts::front;
use std::marker::Model;

/// The bytes behind the lines that were read, and how many those are.
#[derive(Drop)]
pub(crate) struct LineReader<'a> {
    rest: &'a [u8],
    read: usize,
}

impl<'a> Model for LineReader<'a> {
    ghost use Rattle.std.specs.Prelude.{◌+◌, ◌^◌, ◌<◌, length};
    ghost use Rattle.report_text.specs.Slots.{LinesView};

    ghost Value = { LinesView };

    ghost view = { λ r. record { rest = r.rest.now; read = r.read } };

    ghost invariant = { λ r. r.read + length r.rest.now < 2 ^ 63 };
}

impl<'a> LineReader<'a> {
    pub(crate) fn new(text: &'a [u8]) -> LineReader<'a>
        ensures { result ≡ record { rest = text.now; read = 0 } }
    {
        LineReader {
            rest: text,
            read: 0,
        }
    }

    /// The fault that the line read last is bad.
    pub(crate) fn fault(&self) -> ReportFault
        ensures { result ≡ ReportFault.BadLine self.now.read }
    {
        ReportFault::BadLine { line: self.read }
    }

    /// The fault that the next line is bad.
    pub(crate) fn next_fault(&self) -> ReportFault
        ensures { result ≡ ReportFault.BadLine (self.now.read + 1) }
    {
        ReportFault::BadLine {
            line: self.read + 1,
        }
    }

    /// Whether no byte is left.
    pub(crate) fn is_at_end(&self) -> bool
        ensures { IsTrue result ↔ (self.now.rest ≡ []) }
    {
        self.rest.is_empty()
    }

    /// The next line without its LF. Where the text has no further LF, the next line is bad.
    pub(crate) fn take_line(&mut self) -> Result<&'a [u8], ReportFault>
        ensures ok { IfOk result (λ line. IsTaken line.now self.old self.new) }
        ensures fault { IfErr result (λ fault. fault ≡ ReportFault.BadLine (self.old.read + 1)) }
        ensures none { IfErr result (λ fault. lacks 10 self.old.rest ≡ true) }
    {
        let (line, rest) = front(self.rest, b'\n');
        match rest {
            [_, rest @ ..] => {
                self.rest = rest;
                self.read += 1;
                Ok(line)
            }
            [] => Err(self.next_fault()),
        }
    }
}
