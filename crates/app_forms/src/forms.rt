//! The forms of words, each with a module that makes its text.

ghost use Rattle.std.specs.Prelude.{◌≡◌, ◌<◌, IfOk, IfErr, decimal};
ghost use Rattle.std.specs.Char.{is_ascii_digit};
ghost use Rattle.std.specs.List.{list_all};
ghost use Rattle.std.specs.Option.{option_map};
ghost use Rattle.std.specs.Str.{bytes_eq};
ghost use Rattle.maid_model.specs.Names.{NamesFit};
ghost use Rattle.net_print.specs.RoundTrip.{IsPrintable};
ghost use Rattle.app_forms.specs.Answers.{Answers};
ghost use Rattle.app_forms.specs.Reading.{Finishes, Prints, TellsFor, TellsOf};
ghost use Rattle.app_forms.specs.Request.{file_name, is_row_size, is_row_word, request_by_evidence, request_by_row, request_by_word, request_by_words, requested, row_in_word, stages_of};
ghost use Rattle.app_forms.specs.Form.{request_by, task_by, text_request, IsFormOf};

mod asking;
mod chances;
pub mod check;
mod control;
mod demo;
mod given;
mod graph;
mod info;
mod moved;
mod print;
mod pure;
mod solve;
mod trim;
mod update;

use crate::reading::Source;
use crate::refusal::Refusal;
use maid_model::{Diagram, Names};
use std::alloc::Global;

/// A form of words whose text is one file's, or is generated.
#[derive(Clone, Copy)]
pub enum TextForm<'a> {
    /// `solve F`: the report of the diagram in the file F.
    Solve {
        /// The file's name.
        file: &'a str,
    },
    /// `graph F`: which decisions rely on which, and the order of solving or the relevance cycle.
    Graph {
        /// The file's name.
        file: &'a str,
    },
    /// `print F`: the text of the diagram in the file F.
    Print {
        /// The file's name.
        file: &'a str,
    },
    /// `trim F`: the arcs that decisions do not need, and the text of the diagram without them.
    Trim {
        /// The file's name.
        file: &'a str,
    },
    /// `pure F`: the first pure equilibrium.
    Pure {
        /// The file's name.
        file: &'a str,
    },
    /// `update F`: the choices that no round of updating changes.
    Update {
        /// The file's name.
        file: &'a str,
    },
    /// `info F A`: what information is worth to an agent.
    Info {
        /// The file's name.
        file: &'a str,
        /// The agent's name.
        agent: &'a str,
    },
    /// `control F A`: what control of chance nodes is worth to an agent.
    Control {
        /// The file's name.
        file: &'a str,
        /// The agent's name.
        agent: &'a str,
    },
    /// `given F X S`: the answer where a chance node is known to have a state.
    Given {
        /// The file's name.
        file: &'a str,
        /// The node's name.
        node: &'a str,
        /// The state's label.
        state: &'a str,
    },
    /// `threshold F X ROW STATE`: how far one probability may move.
    Threshold {
        /// The file's name.
        file: &'a str,
        /// The node's name.
        node: &'a str,
        /// The number of one of its rows, from 1.
        row: usize,
        /// The state's label.
        state: &'a str,
    },
    /// `demo K`: a summary of the solved diagram of a generated text.
    Demo {
        /// How many stages the diagram has: 1 to 60.
        k: usize,
    },
}

/// What the words ask for.
#[derive(Clone, Copy)]
pub enum Form<'a> {
    /// One text of one file, or of a generated one.
    Text(TextForm<'a>),
    /// `check F R`: the verdict on the report in the file R of the diagram in the file F.
    Check {
        /// The name of the diagram's file.
        file: &'a str,
        /// The name of the report's file.
        report: &'a str,
    },
}

impl<'a> TextForm<'a> {
    /// The name that lines tell for the form's text: its file's, or `demo` for a generated text.
    pub fn name(self) -> &'a str
        ensures { result.now ≡ file_name (text_request self.entry) }
    {
        match self {
            TextForm::Solve { file }
            | TextForm::Graph { file }
            | TextForm::Print { file }
            | TextForm::Trim { file }
            | TextForm::Pure { file }
            | TextForm::Update { file }
            | TextForm::Info { file, .. }
            | TextForm::Control { file, .. }
            | TextForm::Given { file, .. }
            | TextForm::Threshold { file, .. } => file,
            TextForm::Demo { .. } => "demo",
        }
    }

    // What the form tells of a diagram.
    fn answer(self, alloc: Global, diagram: &Diagram, names: &Names) -> Result<Vec<u8>, Refusal>
        requires fit { NamesFit diagram.now names.now }
        requires printable { IsPrintable diagram.now names.now }
        ensures ok { IfOk result (Prints (task_by self.entry) diagram.now names.now) }
        ensures err { IfErr result (TellsFor (task_by self.entry) diagram.now names.now) }
    {
        match self {
            TextForm::Solve { .. } => solve::answer(alloc, diagram, names),
            TextForm::Graph { .. } => graph::answer(alloc, diagram, names),
            TextForm::Print { .. } => print::answer(alloc, diagram, names),
            TextForm::Trim { .. } => trim::answer(alloc, diagram, names),
            TextForm::Pure { .. } => pure::answer(alloc, diagram, names),
            TextForm::Update { .. } => update::answer(alloc, diagram, names),
            TextForm::Info { agent, .. } => info::answer(alloc, diagram, names, agent),
            TextForm::Control { agent, .. } => control::answer(alloc, diagram, names, agent),
            TextForm::Given { node, state, .. } => {
                given::answer(alloc, diagram, names, node, state)
            }
            TextForm::Threshold {
                node,
                row,
                state,
                ..
            } => moved::answer(alloc, diagram, names, node, row, state),
            TextForm::Demo { k } => demo::answer(alloc, diagram, names, k),
        }
    }

    /// The form's text for `out` from the bytes of its file, or of the generated text.
    ///
    /// # Errors
    ///
    /// The fault of the bytes, what the form's other stages find first, or want of memory.
    pub fn text(self, alloc: Global, bytes: &[u8]) -> Result<Vec<u8>, Refusal>
        ensures ok { IfOk result (Finishes (Answers (text_request self.entry) bytes.now)) }
        ensures err { IfErr result (TellsOf (Answers (text_request self.entry) bytes.now)) }
    {
        let source = Source {
            name: self.name(),
            bytes,
        };
        let (diagram, names) = source.diagram(alloc)?;
        self.answer(alloc, &diagram, &names)
    }
}

// Tells whether the word is the number in decimal digits.
fn is_digits(word: &[u8], k: usize) -> bool
    requires { k < 100 }
    ensures { result ≡ bytes_eq word.now (decimal k) }
{
    let unit = b'0' + (k % 10) as u8;
    if k < 10 {
        word == [unit].as_slice()
    } else {
        word == [b'0' + (k / 10) as u8, unit].as_slice()
    }
}

// The number of stages that the word is.
fn stages_of(word: &[u8]) -> Option<usize>
    ensures { result ≡ stages_of word.now }
{
    for k in 1..=60 {
        if is_digits(word, k) {
            return Some(k);
        }
    }
    None
}

// The form of a word and what comes behind it.
fn form_by_word<'a>(word: &str, next: &'a str) -> Option<TextForm<'a>>
    ensures { option_map text_request result ≡ request_by_word word.now next.now }
{
    match word {
        "solve" => Some(TextForm::Solve { file: next }),
        "graph" => Some(TextForm::Graph { file: next }),
        "print" => Some(TextForm::Print { file: next }),
        "trim" => Some(TextForm::Trim { file: next }),
        "pure" => Some(TextForm::Pure { file: next }),
        "update" => Some(TextForm::Update { file: next }),
        "demo" => stages_of(next.as_bytes()).map(|k| TextForm::Demo { k }),
        _ => None,
    }
}

// The form of a word and the two that come behind it.
fn form_by_words<'a>(word: &str, next: &'a str, last: &'a str) -> Option<Form<'a>>
    ensures { option_map request_by result ≡ request_by_words word.now next.now last.now }
{
    match word {
        "check" => Some(Form::Check {
            file: next,
            report: last,
        }),
        "info" => Some(Form::Text(TextForm::Info {
            file: next,
            agent: last,
        })),
        "control" => Some(Form::Text(TextForm::Control {
            file: next,
            agent: last,
        })),
        _ => None,
    }
}

// Tells whether the word has one to five bytes, of which the first is 0 only where it stands alone.
fn is_row_size(word: &[u8]) -> bool
    ensures { result ≡ is_row_size word.now }
{
    if word.is_empty() || word.len() > 5 {
        return false;
    }
    word.len() == 1 || word[0] != b'0'
}

// Tells whether all bytes are decimal digits.
fn are_digits(word: &[u8]) -> bool
    ensures { result ≡ list_all is_ascii_digit word.now }
{
    word.iter().all(|byte| byte.is_ascii_digit())
}

// Tells whether the word is the number of a row in decimal digits.
fn is_row_word(word: &[u8]) -> bool
    ensures { result ≡ is_row_word word.now }
{
    is_row_size(word) && are_digits(word)
}

// The number of a row that the word is.
fn row_in_word(word: &[u8]) -> Option<usize>
    ensures { result ≡ row_in_word word.now }
{
    if !is_row_word(word) {
        return None;
    }
    let mut row = 0;
    for byte in word {
        row = row * 10 + (*byte - b'0') as usize;
    }
    Some(row)
}

// The form of a word and the three that come behind it.
fn form_by_evidence<'a>(
    word: &str,
    file: &'a str,
    node: &'a str,
    state: &'a str,
) -> Option<Form<'a>>
    ensures { IsFormOf result (request_by_evidence word.now file.now node.now state.now) }
{
    match word {
        "given" => Some(Form::Text(TextForm::Given { file, node, state })),
        _ => None,
    }
}

// The form of a word and the four that come behind it.
fn form_by_row<'a>(
    word: &str,
    file: &'a str,
    node: &'a str,
    row: &str,
    state: &'a str,
) -> Option<Form<'a>>
    ensures { IsFormOf result (request_by_row word.now file.now node.now row.now state.now) }
{
    match word {
        "threshold" => {
            let row = row_in_word(row.as_bytes())?;
            Some(Form::Text(TextForm::Threshold {
                file,
                node,
                row,
                state,
            }))
        }
        _ => None,
    }
}

/// The form that the words are of, or `None` where they are of none.
pub fn form_of(words: &[String]) -> Option<Form<'_>>
    ensures { option_map request_by result ≡ requested words.now }
{
    match words {
        [word, next] => form_by_word(word.as_str(), next.as_str()).map(Form::Text),
        [word, next, last] => form_by_words(word.as_str(), next.as_str(), last.as_str()),
        [word, file, node, state] => {
            form_by_evidence(word.as_str(), file.as_str(), node.as_str(), state.as_str())
        }
        [word, file, node, row, state] => form_by_row(
            word.as_str(),
            file.as_str(),
            node.as_str(),
            row.as_str(),
            state.as_str(),
        ),
        _ => None,
    }
}
