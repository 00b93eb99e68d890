//! The shell: words, devices, the order of refusals, and one line to `err`.

ghost use Rattle.std.specs.Prelude.{◌≡◌, ◌≢◌, ◌++◌, ◌≤◌, ◌↔◌, ℕ, None, IfOk, IfErr, OnOk};
ghost use Rattle.app_forms.specs.Request.{check, demo, requested};
ghost use Rattle.app_forms.specs.Form.{request_by, text_request};
ghost use Rattle.app_forms.specs.Answers.{Answers};
ghost use Rattle.app_forms.specs.Reading.{TellsLine, Finishes};
ghost use Rattle.app_forms.specs.Refusal.{status_of};
ghost use Rattle.maid_model.specs.Reports.{line};
ghost use Rattle.maid_app.specs.Steps.{RequestLaws, IsCounted, RefusesBytes, RefusesFile, RefusesWords, ServesWhole, StopsInText, GivesBytes, GivesFileText, RefusesWithinLimit, RefusesWithinLimits, IsUsageFor, KeepsFileLimit, LacksBytes, LacksText, MakesText, UnlessStatus, WhereStatus};
ghost use Rattle.maid_app.specs.Told.{IsAfterWriting, IsBeforeWriting, IsOfReading, AlwaysAbsent, AlwaysAnswers, AlwaysDemoDone, AlwaysDemoRefused, AlwaysDone, AlwaysRefused, AlwaysTooLong, AlwaysWritten, RoseIn, SaysWhyNot, WritesPart, WritesWhole, KeepsLimitsOf, WhereDemo};

use app_forms::{
    Form, Output, Refusal, Status, TextForm, answered_diagrams_are_clear, check, form_of, lines,
    one_status, outcomes_have_their_statuses,
};
use app_lines::demo_text;
use maid_io::{Opened, ReadAllFault, Shelf, Sink, read_all, write_all};
use std::alloc::Global;

/// The most bytes of a diagram's text.
pub const LIMIT: usize = 4_194_304;

/// The most bytes of a report's text.
pub const REPORT_LIMIT: usize = 67_108_864;

// The laws of what comes of a request's bytes, in one record.
fn request_laws()
    ensures { RequestLaws }
{
    one_status();
    outcomes_have_their_statuses();
    answered_diagrams_are_clear();
}

// The refusal that tells the line of these two pieces. The line takes memory, which may run out.
fn told(alloc: Global, status: Status, head: &[u8], name: &str) -> Refusal
    ensures { TellsLine status (line (head.now ++ name.now)) result }
{
    match lines::told(alloc, head, name.as_bytes()) {
        Ok(line) => Refusal::Told { status, line },
        Err(_) => Refusal::NoMemory,
    }
}

// The bytes of the file of that name.
fn read_file<H: Shelf>(
    alloc: Global,
    shelf: &mut H,
    name: &str,
    limit: usize,
) -> Result<Vec<u8>, Refusal>
    requires { limit ≤ REPORT_LIMIT }
    ensures ok { IfOk result
        (GivesFileText (H.list shelf.old) name.now limit (H.given shelf.new)) }
    ensures err { IfErr result (RefusesFile (H.list shelf.old) name.now limit (H.given shelf.new)) }
    ensures bounded { IfErr result (RefusesWithinLimit limit (H.given shelf.new)) }
    ensures absent_cause { IfErr result (IsCounted Status.Absent H.absences shelf.old shelf.new) }
    ensures read_cause { IfErr result (IsCounted Status.ReadFault H.faults shelf.old shelf.new) }
    ensures faults { H.faults shelf.old ≤ H.faults shelf.new }
    ensures absences { H.absences shelf.old ≤ H.absences shelf.new }
    ensures list { H.list shelf.new ≡ H.list shelf.old }
{
    match shelf.start(name) {
        Opened::Found => {}
        Opened::Absent => return Err(told(alloc, Status::Absent, b"absent: ", name)),
        Opened::Failed => return Err(told(alloc, Status::ReadFault, b"read fault: ", name)),
        Opened::NoMemory => return Err(Refusal::NoMemory),
    }
    match read_all(alloc, shelf, limit) {
        Ok(bytes) => Ok(bytes),
        Err(ReadAllFault::ReadFault) => {
            Err(told(alloc, Status::ReadFault, b"read fault: ", name))
        }
        Err(ReadAllFault::TooLong) => {
            Err(told(alloc, Status::TextTooLong, b"text too long: ", name))
        }
        Err(ReadAllFault::NoMemory) => Err(Refusal::NoMemory),
    }
}

// The bytes that a form with one text is asked of: those of its file, or the generated text.
fn bytes_for<H: Shelf>(alloc: Global, shelf: &mut H, form: TextForm<'_>) -> Result<Vec<u8>, Refusal>
    ensures ok { IfOk result (GivesBytes (text_request form.entry) H.Shelf shelf.old shelf.new) }
    ensures err { IfErr result (LacksBytes (text_request form.entry) H.Shelf shelf.old shelf.new) }
    ensures bounded { IfErr result (KeepsFileLimit (text_request form.entry) (H.given shelf.new)) }
    ensures own { (k : ℕ) → text_request form.entry ≡ demo k → shelf.new ≡ shelf.old }
    ensures absent_cause { IfErr result (IsCounted Status.Absent H.absences shelf.old shelf.new) }
    ensures read_cause { IfErr result (IsCounted Status.ReadFault H.faults shelf.old shelf.new) }
    ensures faults { H.faults shelf.old ≤ H.faults shelf.new }
    ensures absences { H.absences shelf.old ≤ H.absences shelf.new }
    ensures list { H.list shelf.new ≡ H.list shelf.old }
{
    match form {
        TextForm::Demo { k } => Ok(demo_text(alloc, k)?),
        _ => read_file(alloc, shelf, form.name(), LIMIT),
    }
}

// What a form with one text makes of its bytes. It refuses with no status of the run's own.
fn text_of(alloc: Global, form: TextForm<'_>, bytes: &[u8]) -> Result<Vec<u8>, Refusal>
    ensures ok { IfOk result (Finishes (Answers (text_request form.entry) bytes.now)) }
    ensures err { IfErr result (RefusesBytes (Answers (text_request form.entry) bytes.now)) }
{
    request_laws();
    form.text(alloc, bytes)
}

// What a form with one text writes.
fn text_output<H: Shelf>(
    alloc: Global,
    shelf: &mut H,
    form: TextForm<'_>,
) -> Result<Output, Refusal>
    ensures ok { IfOk result (MakesText (text_request form.entry) H.Shelf shelf.old shelf.new) }
    ensures err { IfErr result (LacksText (text_request form.entry) H.Shelf shelf.old shelf.new) }
    ensures own { (k : ℕ) → text_request form.entry ≡ demo k → shelf.new ≡ shelf.old }
    ensures absent_cause { IfErr result (IsCounted Status.Absent H.absences shelf.old shelf.new) }
    ensures read_cause { IfErr result (IsCounted Status.ReadFault H.faults shelf.old shelf.new) }
    ensures faults { H.faults shelf.old ≤ H.faults shelf.new }
    ensures absences { H.absences shelf.old ≤ H.absences shelf.new }
    ensures list { H.list shelf.new ≡ H.list shelf.old }
{
    let bytes = bytes_for(alloc, shelf, form)?;
    let text = text_of(alloc, form, &bytes)?;
    Ok(Output {
        status: Status::Done,
        text,
    })
}

// What a check writes: the verdict. The report's file is started once nothing is found in the
// diagram's.
fn check_output<H: Shelf>(
    alloc: Global,
    shelf: &mut H,
    file: &str,
    report: &str,
) -> Result<Output, Refusal>
    ensures ok { IfOk result (MakesText (check file.now report.now) H.Shelf shelf.old shelf.new) }
    ensures err { IfErr result (LacksText (check file.now report.now) H.Shelf shelf.old shelf.new) }
    ensures absent_cause { IfErr result (IsCounted Status.Absent H.absences shelf.old shelf.new) }
    ensures read_cause { IfErr result (IsCounted Status.ReadFault H.faults shelf.old shelf.new) }
    ensures faults { H.faults shelf.old ≤ H.faults shelf.new }
    ensures absences { H.absences shelf.old ≤ H.absences shelf.new }
    ensures list { H.list shelf.new ≡ H.list shelf.old }
{
    request_laws();
    let text = read_file(alloc, shelf, file, LIMIT)?;
    let (diagram, names) = check::examine(alloc, file, &text)?;
    let bytes = read_file(alloc, shelf, report, REPORT_LIMIT)?;
    check::judge(alloc, &diagram, &names, report, &bytes)
}

// What the words' form writes, made whole.
fn output_of<H: Shelf>(alloc: Global, shelf: &mut H, form: Form<'_>) -> Result<Output, Refusal>
    ensures ok { IfOk result (MakesText (request_by form.entry) H.Shelf shelf.old shelf.new) }
    ensures err { IfErr result (LacksText (request_by form.entry) H.Shelf shelf.old shelf.new) }
    ensures own { (k : ℕ) → request_by form.entry ≡ demo k → shelf.new ≡ shelf.old }
    ensures absent_cause { IfErr result (IsCounted Status.Absent H.absences shelf.old shelf.new) }
    ensures read_cause { IfErr result (IsCounted Status.ReadFault H.faults shelf.old shelf.new) }
    ensures faults { H.faults shelf.old ≤ H.faults shelf.new }
    ensures absences { H.absences shelf.old ≤ H.absences shelf.new }
    ensures list { H.list shelf.new ≡ H.list shelf.old }
{
    match form {
        Form::Text(form) => text_output(alloc, shelf, form),
        Form::Check { file, report } => check_output(alloc, shelf, file, report),
    }
}

// Writes the whole text of the words' form, or refuses.
fn serve<H: Shelf, O: Sink>(
    alloc: Global,
    words: &[String],
    shelf: &mut H,
    out: &mut O,
) -> Result<Status, Refusal>
    ensures ok { ServesWhole words.now H.Shelf shelf.old shelf.new O.Sink out.old out.new result }
    ensures after { IfOk result IsAfterWriting }
    ensures ok_words { OnOk result (requested words.now ≢ None) }
    ensures err { IfErr result (RefusesWords words.now H.Shelf shelf.old shelf.new) }
    ensures bounded_done { IfOk result (KeepsLimitsOf words.now H.Shelf shelf.old shelf.new) }
    ensures bounded { IfErr result (RefusesWithinLimits words.now H.Shelf shelf.old shelf.new) }
    ensures demo_reads_nothing { WhereDemo words.now (shelf.new ≡ shelf.old) }
    ensures usage { IfErr result (IsUsageFor words.now) }
    ensures untouched_shelf { IfErr result (WhereStatus Status.Usage (shelf.new ≡ shelf.old)) }
    ensures part { StopsInText words.now H.Shelf shelf.old shelf.new O.Sink out.old out.new result }
    ensures absent_cause { IfErr result (IsCounted Status.Absent H.absences shelf.old shelf.new) }
    ensures read_cause { IfErr result (IsCounted Status.ReadFault H.faults shelf.old shelf.new) }
    ensures write_cause { IfErr result (IsCounted Status.WriteFault O.faults out.old out.new) }
    ensures untouched { IfErr result (UnlessStatus Status.WriteFault (out.new ≡ out.old)) }
    ensures not_after { IfErr result (λ refusal. ¬ IsAfterWriting (status_of refusal)) }
    ensures out_faults { O.faults out.old ≤ O.faults out.new }
    ensures faults { H.faults shelf.old ≤ H.faults shelf.new }
    ensures absences { H.absences shelf.old ≤ H.absences shelf.new }
    ensures list { H.list shelf.new ≡ H.list shelf.old }
{
    let Some(form) = form_of(words) else {
        return Err(Refusal::Usage);
    };
    let output = output_of(alloc, shelf, form)?;
    match write_all(out, &output.text) {
        Ok(()) => Ok(output.status),
        Err(_) => Err(Refusal::WriteFault),
    }
}

/// Runs the program on the words after its name, and answers how it ended.
///
/// The words are those of one form. Each but `demo` names a file F of the shelf, which has a
/// diagram:
///
/// | Words | What `out` takes |
/// |---|---|
/// | `solve F` | the report of its answer |
/// | `check F R` | the verdict on the report in the file R |
/// | `graph F` | who relies on whom |
/// | `print F` | the diagram |
/// | `trim F` | the diagram without the arcs that its decisions do not need |
/// | `info F A`, `control F A` | what information, or control, is worth to the agent A |
/// | `pure F` | the first pure equilibrium |
/// | `update F` | the choices that no round of updating changes |
/// | `given F X S` | the answer where the chance node X has the state S |
/// | `threshold F X ROW STATE` | how far the state's probability may move in that row of X |
/// | `demo K` | a summary of the solved diagram of a generated text of K stages, 1 to 60 |
///
/// The whole text is made before its first byte is written, and writing takes no memory. After
/// [`Status::Done`], and after [`Status::Rejected`], which a verdict may end with, `err` takes
/// nothing, and else one line that says why.
///
/// The order of refusals is [`Status::Usage`] where the words are of no form, [`Status::Absent`],
/// [`Status::ReadFault`] and [`Status::TextTooLong`] for a file, [`Status::TextFault`] for its
/// bytes, those of the form's own stages in their order (`Task`), and last [`Status::WriteFault`].
/// For `check` those of a file come again for the report's, with [`Status::TextFault`] for bytes
/// that are no report. [`Status::NoMemory`] may come at any point after the words and before the
/// first write. A fault of `err` changes nothing else.
pub fn run<H: Shelf, O: Sink, E: Sink>(
    alloc: Global,
    words: &[String],
    shelf: &mut H,
    out: &mut O,
    err: &mut E,
) -> Status
    // The words.
    ensures usage { (result ≡ Status.Usage) ↔ (requested words.now ≡ None) }
    ensures usage_reads_nothing { result ≡ Status.Usage → shelf.new ≡ shelf.old }

    // What was read of the file that the words name, however the run ended.
    ensures bounded { KeepsLimitsOf words.now H.Shelf shelf.old shelf.new result }

    // `demo` reads no file.
    ensures demo_reads_nothing { WhereDemo words.now (shelf.new ≡ shelf.old) }
    ensures demo_status { WhereDemo words.now (¬ IsOfReading result) }

    // What `out` took: the whole text, a proper front of it, or nothing.
    ensures done { WritesWhole words.now H.Shelf shelf.old shelf.new O.Sink out.old out.new result }
    ensures part { WritesPart words.now H.Shelf shelf.old shelf.new O.Sink out.old out.new result }
    ensures untouched { IsBeforeWriting result → out.new ≡ out.old }

    // What `err` took: nothing, or the line that says why.
    ensures silent { IsAfterWriting result → err.new ≡ err.old }
    ensures told { SaysWhyNot words.now H.Shelf shelf.old shelf.new E.Sink err.old err.new result }

    // Where the devices told nothing, they counted a cause.
    ensures absent_cause { result ≡ Status.Absent → RoseIn H.absences shelf.old shelf.new }
    ensures read_cause { result ≡ Status.ReadFault → RoseIn H.faults shelf.old shelf.new }
    ensures write_cause { result ≡ Status.WriteFault → RoseIn O.faults out.old out.new }

    // Nothing but these faults of devices and want of memory keeps it from what comes of the file.
    ensures always_absent { AlwaysAbsent words.now (H.list shelf.old) result }
    ensures always_too_long { AlwaysTooLong words.now (H.list shelf.old) result }
    ensures always_refused { AlwaysRefused words.now (H.list shelf.old) result }
    ensures always_done { AlwaysDone words.now (H.list shelf.old) result }
    ensures always_answers { AlwaysAnswers words.now (H.list shelf.old) result }
    ensures always_written { AlwaysWritten words.now (H.list shelf.old) result }

    // Nor, but a fault of writing and want of memory, from what comes of a generated text.
    ensures always_demo_refused { AlwaysDemoRefused words.now result }
    ensures always_demo_done { AlwaysDemoDone words.now result }

    // What any answer leaves.
    ensures list { H.list shelf.new ≡ H.list shelf.old }
    ensures faults { H.faults shelf.old ≤ H.faults shelf.new }
    ensures absences { H.absences shelf.old ≤ H.absences shelf.new }
    ensures out_faults { O.faults out.old ≤ O.faults out.new }
    ensures err_faults { E.faults err.old ≤ E.faults err.new }
{
    request_laws();
    match serve(alloc, words, shelf, out) {
        Ok(status) => status,
        Err(refusal) => {
            let _ = write_all(err, refusal.line());
            refusal.status()
        }
    }
}
