//! The lines that report faults of the script, refused steps and a refused journal.

ghost use Rattle.std.specs.Prelude.{◌≡◌, Err, None, IfOk, IfSome, IsErr};
ghost use Rattle.mk_run.specs.Journaling.{journal_line, named_by};
ghost use Rattle.std.specs.Option.{option_map};
ghost use Rattle.mk_run.specs.Faults.{fault_line, fault_name, fault_sentence, named_line, reason_line, syntax_line};
ghost use Rattle.mk_run.specs.Runs.{refusal_line};
ghost use Rattle.mk_run.specs.inner.Making.{fault_in, refusal_in};
ghost use Rattle.mk_transfer.specs.RunClauses.{Sends};

use crate::making::StepError;
use mk_edit::LoadError;
use mk_expand::WordError;
use mk_mail::Sink;
use mk_report::report_refusal;
use mk_script::{InvalidLine, LineFault};
use mk_transfer::{Stop, send};
use std::alloc::{AllocError, Global};

/// Reports a line of the script that is a fault.
pub fn report_syntax<E: Sink>(alloc: Global, err: &mut E, number: usize) -> Result<(), Stop>
    ensures { Sends result (syntax_line number)
        (E.contents err.old) (E.contents err.new) (E.failures err.old) (E.failures err.new) }
{
    match format!(in alloc; "script: line {number}: syntax\n") {
        Ok(line) => send(err, line.as_bytes()),
        Err(_) => Err(Stop::Memory),
    }
}

/// Reports why a line of the script is invalid, in words.
pub fn report_invalid<E: Sink>(alloc: Global, err: &mut E, line: InvalidLine) -> Result<(), Stop>
    ensures { Sends result (reason_line line.number line.fault)
        (E.contents err.old) (E.contents err.new) (E.failures err.old) (E.failures err.new) }
{
    match line_of_reason(alloc, line) {
        Ok(line) => send(err, &line),
        Err(_) => Err(Stop::Memory),
    }
}

// The line that says why a line of the script is invalid.
fn line_of_reason(alloc: Global, line: InvalidLine) -> Result<Vec<u8>, AllocError>
    ensures { IfOk result (λ text. text.items ≡ reason_line line.number line.fault) }
{
    let number = line.number;
    let sentence = sentence(line.fault);
    let text = format!(in alloc; "script: line {number}: {sentence}\n")?;
    Ok(text.into_bytes())
}

// What is wrong with a line of a script.
fn sentence(fault: LineFault) -> &'static str
    ensures { result.now ≡ fault_sentence fault }
{
    match fault {
        LineFault::UnknownWord => "unknown word",
        LineFault::Missing => "too few arguments",
        LineFault::Extra => "too many arguments",
        LineFault::Spaces => "words are separated by exactly one space",
        LineFault::BadPath => {
            "invalid path; write numbers from 1 with dots between them, such as 1.2"
        }
        LineFault::BadNumber => "invalid number",
        LineFault::NoSuchPiece => "no such piece",
        LineFault::BadEncoding =>
            "invalid encoding; write quoted-printable or qp, base64, or 8bit or identity",
        LineFault::BadFieldName => {
            "invalid name; write the name of a field, such as Subject or Subject:"
        }
        LineFault::Grouped => "undo and redo can't be in a group",
        LineFault::BadBegin => "begin without end, or inside a group",
        LineFault::NoGroup => "end without begin",
        LineFault::NotEdit => "with --all, each line has to be an edit",
    }
}

/// Reports why a step isn't done; running out of memory is answered, not reported.
pub(crate) fn report_step<E: Sink>(alloc: Global, err: &mut E, error: StepError) -> Result<(), Stop>
    ensures sends { IfSome (refusal_in error) (λ reason. Sends result (refusal_line reason)
        (E.contents err.old) (E.contents err.new) (E.failures err.old) (E.failures err.new)) }
    ensures memory { refusal_in error ≡ None → (result ≡ Err Stop.Memory) × (E.contents err.new ≡ E.contents err.old) × (E.failures err.new ≡ E.failures err.old) }
{
    match error {
        StepError::Edit {
            number,
            path,
            reason,
        } => {
            if reason.is_memory() {
                return Err(Stop::Memory);
            }
            report_refusal(alloc, err, number, &path, reason)
        }
        StepError::Word { number, fault } => report_fault(alloc, err, number, fault),
    }
}

// Reports that a word stands for no edits.
fn report_fault<E: Sink>(
    alloc: Global,
    err: &mut E,
    number: usize,
    fault: WordError,
) -> Result<(), Stop>
    ensures sends { IfSome (fault_in fault) (λ named. Sends result (fault_line number named)
        (E.contents err.old) (E.contents err.new) (E.failures err.old) (E.failures err.new)) }
    ensures memory { fault_in fault ≡ None → (result ≡ Err Stop.Memory) × (E.contents err.new ≡ E.contents err.old) × (E.failures err.new ≡ E.failures err.old) }
{
    match line_of_fault(alloc, number, fault) {
        Ok(line) => send(err, &line),
        Err(_) => Err(Stop::Memory),
    }
}

// The line that reports that a word stands for no edits.
fn line_of_fault(alloc: Global, number: usize, fault: WordError) -> Result<Vec<u8>, AllocError>
    ensures line { IfOk result (λ line. IfSome (fault_in fault) (λ named. line.items ≡ fault_line number named)) }
    ensures memory { fault_in fault ≡ None → IsErr result }
{
    match name(fault) {
        Some(name) => line_of_name(alloc, number, name),
        None => Err(AllocError),
    }
}

fn line_of_name(alloc: Global, number: usize, name: &str) -> Result<Vec<u8>, AllocError>
    ensures { IfOk result (λ line. line.items ≡ named_line number name.now) }
{
    let line = format!(in alloc; "line {number}: {name}\n")?;
    Ok(line.into_bytes())
}

// The name of a fault; running out of memory has none.
fn name(fault: WordError) -> Option<&'static str>
    ensures { option_map (λ s. s.now) result ≡ option_map fault_name (fault_in fault) }
{
    match fault {
        WordError::UnknownEncoding => Some("UnknownEncoding"),
        WordError::BadBase64 => Some("BadBase64"),
        WordError::BadType => Some("BadType"),
        WordError::BadName => Some("BadName"),
        WordError::BadCharset => Some("BadCharset"),
        WordError::BinaryContent => Some("BinaryContent"),
        WordError::Memory => None,
    }
}

/// Reports why a journal is refused.
pub fn report_journal<E: Sink>(alloc: Global, err: &mut E, error: LoadError) -> Result<(), Stop>
    ensures { IfSome (named_by error) (λ reason. Sends result (journal_line reason)
        (E.contents err.old) (E.contents err.new) (E.failures err.old) (E.failures err.new)) }
{
    match line_of_journal(alloc, error) {
        Ok(line) => send(err, &line),
        Err(_) => Err(Stop::Memory),
    }
}

// The line that reports a refused journal.
fn line_of_journal(alloc: Global, error: LoadError) -> Result<Vec<u8>, AllocError>
    ensures { IfOk result (λ line. IfSome (named_by error) (λ reason. line.items ≡ journal_line reason)) }
{
    match error {
        LoadError::JournalSyntax { offset } => {
            Ok(format!(in alloc; "journal: JournalSyntax {offset}\n")?.into_bytes())
        }
        LoadError::JournalOther => Vec::from_slice(alloc, b"journal: JournalOther\n"),
        LoadError::JournalMismatch { entry } => {
            Ok(format!(in alloc; "journal: JournalMismatch {entry}\n")?.into_bytes())
        }
        LoadError::Memory => Err(AllocError),
    }
}
