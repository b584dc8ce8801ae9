//! The lines that report why an edit is refused.

ghost use Rattle.std.specs.Prelude.{◌≡◌, ◌++◌, IfOk, OnOk, IfSome};
ghost use Rattle.mk_decide.specs.Answers.{refusal_of};
ghost use Rattle.mk_report.specs.Reports.{reason_name as name_of, after_name, error_line, message_line as line_of_message, message_line_at};
ghost use Rattle.mk_transfer.specs.RunClauses.{Sends};

use mk_decide::EditError;
use mk_mailbox::Sink;
use mk_transfer::{Stop, send};
use mk_view::push_path;
use std::alloc::{AllocError, Global};

const SPACE: u8 = b' ';

const LINE_FEED: u8 = b'\n';

/// The path of the root.
const ROOT: [u32; 1] = [1];

/// Reports a refusal of an edit at a path, with the number of its line in the script.
pub fn report_refusal<E: Sink>(
    alloc: Global,
    err: &mut E,
    number: usize,
    path: &[u32],
    reason: EditError,
) -> Result<(), Stop>
    ensures { IfSome (refusal_of reason) (λ refusal. Sends result (error_line number path.now refusal)
        (E.contents err.old) (E.contents err.new) (E.failures err.old) (E.failures err.new)) }
{
    match refusal_line(alloc, number, path, reason) {
        Ok(line) => send(err, &line),
        Err(_) => Err(Stop::Memory),
    }
}

// The line that reports a refusal.
fn refusal_line(
    alloc: Global,
    number: usize,
    path: &[u32],
    reason: EditError,
) -> Result<Vec<u8>, AllocError>
    ensures { IfOk result (λ line. IfSome (refusal_of reason) (λ refusal. line.items ≡ error_line number path.now refusal)) }
{
    let name = refusal_name(reason);
    let mut line = format!(in alloc; "line {number}: {name}")?.into_bytes();
    push_place(&mut line, path, reason)?;
    line.push(LINE_FEED)?;
    Ok(line)
}

/// Reports a message for which an edit at the root is refused, by its number from 1.
pub fn report_message<E: Sink>(
    alloc: Global,
    err: &mut E,
    number: u64,
    reason: EditError,
) -> Result<(), Stop>
    ensures { IfSome (refusal_of reason) (λ refusal. Sends result (line_of_message number refusal)
        (E.contents err.old) (E.contents err.new) (E.failures err.old) (E.failures err.new)) }
{
    report_message_at(alloc, err, number, &ROOT, reason)
}

/// Reports a message for which an edit at a path is refused.
pub fn report_message_at<E: Sink>(
    alloc: Global,
    err: &mut E,
    number: u64,
    path: &[u32],
    reason: EditError,
) -> Result<(), Stop>
    ensures { IfSome (refusal_of reason) (λ refusal. Sends result (message_line_at path.now number refusal)
        (E.contents err.old) (E.contents err.new) (E.failures err.old) (E.failures err.new)) }
{
    match message_line(alloc, number, path, reason) {
        Ok(line) => send(err, &line),
        Err(_) => Err(Stop::Memory),
    }
}

// The line that reports a message.
fn message_line(
    alloc: Global,
    number: u64,
    path: &[u32],
    reason: EditError,
) -> Result<Vec<u8>, AllocError>
    ensures { IfOk result (λ line. IfSome (refusal_of reason) (λ refusal. line.items ≡ message_line_at path.now number refusal)) }
{
    let name = refusal_name(reason);
    let mut line = format!(in alloc; "message {number}: {name}")?.into_bytes();
    push_place(&mut line, path, reason)?;
    line.push(LINE_FEED)?;
    Ok(line)
}

// Writes what follows the name: the path of the multipart of which a line would be a delimiter.
fn push_place(line: &mut Vec<u8>, path: &[u32], reason: EditError) -> Result<(), AllocError>
    ensures { OnOk result (IfSome (refusal_of reason) (λ refusal. line.new.items ≡ line.old.items ++ after_name path.now refusal)) }
{
    if let EditError::HoldsBoundary { level } = reason {
        line.push(SPACE)?;
        push_path(line, &path[..level.min(path.len())])?;
    }
    Ok(())
}

/// The name under which a refusal is reported.
pub fn refusal_name(reason: EditError) -> &'static str
    ensures { IfSome (refusal_of reason) (λ refusal. result.now ≡ name_of refusal) }
{
    match reason {
        EditError::NoSuchSection => "NoSuchSection",
        EditError::NotMultipart => "NotMultipart",
        EditError::NotLeaf => "NotLeaf",
        EditError::NotPart => "NotPart",
        EditError::NoSuchField => "NoSuchField",
        EditError::BadPlace => "BadPlace",
        EditError::BadBoundary => "BadBoundary",
        EditError::BadSubtype => "BadSubtype",
        EditError::BadField => "BadField",
        EditError::BadName => "BadName",
        EditError::OpenLine => "OpenLine",
        EditError::HoldsBoundary { .. } => "HoldsBoundary",
        EditError::Recut => "Recut",
        EditError::NothingToUndo => "NothingToUndo",
        EditError::NothingToRedo => "NothingToRedo",
        EditError::Memory => "Memory",
    }
}
