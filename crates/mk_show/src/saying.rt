//! What is said of the leaves that are unpacked.

ghost use Rattle.std.specs.Prelude.{◌≡◌, Some, IfOk};
ghost use Rattle.mk_transfer.specs.RunClauses.{Sends};
ghost use Rattle.mk_show.specs.Shown.{extract_line};
ghost use Rattle.mk_show.specs.Unpacking.{exists_line as line_of_exists, report_line, stored_line as line_of_stored};

use crate::answers::refusal;
use crate::unpacking::Report;
use mk_mailbox::Sink;
use mk_transfer::{Stop, send};
use mk_tree::Section;
use mk_view::{ExtractError, Leaf, push_path, push_type};
use std::alloc::{AllocError, Global};

const SPACE: u8 = b' ';

/// Says what is to be said of a leaf that was put under a name.
pub(crate) fn say_stored<O: Sink>(
    alloc: Global,
    out: &mut O,
    report: Report,
    leaf: &Leaf<'_>,
    target: &[u8],
) -> Result<(), Stop>
    ensures sends { Sends result (report_line report leaf.now.path.items (Some leaf.now.section) target.now)
        (O.contents out.old) (O.contents out.new) (O.failures out.old) (O.failures out.new) }
    ensures unfinished { O.finishes out.new ≡ O.finishes out.old }
{
    match said_of(alloc, report, leaf, target) {
        Ok(line) => send(out, &line),
        Err(_) => Err(Stop::Memory),
    }
}

// What is to be said of a leaf that was put under a name.
fn said_of(
    alloc: Global,
    report: Report,
    leaf: &Leaf<'_>,
    target: &[u8],
) -> Result<Vec<u8>, AllocError>
    ensures { IfOk result (λ line. line.items ≡ report_line report leaf.now.path.items (Some leaf.now.section) target.now) }
{
    match report {
        Report::Nothing => Ok(Vec::new(alloc)),
        Report::Names => stored_line(alloc, &leaf.section, target),
        Report::Paths => {
            let mut line = Vec::new(alloc);
            push_path(&mut line, &leaf.path)?;
            line.push(SPACE)?;
            line.extend_from_slice(&stored_line(alloc, &leaf.section, target)?)?;
            Ok(line)
        }
    }
}

// The line that says under which name a section was put.
fn stored_line(alloc: Global, section: &Section<'_>, target: &[u8]) -> Result<Vec<u8>, AllocError>
    ensures { IfOk result (λ line. line.items ≡ line_of_stored (Some section.now) target.now) }
{
    let mut line = Vec::from_slice(alloc, target)?;
    line.extend_from_slice(b" (")?;
    push_type(alloc, &mut line, section)?;
    line.extend_from_slice(b")\n")?;
    Ok(line)
}

/// Reports that all names of a leaf are taken.
pub(crate) fn report_exists<E: Sink>(alloc: Global, err: &mut E, name: &[u8]) -> Result<(), Stop>
    ensures { Sends result (line_of_exists name.now)
        (E.contents err.old) (E.contents err.new) (E.failures err.old) (E.failures err.new) }
{
    match exists_line(alloc, name) {
        Ok(line) => send(err, &line),
        Err(_) => Err(Stop::Memory),
    }
}

fn exists_line(alloc: Global, name: &[u8]) -> Result<Vec<u8>, AllocError>
    ensures { IfOk result (λ line. line.items ≡ line_of_exists name.now) }
{
    let mut line = Vec::from_slice(alloc, name)?;
    line.extend_from_slice(b": exists\n")?;
    Ok(line)
}

/// Reports why the section at a path isn't decoded.
pub(crate) fn report_undecoded<E: Sink>(
    alloc: Global,
    err: &mut E,
    path: &[u32],
    reason: ExtractError,
) -> Result<(), Stop>
    ensures { Sends result (extract_line path.now reason)
        (E.contents err.old) (E.contents err.new) (E.failures err.old) (E.failures err.new) }
{
    match refusal(alloc, path, reason) {
        Ok(line) => send(err, &line),
        Err(_) => Err(Stop::Memory),
    }
}
