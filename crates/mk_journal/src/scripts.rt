//! Scripts for all steps of a journal.
ghost use Rattle.std.specs.Prelude.{◌≡◌, IfOk};
ghost use Rattle.mk_splice.specs.Journals.{journal};
ghost use Rattle.mk_journal.specs.AllSteps.{done_in, redo_all_script, times, undo_all_script, undone_in};

use mk_splice::{Journal, JournalError};
use std::alloc::{AllocError, Global};

/// A line that takes the last step back.
const UNDO_LINE: &[u8] = b"undo\n";

/// A line that makes the step again that was undone last.
const REDO_LINE: &[u8] = b"redo\n";

/// The script that takes back every step that is done in a journal. It is empty if the file is no journal, which is then
/// reported by the run of the script.
pub fn undo_all(alloc: Global, file: &[u8]) -> Result<Vec<u8>, AllocError>
    ensures { IfOk result (λ script. script.items ≡ undo_all_script file.now) }
{
    let counts = counts(alloc, file)?;
    repeated(alloc, UNDO_LINE, counts.done)
}

/// The script that makes every step again that is undone in a journal. It is empty if the file is no journal, which is then
/// reported by the run of the script.
pub fn redo_all(alloc: Global, file: &[u8]) -> Result<Vec<u8>, AllocError>
    ensures { IfOk result (λ script. script.items ≡ redo_all_script file.now) }
{
    let counts = counts(alloc, file)?;
    repeated(alloc, REDO_LINE, counts.undone)
}

// How many steps are done, and how many are undone.
#[derive(Clone, Copy)]
struct StepCounts {
    done: usize,
    undone: usize,
}

// The counts of a journal, and none of any other file.
fn counts(alloc: Global, file: &[u8]) -> Result<StepCounts, AllocError>
    ensures done { IfOk result (λ counts. counts.done ≡ done_in (journal file.now)) }
    ensures undone { IfOk result (λ counts. counts.undone ≡ undone_in (journal file.now)) }
{
    match Journal::parse(alloc, file) {
        Ok(journal) => Ok(StepCounts {
            done: journal.done,
            undone: journal.steps.len() - journal.done,
        }),
        Err(JournalError::Syntax { .. }) => Ok(StepCounts { done: 0, undone: 0 }),
        Err(JournalError::Memory) => Err(AllocError),
    }
}

// A line, so many times.
fn repeated(alloc: Global, line: &[u8], count: usize) -> Result<Vec<u8>, AllocError>
    ensures { IfOk result (λ text. text.items ≡ times line.now count) }
{
    let mut text = Vec::new(alloc);
    for _ in 0..count {
        text.extend_from_slice(line)?;
    }
    Ok(text)
}
