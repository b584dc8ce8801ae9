//! Runs that list the steps of a journal.

ghost use Rattle.std.specs.Prelude.{◌≡◌, true, IfErr, IfOk, OnErr, OnOk};
ghost use Rattle.mk_line.specs.Meters.{ticked};
ghost use Rattle.mk_splice.specs.Journals.{journal};
ghost use Rattle.mk_edit.specs.Saving.{JournalSyntax};
ghost use Rattle.mk_transfer.specs.RunClauses.{IsBlamed, SameFailures, counts, ends_itself, held};
ghost use Rattle.mk_show.specs.Shown.{LeavesShownSoFar, run_of_answer};
ghost use Rattle.mk_run.specs.Journaling.{journal_line};
ghost use Rattle.mk_journal.specs.StepRuns.{IsJournalRun, run_of_journal};

use crate::lines::list_steps;
use mk_mailbox::{Sink, Source};
use mk_show::{Answer, print};
use mk_splice::{Journal, JournalError};
use mk_transfer::{Cause, Status, read_all, reading};
use std::alloc::{AllocError, Global};

/// Prints the steps of the journal that the input gives, a line for each. A file that is no journal is reported. The caller is
/// left to say why the run is given up.
pub fn try_journal<S: Source, O: Sink, E: Sink>(
    alloc: Global,
    input: &mut S,
    out: &mut O,
    err: &mut E,
) -> Result<Status, Cause>
    ensures leaves { LeavesShownSoFar IsJournalRun result
        (held (S.remaining input.old) (O.contents out.old) (E.contents err.old))
        (held (S.remaining input.new) (O.contents out.new) (E.contents err.new)) }
    ensures ended { IfOk result (λ status. ends_itself status ≡ true) }
    ensures blamed { IfErr result (λ cause. IsBlamed cause
        (counts (S.failures input.old) (S.read_count input.old) (O.failures out.old) (E.failures err.old))
        (counts (S.failures input.new) (S.read_count input.new) (O.failures out.new) (E.failures err.new))) }
    ensures clean { OnOk result (SameFailures
        (counts (S.failures input.old) (S.read_count input.old) (O.failures out.old) (E.failures err.old))
        (counts (S.failures input.new) (S.read_count input.new) (O.failures out.new) (E.failures err.new))) }
    ensures finished { OnOk result (O.finishes out.new ≡ ticked (O.finishes out.old)) }
    ensures unfinished { OnErr result (O.finishes out.new ≡ O.finishes out.old) }
{
    let file = match read_all(alloc, input) {
        Ok(file) => file,
        Err(stop) => return Err(reading(stop)),
    };
    match listing(alloc, &file) {
        Ok(listing) => print(out, err, &listing),
        Err(_) => Err(Cause::Memory),
    }
}

// The lines of a file's steps, or the line that reports that it is no journal.
fn listing(alloc: Global, file: &[u8]) -> Result<Answer, AllocError>
    ensures { IfOk result (λ listing. run_of_answer listing ≡ run_of_journal (journal file.now)) }
{
    match Journal::parse(alloc, file) {
        Ok(journal) => Ok(Answer {
            output: list_steps(alloc, &journal)?,
            errors: Vec::new(alloc),
        }),
        Err(JournalError::Syntax { offset }) => Ok(Answer {
            output: Vec::new(alloc),
            errors: syntax_line(alloc, offset)?,
        }),
        Err(JournalError::Memory) => Err(AllocError),
    }
}

// The line that reports that a file is no journal.
fn syntax_line(alloc: Global, offset: usize) -> Result<Vec<u8>, AllocError>
    ensures { IfOk result (λ line. line.items ≡ journal_line (JournalSyntax offset)) }
{
    let line = format!(in alloc; "journal: JournalSyntax {offset}\n")?;
    Ok(line.into_bytes())
}
