//! The lines that list the steps of a journal.
ghost use Rattle.std.specs.Prelude.{◌≡◌, ◌++◌, IfOk, OnOk, map};
ghost use Rattle.std.specs.List.{flat_map};
ghost use Rattle.mk_splice.specs.JournalViews.{meaning_of};
ghost use Rattle.mk_splice.specs.Views.{splice_of};
ghost use Rattle.mk_journal.specs.StepLines.{journal_lines, splice_words, state_word, step_line};

use mk_splice::{Journal, Splice};
use std::alloc::{AllocError, Global};

/// The steps of a journal, a line for each: its number from 1, `done` or `undone`, and for each replacement how many bytes stood
/// at which offset from 0, and how many took their place.
pub fn list_steps(alloc: Global, journal: &Journal) -> Result<Vec<u8>, AllocError>
    ensures { IfOk result (λ text. text.items ≡ journal_lines (meaning_of journal.now)) }
{
    let mut text = Vec::new(alloc);
    for (index, step) in journal.steps.iter().enumerate() {
        push_step(alloc, &mut text, index + 1, index < journal.done, step)?;
    }
    Ok(text)
}

// Writes the line of a step after a text.
fn push_step(
    alloc: Global,
    text: &mut Vec<u8>,
    number: usize,
    done: bool,
    step: &[Splice],
) -> Result<(), AllocError>
    ensures { OnOk result (text.new.items ≡ text.old.items ++ step_line number done (map splice_of step.now)) }
{
    let state = state(done);
    let columns = format!(in alloc; "{number} {state}")?;
    text.extend_from_slice(columns.as_bytes())?;
    push_splices(alloc, text, step)?;
    text.extend_from_slice(b"\n")
}

// Whether a step is done, in a word.
fn state(done: bool) -> &'static str
    ensures { result.now ≡ state_word done }
{
    if done { "done" } else { "undone" }
}

// Writes the splices of a step after a text.
fn push_splices(alloc: Global, text: &mut Vec<u8>, step: &[Splice]) -> Result<(), AllocError>
    ensures { OnOk result (text.new.items ≡ text.old.items ++ flat_map splice_words (map splice_of step.now)) }
{
    for splice in step {
        text.extend_from_slice(&words(alloc, splice)?)?;
    }
    Ok(())
}

// A splice in words.
fn words(alloc: Global, splice: &Splice) -> Result<Vec<u8>, AllocError>
    ensures { IfOk result (λ text. text.items ≡ splice_words (splice_of splice.now)) }
{
    let (old, place, new) = (splice.old.len(), splice.place, splice.new.len());
    let text = format!(in alloc; "; {old} bytes at {place} became {new}")?;
    Ok(text.into_bytes())
}
