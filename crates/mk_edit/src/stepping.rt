//! Steps of a document: an edit made in it, a step taken back or made again.
ghost use Rattle.std.specs.Prelude.{◌≡◌, ◌<◌, ◌++◌, ◌∷◌, [], ℕ, List, map, take, vec_len, vec_capacity, IfOk, IfErr, OnOk, OnErr};
ghost use Rattle.mk_tree.specs.ChangeViews.{ChangesTo};
ghost use Rattle.mk_tree.specs.Documents.{tree};
ghost use Rattle.mk_splice.specs.Splices.{spliced};
ghost use Rattle.mk_decide.specs.Answers.{refusal_of, IsRefusedBy};
ghost use Rattle.mk_decide.specs.LocalAnswers.{IsDecided};
ghost use Rattle.mk_decide.specs.Edits.{path_of};
ghost use Rattle.mk_edit.specs.Made.{IsMade};
ghost use Rattle.mk_decide.specs.Outcomes.{edited};
ghost use Rattle.mk_decide.specs.Views.{edit_of};
ghost use Rattle.mk_edit.specs.Histories.{all_splices};
ghost use Rattle.mk_splice.specs.Views.{splice_of, steps_of};

use mk_decide::{Edit, EditError, Replacement, decide};
use mk_line::Meter;
use mk_splice::{Splice, copied};
use mk_tree::{Change, Doc};
use std::alloc::{AllocError, Global};

/// Makes an edit that was accepted: `text` comes in the place of `count` bytes at `place`. If memory runs out,
/// nothing changes.
pub(crate) fn change(
    doc: &mut Doc,
    edit: &Edit,
    place: usize,
    count: usize,
    text: Vec<u8>,
) -> Result<(), AllocError>
    requires { IsDecided (edit_of edit.now) doc.old (record { place = place; count = count; new = text.items }) }
    ensures ok { OnOk result (doc.new ≡ spliced place count text.items doc.old) }
    ensures err { OnErr result (doc.new ≡ doc.old) }
{
    match doc.splice(edit.path(), change_of(edit, place, count, text)) {
        Ok(()) => Ok(()),
        Err((_, error)) => Err(error),
    }
}

/// Makes an edit where nothing is against it, and answers its splice.
pub(crate) fn make(
    alloc: Global,
    doc: &mut Doc,
    edit: &Edit,
    meter: &mut Meter,
) -> Result<Splice, EditError>
    ensures ok { IfOk result (λ s. IsMade (edit_of edit.now) doc.old (splice_of s) doc.new) }
    ensures err { IfErr result (λ e. IsRefusedBy (refusal_of e) (edited (edit_of edit.now) (tree doc.old))) }
{
    let Replacement { place, count, new } = decide(alloc, doc, edit, meter)?;
    let old = copied(alloc, doc.text(), place, count)?;
    let text = Vec::from_slice(alloc, &new)?;
    change(doc, edit, place, count, text)?;
    Ok(Splice { place, old, new })
}

// What an edit changes.
fn change_of(edit: &Edit, place: usize, count: usize, text: Vec<u8>) -> Change
    ensures { (x : List ℕ) (d : IsDecided (edit_of edit.now) x (record { place = place; count = count; new = text.items })) → ChangesTo (path_of (edit_of edit.now)) result (tree x) d.document }
{
    match edit {
        Edit::AddField { .. }
        | Edit::RemoveField { .. }
        | Edit::RenameField { .. }
        | Edit::SetField { .. } => Change::Header { place, count, text },
        Edit::SetBody { .. } => Change::Body { text },
        Edit::SetSection { .. } | Edit::Wrap { .. } => Change::Entity { text },
        Edit::InsertPart { place, .. } => Change::Part {
            place: *place,
            text,
        },
        Edit::RemovePart { .. } => Change::NoPart,
    }
}

/// Puts a step after those that are done, in the place of others.
pub(crate) fn put_step(steps: &mut Vec<Vec<Splice>>, done: usize, step: Vec<Splice>)
    requires { vec_len steps.old < vec_capacity steps.old }
    ensures { steps.new.items ≡ take done steps.old.items ++ step ∷ [] }
{
    steps.truncate(done);
    steps.push_reserved(step);
}

/// The splices of the first `count` steps, as those of one step.
pub(crate) fn joined(
    alloc: Global,
    steps: Vec<Vec<Splice>>,
    count: usize,
) -> Result<Vec<Splice>, AllocError>
    ensures { IfOk result (λ all. map splice_of all.items ≡ all_splices (take count (steps_of steps.items))) }
{
    let mut steps = steps;
    steps.truncate(count);
    let mut all = Vec::new(alloc);
    for step in steps {
        let mut step = step;
        all.append(&mut step)?;
    }
    Ok(all)
}

/// A document, read again.
pub(crate) fn read_anew(alloc: Global, doc: &Doc) -> Result<Doc, AllocError>
    ensures { IfOk result (λ d. d ≡ doc.now) }
{
    let text = Vec::from_slice(alloc, doc.text())?;
    read(alloc, text)
}

/// Reads a text.
pub(crate) fn read(alloc: Global, text: Vec<u8>) -> Result<Doc, AllocError>
    ensures { IfOk result (λ d. d ≡ text.items) }
{
    match Doc::read(alloc, text) {
        Ok(doc) => Ok(doc),
        Err((_, error)) => Err(error),
    }
}
