//! Edits made one after another.
ghost use Rattle.std.specs.Prelude.{◌≡◌, Result, Err, Some, IfOk, IfErr, map};
ghost use Rattle.mk_tree.specs.Documents.{tree};
ghost use Rattle.mk_decide.specs.Answers.{refusal_of};
ghost use Rattle.mk_edit.specs.Answers.{IsGroupRefusedBy};
ghost use Rattle.mk_decide.specs.Edits.{Refusal, Member};
ghost use Rattle.mk_edit.specs.Groups.{together as defined};
ghost use Rattle.mk_edit.specs.Histories.{grouped_by};
ghost use Rattle.mk_edit.specs.History.{History};
ghost use Rattle.mk_edit.specs.Made.{AreMade};
ghost use Rattle.mk_decide.specs.Views.{edit_of};
ghost use Rattle.mk_splice.specs.Views.{splice_of};

use crate::drafts::Draft;
use crate::errors::GroupError;
use mk_decide::{Edit, EditError};
use mk_line::Meter;
use mk_splice::Splice;
use mk_tree::Doc;
use std::alloc::Global;

/// Makes edits one after another in a copy of a document, and answers it with their splices.
pub(crate) fn together(
    alloc: Global,
    doc: &Doc,
    list: &[Edit],
    meter: &mut Meter,
) -> Result<(Doc, Vec<Splice>), GroupError>
    ensures ok { IfOk result (λ p. AreMade (map edit_of list.now) doc.now (map splice_of p.1.items) p.0) }
    ensures err { IfErr result (λ e. (h : History) → IsGroupRefusedBy e (grouped_by h (defined (map edit_of list.now) (tree doc.now)))) }
{
    let mut draft = Draft::begin(alloc, doc, list)?;
    let mut splices = Vec::with_capacity(alloc, list.len())?;
    for edit in list {
        let next = draft.ready(alloc, &list[splices.len()..]);
        match next.make(alloc, edit, meter) {
            Ok((made, splice)) => {
                draft = made;
                splices.push_reserved(splice);
            }
            Err(error) => return Err(refused(splices.len(), error)),
        }
    }
    Ok((draft.read(alloc)?, splices))
}

/// Why a group with this edit is refused.
pub(crate) fn refused(index: usize, refusal: EditError) -> GroupError
    ensures { (r : Result History Refusal) → ((reason : Refusal) → refusal_of refusal ≡ Some reason → r ≡ Err (Member index reason)) → IsGroupRefusedBy result r }
{
    if refusal.is_memory() {
        GroupError::Memory
    } else {
        GroupError::Member { index, refusal }
    }
}
