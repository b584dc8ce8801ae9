//! Whether an edit is accepted, and the bytes that it puts in the place of others.
ghost use Rattle.std.specs.Prelude.{◌≤◌, ◌+◌, ◌*◌, IfOk, IfErr};
ghost use Rattle.mk_tree.specs.Documents.{tree};
ghost use Rattle.mk_decide.specs.Decided.{IsSpliceOf};
ghost use Rattle.mk_decide.specs.Answers.{refusal_of, IsRefusedBy};
ghost use Rattle.mk_decide.specs.Counts.{edit_lines};
ghost use Rattle.mk_decide.specs.FieldPuts.{plain_of};
ghost use Rattle.mk_decide.specs.Outcomes.{edited};
ghost use Rattle.mk_decide.specs.Views.{edit_of};

use crate::edits::Edit;
use crate::errors::EditError;
use crate::field_answers::decide_fields;
use crate::field_edits::FieldEdit;
use crate::part_edits::{decide_insertion, decide_removal};
use crate::section_edits::{decide_body, decide_section};
use crate::wrap_edits::decide_wrap;
use mk_line::Meter;
use mk_tree::Doc;
use std::alloc::Global;

/// Bytes in the place of others.
#[derive(Debug, Drop)]
pub struct Replacement {
    /// Where they stand in the document, in bytes from 0.
    pub place: usize,
    pub count: usize,
    pub new: Vec<u8>,
}

/// The bytes that an edit puts in the place of others, or the first reason against it.
pub fn decide(
    alloc: Global,
    doc: &Doc,
    edit: &Edit,
    meter: &mut Meter,
) -> Result<Replacement, EditError>
    ensures ok { IfOk result (λ r. IsSpliceOf (edit_of edit.now) doc.now r.place r.count r.new.items) }
    ensures err { IfErr result (λ e. IsRefusedBy (refusal_of e) (edited (edit_of edit.now) (tree doc.now))) }
    ensures most { meter.new ≤ meter.old + 2 * edit_lines (edit_of edit.now) (tree doc.now) + 2 }
{
    match edit {
        Edit::AddField { path, top, text } => {
            let edit = FieldEdit::Add { top: *top, text };
            decide_fields(alloc, doc, path, &edit, meter)
        }
        Edit::RemoveField { path, name, k } => {
            let edit = FieldEdit::Remove { name, k: *k };
            decide_fields(alloc, doc, path, &edit, meter)
        }
        Edit::RenameField { path, name, k, to } => {
            let edit = FieldEdit::Rename { name, k: *k, to };
            decide_fields(alloc, doc, path, &edit, meter)
        }
        Edit::SetField {
            path,
            name,
            k,
            text,
        } => {
            let edit = FieldEdit::Set { name, k: *k, text };
            decide_fields(alloc, doc, path, &edit, meter)
        }
        Edit::SetBody { path, text } => decide_body(alloc, doc, path, text),
        Edit::SetSection { path, text } => decide_section(alloc, doc, path, text),
        Edit::InsertPart { path, place, text } => decide_insertion(alloc, doc, path, *place, text),
        Edit::RemovePart { path } => decide_removal(alloc, doc, path),
        Edit::Wrap {
            path,
            subtype,
            boundary,
        } => decide_wrap(alloc, doc, path, subtype, boundary, meter),
    }
}
