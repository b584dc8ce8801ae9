//! A document under edits that are made together. Its tree is read when an edit asks for it.
ghost use Rattle.std.specs.Prelude.{◌≡◌, IfOk, IfErr};
ghost use Rattle.mk_tree.specs.Documents.{tree};
ghost use Rattle.mk_decide.specs.Answers.{refusal_of, IsRefusedBy};
ghost use Rattle.mk_edit.specs.Drafts.{text_in};
ghost use Rattle.mk_edit.specs.Made.{IsMade};
ghost use Rattle.mk_decide.specs.Outcomes.{edited};
ghost use Rattle.mk_decide.specs.Views.{edit_of};
ghost use Rattle.mk_splice.specs.Views.{splice_of};

use crate::root_fields::RootFields;
use crate::silent_edits::silent_edit;
use crate::stepping::{make, read_anew};
use mk_decide::{Edit, EditError};
use mk_line::Meter;
use mk_splice::Splice;
use mk_tree::Doc;
use std::alloc::{AllocError, Global};

/// For this many edits in a row that don't ask for the tree it is worth reading the document again after them.
const LONG_RUN: usize = 16;

/// A document that edits are made in.
#[derive(Drop)]
pub(crate) enum Draft {
    /// With its tree.
    Read(Doc),
    /// Without it, while fields of the root are changed that say nothing of the body.
    Fields(RootFields),
}

impl Draft {
    ghost use Rattle.std.specs.Prelude.{◌≡◌, IfOk, IfErr};
    ghost use Rattle.mk_tree.specs.Documents.{tree};
    ghost use Rattle.mk_decide.specs.Answers.{refusal_of, IsRefusedBy};
    ghost use Rattle.mk_edit.specs.Drafts.{text_in};
    ghost use Rattle.mk_edit.specs.Made.{IsMade};
    ghost use Rattle.mk_decide.specs.Outcomes.{edited};
    ghost use Rattle.mk_decide.specs.Views.{edit_of};
    ghost use Rattle.mk_splice.specs.Views.{splice_of};

    /// A copy of a document, in which these edits are to be made. Its tree is read when the first of them asks for it.
    pub(crate) fn begin(alloc: Global, doc: &Doc, list: &[Edit]) -> Result<Draft, AllocError>
        ensures { IfOk result (λ d. text_in d ≡ doc.now) }
    {
        if starts_silently(list) {
            if let Some(fields) = RootFields::copy_of(alloc, doc)? {
                return Ok(Draft::Fields(fields));
            }
        }
        Ok(Draft::Read(read_anew(alloc, doc)?))
    }

    /// The same, without its tree where many edits come next that don't ask for it.
    pub(crate) fn ready(self, alloc: Global, next: &[Edit]) -> Draft
        ensures { text_in result ≡ text_in self }
    {
        match self {
            Draft::Read(doc) => {
                if starts_long_run(next) {
                    from_fields(alloc, doc)
                } else {
                    Draft::Read(doc)
                }
            }
            Draft::Fields(fields) => Draft::Fields(fields),
        }
    }

    /// Makes an edit where nothing is against it, and answers its splice.
    pub(crate) fn make(
        self,
        alloc: Global,
        edit: &Edit,
        meter: &mut Meter,
    ) -> Result<(Draft, Splice), EditError>
        ensures ok { IfOk result (λ p. IsMade (edit_of edit.now) (text_in self) (splice_of p.1) (text_in p.0)) }
        ensures err { IfErr result (λ e. IsRefusedBy (refusal_of e) (edited (edit_of edit.now) (tree (text_in self)))) }
    {
        match self {
            Draft::Read(doc) => make_read(alloc, doc, edit, meter),
            Draft::Fields(fields) => match silent_edit(edit) {
                Some(silent) => {
                    let mut fields = fields;
                    let splice = fields.make(alloc, &silent)?;
                    Ok((Draft::Fields(fields), splice))
                }
                None => make_read(alloc, fields.read(alloc)?, edit, meter),
            },
        }
    }

    /// The document, read.
    pub(crate) fn read(self, alloc: Global) -> Result<Doc, AllocError>
        ensures { IfOk result (λ d. d ≡ text_in self) }
    {
        match self {
            Draft::Read(doc) => Ok(doc),
            Draft::Fields(fields) => fields.read(alloc),
        }
    }
}

// A document without its tree, where its root allows it.
fn from_fields(alloc: Global, doc: Doc) -> Draft
    ensures { text_in result ≡ doc }
{
    match RootFields::of(alloc, doc) {
        Ok(fields) => Draft::Fields(fields),
        Err(doc) => Draft::Read(doc),
    }
}

// Makes an edit in a document with its tree.
fn make_read(
    alloc: Global,
    doc: Doc,
    edit: &Edit,
    meter: &mut Meter,
) -> Result<(Draft, Splice), EditError>
    ensures ok { IfOk result (λ p. IsMade (edit_of edit.now) doc (splice_of p.1) (text_in p.0)) }
    ensures err { IfErr result (λ e. IsRefusedBy (refusal_of e) (edited (edit_of edit.now) (tree doc))) }
{
    let mut doc = doc;
    let splice = make(alloc, &mut doc, edit, meter)?;
    Ok((Draft::Read(doc), splice))
}

// Whether the first edit doesn't ask for the tree.
fn starts_silently(list: &[Edit]) -> bool {
    match list.first() {
        Some(edit) => silent_edit(edit).is_some(),
        None => false,
    }
}

// Whether many edits come first that don't ask for the tree.
fn starts_long_run(next: &[Edit]) -> bool {
    let mut left = LONG_RUN;
    for edit in next {
        if left == 0 {
            return true;
        }
        if silent_edit(edit).is_none() {
            return false;
        }
        left -= 1;
    }
    left == 0
}
