//! All multiparts of a message changed as one step.
ghost use Rattle.std.specs.Prelude.{◌≡◌, ◌++◌, map, IfErr, IfOk, OnOk};
ghost use Rattle.std.specs.List.{flat_map};
ghost use Rattle.mk_tree.specs.Documents.{tree};
ghost use Rattle.mk_decide.specs.Edits.{Group};
ghost use Rattle.mk_decide.specs.Views.{edit_of};
ghost use Rattle.mk_edit.specs.Answers.{IsGroupRefusedBy};
ghost use Rattle.mk_edit.specs.Histories.{started, step};
ghost use Rattle.mk_view.specs.Listed.{listed};
ghost use Rattle.mk_view.specs.ListedViews.{listed_view};
ghost use Rattle.mk_uses.specs.Inserted.{IsMadeBy, all_insertions, insertion};

use mk_edit::{Edit, GroupError, Session};
use mk_line::Meter;
use mk_tree::{Doc, Kind};
use mk_view::{Listed, all_sections};
use std::alloc::{AllocError, Global};

/// A message with one more part at the end of each of its multiparts, as one step: all of them get it, or none.
pub fn add_to_each_multipart(
    alloc: Global,
    message: Vec<u8>,
    part: &[u8],
) -> Result<Vec<u8>, GroupError>
    ensures added { IfOk result (λ text. IsMadeBy (all_insertions part.now (tree message.items)) message.items text.items) }
    ensures refused { IfErr result (λ error. IsGroupRefusedBy error (step (Group (all_insertions part.now (tree message.items))) (started message.items))) }
{
    let mut session = match Session::start(alloc, message) {
        Ok(session) => session,
        Err(_) => return Err(GroupError::Memory),
    };
    let edits = insertions(alloc, session.doc(), part)?;
    session.group(&edits, &mut Meter::new())?;
    let text = Vec::from_slice(alloc, session.text())?;
    Ok(text)
}

// The edits that put a part at the end of each multipart. The numbers of the other sections stay, so all paths stay true.
fn insertions(alloc: Global, doc: &Doc, part: &[u8]) -> Result<Vec<Edit>, AllocError>
    ensures { IfOk result (λ edits. map edit_of edits.items ≡ flat_map (insertion part.now) (listed (tree doc.now))) }
{
    let mut edits = Vec::new(alloc);
    for listed in all_sections(alloc, doc)? {
        push_insertion(alloc, &mut edits, listed, part)?;
    }
    Ok(edits)
}

// Puts the edit of one section after others, if it is a multipart.
fn push_insertion(
    alloc: Global,
    edits: &mut Vec<Edit>,
    listed: Listed<'_>,
    part: &[u8],
) -> Result<(), AllocError>
    ensures { OnOk result (map edit_of edits.new.items ≡ map edit_of edits.old.items ++ insertion part.now (listed_view listed.entry)) }
{
    let Listed { path, section } = listed;
    match section.kind() {
        Kind::Multi => {
            let place = u32::try_from(section.parts()).unwrap_or(u32::MAX);
            let text = Vec::from_slice(alloc, part)?;
            edits.push(Edit::InsertPart { path, place, text })?;
            Ok(())
        }
        Kind::Leaf | Kind::Message => Ok(()),
    }
}
