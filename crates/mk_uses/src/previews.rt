//! An edit and its undo.
ghost use Rattle.std.specs.Prelude.{◌≡◌, ◌∷◌, [], false, IfErr, IfOk};
ghost use Rattle.mk_tree.specs.Documents.{tree};
ghost use Rattle.mk_decide.specs.Answers.{refusal_of, IsRefusedBy};
ghost use Rattle.mk_decide.specs.Edits.{AddField};
ghost use Rattle.mk_decide.specs.Outcomes.{edited};
ghost use Rattle.mk_uses.specs.Uses.{ShowsEdit};

use mk_edit::{Edit, EditError, Session};
use mk_line::Meter;
use std::alloc::Global;

/// The message with one more field at the end of its header, and then the message again, byte for byte.
pub fn preview(
    alloc: Global,
    message: Vec<u8>,
    field: Vec<u8>,
) -> Result<(Vec<u8>, Vec<u8>), EditError>
    ensures shown { IfOk result (λ texts. ShowsEdit (AddField (1 ∷ []) false field.items) message.items texts.0.items) }
    ensures back { IfOk result (λ texts. texts.1.items ≡ message.items) }
    ensures refused { IfErr result (λ error. IsRefusedBy (refusal_of error) (edited (AddField (1 ∷ []) false field.items) (tree message.items))) }
{
    let edit = Edit::AddField {
        path: Vec::from_slice(alloc, &[1])?,
        top: false,
        text: field,
    };
    let mut session = match Session::start(alloc, message) {
        Ok(session) => session,
        Err(_) => return Err(EditError::Memory),
    };
    session.edit(&edit, &mut Meter::new())?;
    let shown = Vec::from_slice(alloc, session.text())?;
    session.undo()?;
    let back = Vec::from_slice(alloc, session.text())?;
    Ok((shown, back))
}
