//! A mailbox filtered: a field is put into each of its messages.
ghost use Rattle.std.specs.Prelude.{◌≡◌, ◌++◌, ◌∷◌, [], ℕ, List, false, IfOk, OnOk};
ghost use Rattle.std.specs.Io.KnownBytes.{Consumes};
ghost use Rattle.std.specs.Option.{option_map};
ghost use Rattle.mk_tree.specs.Documents.{tree};
ghost use Rattle.mk_decide.specs.Edits.{AddField};
ghost use Rattle.mk_decide.specs.Outcomes.{edited};
ghost use Rattle.mk_mailbox.specs.declared.from_lines.FromLines.TheVariants.{Any};
ghost use Rattle.mk_mailbox.specs.Pieces.{mailbox_pieces};
ghost use Rattle.mk_mail.specs.Replaced.{texts_left};
ghost use Rattle.mk_uses.specs.Tagged.{all_tagged, tagged, tagged_one, text_made};

use mk_edit::{Edit, EditError, Session};
use mk_line::Meter;
use mk_mail::laws::{ends_are_whole, pieces_are_uncut, replaced_stay_apart};
use mk_mailbox::{FromLines, MailFault, Mailbox, Place, Source};
use std::alloc::{AllocError, Global};

/// The mailbox that a source gives, with a field at the end of the header of each message. A message that can't have it stays as it
/// came, and so does one that would no longer be one message then. All messages stay apart.
pub fn tag_each<S: Source>(
    alloc: Global,
    source: &mut S,
    field: &[u8],
) -> Result<Vec<u8>, MailFault>
    ensures { IfOk result (λ out. (read : List ℕ) × Consumes (S.remaining source.old) (S.remaining source.new) read
        × (out.items ≡ all_tagged field.now read) × (mailbox_pieces Any out.items ≡ texts_left (tagged field.now read))) }
{
    ends_are_whole();
    pieces_are_uncut();
    replaced_stay_apart();
    let mut mailbox = Mailbox::new(alloc);
    let mut out = Vec::new(alloc);
    for _message in 0..u64::MAX {
        match mailbox.next(source)? {
            Some(message) => match push_tagged(alloc, &mut out, message, field) {
                Ok(()) => {}
                Err(_) => return Err(MailFault::Memory),
            },
            None => return Ok(out),
        }
    }
    Err(MailFault::ReadFault)
}

// Puts a message with the field after others.
fn push_tagged(
    alloc: Global,
    out: &mut Vec<u8>,
    message: Vec<u8>,
    field: &[u8],
) -> Result<(), AllocError>
    ensures { OnOk result (out.new.items ≡ out.old.items ++ tagged_one field.now message.items) }
{
    let place = Place::of(FromLines::Any, &message);
    let before = Vec::from_slice(alloc, &message)?;
    match with_field(alloc, message, field)? {
        Some(text) if place.fits(&text) => out.extend_from_slice(&text),
        Some(_) => out.extend_from_slice(&before),
        None => out.extend_from_slice(&before),
    }
}

// A message with the field; none where the edit is refused.
fn with_field(alloc: Global, message: Vec<u8>, field: &[u8]) -> Result<Option<Vec<u8>>, AllocError>
    ensures { IfOk result (λ o. option_map (λ text. text.items) o ≡ text_made (edited (AddField (1 ∷ []) false field.now) (tree message.items))) }
{
    let edit = Edit::AddField {
        path: Vec::from_slice(alloc, &[1])?,
        top: false,
        text: Vec::from_slice(alloc, field)?,
    };
    let mut session = match Session::start(alloc, message) {
        Ok(session) => session,
        Err(_) => return Err(AllocError),
    };
    match session.edit(&edit, &mut Meter::new()) {
        Ok(()) => Ok(Some(Vec::from_slice(alloc, session.text())?)),
        Err(EditError::Memory) => Err(AllocError),
        Err(_) => Ok(None),
    }
}
