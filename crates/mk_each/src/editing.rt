//! Each message edited by a script.

ghost use Rattle.std.specs.Prelude.{◌≡◌, ◌++◌, ◌∷◌, [], codes, length, OnOk};
ghost use Rattle.mk_line.specs.Ascii.{line_feed};
ghost use Rattle.mk_expand.specs.Views.{pieces_of};
ghost use Rattle.mk_script.specs.Reasons.{steps_of};
ghost use Rattle.mk_transfer.specs.Said.{silence};
ghost use Rattle.mk_messages.specs.Working.{answer_said};
ghost use Rattle.mk_each.specs.EachEdited.{edited_run, said_edited, separated};
ghost use Rattle.mk_each.specs.Labels.{said_of_run_as};

use crate::labels::{message_label, push_labelled};
use mk_line::ends_open;
use mk_mailbox::{FromLines, Place};
use mk_messages::{Answer, Buffer, InMemory, MessageWork, before_separator};
use mk_run::{Journal, Pieces, Script, try_edit};
use mk_transfer::Stop;
use std::alloc::{AllocError, Global};

/// What is reported of a message that would be cut otherwise after its edits.
const RECUT: &[u8] = b"Recut\n";

/// Edits each message by a script. The empty line that ends a message in the mailbox isn't edited, and stands after it again; an
/// open last line before it is ended. Where the result can't stand in the place of the message (`Place::fits`), the message goes out as it came, and
/// is reported; so is each refused line, with the number of the message.
#[derive(Clone, Copy, Debug)]
pub struct MailboxEdit<'a> {
    pub script: Script<'a>,
    pub pieces: Pieces<'a>,
    /// Which From-lines begin a message.
    pub from_lines: FromLines,
}

impl MessageWork<()> for MailboxEdit<'_> {
    ghost does = { λ w number message said _ _. said ≡ said_edited (pieces_of w.pieces) (steps_of w.script.as_one (length w.pieces.texts.now) w.script.text.now) w.from_lines number message };

    ghost stops = { λ _ _ _ said _ _. said ≡ silence };

    ghost failures = { λ _ _. 0 };

    fn work(
        &self,
        alloc: Global,
        number: u64,
        message: Vec<u8>,
        _device: &mut (),
        answer: &mut Answer,
    ) -> Result<(), Stop> {
        match edit_message(alloc, self, number, &message, answer) {
            Ok(()) => Ok(()),
            Err(AllocError) => {
                answer.clear();
                Err(Stop::Memory)
            }
        }
    }
}

// Edits one message, where the result fits its place.
fn edit_message(
    alloc: Global,
    edit: &MailboxEdit<'_>,
    number: u64,
    message: &[u8],
    answer: &mut Answer,
) -> Result<(), AllocError>
    requires { answer_said answer.old ≡ silence }
    ensures { OnOk result (answer_said answer.new ≡ said_edited (pieces_of edit.now.pieces) (steps_of edit.now.script.as_one (length edit.now.pieces.texts.now) edit.now.script.text.now) edit.now.from_lines number message.now) }
{
    if edit.from_lines.leaves_alone(message) {
        return answer.output.text.extend_from_slice(message);
    }
    let alone = before_separator(message);
    let label = message_label(alloc, number)?;
    edit_alone(alloc, edit, &label, alone, answer)?;
    close(&mut answer.output.text, &message[alone.len()..])?;
    if Place::of(edit.from_lines, message).fits(&answer.output.text) {
        return Ok(());
    }
    put_back(&label, message, answer)
}

// Edits a message without the line that ends it in the mailbox.
fn edit_alone(
    alloc: Global,
    edit: &MailboxEdit<'_>,
    label: &[u8],
    message: &[u8],
    answer: &mut Answer,
) -> Result<(), AllocError>
    requires { answer_said answer.old ≡ silence }
    ensures { OnOk result (answer_said answer.new ≡ said_of_run_as label.now (edited_run (pieces_of edit.now.pieces) (steps_of edit.now.script.as_one (length edit.now.pieces.texts.now) edit.now.script.text.now) message.now)) }
{
    let mut input = InMemory::new(message);
    let (mut errors, mut kept) = (Buffer::new(alloc), Buffer::new(alloc));
    match try_edit(
        alloc,
        &mut input,
        &mut answer.output,
        &mut errors,
        edit.script,
        edit.pieces,
        Journal::Off,
        &mut kept,
    ) {
        Ok(_) => {}
        Err(_) => return Err(AllocError),
    }
    push_labelled(&mut answer.errors.text, label, &errors.text)
}

// Writes the empty line that ends a message in a mailbox after a text, of which an open last line ends as that one does.
fn close(text: &mut Vec<u8>, separator: &[u8]) -> Result<(), AllocError>
    ensures { OnOk result (text.new.items ≡ separated text.old.items separator.now) }
{
    if ends_open(text) {
        text.extend_from_slice(separator)?;
    }
    text.extend_from_slice(separator)
}

// Puts a message in the place of what its edits leave, and reports it.
fn put_back(label: &[u8], message: &[u8], answer: &mut Answer) -> Result<(), AllocError>
    ensures { OnOk result (answer_said answer.new ≡ record { output = message.now; errors = answer.old.errors.text.items ++ (label.now ++ (codes "Recut" ++ line_feed ∷ [])) }) }
{
    let output = &mut answer.output.text;
    output.clear();
    output.extend_from_slice(message)?;
    let errors = &mut answer.errors.text;
    errors.extend_from_slice(label)?;
    errors.extend_from_slice(RECUT)
}
