//! Each message unpacked into one folder.

ghost use Rattle.std.specs.Prelude.{◌≡◌, OnErr, OnOk};
ghost use Rattle.mk_transfer.specs.Said.{silence};
ghost use Rattle.mk_show.specs.Chosen.{asked_of};
ghost use Rattle.mk_messages.specs.TakenOut.{taken_out as text_taken_out};
ghost use Rattle.mk_messages.specs.Working.{answer_said};
ghost use Rattle.mk_each.specs.EachUnpacked.{IsStoppedInTurn, IsUnpackedInTurn, said_labelled};

use crate::labels::{message_label, number_label, push_labelled};
use mk_messages::{Answer, InMemory, MessageWork, take_out};
use mk_show::{Folder, UnpackOptions, try_unpack};
use mk_transfer::Stop;
use std::alloc::{AllocError, Global};

/// A folder that messages are unpacked into. It counts how often it failed then.
#[derive(Drop)]
pub struct Unpacked<F: Folder> {
    pub dir: F,
    /// The count stays at the greatest `u64` once it is there.
    pub faults: u64,
}

impl<F: Folder> Unpacked<F> {
    ghost use Rattle.std.specs.Prelude.{◌≡◌};

    /// A folder that didn't fail yet.
    pub fn new(dir: F) -> Unpacked<F>
        ensures dir { result.dir ≡ dir }
        ensures faults { result.faults ≡ 0 }
    {
        Unpacked { dir, faults: 0 }
    }

    /// The folder itself.
    pub fn close(self) -> F
        ensures { result ≡ self.dir }
    {
        self.dir
    }
}

/// Unpacks each message as it was before it went into the mailbox. What is printed has the number of the message and a space
/// before each line. A name that an earlier message took counts as taken.
#[derive(Clone, Copy, Debug)]
pub struct Unpacking<'a> {
    /// What is unpacked of each message, and how.
    pub options: UnpackOptions<'a>,
    /// Lines that the mailbox has marked lose one mark before.
    pub unquote: bool,
}

impl<F: Folder> MessageWork<Unpacked<F>> for Unpacking<'_> {
    ghost does = { λ w number message said old new. IsUnpackedInTurn (asked_of w.options) number (text_taken_out w.unquote message) said (F.files old.dir) (F.files new.dir) };

    ghost stops = { λ w number message said old new. IsStoppedInTurn (asked_of w.options) number (text_taken_out w.unquote message) said (F.files old.dir) (F.files new.dir) };

    ghost failures = { λ _ device. device.faults };

    fn work(
        &self,
        alloc: Global,
        number: u64,
        message: Vec<u8>,
        device: &mut Unpacked<F>,
        answer: &mut Answer,
    ) -> Result<(), Stop> {
        let text = take_out(alloc, message, self.unquote)?;
        let before = device.dir.faults();
        let mut raw = Answer::new(alloc);
        let done = try_unpack(
            alloc,
            &mut InMemory::new(&text),
            &mut raw.output,
            &mut raw.errors,
            &mut device.dir,
            self.options,
        );
        label(alloc, number, &raw, answer)?;
        match done {
            Ok(_) => Ok(()),
            Err(_) if device.dir.faults() == before => Err(Stop::Memory),
            Err(_) => {
                device.faults = device.faults.saturating_add(1);
                Err(Stop::Fault)
            }
        }
    }
}

// Says the same with the number of a message, or nothing where memory runs out.
fn label(alloc: Global, number: u64, raw: &Answer, answer: &mut Answer) -> Result<(), AllocError>
    requires { answer_said answer.old ≡ silence }
    ensures all { OnOk result (answer_said answer.new ≡ said_labelled number (answer_said raw.now)) }
    ensures none { OnErr result (answer_said answer.new ≡ silence) }
{
    let mut output = Vec::new(alloc);
    push_labelled(&mut output, &number_label(alloc, number)?, &raw.output.text)?;
    let mut errors = Vec::new(alloc);
    push_labelled(
        &mut errors,
        &message_label(alloc, number)?,
        &raw.errors.text,
    )?;
    answer.output.text = output;
    answer.errors.text = errors;
    Ok(())
}
