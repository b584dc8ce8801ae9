//! Sections of each message, extracted.

ghost use Rattle.std.specs.Prelude.{◌≡◌, ◌++◌, IfOk, OnOk, OnErr};
ghost use Rattle.mk_transfer.specs.Said.{silence};
ghost use Rattle.mk_messages.specs.Working.{answer_said};
ghost use Rattle.mk_messages.specs.TakenOut.{taken_out as text_taken_out};
ghost use Rattle.mk_script.specs.ScriptViews.{items_of};
ghost use Rattle.mk_each.specs.EachExtracted.{IsExtractedInTurn};

use crate::labels::{message_label, push_labelled};
use mk_messages::{Answer, Buffer, InMemory, MessageWork, take_out};
use mk_show::{Portion, try_extract_all};
use mk_transfer::Stop;
use std::alloc::{AllocError, Global};

/// Gives a portion of some sections of each message as it was before it went into the mailbox, one after another. A message that
/// can't give one is reported, with its number.
#[derive(Clone, Copy, Debug)]
pub struct Extracting<'a> {
    /// The paths of the sections.
    pub paths: &'a [Vec<u32>],
    /// What is given of each.
    pub wanted: Portion,
    /// Lines that the mailbox has marked lose one mark before.
    pub unquote: bool,
}

impl MessageWork<()> for Extracting<'_> {
    ghost does = { λ w number message said _ _. IsExtractedInTurn w.wanted (items_of w.paths.now) number (text_taken_out w.unquote message) said };

    ghost stops = { λ _ _ _ said _ _. said ≡ silence };

    ghost failures = { λ _ _. 0 };

    fn work(
        &self,
        alloc: Global,
        number: u64,
        message: Vec<u8>,
        _device: &mut (),
        answer: &mut Answer,
    ) -> Result<(), Stop> {
        let message = take_out(alloc, message, self.unquote)?;
        match extract(alloc, self.paths, self.wanted, number, &message, answer) {
            Ok(()) => Ok(()),
            Err(AllocError) => {
                answer.clear();
                Err(Stop::Memory)
            }
        }
    }
}

// Gives a portion of some sections of one message.
fn extract(
    alloc: Global,
    paths: &[Vec<u32>],
    wanted: Portion,
    number: u64,
    message: &[u8],
    answer: &mut Answer,
) -> Result<(), AllocError>
    requires { answer_said answer.old ≡ silence }
    ensures { OnOk result (IsExtractedInTurn wanted (items_of paths.now) number message.now (answer_said answer.new)) }
{
    let mut input = InMemory::new(message);
    let mut errors = Buffer::new(alloc);
    match try_extract_all(
        alloc,
        &mut input,
        &mut answer.output,
        &mut errors,
        paths,
        wanted,
    ) {
        Ok(_) => {}
        Err(_) => return Err(AllocError),
    }
    let label = message_label(alloc, number)?;
    push_labelled(&mut answer.errors.text, &label, &errors.text)
}
