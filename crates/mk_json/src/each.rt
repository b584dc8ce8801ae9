//! The sections of each message of a mailbox, as objects of JSON.
ghost use Rattle.std.specs.Prelude.{◌≡◌, []};
ghost use Rattle.mk_transfer.specs.Said.{silence};

use crate::listing::list_in;
use mk_messages::{Answer, MessageWork, take_out};
use mk_transfer::Stop;
use mk_tree::Doc;
use mk_view::NameForm;
use std::alloc::{AllocError, Global};

const LINE_FEED: u8 = b'\n';

/// Lists the sections of each message as it was before it went into the mailbox: the objects of `list_in`, each with the number
/// of the message as its first member.
#[derive(Clone, Copy, Debug)]
pub struct SectionObjects {
    /// The form of the names for storing.
    pub form: NameForm,
    /// Lines that the mailbox has marked lose one mark before.
    pub unquote: bool,
}

impl MessageWork<()> for SectionObjects {
    ghost does = { λ _ _ _ said _ _. said.errors ≡ [] };

    ghost stops = { λ _ _ _ said _ _. said ≡ silence };

    ghost failures = { λ _ _. 0 };

    fn work(
        &self,
        alloc: Global,
        number: u64,
        message: Vec<u8>,
        _device: &mut (),
        answer: &mut Answer,
    ) -> Result<(), Stop> {
        let message = take_out(alloc, message, self.unquote)?;
        answer.output.text = objects(alloc, number, message, self.form)?;
        Ok(())
    }
}

// The objects of a message of a number.
fn objects(
    alloc: Global,
    number: u64,
    message: Vec<u8>,
    form: NameForm,
) -> Result<Vec<u8>, AllocError> {
    let doc = match Doc::read(alloc, message) {
        Ok(doc) => doc,
        Err(_) => return Err(AllocError),
    };
    let first = format!(in alloc; "{{\"message\":{number},")?;
    let mut text = Vec::new(alloc);
    for line in list_in(alloc, &doc, form)?.split(|byte| *byte == LINE_FEED) {
        if let [_, members @ ..] = line {
            text.extend_from_slice(first.as_bytes())?;
            text.extend_from_slice(members)?;
            text.push(LINE_FEED)?;
        }
    }
    Ok(text)
}
