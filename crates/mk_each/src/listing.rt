//! The sections of each message, listed.

ghost use Rattle.std.specs.Prelude.{◌≡◌, IfOk};
ghost use Rattle.mk_transfer.specs.Said.{silence};
ghost use Rattle.mk_view.specs.Listing.{listing};
ghost use Rattle.mk_each.specs.EachListed.{listed_lines, said_listed};

use crate::labels::{number_label, push_labelled};
use mk_messages::{Answer, MessageWork, take_out};
use mk_transfer::Stop;
use mk_tree::Doc;
use mk_view::list;
use std::alloc::{AllocError, Global};

/// Lists the sections of each message as it was before it went into the mailbox: the lines of `mk_view::list`, each after the
/// number of the message and a space.
#[derive(Clone, Copy, Debug)]
pub struct SectionLines {
    /// Lines that the mailbox has marked lose one mark before.
    pub unquote: bool,
}

impl MessageWork<()> for SectionLines {
    ghost does = { λ w number message said _ _. said ≡ said_listed w.unquote number message };

    ghost stops = { λ _ _ _ said _ _. said ≡ silence };

    ghost failures = { λ _ _. 0 };

    fn work(
        &self,
        alloc: Global,
        number: u64,
        message: Vec<u8>,
        _device: &mut (),
        answer: &mut Answer,
    ) -> Result<(), Stop> {
        let message = take_out(alloc, message, self.unquote)?;
        answer.output.text = lines_of(alloc, number, message)?;
        Ok(())
    }
}

// The lines of a message of a number.
fn lines_of(alloc: Global, number: u64, message: Vec<u8>) -> Result<Vec<u8>, AllocError>
    ensures { IfOk result (λ lines. lines.items ≡ listed_lines number message.items) }
{
    let doc = match Doc::read(alloc, message) {
        Ok(doc) => doc,
        Err(_) => return Err(AllocError),
    };
    let label = number_label(alloc, number)?;
    let mut lines = Vec::new(alloc);
    push_labelled(&mut lines, &label, &list(alloc, &doc)?)?;
    Ok(lines)
}
