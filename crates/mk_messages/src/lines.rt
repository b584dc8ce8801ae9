//! The lines of messages in the listing of a mailbox.
ghost use Rattle.std.specs.Prelude.{◌≡◌, ◌<◌, ◌+◌, ◌^◌, List, ℕ, length, IfOk};
ghost use Rattle.mk_messages.specs.MessageLines.{message_line, section_count};

use mk_line::line_count;
use mk_tree::Doc;
use mk_view::list;
use std::alloc::{AllocError, Global};

/// A kind of lines, one for each message.
pub trait MessageLine {
    /// The line of a message, by its number, where it begins in bytes from 0, and its bytes.
    ghost text: { Self → ℕ → ℕ → List ℕ → List ℕ };

    /// Writes the line of a message that begins at a place, and ends it. It fails only when memory runs out.
    fn line(
        &self,
        alloc: Global,
        number: u64,
        start: u64,
        message: Vec<u8>,
    ) -> Result<Vec<u8>, AllocError>
        requires { start + length message.items < 2 ^ 64 }
        ensures { IfOk result (λ line. line.items ≡ text self.now number start message.items) };
}

/// Lines of four numbers: that of the message, from 1, where it begins and where it ends in bytes from 0, and how many sections
/// it has.
#[derive(Clone, Copy, Debug)]
pub struct PlainLine;

impl MessageLine for PlainLine {
    ghost text = { λ _. message_line };

    fn line(
        &self,
        alloc: Global,
        number: u64,
        start: u64,
        message: Vec<u8>,
    ) -> Result<Vec<u8>, AllocError> {
        plain_line(alloc, number, start, message)
    }
}

// The plain line of a message that begins at a place.
fn plain_line(
    alloc: Global,
    number: u64,
    start: u64,
    message: Vec<u8>,
) -> Result<Vec<u8>, AllocError>
    requires { start + length message.items < 2 ^ 64 }
    ensures { IfOk result (λ line. line.items ≡ message_line number start message.items) }
{
    let end = start + message.len() as u64;
    let sections = match Doc::read(alloc, message) {
        Ok(doc) => count_sections(alloc, &doc)?,
        Err(_) => return Err(AllocError),
    };
    Ok(format!(in alloc; "{number} {start} {end} {sections}\n")?.into_bytes())
}

/// How many sections a message has.
pub fn count_sections(alloc: Global, doc: &Doc) -> Result<usize, AllocError>
    ensures { IfOk result (λ count. count ≡ section_count doc.now) }
{
    Ok(line_count(&list(alloc, doc)?))
}
