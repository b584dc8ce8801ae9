//! The places of messages in a mailbox, and the texts that may stand there.
ghost use Rattle.std.specs.Prelude.{◌≡◌, false};
ghost use Rattle.mk_line.specs.Lines.{cut as lines_of};
ghost use Rattle.mk_mailbox.specs.Places.{begins_from, ends_empty as last_is_empty, fits_place, is_uncut as is_one};

use crate::from_lines::FromLines;
use crate::gathering::end_with_empty;
use mk_line::{ends_open, first_line};

/// The place of a message in a mailbox. Where a text that doesn't fit it stands there, the mailbox is cut into other messages.
#[derive(Clone, Copy, Debug)]
pub struct Place {
    /// Which From-lines begin the messages.
    pub from_lines: FromLines,
    /// Whether the message begins with such a line.
    pub begins: bool,
    /// Whether it ends with an empty line.
    pub ends: bool,
}

impl Place {
    ghost use Rattle.std.specs.Prelude.{◌≡◌, false};
    ghost use Rattle.mk_line.specs.Lines.{cut as lines_of};
    ghost use Rattle.mk_mailbox.specs.Places.{begins_from, ends_empty as last_is_empty, fits_place};

    /// That of a message of a mailbox.
    pub fn of(from_lines: FromLines, message: &[u8]) -> Place
        ensures from_lines { result.from_lines ≡ from_lines }
        ensures begins { result.begins ≡ begins_from from_lines (lines_of message.now) }
        ensures ends { result.ends ≡ last_is_empty false (lines_of message.now) }
    {
        Place {
            from_lines,
            begins: begins(from_lines, message),
            ends: ends_empty(message),
        }
    }

    /// Whether a text may stand there: it is cut as one message, and begins and ends so that the messages around it stay as
    /// they are.
    pub fn fits(&self, text: &[u8]) -> bool
        ensures { result ≡ fits_place self.now.from_lines self.now.begins self.now.ends text.now }
    {
        is_uncut(self.from_lines, text)
            && (!self.begins || begins(self.from_lines, text))
            && (!self.ends || ends_empty(text))
    }
}

// Whether the first line is a From-line that begins a message.
fn begins(from_lines: FromLines, text: &[u8]) -> bool
    ensures { result ≡ begins_from from_lines (lines_of text.now) }
{
    match first_line(text) {
        Some((line, rest)) => from_lines.begin_before(line.content, rest),
        None => false,
    }
}

// Whether the last line is empty. Only the last bytes tell.
fn ends_empty(text: &[u8]) -> bool
    ensures { result ≡ last_is_empty false (lines_of text.now) }
{
    !ends_open(text) && end_with_empty(text)
}

// Whether no line begins another message.
fn is_uncut(from_lines: FromLines, text: &[u8]) -> bool
    ensures { result ≡ is_one from_lines text.now }
{
    let mut after_empty = false;
    let mut rest = text;
    'each: while let Some((line, following)) = first_line(rest) {
        if after_empty && from_lines.begin_before(line.content, following) {
            return false;
        }
        after_empty = line.content.is_empty();
        rest = following;
    }
    true
}
