//! Messages that are forwarded as parts (RFC 2046, 5.2.1; RFC 2045, 6.4).
ghost use Rattle.std.specs.Prelude.{◌≡◌, ◌≢◌, ◌++◌, map, nat_eq, not, OnOk};
ghost use Rattle.std.specs.List.{flat_map, list_any, position, starts_with};
ghost use Rattle.mk_line.specs.Lines.{ends_in_return as ends_in_cr};
ghost use Rattle.mk_line.specs.Marks.{dashed};
ghost use Rattle.mk_build.specs.Forwards.{attachment_line, eight_bit_line, ending_after as ending_following, forwarded_part, is_8bit as has_8bit, is_clear as is_clear_text, without_envelope as message_of};
ghost use Rattle.mk_build.specs.ForwardViews.{forwarded_of};
ghost use Rattle.mk_build.specs.inner.PieceViews.{forward_fields};

use mk_line::{Ending, cut, first_line, is_from_line, push_delimiter};
use std::alloc::AllocError;

const HYPHENS: &[u8; 2] = b"--";

const CARRIAGE_RETURN: u8 = b'\r';

/// The first byte that isn't one of 7bit.
const FIRST_8BIT: u8 = 128;

/// A message that is forwarded as a part message/rfc822.
#[derive(Debug, Drop)]
pub struct Forward {
    /// The message. The line that a mailbox puts before it isn't sent.
    pub text: Vec<u8>,
    /// Whether its part has no disposition; else it is an attachment.
    pub inline: bool,
}

impl Forward {
    ghost use Rattle.std.specs.Prelude.{◌≡◌};
    ghost use Rattle.mk_build.specs.Forwards.{is_clear as is_clear_text};
    ghost use Rattle.mk_build.specs.ForwardViews.{forwarded_of};

    /// The bytes that are sent.
    pub fn message(&self) -> &[u8]
        ensures { result.now ≡ (forwarded_of self.now).text }
    {
        without_envelope(&self.text)
    }

    /// Whether a boundary may stand around the message.
    pub fn is_clear_of(&self, boundary: &[u8]) -> bool
        ensures { result ≡ is_clear_text boundary.now (forwarded_of self.now).text }
    {
        is_clear(self.message(), boundary)
    }
}

// A text without the line that a mailbox puts before a message.
fn without_envelope(text: &[u8]) -> &[u8]
    ensures { result.now ≡ message_of text.now }
{
    match first_line(text) {
        Some((line, rest)) => {
            if is_from_line(line.content) {
                rest
            } else {
                text
            }
        }
        None => text,
    }
}

// Whether no line begins with two hyphens and the boundary.
fn is_clear(text: &[u8], boundary: &[u8]) -> bool
    ensures { result ≡ is_clear_text boundary.now text.now }
{
    for line in cut(text) {
        if begins_dashed(line.content, boundary) {
            return false;
        }
    }
    true
}

fn begins_dashed(content: &[u8], boundary: &[u8]) -> bool
    ensures { result ≡ starts_with nat_eq content.now (dashed boundary.now) }
{
    match content.strip_prefix(HYPHENS) {
        Some(rest) => rest.starts_with(boundary),
        None => false,
    }
}

/// The index of the first message with a line that begins with two hyphens and the boundary, from 0.
pub(crate) fn first_holding(messages: &[Forward], boundary: &[u8]) -> Option<usize>
    ensures { result ≡ position (λ f. not (is_clear_text boundary.now f.text)) (map forwarded_of messages.now) }
{
    for (index, forward) in messages.iter().enumerate() {
        if !forward.is_clear_of(boundary) {
            return Some(index);
        }
    }
    None
}

/// Whether some message has a byte of 128 or more.
pub(crate) fn are_8bit(messages: &[Forward]) -> bool
    ensures { result ≡ list_any (λ f. has_8bit f.text) (map forwarded_of messages.now) }
{
    for forward in messages {
        if is_8bit(forward.message()) {
            return true;
        }
    }
    false
}

fn is_8bit(text: &[u8]) -> bool
    ensures { result ≡ has_8bit text.now }
{
    text.iter().any(|byte| *byte >= FIRST_8BIT)
}

/// Writes the parts of messages.
pub(crate) fn push_forwards(
    text: &mut Vec<u8>,
    messages: &[Forward],
    boundary: &[u8],
    eol: Ending,
) -> Result<(), AllocError>
    ensures { OnOk result (text.new.items ≡ text.old.items ++ flat_map (forwarded_part eol boundary.now) (map forwarded_of messages.now)) }
{
    for forward in messages {
        push_forward(text, forward, boundary, eol)?;
    }
    Ok(())
}

fn push_forward(
    text: &mut Vec<u8>,
    forward: &Forward,
    boundary: &[u8],
    eol: Ending,
) -> Result<(), AllocError>
    ensures { OnOk result (text.new.items ≡ text.old.items ++ forwarded_part eol boundary.now (forwarded_of forward.now)) }
{
    let message = forward.message();
    push_forward_fields(text, forward, boundary, eol)?;
    text.extend_from_slice(message)?;
    text.extend_from_slice(ending_after(message, eol).bytes())
}

/// Writes the delimiter before a message, the fields of its part, and the empty line after them.
pub(crate) fn push_forward_fields(
    text: &mut Vec<u8>,
    forward: &Forward,
    boundary: &[u8],
    eol: Ending,
) -> Result<(), AllocError>
    ensures { OnOk result (text.new.items ≡ text.old.items ++ forward_fields eol boundary.now (forwarded_of forward.now)) }
{
    push_delimiter(text, boundary, eol)?;
    text.extend_from_slice(b"Content-Type: message/rfc822")?;
    text.extend_from_slice(eol.bytes())?;
    push_attachment(text, forward.inline, eol)?;
    push_8bit(text, is_8bit(forward.message()), eol)?;
    text.extend_from_slice(eol.bytes())
}

// Writes the disposition, unless the part is to be shown inline.
fn push_attachment(text: &mut Vec<u8>, inline: bool, eol: Ending) -> Result<(), AllocError>
    ensures { OnOk result (text.new.items ≡ text.old.items ++ attachment_line eol inline) }
{
    if inline {
        return Ok(());
    }
    text.extend_from_slice(b"Content-Disposition: attachment")?;
    text.extend_from_slice(eol.bytes())
}

/// Writes the line that tells of bytes of 128 or more, where there are any.
pub(crate) fn push_8bit(text: &mut Vec<u8>, wide: bool, eol: Ending) -> Result<(), AllocError>
    ensures { OnOk result (text.new.items ≡ text.old.items ++ eight_bit_line eol wide) }
{
    if !wide {
        return Ok(());
    }
    text.extend_from_slice(b"Content-Transfer-Encoding: 8bit")?;
    text.extend_from_slice(eol.bytes())
}

/// The ending between a message and the next delimiter.
pub(crate) fn ending_after(message: &[u8], eol: Ending) -> Ending
    ensures { result ≡ ending_following eol message.now }
{
    if ends_in_return(message) {
        Ending::Crlf
    } else {
        eol
    }
}

fn ends_in_return(text: &[u8]) -> bool
    ensures { result ≡ ends_in_cr text.now }
{
    match text {
        [.., last] => *last == CARRIAGE_RETURN,
        [] => false,
    }
}
