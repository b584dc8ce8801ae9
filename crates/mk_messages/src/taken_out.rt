//! A message of a mailbox as it was before it went in.

ghost use Rattle.std.specs.Prelude.{◌≡◌, ◌==◌, ◌<◌, ◌≤◌, length, take, true, IfOk};
ghost use Rattle.std.specs.List.{prefix_len};
ghost use Rattle.mk_line.specs.Lines.{cut as lines_of};
ghost use Rattle.mk_line.specs.Views.{line_of};
ghost use Rattle.mk_mailbox.specs.declared.from_lines.FromLines.TheVariants.{Any};
ghost use Rattle.mk_mailbox.specs.Places.{begins_from as is_from_first};
ghost use Rattle.mk_messages.specs.inner.Separators.{separator_length as length_of_separator};
ghost use Rattle.mk_messages.specs.TakenOut.{is_marked as was_marked, mark, taken_out as text_taken_out, unmarked as unmarked_text, unmarked_line as line_unmarked, without_separator as text_alone};

use mk_line::{Line, cut, is_from_line};
use std::alloc::{AllocError, Global};

/// What a mailbox puts before a line that would be a From-line in it.
const MARK: u8 = b'>';

const FROM: &[u8] = b"From ";

/// What stands of a message before the empty line that ends it in a mailbox. A text that doesn't begin with a From-line stays as it
/// is.
pub fn before_separator(message: &[u8]) -> &[u8]
    ensures { result.now ≡ text_alone message.now }
{
    &message[..alone_length(message)]
}

/// Removes the empty line that ends a message in a mailbox. A text that doesn't begin with a From-line stays as it is.
pub fn without_separator(message: Vec<u8>) -> Vec<u8>
    ensures { result.items ≡ text_alone message.items }
{
    let mut message = message;
    let length = alone_length(&message);
    message.truncate(length);
    message
}

/// A message as it was before it went into the mailbox. Where `unquote` says so, its lines lose one mark, too.
pub fn take_out(alloc: Global, message: Vec<u8>, unquote: bool) -> Result<Vec<u8>, AllocError>
    ensures { IfOk result (λ text. text.items ≡ text_taken_out unquote message.items) }
{
    let alone = without_separator(message);
    if unquote {
        unmarked(alloc, &alone)
    } else {
        Ok(alone)
    }
}

// How many bytes of a message stand before that line.
fn alone_length(message: &[u8]) -> usize
    ensures front { take result message.now ≡ text_alone message.now }
    ensures within { result ≤ length message.now }
{
    if begins_from(message) {
        message.len().saturating_sub(separator_length(message))
    } else {
        message.len()
    }
}

fn begins_from(text: &[u8]) -> bool
    ensures { result ≡ is_from_first Any (lines_of text.now) }
{
    match cut(text).next() {
        Some(line) => is_from_line(line.content),
        None => false,
    }
}

// How many bytes the last line has, where it is empty.
fn separator_length(text: &[u8]) -> usize
    ensures { result ≡ length_of_separator (lines_of text.now) }
{
    let mut length = 0;
    for line in cut(text) {
        length = if line.content.is_empty() {
            line.ending.bytes().len()
        } else {
            0
        };
    }
    length
}

/// Removes one mark from each line that a mailbox has marked: `>From `, and any with more marks before it.
pub fn unmarked(alloc: Global, message: &[u8]) -> Result<Vec<u8>, AllocError>
    ensures { IfOk result (λ text. text.items ≡ unmarked_text message.now) }
{
    let mut text = Vec::with_capacity(alloc, message.len())?;
    for line in cut(message) {
        text.extend_from_slice(unmarked_content(&line))?;
        text.extend_from_slice(line.ending.bytes())?;
    }
    Ok(text)
}

// A line without one of its marks, and without its ending.
fn unmarked_content<'a>(line: &Line<'a>) -> &'a [u8]
    ensures { result.now ≡ (line_unmarked (line_of line.now)).content }
{
    if is_marked(line.content) {
        &line.content[1..]
    } else {
        line.content
    }
}

fn is_marked(content: &[u8]) -> bool
    ensures marked { result ≡ was_marked content.now }
    ensures some { result ≡ true → 0 < length content.now }
{
    let marks = leading_marks(content);
    marks > 0 && content[marks..].starts_with(FROM)
}

fn leading_marks(content: &[u8]) -> usize
    ensures front { result ≡ prefix_len (λ byte. byte == mark) content.now }
    ensures within { result ≤ length content.now }
{
    content.iter().take_while(|byte| **byte == MARK).count()
}
