//! The header of an answer.

ghost use Rattle.std.specs.Prelude.{◌≡◌, ◌++◌, codes, false, IfOk, OnOk};
ghost use Rattle.std.specs.Option.{option_map};
ghost use Rattle.mk_line.specs.Lines.{cut as lines_of};
ghost use Rattle.mk_head.specs.Fields.{fields_of};
ghost use Rattle.mk_head.specs.Split.{fields_from};
ghost use Rattle.mk_head.specs.Views.{field_view};
ghost use Rattle.mk_tree.specs.Documents.{tree};
ghost use Rattle.mk_tree.specs.Sections.{root_of, section_fields};
ghost use Rattle.mk_reply.specs.Replies.{addressees as addressees_in, earlier_identifiers, or_else, reply_line, reply_to, with_identifier, words_of_field, words_of_name};

use crate::identifiers::is_one_identifier;
use crate::subjects::reply_subject;
use mk_head::{Field, each_field};
use mk_line::{Ending, eol_of, split_at_first};
use mk_tree::after_envelope;
use std::alloc::{AllocError, Global};

const COLON: u8 = b':';

/// The header of an answer to a message, and the empty line after it; `None` where the message has neither a Reply-To nor a From
/// that says anything. What the fields say is copied as it stands, with its folds.
pub fn reply_header(alloc: Global, message: &[u8]) -> Result<Option<Vec<u8>>, AllocError>
    ensures { IfOk result (λ header. option_map (λ h. h.items) header ≡ reply_to message.now) }
{
    let eol = eol_of(message);
    let head = after_envelope(message);
    let addressees = addressees(head);
    if addressees.is_empty() {
        return Ok(None);
    }
    let mut text = Vec::new(alloc);
    push_line(&mut text, eol, "To", addressees)?;
    let subject = reply_subject(alloc, words(head, b"Subject"))?;
    push_line(&mut text, eol, "Subject", &subject)?;
    push_line(&mut text, eol, "In-Reply-To", words(head, b"Message-ID"))?;
    push_line(&mut text, eol, "References", &references(alloc, eol, head)?)?;
    text.extend_from_slice(eol.bytes())?;
    Ok(Some(text))
}

/// What the first field of a name says in a message, at its root: what follows the colon, as it stands with its folds, without the
/// white space around it. Nothing where there is no such field.
pub fn field_words<'a>(message: &'a [u8], name: &[u8]) -> &'a [u8]
    ensures { result.now ≡ words_of_name name.now (section_fields (root_of (tree message.now))) }
{
    words(after_envelope(message), name)
}

// Who is answered.
fn addressees(head: &[u8]) -> &[u8]
    ensures { result.now ≡ addressees_in (fields_of (fields_from false (lines_of head.now))) }
{
    let asked = words(head, b"Reply-To");
    if asked.is_empty() {
        words(head, b"From")
    } else {
        asked
    }
}

// What the first field of a name says.
fn words<'a>(head: &'a [u8], name: &[u8]) -> &'a [u8]
    ensures { result.now ≡ words_of_name name.now (fields_of (fields_from false (lines_of head.now))) }
{
    for field in each_field(head) {
        if field.is_named(name) {
            return said(&field);
        }
    }
    b""
}

// What a field says.
fn said<'a>(field: &Field<'a>) -> &'a [u8]
    ensures { result.now ≡ words_of_field (field_view field.now) }
{
    match split_at_first(field.raw, COLON) {
        Some((_, following)) => following.trim_ascii(),
        None => b"",
    }
}

// The identifiers of the messages before the answer.
fn references(alloc: Global, eol: Ending, head: &[u8]) -> Result<Vec<u8>, AllocError>
    ensures { IfOk result (λ identifiers. identifiers.items ≡ with_identifier eol (earlier_identifiers (fields_of (fields_from false (lines_of head.now)))) (words_of_name (codes "Message-ID") (fields_of (fields_from false (lines_of head.now))))) }
{
    joined(alloc, eol, earlier(head), words(head, b"Message-ID"))
}

// Identifiers, and another one on a line of its own.
fn joined(alloc: Global, eol: Ending, earlier: &[u8], last: &[u8]) -> Result<Vec<u8>, AllocError>
    ensures { IfOk result (λ identifiers. identifiers.items ≡ with_identifier eol earlier.now last.now) }
{
    let mut text = Vec::new(alloc);
    text.extend_from_slice(earlier)?;
    if !earlier.is_empty() && !last.is_empty() {
        text.extend_from_slice(eol.bytes())?;
        text.push(b' ')?;
    }
    text.extend_from_slice(last)?;
    Ok(text)
}

// The identifiers before that of a message.
fn earlier(head: &[u8]) -> &[u8]
    ensures { result.now ≡ earlier_identifiers (fields_of (fields_from false (lines_of head.now))) }
{
    let references = words(head, b"References");
    if !references.is_empty() {
        return references;
    }
    let answered = words(head, b"In-Reply-To");
    if is_one_identifier(answered) {
        answered
    } else {
        b""
    }
}

// Writes the line of a field that says something.
fn push_line(text: &mut Vec<u8>, eol: Ending, name: &str, words: &[u8]) -> Result<(), AllocError>
    ensures { OnOk result (text.new.items ≡ text.old.items ++ reply_line eol name.now words.now) }
{
    if words.is_empty() {
        return Ok(());
    }
    text.extend_from_slice(name.as_bytes())?;
    text.extend_from_slice(b": ")?;
    text.extend_from_slice(words)?;
    text.extend_from_slice(eol.bytes())
}
