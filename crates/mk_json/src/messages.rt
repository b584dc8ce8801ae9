//! A JSON object for each message of a mailbox.
ghost use Rattle.std.specs.Prelude.{◌≡◌, ◌<◌, ◌+◌, ◌++◌, ◌∷◌, ◌^◌, [], List, ℕ, codes, length, map, IfErr, IfOk, MatchResult, OnErr, OnOk};
ghost use Rattle.std.specs.Io.KnownBytes.{Appends, Consumes, IsAtEnd};
ghost use Rattle.mk_line.specs.Ascii.{line_feed};
ghost use Rattle.mk_line.specs.Meters.{ticked};
ghost use Rattle.mk_mailbox.specs.Devices.{AppendsFront};
ghost use Rattle.mk_messages.specs.MessageLines.{mailbox_lines};
ghost use Rattle.mk_transfer.specs.RunClauses.{IsBlamed, SameFailures, counts};
ghost use Rattle.mk_head.specs.Values.{stripped};
ghost use Rattle.mk_tree.specs.Documents.{tree};
ghost use Rattle.mk_tree.specs.Tree.{field_lines};
ghost use Rattle.mk_json.specs.MessageObjects.{field_member, object_line as line_of, place_members, said_members, spaced as byte_spaced, said_on_line};
ghost use Rattle.mk_json.specs.Strings.{json_string, member_after};
ghost use Rattle.mk_messages.specs.MessageLines.{section_count};

use crate::strings::{push_any, push_key};
use mk_code::text_decode;
use mk_line::{leading_blanks, trimmed};
use mk_mailbox::{FromLines, Sink, Source};
use mk_messages::{MessageLine, count_sections, try_lines};
use mk_transfer::Cause;
use mk_tree::{Doc, Section};
use std::alloc::{AllocError, Global};

const LINE_FEED: u8 = b'\n';

const CARRIAGE_RETURN: u8 = b'\r';

/// Lists the messages of the mailbox that the input gives, an object a line: the numbers of the plain listing, and what the
/// first fields From, To, Subject, Date, Message-ID and In-Reply-To say, where the message has them. Each line goes out before
/// the next message is read. Then the output is finished. The caller is left to say why the run is given up.
pub fn try_messages<S: Source, O: Sink>(
    alloc: Global,
    input: &mut S,
    out: &mut O,
    from_lines: FromLines,
) -> Result<(), Cause>
    ensures listed { (text : List ℕ) × Consumes (S.remaining input.old) (S.remaining input.new) text
        × MatchResult result
        (λ _. Appends (O.contents out.old) (O.contents out.new) (mailbox_lines line_of from_lines text))
        (λ _. AppendsFront (O.contents out.old) (O.contents out.new) (mailbox_lines line_of from_lines text)) }
    ensures ended { OnOk result (IsAtEnd (S.remaining input.new)) }
    ensures blamed { IfErr result (λ cause. IsBlamed cause
        (counts (S.failures input.old) (S.read_count input.old) (O.failures out.old) 0)
        (counts (S.failures input.new) (S.read_count input.new) (O.failures out.new) 0)) }
    ensures clean { OnOk result (SameFailures
        (counts (S.failures input.old) (S.read_count input.old) (O.failures out.old) 0)
        (counts (S.failures input.new) (S.read_count input.new) (O.failures out.new) 0)) }
    ensures finished { OnOk result (O.finishes out.new ≡ ticked (O.finishes out.old)) }
    ensures unfinished { OnErr result (O.finishes out.new ≡ O.finishes out.old) }
{
    try_lines(alloc, input, out, from_lines, &ObjectLine)
}

/// Lines that are objects of JSON.
#[derive(Clone, Copy, Debug)]
pub struct ObjectLine;

impl MessageLine for ObjectLine {
    ghost text = { λ _. line_of };

    fn line(
        &self,
        alloc: Global,
        number: u64,
        start: u64,
        message: Vec<u8>,
    ) -> Result<Vec<u8>, AllocError> {
        object_line(alloc, number, start, message)
    }
}

// The object of a message that begins at a place, as a line.
fn object_line(
    alloc: Global,
    number: u64,
    start: u64,
    message: Vec<u8>,
) -> Result<Vec<u8>, AllocError>
    requires { start + length message.items < 2 ^ 64 }
    ensures { IfOk result (λ line. line.items ≡ line_of number start message.items) }
{
    let end = start + message.len() as u64;
    match Doc::read(alloc, message) {
        Ok(doc) => document_line(alloc, number, start, end, &doc),
        Err(_) => Err(AllocError),
    }
}

// The same where the message is read.
fn document_line(
    alloc: Global,
    number: u64,
    start: u64,
    end: u64,
    doc: &Doc,
) -> Result<Vec<u8>, AllocError>
    ensures { IfOk result (λ line. line.items ≡ place_members number start end (section_count doc.now) ++ (said_members (field_lines (tree doc.now).root) ++ (codes "}" ++ line_feed ∷ []))) }
{
    let sections = count_sections(alloc, doc)?;
    let mut text = places(alloc, number, start, end, sections)?;
    push_said(alloc, &mut text, &doc.root())?;
    text.extend_from_slice(b"}\n")?;
    Ok(text)
}

// The first members of the object, after its opening brace.
fn places(
    alloc: Global,
    number: u64,
    start: u64,
    end: u64,
    sections: usize,
) -> Result<Vec<u8>, AllocError>
    ensures { IfOk result (λ text. text.items ≡ place_members number start end sections) }
{
    let places = format!(in alloc;
        "{{\"number\":{number},\"start\":{start},\"end\":{end},\"sections\":{sections}"
    )?;
    Ok(places.into_bytes())
}

// Writes the members that the fields of a section say.
fn push_said(alloc: Global, text: &mut Vec<u8>, section: &Section<'_>) -> Result<(), AllocError>
    ensures { OnOk result (text.new.items ≡ text.old.items ++ said_members (field_lines section.now.entity)) }
{
    push_field(alloc, text, section, "from", b"From")?;
    push_field(alloc, text, section, "to", b"To")?;
    push_field(alloc, text, section, "subject", b"Subject")?;
    push_field(alloc, text, section, "date", b"Date")?;
    push_field(alloc, text, section, "message_id", b"Message-ID")?;
    push_field(alloc, text, section, "in_reply_to", b"In-Reply-To")
}

// Writes the member of a key: what the first field of a name says, where the section has it.
fn push_field(
    alloc: Global,
    text: &mut Vec<u8>,
    section: &Section<'_>,
    key: &str,
    name: &[u8],
) -> Result<(), AllocError>
    ensures { OnOk result (text.new.items ≡ text.old.items ++ field_member key.now name.now (field_lines section.now.entity)) }
{
    match section.value(alloc, name)? {
        Some(value) => push_value(alloc, text, key, &value),
        None => Ok(()),
    }
}

// Writes the member of a key: what a value says.
fn push_value(alloc: Global, text: &mut Vec<u8>, key: &str, value: &[u8]) -> Result<(), AllocError>
    ensures { OnOk result (text.new.items ≡ text.old.items ++ member_after key.now (json_string (said_on_line value.now))) }
{
    let line = on_one_line(alloc, &text_decode(alloc, value)?)?;
    text.push(b',')?;
    push_key(text, key)?;
    push_any(alloc, text, strip(&line))
}

// The text with spaces in the places of its line breaks.
fn on_one_line(alloc: Global, text: &[u8]) -> Result<Vec<u8>, AllocError>
    ensures { IfOk result (λ line. line.items ≡ map byte_spaced text.now) }
{
    text.iter().map(|byte| spaced(*byte)).collect(alloc)
}

fn spaced(byte: u8) -> u8
    ensures { result ≡ byte_spaced byte }
{
    if byte == CARRIAGE_RETURN || byte == LINE_FEED {
        b' '
    } else {
        byte
    }
}

// The text without the blanks at both ends.
fn strip(text: &[u8]) -> &[u8]
    ensures { result.now ≡ stripped text.now }
{
    trimmed(&text[leading_blanks(text)..])
}
