//! A JSON object for each section of a document.

use crate::parameters::push_parameters;
use crate::strings::{push_key, push_member, push_string};
use mk_head::{content_type, is_token};
use mk_line::leading_blanks;
use mk_tree::{Children, Doc, Kind, Section};
use mk_view::{
    Described, ExtractError, Leaf, NameForm, Storing, content_id, content_size, leaves_in,
};
use std::alloc::{AllocError, Global};

const LINE_FEED: u8 = b'\n';

/// What stands between the columns of the plain listing.
const COLUMN_END: u8 = b' ';

/// What ends the word of a disposition, before its parameters.
const SEMICOLON: u8 = b';';

/// What stands between the numbers of a path.
const PATH_DOT: u8 = b'.';

/// The keys of the columns of the plain listing, in their order.
const KEYS: [&str; 9] = [
    "path",
    "kind",
    "type",
    "encoding",
    "start",
    "body",
    "end",
    "field_lines",
    "body_lines",
];

/// How many of those columns are words, before those that are numbers.
const WORDS: usize = 4;

/// Lists the sections of a document as JSON, an object a line, in the order of `mk_view::list` and with its words and
/// numbers. After those stand, where a section has them, its boundary, its charset, its disposition, the name that its fields
/// say, as a text and as it stands there, the name that it would be stored under, the size of its decoded content, its
/// Content-ID and the parameters of its disposition. Bytes that aren't UTF-8 become U+FFFD. Own format.
pub fn list(alloc: Global, doc: &Doc) -> Result<Vec<u8>, AllocError> {
    list_in(alloc, doc, NameForm::Plain)
}

/// The same, with the names for storing in a form.
pub fn list_in(alloc: Global, doc: &Doc, form: NameForm) -> Result<Vec<u8>, AllocError> {
    let plain = mk_view::list(alloc, doc)?;
    let storing = Storing {
        form,
        texts: true,
        ..Storing::default()
    };
    let stored = leaves_in(alloc, doc, storing)?;
    let mut stored = stored.iter();
    let mut above = Vec::new(alloc);
    let mut text = Vec::new(alloc);
    for line in plain.split(|byte| *byte == LINE_FEED) {
        let Some(section) = section_of(doc, &mut above, line)? else {
            continue;
        };
        let leaf = match section.kind() {
            Kind::Leaf => stored.next(),
            Kind::Multi | Kind::Message => None,
        };
        push_object(alloc, &mut text, line, &section, leaf)?;
    }
    Ok(text)
}

// The section that a line of the listing speaks of. The sections come in the document's order, so each is the next one below
// the last of those above it, which are the sections that follow on each level of the section before.
fn section_of<'a>(
    doc: &'a Doc,
    above: &mut Vec<Children<'a>>,
    line: &[u8],
) -> Result<Option<Section<'a>>, AllocError> {
    if line.is_empty() {
        return Ok(None);
    }
    above.truncate(level(line));
    let section = match above.last_mut() {
        None => Some(doc.root()),
        Some(next) => next.next(),
    };
    if let Some(section) = &section {
        above.push(section.children())?;
    }
    Ok(section)
}

// How many sections hold the one that a line of the listing speaks of: the dots of its path.
fn level(line: &[u8]) -> usize {
    let mut dots = 0usize;
    for byte in line {
        if *byte == PATH_DOT {
            dots = dots.saturating_add(1);
        } else if !byte.is_ascii_digit() {
            return dots;
        }
    }
    dots
}

// Writes the object of a section after a text.
fn push_object(
    alloc: Global,
    text: &mut Vec<u8>,
    line: &[u8],
    section: &Section<'_>,
    leaf: Option<&Leaf<'_>>,
) -> Result<(), AllocError> {
    push_columns(alloc, text, line)?;
    push_member(alloc, text, "boundary", section.boundary())?;
    push_others(
        alloc,
        text,
        section,
        &Described::read(alloc, section)?,
        leaf,
    )?;
    text.extend_from_slice(b"}\n")?;
    Ok(())
}

// Writes the members after the boundary, where the header of a section is read.
fn push_others(
    alloc: Global,
    text: &mut Vec<u8>,
    section: &Section<'_>,
    described: &Described,
    leaf: Option<&Leaf<'_>>,
) -> Result<(), AllocError> {
    push_described(alloc, text, described)?;
    if let Some(leaf) = leaf {
        push_member(alloc, text, "stored_as", Some(&leaf.name))?;
        push_size(alloc, text, section)?;
    }
    if let Some(id) = content_id(alloc, section)? {
        push_member(alloc, text, "content_id", Some(&id))?;
    }
    match &described.disposition {
        Some(disposition) => push_parameters(alloc, text, &disposition.parameters.params),
        None => Ok(()),
    }
}

// Writes what the header of a section says: its charset, its disposition, and its name as a text, else as it stands there, and
// once more as it stands there.
fn push_described(
    alloc: Global,
    text: &mut Vec<u8>,
    described: &Described,
) -> Result<(), AllocError> {
    push_member(alloc, text, "charset", described.media.param(b"charset"))?;
    if let Some(disposition) = &described.disposition {
        push_disposition(alloc, text, &disposition.value)?;
    }
    let raw = described.raw_name();
    match described.text_name(alloc)? {
        Some(name) => push_member(alloc, text, "filename", Some(name.as_bytes()))?,
        None => push_member(alloc, text, "filename", raw)?,
    }
    push_member(alloc, text, "raw_filename", raw)
}

// Writes a disposition in lower case: what the value of Content-Disposition says before the first semicolon, where that is a
// token (RFC 2183, 2.1 and 2.2).
fn push_disposition(alloc: Global, text: &mut Vec<u8>, value: &[u8]) -> Result<(), AllocError> {
    let front = match value.iter().position(|byte| *byte == SEMICOLON) {
        Some(end) => &value[..end],
        None => value,
    };
    let word = &front[leading_blanks(front)..];
    if is_token(word) {
        return push_lower_case(alloc, text, word);
    }
    push_commented(alloc, text, value)
}

// The same where comments or blanks stand around the word: it is read as the value of a parameter, with a letter before it that
// keeps quotes as they are.
fn push_commented(alloc: Global, text: &mut Vec<u8>, value: &[u8]) -> Result<(), AllocError> {
    let mut parameter = Vec::from_slice(alloc, b";type=_")?;
    parameter.extend_from_slice(value)?;
    let read = content_type(alloc, &parameter)?;
    let word = match read.param(b"type") {
        Some([_, word @ ..]) => &word[leading_blanks(word)..],
        _ => return Ok(()),
    };
    if is_token(word) {
        push_lower_case(alloc, text, word)
    } else {
        Ok(())
    }
}

// Writes the word of a disposition.
fn push_lower_case(alloc: Global, text: &mut Vec<u8>, word: &[u8]) -> Result<(), AllocError> {
    let word = word.iter().map(|byte| byte.to_ascii_lowercase());
    let word: Vec<u8> = word.collect(alloc)?;
    push_member(alloc, text, "disposition", Some(&word))
}

// Writes the size of the content of a leaf, where it can be decoded.
fn push_size(alloc: Global, text: &mut Vec<u8>, section: &Section<'_>) -> Result<(), AllocError> {
    match content_size(alloc, section) {
        Ok(size) => text.extend_from_slice(format!(in alloc; ",\"size\":{size}")?.as_bytes()),
        Err(ExtractError::Memory) => Err(AllocError),
        Err(_) => Ok(()),
    }
}

// Writes the columns of a line of the listing after a text, as the first members of an object.
fn push_columns(alloc: Global, text: &mut Vec<u8>, line: &[u8]) -> Result<(), AllocError> {
    let columns = line.split(|byte| *byte == COLUMN_END);
    let mut before = b'{';
    for (number, (key, column)) in KEYS.iter().zip(columns).enumerate() {
        text.push(before)?;
        push_key(text, *key)?;
        if number < WORDS {
            push_string(alloc, text, column)?;
        } else {
            text.extend_from_slice(column)?;
        }
        before = b',';
    }
    Ok(())
}
