//! What the reasons that are named in lines mean.

use crate::options::{PACK, SPLIT};

/// What separates what a line is about from the name of the reason.
const COLON: &[u8] = b": ";

/// The names of reasons, and each in words.
const REASONS: [(&str, &str); 28] = [
    (
        "NoSuchSection",
        "there is no section at this path; 'sections' lists the paths",
    ),
    (
        "NotMultipart",
        "this section isn't a multipart; 'append' and 'attach' put it into one",
    ),
    (
        "NotLeaf",
        "this section isn't a leaf; 'replace' puts another section in its place",
    ),
    ("NotPart", "this section isn't a part of a multipart"),
    (
        "NoSuchField",
        "the section has no field of this name and number",
    ),
    ("BadPlace", "the multipart has fewer parts than that"),
    (
        "BadField",
        "this isn't exactly one field; write a name, a colon and a value",
    ),
    ("BadName", "this name can't be written"),
    (
        "BadBoundary",
        "a boundary has 1 to 70 characters: letters, digits, any of '()+_,-./:=?, and spaces, but no space at the end",
    ),
    ("BadSubtype", "this isn't a token, such as mixed"),
    (
        "OpenLine",
        "a line without a line ending would come before another line; put the field at the top, or end that line first",
    ),
    (
        "HoldsBoundary",
        "a line would be read as a delimiter of a multipart; change that line, or use another boundary",
    ),
    ("Recut", "the message would be read in another way"),
    ("NothingToUndo", "there is no step to undo"),
    (
        "NothingToRedo",
        "no step was undone, or an edit was made since",
    ),
    ("UnknownEncoding", "this transfer encoding isn't known"),
    (
        "BadBase64",
        "the content isn't valid base64; 'extract --prefix' prints what can be decoded of it",
    ),
    (
        "UnknownCharset",
        "this charset isn't known, or has no character for a byte of the content, which is printed as it is",
    ),
    ("BadType", "this media type can't be attached"),
    (
        "BadCharset",
        "these bytes aren't text in this charset; 'content --charset' names another one",
    ),
    (
        "BinaryContent",
        "the content has a NUL or a line of more than 998 bytes; encode it as qp or base64",
    ),
    ("NoSuchMessage", "the mailbox has fewer messages than that"),
    (
        "NoAddress",
        "nobody can be answered: neither Reply-To nor From says anything",
    ),
    (
        "Seen",
        "a message with this Message-ID was seen before, so nothing is printed",
    ),
    ("JournalSyntax", "this file isn't a journal"),
    (
        "JournalOther",
        "the journal belongs to another message, or this message was changed without it",
    ),
    (
        "JournalMismatch",
        "a step of the journal doesn't fit the message",
    ),
    (
        "exists",
        "this name is taken, and so are those with .1 to .99 after it; '-f' overwrites the file",
    ),
];

/// The reasons that mean something else when a message is packed.
const PACK_REASONS: [(&str, &str); 4] = [
    (
        "BadField",
        "this isn't exactly one field, or it is one that pack makes, or standard input has more than fields",
    ),
    (
        "BadType",
        "this media type can't be attached; '--forward' adds a message, and '--charset' names the charset of texts",
    ),
    (
        "BadName",
        "this file name can't be written; '--utf8' writes names that aren't ASCII",
    ),
    ("BadCharset", "this isn't a token, such as utf-8"),
];

/// The reason that means something else when a mailbox is split.
const SPLIT_REASONS: [(&str, &str); 1] = [(
    "exists",
    "a file has this name, so the message isn't written; '-f' overwrites the file",
)];

/// What a line is about, with the colon after it, and what the reason that it names means. `None` if it doesn't name a reason.
pub fn told<'a>(command: &str, line: &'a [u8]) -> Option<(&'a [u8], &'static str)> {
    let (about, name) = parts(line)?;
    Some((about, sentence(command, name)?))
}

// What a line is about, with the colon after it, and the name that follows.
fn parts(line: &[u8]) -> Option<(&[u8], &[u8])> {
    let place = line.windows(COLON.len()).rposition(|pair| pair == COLON)?;
    let (about, rest) = line.split_at_checked(place.saturating_add(COLON.len()))?;
    let end = rest
        .iter()
        .position(|byte| byte.is_ascii_whitespace())
        .unwrap_or(rest.len());
    let (name, _) = rest.split_at_checked(end)?;
    Some((about, name))
}

// What a reason means.
fn sentence(command: &str, name: &[u8]) -> Option<&'static str> {
    let own = own_reasons(command);
    match own.iter().find(|row| row.0.as_bytes() == name) {
        Some(row) => Some(row.1),
        None => REASONS
            .iter()
            .find(|row| row.0.as_bytes() == name)
            .map(|row| row.1),
    }
}

// The reasons that mean something else for a subcommand.
fn own_reasons(command: &str) -> &'static [(&'static str, &'static str)] {
    if command == PACK {
        &PACK_REASONS
    } else if command == SPLIT {
        &SPLIT_REASONS
    } else {
        &[]
    }
}
