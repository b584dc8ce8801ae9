//! Inputs on which a mail tool may be slow.

use crate::cases::Cases;
use crate::filtering::{dropping, no_letters, putting};
use crate::lines::{Lines, lines_of, push_letters, push_word, push_words};
use crate::messages::Supply;
use crate::packing::push_file;
use crate::pool::Pool;
use crate::random::Random;
use crate::runs::Results;
use mk_run::Journal;
use std::alloc::{AllocError, Global};

/// The fields of a message.
const FIELDS: usize = 250;

/// The levels below the root.
const LEVELS: usize = 100;

/// The bytes of a body.
const BODY: usize = 60_000;

// A message of many fields, most of them of names that no other has.
fn many_fields(alloc: Global, random: &mut Random, count: usize) -> Result<Vec<u8>, AllocError> {
    let mut text = Vec::new(alloc);
    for _ in 0..count {
        match random.below(3) {
            0 => text.extend_from_slice(b"X: ")?,
            1 => text.extend_from_slice(b"X-Loop: ")?,
            _ => {
                text.extend_from_slice(b"X-")?;
                push_word(random, &mut text, 16)?;
                text.extend_from_slice(b": ")?;
            }
        }
        push_words(random, &mut text, 30)?;
        text.push(b'\n')?;
    }
    text.extend_from_slice(b"\nbody\n")?;
    Ok(text)
}

// Multiparts in one another, the innermost of which has a body of lines that look like delimiters.
fn many_levels(
    alloc: Global,
    supply: &Supply,
    random: &mut Random,
    size: usize,
) -> Result<Vec<u8>, AllocError> {
    let mut text = Vec::new(alloc);
    supply.push_fields(random, &mut text)?;
    for _ in 0..LEVELS {
        let mut boundary = Vec::from_slice(alloc, b"=_bound")?;
        push_word(random, &mut boundary, 20)?;
        supply.push_multipart(&mut text, &boundary)?;
        supply.push_delimiter(&mut text, &boundary)?;
    }
    supply.push_line(&mut text, b"")?;
    let body = Pool::new(alloc, random, Lines::Dashed, b"\n")?;
    body.push(random, &mut text, size)?;
    Ok(text)
}

// A content type of comments, quotes and many parameters, which begins a multipart all the same.
fn push_crowded(random: &mut Random, text: &mut Vec<u8>, count: usize) -> Result<(), AllocError> {
    text.extend_from_slice(b"Content-Type: multipart/mixed (a (deep \\) comment) here)")?;
    for _ in 0..count {
        text.extend_from_slice(b";\n\tx")?;
        push_word(random, text, 8)?;
        text.extend_from_slice(b"=\"a \\\" quote; ")?;
        push_words(random, text, 30)?;
        text.extend_from_slice(b"\" (and a comment)")?;
    }
    text.extend_from_slice(b";\n boundary=b\n\n--b\n")
}

// A message whose parts have crowded content types, one after another.
fn crowded(alloc: Global, random: &mut Random, count: usize) -> Result<Vec<u8>, AllocError> {
    let mut text = Vec::new(alloc);
    push_crowded(random, &mut text, 2)?;
    for _ in 0..count {
        text.extend_from_slice(b"Content-Type: text/plain (a comment)")?;
        for _ in 0..12 {
            text.extend_from_slice(b";\n name*")?;
            push_word(random, &mut text, 4)?;
            text.extend_from_slice(b"=\"")?;
            push_words(random, &mut text, 20)?;
            text.push(b'"')?;
        }
        text.extend_from_slice(b"\n\nx\n--b\n")?;
    }
    Ok(text)
}

// A message of one part in base64, all of it in one line or with stray bytes in it.
fn odd_base64(alloc: Global, random: &mut Random, size: usize) -> Result<Vec<u8>, AllocError> {
    let mut text = Vec::new(alloc);
    text.extend_from_slice(
        b"Content-Type: multipart/mixed; boundary=b\n\n--b\nContent-Type: image/gif\nContent-Transfer-Encoding: base64\n\n",
    )?;
    let stray = Pool::new(alloc, random, Lines::StrayBase64, b"\r\n")?;
    stray.push(random, &mut text, size)?;
    text.extend_from_slice(
        b"\n--b\nContent-Type: image/gif\nContent-Transfer-Encoding: base64\n\n",
    )?;
    let mut letters = Vec::new(alloc);
    push_letters(random, &mut letters, 4_000)?;
    for _ in 0..size / 4_000 {
        text.extend_from_slice(&letters)?;
    }
    text.extend_from_slice(b"\n--b--\n")?;
    Ok(text)
}

fn filter_fields(
    alloc: Global,
    random: &mut Random,
    count: usize,
    results: &mut Results,
) -> Result<(), AllocError> {
    let message = many_fields(alloc, random, count)?;
    results.filter(&message, &dropping(alloc, b"X-")?, false);
    let message = many_fields(alloc, random, count)?;
    results.filter(&message, &putting(alloc, b"X: y")?, false);
    let mut letters = no_letters(alloc);
    letters.rename = Some((
        Vec::from_slice(alloc, b"X-Loop")?,
        Vec::from_slice(alloc, b"X-Ring")?,
    ));
    letters.last = Some(Vec::from_slice(alloc, b"X")?);
    let message = many_fields(alloc, random, count)?;
    results.filter(&message, &letters, false);
    Ok(())
}

/// Runs of each kind on such inputs. The cases: `fields`, `levels`, `types`, `base64`, `from-lines`, `escapes`, `undo`.
pub fn run(
    alloc: Global,
    random: &mut Random,
    scale: usize,
    cases: &mut Cases<'_>,
    results: &mut Results,
) -> Result<(), AllocError> {
    let supply = Supply::new(alloc, random, b"\n")?;
    let body = scale.saturating_mul(BODY);
    if cases.has("fields") {
        filter_fields(alloc, random, scale.saturating_mul(FIELDS), results)?;
    }
    if cases.has("levels") {
        results.list(&many_levels(alloc, &supply, random, body / 10)?);
    }
    if cases.has("types") {
        results.list(&crowded(alloc, random, scale.saturating_mul(20))?);
    }
    if cases.has("base64") {
        results.unpack(&odd_base64(alloc, random, body)?);
    }
    if cases.has("from-lines") {
        let mailbox = lines_of(alloc, random, Lines::FromLines, b"\n", body / 4)?;
        results.filter(&mailbox, &putting(alloc, b"X-Seen: yes")?, true);
    }
    if cases.has("escapes") {
        let binary = Pool::new(alloc, random, Lines::Binary, b"\n")?;
        let mut files = Vec::new(alloc);
        push_file(alloc, random, &mut files, &binary, false, body / 4)?;
        results.pack(b"Subject: s\n", b"=_escapes", &files);
    }
    if cases.has("undo") {
        let message = many_levels(alloc, &supply, random, body / 20)?;
        let script = b"add 1.1.1.1 A: b\nundo\nredo\n";
        results.edit(&message, script, &[], Journal::Off)?;
    }
    Ok(())
}
