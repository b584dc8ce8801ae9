//! Edits made by scripts, kept in journals, undone and made again.

use crate::cases::Cases;
use crate::lines::push_words;
use crate::messages::{Part, Supply};
use crate::random::Random;
use crate::runs::Results;
use mk_run::Journal;
use std::alloc::{AllocError, Global};

/// The bytes of a large message.
const LARGE: usize = 60_000;

/// The edits of fields of a large message.
const EDITS: usize = 3;

/// The small messages.
const SMALL: usize = 3;

// This many fields put into a message, taken out and set again.
fn field_script(alloc: Global, random: &mut Random, count: usize) -> Result<Vec<u8>, AllocError> {
    let mut script = Vec::new(alloc);
    for _ in 0..count {
        match random.below(4) {
            0 => script.extend_from_slice(b"top 1 X-Mark: ")?,
            1 => script.extend_from_slice(b"put 1 X-State: ")?,
            2 => script.extend_from_slice(b"add 1.1 X-Part: ")?,
            _ => script.extend_from_slice(b"add 1 X-Mark: ")?,
        }
        push_words(random, &mut script, 40)?;
        script.push(b'\n')?;
        if random.is_in(20) {
            script.extend_from_slice(b"del 1 X-Mark 1\n")?;
        }
    }
    Ok(script)
}

// One word again and again.
fn repeated(alloc: Global, word: &[u8], count: usize) -> Result<Vec<u8>, AllocError> {
    let mut script = Vec::new(alloc);
    for _ in 0..count {
        script.extend_from_slice(word)?;
    }
    Ok(script)
}

/// What a ticket system does to a message of at least three parts.
const TICKET: &[u8] =
    b"put 1 Subject: [1234] seen\nadd 1 X-Queue: support\nset 1.1 Content-Type 1 Content-Type: text/plain\nappend 1 1\nbegin\nremove 1.2\nadd 1 X-Stripped: yes\nend\nattach 1 text/plain note.txt 2\nwrap 1 mixed =_outer\nencode 1.1.1 base64\ninsert 1.1 0 1\ncontent 1.1.1 2\nundo\nundo\nredo\ndrop 1 Received\nren 1 X-Queue 1 X-Old-Queue\n";

// Edits of a large message, and their undoing in later runs.
fn edit_large(
    alloc: Global,
    supply: &Supply,
    random: &mut Random,
    scale: usize,
    results: &mut Results,
) -> Result<(), AllocError> {
    let parts = [Part::Plain, Part::File, Part::Html];
    let message = supply.message(random, &parts, 3, scale.saturating_mul(LARGE) / 3)?;
    let script = field_script(alloc, random, scale.saturating_mul(EDITS))?;
    let (text, journal) = results.edit(&message, &script, &[], Journal::New)?;
    let undone = repeated(alloc, b"undo\n", scale / 2)?;
    let (text, journal) = results.edit_again(&text, &undone, &journal)?;
    let redone = repeated(alloc, b"redo\n", scale / 4)?;
    results.edit_again(&text, &redone, &journal)?;
    Ok(())
}

// Edits messages as a ticket system does.
fn edit_tickets(
    alloc: Global,
    supply: &Supply,
    random: &mut Random,
    count: usize,
    results: &mut Results,
) -> Result<(), AllocError> {
    let parts = [Part::Plain, Part::Html, Part::File, Part::Binary];
    for _ in 0..count {
        let size = 2_000 + random.below(20_000);
        let message = supply.message(random, &parts, 4, size)?;
        let mut pieces = Vec::new(alloc);
        pieces.push(supply.letter(random, 3_000)?)?;
        pieces.push(supply.letter(random, 6_000)?)?;
        let (text, journal) = results.edit(&message, TICKET, &pieces, Journal::New)?;
        results.edit_again(&text, b"undo\nundo\nundo\n", &journal)?;
    }
    Ok(())
}

/// Edits large messages and small ones. The cases: `large`, `large-crlf`, `tickets`.
pub fn run(
    alloc: Global,
    random: &mut Random,
    scale: usize,
    cases: &mut Cases<'_>,
    results: &mut Results,
) -> Result<(), AllocError> {
    let supply = Supply::new(alloc, random, b"\n")?;
    if cases.has("large") {
        edit_large(alloc, &supply, random, scale, results)?;
    }
    let supply = Supply::new(alloc, random, b"\r\n")?;
    if cases.has("large-crlf") {
        edit_large(alloc, &supply, random, scale, results)?;
    }
    if cases.has("tickets") {
        let count = scale.saturating_mul(SMALL);
        edit_tickets(alloc, &supply, random, count, results)?;
    }
    Ok(())
}
