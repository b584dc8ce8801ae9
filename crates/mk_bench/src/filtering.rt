//! Fields put into, dropped from and printed of each message of mailboxes.

use crate::cases::Cases;
use crate::messages::Supply;
use crate::random::Random;
use crate::runs::Results;
use mk_mail::{Letters, NamePattern};
use std::alloc::{AllocError, Global};

/// The messages of a mailbox.
const MESSAGES: usize = 60;

/// No letter.
pub fn no_letters(alloc: Global) -> Letters {
    Letters {
        prepend: None,
        drops: Vec::new(alloc),
        keeps: Vec::new(alloc),
        keep_only: false,
        rename: None,
        add_if: None,
        add: None,
        prefixed: None,
        only: None,
        first: None,
        last: None,
        take: None,
        whole: None,
    }
}

/// `--drop NAME*:`.
pub fn dropping(alloc: Global, front: &[u8]) -> Result<Letters, AllocError> {
    let mut letters = no_letters(alloc);
    letters.drops.push(NamePattern {
        text: Vec::from_slice(alloc, front)?,
        is_front: true,
    })?;
    Ok(letters)
}

/// `-I FIELD`.
pub fn putting(alloc: Global, field: &[u8]) -> Result<Letters, AllocError> {
    let mut letters = no_letters(alloc);
    letters.only = Some(Vec::from_slice(alloc, field)?);
    Ok(letters)
}

// `-x NAME:`.
fn taking(alloc: Global, name: &[u8]) -> Result<Letters, AllocError> {
    let mut letters = no_letters(alloc);
    letters.take = Some(Vec::from_slice(alloc, name)?);
    Ok(letters)
}

// Several letters at once.
fn mixed(alloc: Global) -> Result<Letters, AllocError> {
    let mut letters = dropping(alloc, b"List-")?;
    let old = Vec::from_slice(alloc, b"References")?;
    letters.rename = Some((old, Vec::from_slice(alloc, b"X-References")?));
    letters.add_if = Some(Vec::from_slice(alloc, b"Reply-To: list@example.org")?);
    letters.first = Some(Vec::from_slice(alloc, b"Received")?);
    Ok(letters)
}

// The letters of the cases with LF.
fn letters_of(alloc: Global, name: &str) -> Result<Letters, AllocError> {
    match name {
        "put" => putting(alloc, b"X-Seen: yes"),
        "mixed" => mixed(alloc),
        "print" => taking(alloc, b"Subject"),
        _ => putting(alloc, b"Date:"),
    }
}

/// Filters mailboxes with either line ending, and a large message. The cases: `put`, `mixed`, `print`, `drop`, `put-crlf`,
/// `large`.
pub fn run(
    alloc: Global,
    random: &mut Random,
    scale: usize,
    cases: &mut Cases<'_>,
    results: &mut Results,
) -> Result<(), AllocError> {
    let count = scale.saturating_mul(MESSAGES);
    run_lf(alloc, random, count, cases, results)?;
    run_crlf(alloc, random, count, scale, cases, results)
}

// The cases with LF.
fn run_lf(
    alloc: Global,
    random: &mut Random,
    count: usize,
    cases: &mut Cases<'_>,
    results: &mut Results,
) -> Result<(), AllocError> {
    let supply = Supply::new(alloc, random, b"\n")?;
    for name in ["put", "mixed", "print", "drop"] {
        if cases.has(name) {
            filter_mailbox(alloc, random, &supply, count, name, results)?;
        }
    }
    Ok(())
}

// Filters a mailbox by the letters of a case.
fn filter_mailbox(
    alloc: Global,
    random: &mut Random,
    supply: &Supply,
    count: usize,
    name: &str,
    results: &mut Results,
) -> Result<(), AllocError> {
    let letters = letters_of(alloc, name)?;
    let mailbox = supply.mailbox(random, count)?;
    results.filter(&mailbox, &letters, true);
    Ok(())
}

// The cases with CR LF.
fn run_crlf(
    alloc: Global,
    random: &mut Random,
    count: usize,
    scale: usize,
    cases: &mut Cases<'_>,
    results: &mut Results,
) -> Result<(), AllocError> {
    let supply = Supply::new(alloc, random, b"\r\n")?;
    let mut mailbox = Vec::new(alloc);
    if cases.has("put-crlf") {
        mailbox = supply.mailbox(random, count)?;
        results.filter(&mailbox, &putting(alloc, b"X-Spam: no")?, true);
    }
    if cases.has("large") {
        filter_large(alloc, random, &supply, scale, results)?;
    }
    Ok(())
}

// Puts a field into a large message.
fn filter_large(
    alloc: Global,
    random: &mut Random,
    supply: &Supply,
    scale: usize,
    results: &mut Results,
) -> Result<(), AllocError> {
    let message = supply.letter(random, scale.saturating_mul(200_000))?;
    results.filter(&message, &putting(alloc, b"X-Seen: yes")?, false);
    Ok(())
}
