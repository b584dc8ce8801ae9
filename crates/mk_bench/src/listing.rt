//! The sections of messages listed, as lines and as JSON.

use crate::cases::Cases;
use crate::messages::{Part, Supply};
use crate::random::Random;
use crate::runs::Results;
use std::alloc::{AllocError, Global};

/// The parts of a message.
const PARTS: usize = 160;

/// How deep messages are forwarded.
const DEEP: usize = 10;

const ALL: [Part; 4] = [Part::Plain, Part::Html, Part::File, Part::Binary];

// A message of forwarded messages, each of which has some deep in it.
fn forwarded(
    alloc: Global,
    supply: &Supply,
    random: &mut Random,
    count: usize,
) -> Result<Vec<u8>, AllocError> {
    let mut text = Vec::new(alloc);
    supply.push_fields(random, &mut text)?;
    let boundary = supply.boundary(random)?;
    supply.push_multipart(&mut text, &boundary)?;
    for _ in 0..count {
        supply.push_delimiter(&mut text, &boundary)?;
        for _ in 0..DEEP {
            supply.push_line(&mut text, b"Content-Type: message/rfc822")?;
            supply.push_line(&mut text, b"")?;
            supply.push_fields(random, &mut text)?;
        }
        supply.push_parts(random, &mut text, &ALL, 4, 800)?;
    }
    supply.push_close(&mut text, &boundary)?;
    Ok(text)
}

/// Lists large messages, and messages of many parts. The cases: `parts-100`, `parts-600` and `parts-3000` by the bytes of a
/// part, `parts-json`, `forwarded`, `forwarded-json`, `large-json`, `large`.
pub fn run(
    alloc: Global,
    random: &mut Random,
    scale: usize,
    cases: &mut Cases<'_>,
    results: &mut Results,
) -> Result<(), AllocError> {
    let messages = scale.saturating_mul(14);
    run_lf(
        alloc,
        random,
        scale.saturating_mul(PARTS),
        messages,
        cases,
        results,
    )?;
    run_crlf(alloc, random, scale, messages, cases, results)
}

// The cases with LF.
fn run_lf(
    alloc: Global,
    random: &mut Random,
    parts: usize,
    messages: usize,
    cases: &mut Cases<'_>,
    results: &mut Results,
) -> Result<(), AllocError> {
    let supply = Supply::new(alloc, random, b"\n")?;
    for (name, size) in [
        ("parts-100", 100),
        ("parts-600", 600),
        ("parts-3000", 3_000),
    ] {
        if cases.has(name) {
            results.list(&supply.message(random, &ALL, parts, size)?);
        }
    }
    if cases.has("parts-json") {
        results.list_as_json(supply.message(random, &ALL, parts, 500)?)?;
    }
    if cases.has("forwarded") {
        results.list(&forwarded(alloc, &supply, random, messages)?);
    }
    Ok(())
}

// The cases with CR LF.
fn run_crlf(
    alloc: Global,
    random: &mut Random,
    scale: usize,
    messages: usize,
    cases: &mut Cases<'_>,
    results: &mut Results,
) -> Result<(), AllocError> {
    let supply = Supply::new(alloc, random, b"\r\n")?;
    if cases.has("forwarded-json") {
        results.list_as_json(forwarded(alloc, &supply, random, messages)?)?;
    }
    if cases.has("large-json") {
        results.list_as_json(supply.message(random, &ALL, 4, scale.saturating_mul(80_000))?)?;
    }
    if cases.has("large") {
        results.list(&supply.message(random, &ALL, 4, scale.saturating_mul(120_000))?);
    }
    Ok(())
}
