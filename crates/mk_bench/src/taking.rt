//! All attachments taken out of messages, and one.

use crate::cases::Cases;
use crate::messages::{Part, Supply};
use crate::random::Random;
use crate::runs::Results;
use std::alloc::{AllocError, Global};

/// The bytes of a large part.
const LARGE: usize = 200_000;

/// The small parts of a message.
const SMALL: usize = 20;

/// Takes parts of each kind out, with either line ending. The cases: `base64`, `mixed`, `small`, `base64-crlf`, `one`.
pub fn run(
    alloc: Global,
    random: &mut Random,
    scale: usize,
    cases: &mut Cases<'_>,
    results: &mut Results,
) -> Result<(), AllocError> {
    let large = scale.saturating_mul(LARGE);
    let supply = Supply::new(alloc, random, b"\n")?;
    if cases.has("base64") {
        results.unpack(&supply.message(random, &[Part::File], 4, large)?);
    }
    let mixed = [Part::Plain, Part::File, Part::Html, Part::Binary];
    let mut message = Vec::new(alloc);
    if cases.has("mixed") {
        message = supply.message(random, &mixed, 4, large)?;
        results.unpack(&message);
    }
    if cases.has("small") {
        let small = scale.saturating_mul(SMALL);
        results.unpack(&supply.message(random, &mixed, small, 2_000)?);
    }
    let supply = Supply::of_width(alloc, random, b"\r\n", 72)?;
    if cases.has("base64-crlf") {
        results.unpack(&supply.message(random, &[Part::File], 3, large)?);
    }
    if cases.has("one") {
        let message = supply.message(random, &mixed, 8, large / 2)?;
        results.extract(&message, &[1, 2]);
    }
    Ok(())
}
