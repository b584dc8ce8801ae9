//! Messages built of files.

use crate::cases::Cases;
use crate::lines::Lines;
use crate::messages::Supply;
use crate::pool::Pool;
use crate::random::Random;
use crate::runs::Results;
use mk_mail::Attach;
use std::alloc::{AllocError, Global};

/// The bytes of a large file.
const LARGE: usize = 500_000;

/// The small files of a message.
const SMALL: usize = 60;

/// The line endings, and the names of the cases with each.
const ENDINGS: [(&[u8], [&str; 3]); 2] = [
    (b"\n", ["binary", "text", "small"]),
    (b"\r\n", ["binary-crlf", "text-crlf", "small-crlf"]),
];

/// Appends a file of about this many bytes.
pub fn push_file(
    alloc: Global,
    random: &mut Random,
    files: &mut Vec<Attach>,
    pool: &Pool,
    base64: bool,
    size: usize,
) -> Result<(), AllocError> {
    let mut text = Vec::with_capacity(alloc, size)?;
    pool.push(random, &mut text, size)?;
    let media: &[u8] = if base64 { b"image/png" } else { b"text/plain" };
    files.push(Attach {
        media: Vec::from_slice(alloc, media)?,
        name: Some(Vec::from_slice(alloc, b"file.bin")?),
        text,
        base64,
    })?;
    Ok(())
}

// Builds a message of many small files, every second one of them a text.
fn pack_small(
    alloc: Global,
    random: &mut Random,
    supply: &Supply,
    binary: &Pool,
    fields: &[u8],
    count: usize,
    results: &mut Results,
) -> Result<(), AllocError> {
    let mut files = Vec::new(alloc);
    for number in 0..count {
        let size = random.below(4_000);
        if number % 2 == 0 {
            push_file(alloc, random, &mut files, binary, true, size)?;
        } else {
            push_file(alloc, random, &mut files, &supply.text, false, size)?;
        }
    }
    results.pack(fields, b"=_three", &files);
    Ok(())
}

/// Builds messages of large files and of many small ones, with either line ending. The cases: `binary`, `text`, `small`,
/// `binary-crlf`, `text-crlf`, `small-crlf`.
pub fn run(
    alloc: Global,
    random: &mut Random,
    scale: usize,
    cases: &mut Cases<'_>,
    results: &mut Results,
) -> Result<(), AllocError> {
    for (eol, names) in ENDINGS {
        let supply = Supply::new(alloc, random, eol)?;
        let binary = Pool::new(alloc, random, Lines::Binary, eol)?;
        let mut fields = Vec::new(alloc);
        supply.push_fields(random, &mut fields)?;
        let large = scale.saturating_mul(LARGE);
        let [binary_name, text_name, small_name] = names;
        let mut binaries = Vec::new(alloc);
        if cases.has(binary_name) {
            push_file(alloc, random, &mut binaries, &binary, true, large)?;
            results.pack(&fields, b"=_one", &binaries);
        }
        let mut texts = Vec::new(alloc);
        if cases.has(text_name) {
            push_file(alloc, random, &mut texts, &supply.text, false, large)?;
            push_file(alloc, random, &mut texts, &supply.wide, false, large / 8)?;
            results.pack(&fields, b"=_two", &texts);
        }
        if cases.has(small_name) {
            let count = scale.saturating_mul(SMALL);
            pack_small(alloc, random, &supply, &binary, &fields, count, results)?;
        }
    }
    Ok(())
}
