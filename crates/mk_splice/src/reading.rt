//! Reading the parts of a journal. Where a part isn't there, a reader says how many bytes are left from where no journal
//! goes on.
ghost use Rattle.std.specs.Prelude.{◌≡◌, ℕ, map};
ghost use Rattle.mk_splice.specs.declared.reading.Stop.TheVariants.{Memory as StopMemory};
ghost use Rattle.mk_splice.specs.inner.Readings.{Gives, Passes};
ghost use Rattle.mk_splice.specs.Grammar.{count_of, is_hex, number_of, value_from, read_count as count_read, read_digest as digest_read, read_digits as digits_read, read_entry as entry_read, read_number as number_read, read_step as step_read, read_version as version_read};
ghost use Rattle.mk_splice.specs.Journals.{digest_meant, saturated, splice_meant};
ghost use Rattle.mk_splice.specs.Readers.{read_byte, read_run as run_read, read_text as text_read, read_times};
ghost use Rattle.mk_splice.specs.Views.{splice_of, steps_of};
ghost use Rattle.mk_splice.specs.inner.Parts.{step_meant, read_mark as mark_read};

use crate::splicing::Splice;
use std::alloc::{AllocError, AllocFailed, Global};

/// The version of a journal.
#[derive(Clone, Copy)]
pub enum Version {
    One,
    Two,
}

/// Why reading stops.
#[derive(Clone, Copy)]
pub enum Stop {
    /// No journal goes on with the bytes that are left.
    At { left: usize },
    /// Memory ran out.
    Memory,
}

impl From<AllocError> for Stop {
    ghost from_gives = { λ _ e. e ≡ StopMemory };

    fn from(_error: AllocError) -> Stop {
        Stop::Memory
    }
}

impl<T: Drop> From<AllocFailed<T>> for Stop {
    ghost from_gives = { λ _ e. e ≡ StopMemory };

    fn from(_error: AllocFailed<T>) -> Stop {
        Stop::Memory
    }
}

// A byte that is given.
pub fn read_mark(bytes: &[u8], mark: u8) -> Result<&[u8], Stop>
    ensures { Passes result (mark_read mark bytes.now) }
{
    match bytes {
        [] => Err(Stop::At { left: 0 }),
        [first, rest @ ..] => {
            if *first == mark {
                Ok(rest)
            } else {
                Err(Stop::At { left: bytes.len() })
            }
        }
    }
}

// A text that is given.
pub fn read_text<'a>(bytes: &'a [u8], text: &[u8]) -> Result<&'a [u8], Stop>
    ensures { Passes result (text_read text.now bytes.now) }
{
    let mut rest = bytes;
    for byte in text {
        rest = read_mark(rest, *byte)?;
    }
    Ok(rest)
}

// A version.
pub fn read_version(bytes: &[u8]) -> Result<(Version, &[u8]), Stop>
    ensures { Gives (λ v w. w ≡ v) result (version_read bytes.now) }
{
    match bytes {
        [] => Err(Stop::At { left: 0 }),
        [first, rest @ ..] => match *first {
            b'1' => Ok((Version::One, rest)),
            b'2' => Ok((Version::Two, rest)),
            _ => Err(Stop::At { left: bytes.len() }),
        },
    }
}

// A hexadecimal digit in lower case.
fn read_hex_digit(bytes: &[u8]) -> Result<(u8, &[u8]), Stop>
    ensures { Gives (λ c d. d ≡ c) result (read_byte is_hex bytes.now) }
{
    match bytes {
        [] => Err(Stop::At { left: 0 }),
        [first, rest @ ..] => {
            if first.is_ascii_digit() || b'a' <= *first && *first <= b'f' {
                Ok((*first, rest))
            } else {
                Err(Stop::At { left: bytes.len() })
            }
        }
    }
}

// 64 hexadecimal digits in lower case.
fn read_hex(bytes: &[u8]) -> Result<([u8; 64], &[u8]), Stop>
    ensures { Gives (λ cs ds. ds ≡ cs) result (read_times 64 (read_byte is_hex) bytes.now) }
{
    let mut digits = [0; 64];
    let mut rest = bytes;
    for i in 0..64 {
        let (digit, following) = read_hex_digit(rest)?;
        digits[i] = digit;
        rest = following;
    }
    Ok((digits, rest))
}

// The line of a digest, which version 1 hasn't.
pub fn read_digest(version: Version, bytes: &[u8]) -> Result<(Option<[u8; 64]>, &[u8]), Stop>
    ensures { Gives (λ ds d. d ≡ digest_meant version ds) result (digest_read version bytes.now) }
{
    match version {
        Version::One => Ok((None, bytes)),
        Version::Two => {
            let (digest, rest) = read_hex(bytes)?;
            let rest = read_mark(rest, b'\n')?;
            Ok((Some(digest), rest))
        }
    }
}

// At most this many digits, and a byte after them.
fn read_digits(bytes: &[u8], value: usize, left: u8, end: u8) -> Result<(usize, &[u8]), Stop>
    ensures { (v : ℕ) → value ≡ saturated v → Gives (λ ds n. n ≡ saturated (value_from v ds)) result (digits_read left end bytes.now) }
{
    match bytes {
        [] => Err(Stop::At { left: 0 }),
        [first, rest @ ..] => {
            if *first == end {
                Ok((value, rest))
            } else if left > 0 && first.is_ascii_digit() {
                let more = value
                    .saturating_mul(10)
                    .saturating_add(usize::from(*first - b'0'));
                read_digits(rest, more, left - 1, end)
            } else {
                Err(Stop::At { left: bytes.len() })
            }
        }
    }
}

// A number and a byte after it. What 64 bits don't hold is the greatest that they hold.
pub fn read_number(bytes: &[u8], end: u8) -> Result<(usize, &[u8]), Stop>
    ensures { Gives (λ ds n. n ≡ saturated (number_of ds)) result (number_read end bytes.now) }
{
    match bytes {
        [] => Err(Stop::At { left: 0 }),
        [first, rest @ ..] => {
            if first.is_ascii_digit() {
                let more = if *first == b'0' { 0 } else { 19 };
                read_digits(rest, usize::from(*first - b'0'), more, end)
            } else {
                Err(Stop::At { left: bytes.len() })
            }
        }
    }
}

// This many bytes.
fn read_run(alloc: Global, bytes: &[u8], count: usize) -> Result<(Vec<u8>, &[u8]), Stop>
    ensures { (n : ℕ) → count ≡ saturated n → Gives (λ xs v. v.items ≡ xs) result (run_read n bytes.now) }
{
    if bytes.len() < count {
        return Err(Stop::At { left: 0 });
    }
    let run = Vec::from_slice(alloc, &bytes[..count])?;
    Ok((run, &bytes[count..]))
}

// An entry.
fn read_entry(alloc: Global, bytes: &[u8]) -> Result<(Splice, &[u8]), Stop>
    ensures { Gives (λ e s. splice_of s ≡ splice_meant e) result (entry_read bytes.now) }
{
    let (place, rest) = read_number(bytes, b' ')?;
    let (old_size, rest) = read_number(rest, b' ')?;
    let (new_size, rest) = read_number(rest, b'\n')?;
    let (old, rest) = read_run(alloc, rest, old_size)?;
    let (new, rest) = read_run(alloc, rest, new_size)?;
    let rest = read_mark(rest, b'\n')?;
    Ok((Splice { place, old, new }, rest))
}

// This many entries.
fn read_entries(alloc: Global, bytes: &[u8], count: usize) -> Result<(Vec<Splice>, &[u8]), Stop>
    ensures { (n : ℕ) → count ≡ saturated n → Gives (λ es v. map splice_of v.items ≡ map splice_meant es) result (read_times n entry_read bytes.now) }
{
    let mut entries = Vec::new(alloc);
    let mut rest = bytes;
    for _ in 0..count {
        let (entry, following) = read_entry(alloc, rest)?;
        entries.push(entry)?;
        rest = following;
    }
    Ok((entries, rest))
}

// The line of a step's count of entries; in version 1 there is one entry and no line.
fn read_count(version: Version, bytes: &[u8]) -> Result<(usize, &[u8]), Stop>
    ensures { Gives (λ ds n. n ≡ saturated (count_of version ds)) result (count_read version bytes.now) }
{
    match version {
        Version::One => Ok((1, bytes)),
        Version::Two => read_number(bytes, b'\n'),
    }
}

// A step.
fn read_step(alloc: Global, version: Version, bytes: &[u8]) -> Result<(Vec<Splice>, &[u8]), Stop>
    ensures { Gives (λ s v. map splice_of v.items ≡ step_meant s) result (step_read version bytes.now) }
{
    let (count, rest) = read_count(version, bytes)?;
    read_entries(alloc, rest, count)
}

// This many steps.
pub fn read_steps(
    alloc: Global,
    version: Version,
    bytes: &[u8],
    count: usize,
) -> Result<(Vec<Vec<Splice>>, &[u8]), Stop>
    ensures { (n : ℕ) → count ≡ saturated n → Gives (λ ss v. steps_of v.items ≡ map step_meant ss) result (read_times n (step_read version) bytes.now) }
{
    let mut steps = Vec::new(alloc);
    let mut rest = bytes;
    for _ in 0..count {
        let (step, following) = read_step(alloc, version, rest)?;
        steps.push(step)?;
        rest = following;
    }
    Ok((steps, rest))
}
