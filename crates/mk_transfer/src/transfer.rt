//! Whole texts from a source and to a sink.

ghost use Rattle.std.specs.Prelude.{◌≡◌, ◌+◌, ◌++◌, ◌<◌, ◌≤◌, ◌⊎◌, [], true, List, ℕ, length, take, drop, IfOk, IfErr, OnOk, OnErr};
ghost use Rattle.std.specs.Io.KnownBytes.{Consumes, IsAtEnd, Appends, Keeps};
ghost use Rattle.mk_line.specs.Meters.{ticked};
ghost use Rattle.mk_mailbox.specs.Devices.{Rose, IsLong, AppendsFront};
ghost use Rattle.mk_transfer.specs.RunClauses.{Sends};
ghost use Rattle.mk_transfer.specs.declared.transfer.Stop.TheVariants.{Memory as NoMemory};

use mk_mailbox::{CHUNK_BYTES, Fault, MOST_READS, Sink, Source};
use std::alloc::{AllocError, AllocFailed, Global};

/// Why a text wasn't read to its end, or bytes weren't sent.
#[derive(Clone, Copy, Debug, PartialEq, Eq)]
pub enum Stop {
    Fault,
    Memory,
}

impl From<AllocError> for Stop {
    ghost from_gives = { λ _ stop. stop ≡ NoMemory };

    fn from(_: AllocError) -> Stop {
        Stop::Memory
    }
}

impl<T: Drop> From<AllocFailed<T>> for Stop {
    ghost from_gives = { λ _ stop. stop ≡ NoMemory };

    fn from(_: AllocFailed<T>) -> Stop {
        Stop::Memory
    }
}

/// Reads all that the source has left.
pub fn read_all<S: Source>(alloc: Global, input: &mut S) -> Result<Vec<u8>, Stop>
    ensures all { IfOk result (λ text. Consumes (S.remaining input.old) (S.remaining input.new) text.items) }
    ensures ended { OnOk result (IsAtEnd (S.remaining input.new)) }
    ensures well { OnOk result (S.failures input.new ≡ S.failures input.old) }

    // What was read before the stop is the start of what was left.
    ensures front { OnErr result ((bytes : List ℕ)
        × Consumes (S.remaining input.old) (S.remaining input.new) bytes) }
    ensures fault { IfErr result (λ stop. stop ≡ Stop.Fault
        → Rose (S.failures input.old) (S.failures input.new)
        ⊎ IsLong (S.read_count input.old) (S.read_count input.new)) }
    ensures memory { IfErr result (λ stop. stop ≡ Stop.Memory → S.failures input.new ≡ S.failures input.old) }
{
    let mut text = room_for(alloc, input.left());
    let mut filled = 0;
    for _read in 0..MOST_READS {
        let count = read_more(input, &mut text, filled)?;
        if count == 0 {
            text.truncate(filled);
            return Ok(text);
        }
        filled += count;
    }
    Err(Stop::Fault)
}

// An empty text with room for as many bytes as are left, and for one more, so that the read that finds the end needs no room
// of its own. Where there is no memory for so many, the text grows as it is read.
fn room_for(alloc: Global, left: Option<usize>) -> Vec<u8>
    ensures { result.items ≡ [] }
{
    match left {
        Some(left) if left > 0 => match Vec::with_capacity(alloc, left.saturating_add(1)) {
            Ok(text) => text,
            Err(_) => Vec::new(alloc),
        },
        _ => Vec::new(alloc),
    }
}

// Reads once, to a place of a text after which nothing stands yet, and answers how many bytes it read. The text is as long as
// the bytes that were read, or longer: what is after them is room.
fn read_more<S: Source>(input: &mut S, text: &mut Vec<u8>, filled: usize) -> Result<usize, Stop>
    requires { filled ≤ length text.old.items }
    ensures bytes { IfOk result (λ count. Consumes (S.remaining input.old) (S.remaining input.new) (take count (drop filled text.new.items))) }
    ensures front { OnOk result (take filled text.new.items ≡ take filled text.old.items) }
    ensures within { IfOk result (λ count. filled + count ≤ length text.new.items) }
    ensures ended { IfOk result (λ count. count ≡ 0 → IsAtEnd (S.remaining input.new)) }
    ensures well { OnOk result (S.failures input.new ≡ S.failures input.old) }
    ensures counted { OnOk result (S.read_count input.new ≡ ticked (S.read_count input.old)) }
    ensures stopped { OnErr result ((bytes : List ℕ) × Consumes (S.remaining input.old) (S.remaining input.new) bytes) }
    ensures fault { IfErr result (λ stop. stop ≡ Stop.Fault → Rose (S.failures input.old) (S.failures input.new)) }
    ensures memory { IfErr result (λ stop. stop ≡ Stop.Memory → S.failures input.new ≡ S.failures input.old) }
{
    let room = (text.capacity() - text.len()).min(CHUNK_BYTES);
    if filled == text.len() {
        if room == 0 {
            return read_apart(input, text);
        }
        text.resize(filled + room, 0)?;
    }
    match input.read(&mut text[filled..]) {
        Ok(count) => Ok(count),
        Err(Fault) => Err(Stop::Fault),
    }
}

// Reads once into bytes of its own and puts them at the end of a text that has no room, so that no memory is asked for at the
// end of the input.
fn read_apart<S: Source>(input: &mut S, text: &mut Vec<u8>) -> Result<usize, Stop>
    ensures bytes { IfOk result (λ count. (read : List ℕ) × Consumes (S.remaining input.old) (S.remaining input.new) read
        × (text.new.items ≡ text.old.items ++ read) × (count ≡ length read)) }
    ensures ended { IfOk result (λ count. count ≡ 0 → IsAtEnd (S.remaining input.new)) }
    ensures well { OnOk result (S.failures input.new ≡ S.failures input.old) }
    ensures counted { OnOk result (S.read_count input.new ≡ ticked (S.read_count input.old)) }
    ensures stopped { OnErr result ((bytes : List ℕ) × Consumes (S.remaining input.old) (S.remaining input.new) bytes) }
    ensures fault { IfErr result (λ stop. stop ≡ Stop.Fault → Rose (S.failures input.old) (S.failures input.new)) }
    ensures memory { IfErr result (λ stop. stop ≡ Stop.Memory → S.failures input.new ≡ S.failures input.old) }
{
    let mut piece = [0u8; CHUNK_BYTES];
    match input.read(&mut piece) {
        Ok(count) => {
            text.extend_from_slice(&piece[..count])?;
            Ok(count)
        }
        Err(Fault) => Err(Stop::Fault),
    }
}

/// Writes all the bytes.
pub fn write_all<O: Sink>(out: &mut O, bytes: &[u8]) -> Result<(), Fault>
    ensures all { OnOk result (Appends (O.contents out.old) (O.contents out.new) bytes.now) }
    ensures well { OnOk result (O.failures out.new ≡ O.failures out.old) }
    ensures front { OnErr result (AppendsFront (O.contents out.old) (O.contents out.new) bytes.now) }
    ensures fault { OnErr result (Rose (O.failures out.old) (O.failures out.new)) }
    ensures counted { O.failures out.old ≤ O.failures out.new }
    ensures unfinished { O.finishes out.new ≡ O.finishes out.old }
{
    let mut rest = bytes;
    while !rest.is_empty() {
        let count = out.write(rest)?;
        if count == 0 {
            return Err(Fault);
        }
        rest = &rest[count..];
    }
    Ok(())
}

/// Writes all the bytes, for a caller that may also run out of memory.
pub fn send<O: Sink>(out: &mut O, bytes: &[u8]) -> Result<(), Stop>
    ensures sends { Sends result bytes.now
        (O.contents out.old) (O.contents out.new) (O.failures out.old) (O.failures out.new) }
    ensures only { IfErr result (λ stop. stop ≡ Stop.Fault) }
    ensures unfinished { O.finishes out.new ≡ O.finishes out.old }
{
    match write_all(out, bytes) {
        Ok(()) => Ok(()),
        Err(Fault) => Err(Stop::Fault),
    }
}

/// Says to a device that all was written.
pub fn finish<O: Sink>(out: &mut O) -> Result<(), Stop>
    ensures kept { Keeps (O.contents out.old) (O.contents out.new) }
    ensures stands { OnOk result (O.finishes out.new ≡ ticked (O.finishes out.old)) }
    ensures well { OnOk result (O.failures out.new ≡ O.failures out.old) }
    ensures fault { OnErr result (Rose (O.failures out.old) (O.failures out.new)) }
    ensures only { IfErr result (λ stop. stop ≡ Stop.Fault) }
    ensures unfinished { OnErr result (O.finishes out.new ≡ O.finishes out.old) }
{
    match out.finish() {
        Ok(()) => Ok(()),
        Err(Fault) => Err(Stop::Fault),
    }
}
