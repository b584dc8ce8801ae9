//! Journals as they are printed.
ghost use Rattle.std.specs.Prelude.{◌≡◌, ◌≤◌, ◌<◌, ◌^◌, ◌++◌, IfOk, OnOk, length, map};
ghost use Rattle.mk_splice.specs.Journals.{digest_of as digest_meant};
ghost use Rattle.mk_splice.specs.Printed.{AreSmall, IsSmall, printed, printed_entry, printed_number, printed_step};
ghost use Rattle.mk_splice.specs.Views.{splice_of, steps_of};
ghost use Rattle.mk_splice.specs.inner.Parts.{AreSmallSplices, printed_front};

use crate::digests::digest_of;
use crate::splicing::Splice;
use itoa::Buffer;
use std::alloc::{AllocError, Global};

/// The journal of a text and of steps that fit it, of which this many are done. It is printed in version 2.
pub fn print(
    alloc: Global,
    text: &[u8],
    steps: &[Vec<Splice>],
    done: usize,
) -> Result<Vec<u8>, AllocError>
    requires { done ≤ length steps.now }
    ensures ok { IfOk result (λ v. v.items ≡ printed (digest_meant text.now) (steps_of steps.now) done) }
    ensures small { OnOk result (AreSmall (steps_of steps.now)) }
{
    let mut out = front(alloc, text, done, steps.len() - done)?;
    for step in steps {
        push_step(&mut out, step)?;
    }
    Ok(out)
}

// What stands before the steps.
fn front(alloc: Global, text: &[u8], done: usize, undone: usize) -> Result<Vec<u8>, AllocError>
    ensures { IfOk result (λ v. v.items ≡ printed_front (digest_meant text.now) done undone) }
{
    let mut out = Vec::from_slice(alloc, b"mimejournal 2\n")?;
    out.extend_from_slice(&digest_of(text))?;
    out.push(b'\n')?;
    push_number(&mut out, done, b' ')?;
    push_number(&mut out, undone, b'\n')?;
    Ok(out)
}

// Writes a step at the end.
fn push_step(out: &mut Vec<u8>, step: &[Splice]) -> Result<(), AllocError>
    ensures printed { OnOk result (out.new.items ≡ out.old.items ++ printed_step (map splice_of step.now)) }
    ensures count { length step.now < 2 ^ 64 }
    ensures small { OnOk result (AreSmallSplices (map splice_of step.now)) }
{
    push_number(out, step.len(), b'\n')?;
    for splice in step {
        push_entry(out, splice)?;
    }
    Ok(())
}

// Writes an entry at the end.
fn push_entry(out: &mut Vec<u8>, splice: &Splice) -> Result<(), AllocError>
    ensures printed { OnOk result (out.new.items ≡ out.old.items ++ printed_entry (splice_of splice.now)) }
    ensures small { IsSmall (splice_of splice.now) }
{
    push_number(out, splice.place, b' ')?;
    push_number(out, splice.old.len(), b' ')?;
    push_number(out, splice.new.len(), b'\n')?;
    out.extend_from_slice(&splice.old)?;
    out.extend_from_slice(&splice.new)?;
    out.push(b'\n')?;
    Ok(())
}

// Writes a number and a byte after it at the end.
fn push_number(out: &mut Vec<u8>, number: usize, end: u8) -> Result<(), AllocError>
    ensures { OnOk result (out.new.items ≡ out.old.items ++ printed_number number end) }
{
    let mut digits = Buffer::new();
    out.extend_from_slice(digits.format(number).as_bytes())?;
    out.push(end)?;
    Ok(())
}
