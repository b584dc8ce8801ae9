//! Whether steps fit a text: each finds the bytes that it replaces.
ghost use Rattle.std.specs.Prelude.{◌≡◌, ◌≤◌, ◌+◌, None, IfOk, IfErr, OnOk, length, map, drop};
ghost use Rattle.mk_splice.specs.Misfits.{all_made, all_taken_back, misfit, stands, step_made, step_taken_back, Says};
ghost use Rattle.mk_splice.specs.inner.Tries.{FailsWith, IsTried, Succeeds};
ghost use Rattle.mk_splice.specs.Views.{splice_of, steps_of};
ghost use Rattle.mk_splice.specs.declared.fitting.FitError.TheVariants.{Memory as FitMemory};

use crate::open::{OpenText, opening_pays};
use crate::splicing::{Splice, taken};
use crate::texts::Text;
use std::alloc::{AllocError, Global};
use thiserror::Error;

/// Why steps don't fit a text.
#[derive(Clone, Copy, Debug, PartialEq, Eq, Error)]
pub enum FitError {
    /// A step doesn't find the bytes that it replaces: the first that doesn't, of the done ones taken back from the last to
    /// the first, and then of the others. The first step has number 1.
    #[error("step {step} doesn't fit the text")]
    Misfit { step: usize },
    /// Memory ran out.
    #[error("out of memory")]
    Memory,
}

impl From<AllocError> for FitError {
    ghost from_gives = { λ _ e. e ≡ FitMemory };

    fn from(_error: AllocError) -> FitError {
        FitError::Memory
    }
}

/// Whether steps fit a text, of which this many are done: these can be taken back from it, and the others made.
pub fn fit(alloc: Global, text: &[u8], steps: &[Vec<Splice>], done: usize) -> Result<(), FitError>
    requires { done ≤ length steps.now }
    ensures ok { OnOk result (misfit text.now (steps_of steps.now) done ≡ None) }
    ensures err { IfErr result (λ e. Says e (misfit text.now (steps_of steps.now) done)) }
{
    fit_back(alloc, text, &steps[..done])?;
    fit_forth(alloc, text, steps, done)
}

// Whether steps can be taken back from a text. Where there is none, nothing is copied.
fn fit_back(alloc: Global, text: &[u8], steps: &[Vec<Splice>]) -> Result<(), FitError>
    ensures ok { OnOk result (Succeeds (all_taken_back 1 (steps_of steps.now) text.now)) }
    ensures err { IfErr result (λ e. FailsWith e (all_taken_back 1 (steps_of steps.now) text.now)) }
{
    if steps.is_empty() {
        return Ok(());
    }
    let mut trial = Text::new(Vec::from_slice(alloc, text)?);
    let mut left = steps.len();
    while 0 < left {
        if !try_back(&mut trial, &steps[left - 1])? {
            return Err(FitError::Misfit { step: left });
        }
        left -= 1;
    }
    Ok(())
}

// Whether the steps that aren't done can be made from a text.
fn fit_forth(alloc: Global, text: &[u8], steps: &[Vec<Splice>], done: usize) -> Result<(), FitError>
    requires { done ≤ length steps.now }
    ensures ok { OnOk result (Succeeds (all_made (done + 1) (steps_of (drop done steps.now)) text.now)) }
    ensures err { IfErr result (λ e. FailsWith e (all_made (done + 1) (steps_of (drop done steps.now)) text.now)) }
{
    if done == steps.len() {
        return Ok(());
    }
    let mut trial = Text::new(Vec::from_slice(alloc, text)?);
    let mut made = done;
    while made < steps.len() {
        if !try_forth(&mut trial, &steps[made])? {
            return Err(FitError::Misfit { step: made + 1 });
        }
        made += 1;
    }
    Ok(())
}

// Takes a step back where each splice finds its new bytes, and answers whether all did.
fn try_back(text: &mut Text, step: &[Splice]) -> Result<bool, AllocError>
    ensures { IfOk result (λ all. IsTried all text.new.bytes (step_taken_back (map splice_of step.now) text.old.bytes)) }
{
    match step.last() {
        Some(last) if opening_pays(text, last.place, text.len(), step) => {
            try_back_open(text, last.place, step)
        }
        _ => try_back_in_turn(text, step),
    }
}

// The same where each splice moves the bytes on one side of its place.
fn try_back_in_turn(text: &mut Text, step: &[Splice]) -> Result<bool, AllocError>
    ensures { IfOk result (λ all. IsTried all text.new.bytes (step_taken_back (map splice_of step.now) text.old.bytes)) }
{
    let mut left = step.len();
    while 0 < left {
        left -= 1;
        let splice = &step[left];
        if !stand(text.bytes(), splice.place, &splice.new) {
            return Ok(false);
        }
        text.replace(splice.place, splice.new.len(), &splice.old)?;
    }
    Ok(true)
}

// The same in the open text.
fn try_back_open(text: &mut Text, place: usize, step: &[Splice]) -> Result<bool, AllocError>
    ensures { IfOk result (λ all. IsTried all text.new.bytes (step_taken_back (map splice_of step.now) text.old.bytes)) }
{
    let most = text.len();
    let mut gapped = OpenText::new(taken(text), place, most);
    let mut left = step.len();
    while 0 < left {
        left -= 1;
        let splice = &step[left];
        if !gapped.finds(splice.place, &splice.new) {
            return Ok(false);
        }
        gapped.replace(splice.place, splice.new.len(), &splice.old)?;
    }
    *text = gapped.close();
    Ok(true)
}

// Makes a step where each splice finds its old bytes, and answers whether all did.
fn try_forth(text: &mut Text, step: &[Splice]) -> Result<bool, AllocError>
    ensures { IfOk result (λ all. IsTried all text.new.bytes (step_made (map splice_of step.now) text.old.bytes)) }
{
    match step.first() {
        Some(first) if opening_pays(text, first.place, text.len(), step) => {
            try_forth_open(text, first.place, step)
        }
        _ => try_forth_in_turn(text, step),
    }
}

// The same where each splice moves the bytes on one side of its place.
fn try_forth_in_turn(text: &mut Text, step: &[Splice]) -> Result<bool, AllocError>
    ensures { IfOk result (λ all. IsTried all text.new.bytes (step_made (map splice_of step.now) text.old.bytes)) }
{
    for splice in step {
        if !stand(text.bytes(), splice.place, &splice.old) {
            return Ok(false);
        }
        text.replace(splice.place, splice.old.len(), &splice.new)?;
    }
    Ok(true)
}

// The same in the open text.
fn try_forth_open(text: &mut Text, place: usize, step: &[Splice]) -> Result<bool, AllocError>
    ensures { IfOk result (λ all. IsTried all text.new.bytes (step_made (map splice_of step.now) text.old.bytes)) }
{
    let most = text.len();
    let mut gapped = OpenText::new(taken(text), place, most);
    for splice in step {
        if !gapped.finds(splice.place, &splice.old) {
            return Ok(false);
        }
        gapped.replace(splice.place, splice.old.len(), &splice.new)?;
    }
    *text = gapped.close();
    Ok(true)
}

// Whether bytes stand at a place of a text.
fn stand(text: &[u8], place: usize, bytes: &[u8]) -> bool
    ensures { result ≡ stands place bytes.now text.now }
{
    place <= text.len() && text[place..].starts_with(bytes)
}
