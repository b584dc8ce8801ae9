//! Steps of replacements of a text's bytes, made and taken back.
ghost use Rattle.std.specs.Prelude.{◌≡◌, ◌+◌, ◌≤◌, IfOk, length, map, take, drop};
ghost use Rattle.mk_splice.specs.Splices.{back_step, forth_step, GoesBack, GoesForth};
ghost use Rattle.mk_splice.specs.Peaks.{most_back, most_forth};
ghost use Rattle.mk_splice.specs.Views.{splice_of};

use crate::open::{OpenText, opening_pays};
use crate::peaks::{peak_back, peak_forth};
use crate::texts::Text;
use std::alloc::{AllocError, Global};
use std::mem;

/// A place in a text, the bytes that stood there and those that took their place.
#[derive(Debug, Drop)]
pub struct Splice {
    pub place: usize,
    pub old: Vec<u8>,
    pub new: Vec<u8>,
}

/// A copy of `count` bytes at `place`.
pub fn copied(alloc: Global, text: &[u8], place: usize, count: usize) -> Result<Vec<u8>, AllocError>
    requires { place + count ≤ length text.now }
    ensures { IfOk result (λ v. v.items ≡ take count (drop place text.now)) }
{
    Vec::from_slice(alloc, &text[place..place + count])
}

/// Takes a step back, its last splice first, in a text that has the room that this takes on the way.
pub fn take_back_in(text: &mut Text, step: &[Splice])
    requires goes { GoesBack (map splice_of step.now) text.old.bytes }
    requires room { most_back (map splice_of step.now) (length text.old.bytes) ≤ text.old.capacity }
    ensures bytes { text.new.bytes ≡ back_step (map splice_of step.now) text.old.bytes }
    ensures capacity { text.old.capacity ≤ text.new.capacity }
{
    let most = peak_back(text.len(), step).unwrap_or(text.capacity());
    match step.last() {
        Some(last) if opening_pays(text, last.place, most, step) => {
            take_back_open(text, last.place, most, step);
        }
        _ => take_back_in_turn(text, step),
    }
}

/// Makes a step again, its first splice first, in a text that has the room that this takes on the way.
pub fn make_again_in(text: &mut Text, step: &[Splice])
    requires goes { GoesForth (map splice_of step.now) text.old.bytes }
    requires room { most_forth (map splice_of step.now) (length text.old.bytes) ≤ text.old.capacity }
    ensures bytes { text.new.bytes ≡ forth_step (map splice_of step.now) text.old.bytes }
    ensures capacity { text.old.capacity ≤ text.new.capacity }
{
    let most = peak_forth(text.len(), step).unwrap_or(text.capacity());
    match step.first() {
        Some(first) if opening_pays(text, first.place, most, step) => {
            make_again_open(text, first.place, most, step);
        }
        _ => make_again_in_turn(text, step),
    }
}

// Takes a step back: each splice moves the bytes on one side of its place.
fn take_back_in_turn(text: &mut Text, step: &[Splice])
    requires goes { GoesBack (map splice_of step.now) text.old.bytes }
    requires room { most_back (map splice_of step.now) (length text.old.bytes) ≤ text.old.capacity }
    ensures bytes { text.new.bytes ≡ back_step (map splice_of step.now) text.old.bytes }
    ensures capacity { text.old.capacity ≤ text.new.capacity }
{
    let mut left = step.len();
    while 0 < left {
        left -= 1;
        let splice = &step[left];
        text.replace_within(splice.place, splice.new.len(), &splice.old);
    }
}

// Takes a step back in the open text.
fn take_back_open(text: &mut Text, place: usize, most: usize, step: &[Splice])
    requires goes { GoesBack (map splice_of step.now) text.old.bytes }
    requires room { most_back (map splice_of step.now) (length text.old.bytes) ≤ most }
    requires capacity { most ≤ text.old.capacity }
    ensures bytes { text.new.bytes ≡ back_step (map splice_of step.now) text.old.bytes }
    ensures capacity { text.old.capacity ≤ text.new.capacity }
{
    let mut gapped = OpenText::new(taken(text), place, most);
    let mut left = step.len();
    while 0 < left {
        left -= 1;
        let splice = &step[left];
        gapped.replace_within(splice.place, splice.new.len(), &splice.old);
    }
    *text = gapped.close();
}

// Makes a step again: each splice moves the bytes on one side of its place.
fn make_again_in_turn(text: &mut Text, step: &[Splice])
    requires goes { GoesForth (map splice_of step.now) text.old.bytes }
    requires room { most_forth (map splice_of step.now) (length text.old.bytes) ≤ text.old.capacity }
    ensures bytes { text.new.bytes ≡ forth_step (map splice_of step.now) text.old.bytes }
    ensures capacity { text.old.capacity ≤ text.new.capacity }
{
    for splice in step {
        text.replace_within(splice.place, splice.old.len(), &splice.new);
    }
}

// Makes a step again in the open text.
fn make_again_open(text: &mut Text, place: usize, most: usize, step: &[Splice])
    requires goes { GoesForth (map splice_of step.now) text.old.bytes }
    requires room { most_forth (map splice_of step.now) (length text.old.bytes) ≤ most }
    requires capacity { most ≤ text.old.capacity }
    ensures bytes { text.new.bytes ≡ forth_step (map splice_of step.now) text.old.bytes }
    ensures capacity { text.old.capacity ≤ text.new.capacity }
{
    let mut gapped = OpenText::new(taken(text), place, most);
    for splice in step {
        gapped.replace_within(splice.place, splice.old.len(), &splice.new);
    }
    *text = gapped.close();
}

/// A text, which is empty then.
pub(crate) fn taken(text: &mut Text) -> Text
    ensures { result ≡ text.old }
{
    let none = Text::new(Vec::new(text.allocator()));
    mem::replace(text, none)
}
