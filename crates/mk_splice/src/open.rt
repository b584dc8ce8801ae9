//! A text that is open at a gap, as in a gap buffer: of the splices of a step each moves the bytes between the gap and its place, and
//! no others.
ghost use Rattle.std.specs.Prelude.{◌≡◌, ◌+◌, ◌≤◌, ◌++◌, IsTrue, drop, take, vec_len, vec_capacity};

use crate::replacing::overwrite;
use crate::splicing::Splice;
use crate::texts::{Text, move_to_front};
use std::alloc::AllocError;
use std::marker::Model;
use std::mem;

/// A text with a gap.
#[derive(Drop)]
pub(crate) struct OpenText {
    items: Vec<u8>,
    /// How many bytes stand before the gap.
    front: usize,
    /// Where those after it begin.
    rest: usize,
}

impl Model for OpenText {
    ghost use Rattle.std.specs.Prelude.{◌≤◌, drop, take, vec_len, vec_capacity};
    ghost use Rattle.mk_splice.specs.inner.Open.{Opened};

    ghost Value = { Opened };

    ghost view = { λ t. record { front = take t.front t.items.items; rest = drop t.rest t.items.items; room = vec_len t.items; capacity = vec_capacity t.items } };

    ghost invariant = { λ t. (t.front ≤ t.rest) × (t.rest ≤ vec_len t.items) };
}

impl OpenText {
    ghost use Rattle.std.specs.Prelude.{◌≡◌, ◌+◌, ◌≤◌, length, OnOk};
    ghost use Rattle.mk_splice.specs.Misfits.{stands};
    ghost use Rattle.mk_splice.specs.Splices.{spliced};
    ghost use Rattle.mk_splice.specs.inner.Open.{shut};

    /// Opens a text, with room for `most` bytes in all: before it, where that is enough and `place` is in its first half, else
    /// after it.
    pub(crate) fn new(text: Text, place: usize, most: usize) -> OpenText
        requires { most ≤ text.capacity }
        ensures bytes { shut result ≡ text.bytes }
        ensures room { most ≤ result.room }
        ensures capacity { text.capacity ≤ result.capacity }
    {
        let Text { mut items, start } = text;
        if opens_before(items.len(), start, place, most) {
            return OpenText {
                items,
                front: 0,
                rest: start,
            };
        }
        move_to_front(&mut items, start);
        let front = items.len();
        let _is_made = items.resize(most.max(front), 0);
        let rest = items.len();
        OpenText { items, front, rest }
    }

    /// Closes the text.
    pub(crate) fn close(self) -> Text
        ensures bytes { result.bytes ≡ shut self }
        ensures capacity { self.capacity ≤ result.capacity }
    {
        let OpenText {
            mut items,
            front,
            rest,
        } = self;
        let after = items.len() - rest;
        if front < after {
            let start = move_gap(&mut items, front, rest, 0);
            return Text { items, start };
        }
        let _end = move_gap(&mut items, front, rest, front + after);
        items.truncate(front + after);
        Text { items, start: 0 }
    }

    /// Whether bytes stand at a place. The gap moves there, if the place is in the text.
    pub(crate) fn finds(&mut self, place: usize, bytes: &[u8]) -> bool
        ensures found { result ≡ stands place bytes.now (shut self.old) }
        ensures same { shut self.new ≡ shut self.old }
    {
        if self.front + (self.items.len() - self.rest) < place {
            return false;
        }
        self.rest = move_gap(&mut self.items, self.front, self.rest, place);
        self.front = place;
        self.items[self.rest..].starts_with(bytes)
    }

    /// Puts `text` in the place of `count` bytes at `place`, where there is room.
    pub(crate) fn replace_within(&mut self, place: usize, count: usize, text: &[u8])
        requires inside { place + count ≤ length (shut self.old) }
        requires room { length (shut self.old) + length text.now ≤ self.old.room + count }
        ensures bytes { shut self.new ≡ spliced place count text.now (shut self.old) }
        ensures room { self.new.room ≡ self.old.room }
        ensures capacity { self.old.capacity ≤ self.new.capacity }
    {
        let rest = move_gap(&mut self.items, self.front, self.rest, place);
        overwrite(&mut self.items, place, text);
        self.front = place + text.len();
        self.rest = rest + count;
    }

    /// Puts `text` in the place of `count` bytes at `place`.
    pub(crate) fn replace(
        &mut self,
        place: usize,
        count: usize,
        text: &[u8],
    ) -> Result<(), AllocError>
        requires { place + count ≤ length (shut self.old) }
        ensures { OnOk result (shut self.new ≡ spliced place count text.now (shut self.old)) }
    {
        if self.rest - self.front + count < text.len() {
            self.widen(place, count, text.len())?;
        }
        self.replace_within(place, count, text);
        Ok(())
    }

    // Makes room to put `size` bytes in the place of `count` bytes at `place`.
    fn widen(&mut self, place: usize, count: usize, size: usize) -> Result<(), AllocError>
        requires { place + count ≤ length (shut self.old) }
        ensures same { OnOk result (shut self.new ≡ shut self.old) }
        ensures room { OnOk result (length (shut self.old) + size ≤ self.new.room + count) }
    {
        let items = Vec::new(*self.items.allocator());
        let none = OpenText {
            items,
            front: 0,
            rest: 0,
        };
        let mut text = mem::replace(self, none).close();
        text.reserve(place, count, size)?;
        let most = text.capacity();
        *self = OpenText::new(text, place, most);
        Ok(())
    }
}

// Moves a gap, which begins at `front` and ends at `rest`, to `place`, and answers where it ends then.
fn move_gap(items: &mut Vec<u8>, front: usize, rest: usize, place: usize) -> usize
    requires order { front ≤ rest }
    requires within { rest ≤ vec_len items.old }
    requires place { place + rest ≤ front + vec_len items.old }
    ensures rest { result + front ≡ rest + place }
    ensures same { take place items.new.items ++ drop result items.new.items ≡ take front items.old.items ++ drop rest items.old.items }
    ensures len { vec_len items.new ≡ vec_len items.old }
    ensures capacity { vec_capacity items.new ≡ vec_capacity items.old }
{
    let to = rest - front + place;
    if place < front {
        items.copy_within(place..front, to);
    } else {
        items.copy_within(rest..to, front);
    }
    to
}

// Whether a text that begins at `start` of `size` bytes has room for `most` bytes so, and `place` is in its first half.
fn opens_before(size: usize, start: usize, place: usize, most: usize) -> bool
    requires { start ≤ size }
    ensures { IsTrue result → most ≤ size }
{
    most <= size && place < (size - start) / 2
}

/// Whether the splices of a step move fewer bytes in a text that is opened at `place`, with room for `most` bytes, than where
/// each moves those on one side of its place.
pub(crate) fn opening_pays(text: &Text, place: usize, most: usize, step: &[Splice]) -> bool {
    let (Some(first), Some(last)) = (step.first(), step.last()) else {
        return false;
    };
    let size = text.len();
    let is_moved = text.start != 0 && !opens_before(text.items.len(), text.start, place, most);
    let mut between = beside(size, first.place).saturating_add(beside(size, last.place));
    let mut alone = 0usize;
    let mut before = first.place;
    for splice in step {
        between = between.saturating_add(splice.place.abs_diff(before));
        alone = alone.saturating_add(beside(size, splice.place));
        before = splice.place;
    }
    let opened = if is_moved { size } else { 0 };
    between.saturating_add(opened) < alone
}

// How many bytes are on the side of a place that has fewer.
fn beside(size: usize, place: usize) -> usize {
    place.min(size.saturating_sub(place))
}
