//! A gap buffer: a text with a gap where it was changed last, or nearly so. A change moves the bytes between the gap and its
//! place, or those after it where they are fewer.
ghost use Rattle.std.specs.Prelude.{◌≡◌, ◌+◌, ◌≤◌, ◌<◌, ◌^◌, ◌⊎◌, [], ◌++◌, IfOk, OnOk, OnErr, drop, length, min, take, vec_len};
ghost use Rattle.std.specs.List.{copy_within};
ghost use Rattle.mk_splice.specs.Splices.{spliced};
ghost use Rattle.mk_edit.specs.inner.Gaps.{without_gap};

use mk_splice::{replace, replace_within};
use std::alloc::AllocError;
use std::marker::Model;

// A text that takes less than half of its memory, by more than this many bytes, gives the rest back.
const LARGE: usize = 65_536;

/// A text with a gap.
#[derive(Drop)]
pub(crate) struct GapText {
    items: Vec<u8>,
    /// How many bytes stand before the gap.
    front: usize,
    /// Where those after it begin.
    rest: usize,
}

impl Model for GapText {
    ghost use Rattle.std.specs.Prelude.{◌≤◌, drop, take, vec_len};
    ghost use Rattle.mk_edit.specs.inner.Gaps.{Gapped};

    ghost Value = { Gapped };

    ghost view = { λ t. record { front = take t.front t.items.items; rest = drop t.rest t.items.items } };

    ghost invariant = { λ t. (t.front ≤ t.rest) × (t.rest ≤ vec_len t.items) };
}

impl GapText {
    /// A text of these bytes, all of them after the gap.
    pub(crate) fn new(items: Vec<u8>) -> GapText
        ensures front { result.front ≡ [] }
        ensures rest { result.rest ≡ items.items }
    {
        GapText {
            items,
            front: 0,
            rest: 0,
        }
    }

    /// How many bytes stand before the gap.
    pub(crate) fn front_len(&self) -> usize
        ensures front { result ≡ length self.now.front }
        ensures fits { length (without_gap self.now) < 2 ^ 64 }
    {
        self.front
    }

    /// The bytes before it.
    pub(crate) fn front(&self) -> &[u8]
        ensures { result.now ≡ self.now.front }
    {
        &self.items[..self.front]
    }

    /// The bytes after it.
    pub(crate) fn rest(&self) -> &[u8]
        ensures { result.now ≡ self.now.rest }
    {
        &self.items[self.rest..]
    }

    /// Moves the gap back to a place, unless it is there or before it.
    pub(crate) fn put_back(&mut self, place: usize)
        ensures same { without_gap self.new ≡ without_gap self.old }
        ensures front { length self.new.front ≡ min (length self.old.front) place }
    {
        if place < self.front {
            let count = self.front - place;
            let to = self.rest - count;
            copy(&mut self.items, place, count, to);
            self.front = place;
            self.rest = to;
        }
    }

    /// Puts `text` in the place of `count` bytes at `place`, which isn't before the gap. The gap moves there, but where fewer
    /// bytes come after the change than stand between the gap and it: then those are moved. Out of memory, nothing changes.
    pub(crate) fn replace(
        &mut self,
        place: usize,
        count: usize,
        text: &[u8],
    ) -> Result<(), AllocError>
        requires after { length self.old.front ≤ place }
        requires within { place + count ≤ length (without_gap self.old) }
        ensures ok { OnOk result (without_gap self.new ≡ spliced place count text.now (without_gap self.old)) }
        ensures fits { OnOk result (length (without_gap self.new) < 2 ^ 64) }
        ensures front { OnOk result ((length self.new.front ≡ place) ⊎ (length self.new.front ≡ length self.old.front)) }
        ensures err { OnErr result (self.new ≡ self.old) }
    {
        let from = place - self.front;
        if self.items.len() - self.rest - from - count < from {
            return replace(&mut self.items, self.rest + from, count, text);
        }
        let room = text.len().saturating_sub(count);
        let rest = make_room(&mut self.items, self.front, self.rest, room)?;
        let to = rest + from + count - text.len();
        move_and_write(&mut self.items, self.front, rest, from, to, text);
        self.front = place;
        self.rest = to;
        Ok(())
    }

    /// The bytes of the text.
    pub(crate) fn into_bytes(self) -> Vec<u8>
        ensures { result.items ≡ without_gap self }
    {
        let GapText {
            mut items,
            front,
            rest,
        } = self;
        close(&mut items, front, rest);
        items
    }
}

// Widens the gap between `front` and `rest` to at least `size` bytes, and answers where it ends. Out of memory, nothing
// changes.
fn make_room(
    items: &mut Vec<u8>,
    front: usize,
    rest: usize,
    size: usize,
) -> Result<usize, AllocError>
    requires order { front ≤ rest }
    requires within { rest ≤ vec_len items.old }
    ensures room { IfOk result (λ to. front + size ≤ to) }
    ensures len { IfOk result (λ to. to + vec_len items.old ≡ rest + vec_len items.new) }
    ensures rest { IfOk result (λ to. drop to items.new.items ≡ drop rest items.old.items) }
    ensures front { take front items.new.items ≡ take front items.old.items }
    ensures err { OnErr result (items.new.items ≡ items.old.items) }
    ensures same { OnErr result (vec_len items.new ≡ vec_len items.old) }
{
    if size <= rest - front {
        return Ok(rest);
    }
    let len = items.len();
    let more = (size - (rest - front)).saturating_add(len / 16);
    items.reserve(more)?;
    items.resize(len + more, 0)?;
    items.copy_within(rest..len, rest + more);
    Ok(rest + more)
}

// Moves `count` bytes at `rest` to `front`, and writes `text` at `to`, which is after them.
fn move_and_write(
    items: &mut Vec<u8>,
    front: usize,
    rest: usize,
    count: usize,
    to: usize,
    text: &[u8],
)
    requires order { front ≤ rest }
    requires after { front + count ≤ to }
    requires moved { rest + count ≤ to + length text.now }
    requires within { to + length text.now ≤ vec_len items.old }
    ensures front { take (front + count) items.new.items ≡ take front items.old.items ++ take count (drop rest items.old.items) }
    ensures rest { drop to items.new.items ≡ text.now ++ drop (to + length text.now) items.old.items }
    ensures len { vec_len items.new ≡ vec_len items.old }
{
    copy(items, rest, count, front);
    replace_within(items, to, text.len(), text);
}

// Copies `count` bytes from one place to another, unless they are there.
fn copy(items: &mut Vec<u8>, from: usize, count: usize, to: usize)
    requires from { from + count ≤ vec_len items.old }
    requires to { to + count ≤ vec_len items.old }
    ensures items { items.new.items ≡ copy_within items.old.items from (from + count) to }
    ensures len { vec_len items.new ≡ vec_len items.old }
{
    if from != to {
        items.copy_within(from..from + count, to);
    }
}

// Takes the bytes between two places out, and gives back memory that the others don't need.
fn close(items: &mut Vec<u8>, front: usize, rest: usize)
    requires order { front ≤ rest }
    requires within { rest ≤ vec_len items.old }
    ensures { items.new.items ≡ take front items.old.items ++ drop rest items.old.items }
{
    let size = items.len();
    copy(items, rest, size - rest, front);
    items.truncate(size - (rest - front));
    if items.len().saturating_add(LARGE) < items.capacity() / 2 {
        items.shrink_to_fit();
    }
}
