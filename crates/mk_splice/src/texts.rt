//! A text with room before and after it: a replacement moves the bytes before its place or those after it, whichever are
//! fewer.
ghost use Rattle.std.specs.Prelude.{◌≡◌, ◌+◌, ◌-◌, ◌*◌, ◌<◌, ◌≤◌, ◌^◌, ◌⊎◌, IsOk, IsTrue, OnOk, OnErr, length, drop, max, vec_len, vec_capacity};
ghost use Rattle.mk_splice.specs.Splices.{spliced};

use crate::replacing::{overwrite, replace_within};
use std::alloc::{AllocError, Global};
use std::fmt;
use std::marker::Model;

// A text of this many bytes or more gets room before it, and a text gives room back only where so much is left over.
const LARGE: usize = 65_536;

// The room before a large text is this part of it.
const PART: usize = 16;

/// A text with room before and after it.
#[derive(Drop)]
pub struct Text {
    pub(crate) items: Vec<u8>,
    pub(crate) start: usize,
}

impl Model for Text {
    ghost use Rattle.std.specs.Prelude.{◌≤◌, drop, vec_len, vec_capacity};
    ghost use Rattle.mk_splice.specs.Roomy.{Roomy};

    ghost Value = { Roomy };

    ghost view = { λ t. record { bytes = drop t.start t.items.items; capacity = vec_capacity t.items } };

    ghost invariant = { λ t. t.start ≤ vec_len t.items };
}

impl fmt::Debug for Text {
    /// Writes the bytes of the text, and nothing of its room.
    fn fmt<W: fmt::Write>(&self, f: &mut fmt::Formatter<W>) -> fmt::Result {
        self.bytes().fmt(f)
    }
}

impl Text {
    /// A text of these bytes, with the room that is after them.
    pub fn new(items: Vec<u8>) -> Text
        ensures bytes { result.bytes ≡ items.items }
        ensures capacity { result.capacity ≡ vec_capacity items }
    {
        Text { items, start: 0 }
    }

    /// The bytes of the text.
    pub fn bytes(&self) -> &[u8]
        ensures { result.now ≡ self.now.bytes }
    {
        &self.items[self.start..]
    }

    /// The bytes of the text, with no room before them.
    pub fn into_bytes(self) -> Vec<u8>
        ensures bytes { result.items ≡ self.bytes }
        ensures capacity { vec_capacity result ≡ self.capacity }
    {
        let Text { mut items, start } = self;
        move_to_front(&mut items, start);
        items
    }

    // How many bytes it has.
    pub(crate) fn len(&self) -> usize
        ensures len { result ≡ length self.now.bytes }
        ensures within { result ≤ self.now.capacity }
    {
        self.items.len() - self.start
    }

    // How many bytes the text can have without an allocation.
    pub(crate) fn capacity(&self) -> usize
        ensures { result ≡ self.now.capacity }
    {
        self.items.capacity()
    }

    /// The allocator of the text.
    pub fn allocator(&self) -> Global {
        *self.items.allocator()
    }

    /// Makes room to put `size` bytes in the place of `count` bytes at `place`, and to do so again and again. Out of memory,
    /// nothing changes. Room is given back where the text takes less than half of it then, by more than 64 KB.
    pub fn reserve(&mut self, place: usize, count: usize, size: usize) -> Result<(), AllocError>
        requires { place + count ≤ length self.old.bytes }
        ensures same { self.new.bytes ≡ self.old.bytes }
        ensures room { OnOk result (length self.old.bytes + size ≤ self.new.capacity + count) }
        ensures fits { OnOk result (length self.old.bytes + (size - count) < 2 ^ 64) }
        ensures succeeds { length self.old.bytes + (size - count) ≤ self.old.capacity → IsOk result }
        ensures most { self.new.capacity ≤ max self.old.capacity (2 * (length self.old.bytes + (size - count))) }
        ensures given_back { (self.old.capacity ≤ self.new.capacity) ⊎ (2 * (length self.old.bytes + (size - count) + 65_536) < self.old.capacity) }
        ensures err { OnErr result (self.new ≡ self.old) }
    {
        let more = size.saturating_sub(count);
        let len = self.items.len() - self.start;
        self.fit(len.saturating_add(more));
        make_room(&mut self.items, &mut self.start, more)?;
        if self.start < more && pays_before(len, place, count, more) {
            // Without memory for this, the bytes after the place are moved.
            let _is_made = self.items.reserve_exact(len / PART + more);
        }
        Ok(())
    }

    /// Makes room for a text of `size` bytes, and asks for no more than that. Out of memory, nothing changes. Room is given
    /// back as by `reserve`.
    pub fn reserve_whole(&mut self, size: usize) -> Result<(), AllocError>
        requires { length self.old.bytes ≤ size }
        ensures same { self.new.bytes ≡ self.old.bytes }
        ensures room { OnOk result (size ≤ self.new.capacity) }
        ensures small { OnOk result (size < 2 ^ 63) }
        ensures succeeds { size ≤ self.old.capacity → IsOk result }
        ensures most { self.new.capacity ≤ max self.old.capacity size }
        ensures given_back { (self.old.capacity ≤ self.new.capacity) ⊎ (2 * (size + 65_536) < self.old.capacity) }
        ensures err { OnErr result (self.new ≡ self.old) }
    {
        self.fit(size);
        if size <= self.items.capacity() {
            return Ok(());
        }
        move_to_front(&mut self.items, self.start);
        self.start = 0;
        self.items.reserve_exact(size - self.items.len())
    }

    // Gives back room that a text of `size` bytes doesn't need, where it is much.
    fn fit(&mut self, size: usize)
        requires { length self.old.bytes ≤ size }
        ensures same { self.new.bytes ≡ self.old.bytes }
        ensures less { self.new.capacity ≤ self.old.capacity }
        ensures kept { (self.new ≡ self.old) ⊎ ((size ≤ self.new.capacity) × (2 * (size + 65_536) < self.old.capacity)) }
    {
        if size.saturating_add(LARGE) < self.items.capacity() / 2 {
            move_to_front(&mut self.items, self.start);
            self.start = 0;
            self.items.shrink_to(size);
        }
    }

    /// Puts `text` in the place of `count` bytes at `place`, where there is room.
    pub fn replace_within(&mut self, place: usize, count: usize, text: &[u8])
        requires inside { place + count ≤ length self.old.bytes }
        requires room { length self.old.bytes + length text.now ≤ self.old.capacity + count }
        ensures bytes { self.new.bytes ≡ spliced place count text.now self.old.bytes }
        ensures capacity { self.old.capacity ≤ self.new.capacity }
    {
        let len = self.items.len() - self.start;
        let more = text.len().saturating_sub(count);
        if self.start < more && pays_before(len, place, count, more) {
            self.start = shift(&mut self.items, self.start, len / PART);
        }
        let spare = self.items.capacity() - self.items.len();
        let is_front = text.len() != count && place < len - place - count;
        if more <= self.start && (is_front || spare < more) {
            self.start = replace_before(&mut self.items, self.start, place, count, text);
            return;
        }
        if spare < more {
            move_to_front(&mut self.items, self.start);
            self.start = 0;
        }
        replace_after(&mut self.items, self.start, place, count, text);
    }

    /// Puts `text` in the place of `count` bytes at `place`. Out of memory, nothing changes.
    pub fn replace(&mut self, place: usize, count: usize, text: &[u8]) -> Result<(), AllocError>
        requires { place + count ≤ length self.old.bytes }
        ensures ok { OnOk result (self.new.bytes ≡ spliced place count text.now self.old.bytes) }
        ensures succeeds { length self.old.bytes + (length text.now - count) ≤ self.old.capacity → IsOk result }
        ensures err { OnErr result (self.new ≡ self.old) }
    {
        self.reserve(place, count, text.len())?;
        self.replace_within(place, count, text);
        Ok(())
    }
}

// Whether room before a text of `len` bytes pays for replacements that put in `more` bytes more than the `count` that go at
// `place`. As many as find room in it move `place` bytes each, and the text once to make it; else the bytes after `place`.
fn pays_before(len: usize, place: usize, count: usize, more: usize) -> bool
    requires { place + count ≤ len }
    ensures { IsTrue result → (16 * more ≤ len) × (65_536 ≤ len) }
{
    let after = len - place - count;
    LARGE <= len && more <= after / PART && place <= after - PART * more
}

// Makes room for `more` bytes after the text that begins at `start`.
fn make_room(items: &mut Vec<u8>, start: &mut usize, more: usize) -> Result<(), AllocError>
    requires { start.old ≤ vec_len items.old }
    ensures start { start.new ≤ vec_len items.new }
    ensures same { drop start.new items.new.items ≡ drop start.old items.old.items }
    ensures room { OnOk result (vec_len items.new + more ≤ vec_capacity items.new) }
    ensures kept { vec_capacity items.old ≤ vec_capacity items.new }
    ensures succeeds { vec_len items.old - start.old + more ≤ vec_capacity items.old → IsOk result }
    ensures most { vec_capacity items.new ≤ max (vec_capacity items.old) (2 * (vec_len items.old - start.old + more)) }
    ensures err { OnErr result (vec_capacity items.new ≡ vec_capacity items.old) }
{
    if more <= items.capacity() - items.len() {
        return Ok(());
    }
    let len = items.len() - *start;
    // Much room before the text is used first.
    if *start <= len / 8 && items.reserve_exact(more.max(len - *start)).is_ok() {
        return Ok(());
    }
    move_to_front(items, *start);
    *start = 0;
    if items.reserve_exact(more.max(len)).is_ok() {
        return Ok(());
    }
    items.reserve_exact(more)
}

// Moves the text that begins at `start` to the front.
pub(crate) fn move_to_front(items: &mut Vec<u8>, start: usize)
    requires { start ≤ vec_len items.old }
    ensures bytes { items.new.items ≡ drop start items.old.items }
    ensures len { vec_len items.new + start ≡ vec_len items.old }
    ensures capacity { vec_capacity items.new ≡ vec_capacity items.old }
{
    if start != 0 {
        let size = items.len();
        items.copy_within(start..size, 0);
        items.truncate(size - start);
    }
}

// Moves the text that begins at `start` by `room` bytes, where there is so much room after it, and answers where it begins then.
fn shift(items: &mut Vec<u8>, start: usize, room: usize) -> usize
    requires start { start ≤ vec_len items.old }
    ensures start { result ≤ vec_len items.new }
    ensures bytes { drop result items.new.items ≡ drop start items.old.items }
    ensures capacity { vec_capacity items.old ≤ vec_capacity items.new }
{
    let size = items.len();
    if items.capacity() - size < room {
        return start;
    }
    if items.resize(size + room, 0).is_err() {
        return start;
    }
    items.copy_within(start..size, start + room);
    start + room
}

// Puts `text` in the place of `count` bytes at `place` of the text that begins at `start`, moves the bytes before them, and
// answers where the text begins then.
fn replace_before(
    items: &mut Vec<u8>,
    start: usize,
    place: usize,
    count: usize,
    text: &[u8],
) -> usize
    requires inside { start + place + count ≤ vec_len items.old }
    requires room { length text.now ≤ start + count }
    ensures start { result + length text.now ≡ start + count }
    ensures bytes { drop result items.new.items ≡ spliced place count text.now (drop start items.old.items) }
    ensures len { vec_len items.new ≡ vec_len items.old }
    ensures capacity { vec_capacity items.new ≡ vec_capacity items.old }
{
    let to = start + count - text.len();
    items.copy_within(start..start + place, to);
    overwrite(items, to + place, text);
    to
}

// The same, but moves the bytes after them: the text begins where it began.
fn replace_after(items: &mut Vec<u8>, start: usize, place: usize, count: usize, text: &[u8])
    requires inside { start + place + count ≤ vec_len items.old }
    requires room { vec_len items.old + length text.now ≤ vec_capacity items.old + count }
    ensures bytes { drop start items.new.items ≡ spliced place count text.now (drop start items.old.items) }
    ensures len { vec_len items.new + count ≡ vec_len items.old + length text.now }
    ensures capacity { vec_capacity items.old ≤ vec_capacity items.new }
{
    replace_within(items, start + place, count, text);
}
