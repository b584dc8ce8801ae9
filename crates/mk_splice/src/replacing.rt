//! Replacing bytes of a text in place.
ghost use Rattle.std.specs.Prelude.{◌≡◌, ◌+◌, ◌≤◌, OnOk, OnErr, IsOk, length, vec_len, vec_capacity};
ghost use Rattle.mk_splice.specs.Splices.{spliced};

use std::alloc::AllocError;

/// Puts `text` in the place of `count` bytes at `place`. If memory runs out, nothing changes.
pub fn replace(
    items: &mut Vec<u8>,
    place: usize,
    count: usize,
    text: &[u8],
) -> Result<(), AllocError>
    requires { place + count ≤ vec_len items.old }
    ensures ok { OnOk result (items.new.items ≡ spliced place count text.now items.old.items) }
    ensures err { OnErr result (items.new.items ≡ items.old.items) }
    ensures succeeds { vec_len items.old + length text.now ≤ vec_capacity items.old + count → IsOk result }
    ensures capacity { vec_capacity items.old ≤ vec_capacity items.new }
{
    let size = items.len();
    if count < text.len() {
        items.extend_from_slice(&text[count..])?;
        items.copy_within(place + count..size, place + text.len());
    } else if text.len() < count {
        items.copy_within(place + count..size, place + text.len());
        items.truncate(size - (count - text.len()));
    }
    overwrite(items, place, text);
    Ok(())
}

/// The same where there is room.
pub fn replace_within(items: &mut Vec<u8>, place: usize, count: usize, text: &[u8])
    requires inside { place + count ≤ vec_len items.old }
    requires room { vec_len items.old + length text.now ≤ vec_capacity items.old + count }
    ensures items { items.new.items ≡ spliced place count text.now items.old.items }
    ensures capacity { vec_capacity items.old ≤ vec_capacity items.new }
{
    let _room = replace(items, place, count, text);
}

// Writes `text` over as many bytes at `place`.
pub(crate) fn overwrite(items: &mut Vec<u8>, place: usize, text: &[u8])
    requires { place + length text.now ≤ vec_len items.old }
    ensures items { items.new.items ≡ spliced place (length text.now) text.now items.old.items }
    ensures capacity { vec_capacity items.new ≡ vec_capacity items.old }
{
    items[place..place + text.len()].copy_from_slice(text);
}
