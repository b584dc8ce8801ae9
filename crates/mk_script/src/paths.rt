//! The paths of sections, as scripts write them.

ghost use Rattle.std.specs.Prelude.{◌≡◌, ◌<◌, ◌==◌, [], ◌∷◌, length, option_copied, IfOk, IfSome};
ghost use Rattle.std.specs.List.{position, slice_split};
ghost use Rattle.std.specs.Option.{option_map, option_map_or};
ghost use Rattle.mk_script.specs.Paths.{parted as parted_at, number_of, path_of, read_each};
ghost use Rattle.mk_line.specs.Ascii.{full_stop};
ghost use Rattle.mk_script.specs.Targets.{count_of};

use std::alloc::{AllocError, Global};

const DOT: u8 = b'.';

const ZERO_DIGIT: u8 = b'0';

/// The most components of a path: no section lies deeper.
pub const MAX_COMPONENTS: usize = 101;

/// What stands before the first separator and what follows it, where there is one.
pub fn parted(text: &[u8], separator: u8) -> Option<(&[u8], &[u8])>
    ensures parts { option_map (λ p. (p.0.now, p.1.now)) result ≡ parted_at separator text.now }
    ensures less { IfSome result (λ p. length p.1.now < length text.now) }
{
    match place_of(text, separator) {
        Some(end) => Some((&text[..end], &text[end + 1..])),
        None => None,
    }
}

// Where the byte first stands.
fn place_of(text: &[u8], wanted: u8) -> Option<usize>
    ensures { result ≡ position (λ byte. byte == wanted) text.now }
{
    text.iter().position(|byte| *byte == wanted)
}

/// The path that a text writes, of no more than 101 components. `None` where it writes none.
pub fn path(alloc: Global, text: &[u8]) -> Result<Option<Vec<u32>>, AllocError>
    ensures { IfOk result (λ path. option_map (λ numbers. numbers.items) path ≡ path_of text.now) }
{
    match numbers(alloc, text)? {
        Some(numbers) => {
            if numbers.len() <= MAX_COMPONENTS {
                Ok(Some(numbers))
            } else {
                Ok(None)
            }
        }
        None => Ok(None),
    }
}

/// The numbers that a text writes: from 1, without leading zeros, joined by dots. `None` where it writes none.
pub fn numbers(alloc: Global, text: &[u8]) -> Result<Option<Vec<u32>>, AllocError>
    ensures { IfOk result (λ path. option_map (λ numbers. numbers.items) path ≡ read_each number_of (slice_split (λ byte. byte == full_stop) text.now)) }
{
    let mut numbers = Vec::new(alloc);
    let mut rest = text;
    'each: loop {
        let (piece, more) = first_piece(rest, DOT);
        let Some(number) = number(piece) else {
            return Ok(None);
        };
        numbers.push(number)?;
        let Some(following) = more else {
            return Ok(Some(numbers));
        };
        rest = following;
    }
}

/// The text before the first separator, and the text after it.
pub(crate) fn first_piece(text: &[u8], separator: u8) -> (&[u8], Option<&[u8]>)
    ensures pieces { slice_split (λ byte. byte == separator) text.now ≡ result.0.now ∷ option_map_or (slice_split (λ byte. byte == separator)) (option_copied result.1) [] }
    ensures less { IfSome result.1 (λ rest. length rest.now < length text.now) }
{
    match parted(text, separator) {
        Some((piece, following)) => (piece, Some(following)),
        None => (text, None),
    }
}

/// The number that a text writes: 0, or one from 1 on without leading zeros, where it fits 32 bits.
pub fn count(text: &[u8]) -> Option<u32>
    ensures { result ≡ count_of text.now }
{
    if text == b"0".as_slice() {
        return Some(0);
    }
    number(text)
}

/// The number that a text writes, from 1 on and without leading zeros, where it fits 32 bits.
pub fn number(text: &[u8]) -> Option<u32>
    ensures { result ≡ number_of text.now }
{
    if *text.first()? == ZERO_DIGIT {
        return None;
    }
    let mut number = 0u32;
    for byte in text {
        let digit = char::from(*byte).to_digit(10)?;
        number = number.checked_mul(10)?.checked_add(digit)?;
    }
    Some(number)
}
