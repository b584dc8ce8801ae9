//! Bytes that are written as escapes.
use std::alloc::{AllocError, Global};

// What stands before the byte that is read.
#[derive(Clone, Copy, Drop)]
enum Before {
    Text,
    Backslash,
    Hex,
    HexDigit(u8),
}

/// The bytes that a text with escapes stands for.
pub fn unescaped(alloc: Global, text: &str) -> Result<Vec<u8>, AllocError> {
    let mut found = Vec::with_capacity(alloc, text.len())?;
    let mut before = Before::Text;
    for byte in text.as_bytes() {
        before = match (before, *byte) {
            (Before::Text, b'\\') => Before::Backslash,
            (Before::Backslash, b'x') => Before::Hex,
            (Before::Hex, digit) => Before::HexDigit(digit),
            (Before::HexDigit(first), second) => {
                found.push((hex_value(first) << 4) | hex_value(second))?;
                Before::Text
            }
            (Before::Backslash, letter) => {
                found.push(escaped(letter))?;
                Before::Text
            }
            (Before::Text, other) => {
                found.push(other)?;
                Before::Text
            }
        };
    }
    Ok(found)
}

fn escaped(letter: u8) -> u8 {
    match letter {
        b'n' => b'\n',
        b'r' => b'\r',
        b't' => b'\t',
        other => other,
    }
}

// 0 to 15; 0 where the letter is no digit.
fn hex_value(letter: u8) -> u8 {
    match letter {
        b'0'..=b'9' => letter - b'0',
        b'a'..=b'f' => letter - b'a' + 10,
        _ => 0,
    }
}
