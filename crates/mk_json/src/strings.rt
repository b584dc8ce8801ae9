//! Strings and members of JSON objects (RFC 8259, 4 and 7).
ghost use Rattle.std.specs.Prelude.{◌≡◌, ◌∷◌, ◌++◌, [], OnOk};
ghost use Rattle.mk_line.specs.Ascii.{colon, quote};
ghost use Rattle.mk_json.specs.Strings.{json_string};

use serde_json::Value;
use std::alloc::{AllocError, Global};

/// Writes a member after others, where there is a value.
pub(crate) fn push_member(
    alloc: Global,
    text: &mut Vec<u8>,
    key: &str,
    value: Option<&[u8]>,
) -> Result<(), AllocError> {
    if let Some(value) = value {
        text.push(b',')?;
        push_key(text, key)?;
        push_string(alloc, text, value)?;
    }
    Ok(())
}

/// Writes a key that needs no escapes, and the colon after it.
pub(crate) fn push_key(text: &mut Vec<u8>, key: &str) -> Result<(), AllocError>
    ensures { OnOk result (text.new.items ≡ text.old.items ++ (quote ∷ key.now ++ (quote ∷ colon ∷ []))) }
{
    text.push(b'"')?;
    text.extend_from_slice(key.as_bytes())?;
    text.extend_from_slice(b"\":")?;
    Ok(())
}

/// Writes bytes as a string. Most have nothing that JSON escapes.
pub(crate) fn push_string(
    alloc: Global,
    text: &mut Vec<u8>,
    bytes: &[u8],
) -> Result<(), AllocError> {
    if bytes.iter().all(|byte| stands_for_itself(*byte)) {
        text.push(b'"')?;
        text.extend_from_slice(bytes)?;
        text.push(b'"')?;
        return Ok(());
    }
    push_any(alloc, text, bytes)
}

/// The same, whatever the bytes are.
pub(crate) fn push_any(alloc: Global, text: &mut Vec<u8>, bytes: &[u8]) -> Result<(), AllocError>
    ensures { OnOk result (text.new.items ≡ text.old.items ++ json_string bytes.now) }
{
    let string = Value::String(String::from_utf8_lossy(alloc, bytes)?);
    text.extend_from_slice(string.to_string(alloc)?.as_bytes())
}

// Whether a byte is written in a string as it is: printable ASCII, but for quotes and backslashes (RFC 8259, 7).
fn stands_for_itself(byte: u8) -> bool {
    byte >= b' ' && byte <= b'~' && byte != b'"' && byte != b'\\'
}
