//! Boundaries that may be made, and the field that says one (RFC 2046, 5.1.1).
ghost use Rattle.std.specs.Prelude.{◌≡◌, ◌++◌, OnOk, OnErr};
ghost use Rattle.std.specs.List.{list_all};
ghost use Rattle.mk_line.specs.Lines.{printed_line};
ghost use Rattle.mk_line.specs.inner.Kept.{IsKept};
ghost use Rattle.mk_head.specs.Boundaries.{is_boundary as boundary, is_boundary_byte as boundary_byte, ends_in_space as spaced};
ghost use Rattle.mk_head.specs.Types.{type_line};

use mk_line::Ending;
use std::alloc::AllocError;

const SPACE: u8 = b' ';

const LONGEST: usize = 70;

const OTHERS: &[u8; 13] = b"'()+_,-./:=? ";

/// Whether the text is 1 to 70 of the digits, the letters, `' ( ) + _ , - . / : = ?` and space, the last not a space.
pub fn is_boundary(text: &[u8]) -> bool
    ensures { result ≡ boundary text.now }
{
    !text.is_empty() && text.len() <= LONGEST && are_boundary_bytes(text) && !ends_in_space(text)
}

/// Appends the Content-Type field of a multipart of a subtype and a boundary, as they are given. After an error the text is
/// as before.
pub fn push_multipart_type(
    text: &mut Vec<u8>,
    subtype: &[u8],
    boundary: &[u8],
    eol: Ending,
) -> Result<(), AllocError>
    ensures appended { OnOk result (text.new.items ≡ text.old.items ++ printed_line (type_line eol subtype.now boundary.now)) }
    ensures unchanged { OnErr result (text.new.items ≡ text.old.items) }
{
    let size = text.len();
    let pushed = push_type_line(text, subtype, boundary, eol);
    if pushed.is_err() {
        text.truncate(size);
    }
    pushed
}

// The same; after an error some of it may follow the text.
fn push_type_line(
    text: &mut Vec<u8>,
    subtype: &[u8],
    boundary: &[u8],
    eol: Ending,
) -> Result<(), AllocError>
    ensures appended { OnOk result (text.new.items ≡ text.old.items ++ printed_line (type_line eol subtype.now boundary.now)) }
    ensures kept { IsKept text.old.items text.new.items }
{
    text.extend_from_slice(b"Content-Type: multipart/")?;
    text.extend_from_slice(subtype)?;
    text.extend_from_slice(b"; boundary=\"")?;
    text.extend_from_slice(boundary)?;
    text.extend_from_slice(b"\"")?;
    text.extend_from_slice(eol.bytes())?;
    Ok(())
}

fn are_boundary_bytes(text: &[u8]) -> bool
    ensures { result ≡ list_all boundary_byte text.now }
{
    text.iter().all(|byte| is_boundary_byte(*byte))
}

fn is_boundary_byte(byte: u8) -> bool
    ensures { result ≡ boundary_byte byte }
{
    byte >= b'0' && byte <= b'9'
        || byte >= b'A' && byte <= b'Z'
        || byte >= b'a' && byte <= b'z'
        || OTHERS.contains(&byte)
}

fn ends_in_space(text: &[u8]) -> bool
    ensures { result ≡ spaced text.now }
{
    match text {
        [.., last] => *last == SPACE,
        [] => false,
    }
}
