//! The size of a content is that of what is decoded, and comes where it can be decoded. Expected sizes are worked out by hand.
use super::calls::{Call, encoding_in, given, same};
use super::decoding::{BAD_BASE64, BASE64, IDENTITY, QP, UNKNOWN};
use mk_code::decoded_size;
use mk_rows::{Row, rows};
use std::alloc::Global;
use std::test::Fail;

/// Texts of more than the bytes that are counted at once, and the sizes of their contents.
const SIZES: &str = r"
== eighty-four letters, more than a block
encoding: base64
text: AAcOFRwjKjE4P0ZNVFtiaXB3foWMk5qhqK+2vcTL0tng5+71/AMKERgfJi00O0JJUFdeZWxzeoGIj5adpKuy
size: 63

== a block of letters, and two more
encoding: base64
text: AAcOFRwjKjE4P0ZNVFtiaXB3foWMk5qhqK+2vcTL0tng5+71/AMKERgfJi00O0JJQQ==
size: 49

== a block of letters, and three more
encoding: base64
text: AAcOFRwjKjE4P0ZNVFtiaXB3foWMk5qhqK+2vcTL0tng5+71/AMKERgfJi00O0JJQUI=
size: 50

== a block of letters, and one over
encoding: base64
text: AAcOFRwjKjE4P0ZNVFtiaXB3foWMk5qhqK+2vcTL0tng5+71/AMKERgfJi00O0JJQ
size: refused: BadBase64

== a block of letters, and unused bits of two
encoding: base64
text: AAcOFRwjKjE4P0ZNVFtiaXB3foWMk5qhqK+2vcTL0tng5+71/AMKERgfJi00O0JJQR==
size: refused: BadBase64

== a block of letters, and unused bits of three
encoding: base64
text: AAcOFRwjKjE4P0ZNVFtiaXB3foWMk5qhqK+2vcTL0tng5+71/AMKERgfJi00O0JJQUJ=
size: refused: BadBase64

== lines of letters, and stray bytes in a block
encoding: base64
text: QUJD\r\n\x00\xff\x40\x5b\x60\x7b\x2e\x3a\x2a\x2c-_ QUJD\r\n\t!#$%&()<>?@[]^{|}~QUJD\nAAcOFRwjKjE4P0ZNVFtiaXB3foWMk5qhqK+2vcTL
size: 39

== stray bytes alone, more than a block
encoding: base64
text: ----------------------------------------------------------------------
size: 0

== the last letter before stray bytes counts
encoding: base64
text: QQ----------------------------------------------------------------------
size: 1

== letters after the sign don't count
encoding: base64
text: AAcOFRwjKjE4P0ZNVFtiaXB3foWMk5qhqK+2vcTL0tng5+71/AMKERgfJi00O0JJQQ=QAAcOFRwjKjE4P0ZNVFtiaXB3foWMk5qhqK+2vcTL0tng5+71/AMKERgfJi00O0JJ
size: 49

== soft breaks, escapes and lines without any
encoding: quoted-printable
text: a=20b=\nplain \t\n==3D=\r\nend
size: 14
";

#[test]
fn a_content_has_the_size_that_is_told(rt: HostRuntime) -> Result<(), Fail> {
    let alloc = rt.alloc();
    for row in &rows(alloc, SIZES)? {
        same(&rt, &size(alloc, row)?, row.bytes("size"), row.shows);
    }
    Ok(())
}

#[test]
fn a_size_is_told_where_a_content_is_decoded(rt: HostRuntime) -> Result<(), Fail> {
    let alloc = rt.alloc();
    for table in [IDENTITY, QP, BASE64, BAD_BASE64, UNKNOWN] {
        for row in &rows(alloc, table)? {
            let content = given(alloc, Call::Decode, row)?;
            let told = size(alloc, row)?;
            if content.starts_with(b"refused: ") {
                same(&rt, &told, &content, row.shows);
            } else {
                let size = format!(in alloc; "{}", content.len())?;
                same(&rt, &told, size.as_bytes(), row.shows);
            }
        }
    }
    Ok(())
}

// The size of the content, or the word for the error after a remark.
fn size(alloc: Global, row: &Row) -> Result<Vec<u8>, Fail> {
    let text = match decoded_size(encoding_in(row), row.bytes("text")) {
        Ok(size) => format!(in alloc; "{size}")?,
        Err(error) => format!(in alloc; "refused: {error:?}")?,
    };
    Ok(text.into_bytes())
}
