//! A content that is decoded piece by piece is the content, and no piece is long.
use super::calls::{Call, encoding_in, given, same};
use super::decoding::{BAD_BASE64, BASE64, IDENTITY, QP, UNKNOWN};
use mk_code::{CodeError, Encoding, Piece, b64_encode, qp_encode};
use mk_line::Ending;
use mk_rows::rows;
use std::alloc::{AllocError, Global};
use std::test::Fail;

/// The most bytes of a piece, with a last line of quoted-printable.
const MOST: usize = 65_612;

/// The bytes of a long content, more than three pieces of it.
const LONG: usize = 200_003;

/// More stray bytes than letters that are decoded at once.
const STRAYS: usize = 40_000;

/// How many letters are decoded at once.
const BLOCK: usize = 16_384;

#[test]
fn pieces_are_the_content(rt: HostRuntime) -> Result<(), Fail> {
    let alloc = rt.alloc();
    for table in [IDENTITY, QP, BASE64, BAD_BASE64, UNKNOWN] {
        for row in &rows(alloc, table)? {
            let wanted = given(alloc, Call::Decode, row)?;
            let found = match joined(alloc, encoding_in(row), row.bytes("text"))? {
                Ok(content) => content,
                Err(error) => format!(in alloc; "refused: {error:?}")?.into_bytes(),
            };
            same(&rt, &found, &wanted, row.shows);
        }
    }
    Ok(())
}

#[test]
fn a_long_content_comes_in_pieces(rt: HostRuntime) -> Result<(), Fail> {
    let alloc = rt.alloc();
    let content = long(alloc)?;
    let qp = qp_encode(alloc, &content, Ending::Crlf)?;
    let base64 = b64_encode(alloc, &content, Ending::Crlf)?;
    for (encoding, text) in [
        (Encoding::Identity, &content),
        (Encoding::Qp, &qp),
        (Encoding::Base64, &base64),
    ] {
        assert!(rt; count(alloc, encoding, text)? > 3);
        assert!(rt; joined(alloc, encoding, text)? == Ok(Vec::from_slice(alloc, &content)?));
    }
    Ok(())
}

#[test]
fn stray_bytes_part_no_letters(rt: HostRuntime) -> Result<(), Fail> {
    let alloc = rt.alloc();
    let mut text = Vec::new(alloc);
    for letters in [b"aG".as_slice(), b"kg", b"d", b"Ghlcm", b"U"] {
        text.extend_from_slice(letters)?;
        text.resize(text.len() + STRAYS, b'-')?;
    }
    assert!(rt;
        joined(alloc, Encoding::Base64, &text)? == Ok(Vec::from_slice(alloc, b"hi there")?)
    );
    Ok(())
}

#[test]
fn the_first_sign_ends_the_letters_of_any_block(rt: HostRuntime) -> Result<(), Fail> {
    let alloc = rt.alloc();
    for letters in [0, 4, BLOCK - 4, BLOCK, BLOCK + 4, 2 * BLOCK] {
        let mut text = Vec::new(alloc);
        text.resize(letters, b'A')?;
        text.extend_from_slice(b"\r\n -=AAAA")?;
        let mut wanted = Vec::new(alloc);
        wanted.resize(letters / 4 * 3, 0)?;
        assert!(rt; joined(alloc, Encoding::Base64, &text)? == Ok(wanted));
    }
    Ok(())
}

#[test]
fn bad_letters_of_a_later_block_are_refused(rt: HostRuntime) -> Result<(), Fail> {
    let alloc = rt.alloc();
    for letters in [BLOCK + 1, 2 * BLOCK + 5] {
        let mut text = Vec::new(alloc);
        text.resize(letters, b'A')?;
        assert!(rt; joined(alloc, Encoding::Base64, &text)? == Err(CodeError::BadBase64));
    }
    Ok(())
}

// Bytes of many kinds in lines of many lengths.
fn long(alloc: Global) -> Result<Vec<u8>, AllocError> {
    let mut content = Vec::with_capacity(alloc, LONG)?;
    let mut number: usize = 1;
    for _byte in 0..LONG {
        number = number.wrapping_mul(75).wrapping_add(74) % 65_537;
        content.push((number % 251) as u8)?;
    }
    Ok(content)
}

// All the pieces of a content.
fn joined(
    alloc: Global,
    encoding: Encoding,
    text: &[u8],
) -> Result<Result<Vec<u8>, CodeError>, AllocError> {
    let mut content = Vec::new(alloc);
    let mut piece = Piece::new(alloc);
    let mut rest = text;
    for _piece in 0..=text.len() {
        rest = match piece.decode(encoding, rest) {
            Ok(left) => left,
            Err(error) => return Ok(Err(error)),
        };
        content.extend_from_slice(piece.bytes())?;
        if rest.is_empty() {
            break;
        }
    }
    Ok(Ok(content))
}

// How many pieces a content has, if none is too long.
fn count(alloc: Global, encoding: Encoding, text: &[u8]) -> Result<usize, CodeError> {
    let mut piece = Piece::new(alloc);
    let mut rest = text;
    for count in 0..text.len() {
        if rest.is_empty() {
            return Ok(count);
        }
        rest = piece.decode(encoding, rest)?;
        if piece.bytes().len() > MOST {
            return Ok(0);
        }
    }
    Ok(text.len())
}
