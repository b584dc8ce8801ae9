//! A content that is decoded in memory that is there takes its room, and keeps no more than twice what it wants. After an
//! error the memory is there still.

use mk_code::{CodeError, Encoding, decode_in};
use std::test::Fail;

/// The bytes of memory that held something longer.
const LONG: usize = 400_000;

/// The most bytes of room that a short content keeps.
const MOST: usize = 100;

/// The bytes of memory that is there, at most twice what each of the texts wants.
const ROOM: usize = 16;

/// Texts in each encoding that can be decoded, and their contents.
const SHORT: [(Encoding, &[u8], &[u8]); 3] = [
    (Encoding::Identity, b"hi there", b"hi there"),
    (Encoding::Qp, b"hi=20there=", b"hi there"),
    (Encoding::Base64, b"aGkgdGhlcmU=", b"hi there"),
];

#[test]
fn a_short_content_gives_room_back(rt: HostRuntime) -> Result<(), Fail> {
    for (encoding, text, wanted) in SHORT {
        let mut memory = Vec::new(rt.alloc());
        memory.resize(LONG, b'x')?;
        decode_in(&mut memory, encoding, text)?;
        assert_eq!(rt; memory.as_slice(), wanted);
        let room = memory.capacity();
        assert!(rt; room <= MOST, "{room} bytes of room");
    }
    Ok(())
}

#[test]
fn a_content_takes_the_room_that_is_there(rt: HostRuntime) -> Result<(), Fail> {
    for (encoding, text, wanted) in SHORT {
        let mut memory = Vec::with_capacity(rt.alloc(), ROOM)?;
        memory.extend_from_slice(b"earlier bytes")?;
        let before = memory.capacity();
        decode_in(&mut memory, encoding, text)?;
        assert_eq!(rt; memory.as_slice(), wanted);
        assert_eq!(rt; memory.capacity(), before);
    }
    Ok(())
}

/// Texts that can't be decoded: unused bits of the last letter aren't zero, and no encoding is known.
const REFUSED: [(Encoding, &[u8], CodeError); 2] = [
    (Encoding::Base64, b"aGkgdGhlcl==", CodeError::BadBase64),
    (Encoding::Other, b"hi there", CodeError::UnknownEncoding),
];

#[test]
fn the_room_stays_after_an_error(rt: HostRuntime) -> Result<(), Fail> {
    for (encoding, text, wanted) in REFUSED {
        let mut memory = Vec::with_capacity(rt.alloc(), ROOM)?;
        memory.extend_from_slice(b"earlier bytes")?;
        let before = memory.capacity();
        assert!(rt; decode_in(&mut memory, encoding, text) == Err(wanted));
        assert_eq!(rt; memory.capacity(), before);
        decode_in(&mut memory, Encoding::Identity, b"hi there")?;
        assert_eq!(rt; memory.as_slice(), b"hi there".as_slice());
        assert_eq!(rt; memory.capacity(), before);
    }
    Ok(())
}
