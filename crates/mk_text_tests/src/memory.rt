//! Growths of memory that are refused: the call says so, changes nothing, and gives its answer when it is made again.
//! `checks/refuse` runs each test here with each growth refused in turn. Tests of the same calls beside these want the
//! answer at the first call.
use mk_code::{
    CodeError, Encoding, b64_encode, decode, decode_front, decode_in, push_b64, push_qp, qp_encode,
    text_decode, words_decode, words_encode,
};
use mk_head::{content_type, header, push_multipart_type, unfold, without_endings};
use mk_line::{Ending, push_close, push_delimiter};
use mk_param::{percent_decode, push_percent, text_of};

/// What a text holds before something is appended.
const BEFORE: &[u8] = b"ab";

#[test]
fn memory_header(rt: HostRuntime) {
    let text = b"A: b\n c\nD: e\n\nx";
    let found = match header(rt.alloc(), text) {
        Ok(found) => found,
        Err(_) => header(rt.alloc(), text).expect(&rt, "memory"),
    };
    assert_eq!(rt; found.fields(), 2);
    assert_eq!(rt; found.separator(), Some(13));
    assert_eq!(rt; found.body(), 14);
}

#[test]
fn memory_unfold(rt: HostRuntime) {
    let text = b"A: b\n c\n\td\n\n";
    let Ok(found) = header(rt.alloc(), text) else {
        return;
    };
    let field = found.field(1).expect(&rt, "a field");
    let value = match unfold(rt.alloc(), &field) {
        Ok(value) => value,
        Err(_) => unfold(rt.alloc(), &field).expect(&rt, "memory"),
    };
    assert_eq!(rt; value.as_slice(), b" b c\td".as_slice());
}

#[test]
fn memory_content_type(rt: HostRuntime) {
    let value = b" Text/(c)Plain; charset=\"utf-8\"; name=x";
    let media = match content_type(rt.alloc(), value) {
        Ok(media) => media,
        Err(_) => content_type(rt.alloc(), value).expect(&rt, "memory"),
    };
    assert_eq!(rt; media.main.as_slice(), b"text".as_slice());
    assert_eq!(rt; media.sub.as_slice(), b"plain".as_slice());
    let charset = media.param(b"charset").expect(&rt, "a charset");
    assert_eq!(rt; charset, b"utf-8".as_slice());
    let name = media.param(b"name").expect(&rt, "a name");
    assert_eq!(rt; name, b"x".as_slice());
}

#[test]
fn memory_push_delimiter(rt: HostRuntime) {
    let Ok(mut text) = Vec::from_slice(rt.alloc(), BEFORE) else {
        return;
    };
    let wanted = b"ab--a boundary\r\n";
    if push_delimiter(&mut text, b"a boundary", Ending::Crlf).is_err() {
        assert!(rt; text.starts_with(BEFORE) && wanted.starts_with(&text));
        text.truncate(BEFORE.len());
        push_delimiter(&mut text, b"a boundary", Ending::Crlf).expect(&rt, "memory");
    }
    assert_eq!(rt; text.as_slice(), wanted.as_slice());
}

#[test]
fn memory_push_close(rt: HostRuntime) {
    let Ok(mut text) = Vec::from_slice(rt.alloc(), BEFORE) else {
        return;
    };
    let wanted = b"ab--a boundary--\r\n";
    if push_close(&mut text, b"a boundary", Ending::Crlf).is_err() {
        assert!(rt; text.starts_with(BEFORE) && wanted.starts_with(&text));
        text.truncate(BEFORE.len());
        push_close(&mut text, b"a boundary", Ending::Crlf).expect(&rt, "memory");
    }
    assert_eq!(rt; text.as_slice(), wanted.as_slice());
}

#[test]
fn memory_push_multipart_type(rt: HostRuntime) {
    let Ok(mut text) = Vec::from_slice(rt.alloc(), BEFORE) else {
        return;
    };
    let wanted = b"abContent-Type: multipart/mixed; boundary=\"b\"\n";
    if push_multipart_type(&mut text, b"mixed", b"b", Ending::Lf).is_err() {
        assert!(rt; text.starts_with(BEFORE) && wanted.starts_with(&text));
        text.truncate(BEFORE.len());
        push_multipart_type(&mut text, b"mixed", b"b", Ending::Lf).expect(&rt, "memory");
    }
    assert_eq!(rt; text.as_slice(), wanted.as_slice());
}

#[test]
fn memory_without_endings(rt: HostRuntime) {
    let text = b"a\r\n b\n\nc\r";
    let joined = match without_endings(rt.alloc(), text) {
        Ok(joined) => joined,
        Err(_) => without_endings(rt.alloc(), text).expect(&rt, "memory"),
    };
    assert_eq!(rt; joined.as_slice(), b"a bc\r".as_slice());
}

#[test]
fn memory_qp_encode(rt: HostRuntime) {
    let code = match qp_encode(rt.alloc(), b"-- \n", Ending::Lf) {
        Ok(code) => code,
        Err(_) => qp_encode(rt.alloc(), b"-- \n", Ending::Lf).expect(&rt, "memory"),
    };
    assert_eq!(rt; code.as_slice(), b"=2D-=20\n".as_slice());
}

#[test]
fn memory_b64_encode(rt: HostRuntime) {
    let code = match b64_encode(rt.alloc(), b"hi", Ending::Lf) {
        Ok(code) => code,
        Err(_) => b64_encode(rt.alloc(), b"hi", Ending::Lf).expect(&rt, "memory"),
    };
    assert_eq!(rt; code.as_slice(), b"aGk=".as_slice());
}

#[test]
fn memory_push_qp(rt: HostRuntime) {
    let Ok(mut text) = Vec::from_slice(rt.alloc(), BEFORE) else {
        return;
    };
    if push_qp(&mut text, b"-- \n", Ending::Crlf).is_err() {
        assert!(rt; text.starts_with(BEFORE));
        text.truncate(BEFORE.len());
        assert!(rt; push_qp(&mut text, b"-- \n", Ending::Crlf).is_ok());
    }
    assert_eq!(rt; text.as_slice(), b"ab=2D- =0A".as_slice());
}

#[test]
fn memory_push_b64(rt: HostRuntime) {
    let Ok(mut text) = Vec::from_slice(rt.alloc(), BEFORE) else {
        return;
    };
    if push_b64(&mut text, b"hi", Ending::Crlf).is_err() {
        assert!(rt; text.starts_with(BEFORE));
        text.truncate(BEFORE.len());
        assert!(rt; push_b64(&mut text, b"hi", Ending::Crlf).is_ok());
    }
    assert_eq!(rt; text.as_slice(), b"abaGk=".as_slice());
}

/// Texts in each encoding, and their contents or why there is none.
const ENCODED: [(Encoding, &[u8], Result<&[u8], CodeError>); 5] = [
    (Encoding::Identity, b"a=", Ok(b"a=")),
    (Encoding::Qp, b"=c3=A9 =\n =zz \n", Ok(b"\xc3\xa9  =zz\n")),
    (Encoding::Base64, b"aG\n!k=zz", Ok(b"hi")),
    (Encoding::Base64, b"aGl=", Err(CodeError::BadBase64)),
    (Encoding::Other, b"x", Err(CodeError::UnknownEncoding)),
];

#[test]
fn memory_decode(rt: HostRuntime) {
    for (encoding, text, wanted) in ENCODED {
        let found = match decode(rt.alloc(), encoding, text) {
            Err(CodeError::Memory) => decode(rt.alloc(), encoding, text),
            found => found,
        };
        match found {
            Ok(content) => assert!(rt; wanted == Ok(content.as_slice())),
            Err(error) => assert!(rt; wanted == Err(error)),
        }
    }
}

/// Memory that holds a byte, and has no room for more. Where it finds none, it is empty.
fn held(rt: &HostRuntime) -> Vec<u8> {
    let mut memory = Vec::new(rt.alloc());
    let _ = memory.reserve_exact(1);
    let _ = memory.push(b'x');
    memory
}

#[test]
fn memory_decode_in(rt: HostRuntime) {
    for (encoding, text, wanted) in ENCODED {
        let mut memory = held(&rt);
        let found = match decode_in(&mut memory, encoding, text) {
            Err(CodeError::Memory) => decode_in(&mut memory, encoding, text),
            found => found,
        };
        match found {
            Ok(()) => assert!(rt; wanted == Ok(memory.as_slice())),
            Err(error) => assert!(rt; wanted == Err(error)),
        }
    }
}

#[test]
fn memory_decode_front(rt: HostRuntime) {
    let bytes = match decode_front(rt.alloc(), b"aGkAaG") {
        Ok(bytes) => bytes,
        Err(_) => decode_front(rt.alloc(), b"aGkAaG").expect(&rt, "memory"),
    };
    assert_eq!(rt; bytes.as_slice(), b"hi\x00".as_slice());
}

#[test]
fn memory_words_decode(rt: HostRuntime) {
    let value = b"=?iso-8859-1?Q?caf=E9?= =?UTF-8?B?w6k=?= x";
    let text = match words_decode(rt.alloc(), value) {
        Ok(text) => text,
        Err(_) => words_decode(rt.alloc(), value).expect(&rt, "memory"),
    };
    assert_eq!(rt; text.as_slice(), b"caf\xc3\xa9\xc3\xa9 x".as_slice());
}

#[test]
fn memory_text_decode(rt: HostRuntime) {
    let value = b"=?utf-8?Q?=C3?= =?UTF-8?B?w6k=?= x";
    let text = match text_decode(rt.alloc(), value) {
        Ok(text) => text,
        Err(_) => text_decode(rt.alloc(), value).expect(&rt, "memory"),
    };
    assert_eq!(rt; text.as_slice(), b"=?utf-8?Q?=C3?= \xc3\xa9 x".as_slice());
}

#[test]
fn memory_words_encode(rt: HostRuntime) {
    for (text, wanted) in [("\u{e9}", b"=?utf-8?B?w6k=?=".as_slice()), ("a b", b"a b")] {
        let value = match words_encode(rt.alloc(), text, Ending::Lf) {
            Ok(value) => value,
            Err(_) => words_encode(rt.alloc(), text, Ending::Lf).expect(&rt, "memory"),
        };
        assert_eq!(rt; value.as_slice(), wanted);
    }
}

#[test]
fn memory_text_of(rt: HostRuntime) {
    let value = b"a; filename*=x; filename*1*=%41%20; filename*0*=iso-8859-1''%e9; filename=x";
    let Ok(media) = content_type(rt.alloc(), value) else {
        return;
    };
    let text = match text_of(rt.alloc(), &media, b"filename") {
        Ok(text) => text,
        Err(_) => text_of(rt.alloc(), &media, b"filename").expect(&rt, "memory"),
    };
    let text = text.expect(&rt, "a text");
    assert_eq!(rt; text.as_str(), "\u{e9}A ");
}

#[test]
fn memory_text_of_words(rt: HostRuntime) {
    let Ok(media) = content_type(rt.alloc(), b"a; name=\"=?utf-8?Q?a=20b?=\"") else {
        return;
    };
    let text = match text_of(rt.alloc(), &media, b"name") {
        Ok(text) => text,
        Err(_) => text_of(rt.alloc(), &media, b"name").expect(&rt, "memory"),
    };
    let text = text.expect(&rt, "a text");
    assert_eq!(rt; text.as_str(), "a b");
}

#[test]
fn memory_percent_decode(rt: HostRuntime) {
    let bytes = match percent_decode(rt.alloc(), b"a%20b") {
        Ok(bytes) => bytes,
        Err(_) => percent_decode(rt.alloc(), b"a%20b").expect(&rt, "memory"),
    };
    let bytes = bytes.expect(&rt, "bytes");
    assert_eq!(rt; bytes.as_slice(), b"a b".as_slice());
}

#[test]
fn memory_push_percent(rt: HostRuntime) {
    let Ok(mut text) = Vec::from_slice(rt.alloc(), BEFORE) else {
        return;
    };
    if push_percent(&mut text, b"c d").is_err() {
        text.truncate(BEFORE.len());
        push_percent(&mut text, b"c d").expect(&rt, "memory");
    }
    assert_eq!(rt; text.as_slice(), b"abc%20d".as_slice());
}
