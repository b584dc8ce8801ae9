//! Messages that are built. Expected values are worked out by hand (RFC 2046, 5.1; RFC 2231, 4).
use super::{BAD_FIELD, HOLDS_BOUNDARY, NOWHERE, OK, answer, opened};
use crate::{
    Handle, Place, mk_c_build, mk_c_close, mk_c_put_field, mk_c_put_message, mk_c_put_part,
    mk_c_text,
};
use std::alloc::Global;
use std::process::Abort;
use std::test::Fail;

const BAD_TYPE: u32 = 50;

const BAD_PART_NAME: u32 = 51;

const BAD_CHARSET: u32 = 52;

#[test]
fn a_message_is_built(rt: HostRuntime) -> Result<(), Fail> {
    let alloc = rt.alloc();
    let mut handle = opened(alloc, b"");
    mk_c_put_field(alloc, &mut handle, b"Subject: s\r\n", &mut NOWHERE);
    mk_c_put_part(
        alloc,
        &mut handle,
        b"text/plain",
        false,
        b"",
        b"hi\r\n",
        false,
        &mut NOWHERE,
    );
    mk_c_put_part(
        alloc,
        &mut handle,
        b"image/png",
        true,
        b"a.png",
        b"hi",
        true,
        &mut NOWHERE,
    );
    mk_c_put_message(alloc, &mut handle, b"A: b\n\nx\n", true, &mut NOWHERE);
    let status = mk_c_build(
        alloc,
        &mut handle,
        b"mixed",
        true,
        b"utf-8",
        b"b",
        true,
        &mut NOWHERE,
    );
    assert_eq!(rt; status, OK);
    let message = answer(alloc, &mut handle)?;
    let wanted =
        b"Subject: s\r\nMIME-Version: 1.0\r\nContent-Type: multipart/mixed; boundary=\"b\"\r\n\r\n--b\r\nContent-Type: text/plain; charset=utf-8\r\nContent-Transfer-Encoding: quoted-printable\r\n\r\nhi\r\n\r\n--b\r\nContent-Type: image/png; name=\"a.png\"\r\nContent-Disposition: attachment; filename=\"a.png\"\r\nContent-Transfer-Encoding: base64\r\n\r\naGk=\r\n--b\r\nContent-Type: message/rfc822\r\n\r\nA: b\n\nx\n\r\n--b--\r\n";
    assert_eq!(rt; message.as_slice(), wanted.as_slice());
    mk_c_close(alloc, &mut handle);
    Ok(())
}

#[test]
fn what_was_put_down_is_built_once(rt: HostRuntime) -> Result<(), Fail> {
    let alloc = rt.alloc();
    let mut handle = opened(alloc, b"A: b\n\n");
    mk_c_put_field(alloc, &mut handle, b"C: d", &mut NOWHERE);
    mk_c_build(
        alloc,
        &mut handle,
        b"mixed",
        false,
        b"",
        b"b",
        false,
        &mut NOWHERE,
    );
    let first = answer(alloc, &mut handle)?;
    assert!(rt; first.starts_with(b"C: d\nMIME-Version: 1.0\n"));
    mk_c_build(
        alloc,
        &mut handle,
        b"mixed",
        false,
        b"",
        b"b",
        false,
        &mut NOWHERE,
    );
    let second = answer(alloc, &mut handle)?;
    assert!(rt; second.starts_with(b"MIME-Version: 1.0\n"));
    // The message under edit stays as it was.
    mk_c_text(alloc, &mut handle, &mut NOWHERE);
    let text = answer(alloc, &mut handle)?;
    assert_eq!(rt; text.as_slice(), b"A: b\n\n".as_slice());
    mk_c_close(alloc, &mut handle);
    Ok(())
}

// Puts down a part whose text is `x`.
fn put_part(
    alloc: Global,
    handle: &mut Handle,
    media: &[u8],
    named: bool,
    name: &[u8],
    place: &mut Place,
) {
    mk_c_put_part(alloc, handle, media, named, name, b"x", false, place);
}

// Builds what was put down, with the boundary `b`.
fn build(alloc: Global, handle: &mut Handle, charset_given: bool, place: &mut Place) -> u32 {
    mk_c_build(
        alloc,
        handle,
        b"mixed",
        charset_given,
        b"",
        b"b",
        false,
        place,
    )
}

#[test]
fn a_message_that_is_not_built_says_why(rt: HostRuntime) -> Result<(), Fail> {
    let alloc = rt.alloc();
    let mut place = NOWHERE;
    let mut handle = opened(alloc, b"");
    mk_c_put_field(alloc, &mut handle, b"A: b\n", &mut place);
    mk_c_put_field(
        alloc,
        &mut handle,
        b"Content-Type: text/plain\n",
        &mut place,
    );
    assert_eq!(rt; build(alloc, &mut handle, false, &mut place), BAD_FIELD);
    assert_eq!(rt; place, Place { edit: 1, number: 0 });
    put_part(
        alloc,
        &mut handle,
        b"multipart/mixed",
        false,
        b"",
        &mut place,
    );
    assert_eq!(rt; build(alloc, &mut handle, false, &mut place), BAD_TYPE);
    put_part(alloc, &mut handle, b"text/plain", true, b"\x01", &mut place);
    assert_eq!(rt; build(alloc, &mut handle, false, &mut place), OK);
    put_part(alloc, &mut handle, b"text/plain", true, b"", &mut place);
    assert_eq!(rt; build(alloc, &mut handle, false, &mut place), BAD_PART_NAME);
    assert_eq!(rt; build(alloc, &mut handle, true, &mut place), BAD_CHARSET);
    check_boundary(&rt, alloc, &mut handle);
    mk_c_close(alloc, &mut handle);
    Ok(())
}

// A message whose text holds the boundary is refused, and named by its number.
fn check_boundary(rt: &impl Abort, alloc: Global, handle: &mut Handle) {
    let mut place = NOWHERE;
    mk_c_put_message(alloc, handle, b"A: b\n\nx\n", false, &mut place);
    mk_c_put_message(alloc, handle, b"A: b\n\n--b\n", false, &mut place);
    assert_eq!(rt; build(alloc, handle, false, &mut place), HOLDS_BOUNDARY);
    assert_eq!(rt; place, Place { edit: 1, number: 0 });
}
