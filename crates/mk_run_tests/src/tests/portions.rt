//! What is given of a section: its content, its bytes as they stand, its fields, and what decodes of it. The expected bytes are
//! worked out by hand.

use super::devices::{Page, Text};
use super::memory::page;
use super::{SIZES, check_left};
use mk_rows::{Row, rows};
use mk_run::{Cause, Portion, Status, try_extract};
use std::alloc::Global;
use std::process::Abort;
use std::test::Fail;

const PORTIONS: &str = r#"
== the content of a leaf, decoded
message: Content-Transfer-Encoding: base64\n\naGk=\n
portion: content
path: 1
output: hi
status: Well

== the content of a leaf as it stands
message: Content-Transfer-Encoding: base64\n\naGk=\n
portion: raw
path: 1
output: aGk=\n
status: Well

== the ending before a delimiter is no part of the content
message: Content-Type: multipart/mixed; boundary=b\n\n--b\nContent-Transfer-Encoding: x\n\none\r\n--b--\n
portion: raw
path: 1.1
output: one
status: Well

== the content of a multipart as it stands
message: Content-Type: multipart/mixed; boundary=b\n\n--b\n\none\n--b--\n
portion: raw
path: 1
output: --b\n\none\n--b--\n
status: Well

== the content of a message in a message as it stands
message: Content-Type: message/rfc822\n\nA: b\n\nx\n
portion: raw
path: 1
output: A: b\n\nx\n
status: Well

== an unknown encoding refuses no bytes as they stand
message: Content-Transfer-Encoding: x-uuencode\n\nx\n
portion: raw
path: 1
output: x\n
status: Well

== bad base64 as it stands
message: Content-Transfer-Encoding: base64\n\naGl=\n
portion: raw
path: 1
output: aGl=\n
status: Well

== the fields with their folds and endings
message: From a\nA: b\r\n\tc\r\nD: e\r\n\r\nx\r\n
portion: head
path: 1
output: A: b\r\n\tc\r\nD: e\r\n
status: Well

== the fields of a part
message: Content-Type: multipart/mixed; boundary=b\n\n--b\nA: 1\n\none\n--b--\n
portion: head
path: 1.1
output: A: 1\n
status: Well

== the fields of a multipart
message: Content-Type: multipart/mixed; boundary=b\n\n--b\nA: 1\n\none\n--b--\n
portion: head
path: 1
output: Content-Type: multipart/mixed; boundary=b\n
status: Well

== the fields where no separator follows
message: A: b\nno field\n
portion: head
path: 1
output: A: b\n
status: Well

== an open last field
message: A: b
portion: head
path: 1
output: A: b
status: Well

== no fields
message: \nx\n
portion: head
path: 1
status: Well

== fields of a section with an unknown encoding
message: Content-Transfer-Encoding: x-uuencode\n\nx\n
portion: head
path: 1
output: Content-Transfer-Encoding: x-uuencode\n
status: Well

== no such section, as it stands
message: A: b\n\nx\n
portion: raw
path: 1.1
errors: 1.1: NoSuchSection\n
status: Refused

== no such section, so no fields
message: A: b\n\nx\n
portion: head
path: 2
errors: 2: NoSuchSection\n
status: Refused

== no such section, so nothing decodes
message: A: b\n\nx\n
portion: prefix
path: 1.1
errors: 1.1: NoSuchSection\n
status: Refused

== base64 that was cut off after a letter
message: Content-Transfer-Encoding: base64\n\naGkA\na\n
portion: prefix
path: 1
output: hi\x00
errors: 1: BadBase64\n
status: Refused

== base64 with unused bits
message: Content-Transfer-Encoding: base64\n\naGkAaB==\n
portion: prefix
path: 1
output: hi\x00
errors: 1: BadBase64\n
status: Refused

== nothing decodes
message: Content-Transfer-Encoding: base64\n\naGl=\n
portion: prefix
path: 1
errors: 1: BadBase64\n
status: Refused

== base64 that is whole
message: Content-Transfer-Encoding: base64\n\naGk=\n
portion: prefix
path: 1
output: hi
status: Well

== another encoding
message: Content-Transfer-Encoding: quoted-printable\n\n=3D=\n
portion: prefix
path: 1
output: =
status: Well

== an unknown encoding
message: Content-Transfer-Encoding: x-uuencode\n\nx\n
portion: prefix
path: 1
errors: 1: UnknownEncoding\n
status: Refused

== a multipart, as ever
message: Content-Type: multipart/mixed; boundary=b\n\n--b\n\none\n--b--\n
portion: prefix
path: 1
output: --b\n\none\n--b--\n
status: Well

== a text in windows-1252, in UTF-8
message: Content-Type: text/plain; charset=Windows-1252\nContent-Transfer-Encoding: quoted-printable\n\n=80 =93caf=E9=94\n
portion: utf8
path: 1
output: \xe2\x82\xac \xe2\x80\x9ccaf\xc3\xa9\xe2\x80\x9d\n
status: Well

== a text in koi8-r, by another label
message: Content-Type: text/plain; charset=koi8\n\n\xd0\xd2\xc9\n
portion: utf8
path: 1
output: \xd0\xbf\xd1\x80\xd0\xb8\n
status: Well

== a text that names no charset is as it is
message: Content-Type: text/plain\n\n\xe9\n
portion: utf8
path: 1
output: \xe9\n
status: Well

== a charset that isn't known is named, and the content is as it is
message: Content-Type: text/plain; charset="shift jis"\n\n\x82\xa0\n
portion: utf8
path: 1
output: \x82\xa0\n
errors: 1: UnknownCharset shift_jis\n
status: Refused

== a byte that has no character in its charset
message: Content-Type: text/plain; charset=iso-8859-3\n\na\xa5\n
portion: utf8
path: 1
output: a\xa5\n
errors: 1: UnknownCharset iso-8859-3\n
status: Refused

== a content that can't be decoded
message: Content-Type: text/plain; charset=utf-8\nContent-Transfer-Encoding: base64\n\naGl=\n
portion: utf8
path: 1
errors: 1: BadBase64\n
status: Refused

== no section to be given as a text
message: A: b\n
portion: utf8
path: 2
errors: 2: NoSuchSection\n
status: Refused
"#;

/// The portion that a row asks for.
pub(super) fn wanted(row: &Row) -> Portion {
    match row.text("portion") {
        "raw" => Portion::Raw,
        "head" => Portion::Head,
        "prefix" => Portion::Prefix,
        "utf8" => Portion::Utf8,
        _ => Portion::Content,
    }
}

fn check_portion(rt: &impl Abort, alloc: Global, row: &Row) -> Result<(), Fail> {
    let path = row.path(alloc, "path")?;
    for size in SIZES {
        let mut input = Text::new(row.bytes("message"), size);
        let mut out = Page::new(alloc, size)?;
        let mut err = Page::new(alloc, size)?;
        let done = try_extract(alloc, &mut input, &mut out, &mut err, &path, wanted(row));
        check_left(
            rt,
            alloc,
            row,
            done.ok().unwrap_or(Status::Fault),
            &out,
            &err,
        )?;
    }
    Ok(())
}

#[test]
fn portions_are_given_or_the_reason(rt: HostRuntime) -> Result<(), Fail> {
    for row in &rows(rt.alloc(), PORTIONS)? {
        check_portion(&rt, rt.alloc(), row)?;
    }
    Ok(())
}

const CUT: &[u8] = b"Content-Transfer-Encoding: base64\n\naGkA\na\n";

#[test]
fn memory_for_a_prefix(rt: HostRuntime) {
    let alloc = rt.alloc();
    let (Ok(out), Ok(err)) = (Page::new(alloc, 100), Page::new(alloc, 100)) else {
        return;
    };
    if !is_given(&rt, alloc, out, err) {
        let (out, err) = (page(&rt, alloc), page(&rt, alloc));
        assert!(rt; is_given(&rt, alloc, out, err));
    }
}

// Whether what decodes went out, rather than that memory ran out before anything did.
fn is_given(rt: &impl Abort, alloc: Global, mut out: Page, mut err: Page) -> bool {
    let mut input = Text::new(CUT, 100);
    let done = try_extract(alloc, &mut input, &mut out, &mut err, &[1], Portion::Prefix);
    if done == Err(Cause::Memory) {
        assert_eq!(rt; out.bytes(), b"".as_slice());
        assert_eq!(rt; err.bytes(), b"".as_slice());
        return false;
    }
    assert!(rt; done == Ok(Status::Refused));
    assert_eq!(rt; out.bytes(), b"hi\x00".as_slice());
    assert_eq!(rt; err.bytes(), b"1: BadBase64\n".as_slice());
    true
}
