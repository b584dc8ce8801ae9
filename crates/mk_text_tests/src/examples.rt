//! The examples at the roots of mk_line, mk_head, mk_code and mk_param. Expected values are from RFC 5322, 2045, 2047 and 2231.
use mk_code::{Encoding, decode, qp_encode, words_decode};
use mk_head::{content_type, header, unfold};
use mk_line::{Ending, cut, is_continuation, name_len};
use mk_param::{push_percent, text_of};
use std::test::Fail;

#[test]
fn a_text_is_cut_into_lines(rt: HostRuntime) {
    let mut lines = cut(b"Subject: hi\r\n there\n");
    let first = lines.next().expect(&rt, "a line");
    assert_eq!(rt; first.content, b"Subject: hi".as_slice());
    assert_eq!(rt; first.ending, Ending::Crlf);
    assert_eq!(rt; name_len(first.content), Some(7));
    let second = lines.next().expect(&rt, "a line");
    assert!(rt; is_continuation(second.content));
    assert!(rt; lines.next().is_none());
}

#[test]
fn a_header_has_fields(rt: HostRuntime) -> Result<(), Fail> {
    let alloc = rt.alloc();
    let text = b"Subject: hi\n there\nContent-Type: Text/HTML; charset=utf-8\n\n<p>\n";
    let found = header(alloc, text)?;
    let subject = found.find(b"subject", 1).expect(&rt, "a field");
    let value = unfold(alloc, &subject)?;
    assert_eq!(rt; value.as_slice(), b" hi there".as_slice());
    let field = found.find(b"Content-Type", 1).expect(&rt, "a field");
    let media = content_type(alloc, &unfold(alloc, &field)?)?;
    assert_eq!(rt; media.sub.as_slice(), b"html".as_slice());
    assert_eq!(rt; media.param(b"charset"), Some(b"utf-8".as_slice()));
    Ok(())
}

#[test]
fn a_content_and_its_encoding(rt: HostRuntime) -> Result<(), Fail> {
    let alloc = rt.alloc();
    let text = qp_encode(alloc, b"caf\xc3\xa9 = 5\n", Ending::Lf)?;
    assert_eq!(rt; text.as_slice(), b"caf=C3=A9 =3D 5\n".as_slice());
    let content = decode(alloc, Encoding::Qp, &text)?;
    assert_eq!(rt; content.as_slice(), b"caf\xc3\xa9 = 5\n".as_slice());
    let value = words_decode(alloc, b"=?iso-8859-1?Q?caf=E9?= au lait")?;
    assert_eq!(rt; value.as_slice(), b"caf\xc3\xa9 au lait".as_slice());
    Ok(())
}

#[test]
fn a_parameter_says_a_text(rt: HostRuntime) -> Result<(), Fail> {
    let alloc = rt.alloc();
    let value = b"attachment; filename*=UTF-8''na%C3%AFve.pdf";
    let parameters = content_type(alloc, value)?;
    let name = text_of(alloc, &parameters, b"filename")?;
    let name = name.expect(&rt, "a name");
    assert_eq!(rt; name.as_bytes(), b"na\xc3\xafve.pdf".as_slice());
    let mut text = Vec::new(alloc);
    push_percent(&mut text, b"a b")?;
    assert_eq!(rt; text.as_slice(), b"a%20b".as_slice());
    Ok(())
}
