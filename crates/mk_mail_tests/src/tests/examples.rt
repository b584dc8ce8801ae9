//! The examples at the roots of mk_mailbox, mk_view, mk_build and mk_mail. Expected values are from RFC 2045, RFC 2046 and
//! docs/FORMATS.md.
use super::letters::no_letters;
use super::mailboxes::Bytes;
use mk_edit::Session;
use mk_line::{Ending, Meter};
use mk_mail::{Attach, Mailbox, build, extract, field_edits, list};
use mk_tree::Doc;
use std::test::Fail;

#[test]
fn a_mailbox_has_messages(rt: HostRuntime) -> Result<(), Fail> {
    let alloc = rt.alloc();
    let mut source = Bytes::new(b"From a\nA: 1\n\nx\n\nFrom b\nA: 2\n", 7);
    let mut mailbox = Mailbox::new(alloc);
    let first = mailbox.next(&mut source)?.expect(&rt, "a message");
    assert_eq!(rt; first.as_slice(), b"From a\nA: 1\n\nx\n\n".as_slice());
    let second = mailbox.next(&mut source)?.expect(&rt, "a message");
    assert_eq!(rt; second.as_slice(), b"From b\nA: 2\n".as_slice());
    assert!(rt; mailbox.next(&mut source)?.is_none());
    Ok(())
}

#[test]
fn a_document_is_listed(rt: HostRuntime) -> Result<(), Fail> {
    let alloc = rt.alloc();
    let text = b"Content-Type: image/png\nContent-Transfer-Encoding: base64\n\naGk=\n";
    let text = Vec::from_slice(alloc, text)?;
    let doc = Doc::read(alloc, text).map_err(|(_, error)| error)?;
    let lines = list(alloc, &doc)?;
    let wanted = b"1 leaf image/png base64 0 59 64 2 1\n";
    assert_eq!(rt; lines.as_slice(), wanted.as_slice());
    let content = extract(alloc, &doc, &[1])?;
    assert_eq!(rt; content.as_slice(), b"hi".as_slice());
    Ok(())
}

/// A note in a message of its own.
const BUILT: &[u8] =
    b"Subject: s\nMIME-Version: 1.0\nContent-Type: multipart/mixed; boundary=\"b\"\n\n--b\nContent-Type: text/plain\nContent-Transfer-Encoding: quoted-printable\n\nhi\n\n--b--\n";

#[test]
fn a_message_is_built(rt: HostRuntime) -> Result<(), Fail> {
    let alloc = rt.alloc();
    let note = Attach {
        media: Vec::from_slice(alloc, b"text/plain")?,
        name: None,
        text: Vec::from_slice(alloc, b"hi\n")?,
        base64: false,
    };
    let (fields, parts) = ([Vec::from_slice(alloc, b"Subject: s\n")?], [note]);
    let message = build(alloc, &fields, &parts, b"b", Ending::Lf)?;
    assert!(rt; message.starts_with(b"Subject: s\nMIME-Version: 1.0\n"));
    assert!(rt; message.ends_with(b"\n\nhi\n\n--b--\n"));
    assert_eq!(rt; message.as_slice(), BUILT);
    Ok(())
}

#[test]
fn letters_change_fields(rt: HostRuntime) -> Result<(), Fail> {
    let alloc = rt.alloc();
    let text = Vec::from_slice(alloc, b"A: 1\nB: 2\nA: 3\n\nx\n")?;
    let mut session = Session::start(alloc, text).map_err(|(_, error)| error)?;
    let mut letters = no_letters(alloc);
    letters.only = Some(Vec::from_slice(alloc, b"A: 9")?);
    assert!(rt; letters.ok());
    let edits = field_edits(alloc, session.doc(), &letters)?;
    session.group(&edits, &mut Meter::new())?;
    assert_eq!(rt; session.text(), b"B: 2\nA: 9\n\nx\n".as_slice());
    Ok(())
}
