//! The callers on small messages. Expected values are worked out by hand.
mod insertions;
mod mailboxes;

use super::{Row, RowError, attachments, preview, restore, store};
use mk_edit::{Edit, EditError, GroupError, LoadError};
use mk_tree::Doc;
use mk_view::ExtractError;
use std::alloc::{AllocError, Global};
use std::test::Fail;

// A field at the end of the header of the message.
fn tag(alloc: Global) -> Result<Edit, AllocError> {
    Ok(Edit::AddField {
        path: Vec::from_slice(alloc, &[1])?,
        top: false,
        text: Vec::from_slice(alloc, b"X-Tag: y\n")?,
    })
}

#[test]
fn a_preview_leaves_the_message(rt: HostRuntime) -> Result<(), Fail> {
    let alloc = rt.alloc();
    let message = Vec::from_slice(alloc, b"A: b\r\n\r\nx")?;
    let field = Vec::from_slice(alloc, b"C: d\r\n")?;
    let (shown, back) = preview(alloc, message, field)?;
    assert_eq!(rt; shown.as_slice(), b"A: b\r\nC: d\r\n\r\nx".as_slice());
    assert_eq!(rt; back.as_slice(), b"A: b\r\n\r\nx".as_slice());
    Ok(())
}

#[test]
fn a_preview_names_the_reason(rt: HostRuntime) -> Result<(), Fail> {
    let alloc = rt.alloc();
    let message = Vec::from_slice(alloc, b"A: b\n")?;
    let field = Vec::from_slice(alloc, b"no field\n")?;
    let refused = preview(alloc, message, field).err();
    assert_eq!(rt; refused, Some(EditError::BadField));
    Ok(())
}

#[test]
fn a_message_is_put_back(rt: HostRuntime) -> Result<(), Fail> {
    let alloc = rt.alloc();
    let message = Vec::from_slice(alloc, b"A: b\n\nx\n")?;
    let row = store(alloc, message, &[tag(alloc)?])?;
    assert_eq!(rt; row.message.as_slice(), b"A: b\nX-Tag: y\n\nx\n".as_slice());
    let message = restore(alloc, row)?;
    assert_eq!(rt; message.as_slice(), b"A: b\n\nx\n".as_slice());
    Ok(())
}

#[test]
fn a_refused_edit_stores_no_row(rt: HostRuntime) -> Result<(), Fail> {
    let alloc = rt.alloc();
    let message = Vec::from_slice(alloc, b"A: b\n\nx\n")?;
    let gone = Edit::RemoveField {
        path: Vec::from_slice(alloc, &[1])?,
        name: Vec::from_slice(alloc, b"C")?,
        k: 1,
    };
    let refused = store(alloc, message, &[tag(alloc)?, gone]).err();
    let reason = GroupError::Member {
        index: 1,
        refusal: EditError::NoSuchField,
    };
    assert_eq!(rt; refused, Some(reason));
    Ok(())
}

#[test]
fn a_row_of_another_message_is_refused(rt: HostRuntime) -> Result<(), Fail> {
    let alloc = rt.alloc();
    let message = Vec::from_slice(alloc, b"A: b\n\nx\n")?;
    let row = store(alloc, message, &[tag(alloc)?])?;
    let other = Row {
        message: Vec::from_slice(alloc, b"A: c\n\nx\n")?,
        journal: row.journal,
    };
    let refused = restore(alloc, other).err();
    assert_eq!(rt; refused, Some(RowError::Load(LoadError::JournalOther)));
    Ok(())
}

#[test]
fn attachments_are_decoded(rt: HostRuntime) -> Result<(), Fail> {
    let alloc = rt.alloc();
    let text =
        b"Content-Type: multipart/mixed; boundary=x\n\n--x\n\nhello\n--x\nContent-Type: image/png; name=a.png\nContent-Transfer-Encoding: base64\n\naGk=\n--x--\n";
    let text = Vec::from_slice(alloc, text)?;
    let doc = Doc::read(alloc, text).map_err(|(_, error)| error)?;
    let found = attachments(alloc, &doc)?;
    assert_eq!(rt; found.len(), 1usize);
    assert_eq!(rt; found[0].path.as_slice(), [1, 2].as_slice());
    assert_eq!(rt; found[0].name.as_slice(), b"a.png".as_slice());
    assert_eq!(rt; found[0].content.as_slice(), b"hi".as_slice());
    Ok(())
}

#[test]
fn an_attachment_that_does_not_decode_is_refused(rt: HostRuntime) -> Result<(), Fail> {
    let alloc = rt.alloc();
    let text = b"Content-Type: image/png\nContent-Transfer-Encoding: base64\n\na\n";
    let text = Vec::from_slice(alloc, text)?;
    let doc = Doc::read(alloc, text).map_err(|(_, error)| error)?;
    let refused = attachments(alloc, &doc).err();
    assert_eq!(rt; refused, Some(ExtractError::BadBase64));
    Ok(())
}
