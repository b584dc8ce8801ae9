//! Each call on small messages. Expected values are worked out by hand.
mod building;
mod mailboxes;

use super::*;
use std::alloc::{AllocError, Global};
use std::process::Abort;
use std::test::Fail;

const OK: u32 = 0;

const CLOSED: u32 = 1;

const BAD_SIZE: u32 = 3;

const NO_EDIT: u32 = 4;

const NO_NAME: u32 = 5;

const NO_SUCH_SECTION: u32 = 10;

const NO_SUCH_FIELD: u32 = 14;

const BAD_FIELD: u32 = 16;

const HOLDS_BOUNDARY: u32 = 21;

const NOTHING_TO_UNDO: u32 = 23;

const NOTHING_TO_REDO: u32 = 24;

const JOURNAL_SYNTAX: u32 = 30;

const JOURNAL_OTHER: u32 = 31;

const BAD_BASE64: u32 = 40;

const UNKNOWN_ENCODING: u32 = 41;

const NOWHERE: Place = Place { edit: 0, number: 0 };

// A multipart with two leaves.
const ALBUM: &[u8] =
    b"Content-Type: multipart/mixed; boundary=x\n\n--x\nContent-Type: image/png; name=a.png\nContent-Transfer-Encoding: base64\n\naGk=\n--x\n\nb\n--x--\n";

// A handle that is open with a message.
fn opened(alloc: Global, message: &[u8]) -> Handle {
    let mut handle = Handle::closed();
    mk_c_start(alloc, &mut handle, message, &mut NOWHERE);
    handle
}

// The bytes of an answer.
fn answer(alloc: Global, handle: &mut Handle) -> Result<Vec<u8>, AllocError> {
    let size = mk_c_size(alloc, handle);
    let mut bytes = Vec::from_elem(alloc, 0u8, size)?;
    mk_c_copy(alloc, handle, &mut bytes, &mut NOWHERE);
    Ok(bytes)
}

// The text of a handle.
fn text(alloc: Global, handle: &mut Handle) -> Result<Vec<u8>, AllocError> {
    mk_c_text(alloc, handle, &mut NOWHERE);
    answer(alloc, handle)
}

// Makes what was put down. Answers the text after it.
fn made(alloc: Global, handle: &mut Handle) -> Result<Vec<u8>, AllocError> {
    mk_c_make(alloc, handle, &mut NOWHERE);
    text(alloc, handle)
}

#[test]
fn a_field_is_added(rt: HostRuntime) -> Result<(), Fail> {
    let alloc = rt.alloc();
    let mut handle = Handle::closed();
    let mut place = Place { edit: 0, number: 0 };
    mk_c_start(alloc, &mut handle, b"A: b\n\nx\n", &mut place);
    mk_c_add_field(alloc, &mut handle, &[1], false, b"C: d\n", &mut place);
    mk_c_make(alloc, &mut handle, &mut place);
    mk_c_text(alloc, &mut handle, &mut place);
    assert_eq!(rt; mk_c_size(alloc, &mut handle), 13usize);
    mk_c_close(alloc, &mut handle);
    Ok(())
}

#[test]
fn fields_are_edited(rt: HostRuntime) -> Result<(), Fail> {
    let alloc = rt.alloc();
    let mut handle = opened(alloc, b"A: b\n\nx\n");
    mk_c_add_field(alloc, &mut handle, &[1], true, b"C: d\n", &mut NOWHERE);
    assert_eq!(rt;
        made(alloc, &mut handle)?.as_slice(),
        b"C: d\nA: b\n\nx\n".as_slice()
    );
    mk_c_rename_field(alloc, &mut handle, &[1], b"c", 1, b"E", &mut NOWHERE);
    assert_eq!(rt;
        made(alloc, &mut handle)?.as_slice(),
        b"E: d\nA: b\n\nx\n".as_slice()
    );
    mk_c_set_field(alloc, &mut handle, &[1], b"A", 1, b"F: g\n", &mut NOWHERE);
    assert_eq!(rt;
        made(alloc, &mut handle)?.as_slice(),
        b"E: d\nF: g\n\nx\n".as_slice()
    );
    mk_c_remove_field(alloc, &mut handle, &[1], b"E", 1, &mut NOWHERE);
    assert_eq!(rt;
        made(alloc, &mut handle)?.as_slice(),
        b"F: g\n\nx\n".as_slice()
    );
    mk_c_close(alloc, &mut handle);
    Ok(())
}

#[test]
fn sections_are_edited(rt: HostRuntime) -> Result<(), Fail> {
    let alloc = rt.alloc();
    let mut handle = opened(alloc, b"A: b\n\nx\n");
    mk_c_set_body(alloc, &mut handle, &[1], b"y\n", &mut NOWHERE);
    assert_eq!(rt;
        made(alloc, &mut handle)?.as_slice(),
        b"A: b\n\ny\n".as_slice()
    );
    mk_c_wrap(alloc, &mut handle, &[1], b"mixed", b"q", &mut NOWHERE);
    let wrapped =
        b"A: b\nMIME-Version: 1.0\nContent-Type: multipart/mixed; boundary=\"q\"\n\n--q\n\ny\n\n--q--\n";
    assert_eq!(rt; made(alloc, &mut handle)?.as_slice(), wrapped.as_slice());
    mk_c_insert_part(alloc, &mut handle, &[1], 0, b"\nz\n", &mut NOWHERE);
    mk_c_remove_part(alloc, &mut handle, &[1, 2], &mut NOWHERE);
    let status = mk_c_make(alloc, &mut handle, &mut NOWHERE);
    assert_eq!(rt; status, OK);
    mk_c_extract(alloc, &mut handle, &[1, 1], &mut NOWHERE);
    let content = answer(alloc, &mut handle)?;
    assert_eq!(rt; content.as_slice(), b"z".as_slice());
    mk_c_set_section(alloc, &mut handle, &[1], b"C: d\n\nw\n", &mut NOWHERE);
    assert_eq!(rt;
        made(alloc, &mut handle)?.as_slice(),
        b"C: d\n\nw\n".as_slice()
    );
    mk_c_close(alloc, &mut handle);
    Ok(())
}

#[test]
fn edits_are_one_step(rt: HostRuntime) -> Result<(), Fail> {
    let alloc = rt.alloc();
    let mut handle = opened(alloc, b"A: b\n\nx\n");
    mk_c_add_field(alloc, &mut handle, &[1], false, b"C: d\n", &mut NOWHERE);
    mk_c_set_body(alloc, &mut handle, &[1], b"y\n", &mut NOWHERE);
    assert_eq!(rt;
        made(alloc, &mut handle)?.as_slice(),
        b"A: b\nC: d\n\ny\n".as_slice()
    );
    let mut done = 9;
    let mut undone = 9;
    mk_c_counts(alloc, &mut handle, &mut done, &mut undone, &mut NOWHERE);
    assert_eq!(rt; (done, undone), (1usize, 0usize));
    assert_eq!(rt; mk_c_undo(alloc, &mut handle, &mut NOWHERE), OK);
    let before = text(alloc, &mut handle)?;
    assert_eq!(rt; before.as_slice(), b"A: b\n\nx\n".as_slice());
    assert_eq!(rt;
        mk_c_undo(alloc, &mut handle, &mut NOWHERE),
        NOTHING_TO_UNDO
    );
    assert_eq!(rt; mk_c_redo(alloc, &mut handle, &mut NOWHERE), OK);
    let after = text(alloc, &mut handle)?;
    assert_eq!(rt; after.as_slice(), b"A: b\nC: d\n\ny\n".as_slice());
    assert_eq!(rt;
        mk_c_redo(alloc, &mut handle, &mut NOWHERE),
        NOTHING_TO_REDO
    );
    mk_c_close(alloc, &mut handle);
    Ok(())
}

#[test]
fn a_refused_edit_is_named(rt: HostRuntime) -> Result<(), Fail> {
    let alloc = rt.alloc();
    let mut place = NOWHERE;
    let mut handle = opened(alloc, ALBUM);
    mk_c_add_field(alloc, &mut handle, &[1], false, b"C: d\n", &mut place);
    mk_c_remove_field(alloc, &mut handle, &[1], b"Z", 1, &mut place);
    assert_eq!(rt; mk_c_make(alloc, &mut handle, &mut place), NO_SUCH_FIELD);
    assert_eq!(rt; place, Place { edit: 1, number: 0 });
    mk_c_set_body(alloc, &mut handle, &[1, 2], b"--x\n", &mut place);
    assert_eq!(rt; mk_c_make(alloc, &mut handle, &mut place), HOLDS_BOUNDARY);
    assert_eq!(rt; place, Place { edit: 0, number: 1 });
    let text = text(alloc, &mut handle)?;
    assert_eq!(rt; text.as_slice(), ALBUM);
    mk_c_close(alloc, &mut handle);
    Ok(())
}

#[test]
fn a_check_changes_nothing(rt: HostRuntime) -> Result<(), Fail> {
    let alloc = rt.alloc();
    let mut handle = opened(alloc, b"A: b\n\nx\n");
    assert_eq!(rt; mk_c_check(alloc, &mut handle, &mut NOWHERE), NO_EDIT);
    mk_c_add_field(alloc, &mut handle, &[1], false, b"C: d\n", &mut NOWHERE);
    assert_eq!(rt; mk_c_check(alloc, &mut handle, &mut NOWHERE), OK);
    mk_c_add_field(alloc, &mut handle, &[1], false, b"no field\n", &mut NOWHERE);
    assert_eq!(rt; mk_c_check(alloc, &mut handle, &mut NOWHERE), BAD_FIELD);
    mk_c_add_field(alloc, &mut handle, &[1], false, b"C: d\n", &mut NOWHERE);
    assert_eq!(rt; mk_c_forget(alloc, &mut handle, &mut NOWHERE), OK);
    assert_eq!(rt;
        made(alloc, &mut handle)?.as_slice(),
        b"A: b\n\nx\n".as_slice()
    );
    mk_c_close(alloc, &mut handle);
    Ok(())
}

#[test]
fn a_journal_is_loaded(rt: HostRuntime) -> Result<(), Fail> {
    let alloc = rt.alloc();
    let mut handle = opened(alloc, b"A: b\n\nx\n");
    mk_c_add_field(alloc, &mut handle, &[1], false, b"C: d\n", &mut NOWHERE);
    assert_eq!(rt;
        made(alloc, &mut handle)?.as_slice(),
        b"A: b\nC: d\n\nx\n".as_slice()
    );
    assert_eq!(rt; mk_c_save(alloc, &mut handle, &mut NOWHERE), OK);
    let journal = answer(alloc, &mut handle)?;
    check_loaded(&rt, alloc, &mut handle, &journal)?;
    check_not_loaded(&rt, alloc, &mut handle, &journal);
    Ok(())
}

// The journal and its message make a session of which the step is undone.
fn check_loaded(
    rt: &impl Abort,
    alloc: Global,
    handle: &mut Handle,
    journal: &[u8],
) -> Result<(), Fail> {
    let status = mk_c_load(alloc, handle, b"A: b\nC: d\n\nx\n", journal, &mut NOWHERE);
    assert_eq!(rt; status, OK);
    assert_eq!(rt; mk_c_undo(alloc, handle, &mut NOWHERE), OK);
    let before = text(alloc, handle)?;
    assert_eq!(rt; before.as_slice(), b"A: b\n\nx\n".as_slice());
    Ok(())
}

// Another message, and what is no journal, close the handle.
fn check_not_loaded(rt: &impl Abort, alloc: Global, handle: &mut Handle, journal: &[u8]) {
    let mut place = NOWHERE;
    let status = mk_c_load(alloc, handle, b"another", journal, &mut place);
    assert_eq!(rt; status, JOURNAL_OTHER);
    let status = mk_c_load(alloc, handle, b"A: b\n\nx\n", b"mime", &mut place);
    assert_eq!(rt; status, JOURNAL_SYNTAX);
    assert_eq!(rt; place, Place { edit: 0, number: 4 });
    assert_eq!(rt; mk_c_text(alloc, handle, &mut place), CLOSED);
}

#[test]
fn sections_are_shown(rt: HostRuntime) -> Result<(), Fail> {
    let alloc = rt.alloc();
    let mut handle = opened(alloc, ALBUM);
    assert_eq!(rt; mk_c_sections(alloc, &mut handle, &mut NOWHERE), OK);
    let listing = answer(alloc, &mut handle)?;
    let wanted =
        b"1 multi multipart/mixed identity 0 43 136 1 9\n1.1 leaf image/png base64 47 118 123 2 1\n1.2 leaf text/plain identity 127 128 130 0 1\n";
    assert_eq!(rt; listing.as_slice(), wanted.as_slice());
    assert_eq!(rt; mk_c_extract(alloc, &mut handle, &[1, 1], &mut NOWHERE), OK);
    let content = answer(alloc, &mut handle)?;
    assert_eq!(rt; content.as_slice(), b"hi".as_slice());
    assert_eq!(rt; mk_c_name(alloc, &mut handle, &[1, 1], &mut NOWHERE), OK);
    let name = answer(alloc, &mut handle)?;
    assert_eq!(rt; name.as_slice(), b"a.png".as_slice());
    assert_eq!(rt;
        mk_c_name(alloc, &mut handle, &[1, 2], &mut NOWHERE),
        NO_NAME
    );
    assert_eq!(rt;
        mk_c_name(alloc, &mut handle, &[1, 3], &mut NOWHERE),
        NO_SUCH_SECTION
    );
    assert_eq!(rt;
        mk_c_extract(alloc, &mut handle, &[], &mut NOWHERE),
        NO_SUCH_SECTION
    );
    mk_c_close(alloc, &mut handle);
    Ok(())
}

#[test]
fn contents_that_do_not_decode_are_refused(rt: HostRuntime) -> Result<(), Fail> {
    let alloc = rt.alloc();
    let mut handle = opened(alloc, b"Content-Transfer-Encoding: base64\n\na\n");
    assert_eq!(rt;
        mk_c_extract(alloc, &mut handle, &[1], &mut NOWHERE),
        BAD_BASE64
    );
    mk_c_start(
        alloc,
        &mut handle,
        b"Content-Transfer-Encoding: z\n\na\n",
        &mut NOWHERE,
    );
    assert_eq!(rt;
        mk_c_extract(alloc, &mut handle, &[1], &mut NOWHERE),
        UNKNOWN_ENCODING
    );
    mk_c_close(alloc, &mut handle);
    Ok(())
}

#[test]
fn an_answer_is_copied_whole(rt: HostRuntime) -> Result<(), Fail> {
    let alloc = rt.alloc();
    let mut handle = opened(alloc, b"A: b\n\nx\n");
    mk_c_text(alloc, &mut handle, &mut NOWHERE);
    let mut bytes = Vec::from_elem(alloc, 7u8, 3)?;
    let status = mk_c_copy(alloc, &mut handle, &mut bytes, &mut NOWHERE);
    assert_eq!(rt; status, BAD_SIZE);
    assert_eq!(rt; bytes.as_slice(), [7, 7, 7].as_slice());
    mk_c_close(alloc, &mut handle);
    Ok(())
}

#[test]
fn a_closed_handle_stays_closed(rt: HostRuntime) -> Result<(), Fail> {
    let alloc = rt.alloc();
    let mut handle = Handle::closed();
    let mut place = NOWHERE;
    assert_eq!(rt;
        mk_c_add_field(alloc, &mut handle, &[1], false, b"C: d\n", &mut place),
        CLOSED
    );
    assert_eq!(rt; mk_c_make(alloc, &mut handle, &mut place), CLOSED);
    assert_eq!(rt; mk_c_undo(alloc, &mut handle, &mut place), CLOSED);
    assert_eq!(rt; mk_c_sections(alloc, &mut handle, &mut place), CLOSED);
    assert_eq!(rt; mk_c_size(alloc, &mut handle), 0usize);
    mk_c_close(alloc, &mut handle);
    mk_c_close(alloc, &mut handle);
    Ok(())
}
