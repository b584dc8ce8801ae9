//! Mailboxes, in one piece and in several. Expected values are worked out by hand.
use super::{NOWHERE, OK, answer};
use crate::{Handle, mk_c_close, mk_c_fits, mk_c_mailbox, mk_c_next};
use std::alloc::Global;
use std::test::Fail;

const NO_MESSAGE: u32 = 7;

const NEEDS_MORE: u32 = 8;

const ANY: u32 = 0;

const DATED: u32 = 1;

const FIELDED: u32 = 2;

// Two messages, the first 15 bytes long.
const BOX: &[u8] = b"From a\nA: 1\n\nx\n\nFrom b\nA: 2\n\ny\n";

const FIRST: &[u8] = b"From a\nA: 1\n\nx\n\n";

const SECOND: &[u8] = b"From b\nA: 2\n\ny\n";

fn opened(alloc: Global, from_lines: u32) -> Handle {
    let mut handle = Handle::closed();
    mk_c_mailbox(alloc, &mut handle, from_lines, &mut NOWHERE);
    handle
}

#[test]
fn a_mailbox_is_cut(rt: HostRuntime) -> Result<(), Fail> {
    let alloc = rt.alloc();
    let mut handle = opened(alloc, ANY);
    let mut used = 9;
    let status = mk_c_next(alloc, &mut handle, BOX, true, &mut used, &mut NOWHERE);
    assert_eq!(rt; status, OK);
    assert_eq!(rt; used, 31usize);
    let first = answer(alloc, &mut handle)?;
    assert_eq!(rt; first.as_slice(), FIRST);
    let status = mk_c_next(alloc, &mut handle, b"", true, &mut used, &mut NOWHERE);
    assert_eq!(rt; status, OK);
    assert_eq!(rt; used, 0usize);
    let second = answer(alloc, &mut handle)?;
    assert_eq!(rt; second.as_slice(), SECOND);
    let status = mk_c_next(alloc, &mut handle, b"", true, &mut used, &mut NOWHERE);
    assert_eq!(rt; status, NO_MESSAGE);
    mk_c_close(alloc, &mut handle);
    Ok(())
}

#[test]
fn a_mailbox_comes_in_pieces(rt: HostRuntime) -> Result<(), Fail> {
    let alloc = rt.alloc();
    let mut handle = opened(alloc, ANY);
    let mut used = 9;
    let (front, rest) = BOX.split_at(20);
    let status = mk_c_next(alloc, &mut handle, front, false, &mut used, &mut NOWHERE);
    assert_eq!(rt; status, NEEDS_MORE);
    assert_eq!(rt; used, 20usize);
    let status = mk_c_next(alloc, &mut handle, rest, false, &mut used, &mut NOWHERE);
    assert_eq!(rt; status, OK);
    let first = answer(alloc, &mut handle)?;
    assert_eq!(rt; first.as_slice(), FIRST);
    let status = mk_c_next(alloc, &mut handle, b"", false, &mut used, &mut NOWHERE);
    assert_eq!(rt; status, NEEDS_MORE);
    let status = mk_c_next(alloc, &mut handle, b"", true, &mut used, &mut NOWHERE);
    assert_eq!(rt; status, OK);
    let second = answer(alloc, &mut handle)?;
    assert_eq!(rt; second.as_slice(), SECOND);
    mk_c_close(alloc, &mut handle);
    Ok(())
}

#[test]
fn a_mailbox_is_cut_where_it_is_asked(rt: HostRuntime) -> Result<(), Fail> {
    let alloc = rt.alloc();
    let mut used = 9;
    let mut dated = opened(alloc, DATED);
    mk_c_next(alloc, &mut dated, BOX, true, &mut used, &mut NOWHERE);
    let whole = answer(alloc, &mut dated)?;
    assert_eq!(rt; whole.as_slice(), BOX);
    mk_c_close(alloc, &mut dated);
    let mut fielded = opened(alloc, FIELDED);
    mk_c_next(alloc, &mut fielded, BOX, true, &mut used, &mut NOWHERE);
    let first = answer(alloc, &mut fielded)?;
    assert_eq!(rt; first.as_slice(), FIRST);
    mk_c_close(alloc, &mut fielded);
    Ok(())
}

#[test]
fn a_text_fits_a_place(rt: HostRuntime) {
    assert!(rt; mk_c_fits(ANY, FIRST, b"From c\nB: 1\n\n\n"));
    // Its last line isn't empty.
    assert!(rt; !mk_c_fits(ANY, FIRST, b"From c\nB: 1\n\nx\n"));
    // No From-line is at its start.
    assert!(rt; !mk_c_fits(ANY, FIRST, b"B: 1\n\nx\n\n"));
    // It would be two messages.
    assert!(rt; !mk_c_fits(ANY, SECOND, BOX));
    assert!(rt; mk_c_fits(DATED, SECOND, BOX));
}

#[test]
fn a_closed_mailbox_reads_nothing(rt: HostRuntime) {
    let alloc = rt.alloc();
    let mut handle = Handle::closed();
    let mut used = 9;
    let status = mk_c_next(alloc, &mut handle, BOX, true, &mut used, &mut NOWHERE);
    assert_eq!(rt; status, super::CLOSED);
    assert_eq!(rt; used, 0usize);
    mk_c_close(alloc, &mut handle);
}
