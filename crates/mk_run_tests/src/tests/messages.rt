//! The messages of a mailbox, listed and picked, over devices in memory.

use super::devices::{Page, Text};
use super::filtered::MAILBOX;
use super::memory::page;
use mk_mail::{FromLines, Source};
use mk_messages::{InMemory, pick, report_missing, try_messages};
use mk_run::{Cause, Stop, read_all};
use std::alloc::Global;
use std::process::Abort;
use std::test::Fail;

const LINES: &[u8] = b"1 0 16 1\n2 16 39 1\n3 39 52 1\n";

const SECOND: &[u8] = b"From b\nA: 2\n\ny\nFrom z\n\n";

const SIZE: usize = 1_000;

#[test]
fn messages_are_listed(rt: HostRuntime) -> Result<(), Fail> {
    for size in [1, 7, SIZE] {
        let mut out = Page::new(rt.alloc(), size)?;
        let mut input = Text::new(MAILBOX, size);
        let done = try_messages(rt.alloc(), &mut input, &mut out, FromLines::Any);
        assert!(rt; done.is_ok());
        assert_eq!(rt; out.bytes(), LINES);
        assert_eq!(rt; out.finishes(), 1);
    }
    Ok(())
}

// A line goes out as soon as the From-line after its message is read.
#[test]
fn lines_go_out_one_by_one(rt: HostRuntime) -> Result<(), Fail> {
    let mut out = Page::new(rt.alloc(), SIZE)?;
    let mut input = Text::failing(MAILBOX, 1, 30);
    let done = try_messages(rt.alloc(), &mut input, &mut out, FromLines::Any);
    assert_eq!(rt; done, Err(Cause::Read));
    assert_eq!(rt; out.bytes(), b"1 0 16 1\n".as_slice());
    Ok(())
}

// Nothing is read once the line that begins the next message is known.
#[test]
fn a_message_is_picked(rt: HostRuntime) {
    let mut input = Text::new(MAILBOX, 1);
    match pick(rt.alloc(), &mut input, FromLines::Any, 2) {
        Ok(Some(message)) => assert_eq!(rt; message.as_slice(), SECOND),
        _ => assert!(rt; false, "no message"),
    }
    assert_eq!(rt; input.reads(), 46);
}

#[test]
fn a_number_is_missing(rt: HostRuntime) -> Result<(), Fail> {
    let alloc = rt.alloc();
    let mut input = Text::new(MAILBOX, SIZE);
    assert!(rt; matches!(pick(alloc, &mut input, FromLines::Any, 4), Ok(None)));
    let mut err = Page::new(alloc, 1)?;
    assert!(rt; report_missing(alloc, &mut err, 4).is_ok());
    assert_eq!(rt; err.bytes(), b"message 4: NoSuchMessage\n".as_slice());
    Ok(())
}

#[test]
fn a_failed_source_gives_no_message(rt: HostRuntime) {
    let mut input = Text::failing(MAILBOX, 7, 3);
    assert!(rt;
        matches!(
            pick(rt.alloc(), &mut input, FromLines::Any, 2),
            Err(Stop::Fault)
        )
    );
}

#[test]
fn a_slice_is_read_whole(rt: HostRuntime) {
    match read_all(rt.alloc(), &mut InMemory::new(SECOND)) {
        Ok(text) => assert_eq!(rt; text.as_slice(), SECOND),
        Err(_) => assert!(rt; false, "it failed"),
    }
}

// What a device says of the bytes that are left makes room, and nothing else.
#[test]
fn a_size_that_is_told_changes_nothing(rt: HostRuntime) {
    let size = SECOND.len();
    for told in [0, 1, size - 1, size, size + 1, 100_000, usize::MAX] {
        for step in [1, 7, SIZE] {
            let mut input = Text::new(SECOND, step).telling(Some(told));
            match read_all(rt.alloc(), &mut input) {
                Ok(text) => assert_eq!(rt; text.as_slice(), SECOND),
                Err(_) => assert!(rt; false, "it failed"),
            }
        }
    }
}

#[test]
fn memory_for_messages(rt: HostRuntime) {
    let alloc = rt.alloc();
    let Ok(out) = Page::new(alloc, SIZE) else {
        return;
    };
    if check_listing(&rt, alloc, out).is_err() {
        assert!(rt; check_listing(&rt, alloc, page(&rt, alloc)).is_ok());
    }
}

// All lines went out, or memory ran out and the first of them did.
fn check_listing(rt: &impl Abort, alloc: Global, mut out: Page) -> Result<(), Cause> {
    let mut input = Text::new(MAILBOX, SIZE);
    let done = try_messages(alloc, &mut input, &mut out, FromLines::Any);
    match done {
        Ok(()) => assert_eq!(rt; out.bytes(), LINES),
        Err(cause) => {
            assert_eq!(rt; cause, Cause::Memory);
            assert!(rt; LINES.starts_with(out.bytes()));
        }
    }
    done
}

#[test]
fn memory_for_a_picked_message(rt: HostRuntime) {
    let alloc = rt.alloc();
    match pick(alloc, &mut Text::new(MAILBOX, SIZE), FromLines::Any, 2) {
        Ok(message) => assert!(rt; message.is_some()),
        Err(stop) => assert_eq!(rt; stop, Stop::Memory),
    }
}

#[test]
fn memory_for_a_missing_number(rt: HostRuntime) {
    let alloc = rt.alloc();
    let Ok(mut err) = Page::new(alloc, SIZE) else {
        return;
    };
    if let Err(stop) = report_missing(alloc, &mut err, 4) {
        assert_eq!(rt; stop, Stop::Memory);
        assert!(rt; report_missing(alloc, &mut err, 4).is_ok());
    }
}
