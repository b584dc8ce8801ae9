//! Texts that are cut short or odd: each is listed, and an edit that is taken back leaves it as it was.

use super::devices::{Page, Text};
use mk_run::{Journal, Status, run_edit, run_sections};
use std::alloc::{AllocError, Global};
use std::process::Abort;
use std::test::Fail;

const MESSAGE: &[u8] =
    b"Subject: t\nContent-Type: multipart/mixed; boundary=\"b\"\n\npre\n--b\n\none\n--b \t\nContent-Type: text/html\n\ntwo\n--b--\nepi\n";

const SCRIPT: &[u8] = b"add 1 X: y\nundo\n";

/// How often headers stand in one another.
const DEPTH: usize = 1_000;

/// How many bytes the devices take or give at once.
const SIZE: usize = 4_096;

// Whatever the lines of the script answer, the text comes out again.
fn check_edited(rt: &impl Abort, alloc: Global, text: &[u8]) -> Result<(), Fail> {
    let mut input = Text::new(text, SIZE);
    let mut out = Page::new(alloc, SIZE)?;
    let mut err = Page::new(alloc, SIZE)?;
    let mut none = Page::new(alloc, SIZE)?;
    let (pieces, journal) = (Vec::new(alloc), Journal::Off);
    let status = run_edit(
        alloc, &mut input, &mut out, &mut err, SCRIPT, &pieces, journal, &mut none,
    );
    assert!(rt; status == Status::Well || status == Status::Refused);
    assert!(rt; out.bytes() == text, "of {} bytes", text.len());
    Ok(())
}

fn check_listed(rt: &impl Abort, alloc: Global, text: &[u8]) -> Result<(), Fail> {
    let mut input = Text::new(text, SIZE);
    let mut out = Page::new(alloc, SIZE)?;
    let mut err = Page::new(alloc, SIZE)?;
    let status = run_sections(alloc, &mut input, &mut out, &mut err);
    assert_eq!(rt; status, Status::Well);
    assert!(rt; out.bytes().starts_with(b"1 "), "of {} bytes", text.len());
    Ok(())
}

fn check(rt: &impl Abort, alloc: Global, text: &[u8]) -> Result<(), Fail> {
    check_listed(rt, alloc, text)?;
    check_edited(rt, alloc, text)
}

#[test]
fn a_message_is_cut_short_at_each_byte(rt: HostRuntime) -> Result<(), Fail> {
    let alloc = rt.alloc();
    assert_eq!(rt; MESSAGE.len(), 114);
    for count in 0..MESSAGE.len() {
        check(&rt, alloc, &MESSAGE[..count])?;
    }
    check(&rt, alloc, MESSAGE)
}

// A text that stands many times.
fn repeated(alloc: Global, text: &[u8]) -> Result<Vec<u8>, AllocError> {
    let mut all = Vec::new(alloc);
    for _ in 0..DEPTH {
        all.extend_from_slice(text)?;
    }
    Ok(all)
}

// All bytes in a row.
fn each_byte(alloc: Global) -> Result<Vec<u8>, AllocError> {
    let mut all = Vec::new(alloc);
    for byte in 0..=255u8 {
        all.push(byte)?;
    }
    Ok(all)
}

#[test]
fn odd_texts_come_out_again(rt: HostRuntime) -> Result<(), Fail> {
    let alloc = rt.alloc();
    check(&rt, alloc, &each_byte(alloc)?)?;
    let messages = repeated(alloc, b"Content-Type: message/rfc822\n\n")?;
    check(&rt, alloc, &messages)?;
    let parts = repeated(alloc, b"Content-Type: multipart/mixed; boundary=b\n\n--b\n")?;
    check(&rt, alloc, &parts)?;
    check(&rt, alloc, b"Content-Type: text/plain (a (b\n\nx\n")?;
    check(&rt, alloc, b"Content-Type: text/plain; a=\"b\\\n\nx\n")
}
