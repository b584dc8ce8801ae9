//! A mailbox filtered, in reads of several sizes. Expected values are worked out by hand.
ghost use Rattle.std.specs.Prelude.{◌<◌, Some};

use crate::tag_each;
use mk_mailbox::{Fault, MailFault, Source};
use std::alloc::Global;
use std::test::Fail;

// A source that gives a text, so many bytes at once, and fails once where it is asked to.
#[derive(Drop)]
struct Bytes<'a> {
    rest: &'a [u8],
    size: usize,
    fails: bool,
    reads: u64,
    faults: u64,
    ghost some: { 0 < size },
}

impl<'a> Bytes<'a> {
    fn new(text: &'a [u8], size: usize, fails: bool) -> Bytes<'a> {
        Bytes {
            rest: text,
            size: size.max(1),
            fails,
            reads: 0,
            faults: 0,
        }
    }
}

impl Source for Bytes<'_> {
    ghost remaining = { λ s. Some s.rest.now };

    ghost failures = { λ s. s.faults };

    ghost read_count = { λ s. s.reads };

    fn read(&mut self, piece: &mut [u8]) -> Result<usize, Fault> {
        self.reads = self.reads.saturating_add(1);
        if self.fails {
            self.faults = self.faults.saturating_add(1);
            return Err(Fault);
        }
        let count = self.size.min(piece.len()).min(self.rest.len());
        piece[..count].copy_from_slice(&self.rest[..count]);
        self.rest = &self.rest[count..];
        Ok(count)
    }

    fn faults(&self) -> u64 {
        self.faults
    }

    fn reads(&self) -> u64 {
        self.reads
    }
}

const BOX: &[u8] = b"From a\nA: 1\n\nx\n\nFrom b\r\nA: 2\r\n\r\ny\r\n";

fn tagged(alloc: Global, mailbox: &[u8], size: usize, field: &[u8]) -> Result<Vec<u8>, MailFault> {
    tag_each(alloc, &mut Bytes::new(mailbox, size, false), field)
}

#[test]
fn each_message_is_tagged(rt: HostRuntime) -> Result<(), Fail> {
    let alloc = rt.alloc();
    let wanted = b"From a\nA: 1\nT: y\n\nx\n\nFrom b\r\nA: 2\r\nT: y\n\r\ny\r\n";
    for size in [1, 7, 100] {
        let out = tagged(alloc, BOX, size, b"T: y\n")?;
        assert_eq!(rt; out.as_slice(), wanted.as_slice());
    }
    Ok(())
}

#[test]
fn a_refused_message_stays(rt: HostRuntime) -> Result<(), Fail> {
    let alloc = rt.alloc();
    let out = tagged(alloc, BOX, 5, b"no field\n")?;
    assert_eq!(rt; out.as_slice(), BOX);
    let none = tagged(alloc, b"", 5, b"T: y\n")?;
    assert_eq!(rt; none.as_slice(), b"".as_slice());
    Ok(())
}

#[test]
fn a_failed_read_is_told(rt: HostRuntime) -> Result<(), Fail> {
    let alloc = rt.alloc();
    let failed = tag_each(alloc, &mut Bytes::new(BOX, 5, true), b"T: y\n").err();
    assert_eq!(rt; failed, Some(MailFault::ReadFault));
    Ok(())
}
