//! Mailboxes, read in pieces of every size and with a failure at every read.
ghost use Rattle.std.specs.Prelude.{◌≡◌, ◌<◌, Some};

use mk_mail::{Fault, MailFault, Mailbox, Source};
use mk_rows::{Row, rows};
use std::alloc::Global;
use std::process::Abort;
use std::test::Fail;

const THREE: &[u8] = b"From a\nA: 1\n\nx\n\nFrom b\nA: 2\n\ny\nFrom z\n\nFrom c\nA: 3\n\n";

/// A mailbox and its messages.
const MAILBOXES: &str = r#"
== three messages, and a line that only looks like a From-line
mailbox: From a\nA: 1\n\nx\n\nFrom b\nA: 2\n\ny\nFrom z\n\nFrom c\nA: 3\n\n
message: From a\nA: 1\n\nx\n\n
message: From b\nA: 2\n\ny\nFrom z\n\n
message: From c\nA: 3\n\n

== nothing
mailbox:

== the first message needs no From-line
mailbox: A: 1\n\nFrom b\n\n
message: A: 1\n\n
message: From b\n\n

== an empty line, and a message
mailbox: \nFrom b\n
message: \n
message: From b\n

== three empty lines, and a message
mailbox: \n\n\nFrom b\n
message: \n\n\n
message: From b\n

== lines that end in CR LF
mailbox: From a\r\n\r\nFrom b\r\n\r\n
message: From a\r\n\r\n
message: From b\r\n\r\n

== an open line begins a message too
mailbox: A: 1\n\nFrom x
message: A: 1\n\n
message: From x

== an open line that is too short
mailbox: A: 1\n\nFrom
message: A: 1\n\nFrom

== a line of blanks isn't empty
mailbox: a\n \nFrom b\n
message: a\n \nFrom b\n

== a line of a carriage return isn't empty
mailbox: a\n\r\r\nFrom b\n
message: a\n\r\r\nFrom b\n

== a field of this name isn't a From-line
mailbox: a\n\nFrom : b\n
message: a\n\nFrom : b\n

== messages of one line and an empty one
mailbox: From a\n\nFrom b\n\nFrom c\n\n
message: From a\n\n
message: From b\n\n
message: From c\n\n
"#;

/// The same of three messages, which are read with failures.
const THREES: &str = r#"
== three messages, and a line that only looks like a From-line
mailbox: From a\nA: 1\n\nx\n\nFrom b\nA: 2\n\ny\nFrom z\n\nFrom c\nA: 3\n\n
message: From a\nA: 1\n\nx\n\n
message: From b\nA: 2\n\ny\nFrom z\n\n
message: From c\nA: 3\n\n
"#;

// A source that gives a text, this many bytes at once. The read of one number, counted from 0, fails, and those after it
// go on.
#[derive(Drop)]
pub struct Bytes<'a> {
    rest: &'a [u8],
    size: usize,
    failing: u64,
    reads: u64,
    faults: u64,
    ghost some: { 0 < size },
}

impl<'a> Bytes<'a> {
    pub fn new(text: &'a [u8], size: usize) -> Bytes<'a> {
        Bytes::failing(text, size, u64::MAX)
    }

    fn failing(text: &'a [u8], size: usize, failing: u64) -> Bytes<'a> {
        Bytes {
            rest: text,
            size: size.max(1),
            failing,
            reads: 0,
            faults: 0,
        }
    }
}

impl Source for Bytes<'_> {
    ghost remaining = { λ s. Some s.rest.now };

    ghost failures = { λ s. s.faults };

    ghost read_count = { λ s. s.reads };

    fn read(&mut self, piece: &mut [u8]) -> Result<usize, Fault> {
        let read = self.reads;
        self.reads = read.saturating_add(1);
        if read == self.failing {
            self.faults = self.faults.saturating_add(1);
            return Err(Fault);
        }
        let count = self.size.min(piece.len()).min(self.rest.len());
        piece[..count].copy_from_slice(&self.rest[..count]);
        self.rest = &self.rest[count..];
        Ok(count)
    }

    fn faults(&self) -> u64 {
        self.faults
    }

    fn reads(&self) -> u64 {
        self.reads
    }
}

// Whether a mailbox gives the messages of a row, and then none twice. An error is met at most once.
fn gives(alloc: Global, source: &mut Bytes<'_>, row: &Row) -> bool {
    let mut mailbox = Mailbox::new(alloc);
    for cell in &row.cells {
        if cell.key == "message" && !gives_next(&mut mailbox, source, &cell.bytes) {
            return false;
        }
    }
    is_over(&mut mailbox, source) && is_over(&mut mailbox, source)
}

fn gives_next(mailbox: &mut Mailbox, source: &mut Bytes<'_>, message: &[u8]) -> bool {
    match next(mailbox, source) {
        Ok(Some(piece)) => piece.as_slice() == message,
        _ => false,
    }
}

// What a call answers, or the one after it where it met an error.
fn next(mailbox: &mut Mailbox, source: &mut Bytes<'_>) -> Result<Option<Vec<u8>>, MailFault> {
    match mailbox.next(source) {
        Err(_) => mailbox.next(source),
        answer => answer,
    }
}

fn is_over(mailbox: &mut Mailbox, source: &mut Bytes<'_>) -> bool {
    matches!(next(mailbox, source), Ok(None))
}

// Reads the mailbox of a row in pieces of each size.
fn check_sizes(rt: &impl Abort, alloc: Global, row: &Row) {
    let text = row.bytes("mailbox");
    for size in 1..=text.len().saturating_add(1) {
        let mut source = Bytes::new(text, size);
        assert!(rt; gives(alloc, &mut source, row), "{} by {size}", row.shows);
    }
}

#[test]
fn a_mailbox_is_cut_however_it_is_read(rt: HostRuntime) -> Result<(), Fail> {
    for row in &rows(rt.alloc(), MAILBOXES)? {
        check_sizes(&rt, rt.alloc(), row);
    }
    Ok(())
}

// Reads the mailbox of a row with a failure at each read.
fn check_failures(rt: &impl Abort, alloc: Global, row: &Row, size: usize) {
    for failing in 0..58 {
        let mut source = Bytes::failing(row.bytes("mailbox"), size, failing);
        assert!(rt; gives(alloc, &mut source, row), "{size}, {failing}");
    }
}

#[test]
fn nothing_is_lost_after_a_failure(rt: HostRuntime) -> Result<(), Fail> {
    for row in &rows(rt.alloc(), THREES)? {
        for size in [1, 4, 15, 100] {
            check_failures(&rt, rt.alloc(), row, size);
        }
    }
    Ok(())
}

#[test]
fn a_failure_is_answered_once(rt: HostRuntime) {
    let mut source = Bytes::failing(THREE, 7, 2);
    let mut mailbox = Mailbox::new(rt.alloc());
    assert!(rt; matches!(mailbox.next(&mut source), Err(MailFault::ReadFault)));
    assert_eq!(rt; source.reads(), 3);
    assert_eq!(rt; source.faults(), 1);
    match mailbox.next(&mut source) {
        Ok(Some(piece)) => assert_eq!(rt; piece.as_slice(), b"From a\nA: 1\n\nx\n\n".as_slice()),
        _ => assert!(rt; false, "no message"),
    }
}

// No more is read than is needed to know where the first message ends.
#[test]
fn the_rest_isnt_read_ahead(rt: HostRuntime) {
    let mut source = Bytes::new(THREE, 1);
    let mut mailbox = Mailbox::new(rt.alloc());
    assert!(rt; matches!(mailbox.next(&mut source), Ok(Some(_))));
    assert_eq!(rt; source.reads(), 23);
}

// A message that the next From-line ends is known to be whole. The last one isn't, since only the end of the input ends it.
#[test]
fn what_was_read_tells_which_messages_are_whole(rt: HostRuntime) -> Result<(), Fail> {
    let mut source = Bytes::new(THREE, usize::MAX);
    let mut mailbox = Mailbox::new(rt.alloc());
    assert!(rt; mailbox.next_known()?.is_none());
    assert!(rt; gives_next(&mut mailbox, &mut source, b"From a\nA: 1\n\nx\n\n"));
    let Some(known) = mailbox.next_known()? else {
        return Err(Fail::new("no message is known"));
    };
    assert_eq!(rt;
        known.as_slice(),
        b"From b\nA: 2\n\ny\nFrom z\n\n".as_slice()
    );
    assert!(rt; mailbox.next_known()?.is_none());
    assert_eq!(rt; source.reads(), 1);
    assert!(rt; gives_next(&mut mailbox, &mut source, b"From c\nA: 3\n\n"));
    assert!(rt; mailbox.next_known()?.is_none());
    assert!(rt; is_over(&mut mailbox, &mut source));
    Ok(())
}

// A line, and a message, that take more than one chunk.
#[test]
fn messages_larger_than_a_chunk(rt: HostRuntime) -> Result<(), Fail> {
    let mut text = vec![in rt.alloc(); b'a'; 200_000]?;
    text.extend_from_slice(b"\n\nFrom b\n\n")?;
    let mut source = Bytes::new(&text, usize::MAX);
    let mut mailbox = Mailbox::new(rt.alloc());
    match mailbox.next(&mut source) {
        Ok(Some(piece)) => assert_eq!(rt; piece.len(), 200_002),
        _ => assert!(rt; false, "no message"),
    }
    match mailbox.next(&mut source) {
        Ok(Some(piece)) => assert_eq!(rt; piece.as_slice(), b"From b\n\n".as_slice()),
        _ => assert!(rt; false, "no message"),
    }
    assert!(rt; is_over(&mut mailbox, &mut source));
    Ok(())
}

// A growth that is refused is an error, after which the same call gives the message.
#[test]
fn memory_next(rt: HostRuntime) {
    // Where the test itself gets no memory, there is nothing to see.
    let Ok(all) = rows(rt.alloc(), THREES) else {
        return;
    };
    for row in &all {
        let mut source = Bytes::new(row.bytes("mailbox"), 7);
        assert!(rt; gives(rt.alloc(), &mut source, row));
    }
}

// The same of a message that is known to be whole.
#[test]
fn memory_next_known(rt: HostRuntime) {
    let mut source = Bytes::new(THREE, usize::MAX);
    let mut mailbox = Mailbox::new(rt.alloc());
    assert!(rt; gives_next(&mut mailbox, &mut source, b"From a\nA: 1\n\nx\n\n"));
    let known = match mailbox.next_known() {
        Err(_) => mailbox.next_known(),
        answer => answer,
    };
    match known {
        Ok(Some(piece)) => assert_eq!(rt;
            piece.as_slice(),
            b"From b\nA: 2\n\ny\nFrom z\n\n".as_slice()
        ),
        _ => assert!(rt; false, "no message"),
    }
}
