//! Growths of memory that are refused to calls on bytes alone: nothing is changed then, and the call gives its answer when
//! it is made again. `checks/refuse` runs each test here with each growth refused in turn.

use mk_splice::{FitError, Journal, JournalError, Splice, copied, fit, print, replace};
use std::alloc::{AllocError, Global};
use std::process::Abort;

/// A text with one step done and one undone.
const TEXT: &[u8] = b"abcd";

const LONG: &[u8] = b"a text that is longer";

const JOURNAL: &[u8] =
    b"mimejournal 2\n88d4266fd4e6338d13b845fcf289579d209c897823b9217da3e161936f031589\n1 1\n1\n1 21 2\na text that is longerbc\n1\n4 0 4\nefgh\n";

// A step of one replacement.
fn step(alloc: Global, place: usize, old: &[u8], new: &[u8]) -> Result<Vec<Splice>, AllocError> {
    let old = Vec::from_slice(alloc, old)?;
    let new = Vec::from_slice(alloc, new)?;
    let mut step = Vec::new(alloc);
    step.push(Splice { place, old, new })?;
    Ok(step)
}

// The step that is done.
fn first(alloc: Global) -> Result<Vec<Splice>, AllocError> {
    step(alloc, 1, LONG, b"bc")
}

// A step has one replacement, which is this.
fn check_step(rt: &impl Abort, step: &[Splice], place: usize, old: &[u8], new: &[u8]) {
    match step {
        [splice] => {
            assert_eq!(rt; splice.place, place);
            assert_eq!(rt; splice.old.as_slice(), old);
            assert_eq!(rt; splice.new.as_slice(), new);
        }
        _ => assert!(rt; false, "one replacement"),
    }
}

// Where a test itself gets no memory, there is nothing to see.

#[test]
fn memory_replace(rt: HostRuntime) {
    let Ok(mut text) = Vec::from_slice(rt.alloc(), TEXT) else {
        return;
    };
    if replace(&mut text, 1, 2, LONG).is_err() {
        assert_eq!(rt; text.as_slice(), TEXT);
        replace(&mut text, 1, 2, LONG).expect(&rt, "memory");
    }
    assert_eq!(rt; text.as_slice(), b"aa text that is longerd".as_slice());
}

#[test]
fn memory_copied(rt: HostRuntime) {
    let bytes = match copied(rt.alloc(), TEXT, 1, 2) {
        Ok(bytes) => bytes,
        Err(_) => copied(rt.alloc(), TEXT, 1, 2).expect(&rt, "memory"),
    };
    assert_eq!(rt; bytes.as_slice(), b"bc".as_slice());
}

#[test]
fn memory_fit(rt: HostRuntime) {
    let (Ok(first), Ok(second)) = (first(rt.alloc()), step(rt.alloc(), 4, b"", b"efgh")) else {
        return;
    };
    let steps = [first, second];
    let found = match fit(rt.alloc(), TEXT, &steps, 1) {
        Err(FitError::Memory) => fit(rt.alloc(), TEXT, &steps, 1),
        found => found,
    };
    assert_eq!(rt; found, Ok(()));
}

#[test]
fn memory_misfit(rt: HostRuntime) {
    let (Ok(first), Ok(second)) = (first(rt.alloc()), step(rt.alloc(), 3, b"x", b"")) else {
        return;
    };
    let steps = [first, second];
    let found = match fit(rt.alloc(), TEXT, &steps, 1) {
        Err(FitError::Memory) => fit(rt.alloc(), TEXT, &steps, 1),
        found => found,
    };
    assert_eq!(rt; found, Err(FitError::Misfit { step: 2 }));
}

#[test]
fn memory_print(rt: HostRuntime) {
    let (Ok(first), Ok(second)) = (first(rt.alloc()), step(rt.alloc(), 4, b"", b"efgh")) else {
        return;
    };
    let steps = [first, second];
    let journal = match print(rt.alloc(), TEXT, &steps, 1) {
        Ok(journal) => journal,
        Err(_) => print(rt.alloc(), TEXT, &steps, 1).expect(&rt, "memory"),
    };
    assert_eq!(rt; journal.as_slice(), JOURNAL);
}

#[test]
fn memory_parse(rt: HostRuntime) {
    let journal = match Journal::parse(rt.alloc(), JOURNAL) {
        Err(JournalError::Memory) => Journal::parse(rt.alloc(), JOURNAL),
        journal => journal,
    };
    let journal = journal.expect(&rt, "a journal");
    assert!(rt; journal.digest.is_some() && journal.is_of(TEXT));
    assert_eq!(rt; journal.done, 1);
    match journal.steps.as_slice() {
        [first, second] => {
            check_step(&rt, first, 1, LONG, b"bc");
            check_step(&rt, second, 4, b"", b"efgh");
        }
        _ => assert!(rt; false, "two steps"),
    }
}
