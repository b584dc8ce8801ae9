//! Runs of the program through the words of its command line. The expected bytes are worked out by hand.

mod checks;
mod commands;
mod devices;
mod directory;
mod each;
mod examples;
mod explained;
mod faults;
mod field_steps;
mod files;
mod forwarded;
mod in_place;
mod journals;
mod letters;
mod locks;
mod mailboxes;
mod prepends;
mod replies;
mod section_fields;
mod seen;
mod several;
mod split;
mod steps;
mod stored;
mod tips;
mod types;
mod usage;

use crate::program::obey;
use devices::Page;
use mk_rows::{Row, rows};
use mk_run::Status;
use mk_system::Input;
use std::alloc::{AllocError, Global};
use std::fs;
use std::fs::File;
use std::process::Abort;
use std::rt::{Clock, Files};
use std::test::Fail;

/// What a run left.
#[derive(Drop)]
pub struct Outcome {
    pub status: Status,
    /// The exit status.
    pub code: u8,
    pub output: Page,
    pub errors: Page,
}

/// Runs the program on these words and this message.
pub fn obeyed<R: Files<File = File> + Clock + AllocGlobal>(
    rt: &R,
    words: &[&str],
    message: &[u8],
) -> Result<Outcome, Fail> {
    let alloc = rt.alloc();
    let mut list = Vec::new(alloc);
    list.push("mimetool".to_string(alloc)?)?;
    for word in words {
        list.push(word.to_string(alloc)?)?;
    }
    let mut input = Input::new(message);
    let mut output = Page::new(alloc);
    let mut errors = Page::new(alloc);
    let ending = obey(rt, &list, &mut input, &mut output, &mut errors);
    Ok(Outcome {
        status: ending.status,
        code: ending.code(),
        output,
        errors,
    })
}

/// The words of a command line, which are written with `|` between two.
pub fn words_in(alloc: Global, text: &'static str) -> Result<Vec<&'static str>, AllocError> {
    let mut words = Vec::new(alloc);
    for word in text.split('|') {
        words.push(word)?;
    }
    Ok(words)
}

/// The words of a row of `field`, after an option and a file.
pub fn field_words<'a>(
    alloc: Global,
    option: &'a str,
    path: &'a str,
    row: &Row,
) -> Result<Vec<&'a str>, AllocError> {
    let mut words = Vec::from_slice(alloc, &["field", option, path])?;
    for word in words_in(alloc, row.text("words"))?.iter().skip(1) {
        words.push(*word)?;
    }
    Ok(words)
}

/// Runs the program as each row of a table says, and compares what it leaves. A row has words, a message, and what must
/// come out.
pub fn check_rows<R: Files<File = File> + Clock + AllocGlobal + Abort>(
    rt: &R,
    table: &'static str,
) -> Result<(), Fail> {
    for row in &rows(rt.alloc(), table)? {
        check_row(rt, row)?;
    }
    Ok(())
}

fn check_row<R: Files<File = File> + Clock + AllocGlobal + Abort>(
    rt: &R,
    row: &Row,
) -> Result<(), Fail> {
    let alloc = rt.alloc();
    let words = words_in(alloc, row.text("words"))?;
    let found = obeyed(rt, &words, row.bytes("message"))?;
    let status = found.status;
    let status = format!(in alloc; "{status:?}")?;
    assert_eq!(rt; status.as_str(), row.text("status"), "{}", row.shows);
    assert_eq!(rt; found.output.bytes(), row.bytes("output"), "{}", row.shows);
    assert_eq!(rt; found.errors.bytes(), row.bytes("errors"), "{}", row.shows);
    Ok(())
}

/// Runs the program on each command line of a table: it refuses it as a usage fault, says why, beginning as the row says,
/// and prints nothing else. A row without words is the program alone.
pub fn check_refused<R: Files<File = File> + Clock + AllocGlobal + Abort>(
    rt: &R,
    table: &'static str,
) -> Result<(), Fail> {
    let alloc = rt.alloc();
    for row in &rows(alloc, table)? {
        if row.get("words").is_none() {
            check_usage(rt, row, &[])?;
        }
        for cell in &row.cells {
            if cell.key == "words" {
                check_usage(rt, row, &words_in(alloc, cell.text)?)?;
            }
        }
    }
    Ok(())
}

fn check_usage<R: Files<File = File> + Clock + AllocGlobal + Abort>(
    rt: &R,
    row: &Row,
    words: &[&str],
) -> Result<(), Fail> {
    let found = obeyed(rt, words, b"A: b\n\nx\n")?;
    assert_eq!(rt; found.status, Status::Usage, "{words:?}");
    assert!(rt; found.output.bytes().is_empty(), "{words:?}");
    assert!(rt; !found.errors.bytes().is_empty(), "{words:?}");
    assert!(rt;
        found.errors.bytes().starts_with(row.bytes("begins")),
        "{words:?}"
    );
    Ok(())
}

/// Compares what a run left.
pub fn same(rt: &impl Abort, found: &Outcome, output: &[u8], errors: &[u8], status: Status) {
    assert_eq!(rt; found.status, status);
    assert_eq!(rt; found.output.bytes(), output);
    assert_eq!(rt; found.errors.bytes(), errors);
}

/// Runs the program on these words and this message, and compares what it leaves.
pub fn gives<R: Files<File = File> + Clock + AllocGlobal + Abort>(
    rt: &R,
    words: &[&str],
    message: &[u8],
    output: &[u8],
    errors: &[u8],
    status: Status,
) -> Result<(), Fail> {
    let found = obeyed(rt, words, message)?;
    same(rt, &found, output, errors, status);
    Ok(())
}

/// The same where the run ends well, and without errors.
pub fn prints<R: Files<File = File> + Clock + AllocGlobal + Abort>(
    rt: &R,
    words: &[&str],
    message: &[u8],
    output: &[u8],
) -> Result<(), Fail> {
    gives(rt, words, message, output, b"", Status::Well)
}

/// A file holds this text.
pub fn holds<R: Files<File = File> + AllocGlobal + Abort>(
    rt: &R,
    file: &str,
    text: &str,
) -> Result<(), Fail> {
    assert_eq!(rt; fs::read_to_string(rt, file)?.as_str(), text);
    Ok(())
}

/// A folder has as many entries as expected: no run left a file of its own.
pub fn check_entries<R: Files + AllocGlobal + Abort + Clone + Drop>(
    rt: &R,
    folder: &str,
    expected: usize,
) -> Result<(), Fail> {
    let mut entries = 0usize;
    for entry in fs::read_dir(rt, folder)? {
        entry?;
        entries = entries.saturating_add(1);
    }
    assert_eq!(rt; entries, expected);
    Ok(())
}
