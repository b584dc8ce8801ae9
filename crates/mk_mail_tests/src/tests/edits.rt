//! The edits that letters lead to.
use super::calls::{Call, check, read, same};
use super::letters::{edits_of, letters_in, no_letters};
use mk_edit::Edit;
use mk_mail::{Letters, field_edits, field_edits_at};
use mk_rows::{Row, rows};
use std::alloc::{AllocError, Global};
use std::process::Abort;
use std::test::Fail;

/// Letters on a message, and their edits in the order in which they are made.
const EDITS: &str = r#"
== two fields get a prefix, and a field gets their name
prefixed: Subject: x
message: Subject: a\nSubject: b\n\n
gives: rename [1] Subject 1 Old-Subject|rename [1] Subject 1 Old-Subject|add [1] end Subject: x\n|

== fields are named as the letter names them
prefixed: SUBJECT:
message: subject: a\n\n
gives: rename [1] SUBJECT 1 Old-subject|

== each field of a name by its number
rename: a
to: A
message: A: 1\na: 2\nA: 3\n\n
gives: rename [1] a 1 A|rename [1] a 2 A|rename [1] a 3 A|

== the second field goes, and then the next one
first: A
message: A: 1\na: 2\nA: 3\n\n
gives: remove [1] A 2|remove [1] A 2|
"#;

// An edit of a field as a line: the word for it, the path, the name and the number, and the new name or the text.
fn line_of(alloc: Global, edit: &Edit) -> Result<String, AllocError> {
    match edit {
        Edit::RenameField { path, name, k, to } => {
            let name = String::from_utf8_lossy(alloc, name)?;
            let to = String::from_utf8_lossy(alloc, to)?;
            Ok(format!(in alloc; "rename {path:?} {name} {k} {to}")?)
        }
        Edit::RemoveField { path, name, k } => {
            let name = String::from_utf8_lossy(alloc, name)?;
            Ok(format!(in alloc; "remove {path:?} {name} {k}")?)
        }
        Edit::AddField { path, top, text } => {
            let text = String::from_utf8_lossy(alloc, text)?;
            let place = if *top { "top" } else { "end" };
            Ok(format!(in alloc; "add {path:?} {place} {text}")?)
        }
        other => Ok(format!(in alloc; "{other:?}")?),
    }
}

/// The edits of the letters of a row, as lines.
pub fn lines(alloc: Global, row: &Row) -> Result<Vec<u8>, Fail> {
    let letters = letters_in(alloc, row)?;
    lines_of(alloc, row.bytes("message"), &letters)
}

// The edits of letters of a message, as lines.
fn lines_of(alloc: Global, message: &[u8], letters: &Letters) -> Result<Vec<u8>, Fail> {
    let doc = read(alloc, message)?;
    let edits = edits_of(alloc, &doc, letters)?;
    let mut found = Vec::new(alloc);
    for edit in &edits {
        push_line(alloc, &mut found, edit)?;
    }
    Ok(found)
}

// The line of an edit after others.
fn push_line(alloc: Global, found: &mut Vec<u8>, edit: &Edit) -> Result<(), Fail> {
    found.extend_from_slice(line_of(alloc, edit)?.as_bytes())?;
    found.push(b'|')?;
    Ok(())
}

#[test]
fn edits_in_their_order(rt: HostRuntime) -> Result<(), Fail> {
    check(&rt, rt.alloc(), Call::Edits, EDITS)
}

// As many edits as fields, found in one pass.
#[test]
fn many_fields_of_a_name(rt: HostRuntime) -> Result<(), Fail> {
    let alloc = rt.alloc();
    let text = many_fields(alloc)?;
    let mut letters = no_letters(alloc);
    letters.only = Some(Vec::from_slice(alloc, b"A: 9")?);
    check_many(&rt, alloc, &text, &letters)
}

// A text of 20,000 fields of one name.
fn many_fields(alloc: Global) -> Result<Vec<u8>, AllocError> {
    let mut text = Vec::new(alloc);
    for _ in 0..20_000 {
        text.extend_from_slice(b"A: 1\n")?;
    }
    Ok(text)
}

fn check_many(rt: &impl Abort, alloc: Global, text: &[u8], letters: &Letters) -> Result<(), Fail> {
    let doc = read(alloc, text)?;
    let edits = edits_of(alloc, &doc, letters)?;
    assert_eq!(rt; edits.len(), 20_001);
    check_line(rt, alloc, &edits[19_999], b"remove [1] A 1")?;
    check_line(rt, alloc, &edits[20_000], b"add [1] end A: 9\n")
}

fn check_line(rt: &impl Abort, alloc: Global, edit: &Edit, line: &[u8]) -> Result<(), Fail> {
    let found = line_of(alloc, edit)?;
    same(rt, found.as_bytes(), line, "the last edits");
    Ok(())
}

/// A message with letters that have six edits.
const SIX_EDITS: &str = r"
== fields of two names
message: A: 1\nB: 2\nA: 3\n\n
rename: B
to: C
add if: D: 1
prefixed: A: 9
first: Old-A
";

// Run with each growth refused in turn: the edits are the defined ones, or memory ran out.
#[test]
fn memory_field_edits(rt: HostRuntime) {
    let alloc = rt.alloc();
    let Ok(all) = rows(alloc, SIX_EDITS) else {
        return;
    };
    for row in &all {
        check_six_edits(&rt, alloc, row);
    }
}

fn check_six_edits(rt: &impl Abort, alloc: Global, row: &Row) {
    let Ok(letters) = letters_in(alloc, row) else {
        return;
    };
    let Ok(doc) = read(alloc, row.bytes("message")) else {
        return;
    };
    assert!(rt; letters.ok());
    let edits = match field_edits(alloc, &doc, &letters) {
        Ok(edits) => edits,
        Err(_) => field_edits(alloc, &doc, &letters).expect(rt, "memory"),
    };
    assert_eq!(rt; edits.len(), 6);
    // Where the test itself gets no memory, there is nothing more to see.
    if let Ok(first) = line_of(alloc, &edits[0]) {
        same(rt, first.as_bytes(), b"rename [1] B 1 C", "the first edit");
    }
    if let Ok(last) = line_of(alloc, &edits[5]) {
        same(rt, last.as_bytes(), b"remove [1] Old-A 2", "the last edit");
    }
}

/// A message within another, and letters that have two edits of it.
const BELOW: &str = r"
== fields of a message below
message: Content-Type: message/rfc822\n\nA: 1\nA: 2\n\n
only: B: 3
last: A
";

// The same of the edits at the path of a section.
#[test]
fn memory_field_edits_at(rt: HostRuntime) {
    let alloc = rt.alloc();
    let Ok(all) = rows(alloc, BELOW) else {
        return;
    };
    for row in &all {
        check_edits_below(&rt, alloc, row);
    }
}

fn check_edits_below(rt: &impl Abort, alloc: Global, row: &Row) {
    let Ok(letters) = letters_in(alloc, row) else {
        return;
    };
    let Ok(doc) = read(alloc, row.bytes("message")) else {
        return;
    };
    assert!(rt; letters.ok());
    let edits = match field_edits_at(alloc, &doc, &[1, 1], &letters) {
        Ok(edits) => edits,
        Err(_) => field_edits_at(alloc, &doc, &[1, 1], &letters).expect(rt, "memory"),
    };
    assert_eq!(rt; edits.len(), 2);
    // Where the test itself gets no memory, there is nothing more to see.
    if let Ok(last) = line_of(alloc, &edits[1]) {
        same(rt, last.as_bytes(), b"remove [1, 1] A 1", "the last edit");
    }
}
