//! Letters: what may be asked for together, and the texts that they lead to.
use super::calls::{Call, check};
use mk_edit::{Edit, Session};
use mk_line::Meter;
use mk_mail::{Letters, NamePattern, Prepend, field_edits};
use mk_rows::Row;
use mk_tree::Doc;
use std::alloc::{AllocError, Global};
use std::test::Fail;

/// None of the letters.
pub fn no_letters(alloc: Global) -> Letters {
    Letters {
        prepend: None,
        drops: Vec::new(alloc),
        keeps: Vec::new(alloc),
        keep_only: false,
        rename: None,
        add_if: None,
        add: None,
        prefixed: None,
        only: None,
        first: None,
        last: None,
        take: None,
        whole: None,
    }
}

/// A name, or the start of names.
fn pattern(text: Vec<u8>, is_front: bool) -> NamePattern {
    NamePattern { text, is_front }
}

/// The letters that a row asks for. A name has no colon.
pub fn letters_in(alloc: Global, row: &Row) -> Result<Letters, AllocError> {
    let mut letters = no_letters(alloc);
    for cell in &row.cells {
        let value = Vec::from_slice(alloc, &cell.bytes)?;
        match cell.key {
            "drop" => letters.drops.push(pattern(value, false))?,
            "drop from" => letters.drops.push(pattern(value, true))?,
            "keep" => letters.keeps.push(pattern(value, false))?,
            "keep from" => letters.keeps.push(pattern(value, true))?,
            "keep only" => {
                letters.keeps.push(pattern(value, false))?;
                letters.keep_only = true;
            }
            "prepend" => {
                let text = Vec::from_slice(alloc, row.bytes("text"))?;
                letters.prepend = Some(Prepend { name: value, text });
            }
            "rename" => {
                let new = Vec::from_slice(alloc, row.bytes("to"))?;
                letters.rename = Some((value, new));
            }
            "add if" => letters.add_if = Some(value),
            "add" => letters.add = Some(value),
            "prefixed" => letters.prefixed = Some(value),
            "only" => letters.only = Some(value),
            "first" => letters.first = Some(value),
            "last" => letters.last = Some(value),
            "take" => letters.take = Some(value),
            "whole" => letters.whole = Some(value),
            _ => {}
        }
    }
    Ok(letters)
}

/// What may be asked for, and what may not.
const ALLOWED: &str = r#"
== no letters
gives: yes

== a field that is added where there is none
add if: A: 9
gives: yes

== an empty field isn't added
add if: A:
gives: no

== a field of blanks isn't added
add: A: \t
gives: no

== a line feed after the colon isn't a blank
add: A:\n\x20
gives: yes

== a prefix, and no new field
prefixed: A:
gives: yes

== no field stays, and a blank comes before the colon
only: A :\x20
gives: yes

== a field with its ending
only: A: 9\n
gives: no

== a field of two lines
only: A: 9\n b
gives: yes

== two fields
only: A: 9\nB: 1
gives: no

== a name without a colon
only: A
gives: no

== nothing
only:
gives: no

== the first of a name
first: A
gives: yes

== a name with its colon
first: A:
gives: no

== an empty name
last:
gives: no

== a new name with a space
rename: A
to: A b
gives: no

== the values of a name
take: A
gives: yes

== values, and whole fields
take: A
whole: A
gives: no

== whole fields, and another letter
whole: A
first: B
gives: no

== a name that goes, and its colon
drop: A:
gives: no

== no name
drop from:
gives: no

== names that go
drop: A
drop from: B-
gives: yes

== one of the names isn't one
drop: A
drop: B C
gives: no

== fields that go, and values
drop: A
take: B
gives: no

== names that stay
keep: A
keep from: B-
gives: yes

== a name that stays, and its colon
keep: A:
gives: no

== no name that stays
keep from:
gives: no

== fields that stay, and values
keep: A
take: A
gives: no

== all letters that change a message
drop: A
rename: A
to: B
add if: A: 1
add: A: 1
prefixed: A:
only: A:
first: A
last: A
gives: yes
"#;

/// Whether the letters of a row may be asked for.
pub fn allowed(alloc: Global, row: &Row) -> Result<Vec<u8>, Fail> {
    let word = if letters_in(alloc, row)?.ok() {
        "yes"
    } else {
        "no"
    };
    Ok(Vec::from_slice(alloc, word.as_bytes())?)
}

#[test]
fn letters_that_may_be_asked_for(rt: HostRuntime) -> Result<(), Fail> {
    check(&rt, rt.alloc(), Call::Allowed, ALLOWED)
}

/// Letters on a message, and the message after their edits.
const FILTERED: &str = r#"
== no letters
message: A: 1\nB: 2\nA: 3\n\n
gives: A: 1\nB: 2\nA: 3\n\n

== the first of a name stays
first: A
message: A: 1\nB: 2\nA: 3\n\n
gives: A: 1\nB: 2\n\n

== a name in another spelling
first: a
message: A: 1\nB: 2\nA: 3\n\n
gives: A: 1\nB: 2\n\n

== the last of a name stays
last: A
message: A: 1\nB: 2\nA: 3\n\n
gives: B: 2\nA: 3\n\n

== there is no field of the name
last: C
message: A: 1\nB: 2\nA: 3\n\n
gives: A: 1\nB: 2\nA: 3\n\n

== a field of the name is there
add if: a: 9
message: A: 1\nB: 2\nA: 3\n\n
gives: A: 1\nB: 2\nA: 3\n\n

== no field of the name is there
add if: C: 9
message: A: 1\nB: 2\nA: 3\n\n
gives: A: 1\nB: 2\nA: 3\nC: 9\n\n

== one more field of the name
add: A: 9
message: A: 1\nB: 2\nA: 3\n\n
gives: A: 1\nB: 2\nA: 3\nA: 9\n\n

== one field takes the place of all of its name
only: A: 9
message: A: 1\nB: 2\nA: 3\n\n
gives: B: 2\nA: 9\n\n

== all fields of a name go
only: A:
message: A: 1\nB: 2\nA: 3\n\n
gives: B: 2\n\n

== all fields of a name get a prefix
prefixed: A:
message: A: 1\nB: 2\nA: 3\n\n
gives: Old-A: 1\nB: 2\nOld-A: 3\n\n

== the prefix goes before the name as the message spells it
prefixed: SUBJECT: x
message: subject: a\n\n
gives: Old-subject: a\nSUBJECT: x\n\n

== all fields of a name get another
rename: A
to: C
message: A: 1\nB: 2\nA: 3\n\n
gives: C: 1\nB: 2\nC: 3\n\n

== all fields of a name get another spelling
rename: A
to: a
message: A: 1\na: 2\n\n
gives: a: 1\na: 2\n\n

== a name is free after its fields got another
rename: A
to: C
add if: A: 9
message: A: 1\nB: 2\nA: 3\n\n
gives: C: 1\nB: 2\nC: 3\nA: 9\n\n

== the added field is the last of its name
add: B: 9
last: B
message: A: 1\nB: 2\nA: 3\n\n
gives: A: 1\nA: 3\nB: 9\n\n

== the first stays of those that got a prefix
prefixed: A: 9
first: Old-A
message: A: 1\nB: 2\nA: 3\n\n
gives: Old-A: 1\nB: 2\nA: 9\n\n

== the first of a name is the last that is left
first: A
last: A
message: A: 1\nB: 2\nA: 3\n\n
gives: A: 1\nB: 2\n\n

== the ending is that of the first line
only: A: 9
message: A: 1\r\nB: 2\n\n
gives: B: 2\nA: 9\r\n\n

== a field in an empty message
add: X: y
message:
gives: X: y\n

== a field after an envelope line, which has the ending
add: X: y
message: From a\r\nA: 1\n\n
gives: From a\r\nA: 1\nX: y\r\n\n

== all fields of a name go, and no other
drop: a
message: A: 1\nAb: 2\nA: 3\nB: A\n\nA: 4\n
gives: Ab: 2\nB: A\n\nA: 4\n

== all whose names begin so
drop from: x-
message: X-A: 1\nA: 2\nx-b: 3\n 4\nX: 5\nX-: 6\n\n
gives: A: 2\nX: 5\n\n

== names that aren't there
drop: C
drop from: X-
message: A: 1\nB: 2\n\n
gives: A: 1\nB: 2\n\n

== several names, in turn
drop: C
drop from: X-
drop: a
message: A: 1\nX-A: 2\nB: 3\nC: 4\nA: 5\n\n
gives: B: 3\n\n

== a name by two patterns
drop from: X-
drop: X-A
message: X-A: 1\nB: 3\nx-a: 2\n\n
gives: B: 3\n\n

== fields go before all else
drop from: X-
add: X-New: 1
add if: X-Old: 2
message: X-Old: 1\nB: 2\n\n
gives: B: 2\nX-Old: 2\nX-New: 1\n\n

== all go but one name
keep: a
message: A: 1\nAb: 2\nA: 3\nB: A\n\nA: 4\n
gives: A: 1\nA: 3\n\nA: 4\n

== and those that say how the message is built
keep: A
message: MIME-Version: 1.0\nA: 1\nContent-Type: text/html\nB: 2\ncontent-x: 3\nContent: 4\nMIME-Version-2: 5\nContent-: 6\n\n
gives: MIME-Version: 1.0\nA: 1\nContent-Type: text/html\ncontent-x: 3\nContent-: 6\n\n

== these go, too, where only some are to stay
keep only: A
message: MIME-Version: 1.0\nA: 1\nContent-Type: text/html\nB: 2\n\n
gives: A: 1\n\n

== one of several that asks so is enough
keep: A
keep only: B
message: MIME-Version: 1.0\nA: 1\nB: 2\nC: 3\n\n
gives: A: 1\nB: 2\n\n

== all stay whose names begin so
keep from: x-
message: X-A: 1\nA: 2\nx-b: 3\n 4\nX: 5\nX-: 6\n\n
gives: X-A: 1\nx-b: 3\n 4\nX-: 6\n\n

== none is there that stays
keep: C
message: A: 1\nB: 2\n\nx\n
gives: \nx\n

== a name that is kept and goes
keep from: X-
drop: X-A
message: X-A: 1\nX-B: 2\nC: 3\n\n
gives: X-B: 2\n\n

== fields are kept before others are added
keep: A
add: B: 3
message: A: 1\nB: 2\nC: 2\n\n
gives: A: 1\nB: 3\n\n

== letters that only give fields change nothing
take: A
message: A: 1\nB: 2\nA: 3\n\n
gives: A: 1\nB: 2\nA: 3\n\n
"#;

/// The edits of letters that may be asked for.
pub fn edits_of(alloc: Global, doc: &Doc, letters: &Letters) -> Result<Vec<Edit>, Fail> {
    if letters.ok() {
        Ok(field_edits(alloc, doc, letters)?)
    } else {
        Err(Fail::new("these may not be asked for"))
    }
}

/// The message of a row after the edits of its letters.
pub fn filtered(alloc: Global, row: &Row) -> Result<Vec<u8>, Fail> {
    let letters = letters_in(alloc, row)?;
    let mut session = started(alloc, row.bytes("message"))?;
    edit_by(alloc, &mut session, &letters)?;
    Ok(Vec::from_slice(alloc, session.text())?)
}

// A session with a message.
fn started(alloc: Global, message: &[u8]) -> Result<Session, Fail> {
    let text = Vec::from_slice(alloc, message)?;
    match Session::start(alloc, text) {
        Ok(session) => Ok(session),
        Err((_, error)) => Err(error.into()),
    }
}

// Makes the edits of letters.
fn edit_by(alloc: Global, session: &mut Session, letters: &Letters) -> Result<(), Fail> {
    for edit in &edits_of(alloc, session.doc(), letters)? {
        session.edit(edit, &mut Meter::new())?;
    }
    Ok(())
}

#[test]
fn messages_are_filtered(rt: HostRuntime) -> Result<(), Fail> {
    check(&rt, rt.alloc(), Call::Filtered, FILTERED)
}
