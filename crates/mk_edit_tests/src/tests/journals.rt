//! Histories saved as journals, and journals loaded.

use super::checks::{check_answer, check_count, same};
use super::groups::reason;
use super::{
    Asked, TableError, bytes_in, check_keys, edit_at, edit_in, number_in, only_row, session_over,
};
use mk_edit::{Edit, LoadError, Session};
use mk_line::Meter;
use mk_rows::{Row, rows};
use mk_splice::Splice;
use std::alloc::{AllocError, Global};
use std::process::Abort;
use std::test::Fail;

/// Journals loaded with a text, and why they are refused: the reason, and where.
const LOADED: &str = r#"
== an empty file is the beginning of a journal
text: A: b\n\nx\n
journal:
refused: syntax
at: 0

== there is no version 3
text: A: b\n\nx\n
journal: mimejournal 3\n
refused: syntax
at: 12

== a number has no leading zero
text: A: b\n\nx\n
journal: mimejournal 1\n01 0\n
refused: syntax
at: 15

== nothing stands after the last entry
text: A: b\n\nx\n
journal: mimejournal 1\n0 0\nx
refused: syntax
at: 18

== a number of 21 digits
text: A: b\n\nx\n
journal: mimejournal 1\n0 1\n100000000000000000000 0 0\n\n
refused: syntax
at: 38

== old bytes that aren't all there
text: A: b\n\nx\n
journal: mimejournal 1\n0 1\n5 18446744073709551616 0\nx\n
refused: syntax
at: 45

== other bytes stand at the place
text: A: b\n\nx\n
journal: mimejournal 1\n0 1\n5 1 0\nx\n
refused: step
at: 1

== a place beyond the end
text: A: b\n\nx\n
journal: mimejournal 1\n0 1\n9 0 0\n\n
refused: step
at: 1

== a place that 64 bits don't hold
text: A: b\n\nx\n
journal: mimejournal 1\n0 1\n99999999999999999999 0 0\n\n
refused: step
at: 1

== a place at the end
text: A: b\n\nx\n
journal: mimejournal 1\n0 1\n8 0 0\n\n

== the second step to be taken back doesn't fit
text: abc
journal: mimejournal 1\n2 0\n0 1 1\nyx\n0 1 1\nya\n
refused: step
at: 1

== a done step is tried before an undone one
text: abc
journal: mimejournal 1\n1 1\n0 0 1\nx\n0 1 0\nx\n
refused: step
at: 1

== the journal of another text
text: abc
journal: mimejournal 2\ne3b0c44298fc1c149afbf4c8996fb92427ae41e4649b934ca495991b7852b855\n1 0\n0\n
refused: other
at: 0

== the text is looked at before the steps
text: abc
journal: mimejournal 2\ne3b0c44298fc1c149afbf4c8996fb92427ae41e4649b934ca495991b7852b855\n1 0\n1\n9 0 0\n\n
refused: other
at: 0

== digits of a digest are in lower case
text:
journal: mimejournal 2\nE3b0c44298fc1c149afbf4c8996fb92427ae41e4649b934ca495991b7852b855\n1 0\n0\n
refused: syntax
at: 14

== a step of no splices
text:
journal: mimejournal 2\ne3b0c44298fc1c149afbf4c8996fb92427ae41e4649b934ca495991b7852b855\n1 0\n0\n

== a step is named, and not its splice
text: abc
journal: mimejournal 2\nba7816bf8f01cfea414140de5dae2223b00361a396177a9cb410ff61f20015ad\n0 2\n0\n2\n0 1 0\na\n0 1 0\na\n
refused: step
at: 2

== a last splice is taken back first
text: abc
journal: mimejournal 2\nba7816bf8f01cfea414140de5dae2223b00361a396177a9cb410ff61f20015ad\n1 0\n2\n0 1 1\nxy\n0 1 1\nya\n
"#;

/// Groups of sections that are put in the place of a text, one step each, and the journal after the digest. A section
/// is `none` where it is empty.
const SAVED: &str = r#"
== a session just begun
text: abc
digest: ba7816bf8f01cfea414140de5dae2223b00361a396177a9cb410ff61f20015ad
journal: 0 0\n

== a group of no edits
text:
group:
digest: e3b0c44298fc1c149afbf4c8996fb92427ae41e4649b934ca495991b7852b855
journal: 1 0\n0\n

== a group of one edit
text:
group: abc
digest: ba7816bf8f01cfea414140de5dae2223b00361a396177a9cb410ff61f20015ad
journal: 1 0\n1\n0 0 3\nabc\n

== a group of two edits
text:
group: abc,none
digest: e3b0c44298fc1c149afbf4c8996fb92427ae41e4649b934ca495991b7852b855
journal: 1 0\n2\n0 0 3\nabc\n0 3 0\nabc\n
"#;

// The reason of a row, if it has one.
fn refused_in(row: &Row) -> Result<Option<LoadError>, TableError> {
    match row.get("refused") {
        Some(reason) => Ok(Some(load_error(reason.text, number_in(row, "at")? as usize)?)),
        None => Ok(None),
    }
}

// The reason of a name, at a place.
fn load_error(name: &'static str, at: usize) -> Result<LoadError, TableError> {
    match name {
        "syntax" => Ok(LoadError::JournalSyntax { offset: at }),
        "other" => Ok(LoadError::JournalOther),
        "step" => Ok(LoadError::JournalMismatch { entry: at }),
        _ => Err(TableError::Word(name)),
    }
}

pub type Loaded = Result<Session, (Vec<u8>, LoadError)>;

pub fn load(alloc: Global, text: &[u8], journal: &[u8]) -> Result<Loaded, AllocError> {
    Ok(Session::load(alloc, Vec::from_slice(alloc, text)?, journal))
}

// A journal was loaded with a text, or refused for a reason; then the text came back.
fn check_loaded(
    rt: &impl Abort,
    loaded: Loaded,
    text: &[u8],
    refused: Option<LoadError>,
    shows: &str,
) {
    match loaded {
        Ok(session) => {
            assert_eq!(rt; None, refused, "{shows}");
            same(rt, session.text(), text, shows);
        }
        Err((back, error)) => {
            assert_eq!(rt; Some(error), refused, "{shows}");
            same(rt, &back, text, shows);
        }
    }
}

#[test]
fn journals_are_loaded_or_refused(rt: HostRuntime) -> Result<(), Fail> {
    let alloc = rt.alloc();
    let all = rows(alloc, LOADED)?;
    assert_eq!(rt; all.len(), 18);
    for row in &all {
        let text = bytes_in(row, "text")?;
        let loaded = load(alloc, text, bytes_in(row, "journal")?)?;
        check_loaded(&rt, loaded, text, refused_in(row)?, row.shows);
    }
    Ok(())
}

// The group of edits that a row asks for.
fn group_in(alloc: Global, row: &Row) -> Result<Vec<Edit>, AllocError> {
    let mut list = Vec::new(alloc);
    for section in row.text("group").split(',') {
        let text = match section {
            "" => continue,
            "none" => b"".as_slice(),
            text => text.as_bytes(),
        };
        list.push(edit_at(alloc, &[1], Asked::SetSection { text })?)?;
    }
    Ok(list)
}

// A session over the text of a row, after its group.
fn session_in(rt: &impl Abort, alloc: Global, row: &Row) -> Result<Session, Fail> {
    check_keys(row, "text group digest journal")?;
    let mut session = session_over(alloc, bytes_in(row, "text")?)?;
    if row.get("group").is_some() {
        let group = group_in(alloc, row)?;
        let answer = session.group(&group, &mut Meter::new());
        check_answer(rt, answer.map_err(reason), Ok(()), row.shows);
    }
    Ok(session)
}

/// The journal of a row: its digest, and what stands after that.
pub fn journal_in(alloc: Global, row: &Row) -> Result<Vec<u8>, TableError> {
    let mut journal = Vec::from_slice(alloc, b"mimejournal 2\n")?;
    journal.extend_from_slice(bytes_in(row, "digest")?)?;
    journal.push(b'\n')?;
    journal.extend_from_slice(bytes_in(row, "journal")?)?;
    Ok(journal)
}

// A loaded session has the same journal, and gives the text before all steps.
fn check_again(
    rt: &impl Abort,
    mut again: Session,
    saved: &Session,
    journal: &[u8],
    row: &Row,
) -> Result<(), Fail> {
    check_count(rt, &again, saved.done(), saved.undone(), row.shows);
    same(rt, &again.save()?, journal, row.shows);
    for _ in 0..saved.done() {
        check_answer(rt, again.undo(), Ok(()), row.shows);
    }
    same(rt, again.text(), row.bytes("text"), row.shows);
    Ok(())
}

// The journal of a session is the one of a row.
fn saved_as(rt: &impl Abort, alloc: Global, session: &Session, row: &Row) -> Result<Vec<u8>, Fail> {
    let journal = session.save()?;
    same(rt, &journal, &journal_in(alloc, row)?, row.shows);
    Ok(journal)
}

fn check_saved(rt: &impl Abort, alloc: Global, row: &Row) -> Result<(), Fail> {
    let session = session_in(rt, alloc, row)?;
    let journal = saved_as(rt, alloc, &session, row)?;
    match load(alloc, session.text(), &journal)? {
        Ok(again) => check_again(rt, again, &session, &journal, row),
        Err(_) => Err(Fail::new(row.shows)),
    }
}

#[test]
fn histories_are_saved_and_loaded_again(rt: HostRuntime) -> Result<(), Fail> {
    let alloc = rt.alloc();
    let all = rows(alloc, SAVED)?;
    assert_eq!(rt; all.len(), 4);
    for row in &all {
        check_saved(&rt, alloc, row)?;
    }
    Ok(())
}

#[test]
fn the_front_of_a_journal_is_refused_where_it_ends(rt: HostRuntime) -> Result<(), Fail> {
    let alloc = rt.alloc();
    let text = b"abc".as_slice();
    let journal = session_over(alloc, text)?.save()?;
    assert_eq!(rt; journal.len(), 83);
    for size in 0..journal.len() {
        let loaded = load(alloc, text, &journal[..size])?;
        let refused = Some(LoadError::JournalSyntax { offset: size });
        check_loaded(&rt, loaded, text, refused, "a front of a journal");
    }
    Ok(())
}

/// A text, and a journal with a step that is undone.
const UNDONE: &str = r"
== a step of no bytes
text: A: b\n\nx\n
journal: mimejournal 1\n0 1\n8 0 0\n\n
";

#[test]
fn a_redone_step_of_no_bytes_leaves_the_text(rt: HostRuntime) -> Result<(), Fail> {
    let alloc = rt.alloc();
    let row = only_row(alloc, UNDONE)?;
    let text = bytes_in(&row, "text")?;
    match load(alloc, text, bytes_in(&row, "journal")?)? {
        Ok(mut session) => {
            check_answer(&rt, session.redo(), Ok(()), row.shows);
            same(&rt, session.text(), text, row.shows);
            check_count(&rt, &session, 1, 0, row.shows);
        }
        Err(_) => return Err(Fail::new(row.shows)),
    }
    Ok(())
}

/// An edit, the text after it, and how many bytes the journal has then, and how it ends.
const KEPT: &str = r"
== a field more
text: A: b\n\nx\n
at: 1
edit: add
with: C: d\n
gives: A: b\nC: d\n\nx\n
size: 97
end: \n1 0\n1\n5 0 5\nC: d\n\n
";

// The session after the edit of a row.
fn edited(rt: &impl Abort, alloc: Global, row: &Row) -> Result<Session, Fail> {
    let mut session = session_over(alloc, bytes_in(row, "text")?)?;
    let answer = session.edit(&edit_in(alloc, row)?, &mut Meter::new());
    check_answer(rt, answer, Ok(()), row.shows);
    Ok(session)
}

// The journal of a session has this many bytes, and ends so.
fn check_end(rt: &impl Abort, session: &Session, row: &Row) -> Result<(), Fail> {
    let (size, end) = (number_in(row, "size")? as usize, bytes_in(row, "end")?);
    let journal = session.save()?;
    assert_eq!(rt; journal.len(), size, "{}", row.shows);
    assert!(rt; journal.ends_with(end), "{}", row.shows);
    Ok(())
}

// The one step of a session puts bytes at place 5, and takes none out.
fn check_steps(rt: &impl Abort, steps: &[Vec<Splice>], wanted: &[u8], shows: &str) {
    assert_eq!(rt; steps.len(), 1, "{shows}");
    for step in steps {
        assert_eq!(rt; step.len(), 1, "{shows}");
        for splice in step {
            check_splice(rt, splice, wanted, shows);
        }
    }
}

fn check_splice(rt: &impl Abort, splice: &Splice, wanted: &[u8], shows: &str) {
    let Splice { place, old, new } = splice;
    assert_eq!(rt; (*place, old.len()), (5, 0), "{shows}");
    same(rt, new, wanted, shows);
}

#[test]
fn a_session_keeps_the_bytes_of_each_step_alone(rt: HostRuntime) -> Result<(), Fail> {
    let alloc = rt.alloc();
    let row = only_row(alloc, KEPT)?;
    let session = edited(&rt, alloc, &row)?;
    check_end(&rt, &session, &row)?;
    let (doc, steps, done) = session.into_parts();
    same(&rt, doc.text(), bytes_in(&row, "gives")?, row.shows);
    assert_eq!(rt; done, 1);
    check_steps(&rt, &steps, bytes_in(&row, "with")?, row.shows);
    Ok(())
}
