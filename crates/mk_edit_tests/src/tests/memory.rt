//! Growths of memory that are refused: the call changes nothing then, and gives its answer when it is made again.
//! `checks/refuse` runs each test here with each growth refused in turn. Tests of the same calls beside these want the
//! answer at the first call.

use super::checks::{State, check_answer, check_bare, check_state, same, wanted_in};
use super::groups::reason;
use super::{Asked, TableError, bytes_in, edit_at, edit_in, if_memory, only_row, session_over};
use mk_edit::{Command, Edit, EditError, Session};
use mk_line::Meter;
use mk_rows::{Row, rows};
use std::alloc::Global;
use std::process::Abort;
use std::test::Fail;

/// A message, two fields that are added to it, of which the second is taken back, and what that leaves: the texts at
/// either step, and the journal.
pub const SCENE: &str = r"
== one step is done and one undone
message: A: b\nContent-Type: multipart/mixed; boundary=b\n\n--b\n\none\n--b\n\ntwo\n--b\n\n3\n--b\n\n4\n--b--\n
done: C: d\n
undone: E: f\n
now: A: b\nContent-Type: multipart/mixed; boundary=b\nC: d\n\n--b\n\none\n--b\n\ntwo\n--b\n\n3\n--b\n\n4\n--b--\n
later: A: b\nContent-Type: multipart/mixed; boundary=b\nC: d\nE: f\n\n--b\n\none\n--b\n\ntwo\n--b\n\n3\n--b\n\n4\n--b--\n
journal: mimejournal 2\nda66f95883ad6a607c166b18a49bea432ef422c7291a9c06e07166982f1d51e3\n1 1\n1\n47 0 5\nC: d\n\n1\n52 0 5\nE: f\n\n
";

/// Edits of the text at the first step, one of each kind, and what comes of each alone; and two for which there is
/// a reason against them. With a fifth part, the list of parts grows, too.
pub const EDITS: &str = r#"
== a field more
at: 1.1
edit: add
with: X: y\n
gives: A: b\nContent-Type: multipart/mixed; boundary=b\nC: d\n\n--b\nX: y\n\none\n--b\n\ntwo\n--b\n\n3\n--b\n\n4\n--b--\n

== a field less
at: 1
edit: remove
name: A
number: 1
gives: Content-Type: multipart/mixed; boundary=b\nC: d\n\n--b\n\none\n--b\n\ntwo\n--b\n\n3\n--b\n\n4\n--b--\n

== another name
at: 1
edit: rename
name: C
number: 1
to: Longer
gives: A: b\nContent-Type: multipart/mixed; boundary=b\nLonger: d\n\n--b\n\none\n--b\n\ntwo\n--b\n\n3\n--b\n\n4\n--b--\n

== another field
at: 1
edit: set
name: A
number: 1
with: A: longer\n
gives: A: longer\nContent-Type: multipart/mixed; boundary=b\nC: d\n\n--b\n\none\n--b\n\ntwo\n--b\n\n3\n--b\n\n4\n--b--\n

== another body
at: 1.1
edit: body
with: longer\n
gives: A: b\nContent-Type: multipart/mixed; boundary=b\nC: d\n\n--b\n\nlonger\n--b\n\ntwo\n--b\n\n3\n--b\n\n4\n--b--\n

== another part
at: 1.2
edit: section
with: Content-Transfer-Encoding: base64\n\naGk=\n
gives: A: b\nContent-Type: multipart/mixed; boundary=b\nC: d\n\n--b\n\none\n--b\nContent-Transfer-Encoding: base64\n\naGk=\n--b\n\n3\n--b\n\n4\n--b--\n

== a part more
at: 1
edit: insert
place: 1
with: \nx\n
gives: A: b\nContent-Type: multipart/mixed; boundary=b\nC: d\n\n--b\n\none\n--b\n\nx\n--b\n\ntwo\n--b\n\n3\n--b\n\n4\n--b--\n

== a part less
at: 1.2
edit: remove part
gives: A: b\nContent-Type: multipart/mixed; boundary=b\nC: d\n\n--b\n\none\n--b\n\n3\n--b\n\n4\n--b--\n

== a multipart around a part
at: 1.1
edit: wrap
subtype: mixed
boundary: c
gives: A: b\nContent-Type: multipart/mixed; boundary=b\nC: d\n\n--b\nContent-Type: multipart/mixed; boundary="c"\n\n--c\n\none\n--c--\n--b\n\ntwo\n--b\n\n3\n--b\n\n4\n--b--\n

== a boundary that the body has
at: 1
edit: wrap
subtype: mixed
boundary: b
refused: HoldsBoundary { level: 1 }

== a multipart without its type
at: 1
edit: remove
name: Content-Type
number: 1
refused: Recut
"#;

/// Edits one after another, and the text that they give.
pub const LIST: &str = r"
== a field at the top
at: 1
edit: add at the top
with: X: y\n

== a field less
at: 1
edit: remove
name: A
number: 1

== another name
at: 1
edit: rename
name: C
number: 1
to: D

== a field of a part
at: 1.1
edit: add
with: E: f\n

== a part more
at: 1
edit: insert
place: 2
with: \nx\n
gives: X: y\nContent-Type: multipart/mixed; boundary=b\nD: d\n\n--b\nE: f\n\none\n--b\n\ntwo\n--b\n\nx\n--b\n\n3\n--b\n\n4\n--b--\n
";

/// A session with one step done and one undone, and another brought to the same point.
#[derive(Drop)]
pub struct Twins {
    pub session: Session,
    pub twin: Session,
}

/// Both, as a row says.
pub fn make_twins(alloc: Global, setting: &Row) -> Result<Twins, TableError> {
    let session = begun(alloc, setting)?;
    let twin = begun(alloc, setting)?;
    Ok(Twins { session, twin })
}

/// A session over a message, with one step done and one undone.
pub fn begun(alloc: Global, setting: &Row) -> Result<Session, TableError> {
    let mut session = session_over(alloc, bytes_in(setting, "message")?)?;
    for key in ["done", "undone"] {
        let text = bytes_in(setting, key)?;
        let edit = edit_at(alloc, &[1], Asked::AddField { top: false, text })?;
        session.edit(&edit, &mut Meter::new())?;
    }
    session.undo()?;
    Ok(session)
}

/// Both have the same text and tree, the same number of steps done and undone, and the same bytes in each step.
pub fn check_twins(rt: &impl Abort, alloc: Global, twins: &Twins, shows: &str) -> Result<(), Fail> {
    let Twins { session, twin } = twins;
    let state = State::new(twin.text(), twin.done(), twin.undone());
    check_state(rt, alloc, session, state, shows)?;
    same(rt, &session.save()?, &twin.save()?, shows);
    Ok(())
}

/// A refused call changed nothing: the session is as its twin, and the undone step gives the text that it gave.
pub fn check_unchanged(
    rt: &impl Abort,
    alloc: Global,
    twins: &mut Twins,
    setting: &Row,
    shows: &str,
) -> Result<(), Fail> {
    check_twins(rt, alloc, twins, shows)?;
    check_answer(rt, twins.session.redo(), Ok(()), shows);
    let later = State::new(bytes_in(setting, "later")?, 2, 0);
    check_bare(rt, &twins.session, later, shows);
    check_answer(rt, twins.session.undo(), Ok(()), shows);
    check_twins(rt, alloc, twins, shows)
}

fn once(session: &mut Session, command: &Command) -> Result<(), EditError> {
    match command {
        Command::Do(edit) => session.edit(edit, &mut Meter::new()),
        Command::Group(list) => session.group(list, &mut Meter::new()).map_err(reason),
        Command::Undo => session.undo(),
        Command::Redo => session.redo(),
    }
}

// What a call is to answer and to leave.
#[derive(Clone, Copy)]
struct Wanted<'a> {
    answer: Result<(), EditError>,
    after: State<'a>,
    shows: &'static str,
}

// A call gives what is wanted. Where a growth is refused to it, it changes nothing, and gives that when it is made again,
// as it does to the twin.
fn check_call(
    rt: &impl Abort,
    alloc: Global,
    twins: &mut Twins,
    setting: &Row,
    command: &Command,
    wanted: Wanted<'_>,
) -> Result<(), Fail> {
    let mut answer = once(&mut twins.session, command);
    if answer == Err(EditError::Memory) {
        check_unchanged(rt, alloc, twins, setting, wanted.shows)?;
        answer = once(&mut twins.session, command);
        check_answer(rt, once(&mut twins.twin, command), answer, wanted.shows);
        check_twins(rt, alloc, twins, wanted.shows)?;
    }
    check_answer(rt, answer, wanted.answer, wanted.shows);
    check_bare(rt, &twins.session, wanted.after, wanted.shows);
    Ok(())
}

// Where a test itself gets no memory, there is nothing to see.

fn check_command(
    rt: &impl Abort,
    alloc: Global,
    setting: &Row,
    command: &Command,
    wanted: Wanted<'_>,
) -> Result<(), Fail> {
    match if_memory(make_twins(alloc, setting))? {
        Some(mut twins) => check_call(rt, alloc, &mut twins, setting, command, wanted),
        None => Ok(()),
    }
}

// What is to come of an edit of the text at the first step.
fn wanted_of<'a>(setting: &'a Row, row: &'a Row) -> Result<Wanted<'a>, TableError> {
    let shows = row.shows;
    match wanted_in(row)? {
        Ok(text) => Ok(Wanted {
            answer: Ok(()),
            after: State::new(text, 2, 0),
            shows,
        }),
        Err(refusal) => Ok(Wanted {
            answer: Err(refusal),
            after: State::new(bytes_in(setting, "now")?, 1, 1),
            shows,
        }),
    }
}

fn check_edit(rt: &impl Abort, alloc: Global, setting: &Row, row: &Row) -> Result<(), Fail> {
    let wanted = wanted_of(setting, row)?;
    match if_memory(edit_in(alloc, row))? {
        Some(edit) => check_command(rt, alloc, setting, &Command::Do(edit), wanted),
        None => Ok(()),
    }
}

#[test]
fn memory_edit(rt: HostRuntime) -> Result<(), Fail> {
    let alloc = rt.alloc();
    if let Some(setting) = if_memory(only_row(alloc, SCENE))?
        && let Ok(all) = rows(alloc, EDITS)
    {
        assert_eq!(rt; all.len(), 11);
        for row in &all {
            check_edit(&rt, alloc, &setting, row)?;
        }
    }
    Ok(())
}

fn check_check(
    rt: &impl Abort,
    alloc: Global,
    twins: &mut Twins,
    setting: &Row,
    row: &Row,
) -> Result<(), Fail> {
    let Some(edit) = if_memory(edit_in(alloc, row))? else {
        return Ok(());
    };
    let mut answer = twins.session.check(&edit, &mut Meter::new());
    if answer == Err(EditError::Memory) {
        check_unchanged(rt, alloc, twins, setting, row.shows)?;
        answer = twins.session.check(&edit, &mut Meter::new());
    }
    check_answer(rt, answer, wanted_of(setting, row)?.answer, row.shows);
    let now = State::new(bytes_in(setting, "now")?, 1, 1);
    check_bare(rt, &twins.session, now, row.shows);
    Ok(())
}

#[test]
fn memory_check(rt: HostRuntime) -> Result<(), Fail> {
    let alloc = rt.alloc();
    if let Some(setting) = if_memory(only_row(alloc, SCENE))?
        && let Some(mut twins) = if_memory(make_twins(alloc, &setting))?
        && let Ok(all) = rows(alloc, EDITS)
    {
        assert_eq!(rt; all.len(), 11);
        for row in &all {
            check_check(&rt, alloc, &mut twins, &setting, row)?;
        }
    }
    Ok(())
}

/// The edits of rows.
pub fn edits_of(alloc: Global, list: &[Row]) -> Result<Vec<Edit>, TableError> {
    let mut edits = Vec::new(alloc);
    for row in list {
        edits.push(edit_in(alloc, row)?)?;
    }
    Ok(edits)
}

#[test]
fn memory_group(rt: HostRuntime) -> Result<(), Fail> {
    let alloc = rt.alloc();
    if let Some(setting) = if_memory(only_row(alloc, SCENE))?
        && let Ok(list) = rows(alloc, LIST)
        && let Some(edits) = if_memory(edits_of(alloc, &list))?
        && let Some(last) = list.last()
    {
        let wanted = wanted_of(&setting, last)?;
        check_command(&rt, alloc, &setting, &Command::Group(edits), wanted)?;
    }
    Ok(())
}

// A step back, or forth, leaves the text in a cell.
fn check_step(
    rt: &impl Abort,
    alloc: Global,
    command: &Command,
    key: &'static str,
    done: usize,
) -> Result<(), Fail> {
    let Some(setting) = if_memory(only_row(alloc, SCENE))? else {
        return Ok(());
    };
    let wanted = Wanted {
        answer: Ok(()),
        after: State::new(bytes_in(&setting, key)?, done, 2_usize.saturating_sub(done)),
        shows: key,
    };
    check_command(rt, alloc, &setting, command, wanted)
}

#[test]
fn memory_undo(rt: HostRuntime) -> Result<(), Fail> {
    check_step(&rt, rt.alloc(), &Command::Undo, "message", 0)
}

#[test]
fn memory_redo(rt: HostRuntime) -> Result<(), Fail> {
    check_step(&rt, rt.alloc(), &Command::Redo, "later", 2)
}
