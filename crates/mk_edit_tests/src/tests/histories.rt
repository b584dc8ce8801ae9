//! Runs of commands: the answer to each, and the text after it.

use super::checks::{check_answer, check_count, check_text, same};
use super::groups::reason;
use super::named::{edit_named, named_edits};
use super::{TableError, bytes_in, reason_of, session_over};
use mk_edit::{Command, EditError, Reply, Session};
use mk_line::Meter;
use mk_rows::{Cell, Row, rows};
use std::alloc::{AllocError, Global};
use std::process::Abort;
use std::test::Fail;

/// Messages, and commands to each: `do` an edit, `undo` or `redo`. After a command stand the reason against it, where it is
/// refused, and the text after it.
const ROWS: &str = r#"
== steps back and forth
message: A: b\n\nx\n
do: add C
text: A: b\nC: d\n\nx\n
do: remove A
text: C: d\n\nx\n
undo:
text: A: b\nC: d\n\nx\n
undo:
text: A: b\n\nx\n
redo:
text: A: b\nC: d\n\nx\n
redo:
text: C: d\n\nx\n
undo:
text: A: b\nC: d\n\nx\n
undo:
text: A: b\n\nx\n
undo:
refused: NothingToUndo
text: A: b\n\nx\n

== a refused edit between
message: A: b\n\nx\n
do: add C
text: A: b\nC: d\n\nx\n
undo:
text: A: b\n\nx\n
do: remove Z
refused: NoSuchField
text: A: b\n\nx\n
redo:
text: A: b\nC: d\n\nx\n
undo:
text: A: b\n\nx\n
do: add E
text: A: b\nE: f\n\nx\n
redo:
refused: NothingToRedo
text: A: b\nE: f\n\nx\n

== parts go and come
message: Subject: t\nContent-Type: multipart/mixed; boundary="b"\n\npre\n--b\n\none\n--b \t\nContent-Type: text/html\n\ntwo\n--b--\nepi\n
do: remove the first part
text: Subject: t\nContent-Type: multipart/mixed; boundary="b"\n\npre\n--b \t\nContent-Type: text/html\n\ntwo\n--b--\nepi\n
do: remove the first part
text: Subject: t\nContent-Type: multipart/mixed; boundary="b"\n\npre\n--b--\nepi\n
do: remove the first part
refused: NoSuchSection
text: Subject: t\nContent-Type: multipart/mixed; boundary="b"\n\npre\n--b--\nepi\n
do: insert the first part
text: Subject: t\nContent-Type: multipart/mixed; boundary="b"\n\npre\n--b\nContent-Transfer-Encoding: base64\n\naGk=\n--b--\nepi\n
undo:
text: Subject: t\nContent-Type: multipart/mixed; boundary="b"\n\npre\n--b--\nepi\n
undo:
text: Subject: t\nContent-Type: multipart/mixed; boundary="b"\n\npre\n--b \t\nContent-Type: text/html\n\ntwo\n--b--\nepi\n
undo:
text: Subject: t\nContent-Type: multipart/mixed; boundary="b"\n\npre\n--b\n\none\n--b \t\nContent-Type: text/html\n\ntwo\n--b--\nepi\n
redo:
text: Subject: t\nContent-Type: multipart/mixed; boundary="b"\n\npre\n--b \t\nContent-Type: text/html\n\ntwo\n--b--\nepi\n
redo:
text: Subject: t\nContent-Type: multipart/mixed; boundary="b"\n\npre\n--b--\nepi\n
"#;

// What is asked, the reason against it, and the text after it.
#[derive(Drop)]
struct Step<'a> {
    command: Command,
    refused: Option<EditError>,
    after: Option<&'a [u8]>,
}

/// The command that a cell begins.
pub fn command_in(alloc: Global, edits: &[Row], cell: &Cell) -> Result<Command, TableError> {
    match cell.key {
        "do" => Ok(Command::Do(edit_named(alloc, edits, cell.text)?)),
        "undo" => Ok(Command::Undo),
        "redo" => Ok(Command::Redo),
        word => Err(TableError::Word(word)),
    }
}

// Adds a cell to the steps before it: a new one, or more of the last.
fn put_cell<'a>(
    alloc: Global,
    edits: &[Row],
    steps: &mut Vec<Step<'a>>,
    cell: &'a Cell,
) -> Result<(), TableError> {
    match (cell.key, steps.last_mut()) {
        ("refused", Some(step)) if step.after.is_none() => {
            step.refused = Some(reason_of(cell.text)?);
        }
        ("text", Some(step)) if step.after.is_none() => {
            step.after = Some(&cell.bytes);
        }
        _ => {
            let command = command_in(alloc, edits, cell)?;
            steps.push(Step {
                command,
                refused: None,
                after: None,
            })?;
        }
    }
    Ok(())
}

// The steps of a row, whose first cell is its message.
fn steps_in<'a>(alloc: Global, edits: &[Row], row: &'a Row) -> Result<Vec<Step<'a>>, TableError> {
    let mut steps = Vec::new(alloc);
    for cell in row.cells.iter().skip(1) {
        put_cell(alloc, edits, &mut steps, cell)?;
    }
    Ok(steps)
}

// What a session answers to a command. `check` answers as `edit` does.
fn answer_to(
    rt: &impl Abort,
    session: &mut Session,
    command: &Command,
    shows: &str,
) -> Result<(), EditError> {
    match command {
        Command::Do(edit) => {
            let checked = session.check(edit, &mut Meter::new());
            let answer = session.edit(edit, &mut Meter::new());
            check_answer(rt, checked, answer, shows);
            answer
        }
        Command::Group(list) => session.group(list, &mut Meter::new()).map_err(reason),
        Command::Undo => session.undo(),
        Command::Redo => session.redo(),
    }
}

fn check_step(
    rt: &impl Abort,
    alloc: Global,
    session: &mut Session,
    step: &Step<'_>,
    row: &Row,
) -> Result<(), Fail> {
    let answer = answer_to(rt, session, &step.command, row.shows);
    assert_eq!(rt;
        answer.err(),
        step.refused,
        "{}: {:?}",
        row.shows,
        step.command
    );
    match step.after {
        Some(after) => check_text(rt, alloc, session, after, row.shows),
        None => Err(Fail::new(row.shows)),
    }
}

// The replies to commands that are obeyed all at once, and the session after them, are those that one by one gave.
fn check_together(
    rt: &impl Abort,
    alloc: Global,
    row: &Row,
    commands: &[Command],
    wanted: &[Reply],
    session: &Session,
) -> Result<(), Fail> {
    let mut other = session_over(alloc, bytes_in(row, "message")?)?;
    let replies = other.obey_all(alloc, commands, &mut Meter::new())?;
    assert_eq!(rt; replies.as_slice(), wanted, "{}", row.shows);
    same(rt, other.text(), session.text(), row.shows);
    check_count(rt, &other, session.done(), session.undone(), row.shows);
    Ok(())
}

// The session after the steps of a row, one by one.
fn check_each(
    rt: &impl Abort,
    alloc: Global,
    row: &Row,
    steps: &[Step<'_>],
) -> Result<Session, Fail> {
    let mut session = session_over(alloc, bytes_in(row, "message")?)?;
    for step in steps {
        check_step(rt, alloc, &mut session, step, row)?;
    }
    Ok(session)
}

fn replies_of(alloc: Global, steps: &[Step<'_>]) -> Result<Vec<Reply>, AllocError> {
    let mut replies = Vec::new(alloc);
    for step in steps {
        replies.push(step.refused.map_or(Reply::Obeyed, Reply::Refused))?;
    }
    Ok(replies)
}

fn commands_of(alloc: Global, steps: Vec<Step<'_>>) -> Result<Vec<Command>, AllocError> {
    let mut commands = Vec::new(alloc);
    for Step { command, .. } in steps {
        commands.push(command)?;
    }
    Ok(commands)
}

// Obeys the commands of a row, one by one and all at once. There are this many.
fn check_row(rt: &impl Abort, alloc: Global, edits: &[Row], row: &Row) -> Result<usize, Fail> {
    let steps = steps_in(alloc, edits, row)?;
    let session = check_each(rt, alloc, row, &steps)?;
    let wanted = replies_of(alloc, &steps)?;
    let commands = commands_of(alloc, steps)?;
    check_together(rt, alloc, row, &commands, &wanted, &session)?;
    Ok(commands.len())
}

#[test]
fn steps_are_taken_back_and_made_again(rt: HostRuntime) -> Result<(), Fail> {
    let alloc = rt.alloc();
    let edits = named_edits(alloc)?;
    let mut counts = Vec::new(alloc);
    for row in &rows(alloc, ROWS)? {
        counts.push(check_row(&rt, alloc, &edits, row)?)?;
    }
    assert_eq!(rt; counts.as_slice(), [9, 7, 9].as_slice());
    Ok(())
}
