//! Groups that a session begins: what is done in one is a step of the session, or nothing where the group is dropped.

use super::checks::{State, check_round, check_state};
use super::histories::command_in;
use super::named::named_edits;
use super::{TableError, bytes_in, session_over};
use mk_edit::{Command, Session};
use mk_line::Meter;
use mk_rows::{Row, rows};
use std::alloc::{AllocError, Global};
use std::process::Abort;
use std::test::Fail;

/// Messages, what is done in a group, and the text that its step gives.
const ROWS: &str = r"
== edits are one step
message: A: b\n\nx\n
do: add C
do: add E
do: remove A
text: C: d\nE: f\n\nx\n

== an edit that was undone isn't taken
message: A: b\n\nx\n
do: add C
undo:
do: add E
text: A: b\nE: f\n\nx\n

== nor is the last one
message: A: b\n\nx\n
do: add C
do: remove A
undo:
text: A: b\nC: d\n\nx\n

== an edit that was made again is taken
message: A: b\n\nx\n
do: add C
undo:
redo:
text: A: b\nC: d\n\nx\n

== a refused edit leaves the others
message: A: b\n\nx\n
do: add C
do: remove Z
text: A: b\nC: d\n\nx\n

== a group of nothing
message: A: b\n\nx\n
text: A: b\n\nx\n
";

// What is done in the group of a row: the cells between its message and its text.
fn commands_in(alloc: Global, edits: &[Row], row: &Row) -> Result<Vec<Command>, TableError> {
    let mut commands = Vec::new(alloc);
    for cell in row.cells.iter().skip(1) {
        if cell.key != "text" {
            commands.push(command_in(alloc, edits, cell)?)?;
        }
    }
    Ok(commands)
}

// Does as one step what commands do one after another.
fn make_group(
    alloc: Global,
    session: &mut Session,
    commands: &[Command],
) -> Result<(), AllocError> {
    let mut group = session.begin()?;
    group.obey_all(alloc, commands, &mut Meter::new())?;
    session.commit(group)
}

// Begins a group, does the same, and drops it.
fn drop_group(alloc: Global, session: &Session, commands: &[Command]) -> Result<(), AllocError> {
    let mut group = session.begin()?;
    group.obey_all(alloc, commands, &mut Meter::new())?;
    Ok(())
}

fn check_group(rt: &impl Abort, alloc: Global, edits: &[Row], row: &Row) -> Result<(), Fail> {
    let message = bytes_in(row, "message")?;
    let commands = commands_in(alloc, edits, row)?;
    let mut session = session_over(alloc, message)?;
    drop_group(alloc, &session, &commands)?;
    check_state(rt, alloc, &session, State::new(message, 0, 0), row.shows)?;
    make_group(alloc, &mut session, &commands)?;
    let before = State::new(message, 0, 1);
    let after = State::new(bytes_in(row, "text")?, 1, 0);
    check_round(rt, alloc, &mut session, before, after, row.shows)
}

#[test]
fn what_a_group_does_is_one_step(rt: HostRuntime) -> Result<(), Fail> {
    let alloc = rt.alloc();
    let edits = named_edits(alloc)?;
    let all = rows(alloc, ROWS)?;
    assert_eq!(rt; all.len(), 6);
    for row in &all {
        check_group(&rt, alloc, &edits, row)?;
    }
    Ok(())
}
