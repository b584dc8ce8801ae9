//! Groups of edits: what they leave, and what of them is told where one is refused.

use super::checks::{State, check_count, check_round, check_state, same, wanted_in};
use super::named::{edit_named, edits_in, named_edits};
use super::{TableError, check_keys, if_memory, number_in, only_row, session_over};
use mk_edit::{Command, Edit, EditError, GroupError, Reply, Session};
use mk_line::Meter;
use mk_rows::{Row, rows};
use std::alloc::Global;
use std::process::Abort;
use std::test::Fail;

/// Groups of edits of the root of an empty message, and what must come of each: the text after it, or the number of the
/// refused edit and the reason.
const ROWS: &str = r"
== no edits
gives:

== edits of what earlier ones gave
do: add A
do: add C
do: remove A
gives: C: d\n

== an edit that the earlier ones took away
do: add A
do: remove A
do: remove A
index: 2
refused: NoSuchField

== a refused edit before another
do: add A
do: remove Z
do: add C
index: 1
refused: NoSuchField
";

/// The reason for which an edit of a group is refused.
pub fn reason(error: GroupError) -> EditError {
    match error {
        GroupError::Member { refusal, .. } => refusal,
        GroupError::Memory => EditError::Memory,
    }
}

// The group of a row.
fn group_in(alloc: Global, edits: &[Row], row: &Row) -> Result<Vec<Edit>, TableError> {
    check_keys(row, "do gives index refused")?;
    edits_in(alloc, edits, row, "do")
}

// The group of a row after one step that is done and one that is undone.
fn commands_in(alloc: Global, edits: &[Row], row: &Row) -> Result<Vec<Command>, TableError> {
    let mut commands = Vec::new(alloc);
    commands.push(Command::Group(Vec::new(alloc)))?;
    commands.push(Command::Do(edit_named(alloc, edits, "add C")?))?;
    commands.push(Command::Undo)?;
    commands.push(Command::Group(group_in(alloc, edits, row)?))?;
    Ok(commands)
}

/// The answer to the group of a row.
pub fn answer_in(row: &Row) -> Result<Result<(), GroupError>, TableError> {
    match wanted_in(row)? {
        Ok(_) => Ok(Ok(())),
        Err(refusal) => {
            let index = number_in(row, "index")? as usize;
            Ok(Err(GroupError::Member { index, refusal }))
        }
    }
}

// What is replied where a group is answered so.
fn reply_of(answer: Result<(), GroupError>) -> Option<Reply> {
    match answer {
        Ok(()) => Some(Reply::Obeyed),
        Err(GroupError::Member { index, refusal }) => {
            Some(Reply::MemberRefused { index, refusal })
        }
        Err(GroupError::Memory) => None,
    }
}

fn check_reply(rt: &impl Abort, reply: Option<Reply>, wanted: Option<Reply>, shows: &str) {
    assert_eq!(rt; reply, wanted, "{shows}");
}

// The group of a row was the last command to a session.
fn check_left(
    rt: &impl Abort,
    alloc: Global,
    session: &mut Session,
    row: &Row,
) -> Result<(), Fail> {
    let before = State::new(b"", 1, 1);
    match row.get("gives") {
        Some(after) => {
            let after = State::new(&after.bytes, 2, 0);
            check_round(rt, alloc, session, before, after, row.shows)
        }
        None => check_state(rt, alloc, session, before, row.shows),
    }
}

fn check_row(rt: &impl Abort, alloc: Global, edits: &[Row], row: &Row) -> Result<(), Fail> {
    let wanted = reply_of(answer_in(row)?);
    let commands = commands_in(alloc, edits, row)?;
    let mut session = session_over(alloc, b"")?;
    let replies = session.obey_all(alloc, &commands, &mut Meter::new())?;
    check_reply(rt, replies.last().copied(), wanted, row.shows);
    check_left(rt, alloc, &mut session, row)
}

#[test]
fn groups_are_one_step_or_none(rt: HostRuntime) -> Result<(), Fail> {
    let alloc = rt.alloc();
    let edits = named_edits(alloc)?;
    let all = rows(alloc, ROWS)?;
    assert_eq!(rt; all.len(), 4);
    for row in &all {
        check_row(&rt, alloc, &edits, row)?;
    }
    Ok(())
}

/// A group that answers by name what is replied to it as a command.
const REFUSED: &str = r"
== a refused edit between two
do: add A
do: remove Z
do: add C
index: 1
refused: NoSuchField
";

/// A group is answered as its row says.
pub fn check_group(
    rt: &impl Abort,
    answer: Result<(), GroupError>,
    wanted: Result<(), GroupError>,
    shows: &str,
) {
    assert_eq!(rt; answer, wanted, "{shows}");
}

fn check_refused(rt: &impl Abort, alloc: Global, edits: &[Row], row: &Row) -> Result<(), Fail> {
    let list = group_in(alloc, edits, row)?;
    let wanted = answer_in(row)?;
    let mut session = session_over(alloc, b"")?;
    let answer = session.group(&list, &mut Meter::new());
    check_group(rt, answer, wanted, row.shows);
    check_state(rt, alloc, &session, State::new(b"", 0, 0), row.shows)
}

#[test]
fn groups_name_the_refused_edit(rt: HostRuntime) -> Result<(), Fail> {
    let alloc = rt.alloc();
    let edits = named_edits(alloc)?;
    let row = only_row(alloc, REFUSED)?;
    check_refused(&rt, alloc, &edits, &row)
}

/// A group that is made again where memory is refused to it, after edits of which the last is taken back.
const MADE_AGAIN: &str = r"
== a field more and a field less
first: add A
first: add C
do: add C
do: remove A
message: A: b\n
gives: C: d\n
";

// A row, the edits before its group, and the group.
#[derive(Drop)]
struct Scene {
    row: Row,
    first: Vec<Edit>,
    group: Vec<Edit>,
}

fn read_scene(alloc: Global) -> Result<Scene, TableError> {
    let edits = named_edits(alloc)?;
    let row = only_row(alloc, MADE_AGAIN)?;
    check_keys(&row, "first do message gives")?;
    let first = edits_in(alloc, &edits, &row, "first")?;
    let group = edits_in(alloc, &edits, &row, "do")?;
    Ok(Scene { row, first, group })
}

// A session with the first edits done, but for the last, which is undone.
fn with_undone(alloc: Global, first: &[Edit]) -> Result<Session, EditError> {
    let mut session = session_over(alloc, b"")?;
    for edit in first {
        session.edit(edit, &mut Meter::new())?;
    }
    session.undo()?;
    Ok(session)
}

fn check_made_again(rt: &impl Abort, session: &mut Session, scene: &Scene) {
    let shows = scene.row.shows;
    if session.group(&scene.group, &mut Meter::new()) == Err(GroupError::Memory) {
        same(rt, session.text(), scene.row.bytes("message"), shows);
        check_count(rt, session, 1, 1, shows);
        let again = session.group(&scene.group, &mut Meter::new());
        check_group(rt, again, Ok(()), shows);
    }
    same(rt, session.text(), scene.row.bytes("gives"), shows);
    check_count(rt, session, 2, 0, shows);
}

#[test]
fn groups_that_want_memory_change_nothing(rt: HostRuntime) -> Result<(), Fail> {
    let alloc = rt.alloc();
    // Where the test itself gets no memory, there is nothing to see.
    if let Some(scene) = if_memory(read_scene(alloc))?
        && let Ok(mut session) = with_undone(alloc, &scene.first)
    {
        check_made_again(&rt, &mut session, &scene);
    }
    Ok(())
}
