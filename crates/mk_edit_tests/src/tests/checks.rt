//! Checks that the tables share.
use super::flat::{Item, flattened};
use super::{TableError, bytes_in, edit_in, read, reason_of, session_over};
use mk_edit::{EditError, Session};
use mk_line::Meter;
use mk_rows::{Row, rows};
use std::alloc::Global;
use std::process::Abort;
use std::test::Fail;

/// What must come of a row: the text that it gives, or the reason for which it is refused.
pub fn wanted_in(row: &Row) -> Result<Result<&[u8], EditError>, TableError> {
    match (row.get("gives"), row.get("refused")) {
        (Some(after), None) => Ok(Ok(&after.bytes)),
        (None, Some(reason)) => Ok(Err(reason_of(reason.text)?)),
        _ => Err(TableError::Cell {
            shows: row.shows,
            key: "gives",
        }),
    }
}

/// Makes the edits of a table of this many rows, takes them back and makes them again. A row has a message, the path of a
/// section in it, an edit, and the text that the edit gives or the reason for which it is refused.
pub fn check_rows(
    rt: &impl Abort,
    alloc: Global,
    table: &'static str,
    count: usize,
) -> Result<(), Fail> {
    let all = rows(alloc, table)?;
    assert_eq!(rt; all.len(), count);
    for row in &all {
        check_row(rt, alloc, row)?;
    }
    Ok(())
}

fn check_row(rt: &impl Abort, alloc: Global, row: &Row) -> Result<(), Fail> {
    let text = bytes_in(row, "message")?;
    let edit = edit_in(alloc, row)?;
    let mut session = session_over(alloc, text)?;
    let checked = session.check(&edit, &mut Meter::new());
    check_state(rt, alloc, &session, State::new(text, 0, 0), row.shows)?;
    let answer = session.edit(&edit, &mut Meter::new());
    check_answer(rt, checked, answer, row.shows);
    check_left(rt, alloc, &mut session, answer, row)
}

// The edit of a row was answered as the row says, and left what it has to leave.
fn check_left(
    rt: &impl Abort,
    alloc: Global,
    session: &mut Session,
    answer: Result<(), EditError>,
    row: &Row,
) -> Result<(), Fail> {
    let text = row.bytes("message");
    match wanted_in(row)? {
        Ok(after) => {
            check_answer(rt, answer, Ok(()), row.shows);
            let (before, after) = (State::new(text, 0, 1), State::new(after, 1, 0));
            check_round(rt, alloc, session, before, after, row.shows)
        }
        Err(refusal) => {
            check_answer(rt, answer, Err(refusal), row.shows);
            check_state(rt, alloc, session, State::new(text, 0, 0), row.shows)
        }
    }
}

/// A text, and how many steps are done and undone.
#[derive(Clone, Copy)]
pub struct State<'a> {
    text: &'a [u8],
    done: usize,
    undone: usize,
}

impl<'a> State<'a> {
    pub fn new(text: &'a [u8], done: usize, undone: usize) -> State<'a> {
        State { text, done, undone }
    }
}

/// A call answers as it has to.
pub fn check_answer(
    rt: &impl Abort,
    answer: Result<(), EditError>,
    wanted: Result<(), EditError>,
    shows: &str,
) {
    assert_eq!(rt; answer, wanted, "{shows}");
}

/// A text is the one that is wanted.
pub fn same(rt: &impl Abort, text: &[u8], wanted: &[u8], shows: &str) {
    assert_eq!(rt; text, wanted, "{shows}");
}

/// This many steps of a session are done and undone.
pub fn check_count(rt: &impl Abort, session: &Session, done: usize, undone: usize, shows: &str) {
    assert_eq!(rt;
        (session.done(), session.undone()),
        (done, undone),
        "{shows}"
    );
}

/// A session has a text, and the tree that this is read as.
pub fn check_text(
    rt: &impl Abort,
    alloc: Global,
    session: &Session,
    text: &[u8],
    shows: &str,
) -> Result<(), Fail> {
    same(rt, session.text(), text, shows);
    same(rt, session.doc().text(), text, shows);
    let again = read(alloc, text)?;
    let items = flattened(alloc, session.doc())?;
    same_items(rt, &items, &flattened(alloc, &again)?, shows);
    Ok(())
}

fn same_items(rt: &impl Abort, items: &[Item], wanted: &[Item], shows: &str) {
    assert_eq!(rt; items, wanted, "{shows}");
}

/// A session has a text, the tree that this is read as, and this many steps.
pub fn check_state(
    rt: &impl Abort,
    alloc: Global,
    session: &Session,
    state: State<'_>,
    shows: &str,
) -> Result<(), Fail> {
    check_count(rt, session, state.done, state.undone, shows);
    check_text(rt, alloc, session, state.text, shows)
}

/// A session has a text and this many steps. Unlike the other checks of a state, this takes no memory.
pub fn check_bare(rt: &impl Abort, session: &Session, state: State<'_>, shows: &str) {
    check_count(rt, session, state.done, state.undone, shows);
    same(rt, session.text(), state.text, shows);
}

/// A session has the state after a step; the step is taken back and made again.
pub fn check_round(
    rt: &impl Abort,
    alloc: Global,
    session: &mut Session,
    before: State<'_>,
    after: State<'_>,
    shows: &str,
) -> Result<(), Fail> {
    check_state(rt, alloc, session, after, shows)?;
    check_answer(rt, session.undo(), Ok(()), shows);
    check_state(rt, alloc, session, before, shows)?;
    check_answer(rt, session.redo(), Ok(()), shows);
    check_state(rt, alloc, session, after, shows)
}
