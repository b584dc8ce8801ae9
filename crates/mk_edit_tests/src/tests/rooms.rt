//! A text keeps no room that only an earlier, longer one needed.

use super::checks::check_answer;
use super::session_over;
use mk_decide::Edit;
use mk_edit::Session;
use mk_line::Meter;
use std::alloc::{AllocError, Global};
use std::process::Abort;
use std::test::Fail;

/// The bytes of a long body.
const LONG: usize = 400_000;

/// The most bytes of room that a short text keeps.
const MOST: usize = 140_000;

// The edit that makes a body of this many bytes.
fn body_of(alloc: Global, size: usize) -> Result<Edit, AllocError> {
    let mut text = Vec::new(alloc);
    text.resize(size, b'x')?;
    Ok(Edit::SetBody {
        path: Vec::from_slice(alloc, &[1])?,
        text,
    })
}

fn check_edit(rt: &impl Abort, session: &mut Session, edit: &Edit) {
    let answer = session.edit(edit, &mut Meter::new());
    check_answer(rt, answer, Ok(()), "a body");
}

// Checks how much room the text of a session keeps.
fn check_room(rt: &impl Abort, session: Session) {
    let (doc, _, _) = session.into_parts();
    let room = doc.into_text().capacity();
    assert!(rt; room <= MOST, "{room} bytes of room");
}

#[test]
fn a_body_becomes_short(rt: HostRuntime) -> Result<(), Fail> {
    let alloc = rt.alloc();
    let mut session = session_over(alloc, b"A: b\n\nx\n")?;
    for size in [LONG, 2, 3] {
        check_edit(&rt, &mut session, &body_of(alloc, size)?);
    }
    check_room(&rt, session);
    Ok(())
}

#[test]
fn a_long_body_is_undone(rt: HostRuntime) -> Result<(), Fail> {
    let alloc = rt.alloc();
    let mut session = session_over(alloc, b"A: b\n\nx\n")?;
    check_edit(&rt, &mut session, &body_of(alloc, LONG)?);
    check_answer(&rt, session.undo(), Ok(()), "a body");
    check_edit(&rt, &mut session, &body_of(alloc, 2)?);
    check_room(&rt, session);
    Ok(())
}
