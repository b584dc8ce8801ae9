//! Steps of several replacements, made and taken back.

use super::bytes_in;
use super::checks::{State, check_answer, check_round};
use super::journals::{journal_in, load};
use mk_rows::{Row, rows};
use std::alloc::Global;
use std::process::Abort;
use std::test::Fail;

/// A text, what it becomes by a step, and the journal in which that step isn't done: a place, the sizes of the old and of the new
/// bytes, and these bytes, for each replacement.
const ROWS: &str = r"
== fields go from the last to the first
text: A: b\nC: d\nE: f\n\nbody\n
after: G: long field\n\nbody\n
digest: 5e44bc2332064365ba1a376c4dd8fa77ec3d6beeaf001122911169b46260009d
journal: 0 1\n3\n10 5 0\nE: f\n\n5 5 0\nC: d\n\n0 5 14\nA: b\nG: long field\n\n

== fields change from the first to the last
text: A: b\nC: d\nE: f\n\nbody\n
after: X: y\nA: b\nE: other\n\nbody\n
digest: 5e44bc2332064365ba1a376c4dd8fa77ec3d6beeaf001122911169b46260009d
journal: 0 1\n3\n0 0 5\nX: y\n\n10 5 0\nC: d\n\n10 5 9\nE: f\nE: other\n\n

== a body becomes longer and shorter, with fields between
text: A: b\nC: d\nE: f\n\nbody\n
after: C: d\nE: g\n h\n\nx\n
digest: 5e44bc2332064365ba1a376c4dd8fa77ec3d6beeaf001122911169b46260009d
journal: 0 1\n4\n16 5 14\nbody\na longer body\n\n0 5 0\nA: b\n\n11 14 2\na longer body\nx\n\n5 5 8\nE: f\nE: g\n h\n\n

== all goes, and other text comes
text: A: b\nC: d\nE: f\n\nbody\n
after: C: d\nE: f\n\nx\n
digest: 5e44bc2332064365ba1a376c4dd8fa77ec3d6beeaf001122911169b46260009d
journal: 0 1\n4\n0 21 0\nA: b\nC: d\nE: f\n\nbody\n\n0 0 5\nA: b\n\n5 0 3\n\nx\n\n0 5 10\nA: b\nC: d\nE: f\n\n
";

// The step of a row is made, taken back and made again.
fn check_step(rt: &impl Abort, alloc: Global, row: &Row) -> Result<(), Fail> {
    let text = bytes_in(row, "text")?;
    let Ok(mut session) = load(alloc, text, &journal_in(alloc, row)?)? else {
        return Err(Fail::new(row.shows));
    };
    check_answer(rt, session.redo(), Ok(()), row.shows);
    let before = State::new(text, 0, 1);
    let after = State::new(bytes_in(row, "after")?, 1, 0);
    check_round(rt, alloc, &mut session, before, after, row.shows)
}

#[test]
fn steps_are_made_and_taken_back_in_any_order(rt: HostRuntime) -> Result<(), Fail> {
    let alloc = rt.alloc();
    let all = rows(alloc, ROWS)?;
    assert_eq!(rt; all.len(), 4);
    for row in &all {
        check_step(&rt, alloc, row)?;
    }
    Ok(())
}
