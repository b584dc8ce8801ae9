//! Growths of memory that are refused to a decision: it gives its answer when it is made again. `checks/refuse` runs the
//! test here with each growth refused in turn.

use super::checks::wanted_in;
use super::memory::{EDITS, SCENE};
use super::{bytes_in, edit_in, if_memory, only_row, read};
use mk_decide::{Replacement, decide};
use mk_edit::EditError;
use mk_line::Meter;
use mk_rows::{Row, rows};
use mk_tree::Doc;
use std::alloc::Global;
use std::process::Abort;
use std::test::Fail;

// Whether a replacement turns a text into another.
fn gives(made: &Replacement, text: &[u8], other: &[u8]) -> bool {
    let Some((front, following)) = text.split_at_checked(made.place) else {
        return false;
    };
    let Some((_, rest)) = following.split_at_checked(made.count) else {
        return false;
    };
    match other.strip_prefix(front) {
        Some(other) => other.strip_prefix(made.new.as_slice()) == Some(rest),
        None => false,
    }
}

fn check_decision(rt: &impl Abort, alloc: Global, doc: &Doc, row: &Row) -> Result<(), Fail> {
    let Some(edit) = if_memory(edit_in(alloc, row))? else {
        return Ok(());
    };
    let found = match decide(alloc, doc, &edit, &mut Meter::new()) {
        Err(EditError::Memory) => decide(alloc, doc, &edit, &mut Meter::new()),
        found => found,
    };
    match (found, wanted_in(row)?) {
        (Ok(made), Ok(other)) => assert!(rt; gives(&made, doc.text(), other), "{}", row.shows),
        (Err(error), Err(refusal)) => assert_eq!(rt; error, refusal, "{}", row.shows),
        _ => assert!(rt; false, "{}", row.shows),
    }
    Ok(())
}

// Where a test itself gets no memory, there is nothing to see.

#[test]
fn memory_decide(rt: HostRuntime) -> Result<(), Fail> {
    let alloc = rt.alloc();
    if let Some(setting) = if_memory(only_row(alloc, SCENE))?
        && let Ok(doc) = read(alloc, bytes_in(&setting, "now")?)
        && let Ok(all) = rows(alloc, EDITS)
    {
        assert_eq!(rt; all.len(), 11);
        for row in &all {
            check_decision(&rt, alloc, &doc, row)?;
        }
    }
    Ok(())
}
