//! Scripts of which all edits are one step. What comes of a run is worked out by hand.

use super::devices::{Page, Text};
use super::memory::page;
use super::{SIZES, check_left, pieces_of};
use mk_rows::{Row, rows};
use mk_run::{Journal, Pieces, Script, Status, give_up, run_edit, try_edit};
use std::alloc::Global;
use std::process::Abort;
use std::test::Fail;

const CASES: &str = r#"
== all edits are made
message: A: b\n
script: add 1 C: d\ndel 1 A 1\nadd 1 E: f\n
output: C: d\nE: f\n
status: Well

== one edit is refused, so none is made
message: A: b\n
script: add 1 C: d\n\n# a remark\ndel 1 Z 1\nadd 1 E: f
output: A: b\n
errors: line 4: NoSuchField\n
status: Refused

== no edit at all
message: A: b\n\nx
script: # nothing\n
output: A: b\n\nx
status: Well

== fields get the ending of the message before the first edit
message: A: b\r\n
script: set 1 A 1 C: d\nadd 1 E: f\n
output: C: d\r\nE: f\r\n
status: Well

== a piece takes the place of the message, and a field goes into it
message: A: b\n
script: replace 1 2\nadd 1 E: f\n
piece: x
piece: C: d\n\ny\n
output: C: d\nE: f\n\ny\n
status: Well

== what takes back an edit is no edit, and the first fault counts
message: A: b\n
script: add 1 C: d\nundo\nadd 1\n
errors: script: line 2: syntax\n
status: Usage

== what makes an edit again is none
message: A: b\n
script: \nredo\n
errors: script: line 2: syntax\n
status: Usage

== no group begins
message: A: b\n
script: add 1 C: d\nbegin\nadd 1 E: f\nend\n
errors: script: line 2: syntax\n
status: Usage

== no group ends
message: A: b\n
script: add 1 C: d\nadd 1 E: f\nend\n
errors: script: line 3: syntax\n
status: Usage

== a line that says nothing
message: A: b\n
script: add 1 C: d\nbogus\n
errors: script: line 2: syntax\n
status: Usage
"#;

fn check_row(rt: &impl Abort, alloc: Global, row: &Row, size: usize) -> Result<(), Fail> {
    let script = Script {
        text: row.bytes("script"),
        as_one: true,
    };
    let pieces = pieces_of(alloc, row)?;
    let mut input = Text::new(row.bytes("message"), size);
    let mut out = Page::new(alloc, size)?;
    let mut err = Page::new(alloc, size)?;
    let mut jout = Page::new(alloc, size)?;
    let journal = Journal::Off;
    let done = try_edit(
        alloc,
        &mut input,
        &mut out,
        &mut err,
        script,
        Pieces::as_given(&pieces),
        journal,
        &mut jout,
    );
    let status = match done {
        Ok(status) => status,
        Err(cause) => give_up(&mut err, cause),
    };
    check_left(rt, alloc, row, status, &out, &err)
}

#[test]
fn all_edits_or_none(rt: HostRuntime) -> Result<(), Fail> {
    for row in &rows(rt.alloc(), CASES)? {
        for size in SIZES {
            check_row(&rt, rt.alloc(), row, size)?;
        }
    }
    Ok(())
}

const MESSAGE: &[u8] = b"A: b\n\nx\n";

const EDITED: &[u8] = b"C: d\nE: f\n\nx\n";

const SCRIPT: Script<'static> = Script {
    text: b"del 1 A 1\nadd 1 C: d\nadd 1 E: f\n",
    as_one: true,
};

// The edits are made and kept in a journal, or the run is given up when memory runs out.
fn check_kept(
    rt: &impl Abort,
    alloc: Global,
    mut out: Page,
    mut err: Page,
    jout: &mut Page,
) -> Status {
    let mut input = Text::new(MESSAGE, 1_000);
    let pieces = Vec::new(alloc);
    let journal = Journal::New;
    match try_edit(
        alloc,
        &mut input,
        &mut out,
        &mut err,
        SCRIPT,
        Pieces::as_given(&pieces),
        journal,
        jout,
    ) {
        Ok(status) => {
            assert_eq!(rt; out.bytes(), EDITED);
            status
        }
        Err(cause) => {
            assert_eq!(rt; out.bytes(), b"".as_slice());
            assert_eq!(rt; jout.bytes(), b"".as_slice());
            give_up(&mut err, cause)
        }
    }
}

#[test]
fn memory_for_one_step(rt: HostRuntime) {
    let alloc = rt.alloc();
    let (Ok(out), Ok(err), Ok(mut jout)) = (
        Page::new(alloc, 1_000),
        Page::new(alloc, 1_000),
        Page::new(alloc, 1_000),
    ) else {
        return;
    };
    if check_kept(&rt, alloc, out, err, &mut jout) == Status::Memory {
        let (out, err) = (page(&rt, alloc), page(&rt, alloc));
        assert_eq!(rt;
            check_kept(&rt, alloc, out, err, &mut page(&rt, alloc)),
            Status::Well
        );
    }
}

#[test]
fn a_later_run_takes_back_all_at_once(rt: HostRuntime) -> Result<(), Fail> {
    let alloc = rt.alloc();
    let mut kept = Page::new(alloc, 1_000)?;
    let (out, err) = (page(&rt, alloc), page(&rt, alloc));
    assert_eq!(rt; check_kept(&rt, alloc, out, err, &mut kept), Status::Well);
    let mut input = Text::new(EDITED, 1_000);
    let mut out = Page::new(alloc, 1_000)?;
    let mut err = Page::new(alloc, 1_000)?;
    let mut jout = Page::new(alloc, 1_000)?;
    let status = run_edit(
        alloc,
        &mut input,
        &mut out,
        &mut err,
        b"undo\nundo\n",
        &[],
        Journal::Old(kept.bytes()),
        &mut jout,
    );
    assert_eq!(rt; status, Status::Refused);
    assert_eq!(rt; out.bytes(), MESSAGE);
    assert_eq!(rt; err.bytes(), b"line 2: NothingToUndo\n".as_slice());
    Ok(())
}
