//! Runs of scripts on messages, over devices in memory. The expected bytes are worked out by hand.

mod addresses;
mod as_one;
mod chosen;
mod devices;
mod encodings;
mod examples;
mod failing;
mod fields;
mod filtered;
mod forwarded;
mod groups;
mod hostile;
mod jobs;
mod journals;
mod letters;
mod memory;
mod messages;
mod not_packed;
mod own_boundaries;
mod packed;
mod packed_kinds;
mod packed_names;
mod packed_pieces;
mod parts_alone;
mod pieces;
mod portions;
mod rounds;
mod runs;
mod sections_filtered;
mod several_portions;
mod shelf;
mod shown;
mod stored;
mod texts;
mod unpacked;
mod wording;

use devices::{Page, Text};
use mk_rows::{Cell, Row, rows};
use mk_run::{Journal, Status, run_edit};
use mk_script::{ScriptError, steps};
use std::alloc::{AllocError, Global};
use std::process::Abort;
use std::test::Fail;

const ROWS: &str = r#"
== a field in an empty message
message:
script: add 1 A: b
output: A: b\n
status: Well

== no field goes after an open line
message: A: b
script: add 1 C: d
output: A: b
errors: line 1: OpenLine\n
status: Refused

== a field goes before an open line
message: A: b
script: top 1 C: d
output: C: d\nA: b
status: Well

== an empty script changes no byte
message: A: b\r\n\r\nx\ry\nz
script:
output: A: b\r\n\r\nx\ry\nz
status: Well

== a body that begins with a blank would go on with the field
message: \x20x\n
script: add 1 A: b
output: \x20x\n
errors: line 1: Recut\n
status: Refused

== the syntax of the whole script comes first
message: A: b\n\nx\n
script: add 1 A: b\nadd 1.0 C: d\n
errors: script: line 2: syntax\n
status: Usage

== undoing more than was done
message: A: b\n\nx\n
script: add 1 C: d\nundo\nredo\nundo\nundo\n
output: A: b\n\nx\n
errors: line 5: NothingToUndo\n
status: Refused

== a field after an envelope line
message: From a\nx\n
script: add 1 A: b
output: From a\nA: b\nx\n
status: Well

== a text that isn't a field
message:
script: add 1 x
errors: line 1: BadField\n
status: Refused

== a field may be empty in a script, and isn't a field then
message:
script: add 1\x20
errors: line 1: BadField\n
status: Refused

== a path that leads to no section
message:
script: add 2 A: b
errors: line 1: NoSuchSection\n
status: Refused

== nothing was undone that could be redone
message: A: b\n
script: redo
output: A: b\n
errors: line 1: NothingToRedo\n
status: Refused

== what was undone is done again
message: A: b\n\nx\n
script: add 1 C: d\nundo\nredo\n
output: A: b\nC: d\n\nx\n
status: Well

== a field gets the ending of the message
message: A: b\r\n\r\nx
script: add 1 C: d
output: A: b\r\nC: d\r\n\r\nx
status: Well

== skipped lines count, and a refusal ends nothing
message: A: b\n\nx\n
script: # a remark\r\n\r\nundo\r\nadd 1 C: d\r\nredo\r\n
output: A: b\nC: d\n\nx\n
errors: line 3: NothingToUndo\nline 5: NothingToRedo\n
status: Refused

== a refused word keeps what was undone
message: A: b\n\nx\n
script: add 1 C: d\nundo\nadd 1 x\nredo\n
output: A: b\nC: d\n\nx\n
errors: line 3: BadField\n
status: Refused
"#;

/// How many bytes the devices of a test take or give at once.
const SIZES: [usize; 3] = [1, 7, 1_000];

/// Runs the scripts of a table, over devices of each size. A row has a message, a script, its pieces, its journal, and
/// what must come out.
fn check_rows(rt: &impl Abort, alloc: Global, table: &'static str) -> Result<(), Fail> {
    for row in &rows(alloc, table)? {
        check_row(rt, alloc, row)?;
    }
    Ok(())
}

fn check_row(rt: &impl Abort, alloc: Global, row: &Row) -> Result<(), Fail> {
    let script = row.bytes("script");
    let pieces = pieces_of(alloc, row)?;
    for size in SIZES {
        let mut input = Text::new(row.bytes("message"), size);
        let mut out = Page::new(alloc, size)?;
        let mut err = Page::new(alloc, size)?;
        let mut jout = Page::new(alloc, size)?;
        let status = run_edit(
            alloc,
            &mut input,
            &mut out,
            &mut err,
            script,
            &pieces,
            journal_of(row),
            &mut jout,
        );
        check_left(rt, alloc, row, status, &out, &err)?;
        check_journal(rt, row, &jout);
    }
    Ok(())
}

// The journal that a row begins with: the one in its cell `old`, or a new one where it has a cell `new`.
fn journal_of(row: &Row) -> Journal<'_> {
    match row.get("old") {
        Some(cell) => Journal::Old(&cell.bytes),
        None if row.get("new").is_some() => Journal::New,
        None => Journal::Off,
    }
}

// The journal went out whole, and nothing where the row has none.
fn check_journal(rt: &impl Abort, row: &Row, jout: &Page) {
    let left = row.bytes("left");
    assert_eq!(rt; jout.bytes(), left, "{}", row.shows);
    assert_eq!(rt;
        jout.finishes(),
        u64::from(!left.is_empty()),
        "{}",
        row.shows
    );
}

// The cells `piece` of a row.
fn pieces_of(alloc: Global, row: &Row) -> Result<Vec<Vec<u8>>, AllocError> {
    let mut pieces = Vec::new(alloc);
    for cell in &row.cells {
        if cell.key == "piece" {
            pieces.push(Vec::from_slice(alloc, &cell.bytes)?)?;
        }
    }
    Ok(pieces)
}

/// A run ended as its row says, and left the output and the errors that this has.
fn check_left(
    rt: &impl Abort,
    alloc: Global,
    row: &Row,
    status: Status,
    out: &Page,
    err: &Page,
) -> Result<(), Fail> {
    let ends_well = status == Status::Well;
    let status = format!(in alloc; "{status:?}")?;
    assert_eq!(rt; status.as_str(), row.text("status"), "{}", row.shows);
    assert_eq!(rt; out.bytes(), row.bytes("output"), "{}", row.shows);
    assert_eq!(rt; err.bytes(), row.bytes("errors"), "{}", row.shows);
    if ends_well {
        assert_eq!(rt; out.finishes(), 1, "{}", row.shows);
    }
    Ok(())
}

#[test]
fn cases_are_run(rt: HostRuntime) -> Result<(), Fail> {
    check_rows(&rt, rt.alloc(), ROWS)
}

/// Scripts, each after the number of the line with its first fault, which is 0 where there is none.
const SCRIPTS: &str = r"
== words with all that they need
0: undo
0: redo\n
0: add 1 A: b
0: top 1 A: b
0: add 1.2.30\x20
0: add 4294967295 A: b

== empty lines and remarks
0: \n#\n# undo\n

== something is missing
1: add 1
1: add

== two spaces
1: add  1 A: b

== texts that aren't paths
1: add 01 A: b
1: add 0 A: b
1: add 1. A: b
1: add .1 A: b
1: add 1..1 A: b
1: add 1.x A: b
1: add 4294967296 A: b

== a space at an end of the line
1: undo\x20
1: \x20undo
1: \x20
1: \x20# undo

== capital letters
1: Undo

== an empty line is counted, and the second fault is not named
3: undo\n\nredone\nadd\n

== a second carriage return
1: undo\r\r\n
";

/// The first fault of each script of a table is in the line that its key names.
fn check_scripts(rt: &impl Abort, alloc: Global, table: &'static str) -> Result<(), Fail> {
    for row in &rows(alloc, table)? {
        for cell in &row.cells {
            check_script(rt, alloc, cell)?;
        }
    }
    Ok(())
}

fn check_script(rt: &impl Abort, alloc: Global, cell: &Cell) -> Result<(), Fail> {
    let line = match steps(alloc, &cell.bytes, 0) {
        Ok(_) => 0,
        Err(ScriptError::Syntax(number)) => number,
        Err(ScriptError::Memory) => usize::MAX,
    };
    assert_eq!(rt; cell.key.parse(), Ok(line), "{}", cell.text);
    Ok(())
}

#[test]
fn the_first_fault_is_named(rt: HostRuntime) -> Result<(), Fail> {
    check_scripts(&rt, rt.alloc(), SCRIPTS)
}

/// Each line of a table is a step or has a fault, as its key says, where there are that many pieces.
fn check_lines(
    rt: &impl Abort,
    alloc: Global,
    table: &'static str,
    pieces: usize,
) -> Result<(), Fail> {
    for row in &rows(alloc, table)? {
        for cell in &row.cells {
            check_line(rt, alloc, cell, pieces)?;
        }
    }
    Ok(())
}

fn check_line(rt: &impl Abort, alloc: Global, cell: &Cell, pieces: usize) -> Result<(), Fail> {
    let found = steps(alloc, &cell.bytes, pieces);
    if cell.key == "step" {
        assert_eq!(rt; found?.len(), 1, "{}", cell.text);
    } else {
        assert_eq!(rt; found, Err(ScriptError::Syntax(1)), "{}", cell.text);
    }
    Ok(())
}

#[test]
fn a_path_has_at_most_101_components(rt: HostRuntime) -> Result<(), Fail> {
    let alloc = rt.alloc();
    let mut text = Vec::from_slice(alloc, b"1")?;
    for components in 1..104usize {
        let path = mk_script::path(alloc, &text)?;
        assert_eq!(rt;
            path.is_some(),
            components <= 101,
            "{components} components"
        );
        text.extend_from_slice(b".1")?;
    }
    Ok(())
}
