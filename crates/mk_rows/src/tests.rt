//! A table that is read.
use super::{Row, rows};
use std::alloc::Global;
use std::process::Abort;
use std::test::Fail;

const TABLE: &str = r#"
A table.

== first
text: a\r\n\tb\\\x80"q"
empty:
number: 12
path: 1.20.3

== second
text:  x: y
"#;

fn check_values(rt: &impl Abort, row: &Row) {
    assert_eq!(rt; row.bytes("text"), b"a\r\n\tb\\\x80\"q\"".as_slice());
    assert_eq!(rt; row.text("empty"), "");
    assert!(rt; row.get("empty").is_some());
    assert!(rt; row.get("none").is_none());
}

fn check_numbers(rt: &impl Abort, alloc: Global, row: &Row) -> Result<(), Fail> {
    assert_eq!(rt; row.number("number"), 12);
    let path = row.path(alloc, "path")?;
    assert_eq!(rt; path.as_slice(), [1, 20, 3].as_slice());
    Ok(())
}

#[test]
fn rows_have_their_cells(rt: HostRuntime) -> Result<(), Fail> {
    let table = rows(rt.alloc(), TABLE)?;
    assert_eq!(rt; table.len(), 2);
    for row in &table {
        if row.shows == "first" {
            check_values(&rt, row);
            check_numbers(&rt, rt.alloc(), row)?;
        } else {
            assert_eq!(rt; row.shows, "second");
            assert_eq!(rt; row.bytes("text"), b" x: y".as_slice());
        }
    }
    Ok(())
}

#[test]
fn a_table_of_one_row(rt: HostRuntime) -> Result<(), Fail> {
    let table = rows(rt.alloc(), "== a line\ntext: a\\r\\n\nnumber: 12\n")?;
    assert_eq!(rt; table.len(), 1);
    for row in &table {
        assert_eq!(rt; row.shows, "a line");
        assert_eq!(rt; row.bytes("text"), b"a\r\n".as_slice());
        assert_eq!(rt; row.number("number"), 12);
    }
    Ok(())
}
