//! Edits that the tables of groups and of histories name.

use super::{TableError, edit_in};
use mk_edit::Edit;
use mk_rows::{Row, rows};
use std::alloc::{AllocError, Global};

const EDITS: &str = r#"
== add A
at: 1
edit: add
with: A: b\n

== add C
at: 1
edit: add
with: C: d\n

== add E
at: 1
edit: add
with: E: f\n

== add Z at the top
at: 1
edit: add at the top
with: Z: z\n

== remove A
at: 1
edit: remove
name: A
number: 1

== remove X
at: 1
edit: remove
name: X
number: 1

== remove the second x
at: 1
edit: remove
name: x
number: 2

== remove Y
at: 1
edit: remove
name: Y
number: 1

== remove Z
at: 1
edit: remove
name: Z
number: 1

== remove the type
at: 1
edit: remove
name: content-type
number: 1

== rename X to Content-Type
at: 1
edit: rename
name: X
number: 1
to: Content-Type

== rename X to Old-X
at: 1
edit: rename
name: X
number: 1
to: Old-X

== rename Old-X to X Y
at: 1
edit: rename
name: Old-X
number: 1
to: X Y

== insert the first part
at: 1
edit: insert
place: 0
with: Content-Transfer-Encoding: base64\n\naGk=\n

== remove the first part
at: 1.1
edit: remove part
"#;

/// The edits, each as a row with its name.
pub fn named_edits(alloc: Global) -> Result<Vec<Row>, AllocError> {
    rows(alloc, EDITS)
}

/// The edit of a name.
pub fn edit_named(alloc: Global, edits: &[Row], name: &'static str) -> Result<Edit, TableError> {
    match edits.iter().find(|edit| edit.shows == name) {
        Some(edit) => edit_in(alloc, edit),
        None => Err(TableError::Word(name)),
    }
}

/// The edits that the cells of a key name, in their order.
pub fn edits_in(
    alloc: Global,
    edits: &[Row],
    row: &Row,
    key: &str,
) -> Result<Vec<Edit>, TableError> {
    let mut all = Vec::new(alloc);
    for cell in &row.cells {
        if cell.key == key {
            all.push(edit_named(alloc, edits, cell.text)?)?;
        }
    }
    Ok(all)
}
