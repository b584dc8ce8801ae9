//! Tables of test rows, written as text.
//!
//! A line `== NAME` begins a row and says what it shows; each line `KEY: VALUE` after it is a cell. In a value `\n`,
//! `\r` and `\t` are those bytes, `\\` is a backslash, and `\xHH` is any byte. Lines of other forms are for the reader
//! of the table alone.
//!
//! ```
//! let table = rows(rt.alloc(), "== a line\ntext: a\\r\\n\nnumber: 12\n")?;
//! assert_eq!(rt; table.len(), 1);
//! for row in &table {
//!     assert_eq!(rt; row.shows, "a line");
//!     assert_eq!(rt; row.bytes("text"), b"a\r\n".as_slice());
//!     assert_eq!(rt; row.number("number"), 12);
//! }
//! ```
//!
//! The example is run by `a_table_of_one_row` in `mk_rows/src/tests.rt`.
//!
//! Tests: `mk_rows/src/tests.rt`.
#![tactic(auto)]

mod escapes;
#[cfg(test)]
mod tests;

use escapes::unescaped;
use std::alloc::{AllocError, Global};

/// A row of a table.
#[derive(Debug, Drop)]
pub struct Row {
    /// What it shows.
    pub shows: &'static str,
    /// Its cells, in their order.
    pub cells: Vec<Cell>,
}

/// A cell of a row.
#[derive(Debug, Drop)]
pub struct Cell {
    pub key: &'static str,
    /// Its value as it is written.
    pub text: &'static str,
    /// The bytes that its value stands for.
    pub bytes: Vec<u8>,
}

impl Row {
    /// The first cell with a key.
    pub fn get(&self, key: &str) -> Option<&Cell> {
        self.cells.iter().find(|cell| cell.key == key)
    }

    /// The bytes of the first cell with a key; none where there is no such cell.
    pub fn bytes(&self, key: &str) -> &[u8] {
        match self.get(key) {
            Some(cell) => &cell.bytes,
            None => &[],
        }
    }

    /// The first cell with a key, as it is written; empty where there is no such cell.
    pub fn text(&self, key: &str) -> &'static str {
        match self.get(key) {
            Some(cell) => cell.text,
            None => "",
        }
    }

    /// The number in the first cell with a key; 0 where there is none.
    pub fn number(&self, key: &str) -> u32 {
        self.text(key).parse().unwrap_or(0)
    }

    /// The numbers in the first cell with a key, with dots between them.
    pub fn path(&self, alloc: Global, key: &str) -> Result<Vec<u32>, AllocError> {
        let mut path = Vec::new(alloc);
        for number in self.text(key).split('.') {
            if let Ok(number) = number.parse() {
                path.push(number)?;
            }
        }
        Ok(path)
    }
}

/// The rows of a table.
pub fn rows(alloc: Global, table: &'static str) -> Result<Vec<Row>, AllocError> {
    let mut all = Vec::new(alloc);
    for line in table.lines() {
        if let Some(shows) = line.strip_prefix("== ") {
            let cells = Vec::new(alloc);
            all.push(Row { shows, cells })?;
        } else if let (Some(row), Some((key, value))) = (all.last_mut(), line.split_once(':')) {
            let text = value.strip_prefix(" ").unwrap_or(value);
            let bytes = unescaped(alloc, text)?;
            row.cells.push(Cell { key, text, bytes })?;
        }
    }
    Ok(all)
}
