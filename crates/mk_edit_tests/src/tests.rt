//! What no clause says: that calls succeed, and that the clauses mean what users of messages expect. Expected values
//! are from the rules of the formats.
mod begun_groups;
mod checks;
mod counted;
mod examples;
mod fields;
mod flat;
mod groups;
mod histories;
mod journals;
mod kinds;
mod levels;
mod long_groups;
mod memory;
mod memory_decisions;
mod memory_histories;
mod memory_splices;
mod meter;
mod named;
mod names;
mod parts;
mod removals;
mod rooms;
mod sections;
mod steps;
mod wraps;

use mk_edit::{Edit, EditError, Session};
use mk_rows::{Row, rows};
use mk_tree::Doc;
use std::alloc::{AllocError, AllocFailed, Global};
use std::test::Fail;

/// Why a table can't be read.
#[derive(Clone, Copy, Debug)]
pub enum TableError {
    /// Memory ran out.
    Memory,
    /// A row doesn't have a cell that it needs, or has one that it may not have.
    Cell {
        shows: &'static str,
        key: &'static str,
    },
    /// A word means nothing.
    Word(&'static str),
    /// A table that is to have one row has none, or this many more.
    Rows(usize),
    /// An edit that a table begins with is refused.
    Refused(EditError),
}

impl From<AllocError> for TableError {
    fn from(_error: AllocError) -> TableError {
        TableError::Memory
    }
}

impl<T: Drop> From<AllocFailed<T>> for TableError {
    fn from(_error: AllocFailed<T>) -> TableError {
        TableError::Memory
    }
}

impl From<EditError> for TableError {
    fn from(error: EditError) -> TableError {
        match error {
            EditError::Memory => TableError::Memory,
            error => TableError::Refused(error),
        }
    }
}

/// What was read, or nothing where there was no memory for it. Other errors fail.
pub fn if_memory<T>(read: Result<T, TableError>) -> Result<Option<T>, Fail> {
    match read {
        Ok(value) => Ok(Some(value)),
        Err(TableError::Memory) => Ok(None),
        Err(error) => Err(Fail::from(error)),
    }
}

/// The only row of a table.
pub fn only_row(alloc: Global, table: &'static str) -> Result<Row, TableError> {
    let mut all = rows(alloc, table)?;
    match all.pop() {
        Some(row) if all.is_empty() => Ok(row),
        _ => Err(TableError::Rows(all.len())),
    }
}

/// The bytes of a cell that a row needs.
pub fn bytes_in<'a>(row: &'a Row, key: &'static str) -> Result<&'a [u8], TableError> {
    match row.get(key) {
        Some(cell) => Ok(&cell.bytes),
        None => Err(TableError::Cell {
            shows: row.shows,
            key,
        }),
    }
}

/// The number in a cell that a row needs.
pub fn number_in(row: &Row, key: &'static str) -> Result<u32, TableError> {
    match row.text(key).parse() {
        Ok(number) => Ok(number),
        Err(_) => Err(TableError::Cell {
            shows: row.shows,
            key,
        }),
    }
}

/// The path in the cell `at` of a row.
pub fn path_in(alloc: Global, row: &Row) -> Result<Vec<u32>, TableError> {
    let numbers = match bytes_in(row, "at")? {
        [] => 0,
        _ => row.text("at").split('.').count(),
    };
    let path = row.path(alloc, "at")?;
    if path.len() == numbers {
        Ok(path)
    } else {
        Err(TableError::Cell {
            shows: row.shows,
            key: "at",
        })
    }
}

/// A row has no cells but those with these keys.
pub fn check_keys(row: &Row, keys: &'static str) -> Result<(), TableError> {
    for cell in &row.cells {
        if !keys.split(' ').any(|key| key == cell.key) {
            return Err(TableError::Cell {
                shows: row.shows,
                key: cell.key,
            });
        }
    }
    Ok(())
}

/// An edit at a section that is named beside it.
#[derive(Clone, Copy, Debug)]
pub enum Asked<'a> {
    AddField {
        top: bool,
        text: &'a [u8],
    },
    RemoveField {
        name: &'a [u8],
        k: u32,
    },
    RenameField {
        name: &'a [u8],
        k: u32,
        to: &'a [u8],
    },
    SetField {
        name: &'a [u8],
        k: u32,
        text: &'a [u8],
    },
    SetBody {
        text: &'a [u8],
    },
    SetSection {
        text: &'a [u8],
    },
    InsertPart {
        place: u32,
        text: &'a [u8],
    },
    RemovePart,
    Wrap {
        subtype: &'a [u8],
        boundary: &'a [u8],
    },
}

/// The edit that a row asks for.
pub fn asked_in(row: &Row) -> Result<Asked<'_>, TableError> {
    match row.text("edit") {
        "add" => added_in(row, false),
        "add at the top" => added_in(row, true),
        "body" => {
            let text = bytes_in(row, "with")?;
            Ok(Asked::SetBody { text })
        }
        "section" => {
            let text = bytes_in(row, "with")?;
            Ok(Asked::SetSection { text })
        }
        "insert" => {
            let place = number_in(row, "place")?;
            let text = bytes_in(row, "with")?;
            Ok(Asked::InsertPart { place, text })
        }
        "remove part" => Ok(Asked::RemovePart),
        "wrap" => {
            let subtype = bytes_in(row, "subtype")?;
            let boundary = bytes_in(row, "boundary")?;
            Ok(Asked::Wrap { subtype, boundary })
        }
        _ => asked_of_field_in(row),
    }
}

fn added_in(row: &Row, top: bool) -> Result<Asked<'_>, TableError> {
    let text = bytes_in(row, "with")?;
    Ok(Asked::AddField { top, text })
}

// The same for a field that is there.
fn asked_of_field_in(row: &Row) -> Result<Asked<'_>, TableError> {
    let name = bytes_in(row, "name")?;
    let k = number_in(row, "number")?;
    match row.text("edit") {
        "remove" => Ok(Asked::RemoveField { name, k }),
        "rename" => {
            let to = bytes_in(row, "to")?;
            Ok(Asked::RenameField { name, k, to })
        }
        "set" => {
            let text = bytes_in(row, "with")?;
            Ok(Asked::SetField { name, k, text })
        }
        word => Err(TableError::Word(word)),
    }
}

/// The edit that a row asks for, of the section at its path.
pub fn edit_in(alloc: Global, row: &Row) -> Result<Edit, TableError> {
    let path = path_in(alloc, row)?;
    let asked = asked_in(row)?;
    Ok(edit_at(alloc, &path, asked)?)
}

/// The edit of a section that is asked for.
pub fn edit_at(alloc: Global, path: &[u32], asked: Asked<'_>) -> Result<Edit, AllocError> {
    let path = Vec::from_slice(alloc, path)?;
    let edit = match asked {
        Asked::AddField { top, text } => {
            let text = Vec::from_slice(alloc, text)?;
            Edit::AddField { path, top, text }
        }
        Asked::RemoveField { name, k } => {
            let name = Vec::from_slice(alloc, name)?;
            Edit::RemoveField { path, name, k }
        }
        Asked::RenameField { name, k, to } => {
            let name = Vec::from_slice(alloc, name)?;
            let to = Vec::from_slice(alloc, to)?;
            Edit::RenameField { path, name, k, to }
        }
        Asked::SetField { name, k, text } => {
            let name = Vec::from_slice(alloc, name)?;
            let text = Vec::from_slice(alloc, text)?;
            Edit::SetField {
                path,
                name,
                k,
                text,
            }
        }
        Asked::SetBody { text } => {
            let text = Vec::from_slice(alloc, text)?;
            Edit::SetBody { path, text }
        }
        Asked::SetSection { text } => {
            let text = Vec::from_slice(alloc, text)?;
            Edit::SetSection { path, text }
        }
        Asked::InsertPart { place, text } => {
            let text = Vec::from_slice(alloc, text)?;
            Edit::InsertPart { path, place, text }
        }
        Asked::RemovePart => Edit::RemovePart { path },
        Asked::Wrap { subtype, boundary } => {
            let subtype = Vec::from_slice(alloc, subtype)?;
            let boundary = Vec::from_slice(alloc, boundary)?;
            Edit::Wrap {
                path,
                subtype,
                boundary,
            }
        }
    };
    Ok(edit)
}

/// The reason that a table names.
pub fn reason_of(name: &'static str) -> Result<EditError, TableError> {
    match name {
        "NoSuchSection" => Ok(EditError::NoSuchSection),
        "NotMultipart" => Ok(EditError::NotMultipart),
        "NotLeaf" => Ok(EditError::NotLeaf),
        "NotPart" => Ok(EditError::NotPart),
        "NoSuchField" => Ok(EditError::NoSuchField),
        "BadPlace" => Ok(EditError::BadPlace),
        "BadField" => Ok(EditError::BadField),
        "BadName" => Ok(EditError::BadName),
        "BadBoundary" => Ok(EditError::BadBoundary),
        "BadSubtype" => Ok(EditError::BadSubtype),
        _ => late_reason_of(name),
    }
}

// The same for reasons that the edited message gives, and for those against an undo or a redo.
fn late_reason_of(name: &'static str) -> Result<EditError, TableError> {
    match name {
        "OpenLine" => Ok(EditError::OpenLine),
        "HoldsBoundary { level: 1 }" => Ok(EditError::HoldsBoundary { level: 1 }),
        "HoldsBoundary { level: 2 }" => Ok(EditError::HoldsBoundary { level: 2 }),
        "Recut" => Ok(EditError::Recut),
        "NothingToUndo" => Ok(EditError::NothingToUndo),
        "NothingToRedo" => Ok(EditError::NothingToRedo),
        _ => Err(TableError::Word(name)),
    }
}

/// A session over a copy of a text.
pub fn session_over(alloc: Global, text: &[u8]) -> Result<Session, AllocError> {
    let text = Vec::from_slice(alloc, text)?;
    Session::start(alloc, text).map_err(|(_, error)| error)
}

/// A copy of a text, as it is read.
pub fn read(alloc: Global, text: &[u8]) -> Result<Doc, AllocError> {
    let text = Vec::from_slice(alloc, text)?;
    Doc::read(alloc, text).map_err(|(_, error)| error)
}
