//! Editing a message, with undo and redo of every step.
//!
//! A session holds a text; each accepted edit gives exactly the defined text, each refused one changes nothing and
//! names the first reason.
//!
//! ```
//! let text = Vec::from_slice(alloc, b"A: b\nC: d\n\nx\n")?;
//! let mut session = Session::start(alloc, text).map_err(|(_, error)| error)?;
//! let path = Vec::from_slice(alloc, &[1])?;
//! let name = Vec::from_slice(alloc, b"a")?;
//! let edit = Edit::RemoveField { path, name, k: 1 };
//! session.edit(&edit, &mut Meter::new())?;
//! assert_eq!(rt; session.text(), b"C: d\n\nx\n".as_slice());
//! session.undo()?;
//! assert_eq!(rt; session.text(), b"A: b\nC: d\n\nx\n".as_slice());
//! ```
//!
//! The example is run by `an_edit_is_made_and_undone` in `mk_edit_tests/src/tests/examples.rt`.
//!
//! Tests: `mk_edit_tests/src/tests/histories.rt`, `mk_edit_tests/src/tests/groups.rt`,
//! `mk_edit_tests/src/tests/long_groups.rt`, `mk_edit_tests/src/tests/journals.rt`, `mk_edit_tests/src/tests/rooms.rt`;
//! `mk_edit_tests/src/tests/memory.rt`, `mk_edit_tests/src/tests/memory_histories.rt` where memory is refused;
//! `mk_edit_tests/src/tests/counted.rt` for how often memory grows.
#![tactic(auto)]

mod commands;
mod drafts;
mod errors;
mod gapped;
mod grouping;
pub mod laws;
mod names;
mod passing;
mod replies;
mod root_fields;
mod session;
mod silent_edits;
mod stepping;

pub use commands::Command;
pub use errors::{GroupError, LoadError};
pub use mk_decide::{Edit, EditError, edit_laws};
pub use replies::Reply;
pub use session::Session;
pub use silent_edits::edits_header;
