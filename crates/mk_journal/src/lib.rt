//! The steps of a journal: listed, and scripts that take all of them back or make all of them again.
//!
//! ```
//! let file = b"mimejournal 1\n1 1\n1 2 3\nbcxyz\n0 0 2\nno\n";
//! let journal = Journal::parse(alloc, file)?;
//! let lines = list_steps(alloc, &journal)?;
//! let listed = b"1 done; 2 bytes at 1 became 3\n2 undone; 0 bytes at 0 became 2\n";
//! assert_eq!(rt; lines.as_slice(), listed.as_slice());
//! assert_eq!(rt; undo_all(alloc, file)?.as_slice(), b"undo\n".as_slice());
//! ```
//!
//! The example is run by `steps_are_listed` in `mk_tool/src/tests/examples.rt`.
//!
//! Tests: `mk_tool/src/tests/steps.rt`.
#![tactic(auto)]

pub mod laws;
mod lines;
mod listing;
mod scripts;

pub use lines::list_steps;
pub use listing::try_journal;
pub use mk_splice::{Journal, JournalError};
pub use scripts::{redo_all, undo_all};
