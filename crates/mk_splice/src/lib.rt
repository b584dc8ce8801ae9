//! Bytes alone: replacing them in a text, and steps of such replacements, made and taken back; and journals of these steps.
//!
//! ```
//! let journal = Journal::parse(alloc, b"mimejournal 1\n1 0\n1 2 3\nbcxyz\n")?;
//! assert_eq!(rt; (journal.done, journal.steps.len()), (1, 1));
//! let mut text = Vec::from_slice(alloc, b"axyzd")?;
//! fit(alloc, &text, &journal.steps, journal.done)?;
//! replace(&mut text, 1, 3, b"bc")?;
//! assert_eq!(rt; text.as_slice(), b"abcd".as_slice());
//! ```
//!
//! The example is run by `a_step_of_a_journal_is_taken_back` in `mk_edit_tests/src/tests/examples.rt`.
//!
//! Tests: `mk_edit_tests/src/tests/journals.rt`, `mk_edit_tests/src/tests/rooms.rt`;
//! `mk_edit_tests/src/tests/memory_splices.rt` where memory is refused.
#![tactic(auto)]

mod digests;
mod fitting;
mod journals;
pub mod laws;
mod open;
mod peaks;
mod printing;
mod reading;
mod replacing;
mod splicing;
mod texts;

pub use digests::digest_of;
pub use fitting::{FitError, fit};
pub use journals::{Journal, JournalError};
pub use peaks::{peak_back, peak_forth};
pub use printing::print;
pub use replacing::{replace, replace_within};
pub use splicing::{Splice, copied, make_again_in, take_back_in};
pub use texts::Text;
