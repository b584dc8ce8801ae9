//! What the words of a script stand for in a message: edits, made one after another.
//!
//! ```
//! let text = Vec::from_slice(alloc, b"A: 1\nB: 2\na: 3\n\nx\n")?;
//! let doc = Doc::read(alloc, text).map_err(|(_, error)| error)?;
//! let path = Vec::from_slice(alloc, &[1])?;
//! let name = Vec::from_slice(alloc, b"A:")?;
//! let word = Word::DropAll { path, name };
//! let edits = edits_for(alloc, &word, &doc, Pieces::as_given(&[]), Ending::Lf)?;
//! assert_eq!(rt; edits.len(), 2);
//! ```
//!
//! The example is run by `a_word_stands_for_edits` in `mk_run_tests/src/tests/examples.rt`.
//!
//! Tests: `mk_run_tests/src/tests/jobs.rt`, `mk_run_tests/src/tests/pieces.rt`, `mk_run_tests/src/tests/texts.rt`,
//! `mk_run_tests/src/tests/encodings.rt`; `mk_run_tests/src/tests/memory.rt` where memory is refused.
#![tactic(auto)]

mod appending;
mod contents;
mod each_word;
mod encodings;
mod errors;
mod field_words;
pub mod laws;
mod ordering;
mod pieces;
mod texts;
mod words;

pub use errors::WordError;
pub use pieces::Pieces;
pub use words::{edits_for, is_plain};
