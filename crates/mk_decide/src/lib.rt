//! What an edit of a message means: the bytes that it puts in the place of others, or the first reason against it.
//!
//! The reasons are found by local conditions, which are proved to hold exactly where the edited message reads back as
//! the edited tree.
//!
//! ```
//! let text = Vec::from_slice(alloc, b"A: b\n\nx\n")?;
//! let doc = Doc::read(alloc, text).map_err(|(_, error)| error)?;
//! let edit = Edit::AddField {
//!     path: Vec::from_slice(alloc, &[1])?,
//!     top: false,
//!     text: Vec::from_slice(alloc, b"C: d\n")?,
//! };
//! let made = decide(alloc, &doc, &edit, &mut Meter::new())?;
//! assert_eq!(rt; (made.place, made.count), (5, 0));
//! assert_eq!(rt; made.new.as_slice(), b"C: d\n".as_slice());
//! ```
//!
//! The example is run by `an_edit_is_decided` in `mk_edit_tests/src/tests/examples.rt`.
//!
//! Tests: `mk_edit_tests/src/tests/fields.rt`, `mk_edit_tests/src/tests/removals.rt`, `mk_edit_tests/src/tests/names.rt`,
//! `mk_edit_tests/src/tests/kinds.rt`, `mk_edit_tests/src/tests/sections.rt`, `mk_edit_tests/src/tests/parts.rt`,
//! `mk_edit_tests/src/tests/wraps.rt`, `mk_edit_tests/src/tests/levels.rt`; `mk_edit_tests/src/tests/memory_decisions.rt`
//! where memory is refused; `mk_edit_tests/src/tests/meter.rt` for the lines that are looked at.
#![tactic(auto)]

mod around;
mod deciding;
pub mod edit_laws;
mod edits;
mod errors;
mod field_answers;
mod field_edits;
mod kinds_kept;
mod looking;
mod part_edits;
mod section_edits;
mod wrap_edits;
mod wrapped_text;

pub use deciding::{Replacement, decide};
pub use edits::Edit;
pub use errors::EditError;
pub use field_answers::{opens_early, splice_of};
pub use field_edits::{FieldEdit, Put, put_of};
pub use looking::has_separator;
