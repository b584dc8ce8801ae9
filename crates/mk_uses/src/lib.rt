//! Callers of the libraries, as a user writes them. What each promises follows from the public contracts of what it calls.
//!
//! ```
//! let message = Vec::from_slice(alloc, b"A: b\n\nx\n")?;
//! let row = store(alloc, message, &[tag(alloc)?])?;
//! assert_eq!(rt; row.message.as_slice(), b"A: b\nX-Tag: y\n\nx\n".as_slice());
//! let message = restore(alloc, row)?;
//! assert_eq!(rt; message.as_slice(), b"A: b\n\nx\n".as_slice());
//! ```
//!
//! The example is run by `a_message_is_put_back` in `mk_uses/src/tests.rt`.
//!
//! Tests: `mk_uses/src/tests.rt`.
#![tactic(auto)]

mod insertions;
mod listings;
mod mailboxes;
mod previews;
#[cfg(test)]
mod tests;
mod tickets;

pub use insertions::add_to_each_multipart;
pub use listings::{Attachment, attachments};
pub use mailboxes::tag_each;
pub use previews::preview;
pub use tickets::{Row, RowError, restore, store};
