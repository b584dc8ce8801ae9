//! The messages of a mailbox without those that come again, by their Message-IDs (RFC 5322, 3.6.4).
//!
//! ```
//! let mailbox = b"From a\nMessage-ID: <1@b>\n\n\nFrom b\nMessage-ID: <1@b>\n\n\n";
//! let mut input = InMemory::new(mailbox);
//! let (mut out, mut err) = (Buffer::new(alloc), Buffer::new(alloc));
//! let mut seen = ListedSoFar::new(alloc);
//! let work = FirstLines { lines: PlainLine };
//! let way = FromLines::Any;
//! let status = try_each(alloc, &mut input, &mut out, &mut err, &mut seen, way, &work)?;
//! assert_eq!(rt; status, Status::Well);
//! assert_eq!(rt; out.text.as_slice(), b"1 0 27 1\n".as_slice());
//! ```
//!
//! The example is run by `repeated_messages_are_left_out` in `mk_tool/src/tests/seen.rt`.
//!
//! Tests: `mk_tool/src/tests/seen.rt`.
#![tactic(auto)]

mod filtering;
mod ids;
pub mod laws;
mod listing;

pub use filtering::FirstMessages;
pub use ids::{IdFile, SeenIds, message_id, with_lines};
pub use listing::{FirstLines, ListedSoFar};
