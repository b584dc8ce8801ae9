//! The messages of a mailbox, each listed, taken apart or edited in turn, over any devices.
//!
//! ```
//! let mut input = InMemory::new(b"From a\nA: 1\n\nx\n\nFrom b\nA: 2\n\ny\n");
//! let (mut out, mut err) = (Buffer::new(alloc), Buffer::new(alloc));
//! let work = SectionLines { unquote: false };
//! let way = FromLines::Any;
//! let status = try_each(alloc, &mut input, &mut out, &mut err, &mut (), way, &work)?;
//! assert_eq!(rt; status, Status::Well);
//! let first = b"1 1 leaf text/plain identity 7 13 15 1 1\n";
//! assert!(rt; out.text.starts_with(first));
//! ```
//!
//! The example is run by `sections_of_each_message` in `mk_tool/src/tests/each.rt`.
//!
//! Tests: `mk_tool/src/tests/each.rt`.
#![tactic(auto)]

mod editing;
mod extracting;
mod labels;
pub mod laws;
mod listing;
mod unpacking;

pub use editing::MailboxEdit;
pub use extracting::Extracting;
pub use listing::SectionLines;
pub use mk_messages::{Answer, Buffer, MessageWork, try_each};
pub use unpacking::{Unpacked, Unpacking};
