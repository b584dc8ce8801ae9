//! The listings of a message and of a mailbox as JSON, for other programs.
//!
//! ```
//! let text = Vec::from_slice(alloc, b"A: b\n\nx\n")?;
//! let doc = Doc::read(alloc, text).map_err(|(_, error)| error)?;
//! let lines = mk_json::list(alloc, &doc)?;
//! assert!(rt; lines.starts_with(b"{\"path\":\"1\",\"kind\":\"leaf\","));
//! assert!(rt; lines.ends_with(b",\"stored_as\":\"part-1\",\"size\":2}\n"));
//! ```
//!
//! The example is run by `a_document_is_listed_as_json` in `mk_tool/src/tests/examples.rt`.
//!
//! Tests: `mk_tool/src/tests/commands.rt`, `mk_tool/src/tests/mailboxes.rt`; `checks/listing` compares it with the listings and
//! with what is unpacked.
#![tactic(auto)]

mod each;
mod listing;
mod messages;
mod parameters;
mod strings;

pub use each::SectionObjects;
pub use listing::{list, list_in};
pub use messages::{ObjectLine, try_messages};
