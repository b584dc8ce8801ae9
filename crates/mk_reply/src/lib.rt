//! The header of an answer to a message (RFC 5322, 3.6.4), over any devices.
//!
//! ```
//! let text = b"From: a@b.org\nSubject: Hi\nMessage-ID: <1@b.org>\n\nx\n";
//! let header = reply_header(alloc, text)?.expect(&rt, "an address");
//! let first = b"To: a@b.org\nSubject: Re: Hi\nIn-Reply-To: <1@b.org>\n";
//! assert!(rt; header.starts_with(first));
//! assert!(rt; header.ends_with(b"\nReferences: <1@b.org>\n\n"));
//! ```
//!
//! The example is run by `a_message_is_answered` in `mk_tool/src/tests/examples.rt`.
//!
//! Tests: `mk_tool/src/tests/replies.rt`.
#![tactic(auto)]

mod answering;
mod header;
mod identifiers;
pub mod laws;
mod subjects;

pub use answering::try_reply;
pub use header::{field_words, reply_header};
