//! Messages built of fields and parts (RFC 2045, RFC 2046, 5.1).
//!
//! ```
//! let note = Attach {
//!     media: Vec::from_slice(alloc, b"text/plain")?,
//!     name: None,
//!     text: Vec::from_slice(alloc, b"hi\n")?,
//!     base64: false,
//! };
//! let (fields, parts) = ([Vec::from_slice(alloc, b"Subject: s\n")?], [note]);
//! let message = build(alloc, &fields, &parts, b"b", Ending::Lf)?;
//! assert!(rt; message.starts_with(b"Subject: s\nMIME-Version: 1.0\n"));
//! assert!(rt; message.ends_with(b"\n\nhi\n\n--b--\n"));
//! ```
//!
//! The example is run by `a_message_is_built` in `mk_mail_tests/src/tests/examples.rt`.
//!
//! Tests: `mk_mail_tests/src/tests/builds.rt`, `mk_run_tests/src/tests/packed_kinds.rt`,
//! `mk_run_tests/src/tests/packed_pieces.rt`, `mk_run_tests/src/tests/forwarded.rt`; `mk_mail_tests/src/tests/memory.rt` where memory is refused.
#![tactic(auto)]

mod attaching;
mod attachment;
mod building;
mod forwarding;
pub mod laws;
mod multipart;
mod pieces;

pub use attaching::{AttachError, AttachOptions, attach, attach_with};
pub use attachment::Attach;
pub use building::{BuildError, build, build_with};
pub use forwarding::Forward;
pub use multipart::{MIXED, Multipart, is_charset};
pub use pieces::Pieces;
