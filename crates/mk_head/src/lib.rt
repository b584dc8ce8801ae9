//! The header of a message or of a part: its fields, the separator, and where the body begins (RFC 5322, 2.1 and 2.2).
//!
//! ```
//! let text = b"Subject: hi\n there\nContent-Type: Text/HTML; charset=utf-8\n\n<p>\n";
//! let found = header(alloc, text)?;
//! let subject = found.find(b"subject", 1).expect(&rt, "a field");
//! let value = unfold(alloc, &subject)?;
//! assert_eq!(rt; value.as_slice(), b" hi there".as_slice());
//! let field = found.find(b"Content-Type", 1).expect(&rt, "a field");
//! let media = content_type(alloc, &unfold(alloc, &field)?)?;
//! assert_eq!(rt; media.sub.as_slice(), b"html".as_slice());
//! assert_eq!(rt; media.param(b"charset"), Some(b"utf-8".as_slice()));
//! ```
//!
//! The example is run by `a_header_has_fields` in `mk_text_tests/src/examples.rt`.
//!
//! Tests: `mk_text_tests/src/headers.rt`, `mk_text_tests/src/types.rt`; `mk_text_tests/src/memory.rt` where memory is
//! refused.
#![tactic(auto)]

mod boundaries;
mod content;
mod encodings;
mod fields;
mod folds;
pub mod laws;
mod listing;
mod naming;
mod reading;
mod scanning;
mod unfolding;

pub use boundaries::{is_boundary, push_multipart_type};
pub use content::{ContentType, content_type, is_token, push_media_type};
pub use encodings::Encoding;
pub use fields::{Field, Header};
pub use listing::{Fields, each_field};
pub use naming::encoding;
pub use reading::{first_field, header, one_field};
pub use unfolding::{unfold, without_endings};
