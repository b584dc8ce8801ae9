//! What the parameters of header fields say as text: values with a charset and percent signs, values in segments (RFC 2231),
//! and plain ones with encoded words.
//!
//! The calls fail only when memory runs out.
//!
//! ```
//! let value = b"attachment; filename*=UTF-8''na%C3%AFve.pdf";
//! let parameters = content_type(alloc, value)?;
//! let name = text_of(alloc, &parameters, b"filename")?;
//! let name = name.expect(&rt, "a name");
//! assert_eq!(rt; name.as_bytes(), b"na\xc3\xafve.pdf".as_slice());
//! let mut text = Vec::new(alloc);
//! push_percent(&mut text, b"a b")?;
//! assert_eq!(rt; text.as_slice(), b"a%20b".as_slice());
//! ```
//!
//! The example is run by `a_parameter_says_a_text` in `mk_text_tests/src/examples.rt`.
//!
//! Tests: `mk_text_tests/src/params.rt`; `mk_text_tests/src/memory.rt` where memory is refused.
#![tactic(auto)]

mod extended;
pub mod laws;
mod percent;
mod said;
mod segments;

pub use percent::{percent_decode, push_percent};
pub use said::text_of;
