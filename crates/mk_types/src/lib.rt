//! The media types of files, by the endings of their names.
//!
//! ```
//! assert_eq!(rt; media_type(b"photos/Cat.JPG"), "image/jpeg");
//! assert_eq!(rt; media_type(b"README"), "application/octet-stream");
//! ```
//!
//! The example is run by `endings_tell_types` in `mk_tool/src/tests/types.rt`.
//!
//! Tests: `mk_tool/src/tests/types.rt`.
#![tactic(auto)]

mod table;
mod types;

pub use types::media_type;
