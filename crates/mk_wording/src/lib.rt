//! Fields of letters with their values in encoded words: texts, names in lists of addresses, and comments (RFC 2047), and
//! parameters with a charset (RFC 2231).
//!
//! The calls fail only when memory runs out.
//!
//! ```
//! let text = b"From: J\xc3\xb6rg <j@example.org>";
//! let field = worded_field(alloc, text, Ending::Lf)?;
//! let wanted = b"From: =?utf-8?B?SsO2cmc=?= <j@example.org>";
//! assert_eq!(rt; field.as_slice(), wanted.as_slice());
//! ```
//!
//! The example is run by `a_name_goes_into_encoded_words` in `mk_run_tests/src/tests/examples.rt`.
//!
//! Tests: `mk_run_tests/src/tests/wording.rt`.
#![tactic(auto)]

mod address_lists;
mod addresses;
pub mod laws;
mod lists;
mod names;
mod parameters;
mod scanning;
mod stretches;
mod values;
mod wording;

pub use address_lists::push_addresses;
pub use names::{FieldKind, kind_of};
pub use values::on_one_line;
pub use wording::{strip, takes_words, worded_field};
