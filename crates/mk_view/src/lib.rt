//! What a document shows: its sections listed, their contents decoded, and the names that its leaves get as files.
//!
//! ```
//! let text = b"Content-Type: image/png\nContent-Transfer-Encoding: base64\n\naGk=\n";
//! let text = Vec::from_slice(alloc, text)?;
//! let doc = Doc::read(alloc, text).map_err(|(_, error)| error)?;
//! let lines = list(alloc, &doc)?;
//! let wanted = b"1 leaf image/png base64 0 59 64 2 1\n";
//! assert_eq!(rt; lines.as_slice(), wanted.as_slice());
//! let content = extract(alloc, &doc, &[1])?;
//! assert_eq!(rt; content.as_slice(), b"hi".as_slice());
//! ```
//!
//! The example is run by `a_document_is_listed` in `mk_mail_tests/src/tests/examples.rt`.
//!
//! Tests: `mk_mail_tests/src/tests.rt`, `mk_mail_tests/src/tests/text_names.rt`; `mk_mail_tests/src/tests/memory.rt` where
//! memory is refused.
#![tactic(auto)]

mod content_ids;
mod described;
mod extracting;
mod giving;
mod listing;
mod naming;
mod storing;
mod text_names;
mod typing;
mod walking;
mod writing;

pub use content_ids::content_id;
pub use described::{Described, Disposition};
pub use extracting::{ExtractError, content, content_in, content_size, extract};
pub use giving::numbered;
pub use listing::list;
pub use naming::said_name;
pub use storing::{Leaf, Storing, leaves, leaves_in, names};
pub use text_names::{NameForm, text_name};
pub use typing::{media_type, push_type};
pub use walking::{Listed, all_sections};
pub use writing::push_path;
