//! Mail as a whole: what a document shows, messages built of parts, mailboxes, fields filtered by letters, and devices that
//! mail comes from and goes to.
//!
//! ```
//! let text = Vec::from_slice(alloc, b"A: 1\nB: 2\nA: 3\n\nx\n")?;
//! let mut session = Session::start(alloc, text).map_err(|(_, error)| error)?;
//! let mut letters = no_letters(alloc);
//! letters.only = Some(Vec::from_slice(alloc, b"A: 9")?);
//! assert!(rt; letters.ok());
//! let edits = field_edits(alloc, session.doc(), &letters)?;
//! session.group(&edits, &mut Meter::new())?;
//! assert_eq!(rt; session.text(), b"B: 2\nA: 9\n\nx\n".as_slice());
//! ```
//!
//! The example is run by `letters_change_fields` in `mk_mail_tests/src/tests/examples.rt`. `no_letters` asks for nothing.
//!
//! Tests: `mk_mail_tests/src/tests/letters.rt`, `mk_mail_tests/src/tests/edits.rt`, `mk_mail_tests/src/tests/prepended.rt`.

#![tactic(auto)]

mod field_names;
mod filtering;
pub mod laws;
mod letters;
mod patterns;
mod prepending;
mod section_names;
mod word_texts;

pub use letters::{Letters, field_edits, field_edits_at};
pub use mk_build::{
    Attach, AttachError, AttachOptions, BuildError, Forward, Multipart, attach, attach_with, build,
    build_with,
};
pub use mk_mailbox::{Fault, FromLines, MailFault, Mailbox, Place, Sink, Source};
pub use mk_view::{
    Described, ExtractError, Leaf, NameForm, Storing, content, content_id, content_in,
    content_size, extract, leaves, leaves_in, list, names, numbered, push_path, push_type,
};
pub use patterns::NamePattern;
pub use prepending::Prepend;
pub use section_names::head_at;
pub use word_texts::text_for_words;
