//! Messages as trees: what the lines of a text are read as.
//!
//! A message is an optional envelope line and one entity, a head and a body.
//!
//! ```
//! let text = b"Content-Type: multipart/mixed; boundary=b\n\n--b\n\none\n--b\n\ntwo\n--b--\n";
//! let text = Vec::from_slice(alloc, text)?;
//! let doc = Doc::read(alloc, text).map_err(|(_, error)| error)?;
//! assert_eq!(rt; doc.root().kind(), Kind::Multi);
//! assert_eq!(rt; doc.root().parts(), 2);
//! let second = doc.section(&[1, 2]).expect(&rt, "a section");
//! assert_eq!(rt; second.kind(), Kind::Leaf);
//! assert_eq!(rt; second.content(), b"two".as_slice());
//! ```
//!
//! The example is run by `a_multipart_has_parts` in `mk_tree_tests/src/tests/examples.rt`.
//!
//! Tests: `mk_tree_tests/src/tests.rt`, `mk_tree_tests/src/tests/rows.rt`, `mk_tree_tests/src/tests/changes.rt`;
//! `mk_tree_tests/src/tests/memory.rt` where memory is refused.
#![tactic(auto)]

mod changing;
mod children;
mod dashes;
mod describing;
mod doc;
pub mod laws;
mod marking;
mod node;
mod planning;
mod reading;
mod section;
mod shapes;
mod splicing;
mod stepping;

pub use children::Children;
pub use describing::{Described, describe};
pub use doc::{Doc, LEVELS, after_envelope};
pub use section::Section;
pub use shapes::Kind;
pub use splicing::Change;
