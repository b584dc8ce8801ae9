//! What a reader should know of a message: found, and printed over any devices.
//!
//! ```
//! let text = b"To: a@b.org\nTo: c@b.org\nContent-Transfer-Encoding: base64\n\ne\n";
//! let doc = Doc::read(alloc, Vec::from_slice(alloc, text)?).map_err(|(_, error)| error)?;
//! let lines = findings(alloc, &doc, FindingForm::Plain)?;
//! let found = b"1 12 Repeated To\n1 59 BadBase64\n";
//! assert_eq!(rt; lines.as_slice(), found.as_slice());
//! ```
//!
//! The example is run by `a_message_is_checked` in `mk_tool/src/tests/examples.rt`.
//!
//! Tests: `mk_tool/src/tests/checks.rt`.
#![tactic(auto)]

mod checking;
mod faults;
pub mod laws;
mod lines;
mod places;
mod sections;
mod words;

pub use checking::{findings, try_check};
pub use faults::Fault;
pub use lines::FindingForm;
