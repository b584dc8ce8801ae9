//! Rules for the texts of fields: `NAME:s/OLD/NEW/` puts another text in the place of what a pattern matches in what fields
//! say, and `NAME:~PATTERN` removes the fields in which it matches.
//!
//! ```
//! let text = Vec::from_slice(alloc, b"Subject: [list] hi\n\nx\n")?;
//! let mut session = Session::start(alloc, text).map_err(|(_, error)| error)?;
//! let rule = sub_rule(alloc, r"Subject:s/\[list\] *//")??;
//! let edits = rule.edits(alloc, session.doc(), &[1], Ending::Lf)?;
//! session.group(&edits, &mut Meter::new())?;
//! assert_eq!(rt; session.text(), b"Subject: hi\n\nx\n".as_slice());
//! ```
//!
//! The example is run by `a_text_is_put_in` in `mk_run_tests/src/tests/examples.rt`.
//!
//! Tests: `mk_run_tests/src/tests/rounds.rt`.
#![tactic(auto)]

mod changing;
mod rules;
mod saying;
mod subs;
mod words;

pub use rules::{Replacement, TextRule};
pub use words::{RuleFault, drop_rule, is_drop_rule, sub_rule};
