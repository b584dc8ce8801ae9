//! How refusals are reported: a line for each, on the errors of a run.
//!
//! ```
//! let mut err = Page::new(alloc, 100)?;
//! let reason = EditError::HoldsBoundary { level: 1 };
//! report_refusal(alloc, &mut err, 5, &[1, 2], reason)?;
//! assert_eq!(rt; err.bytes(), b"line 5: HoldsBoundary 1\n".as_slice());
//! ```
//!
//! The example is run by `a_refusal_is_reported` in `mk_run_tests/src/tests/examples.rt`. `Page` is a device in memory.
//!
//! Tests: `mk_run_tests/src/tests.rt`, `mk_run_tests/src/tests/fields.rt`, `mk_run_tests/src/tests/groups.rt`,
//! `mk_run_tests/src/tests/filtered.rt`, `mk_run_tests/src/tests/sections_filtered.rt`.
#![tactic(auto)]

mod refusals;

pub use refusals::{refusal_name, report_message, report_message_at, report_refusal};
