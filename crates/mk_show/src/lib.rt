//! The runs that show and take apart a message, over any devices.
//!
//! ```
//! let mut input = Text::new(b"Content-Transfer-Encoding: base64\n\naGk=\n", 100);
//! let (mut out, mut err) = (Page::new(alloc, 100)?, Page::new(alloc, 100)?);
//! let status = run_extract(alloc, &mut input, &mut out, &mut err, &[1]);
//! assert_eq!(rt; status, Status::Well);
//! assert_eq!(rt; out.bytes(), b"hi".as_slice());
//! ```
//!
//! The example is run by `a_content_is_shown` in `mk_run_tests/src/tests/examples.rt`. `Text` and `Page` are devices in
//! memory.
//!
//! Tests: `mk_run_tests/src/tests/shown.rt`, `mk_run_tests/src/tests/portions.rt`, `mk_run_tests/src/tests/unpacked.rt`,
//! `mk_run_tests/src/tests/chosen.rt`; `mk_run_tests/src/tests/memory.rt` where memory is refused;
//! `mk_run_tests/src/tests/failing.rt` where devices fail.
#![tactic(auto)]

mod answers;
mod choosing;
mod contents;
mod folder;
mod placing;
mod portions;
mod saying;
mod sending;
mod showing;
mod tasks;
mod unpacking;

pub use answers::Answer;
pub use contents::Content;
pub use folder::Folder;
pub use mk_transfer::Stop;
pub use placing::Clash;
pub use portions::Portion;
pub use showing::{
    print, read_doc, run_extract, run_sections, send_both, try_extract, try_extract_all,
    try_sections,
};
pub use unpacking::{Manner, Report, UnpackOptions, try_unpack, unpack};
