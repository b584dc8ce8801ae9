//! The operating system's side of a run: input, outputs and folders, over `std`.
//!
//! ```
//! let mut dir = Directory::new(&rt, FOLDER);
//! assert!(rt; !fs::exists(&rt, OUTER)?);
//! assert_eq!(rt; put(&rt, &mut dir, b"n", b"1", false), Ok(true));
//! assert_eq!(rt; put(&rt, &mut dir, b"n", b"2", false), Ok(false));
//! ```
//!
//! The example is run by `no_link_is_followed` in `mk_tool/src/tests/directory.rt`. `FOLDER` is a path below `OUTER`,
//! and `put` is `Folder::put` of `Content::of` these bytes.
//!
//! Tests: `mk_tool/src/tests/directory.rt`, `mk_tool/src/tests/files.rt`, `mk_tool/src/tests/in_place.rt`,
//! `mk_tool/src/tests/journals.rt`, `mk_tool/src/tests/locks.rt`, `mk_tool/src/tests/faults.rt`; `checks/in-place` and
//! `checks/system` on a real system.
#![tactic(auto)]

mod device;
mod edited;
mod folder;
mod journal;
mod locking;
mod placeholders;
mod replacing;
mod stamps;

pub use device::{Input, MaybePipe, Output, size_in};
pub use edited::EditedFile;
pub use folder::{Directory, Unwritten};
pub use journal::JournalFile;
pub use placeholders::Placeholders;
pub use stamps::is_one_file;
