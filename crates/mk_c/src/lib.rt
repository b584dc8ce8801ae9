//! The library for C: handles of sessions, and the calls on them. `include/mimetool.h` has what C sees of it.
//!
//! ```
//! let mut handle = Handle::closed();
//! let mut place = Place { edit: 0, number: 0 };
//! mk_c_start(alloc, &mut handle, b"A: b\n\nx\n", &mut place);
//! mk_c_add_field(alloc, &mut handle, &[1], false, b"C: d\n", &mut place);
//! mk_c_make(alloc, &mut handle, &mut place);
//! mk_c_text(alloc, &mut handle, &mut place);
//! assert_eq!(rt; mk_c_size(alloc, &mut handle), 13usize);
//! mk_c_close(alloc, &mut handle);
//! ```
//!
//! The example is run by `a_field_is_added` in `mk_c/src/tests.rt`.
//!
//! Tests: `mk_c/src/tests.rt`; `checks/library`, from C and Python.
#![tactic(auto)]

mod answers;
mod building;
mod draft;
mod editor;
mod edits;
mod handle;
mod input;
mod mailboxes;
mod opening;
mod status;
mod steps;
#[cfg(test)]
mod tests;

pub use answers::{
    mk_c_copy, mk_c_extract, mk_c_name, mk_c_save, mk_c_sections, mk_c_size, mk_c_text,
};
pub use building::{mk_c_build, mk_c_put_field, mk_c_put_message, mk_c_put_part};
pub use edits::{
    mk_c_add_field, mk_c_insert_part, mk_c_remove_field, mk_c_remove_part, mk_c_rename_field,
    mk_c_set_body, mk_c_set_field, mk_c_set_section, mk_c_wrap,
};
pub use handle::Handle;
pub use mailboxes::{mk_c_fits, mk_c_mailbox, mk_c_next};
pub use opening::{mk_c_close, mk_c_load, mk_c_start};
pub use status::Place;
pub use steps::{mk_c_check, mk_c_counts, mk_c_forget, mk_c_make, mk_c_redo, mk_c_undo};
