//! The runs that pack files into a message, or one into a part alone, over any devices.
//!
//! ```
//! let spec = Spec::of(b"image/gif:d/x").expect(&rt, "a colon");
//! let part = spec.attach(alloc, Vec::from_slice(alloc, b"hi")?)?;
//! let (mut out, mut err) = (Page::new(alloc, 100)?, Page::new(alloc, 100)?);
//! let status = try_part(alloc, &mut out, &mut err, AttachOptions::default(), &part);
//! assert!(rt; matches!(status, Ok(Status::Well)));
//! assert!(rt; out.bytes().ends_with(b"\n\naGk="));
//! ```
//!
//! The example is run by `a_file_is_a_part` in `mk_run_tests/src/tests/examples.rt`. `Page` is a device in memory.
//!
//! Tests: `mk_run_tests/src/tests/packed.rt`, `mk_run_tests/src/tests/packed_kinds.rt`, `mk_run_tests/src/tests/packed_names.rt`,
//! `mk_run_tests/src/tests/packed_pieces.rt`, `mk_run_tests/src/tests/not_packed.rt`,
//! `mk_run_tests/src/tests/own_boundaries.rt`, `mk_run_tests/src/tests/parts_alone.rt`,
//! `mk_run_tests/src/tests/forwarded.rt`; `mk_run_tests/src/tests/memory.rt` where memory is refused;
//! `mk_run_tests/src/tests/failing.rt` where devices fail.
#![tactic(auto)]

mod alone;
mod boundaries;
pub mod laws;
mod outgoing;
mod packing;
mod parts;

pub use alone::try_part;
pub use boundaries::boundary_beside;
pub use mk_build::{AttachOptions, Forward, MIXED};
pub use packing::{PackOptions, run_pack, try_pack, turned_parts};
pub use parts::Spec;
