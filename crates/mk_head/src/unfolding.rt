//! The value of a field (RFC 5322, 2.2.3).
ghost use Rattle.std.specs.Prelude.{◌≡◌, IfOk};
ghost use Rattle.mk_line.specs.Lines.{cut as lines_of};
ghost use Rattle.mk_head.specs.Unfolding.{contents, value_in};

use crate::fields::Field;
use mk_line::{cut, split_at_first};
use std::alloc::{AllocError, Global};

const COLON: u8 = b':';

/// The value of a field: the contents of its lines, joined, from after the first colon.
pub fn unfold(alloc: Global, field: &Field<'_>) -> Result<Vec<u8>, AllocError>
    ensures { IfOk result (λ v. v.items ≡ value_in (lines_of field.now.raw.now)) }
{
    match split_at_first(field.raw, COLON) {
        Some((_, rest)) => without_endings(alloc, rest),
        None => Ok(Vec::new(alloc)),
    }
}

/// A text without its line endings: the contents of its lines, joined.
pub fn without_endings(alloc: Global, text: &[u8]) -> Result<Vec<u8>, AllocError>
    ensures { IfOk result (λ v. v.items ≡ contents (lines_of text.now)) }
{
    let mut joined = Vec::with_capacity(alloc, text.len())?;
    for line in cut(text) {
        joined.extend_from_slice(line.content)?;
    }
    Ok(joined)
}
