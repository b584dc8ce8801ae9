//! A field is looked for after those that were passed over before.
ghost use Rattle.std.specs.Prelude.{◌≡◌, ◌≤◌, ◌<◌, ◌+◌, ◌^◌, ℕ, false, drop, length, take, IfOk, IfErr, List};
ghost use Rattle.mk_line.specs.Lines.{cut as lines_of, TextLine};
ghost use Rattle.mk_head.specs.Split.{fields_from};
ghost use Rattle.mk_head.specs.Fields.{fields_of};
ghost use Rattle.mk_head.specs.Splits.{IsRun};
ghost use Rattle.mk_decide.specs.Answers.{refusal_of, IsRefusedBy};
ghost use Rattle.mk_decide.specs.FieldPuts.{puts, IsPut};
ghost use Rattle.mk_edit.specs.inner.FieldNames.{BeginsField, HasMarks, IsKnown, KnowsNames};
ghost use Rattle.mk_edit.specs.inner.Passing.{passed_over};
ghost use Rattle.mk_edit.specs.RootFields.{IsBehind};
ghost use Rattle.mk_edit.specs.SilentEdits.{numbered};

use crate::names::{is_marked, mark_names};
use crate::silent_edits::SilentEdit;
use mk_decide::{EditError, Put, put_of};
use mk_head::each_field;
use std::alloc::Global;

/// A table has one mark for this many bytes of fields, and some more.
const BYTES_PER_MARK: usize = 4;

/// A table has at least this many marks.
const LEAST_MARKS: usize = 1024;

/// A table has at most this many, so that it stays small beside a long header.
const MOST_MARKS: usize = 262_144;

/// Fields at the start, of which some have a name.
#[derive(Debug, Drop)]
pub(crate) struct Passed {
    /// How many bytes they take.
    pub bytes: usize,
    /// The name.
    pub name: Vec<u8>,
    /// How many of them have it.
    pub fields: u32,
}

impl Passed {
    ghost use Rattle.std.specs.Prelude.{◌≡◌, [], ℕ, List};

    /// No field.
    pub(crate) fn none(alloc: Global) -> Passed
        ensures { (result.name.items ≡ []) × ((result.bytes ≡ 0) × (result.fields ≡ 0)) }
    {
        Passed {
            bytes: 0,
            name: Vec::new(alloc),
            fields: 0,
        }
    }
}

/// Fields at the start, whose names are known.
#[derive(Debug, Drop)]
pub(crate) struct Known {
    /// How many bytes they take.
    pub bytes: usize,
    /// The marks of their names. There are none before the first field.
    pub marks: Option<Vec<bool>>,
}

impl Known {
    ghost use Rattle.std.specs.Prelude.{◌≡◌, None};
    ghost use Rattle.mk_edit.specs.inner.FieldNames.{may_have as marked, HasMarks};

    /// No field.
    pub(crate) fn none() -> Known
        ensures { (result.bytes ≡ 0) × (result.marks ≡ None) }
    {
        Known {
            bytes: 0,
            marks: None,
        }
    }

    /// Whether one of these fields may have a name.
    pub(crate) fn may_have(&self, name: &[u8]) -> bool
        requires { HasMarks self.now.marks }
        ensures { result ≡ marked self.now.marks name.now }
    {
        match &self.marks {
            Some(marks) => is_marked(marks, name),
            None => false,
        }
    }
}

/// The known fields with those that come next among fields that take `size` bytes. Without memory for a table, they are as
/// before.
pub(crate) fn learned(alloc: Global, known: Known, fields: &[u8], size: usize) -> Known
    requires marks { HasMarks known.marks }
    requires room { known.bytes + length fields.now < 2 ^ 64 }
    ensures { (text : List ℕ) → fields.now ≡ take (length fields.now) (drop known.bytes text) → BeginsField (lines_of text) (known.bytes + length fields.now) → IsKnown (lines_of text) known.bytes known.marks → IsKnown (lines_of text) result.bytes result.marks }
{
    let Known { bytes, marks } = known;
    match table(alloc, marks, size) {
        Some(mut marks) => {
            mark_names(&mut marks, fields);
            Known {
                bytes: bytes + fields.len(),
                marks: Some(marks),
            }
        }
        None => Known { bytes, marks: None },
    }
}

// The table that is there, or one for the fields in this many bytes. `None` without memory for it.
fn table(alloc: Global, marks: Option<Vec<bool>>, size: usize) -> Option<Vec<bool>>
    requires { HasMarks marks }
    ensures some { HasMarks result }
    ensures kept { (ls : List TextLine) → KnowsNames ls marks → KnowsNames ls result }
{
    if let Some(marks) = marks {
        return Some(marks);
    }
    let mut marks = Vec::new(alloc);
    let count = MOST_MARKS.min(size / BYTES_PER_MARK + LEAST_MARKS);
    match marks.resize(count, false) {
        Ok(()) => Some(marks),
        Err(_) => None,
    }
}

/// How many bytes of fields are passed over on the way to the k-th of a name, counted from 1, and the number that it has after
/// them. Where it isn't there, all of them are.
pub(crate) fn pass_over(fields: &[u8], name: &[u8], k: u32) -> (usize, u32)
    ensures passed { result ≡ passed_over name.now k 0 (fields_of (fields_from false (lines_of fields.now))) }
{
    let mut left = k;
    let mut place = 0;
    for field in each_field(fields) {
        if field.is_named(name) {
            if left == 1 {
                return (place, left);
            }
            left = left.saturating_sub(1);
        }
        place += field.raw.len();
    }
    (place, left)
}

/// What an edit puts among fields, of which those after the first `bytes` bytes are given. The field's number is `k` among
/// these.
pub(crate) fn put_at(
    alloc: Global,
    fields_after: &[u8],
    bytes: usize,
    edit: &SilentEdit<'_>,
    k: u32,
) -> Result<Put, EditError>
    requires run { IsRun false (lines_of fields_after.now) }
    requires room { bytes + length fields_after.now < 2 ^ 64 }
    ensures ok { (fields : List ℕ) → fields_after.now ≡ drop bytes fields → IsBehind (lines_of fields) bytes edit.now k → IfOk result (λ r. IsPut r (puts (numbered edit.now edit.now.k) (lines_of fields))) }
    ensures after { IfOk result (λ r. bytes ≤ r.from) }
    ensures err { (fields : List ℕ) → fields_after.now ≡ drop bytes fields → IsBehind (lines_of fields) bytes edit.now k → IfErr result (λ e. IsRefusedBy (refusal_of e) (puts (numbered edit.now edit.now.k) (lines_of fields))) }
{
    match put_of(alloc, fields_after, &edit.of_number(k)) {
        Ok(put) => Ok(Put {
            from: bytes + put.from,
            count: put.count,
            lines: put.lines,
            kept: put.kept,
        }),
        Err(error) => Err(error),
    }
}
