//! The names of fields, remembered by marks in a table: a name without its mark is that of no field (B. H. Bloom, 1970, with
//! one hash of a name).
ghost use Rattle.std.specs.Prelude.{◌≡◌, ◌<◌, [], false, length};
ghost use Rattle.std.specs.Str.{str_to_ascii_lowercase};
ghost use Rattle.mk_line.specs.Lines.{cut as lines_of};
ghost use Rattle.mk_head.specs.Split.{fields_from};
ghost use Rattle.mk_head.specs.Fields.{fields_of};
ghost use Rattle.mk_edit.specs.inner.FieldNames.{hashed, is_marked as marked, mark_of as place_of, AreRead};

use mk_head::each_field;

/// What the hash so far is multiplied by before a byte is added, modulo 2^64.
const FACTOR: u64 = 31;

/// Whether a name may be one of those that were marked, without regard to ASCII case.
pub(crate) fn is_marked(marks: &[bool], name: &[u8]) -> bool
    requires { 0 < length marks.now }
    ensures { result ≡ marked marks.now name.now }
{
    marks[mark_of(marks.len(), name)]
}

/// Marks the names of the fields at the start of a text.
pub(crate) fn mark_names(marks: &mut [bool], text: &[u8])
    requires { 0 < length marks.old }
    ensures { AreRead marks.old (fields_of (fields_from false (lines_of text.now))) [] marks.new }
{
    for field in each_field(text) {
        let at = mark_of(marks.len(), field.name);
        marks[at] = true;
    }
}

// Which of this many marks is that of a name.
fn mark_of(count: usize, name: &[u8]) -> usize
    requires { 0 < count }
    ensures mark { result ≡ place_of count name.now }
    ensures within { result < count }
{
    (hash(name) % count as u64) as usize
}

// The hash of a name, without regard to ASCII case.
fn hash(name: &[u8]) -> u64
    ensures { result ≡ hashed 0 (str_to_ascii_lowercase name.now) }
{
    let mut hash: u64 = 0;
    for byte in name {
        hash = hash
            .wrapping_mul(FACTOR)
            .wrapping_add(u64::from(byte.to_ascii_lowercase()));
    }
    hash
}
