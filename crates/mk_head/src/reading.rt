//! Reading the header that a text begins with.
ghost use Rattle.std.specs.Prelude.{◌≡◌, ◌+◌, ◌<◌, ◌≤◌, ◌∷◌, [], true, false, length, IfOk, IfNone, IfSome};
ghost use Rattle.mk_line.specs.Lines.{cut as lines_of, text_of, printed_line};
ghost use Rattle.std.specs.List.{list_all};
ghost use Rattle.std.specs.Option.{option_map};
ghost use Rattle.mk_head.specs.Split.{head_of, fields_from, is_more, rest_from, separator_of};
ghost use Rattle.mk_head.specs.Fields.{BeginsField, fields_of, header_view, is_one_field};
ghost use Rattle.mk_head.specs.Views.{field_view};

use crate::fields::{Field, Header};
use crate::folds::folded_size;
use mk_line::{Lines, cut, is_continuation, name_len};
use std::alloc::{AllocError, Global};

/// The header that a text begins with: the longest run of fields at the start, and the empty line after it, if one is there.
pub fn header(alloc: Global, text: &[u8]) -> Result<Header<'_>, AllocError>
    ensures { IfOk result (λ h. h ≡ header_view (head_of (lines_of text.now))) }
{
    let mut fields = Vec::new(alloc);
    let mut rest = text;
    'each: while let Some((field, following)) = first_field(rest) {
        fields.push(field)?;
        rest = following;
    }
    let end = text.len() - rest.len();
    match separator_size(rest) {
        Some(size) => Ok(Header {
            fields,
            separator: Some(end),
            body: end + size,
        }),
        None => Ok(Header {
            fields,
            separator: None,
            body: end,
        }),
    }
}

/// Whether the text is exactly one field and nothing else.
pub fn one_field(text: &[u8]) -> bool
    ensures { result ≡ is_one_field (lines_of text.now) }
{
    let mut lines = cut(text);
    match lines.next() {
        Some(first) => name_len(first.content).is_some() && all_continue(lines),
        None => false,
    }
}

// Whether each line is a continuation.
fn all_continue(lines: Lines<'_>) -> bool
    ensures { result ≡ list_all is_more lines.entry }
{
    for line in lines {
        if !is_continuation(line.content) {
            return false;
        }
    }
    true
}

/// The field at the start of a text, and what follows it; `None` where no field begins there.
#[inline]
pub fn first_field(text: &[u8]) -> Option<(Field<'_>, &[u8])>
    ensures none { IfNone result (fields_from false (lines_of text.now) ≡ []) }
    ensures begins { IfSome result (λ r. BeginsField text.now r.1.now) }
    ensures field { IfSome result (λ r. fields_of (fields_from false (lines_of text.now)) ≡ field_view r.0 ∷ fields_of (fields_from false (lines_of r.1.now))) }
    ensures size { IfSome result (λ r. length (text_of (fields_from false (lines_of text.now))) + length r.1.now ≡ length text.now + length (text_of (fields_from false (lines_of r.1.now)))) }
    ensures rest { IfSome result (λ r. rest_from false (lines_of text.now) ≡ rest_from false (lines_of r.1.now)) }
    ensures less { IfSome result (λ r. length r.1.now < length text.now) }
{
    // The name ends before its line does, so the end of that line isn't looked for.
    let name = name_len(text)?;
    let (raw, rest) = text.split_at(folded_size(text));
    let field = Field {
        name: &text[..name],
        raw,
    };
    Some((field, rest))
}

// How many bytes the empty line at the start takes, if there is one.
fn separator_size(text: &[u8]) -> Option<usize>
    ensures { result ≡ option_map (λ l. length (printed_line l)) (separator_of (lines_of text.now)) }
{
    match cut(text).next() {
        Some(line) => {
            if line.content.is_empty() {
                Some(line.size())
            } else {
                None
            }
        }
        None => None,
    }
}
