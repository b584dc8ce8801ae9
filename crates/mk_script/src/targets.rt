//! How a script picks a field (own).

ghost use Rattle.std.specs.Prelude.{◌≡◌, IfOk};
ghost use Rattle.std.specs.Option.{option_map};
ghost use Rattle.mk_script.specs.ScriptViews.{picked_by};
ghost use Rattle.mk_script.specs.Targets.{field_name_in, is_field_name as names_fields, is_file_name as names_file, is_name as names, parted_last as parted_at_last, whole_target as whole_of, target_front as front_of};
ghost use Rattle.mk_script.specs.inner.Words.{target_of};

use crate::paths::{count, parted, path};
use mk_line as lines;
use std::alloc::{AllocError, Global};

/// What parts the words of a line.
pub const SPACE: u8 = b' ';

const COLON: u8 = b':';

/// A field of the section at a path: the k-th of a name, counted from 1.
#[derive(Debug, PartialEq, Eq, Drop)]
pub struct Target {
    pub path: Vec<u32>,
    pub name: Vec<u8>,
    pub k: u32,
}

/// Whether the text may be a name in a line: it isn't empty and holds no space.
pub fn is_name(text: &[u8]) -> bool
    ensures { result ≡ names text.now }
{
    !text.is_empty() && !text.contains(&SPACE)
}

/// Whether the text may be the name of a file in a line: it isn't empty, and no space stands at its start or end.
pub(crate) fn is_file_name(text: &[u8]) -> bool
    ensures { result ≡ names_file text.now }
{
    !text.is_empty() && text[0] != SPACE && text[text.len() - 1] != SPACE
}

/// What stands before the last separator and what follows it, where there is one.
pub(crate) fn parted_last(text: &[u8], separator: u8) -> Option<(&[u8], &[u8])>
    ensures { option_map (λ p. (p.0.now, p.1.now)) result ≡ parted_at_last separator text.now }
{
    let mut end = text.len();
    'each: while end > 0 {
        end -= 1;
        if text[end] == separator {
            return Some((&text[..end], &text[end + 1..]));
        }
    }
    None
}

/// The name of fields that a text writes: without the colon at its end, where it has one.
pub fn field_name(text: &[u8]) -> &[u8]
    ensures { result.now ≡ field_name_in text.now }
{
    match parted(text, COLON) {
        Some((name, rest)) if rest.is_empty() => name,
        _ => text,
    }
}

/// Whether a text writes the name of a field (RFC 5322, 2.2), with its colon or without it.
pub(crate) fn is_field_name(text: &[u8]) -> bool
    ensures { result ≡ names_fields text.now }
{
    lines::is_name(field_name(text))
}

/// The field that a whole text picks.
pub fn whole_target(alloc: Global, text: &[u8]) -> Result<Option<Target>, AllocError>
    ensures { IfOk result (λ target. option_map picked_by target ≡ whole_of text.now) }
{
    let Some((place, more)) = parted(text, SPACE) else {
        return Ok(None);
    };
    let Some((name, number)) = parted(more, SPACE) else {
        return Ok(None);
    };
    picked(alloc, place, name, number)
}

/// The field that the start of a text picks, and what follows it.
pub fn target_front(alloc: Global, text: &[u8]) -> Result<Option<(Target, &[u8])>, AllocError>
    ensures { IfOk result (λ front. option_map (λ p. (picked_by p.0, p.1.now)) front ≡ front_of text.now) }
{
    let Some((place, more)) = parted(text, SPACE) else {
        return Ok(None);
    };
    let Some((name, more)) = parted(more, SPACE) else {
        return Ok(None);
    };
    let Some((number, rest)) = parted(more, SPACE) else {
        return Ok(None);
    };
    match picked(alloc, place, name, number)? {
        Some(target) => Ok(Some((target, rest))),
        None => Ok(None),
    }
}

// The field that the texts of a path, a name and a number pick.
fn picked(
    alloc: Global,
    place: &[u8],
    name: &[u8],
    number: &[u8],
) -> Result<Option<Target>, AllocError>
    ensures { IfOk result (λ target. option_map picked_by target ≡ target_of place.now name.now number.now) }
{
    let Some(path) = path(alloc, place)? else {
        return Ok(None);
    };
    if !is_name(name) {
        return Ok(None);
    }
    let Some(k) = count(number) else {
        return Ok(None);
    };
    let name = Vec::from_slice(alloc, name)?;
    Ok(Some(Target { path, name, k }))
}
