//! Names in the letters of Unicode, for leaves whose fields say a text.
ghost use Rattle.std.specs.Prelude.{◌≡◌, ◌++◌, map, encode_utf8_all, IfOk, OnOk};
ghost use Rattle.std.specs.Option.{option_map};
ghost use Rattle.std.specs.Str.{chars};
ghost use Rattle.std.specs.String.{string_bytes};
ghost use Rattle.std.specs.List.{after_last};
ghost use Rattle.mk_view.specs.FileNames.{is_divider as divides, leading as leading_of, name_or, part_name as name_of_part};
ghost use Rattle.mk_view.specs.TextNames.{cleaned_text as cleaned_of, fitting, named_by, plain_character as plain_of, text_name as text_of_section};

use crate::described::Described;
use crate::naming::{MOST_BYTES, own_name, part_name};
use mk_tree::Section;
use std::alloc::{AllocError, Global};

const DOT: char = '.';

const HYPHEN: char = '-';

const UNDERSCORE: char = '_';

const SLASH: char = '/';

const BACKSLASH: char = '\\';

/// In which form leaves get their names.
#[derive(Clone, Copy, Debug, PartialEq, Eq)]
pub enum NameForm {
    /// In ASCII, from the bytes that their fields say.
    Plain,
    /// In the letters of Unicode, from the text that their fields say, where they say one.
    Utf8,
}

/// The text that the fields of a section say as its name: the first that can be read of what the disposition says for
/// `filename`, and what the type says for `name` (RFC 2183, 2.3; RFC 2045, 5.1; RFC 2231).
pub fn text_name(alloc: Global, section: &Section<'_>) -> Result<Option<String>, AllocError>
    ensures { IfOk result (λ text. option_map string_bytes text ≡ text_of_section section.now) }
{
    Described::read(alloc, section)?.text_name(alloc)
}

/// The name that a section at a path would get by itself: from the text that counts, else from the bytes of its name.
pub(crate) fn name_of(
    alloc: Global,
    path: &[u32],
    text: &Option<String>,
    raw: Option<&[u8]>,
) -> Result<Vec<u8>, AllocError>
    ensures { IfOk result (λ name. name.items ≡ named_by path.now (option_map string_bytes text.now) (option_map (λ name. name.now) raw.entry)) }
{
    match text {
        Some(text) => text_file_name(alloc, path, text.as_str()),
        None => own_name(alloc, path, raw),
    }
}

// The name from a text.
fn text_file_name(alloc: Global, path: &[u32], text: &str) -> Result<Vec<u8>, AllocError>
    ensures { IfOk result (λ name. name.items ≡ name_or (name_of_part path.now) (cleaned_of text.now)) }
{
    let name = cleaned_text(alloc, text)?;
    if name.is_empty() {
        part_name(alloc, path)
    } else {
        Ok(name)
    }
}

// What is left of a text that a message says as a name.
fn cleaned_text(alloc: Global, text: &str) -> Result<Vec<u8>, AllocError>
    ensures { IfOk result (λ name. name.items ≡ cleaned_of text.now) }
{
    let characters = characters(alloc, text)?;
    let mut name = String::new(alloc);
    if let Some((first, others)) = last_piece(&characters).split_first() {
        let first = leading(plain(*first));
        name.push(first)?;
        push_fitting(&mut name, others, MOST_BYTES - first.len_utf8())?;
    }
    Ok(name.into_bytes())
}

fn characters(alloc: Global, text: &str) -> Result<Vec<char>, AllocError>
    ensures { IfOk result (λ characters. characters.items ≡ chars text.now) }
{
    text.chars().collect(alloc)
}

// Appends characters in a form in which they may stand in a name, as long as there is room for their bytes.
fn push_fitting(name: &mut String, characters: &[char], most: usize) -> Result<(), AllocError>
    ensures { OnOk result (string_bytes name.new ≡ string_bytes name.old ++ encode_utf8_all (fitting most (map plain_of characters.now))) }
{
    let mut room = most;
    for character in characters {
        let kept = plain(*character);
        let size = kept.len_utf8();
        if size > room {
            return Ok(());
        }
        name.push(kept)?;
        room -= size;
    }
    Ok(())
}

// What follows the last slash or backslash.
fn last_piece(characters: &[char]) -> &[char]
    ensures { result.now ≡ after_last divides characters.now }
{
    let mut piece = characters;
    let mut rest = characters;
    'each: while let [character, following @ ..] = rest {
        if is_divider(*character) {
            piece = following;
        }
        rest = following;
    }
    piece
}

// A slash or a backslash.
fn is_divider(character: char) -> bool
    ensures { result ≡ divides character }
{
    character == SLASH || character == BACKSLASH
}

// A character that may stand in a name, in the place of any.
fn plain(character: char) -> char
    ensures { result ≡ plain_of character }
{
    if character.is_alphanumeric()
        || character == DOT
        || character == UNDERSCORE
        || character == HYPHEN
    {
        character
    } else {
        UNDERSCORE
    }
}

// A character that a name may begin with, in the place of any that may stand in it.
fn leading(character: char) -> char
    ensures { result ≡ leading_of character }
{
    if character == DOT || character == HYPHEN {
        UNDERSCORE
    } else {
        character
    }
}
