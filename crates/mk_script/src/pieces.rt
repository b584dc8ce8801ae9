//! Words of a script that change more than fields, most by a piece: a text that the script names by its number (own).

ghost use Rattle.std.specs.Prelude.{◌≡◌, ◌==◌, IfOk};
ghost use Rattle.mk_line.specs.Ascii.{space};
ghost use Rattle.std.specs.Option.{option_map};
ghost use Rattle.std.specs.List.{slice_split};
ghost use Rattle.mk_script.specs.Script.{piece_of, placed as placed_in, word_on, Bodies, Replaces};
ghost use Rattle.mk_script.specs.inner.Words.{inserting, placing, removing, wrapping};
ghost use Rattle.mk_script.specs.Paths.{path_of, read_each};
ghost use Rattle.mk_script.specs.ScriptViews.{said_by, items_of};

use crate::jobs::read_job;
use crate::paths::{count, first_piece, number, parted, path};
use crate::script::Word;
use crate::targets::{SPACE, is_name};
use std::alloc::{AllocError, Global};

/// The word of a name that changes more than fields, where the script is given this many pieces.
pub fn read_on(
    alloc: Global,
    name: &[u8],
    rest: &[u8],
    pieces: usize,
) -> Result<Option<Word>, AllocError>
    ensures { IfOk result (λ word. option_map said_by word ≡ word_on pieces (name.now, rest.now)) }
{
    if name == b"body".as_slice() {
        return read_body(alloc, rest, pieces);
    }
    if name == b"replace".as_slice() {
        return read_replace(alloc, rest, pieces);
    }
    if name == b"insert".as_slice() {
        return read_insert(alloc, rest, pieces);
    }
    if name == b"remove".as_slice() {
        return read_remove(alloc, rest);
    }
    if name == b"wrap".as_slice() {
        return read_wrap(alloc, rest);
    }
    read_job(alloc, name, rest, pieces)
}

/// The number of a piece, from 1 on, where there are that many.
pub(crate) fn piece(text: &[u8], pieces: usize) -> Option<u32>
    ensures { result ≡ piece_of pieces text.now }
{
    let number = number(text)?;
    if number as usize <= pieces {
        Some(number)
    } else {
        None
    }
}

/// The path and the piece that a word is given.
pub(crate) fn placed(
    alloc: Global,
    rest: &[u8],
    pieces: usize,
) -> Result<Option<(Vec<u32>, u32)>, AllocError>
    ensures { IfOk result (λ found. option_map (λ p. (p.0.items, p.1)) found ≡ placed_in pieces rest.now) }
{
    let Some((place, number)) = parted(rest, SPACE) else {
        return Ok(None);
    };
    let Some(path) = path(alloc, place)? else {
        return Ok(None);
    };
    match piece(number, pieces) {
        Some(piece) => Ok(Some((path, piece))),
        None => Ok(None),
    }
}

// The word for another body, which is given a path and a piece.
fn read_body(alloc: Global, rest: &[u8], pieces: usize) -> Result<Option<Word>, AllocError>
    ensures { IfOk result (λ word. option_map said_by word ≡ placing pieces (λ path piece. Bodies path piece) rest.now) }
{
    match placed(alloc, rest, pieces)? {
        Some((path, piece)) => Ok(Some(Word::Body { path, piece })),
        None => Ok(None),
    }
}

// The word for another section, which is given a path and a piece.
fn read_replace(alloc: Global, rest: &[u8], pieces: usize) -> Result<Option<Word>, AllocError>
    ensures { IfOk result (λ word. option_map said_by word ≡ placing pieces (λ path piece. Replaces path piece) rest.now) }
{
    match placed(alloc, rest, pieces)? {
        Some((path, piece)) => Ok(Some(Word::Replace { path, piece })),
        None => Ok(None),
    }
}

// The word for a part more, which is given a path, a place and a piece.
fn read_insert(alloc: Global, rest: &[u8], pieces: usize) -> Result<Option<Word>, AllocError>
    ensures { IfOk result (λ word. option_map said_by word ≡ inserting pieces rest.now) }
{
    let Some((place, more)) = parted(rest, SPACE) else {
        return Ok(None);
    };
    let Some(path) = path(alloc, place)? else {
        return Ok(None);
    };
    let Some((before, number)) = parted(more, SPACE) else {
        return Ok(None);
    };
    let Some(place) = count(before) else {
        return Ok(None);
    };
    match piece(number, pieces) {
        Some(piece) => Ok(Some(Word::Insert { path, place, piece })),
        None => Ok(None),
    }
}

// The word that takes parts out, which is given their paths.
fn read_remove(alloc: Global, rest: &[u8]) -> Result<Option<Word>, AllocError>
    ensures { IfOk result (λ word. option_map said_by word ≡ removing rest.now) }
{
    match paths(alloc, rest)? {
        Some(paths) => Ok(Some(Word::Remove { paths })),
        None => Ok(None),
    }
}

// The paths that a text writes, parted by one space.
fn paths(alloc: Global, text: &[u8]) -> Result<Option<Vec<Vec<u32>>>, AllocError>
    ensures { IfOk result (λ found. option_map (λ v. items_of v.items) found ≡ read_each path_of (slice_split (λ byte. byte == space) text.now)) }
{
    let mut all = Vec::new(alloc);
    let mut rest = text;
    'each: loop {
        let (piece, more) = first_piece(rest, SPACE);
        let Some(path) = path(alloc, piece)? else {
            return Ok(None);
        };
        all.push(path)?;
        let Some(following) = more else {
            return Ok(Some(all));
        };
        rest = following;
    }
}

// The word that wraps a section, which is given its path, a subtype and a boundary.
fn read_wrap(alloc: Global, rest: &[u8]) -> Result<Option<Word>, AllocError>
    ensures { IfOk result (λ word. option_map said_by word ≡ wrapping rest.now) }
{
    let Some((place, more)) = parted(rest, SPACE) else {
        return Ok(None);
    };
    let Some(path) = path(alloc, place)? else {
        return Ok(None);
    };
    let Some((subtype, boundary)) = parted(more, SPACE) else {
        return Ok(None);
    };
    if !is_name(subtype) {
        return Ok(None);
    }
    let subtype = Vec::from_slice(alloc, subtype)?;
    let boundary = Vec::from_slice(alloc, boundary)?;
    Ok(Some(Word::Wrap {
        path,
        subtype,
        boundary,
    }))
}
