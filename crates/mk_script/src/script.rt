//! The lines of scripts: one word a line, with what it is given (own).

ghost use Rattle.std.specs.Prelude.{◌≡◌, ◌+◌, map, IfOk};
ghost use Rattle.std.specs.Option.{option_map};
ghost use Rattle.mk_script.specs.Script.{word_at, word_with, word_of, line_of, lines_of, is_skipped as skips};
ghost use Rattle.mk_script.specs.inner.Words.{adding, deleting, renaming, setting};
ghost use Rattle.mk_script.specs.ScriptViews.{said_by};
ghost use Rattle.mk_script.specs.inner.Lines.{line_by, line_in};

use crate::paths::{parted, path};
use crate::pieces::read_on;
use crate::targets::{SPACE, Target, is_name, target_front, whole_target};
use mk_line::cut;
use std::alloc::{AllocError, Global};

const NUMBER_SIGN: u8 = b'#';

/// A transfer encoding that a script can choose, by the name that it has there (RFC 2045, 6). The listing of sections has
/// the names `quoted-printable`, `base64` and `identity`.
#[derive(Clone, Copy, Debug, PartialEq, Eq)]
pub enum ChosenEncoding {
    /// `qp`, which is quoted-printable.
    Qp,
    /// `quoted-printable`
    QuotedPrintable,
    /// `base64`
    Base64,
    /// `8bit`
    EightBit,
    /// `identity`, which is 8bit.
    Identity,
}

/// An edit that a line of a script asks for.
#[derive(Debug, PartialEq, Eq, Drop)]
pub enum Word {
    /// `add PATH FIELD` or, where `top` holds, `top PATH FIELD`. The field is still without its
    /// line ending.
    Add {
        path: Vec<u32>,
        top: bool,
        field: Vec<u8>,
    },
    /// `del PATH NAME K`.
    Delete(Target),
    /// `ren PATH NAME K NEW`.
    Rename {
        target: Target,
        to: Vec<u8>,
    },
    /// `set PATH NAME K FIELD`. The field is still without its line ending.
    Set {
        target: Target,
        field: Vec<u8>,
    },
    /// `body PATH PIECE`. Pieces count from 1.
    Body {
        path: Vec<u32>,
        piece: u32,
    },
    /// `replace PATH PIECE`.
    Replace {
        path: Vec<u32>,
        piece: u32,
    },
    /// `insert PATH PLACE PIECE`. This many parts stand before the new one.
    Insert {
        path: Vec<u32>,
        place: u32,
        piece: u32,
    },
    /// `remove PATH ..`: the parts at these paths, as they are before any of them goes.
    Remove {
        paths: Vec<Vec<u32>>,
    },
    /// `wrap PATH SUBTYPE BOUNDARY`.
    Wrap {
        path: Vec<u32>,
        subtype: Vec<u8>,
        boundary: Vec<u8>,
    },
    /// `content PATH PIECE`.
    Content {
        path: Vec<u32>,
        piece: u32,
    },
    /// `content --charset NAME PATH PIECE`.
    Text {
        charset: Vec<u8>,
        path: Vec<u32>,
        piece: u32,
    },
    /// `encode PATH qp|quoted-printable|base64|8bit|identity`.
    Encode {
        path: Vec<u32>,
        to: ChosenEncoding,
    },
    /// `put PATH FIELD`. The field is still without its line ending.
    Put {
        path: Vec<u32>,
        field: Vec<u8>,
    },
    /// `put-piece PATH PIECE`.
    PutPiece {
        path: Vec<u32>,
        piece: u32,
    },
    /// `drop PATH NAME`. The name is as it is written: its colon may stand after it.
    DropAll {
        path: Vec<u32>,
        name: Vec<u8>,
    },
    /// `append PATH PIECE`.
    Append {
        path: Vec<u32>,
        piece: u32,
    },
    /// `append-text PATH PIECE`.
    AppendText {
        path: Vec<u32>,
        piece: u32,
    },
    /// `attach PATH TYPE NAME PIECE`.
    Attach {
        path: Vec<u32>,
        media: Vec<u8>,
        name: Vec<u8>,
        piece: u32,
    },
    /// `attach-text PATH TYPE PIECE`.
    AttachText {
        path: Vec<u32>,
        media: Vec<u8>,
        piece: u32,
    },
}

/// What a line of a script says.
#[derive(Debug, PartialEq, Eq, Drop)]
pub enum Said {
    Edit(Word),
    Undo,
    Redo,
    /// A group of edits begins.
    Begin,
    /// It ends.
    End,
}

/// A line and its number, from 1 on. What it says is `None` where it says nothing.
#[derive(Debug, PartialEq, Eq, Drop)]
pub struct NumberedLine {
    pub number: usize,
    pub said: Option<Said>,
}

/// A word and the number of its line.
#[derive(Debug, PartialEq, Eq, Drop)]
pub struct NumberedWord {
    pub number: usize,
    pub word: Word,
}

/// Reads the lines of a script that is given this many pieces. Empty lines, and those that begin with `#`, are skipped,
/// but count in line numbers.
pub fn lines(alloc: Global, script: &[u8], pieces: usize) -> Result<Vec<NumberedLine>, AllocError>
    ensures { IfOk result (λ all. map line_in all.items ≡ lines_of pieces script.now) }
{
    let mut all = Vec::new(alloc);
    let mut number = 0;
    let _most = script.len();
    for line in cut(script) {
        number += 1;
        if !is_skipped(line.content) {
            let said = read_line(alloc, line.content, pieces)?;
            all.push(NumberedLine { number, said })?;
        }
    }
    Ok(all)
}

// Whether the line says nothing.
fn is_skipped(line: &[u8]) -> bool
    ensures { result ≡ skips line.now }
{
    match line {
        [] => true,
        [first, ..] => *first == NUMBER_SIGN,
    }
}

/// What a line says, or `None` where it says nothing.
pub(crate) fn read_line(
    alloc: Global,
    line: &[u8],
    pieces: usize,
) -> Result<Option<Said>, AllocError>
    ensures { IfOk result (λ said. option_map line_by said ≡ line_of pieces line.now) }
{
    if line == b"undo".as_slice() {
        return Ok(Some(Said::Undo));
    }
    if line == b"redo".as_slice() {
        return Ok(Some(Said::Redo));
    }
    if line == b"begin".as_slice() {
        return Ok(Some(Said::Begin));
    }
    if line == b"end".as_slice() {
        return Ok(Some(Said::End));
    }
    match read_word(alloc, line, pieces)? {
        Some(word) => Ok(Some(Said::Edit(word))),
        None => Ok(None),
    }
}

// The word that a line says, or `None` where it is none.
fn read_word(alloc: Global, line: &[u8], pieces: usize) -> Result<Option<Word>, AllocError>
    ensures { IfOk result (λ word. option_map said_by word ≡ word_of pieces line.now) }
{
    match parted(line, SPACE) {
        Some((name, rest)) => read_given(alloc, name, rest, pieces),
        None => Ok(None),
    }
}

// The word of a name that is given something.
fn read_given(
    alloc: Global,
    name: &[u8],
    rest: &[u8],
    pieces: usize,
) -> Result<Option<Word>, AllocError>
    ensures { IfOk result (λ word. option_map said_by word ≡ word_with pieces (name.now, rest.now)) }
{
    if name == b"add".as_slice() {
        return read_add(alloc, false, rest);
    }
    if name == b"top".as_slice() {
        return read_add(alloc, true, rest);
    }
    read_at(alloc, name, rest, pieces)
}

// The word of a name that changes a field which is there.
fn read_at(
    alloc: Global,
    name: &[u8],
    rest: &[u8],
    pieces: usize,
) -> Result<Option<Word>, AllocError>
    ensures { IfOk result (λ word. option_map said_by word ≡ word_at pieces (name.now, rest.now)) }
{
    if name == b"del".as_slice() {
        return read_delete(alloc, rest);
    }
    if name == b"ren".as_slice() {
        return read_rename(alloc, rest);
    }
    if name == b"set".as_slice() {
        return read_set(alloc, rest);
    }
    read_on(alloc, name, rest, pieces)
}

// The word that takes a field out, which is given the field.
fn read_delete(alloc: Global, rest: &[u8]) -> Result<Option<Word>, AllocError>
    ensures { IfOk result (λ word. option_map said_by word ≡ deleting rest.now) }
{
    match whole_target(alloc, rest)? {
        Some(target) => Ok(Some(Word::Delete(target))),
        None => Ok(None),
    }
}

// The word for another name, which is given a field and that name.
fn read_rename(alloc: Global, rest: &[u8]) -> Result<Option<Word>, AllocError>
    ensures { IfOk result (λ word. option_map said_by word ≡ renaming rest.now) }
{
    let Some((target, to)) = target_front(alloc, rest)? else {
        return Ok(None);
    };
    if !is_name(to) {
        return Ok(None);
    }
    let to = Vec::from_slice(alloc, to)?;
    Ok(Some(Word::Rename { target, to }))
}

// The word for another field, which is given a field and the one for its place.
fn read_set(alloc: Global, rest: &[u8]) -> Result<Option<Word>, AllocError>
    ensures { IfOk result (λ word. option_map said_by word ≡ setting rest.now) }
{
    let Some((target, field)) = target_front(alloc, rest)? else {
        return Ok(None);
    };
    let field = Vec::from_slice(alloc, field)?;
    Ok(Some(Word::Set { target, field }))
}

// The word for a new field, which is given a path and the field.
fn read_add(alloc: Global, top: bool, rest: &[u8]) -> Result<Option<Word>, AllocError>
    ensures { IfOk result (λ word. option_map said_by word ≡ adding top rest.now) }
{
    let Some((place, field)) = parted(rest, SPACE) else {
        return Ok(None);
    };
    let Some(path) = path(alloc, place)? else {
        return Ok(None);
    };
    let field = Vec::from_slice(alloc, field)?;
    Ok(Some(Word::Add { path, top, field }))
}
