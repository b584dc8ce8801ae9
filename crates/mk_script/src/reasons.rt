//! Why a line of a script is invalid: the first thing that is wrong with it (own).

ghost use Rattle.std.specs.Prelude.{◌≡◌, if◌then◌else◌, List, [], ◌∷◌, true, None, IfOk, codes, drop, find, option_copied};
ghost use Rattle.std.specs.List.{list_any};
ghost use Rattle.std.specs.Option.{option_map, option_map_or};
ghost use Rattle.std.specs.Result.{result_err};
ghost use Rattle.std.specs.Str.{bytes_eq};
ghost use Rattle.mk_line.specs.Ascii.{space};
ghost use Rattle.mk_line.specs.Lines.{cut as lines_of_text, is_nil};
ghost use Rattle.mk_line.specs.Parting.{before, following};
ghost use Rattle.mk_script.specs.declared.reasons.LineFault.TheVariants.{Missing, Spaces, UnknownWord};
ghost use Rattle.mk_script.specs.Reasons.{arguments_fault as fault_of_arguments, arguments_of, fault_of as own_fault_of, first_invalid as first_invalid_line, given_fault as fault_of_given, holds_spaces as may_hold_spaces, is_argument as may_stand, last_fault as fault_of_last, line_text as text_of_line, named_piece_fault as fault_of_named, piece_fault as own_fault_of_piece, place_fault as fault_of_place, steps_of, word_fault as fault_of_word, words};
ghost use Rattle.mk_script.specs.Script.{past_charset};
ghost use Rattle.mk_script.specs.inner.Lines.{line_by};

use crate::groups::{ScriptError, steps, steps_as_one};
use crate::jobs::after_charset;
use crate::paths::{count, number, path};
use crate::script::{Said, read_line};
use crate::targets::{SPACE, is_field_name, is_file_name, is_name, parted_last};
use mk_line::{cut, split_at_first};
use std::alloc::{AllocError, Global};

/// What `content --charset` takes.
const TEXT_ARGUMENTS: &[Argument] = &[Argument::Name, Argument::Path, Argument::Piece];

/// What `ren` takes.
const RENAMED: &[Argument] = &[
    Argument::Path,
    Argument::Name,
    Argument::Count,
    Argument::Name,
];

/// What `set` takes.
const SET: &[Argument] = &[
    Argument::Path,
    Argument::Name,
    Argument::Count,
    Argument::Text,
];

/// What `attach` takes.
const ATTACHED: &[Argument] = &[Argument::Path, Argument::Name, Argument::NameAndPiece];

/// What a word takes at a place.
#[derive(Clone, Copy, Debug, PartialEq, Eq)]
pub(crate) enum Argument {
    Path,
    /// One path or more.
    Paths,
    Name,
    /// The name of fields, with its colon or without it.
    FieldName,
    Count,
    Piece,
    Encoding,
    /// All that is left of the line, which may be empty.
    Text,
    /// The name of a file, which may hold spaces, and a piece.
    NameAndPiece,
}

/// Why a line of a script is invalid.
#[derive(Clone, Copy, Debug, PartialEq, Eq)]
pub enum LineFault {
    /// The line begins with no word of scripts.
    UnknownWord,
    /// The word takes more than it is given.
    Missing,
    /// It takes less.
    Extra,
    /// Words aren't parted by one space.
    Spaces,
    /// A path isn't numbers from 1 with dots between them, or has more than 101.
    BadPath,
    /// A number isn't written in digits, begins with 0, or has more than 32 bits.
    BadNumber,
    /// There aren't this many pieces.
    NoSuchPiece,
    /// The transfer encoding isn't `qp`, `quoted-printable`, `base64`, `8bit` or `identity`.
    BadEncoding,
    /// No field has such a name.
    BadFieldName,
    /// `undo` and `redo` don't stand in a group.
    Grouped,
    /// A `begin` stands in a group, or has no `end`.
    BadBegin,
    /// An `end` stands outside a group.
    NoGroup,
    /// The script is one group, and the line is no edit.
    NotEdit,
}

/// An invalid line of a script.
#[derive(Clone, Copy, Debug, PartialEq, Eq)]
pub struct InvalidLine {
    /// The number of the line, from 1 on.
    pub number: usize,
    pub fault: LineFault,
}

/// The first invalid line of a script that is given this many pieces: the one that `steps`, or with `as_one` `steps_as_one`,
/// refuses it for.
pub fn first_invalid(
    alloc: Global,
    script: &[u8],
    pieces: usize,
    as_one: bool,
) -> Result<Option<InvalidLine>, AllocError>
    ensures { IfOk result (λ found. option_map (λ line. (line.number, line.fault)) found ≡ first_invalid_line as_one pieces script.now) }
{
    let Some(number) = first_number(alloc, script, pieces, as_one)? else {
        return Ok(None);
    };
    let line = line_text(script, number);
    let fault = match read_line(alloc, line, pieces)? {
        Some(said) => place_fault(&said, as_one),
        None => word_fault(alloc, line)?,
    };
    Ok(Some(InvalidLine { number, fault }))
}

// The number of the first invalid line.
fn first_number(
    alloc: Global,
    script: &[u8],
    pieces: usize,
    as_one: bool,
) -> Result<Option<usize>, AllocError>
    ensures { IfOk result (λ number. number ≡ result_err (steps_of as_one pieces script.now)) }
{
    let read = if as_one {
        steps_as_one(alloc, script, pieces)
    } else {
        steps(alloc, script, pieces)
    };
    match read {
        Ok(_) => Ok(None),
        Err(ScriptError::Syntax(number)) => Ok(Some(number)),
        Err(ScriptError::Memory) => Err(AllocError),
    }
}

// The line of a number, from 1 on.
fn line_text(script: &[u8], number: usize) -> &[u8]
    ensures { result.now ≡ text_of_line number (lines_of_text script.now) }
{
    let mut left = number;
    for line in cut(script) {
        if left == 1 {
            return line.content;
        }
        left = left.saturating_sub(1);
    }
    b""
}

// What is wrong with the place of a line that says something.
fn place_fault(said: &Said, as_one: bool) -> LineFault
    ensures { result ≡ fault_of_place as_one (line_by said.now) }
{
    match said {
        _ if as_one => LineFault::NotEdit,
        Said::Edit(_) => LineFault::NotEdit,
        Said::Undo | Said::Redo => LineFault::Grouped,
        Said::Begin => LineFault::BadBegin,
        Said::End => LineFault::NoGroup,
    }
}

// What is wrong with a line that says nothing.
fn word_fault(alloc: Global, line: &[u8]) -> Result<LineFault, AllocError>
    ensures { IfOk result (λ fault. fault ≡ fault_of_word line.now) }
{
    match first_word(line) {
        (name, Some(rest)) => given_fault(alloc, name, rest),
        (_, None) => Ok(bare_fault(line)),
    }
}

// What stands before the first space, and what follows it.
fn first_word(text: &[u8]) -> (&[u8], Option<&[u8]>)
    ensures word { result.0.now ≡ before space text.now }
    ensures others { option_copied result.1 ≡ following space text.now }
{
    match split_at_first(text, SPACE) {
        Some((word, others)) => (word, Some(others)),
        None => (text, None),
    }
}

// What is wrong with a word that nothing follows.
fn bare_fault(name: &[u8]) -> LineFault
    ensures { result ≡ (if option_map_or is_nil (arguments_of name.now) true then UnknownWord else Missing) }
{
    match arguments(name) {
        Some([_, ..]) => LineFault::Missing,
        Some([]) | None => LineFault::UnknownWord,
    }
}

// What is wrong with a word that something follows. A charset may stand before the arguments of `content`.
fn given_fault(alloc: Global, name: &[u8], rest: &[u8]) -> Result<LineFault, AllocError>
    ensures { IfOk result (λ fault. fault ≡ fault_of_given name.now rest.now) }
{
    if name.is_empty() {
        return Ok(LineFault::Spaces);
    }
    if let Some(more) = after_option(name, rest) {
        return arguments_fault(alloc, TEXT_ARGUMENTS, more);
    }
    match arguments(name) {
        Some(arguments) => arguments_fault(alloc, arguments, rest),
        None => Ok(LineFault::UnknownWord),
    }
}

// What stands after the option of a word; `content` alone has one.
fn after_option<'a>(name: &[u8], rest: &'a [u8]) -> Option<&'a [u8]>
    ensures { option_map (λ more. more.now) result ≡ (if bytes_eq name.now (codes "content") then past_charset rest.now else None) }
{
    if name == b"content".as_slice() {
        after_charset(rest)
    } else {
        None
    }
}

// What a word of a name takes, where there is such a word.
fn arguments(name: &[u8]) -> Option<&'static [Argument]>
    ensures { option_copied result ≡ arguments_of name.now }
{
    if takes_text(name) {
        Some(&[Argument::Path, Argument::Text])
    } else if takes_piece(name) {
        Some(&[Argument::Path, Argument::Piece])
    } else if name == b"del".as_slice() {
        Some(&[Argument::Path, Argument::Name, Argument::Count])
    } else if name == b"ren".as_slice() {
        Some(RENAMED)
    } else if name == b"set".as_slice() {
        Some(SET)
    } else if name == b"insert".as_slice() {
        Some(&[Argument::Path, Argument::Count, Argument::Piece])
    } else {
        other_arguments(name)
    }
}

// The same for the words that are left.
fn other_arguments(name: &[u8]) -> Option<&'static [Argument]>
    ensures { option_copied result ≡ option_map (λ row. row.1) (find (λ row. list_any (bytes_eq name.now) row.0) (drop 6 words)) }
{
    if name == b"remove".as_slice() {
        Some(&[Argument::Paths])
    } else if name == b"wrap".as_slice() {
        Some(&[Argument::Path, Argument::Name, Argument::Text])
    } else if name == b"encode".as_slice() {
        Some(&[Argument::Path, Argument::Encoding])
    } else if name == b"drop".as_slice() {
        Some(&[Argument::Path, Argument::FieldName])
    } else if name == b"attach".as_slice() {
        Some(ATTACHED)
    } else if name == b"attach-text".as_slice() {
        Some(&[Argument::Path, Argument::Name, Argument::Piece])
    } else if takes_nothing(name) {
        Some(&[])
    } else {
        None
    }
}

// Whether a word takes a path and a text.
fn takes_text(name: &[u8]) -> bool
    ensures { result ≡ list_any (bytes_eq name.now) (codes "add" ∷ codes "top" ∷ codes "put" ∷ []) }
{
    name == b"add".as_slice() || name == b"top".as_slice() || name == b"put".as_slice()
}

// Whether a word takes a path and a piece.
fn takes_piece(name: &[u8]) -> bool
    ensures { result ≡ list_any (bytes_eq name.now) (codes "body" ∷ codes "replace" ∷ codes "content" ∷ codes "put-piece" ∷ codes "append" ∷ codes "append-text" ∷ []) }
{
    name == b"body".as_slice()
        || name == b"replace".as_slice()
        || name == b"content".as_slice()
        || name == b"put-piece".as_slice()
        || name == b"append".as_slice()
        || name == b"append-text".as_slice()
}

// Whether a word takes nothing.
fn takes_nothing(name: &[u8]) -> bool
    ensures { result ≡ list_any (bytes_eq name.now) (codes "undo" ∷ codes "redo" ∷ codes "begin" ∷ codes "end" ∷ []) }
{
    name == b"undo".as_slice()
        || name == b"redo".as_slice()
        || name == b"begin".as_slice()
        || name == b"end".as_slice()
}

// What is wrong with arguments: where all but the last are right, it is the last.
fn arguments_fault(
    alloc: Global,
    arguments: &[Argument],
    text: &[u8],
) -> Result<LineFault, AllocError>
    ensures { IfOk result (λ fault. fault ≡ fault_of_arguments arguments.now text.now) }
{
    let mut left = arguments;
    let mut rest = text;
    while let Some((argument, others)) = left.split_first() {
        if others.is_empty() {
            return Ok(last_fault(*argument, rest));
        }
        let (word, more) = first_word(rest);
        if !is_argument(alloc, *argument, word)? {
            return Ok(fault_at(*argument, word));
        }
        let Some(more) = more else {
            return Ok(LineFault::Missing);
        };
        left = others;
        rest = more;
    }
    Ok(LineFault::Extra)
}

// Whether a text may stand for an argument that others follow.
fn is_argument(alloc: Global, argument: Argument, text: &[u8]) -> Result<bool, AllocError>
    ensures { IfOk result (λ is. is ≡ may_stand argument text.now) }
{
    match argument {
        Argument::Path => Ok(path(alloc, text)?.is_some()),
        Argument::Name => Ok(is_name(text)),
        Argument::FieldName => Ok(is_field_name(text)),
        Argument::Count => Ok(count(text).is_some()),
        Argument::Paths
        | Argument::Piece
        | Argument::Encoding
        | Argument::Text
        | Argument::NameAndPiece => Ok(true),
    }
}

// What is wrong with the last argument.
fn last_fault(argument: Argument, text: &[u8]) -> LineFault
    ensures { result ≡ fault_of_last argument text.now }
{
    let (word, more) = first_word(text);
    if word.is_empty() {
        LineFault::Spaces
    } else if !holds_spaces(argument) && more.is_some() {
        LineFault::Extra
    } else {
        own_fault(argument, text)
    }
}

// Whether an argument may hold spaces.
fn holds_spaces(argument: Argument) -> bool
    ensures { result ≡ may_hold_spaces argument }
{
    matches!(
        argument,
        Argument::Paths | Argument::Text | Argument::NameAndPiece
    )
}

// What is wrong with an argument. An empty one stands where a space stands twice.
fn fault_at(argument: Argument, text: &[u8]) -> LineFault
    ensures { result ≡ (if is_nil text.now then Spaces else own_fault_of argument text.now) }
{
    if text.is_empty() {
        LineFault::Spaces
    } else {
        own_fault(argument, text)
    }
}

fn own_fault(argument: Argument, text: &[u8]) -> LineFault
    ensures { result ≡ own_fault_of argument text.now }
{
    match argument {
        Argument::Path | Argument::Paths => LineFault::BadPath,
        Argument::Name => LineFault::Spaces,
        Argument::FieldName => LineFault::BadFieldName,
        Argument::Count => LineFault::BadNumber,
        Argument::Piece => piece_fault(text),
        Argument::Encoding => LineFault::BadEncoding,
        Argument::Text => LineFault::Missing,
        Argument::NameAndPiece => match parted_last(text, SPACE) {
            Some((name, piece)) => named_piece_fault(name, piece),
            None => LineFault::Missing,
        },
    }
}

// What is wrong with a piece.
fn piece_fault(text: &[u8]) -> LineFault
    ensures { result ≡ own_fault_of_piece text.now }
{
    if number(text).is_some() {
        LineFault::NoSuchPiece
    } else {
        LineFault::BadNumber
    }
}

// What is wrong with the name of a file and the piece after it. An empty one stands where a space stands twice.
fn named_piece_fault(name: &[u8], piece: &[u8]) -> LineFault
    ensures { result ≡ fault_of_named (name.now, piece.now) }
{
    if is_file_name(name) && !piece.is_empty() {
        piece_fault(piece)
    } else {
        LineFault::Spaces
    }
}
