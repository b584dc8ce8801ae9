//! Words of a script that stand for lists of edits, which the message decides (own).

ghost use Rattle.std.specs.Prelude.{◌≡◌, IfOk};
ghost use Rattle.std.specs.Option.{option_map};
ghost use Rattle.mk_script.specs.Script.{chosen, job_of, past_charset, Appends, AppendsText, PutsPiece};
ghost use Rattle.mk_script.specs.inner.Words.{attaching, attaching_text, content_by, dropping, encoding, placing, putting, with_charset};
ghost use Rattle.mk_script.specs.ScriptViews.{said_by};

use crate::paths::{parted, path};
use crate::pieces::{piece, placed};
use crate::script::{ChosenEncoding, Word};
use crate::targets::{SPACE, is_field_name, is_file_name, is_name, parted_last};
use std::alloc::{AllocError, Global};

/// The option of `content` that names a charset.
const CHARSET: &[u8] = b"--charset";

/// The word of a name that stands for a list of edits, where the script is given this many pieces.
pub(crate) fn read_job(
    alloc: Global,
    name: &[u8],
    rest: &[u8],
    pieces: usize,
) -> Result<Option<Word>, AllocError>
    ensures { IfOk result (λ word. option_map said_by word ≡ job_of pieces (name.now, rest.now)) }
{
    if name == b"content".as_slice() {
        return read_content(alloc, rest, pieces);
    }
    if name == b"encode".as_slice() {
        return read_encode(alloc, rest);
    }
    if name == b"put".as_slice() {
        return read_put(alloc, rest);
    }
    if name == b"put-piece".as_slice() {
        return read_put_piece(alloc, rest, pieces);
    }
    if name == b"drop".as_slice() {
        return read_drop(alloc, rest);
    }
    if name == b"append".as_slice() {
        return read_append(alloc, rest, pieces);
    }
    if name == b"append-text".as_slice() {
        return read_append_text(alloc, rest, pieces);
    }
    if name == b"attach".as_slice() {
        return read_attach(alloc, rest, pieces);
    }
    if name == b"attach-text".as_slice() {
        return read_attach_text(alloc, rest, pieces);
    }
    Ok(None)
}

// The word for another content, which is given a path and a piece, after a charset where there is one.
fn read_content(alloc: Global, rest: &[u8], pieces: usize) -> Result<Option<Word>, AllocError>
    ensures { IfOk result (λ word. option_map said_by word ≡ content_by pieces rest.now (past_charset rest.now)) }
{
    if let Some(more) = after_charset(rest) {
        return read_text(alloc, more, pieces);
    }
    match placed(alloc, rest, pieces)? {
        Some((path, piece)) => Ok(Some(Word::Content { path, piece })),
        None => Ok(None),
    }
}

/// What stands after `--charset`, where a text begins with it.
pub(crate) fn after_charset(rest: &[u8]) -> Option<&[u8]>
    ensures { option_map (λ more. more.now) result ≡ past_charset rest.now }
{
    match parted(rest, SPACE) {
        Some((option, more)) if option == CHARSET => Some(more),
        _ => None,
    }
}

// The word for another text, which is given its charset, a path and a piece.
fn read_text(alloc: Global, rest: &[u8], pieces: usize) -> Result<Option<Word>, AllocError>
    ensures { IfOk result (λ word. option_map said_by word ≡ with_charset pieces rest.now) }
{
    let Some((charset, place)) = parted(rest, SPACE) else {
        return Ok(None);
    };
    if !is_name(charset) {
        return Ok(None);
    }
    let Some((path, piece)) = placed(alloc, place, pieces)? else {
        return Ok(None);
    };
    let charset = Vec::from_slice(alloc, charset)?;
    Ok(Some(Word::Text {
        charset,
        path,
        piece,
    }))
}

// The word for another transfer encoding, which is given a path and the encoding.
fn read_encode(alloc: Global, rest: &[u8]) -> Result<Option<Word>, AllocError>
    ensures { IfOk result (λ word. option_map said_by word ≡ encoding rest.now) }
{
    let Some((place, name)) = parted(rest, SPACE) else {
        return Ok(None);
    };
    let Some(path) = path(alloc, place)? else {
        return Ok(None);
    };
    match chosen_encoding(name) {
        Some(to) => Ok(Some(Word::Encode { path, to })),
        None => Ok(None),
    }
}

// The transfer encoding of a name.
fn chosen_encoding(name: &[u8]) -> Option<ChosenEncoding>
    ensures { result ≡ chosen name.now }
{
    if name == b"qp".as_slice() {
        return Some(ChosenEncoding::Qp);
    }
    if name == b"quoted-printable".as_slice() {
        return Some(ChosenEncoding::QuotedPrintable);
    }
    if name == b"base64".as_slice() {
        return Some(ChosenEncoding::Base64);
    }
    if name == b"8bit".as_slice() {
        return Some(ChosenEncoding::EightBit);
    }
    if name == b"identity".as_slice() {
        return Some(ChosenEncoding::Identity);
    }
    None
}

// The word for a field in the place of those of its name, which is given a path and the field.
fn read_put(alloc: Global, rest: &[u8]) -> Result<Option<Word>, AllocError>
    ensures { IfOk result (λ word. option_map said_by word ≡ putting rest.now) }
{
    let Some((place, field)) = parted(rest, SPACE) else {
        return Ok(None);
    };
    let Some(path) = path(alloc, place)? else {
        return Ok(None);
    };
    let field = Vec::from_slice(alloc, field)?;
    Ok(Some(Word::Put { path, field }))
}

// The same for a field that is a piece.
fn read_put_piece(alloc: Global, rest: &[u8], pieces: usize) -> Result<Option<Word>, AllocError>
    ensures { IfOk result (λ word. option_map said_by word ≡ placing pieces (λ path piece. PutsPiece path piece) rest.now) }
{
    match placed(alloc, rest, pieces)? {
        Some((path, piece)) => Ok(Some(Word::PutPiece { path, piece })),
        None => Ok(None),
    }
}

// The word that takes all fields of a name out, which is given a path and the name.
fn read_drop(alloc: Global, rest: &[u8]) -> Result<Option<Word>, AllocError>
    ensures { IfOk result (λ word. option_map said_by word ≡ dropping rest.now) }
{
    let Some((place, name)) = parted(rest, SPACE) else {
        return Ok(None);
    };
    let Some(path) = path(alloc, place)? else {
        return Ok(None);
    };
    if !is_field_name(name) {
        return Ok(None);
    }
    let name = Vec::from_slice(alloc, name)?;
    Ok(Some(Word::DropAll { path, name }))
}

// The word for a last part, which is given a path and a piece.
fn read_append(alloc: Global, rest: &[u8], pieces: usize) -> Result<Option<Word>, AllocError>
    ensures { IfOk result (λ word. option_map said_by word ≡ placing pieces (λ path piece. Appends path piece) rest.now) }
{
    match placed(alloc, rest, pieces)? {
        Some((path, piece)) => Ok(Some(Word::Append { path, piece })),
        None => Ok(None),
    }
}

// The word for a text as the last part, which is given a path and a piece.
fn read_append_text(alloc: Global, rest: &[u8], pieces: usize) -> Result<Option<Word>, AllocError>
    ensures { IfOk result (λ word. option_map said_by word ≡ placing pieces (λ path piece. AppendsText path piece) rest.now) }
{
    match placed(alloc, rest, pieces)? {
        Some((path, piece)) => Ok(Some(Word::AppendText { path, piece })),
        None => Ok(None),
    }
}

// The word for a file as the last part, which is given a path, a media type, the name of the file and a piece.
fn read_attach(alloc: Global, rest: &[u8], pieces: usize) -> Result<Option<Word>, AllocError>
    ensures { IfOk result (λ word. option_map said_by word ≡ attaching pieces rest.now) }
{
    let Some((place, more)) = parted(rest, SPACE) else {
        return Ok(None);
    };
    let Some(path) = path(alloc, place)? else {
        return Ok(None);
    };
    let Some((media, more)) = parted(more, SPACE) else {
        return Ok(None);
    };
    if !is_name(media) {
        return Ok(None);
    }
    let Some((name, number)) = parted_last(more, SPACE) else {
        return Ok(None);
    };
    if !is_file_name(name) {
        return Ok(None);
    }
    let Some(piece) = piece(number, pieces) else {
        return Ok(None);
    };
    let media = Vec::from_slice(alloc, media)?;
    let name = Vec::from_slice(alloc, name)?;
    Ok(Some(Word::Attach {
        path,
        media,
        name,
        piece,
    }))
}

// The word for a text of a media type as the last part, which is given a path, the type and a piece.
fn read_attach_text(alloc: Global, rest: &[u8], pieces: usize) -> Result<Option<Word>, AllocError>
    ensures { IfOk result (λ word. option_map said_by word ≡ attaching_text pieces rest.now) }
{
    let Some((place, more)) = parted(rest, SPACE) else {
        return Ok(None);
    };
    let Some(path) = path(alloc, place)? else {
        return Ok(None);
    };
    let Some((text_type, number)) = parted(more, SPACE) else {
        return Ok(None);
    };
    if !is_name(text_type) {
        return Ok(None);
    }
    let Some(piece) = piece(number, pieces) else {
        return Ok(None);
    };
    let media = Vec::from_slice(alloc, text_type)?;
    Ok(Some(Word::AttachText { path, media, piece }))
}
