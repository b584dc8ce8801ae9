//! Bytes as the content of a leaf.

ghost use Rattle.std.specs.Prelude.{◌≡◌, ◌≢◌, ◌==◌, ◌++◌, ◌∷◌, [], length, nat_le, not, Ok, IfOk, IfErr, OnOk};
ghost use Rattle.std.specs.Option.{option_map};
ghost use Rattle.std.specs.List.{list_all};
ghost use Rattle.mk_line.specs.Lines.{cut as lines_of, ends_in_return as ends_in_cr};
ghost use Rattle.mk_decide.specs.Edits.{SetBody};
ghost use Rattle.mk_tree.specs.Documents.{tree};
ghost use Rattle.mk_tree.specs.Sections.{section_at};
ghost use Rattle.mk_expand.specs.Contents.{are_eight_bit, body_with as body_that_has, divided, encoded_in, longest_line};
ghost use Rattle.mk_expand.specs.Views.{pieces_of, plain_edits, IsFault};
ghost use Rattle.mk_expand.specs.Words.{body_set, content_bytes as bytes_for_content, content_set};

use crate::errors::WordError;
use crate::pieces::Pieces;
use crate::texts::may_hold;
use crate::words::alone;
use mk_code::{b64_encode, qp_encode};
use mk_decide::Edit;
use mk_head::Encoding;
use mk_line::{Ending, cut};
use mk_tree::{Doc, Kind};
use mk_view::media_type;
use std::alloc::{AllocError, Global};

const CARRIAGE_RETURN: u8 = b'\r';

/// The most bytes of a line that isn't encoded, without its ending (RFC 2045, 2.8).
const LONGEST_LINE: usize = 998;

/// The bytes of a piece that are to be the content of the section at a path. If that is base64, they stay as they are.
pub(crate) fn content_bytes(
    alloc: Global,
    doc: &Doc,
    path: &[u32],
    pieces: Pieces<'_>,
    piece: u32,
    eol: Ending,
) -> Result<Vec<u8>, AllocError>
    requires { eol ≢ Ending.Missing }
    ensures { IfOk result (λ bytes. bytes.items ≡ bytes_for_content (pieces_of pieces.entry) eol piece (section_at path.now (tree doc.now))) }
{
    if let Some(section) = doc.section(path) {
        if let Encoding::Base64 = section.encoding(alloc)? {
            return Vec::from_slice(alloc, pieces.text(piece));
        }
    }
    pieces.lines(alloc, piece, eol)
}

/// Gives the leaf at a path these bytes as its content, in its own transfer encoding.
pub(crate) fn set_content(
    alloc: Global,
    doc: &Doc,
    path: Vec<u32>,
    bytes: &[u8],
    eol: Ending,
) -> Result<Vec<Edit>, WordError>
    requires { eol ≢ Ending.Missing }
    ensures edits { IfOk result (λ edits. content_set eol path.items bytes.now (section_at path.items (tree doc.now)) ≡ Ok (plain_edits edits.items)) }
    ensures fault { IfErr result (λ error. IsFault error (content_set eol path.items bytes.now (section_at path.items (tree doc.now)))) }
{
    let Some(section) = doc.section(&path) else {
        return with_body(alloc, path, bytes);
    };
    match section.kind() {
        Kind::Leaf => {
            if !may_hold(&media_type(alloc, &section)?, bytes) {
                return Err(WordError::BadCharset);
            }
            let encoding = section.encoding(alloc)?;
            let followed = section.followed();
            encode(alloc, path, encoding, bytes, eol, followed)
        }
        Kind::Multi | Kind::Message => with_body(alloc, path, bytes),
    }
}

/// A body in a transfer encoding.
pub(crate) fn encode(
    alloc: Global,
    path: Vec<u32>,
    encoding: Encoding,
    bytes: &[u8],
    eol: Ending,
    followed: bool,
) -> Result<Vec<Edit>, WordError>
    requires { eol ≢ Ending.Missing }
    ensures edits { IfOk result (λ edits. body_set eol path.items followed (encoded_in encoding eol bytes.now) ≡ Ok (plain_edits edits.items)) }
    ensures fault { IfErr result (λ error. IsFault error (body_set eol path.items followed (encoded_in encoding eol bytes.now))) }
{
    let Some(text) = encoded(alloc, encoding, bytes, eol)? else {
        return Err(WordError::UnknownEncoding);
    };
    let text = body_with(text, eol, followed)?;
    alone(alloc, Edit::SetBody { path, text })
}

/// These bytes as a body, which is refused if the section isn't a leaf.
pub(crate) fn with_body(alloc: Global, path: Vec<u32>, bytes: &[u8]) -> Result<Vec<Edit>, WordError>
    ensures edits { IfOk result (λ edits. plain_edits edits.items ≡ SetBody path.items bytes.now ∷ []) }
    ensures memory { IfErr result (λ error. error ≡ WordError.Memory) }
{
    let text = Vec::from_slice(alloc, bytes)?;
    alone(alloc, Edit::SetBody { path, text })
}

// Bytes in a transfer encoding, if it is known.
fn encoded(
    alloc: Global,
    encoding: Encoding,
    bytes: &[u8],
    eol: Ending,
) -> Result<Option<Vec<u8>>, AllocError>
    requires { eol ≢ Ending.Missing }
    ensures { IfOk result (λ text. option_map (λ v. v.items) text ≡ encoded_in encoding eol bytes.now) }
{
    match encoding {
        Encoding::Identity => Ok(Some(Vec::from_slice(alloc, bytes)?)),
        Encoding::Qp => Ok(Some(qp_encode(alloc, bytes, eol)?)),
        Encoding::Base64 => Ok(Some(b64_encode(alloc, bytes, eol)?)),
        Encoding::Other => Ok(None),
    }
}

/// A body whose content is a text.
pub(crate) fn body_with(text: Vec<u8>, eol: Ending, followed: bool) -> Result<Vec<u8>, AllocError>
    ensures { IfOk result (λ body. body.items ≡ body_that_has eol followed text.items) }
{
    let mut body = text;
    if followed {
        divide(&mut body, eol)?;
    }
    Ok(body)
}

/// Puts a line ending between a text and the line that is to follow it.
pub(crate) fn divide(text: &mut Vec<u8>, eol: Ending) -> Result<(), AllocError>
    ensures { OnOk result (text.new.items ≡ divided eol text.old.items) }
{
    let ending = if ends_in_return(text) {
        Ending::Crlf
    } else {
        eol
    };
    text.extend_from_slice(ending.bytes())
}

// Whether the last byte is a CR.
fn ends_in_return(text: &[u8]) -> bool
    ensures { result ≡ ends_in_cr text.now }
{
    match text {
        [.., last] => *last == CARRIAGE_RETURN,
        [] => false,
    }
}

/// Whether bytes may go without an encoding: no byte is NUL, and no line is too long.
pub(crate) fn is_eight_bit(bytes: &[u8]) -> bool
    ensures { result ≡ are_eight_bit bytes.now }
{
    has_no_nul(bytes) && has_short_lines(bytes)
}

fn has_no_nul(bytes: &[u8]) -> bool
    ensures { result ≡ list_all (λ byte. not (byte == 0)) bytes.now }
{
    bytes.iter().all(|byte| *byte != 0)
}

fn has_short_lines(bytes: &[u8]) -> bool
    ensures { result ≡ list_all (λ l. nat_le (length l.content) longest_line) (lines_of bytes.now) }
{
    for line in cut(bytes) {
        if !is_short(line.content) {
            return false;
        }
    }
    true
}

fn is_short(line: &[u8]) -> bool
    ensures { result ≡ nat_le (length line.now) longest_line }
{
    line.len() <= LONGEST_LINE
}
