//! What the words of a script stand for that read a piece, make a line ending or look at a section, each by itself.

ghost use Rattle.std.specs.Prelude.{◌≡◌, ◌≢◌, ◌∷◌, [], Ok, IfOk, IfErr};
ghost use Rattle.mk_tree.specs.Documents.{tree};
ghost use Rattle.mk_tree.specs.Sections.{section_at};
ghost use Rattle.mk_build.specs.Building.{closed_field};
ghost use Rattle.mk_decide.specs.Edits.{AddField, InsertPart, RemoveField, RenameField, SetBody, SetField, SetSection, Wrap};
ghost use Rattle.mk_script.specs.Targets.{field_name_in};
ghost use Rattle.mk_expand.specs.Appends.{text_part};
ghost use Rattle.mk_expand.specs.Encodings.{encoding_set};
ghost use Rattle.mk_expand.specs.FieldWords.{dropped, put as fields_put};
ghost use Rattle.mk_expand.specs.Pieces.{piece_lines};
ghost use Rattle.mk_expand.specs.Views.{pieces_of, plain_edits, IsFault};
ghost use Rattle.mk_expand.specs.Words.{append as part_appended, attach_file, attach_text as text_attached, content_bytes as bytes_of_content, content_set, field_text, script_file, text_set};

use crate::appending::{append, text_to_append};
use crate::contents::{content_bytes, set_content};
use crate::encodings::set_encoding;
use crate::errors::WordError;
use crate::field_words::{drop_all, put};
use crate::pieces::Pieces;
use crate::texts::{attach_text, set_text};
use crate::words::{alone, attach_to, attached_bytes, closed, ended};
use mk_decide::Edit;
use mk_line::Ending;
use mk_pack::Spec;
use mk_script::{ChosenEncoding, Target, field_name};
use mk_tree::Doc;
use std::alloc::Global;

/// A field added to a section.
pub(crate) fn add_field(
    alloc: Global,
    path: &[u32],
    top: bool,
    field: &[u8],
    eol: Ending,
) -> Result<Vec<Edit>, WordError>
    ensures edits { IfOk result (λ edits. plain_edits edits.items ≡ AddField path.now top (field_text eol field.now) ∷ []) }
    ensures memory { IfErr result (λ error. error ≡ WordError.Memory) }
{
    let text = ended(alloc, field, eol)?;
    let path = Vec::from_slice(alloc, path)?;
    alone(alloc, Edit::AddField { path, top, text })
}

/// A field in the place of another.
pub(crate) fn set_field(
    alloc: Global,
    target: &Target,
    field: &[u8],
    eol: Ending,
) -> Result<Vec<Edit>, WordError>
    ensures edits { IfOk result (λ edits. plain_edits edits.items ≡ SetField target.now.path.items target.now.name.items target.now.k (field_text eol field.now) ∷ []) }
    ensures memory { IfErr result (λ error. error ≡ WordError.Memory) }
{
    let text = ended(alloc, field, eol)?;
    let Target { path, name, k } = target;
    let path = Vec::from_slice(alloc, path)?;
    let name = Vec::from_slice(alloc, name)?;
    let k = *k;
    alone(
        alloc,
        Edit::SetField {
            path,
            name,
            k,
            text,
        },
    )
}

/// A field removed.
pub(crate) fn remove_field(alloc: Global, target: &Target) -> Result<Vec<Edit>, WordError>
    ensures edits { IfOk result (λ edits. plain_edits edits.items ≡ RemoveField target.now.path.items target.now.name.items target.now.k ∷ []) }
    ensures memory { IfErr result (λ error. error ≡ WordError.Memory) }
{
    let Target { path, name, k } = target;
    let path = Vec::from_slice(alloc, path)?;
    let name = Vec::from_slice(alloc, name)?;
    let k = *k;
    alone(alloc, Edit::RemoveField { path, name, k })
}

/// A field with another name.
pub(crate) fn rename_field(
    alloc: Global,
    target: &Target,
    to: &[u8],
) -> Result<Vec<Edit>, WordError>
    ensures edits { IfOk result (λ edits. plain_edits edits.items ≡ RenameField target.now.path.items target.now.name.items target.now.k to.now ∷ []) }
    ensures memory { IfErr result (λ error. error ≡ WordError.Memory) }
{
    let Target { path, name, k } = target;
    let path = Vec::from_slice(alloc, path)?;
    let name = Vec::from_slice(alloc, name)?;
    let k = *k;
    let to = Vec::from_slice(alloc, to)?;
    alone(alloc, Edit::RenameField { path, name, k, to })
}

/// A section put into a multipart.
pub(crate) fn wrap(
    alloc: Global,
    path: &[u32],
    subtype: &[u8],
    boundary: &[u8],
) -> Result<Vec<Edit>, WordError>
    ensures edits { IfOk result (λ edits. plain_edits edits.items ≡ Wrap path.now subtype.now boundary.now ∷ []) }
    ensures memory { IfErr result (λ error. error ≡ WordError.Memory) }
{
    let path = Vec::from_slice(alloc, path)?;
    let subtype = Vec::from_slice(alloc, subtype)?;
    let boundary = Vec::from_slice(alloc, boundary)?;
    alone(
        alloc,
        Edit::Wrap {
            path,
            subtype,
            boundary,
        },
    )
}

/// The lines of a piece as a body.
pub(crate) fn set_body(
    alloc: Global,
    path: &[u32],
    pieces: Pieces<'_>,
    piece: u32,
    eol: Ending,
) -> Result<Vec<Edit>, WordError>
    requires { eol ≢ Ending.Missing }
    ensures edits { IfOk result (λ edits. plain_edits edits.items ≡ SetBody path.now (piece_lines (pieces_of pieces.entry) eol piece) ∷ []) }
    ensures memory { IfErr result (λ error. error ≡ WordError.Memory) }
{
    let text = pieces.lines(alloc, piece, eol)?;
    let path = Vec::from_slice(alloc, path)?;
    alone(alloc, Edit::SetBody { path, text })
}

/// The lines of a piece as a section.
pub(crate) fn set_section(
    alloc: Global,
    path: &[u32],
    pieces: Pieces<'_>,
    piece: u32,
    eol: Ending,
) -> Result<Vec<Edit>, WordError>
    requires { eol ≢ Ending.Missing }
    ensures edits { IfOk result (λ edits. plain_edits edits.items ≡ SetSection path.now (piece_lines (pieces_of pieces.entry) eol piece) ∷ []) }
    ensures memory { IfErr result (λ error. error ≡ WordError.Memory) }
{
    let text = pieces.lines(alloc, piece, eol)?;
    let path = Vec::from_slice(alloc, path)?;
    alone(alloc, Edit::SetSection { path, text })
}

/// The lines of a piece as a part.
pub(crate) fn insert_part(
    alloc: Global,
    path: &[u32],
    place: u32,
    pieces: Pieces<'_>,
    piece: u32,
    eol: Ending,
) -> Result<Vec<Edit>, WordError>
    requires { eol ≢ Ending.Missing }
    ensures edits { IfOk result (λ edits. plain_edits edits.items ≡ InsertPart path.now place (piece_lines (pieces_of pieces.entry) eol piece) ∷ []) }
    ensures memory { IfErr result (λ error. error ≡ WordError.Memory) }
{
    let text = pieces.lines(alloc, piece, eol)?;
    let path = Vec::from_slice(alloc, path)?;
    alone(alloc, Edit::InsertPart { path, place, text })
}

/// A piece as the content of a section.
pub(crate) fn set_content_to(
    alloc: Global,
    doc: &Doc,
    path: &[u32],
    pieces: Pieces<'_>,
    piece: u32,
    eol: Ending,
) -> Result<Vec<Edit>, WordError>
    requires { eol ≢ Ending.Missing }
    ensures edits { IfOk result (λ edits. content_set eol path.now (bytes_of_content (pieces_of pieces.entry) eol piece (section_at path.now (tree doc.now))) (section_at path.now (tree doc.now)) ≡ Ok (plain_edits edits.items)) }
    ensures fault { IfErr result (λ error. IsFault error (content_set eol path.now (bytes_of_content (pieces_of pieces.entry) eol piece (section_at path.now (tree doc.now))) (section_at path.now (tree doc.now)))) }
{
    let bytes = content_bytes(alloc, doc, path, pieces, piece, eol)?;
    let path = Vec::from_slice(alloc, path)?;
    set_content(alloc, doc, path, &bytes, eol)
}

/// A piece as the text of a section, in a charset.
pub(crate) fn set_text_to(
    alloc: Global,
    doc: &Doc,
    path: &[u32],
    charset: &[u8],
    pieces: Pieces<'_>,
    piece: u32,
    eol: Ending,
) -> Result<Vec<Edit>, WordError>
    requires { eol ≢ Ending.Missing }
    ensures edits { IfOk result (λ edits. text_set eol path.now charset.now (bytes_of_content (pieces_of pieces.entry) eol piece (section_at path.now (tree doc.now))) (section_at path.now (tree doc.now)) ≡ Ok (plain_edits edits.items)) }
    ensures fault { IfErr result (λ error. IsFault error (text_set eol path.now charset.now (bytes_of_content (pieces_of pieces.entry) eol piece (section_at path.now (tree doc.now))) (section_at path.now (tree doc.now)))) }
{
    let bytes = content_bytes(alloc, doc, path, pieces, piece, eol)?;
    let path = Vec::from_slice(alloc, path)?;
    set_text(alloc, doc, path, charset, &bytes, eol)
}

/// The content of a section in another transfer encoding.
pub(crate) fn set_encoding_to(
    alloc: Global,
    doc: &Doc,
    path: &[u32],
    to: ChosenEncoding,
    eol: Ending,
) -> Result<Vec<Edit>, WordError>
    requires { eol ≢ Ending.Missing }
    ensures edits { IfOk result (λ edits. encoding_set eol path.now to (section_at path.now (tree doc.now)) ≡ Ok (plain_edits edits.items)) }
    ensures fault { IfErr result (λ error. IsFault error (encoding_set eol path.now to (section_at path.now (tree doc.now)))) }
{
    let path = Vec::from_slice(alloc, path)?;
    set_encoding(alloc, doc, path, to, eol)
}

/// A field in the place of all of its name.
pub(crate) fn put_field(
    alloc: Global,
    doc: &Doc,
    path: &[u32],
    field: &[u8],
    eol: Ending,
) -> Result<Vec<Edit>, WordError>
    ensures edits { IfOk result (λ edits. plain_edits edits.items ≡ fields_put path.now (field_text eol field.now) (section_at path.now (tree doc.now))) }
    ensures memory { IfErr result (λ error. error ≡ WordError.Memory) }
{
    let text = ended(alloc, field, eol)?;
    Ok(put(alloc, doc, path, &text)?)
}

/// The field in a piece in the place of all of its name.
pub(crate) fn put_piece(
    alloc: Global,
    doc: &Doc,
    path: &[u32],
    pieces: Pieces<'_>,
    piece: u32,
    eol: Ending,
) -> Result<Vec<Edit>, WordError>
    requires { eol ≢ Ending.Missing }
    ensures edits { IfOk result (λ edits. plain_edits edits.items ≡ fields_put path.now (closed_field eol (piece_lines (pieces_of pieces.entry) eol piece)) (section_at path.now (tree doc.now))) }
    ensures memory { IfErr result (λ error. error ≡ WordError.Memory) }
{
    let text = closed(pieces.lines(alloc, piece, eol)?, eol)?;
    Ok(put(alloc, doc, path, &text)?)
}

/// All fields of a name removed.
pub(crate) fn drop_fields(
    alloc: Global,
    doc: &Doc,
    path: &[u32],
    name: &[u8],
) -> Result<Vec<Edit>, WordError>
    ensures edits { IfOk result (λ edits. plain_edits edits.items ≡ dropped path.now (field_name_in name.now) (section_at path.now (tree doc.now))) }
    ensures memory { IfErr result (λ error. error ≡ WordError.Memory) }
{
    Ok(drop_all(alloc, doc, path, field_name(name))?)
}

/// The lines of a piece as a part after the others.
pub(crate) fn append_piece(
    alloc: Global,
    doc: &Doc,
    path: &[u32],
    pieces: Pieces<'_>,
    piece: u32,
    eol: Ending,
) -> Result<Vec<Edit>, WordError>
    requires { eol ≢ Ending.Missing }
    ensures edits { IfOk result (λ edits. plain_edits edits.items ≡ part_appended eol path.now (piece_lines (pieces_of pieces.entry) eol piece) (section_at path.now (tree doc.now))) }
    ensures memory { IfErr result (λ error. error ≡ WordError.Memory) }
{
    let text = pieces.lines(alloc, piece, eol)?;
    let path = Vec::from_slice(alloc, path)?;
    Ok(append(alloc, doc, path, text, eol)?)
}

/// The lines of a piece as a part of text after the others.
pub(crate) fn append_text(
    alloc: Global,
    doc: &Doc,
    path: &[u32],
    pieces: Pieces<'_>,
    piece: u32,
    eol: Ending,
) -> Result<Vec<Edit>, WordError>
    requires { eol ≢ Ending.Missing }
    ensures edits { IfOk result (λ edits. plain_edits edits.items ≡ part_appended eol path.now (text_part eol (piece_lines (pieces_of pieces.entry) eol piece) (section_at path.now (tree doc.now))) (section_at path.now (tree doc.now))) }
    ensures memory { IfErr result (λ error. error ≡ WordError.Memory) }
{
    let text = pieces.lines(alloc, piece, eol)?;
    let part = text_to_append(alloc, doc, path, &text, eol)?;
    let path = Vec::from_slice(alloc, path)?;
    Ok(append(alloc, doc, path, part, eol)?)
}

/// A piece attached as a file.
pub(crate) fn attach_piece(
    alloc: Global,
    doc: &Doc,
    path: &[u32],
    media: &[u8],
    name: &[u8],
    pieces: Pieces<'_>,
    piece: u32,
    eol: Ending,
) -> Result<Vec<Edit>, WordError>
    requires { eol ≢ Ending.Missing }
    ensures edits { IfOk result (λ edits. attach_file eol path.now (script_file (pieces_of pieces.entry) eol media.now name.now piece) (section_at path.now (tree doc.now)) ≡ Ok (plain_edits edits.items)) }
    ensures fault { IfErr result (λ error. IsFault error (attach_file eol path.now (script_file (pieces_of pieces.entry) eol media.now name.now piece) (section_at path.now (tree doc.now)))) }
{
    let file = Spec { media, path: name };
    let text = attached_bytes(alloc, &file, pieces, piece, eol)?;
    let path = Vec::from_slice(alloc, path)?;
    attach_to(alloc, doc, path, &file, text, eol)
}

/// The lines of a piece attached as a text.
pub(crate) fn attach_text_piece(
    alloc: Global,
    doc: &Doc,
    path: &[u32],
    media: &[u8],
    pieces: Pieces<'_>,
    piece: u32,
    eol: Ending,
) -> Result<Vec<Edit>, WordError>
    requires { eol ≢ Ending.Missing }
    ensures edits { IfOk result (λ edits. text_attached eol path.now media.now (piece_lines (pieces_of pieces.entry) eol piece) (section_at path.now (tree doc.now)) ≡ Ok (plain_edits edits.items)) }
    ensures fault { IfErr result (λ error. IsFault error (text_attached eol path.now media.now (piece_lines (pieces_of pieces.entry) eol piece) (section_at path.now (tree doc.now)))) }
{
    let text = pieces.lines(alloc, piece, eol)?;
    let path = Vec::from_slice(alloc, path)?;
    attach_text(alloc, doc, path, media, text, eol)
}
