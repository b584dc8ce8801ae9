//! The words of a script, and what they stand for in a document.

ghost use Rattle.std.specs.Prelude.{◌≡◌, ◌≢◌, ◌∷◌, [], Ok, IfOk, IfErr, OnOk};
ghost use Rattle.mk_decide.specs.Views.{edit_of};
ghost use Rattle.mk_tree.specs.Documents.{tree};
ghost use Rattle.mk_tree.specs.Sections.{section_at};
ghost use Rattle.mk_build.specs.Building.{closed_field, named_in_utf8};
ghost use Rattle.mk_script.specs.ScriptViews.{said_by};
ghost use Rattle.mk_pack.specs.Parts.{attached_file};
ghost use Rattle.mk_expand.specs.Views.{pieces_of, plain_edits, IsFault};
ghost use Rattle.mk_expand.specs.Words.{attach_file, attached_bytes as bytes_attached, field_text, is_plain as stands_alone, meaning_of};

use crate::appending::{append, part_to_append};
use crate::each_word::{
    add_field, append_piece, append_text, attach_piece, attach_text_piece, drop_fields,
    insert_part, put_field, put_piece, remove_field, rename_field, set_body, set_content_to,
    set_encoding_to, set_field, set_section, set_text_to, wrap,
};
use crate::errors::WordError;
use crate::ordering::removals;
use crate::pieces::Pieces;
use mk_build::{AttachError, AttachOptions, attach_with};
use mk_decide::Edit;
use mk_line::{Ending, ends_open};
use mk_pack::Spec;
use mk_script::Word;
use mk_tree::Doc;
use std::alloc::{AllocError, Global};

/// Whether a word stands for one edit, the same in every document.
pub fn is_plain(word: &Word) -> bool
    ensures { result ≡ stands_alone (said_by word.now) }
{
    match word {
        Word::Remove { paths } => paths.len() == 1,
        Word::Add { .. }
        | Word::Delete(_)
        | Word::Rename { .. }
        | Word::Set { .. }
        | Word::Body { .. }
        | Word::Replace { .. }
        | Word::Insert { .. }
        | Word::Wrap { .. } => true,
        Word::Content { .. }
        | Word::Text { .. }
        | Word::Encode { .. }
        | Word::Put { .. }
        | Word::PutPiece { .. }
        | Word::DropAll { .. }
        | Word::Append { .. }
        | Word::AppendText { .. }
        | Word::Attach { .. }
        | Word::AttachText { .. } => false,
    }
}

/// The edits that a word stands for in a document, in the order in which they are made. Lines that are made, and fields, end
/// with `eol`. A path that leads nowhere isn't a fault: the edit that is refused for it stands for the word.
pub fn edits_for(
    alloc: Global,
    word: &Word,
    doc: &Doc,
    pieces: Pieces<'_>,
    eol: Ending,
) -> Result<Vec<Edit>, WordError>
    requires { eol ≢ Ending.Missing }
    ensures edits { IfOk result (λ edits. meaning_of (pieces_of pieces.entry) eol (tree doc.now) (said_by word.now) ≡ Ok (plain_edits edits.items)) }
    ensures fault { IfErr result (λ error. IsFault error (meaning_of (pieces_of pieces.entry) eol (tree doc.now) (said_by word.now))) }
{
    match word {
        Word::Add { path, top, field } => add_field(alloc, path, *top, field, eol),
        Word::Delete(target) => remove_field(alloc, target),
        Word::Rename { target, to } => rename_field(alloc, target, to),
        Word::Set { target, field } => set_field(alloc, target, field, eol),
        Word::Body { path, piece } => set_body(alloc, path, pieces, *piece, eol),
        Word::Replace { path, piece } => set_section(alloc, path, pieces, *piece, eol),
        Word::Insert { path, place, piece } => {
            insert_part(alloc, path, *place, pieces, *piece, eol)
        }
        Word::Remove { paths } => removals(alloc, paths).map_err(WordError::from),
        Word::Wrap {
            path,
            subtype,
            boundary,
        } => wrap(alloc, path, subtype, boundary),
        Word::Content { path, piece } => set_content_to(alloc, doc, path, pieces, *piece, eol),
        Word::Text {
            charset,
            path,
            piece,
        } => set_text_to(alloc, doc, path, charset, pieces, *piece, eol),
        Word::Encode { path, to } => set_encoding_to(alloc, doc, path, *to, eol),
        Word::Put { path, field } => put_field(alloc, doc, path, field, eol),
        Word::PutPiece { path, piece } => put_piece(alloc, doc, path, pieces, *piece, eol),
        Word::DropAll { path, name } => drop_fields(alloc, doc, path, name),
        Word::Append { path, piece } => append_piece(alloc, doc, path, pieces, *piece, eol),
        Word::AppendText { path, piece } => append_text(alloc, doc, path, pieces, *piece, eol),
        Word::Attach {
            path,
            media,
            name,
            piece,
        } => attach_piece(alloc, doc, path, media, name, pieces, *piece, eol),
        Word::AttachText { path, media, piece } => {
            attach_text_piece(alloc, doc, path, media, pieces, *piece, eol)
        }
    }
}

/// One edit, and nothing else.
pub(crate) fn alone(alloc: Global, edit: Edit) -> Result<Vec<Edit>, WordError>
    ensures edits { IfOk result (λ edits. plain_edits edits.items ≡ edit_of edit ∷ []) }
    ensures memory { IfErr result (λ error. error ≡ WordError.Memory) }
{
    let mut edits = Vec::new(alloc);
    edits.push(edit)?;
    Ok(edits)
}

/// The bytes of a piece that is attached as a file: those of a text as lines of the message.
pub(crate) fn attached_bytes(
    alloc: Global,
    file: &Spec<'_>,
    pieces: Pieces<'_>,
    piece: u32,
    eol: Ending,
) -> Result<Vec<u8>, AllocError>
    requires { eol ≢ Ending.Missing }
    ensures { IfOk result (λ bytes. bytes.items ≡ bytes_attached (pieces_of pieces.entry) eol file.now.media.now piece) }
{
    if file.is_text() {
        pieces.lines(alloc, piece, eol)
    } else {
        Vec::from_slice(alloc, pieces.text(piece))
    }
}

/// A file as a part after the others, or beside a section. A name in UTF-8 is also written as it is (RFC 2231, 4).
pub(crate) fn attach_to(
    alloc: Global,
    doc: &Doc,
    path: Vec<u32>,
    file: &Spec<'_>,
    text: Vec<u8>,
    eol: Ending,
) -> Result<Vec<Edit>, WordError>
    requires { eol ≢ Ending.Missing }
    ensures edits { IfOk result (λ edits. attach_file eol path.items (named_in_utf8 (attached_file (record { media = file.now.media.now; path = file.now.path.now }) text.items)) (section_at path.items (tree doc.now)) ≡ Ok (plain_edits edits.items)) }
    ensures fault { IfErr result (λ error. IsFault error (attach_file eol path.items (named_in_utf8 (attached_file (record { media = file.now.media.now; path = file.now.path.now }) text.items)) (section_at path.items (tree doc.now)))) }
{
    let part = file.attach(alloc, text)?;
    let options = AttachOptions {
        charset: None,
        utf8_names: true,
    };
    match attach_with(alloc, &part, options, eol) {
        Ok(text) => {
            let text = part_to_append(doc, &path, text, eol)?;
            Ok(append(alloc, doc, path, text, eol)?)
        }
        Err(AttachError::BadType) => Err(WordError::BadType),
        Err(AttachError::BadName) => Err(WordError::BadName),
        Err(AttachError::Memory) => Err(WordError::Memory),
    }
}

/// A field with a line ending.
pub(crate) fn ended(alloc: Global, field: &[u8], eol: Ending) -> Result<Vec<u8>, AllocError>
    ensures { IfOk result (λ text. text.items ≡ field_text eol field.now) }
{
    let mut text = Vec::from_slice(alloc, field)?;
    text.extend_from_slice(eol.bytes())?;
    Ok(text)
}

/// The field in a piece, with a line ending if its last line has none.
pub(crate) fn closed(field: Vec<u8>, eol: Ending) -> Result<Vec<u8>, AllocError>
    ensures { IfOk result (λ text. text.items ≡ closed_field eol field.items) }
{
    let mut text = field;
    if ends_open(&text) {
        text.extend_from_slice(eol.bytes())?;
    }
    Ok(text)
}
