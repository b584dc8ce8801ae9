//! The content of a leaf in another transfer encoding (RFC 2045, 6).

ghost use Rattle.std.specs.Prelude.{◌≡◌, ◌≢◌, ◌++◌, ◌∷◌, [], Ok, Some, IfOk, IfErr};
ghost use Rattle.mk_decide.specs.Edits.{SetBody};
ghost use Rattle.mk_decide.specs.Views.{edit_of};
ghost use Rattle.mk_tree.specs.Documents.{tree};
ghost use Rattle.mk_tree.specs.Sections.{section_at};
ghost use Rattle.mk_expand.specs.Contents.{body_with as body_that_has};
ghost use Rattle.mk_expand.specs.Encodings.{decoded_in, encoded_as as encoded_so, encoding_field as field_that_says, encoding_set, encoding_value as value_of, may_be_encoded as may_be_so};
ghost use Rattle.mk_expand.specs.FieldWords.{put as put_in};
ghost use Rattle.mk_expand.specs.Views.{plain_edits, IsFault};

use crate::contents::{body_with, is_eight_bit, with_body};
use crate::errors::WordError;
use crate::field_words::put;
use mk_code::{CodeError, b64_encode, decode, qp_encode};
use mk_decide::Edit;
use mk_head::Encoding;
use mk_line::Ending;
use mk_script::ChosenEncoding;
use mk_tree::{Doc, Kind};
use std::alloc::{AllocError, Global};

const FIELD: &[u8] = b"Content-Transfer-Encoding: ";

/// Writes the content of the leaf at a path in another transfer encoding, and says so in its fields.
pub(crate) fn set_encoding(
    alloc: Global,
    doc: &Doc,
    path: Vec<u32>,
    to: ChosenEncoding,
    eol: Ending,
) -> Result<Vec<Edit>, WordError>
    requires { eol ≢ Ending.Missing }
    ensures edits { IfOk result (λ edits. encoding_set eol path.items to (section_at path.items (tree doc.now)) ≡ Ok (plain_edits edits.items)) }
    ensures fault { IfErr result (λ error. IsFault error (encoding_set eol path.items to (section_at path.items (tree doc.now)))) }
{
    let Some(section) = doc.section(&path) else {
        return with_body(alloc, path, b"");
    };
    match section.kind() {
        Kind::Leaf => {
            let encoding = section.encoding(alloc)?;
            let bytes = decoded(alloc, encoding, section.content())?;
            if !may_be_encoded(to, &bytes) {
                return Err(WordError::BinaryContent);
            }
            let body = body_with(encoded(alloc, to, &bytes, eol)?, eol, section.followed())?;
            Ok(recoded(alloc, doc, path, to, body, eol)?)
        }
        Kind::Multi | Kind::Message => with_body(alloc, path, b""),
    }
}

// The bytes that a text in a transfer encoding stands for.
fn decoded(alloc: Global, encoding: Encoding, text: &[u8]) -> Result<Vec<u8>, WordError>
    ensures bytes { IfOk result (λ bytes. decoded_in encoding text.now ≡ Ok bytes.items) }
    ensures fault { IfErr result (λ error. IsFault error (decoded_in encoding text.now)) }
{
    match decode(alloc, encoding, text) {
        Ok(bytes) => Ok(bytes),
        Err(CodeError::BadBase64) => Err(WordError::BadBase64),
        Err(CodeError::UnknownEncoding) => Err(WordError::UnknownEncoding),
        Err(CodeError::Memory) => Err(WordError::Memory),
    }
}

// Whether bytes may be written in a transfer encoding that was chosen.
fn may_be_encoded(to: ChosenEncoding, bytes: &[u8]) -> bool
    ensures { result ≡ may_be_so to bytes.now }
{
    match to {
        ChosenEncoding::Qp | ChosenEncoding::QuotedPrintable | ChosenEncoding::Base64 => true,
        ChosenEncoding::EightBit | ChosenEncoding::Identity => is_eight_bit(bytes),
    }
}

// Bytes in a transfer encoding that was chosen.
fn encoded(
    alloc: Global,
    to: ChosenEncoding,
    bytes: &[u8],
    eol: Ending,
) -> Result<Vec<u8>, AllocError>
    requires { eol ≢ Ending.Missing }
    ensures { IfOk result (λ text. text.items ≡ encoded_so to eol bytes.now) }
{
    match to {
        ChosenEncoding::Qp | ChosenEncoding::QuotedPrintable => qp_encode(alloc, bytes, eol),
        ChosenEncoding::Base64 => b64_encode(alloc, bytes, eol),
        ChosenEncoding::EightBit | ChosenEncoding::Identity => Vec::from_slice(alloc, bytes),
    }
}

// The field that says the encoding in the place of those of its name, and then the body.
fn recoded(
    alloc: Global,
    doc: &Doc,
    path: Vec<u32>,
    to: ChosenEncoding,
    body: Vec<u8>,
    eol: Ending,
) -> Result<Vec<Edit>, AllocError>
    ensures { IfOk result (λ edits. plain_edits edits.items ≡ put_in path.items (field_that_says eol to) (section_at path.items (tree doc.now)) ++ SetBody path.items body.items ∷ []) }
{
    let field = encoding_field(alloc, to, eol)?;
    let mut edits = put(alloc, doc, &path, &field)?;
    edits.push(Edit::SetBody { path, text: body })?;
    Ok(edits)
}

// The field that says a transfer encoding.
fn encoding_field(alloc: Global, to: ChosenEncoding, eol: Ending) -> Result<Vec<u8>, AllocError>
    ensures { IfOk result (λ field. field.items ≡ field_that_says eol to) }
{
    let mut field = Vec::from_slice(alloc, FIELD)?;
    field.extend_from_slice(encoding_value(to))?;
    field.extend_from_slice(eol.bytes())?;
    Ok(field)
}

fn encoding_value(to: ChosenEncoding) -> &'static [u8]
    ensures { result.now ≡ value_of to }
{
    match to {
        ChosenEncoding::Qp | ChosenEncoding::QuotedPrintable => b"quoted-printable",
        ChosenEncoding::Base64 => b"base64",
        ChosenEncoding::EightBit | ChosenEncoding::Identity => b"8bit",
    }
}
