//! The content of a section, taken out of a document.
ghost use Rattle.std.specs.Prelude.{◌≡◌, ◌↔◌, ℕ, List, Err, None, Some, length, IfErr, IfOk, OnOk};
ghost use Rattle.mk_tree.specs.Documents.{tree};
ghost use Rattle.mk_tree.specs.Sections.{section_at};
ghost use Rattle.mk_view.specs.Extracts.{IsContentOf, IsExtract, IsExtractRefused, IsRefusedOf, extract_reason};

use mk_code::{CodeError, Encoding, decode_in, decoded_size};
use mk_tree::{Doc, Kind, Section};
use std::alloc::Global;
use thiserror::Error;

/// Why no content is taken out.
#[derive(Clone, Copy, Debug, PartialEq, Eq, Error)]
pub enum ExtractError {
    /// There is no section at the path.
    #[error("there is no section at the path")]
    NoSuchSection,
    /// The content of a leaf is said to be base64, and its letters are no encoding of any bytes.
    #[error("the content is not valid base64")]
    BadBase64,
    /// The content of a leaf has a transfer encoding that can't be decoded.
    #[error("the transfer encoding is unknown")]
    UnknownEncoding,
    /// Memory ran out.
    #[error("out of memory")]
    Memory,
}

/// Takes out the content of the section at a path: that of a leaf decoded by its Content-Transfer-Encoding (RFC 2045, 6),
/// that of another section as it stands. Only `NoSuchSection` takes no memory to answer.
pub fn extract(alloc: Global, doc: &Doc, path: &[u32]) -> Result<Vec<u8>, ExtractError>
    ensures content { IfOk result (λ bytes. IsExtract (section_at path.now (tree doc.now)) bytes.items) }
    ensures refused { IfErr result (λ error. IsExtractRefused (section_at path.now (tree doc.now)) error) }
    ensures missing { (section_at path.now (tree doc.now) ≡ None) ↔ (result ≡ Err ExtractError.NoSuchSection) }
{
    match doc.section(path) {
        Some(section) => content(alloc, &section),
        None => Err(ExtractError::NoSuchSection),
    }
}

/// The content of a section, which is there: never `NoSuchSection`.
pub fn content(alloc: Global, section: &Section<'_>) -> Result<Vec<u8>, ExtractError>
    ensures content { IfOk result (λ bytes. IsExtract (Some section.now) bytes.items) }
    ensures refused { IfErr result (λ error. IsExtractRefused (Some section.now) error) }
{
    let mut bytes = Vec::new(alloc);
    content_in(&mut bytes, section)?;
    Ok(bytes)
}

/// Puts what `content` gives into memory that is there already, in the place of the bytes that it holds. After an error it
/// holds any bytes.
pub fn content_in(memory: &mut Vec<u8>, section: &Section<'_>) -> Result<(), ExtractError>
    ensures content { OnOk result (IsExtract (Some section.now) memory.new.items) }
    ensures refused { IfErr result (λ error. IsExtractRefused (Some section.now) error) }
{
    match content_of(memory, section) {
        Ok(()) => Ok(()),
        Err(error) => Err(extract_error(error)),
    }
}

/// How many bytes `content` gives, and its error otherwise. Nothing is decoded: memory is asked for only to read which
/// encoding the section has.
pub fn content_size(alloc: Global, section: &Section<'_>) -> Result<usize, ExtractError>
    ensures size { IfOk result (λ size. (bytes : List ℕ) × IsExtract (Some section.now) bytes × (size ≡ length bytes)) }
    ensures refused { IfErr result (λ error. IsExtractRefused (Some section.now) error) }
{
    size_of(alloc, section).map_err(extract_error)
}

// The size of the content of a section, decoded where it is a leaf.
fn size_of(alloc: Global, section: &Section<'_>) -> Result<usize, CodeError>
    ensures size { IfOk result (λ size. (bytes : List ℕ) × IsContentOf section.now bytes × (size ≡ length bytes)) }
    ensures refused { IfErr result (λ error. IsRefusedOf section.now error) }
{
    match section.kind() {
        Kind::Leaf => decoded_size(section.encoding(alloc)?, section.content()),
        Kind::Multi | Kind::Message => Ok(section.content().len()),
    }
}

// The content of a section, decoded where it is a leaf.
fn content_of(memory: &mut Vec<u8>, section: &Section<'_>) -> Result<(), CodeError>
    ensures content { OnOk result (IsContentOf section.now memory.new.items) }
    ensures refused { IfErr result (λ error. IsRefusedOf section.now error) }
{
    match section.kind() {
        Kind::Leaf => {
            let encoding = section.encoding(*memory.allocator())?;
            decode_in(memory, encoding, section.content())
        }
        Kind::Multi | Kind::Message => { decode_in(memory, Encoding::Identity, section.content()) }
    }
}

fn extract_error(error: CodeError) -> ExtractError
    ensures { result ≡ extract_reason error }
{
    match error {
        CodeError::BadBase64 => ExtractError::BadBase64,
        CodeError::UnknownEncoding => ExtractError::UnknownEncoding,
        CodeError::Memory => ExtractError::Memory,
    }
}
