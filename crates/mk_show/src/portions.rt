//! What `extract` gives of a section: its content, or another portion of it.

ghost use Rattle.std.specs.Prelude.{◌≡◌, if◌then◌else◌, [], IfOk};
ghost use Rattle.std.specs.Option.{option_map};
ghost use Rattle.mk_line.specs.Ascii.{underscore};
ghost use Rattle.mk_head.specs.Values.{is_token_byte};
ghost use Rattle.mk_tree.specs.Documents.{tree};
ghost use Rattle.mk_tree.specs.Sections.{section_at};
ghost use Rattle.mk_transfer.specs.Said.{shown};
ghost use Rattle.mk_script.specs.ScriptViews.{items_of};
ghost use Rattle.mk_show.specs.Shown.{extract_line, run_of_answer};
ghost use Rattle.mk_show.specs.inner.SaidAnswers.{said_of_answer};
ghost use Rattle.mk_show.specs.Portions.{AreTakenAs, IsPrefix, IsTakenAs, IsInUtf8, bytes_run, charset_line, text_run};

use crate::answers::{Answer, content as decoded, refusal};
use mk_code::{decode_front, in_utf8, is_in_charset};
use mk_head::is_token;
use mk_tree::Doc;
use mk_view::{ExtractError, content, media_type, push_path};
use std::alloc::{AllocError, Global};

/// The parameter that names the charset of a text (RFC 2046, 4.1.2).
const CHARSET: &[u8] = b"charset";

const LINE_FEED: u8 = b'\n';

const UNDERSCORE: u8 = b'_';

/// What is given of a section.
#[derive(Clone, Copy, Debug, PartialEq, Eq)]
pub enum Portion {
    /// Its content, decoded where it is a leaf. The default.
    Content,
    /// Its content as it is.
    Raw,
    /// Its fields as they are, without the separator.
    Head,
    /// Its content; if that is base64 that isn't whole, what can be decoded of it, and the reason too.
    Prefix,
    /// Its content in UTF-8, by the charset that its type names. Where that isn't known, or hasn't these bytes, the content as
    /// `Content` gives it, and the charset as a reason too.
    Utf8,
}

impl Default for Portion {
    ghost use Rattle.std.specs.Prelude.{◌≡◌};
    ghost use Rattle.mk_show.specs.declared.portions.Portion.TheVariants.{Content};

    ghost is_default = { λ portion. portion ≡ Content };

    fn default() -> Portion {
        Self::Content
    }
}

/// The portion of the section at a path, or the reason why it isn't given.
pub fn given(alloc: Global, doc: &Doc, path: &[u32], wanted: Portion) -> Result<Answer, AllocError>
    ensures { IfOk result (λ a. IsTakenAs wanted path.now doc.now (run_of_answer a)) }
{
    match wanted {
        Portion::Content => decoded(alloc, doc, path),
        Portion::Raw => as_it_stands(
            alloc,
            path,
            doc.section(path).map(|section| section.content()),
        ),
        Portion::Head => as_it_stands(alloc, path, doc.section(path).map(|section| section.head())),
        Portion::Prefix => prefix(alloc, doc, path),
        Portion::Utf8 => text(alloc, doc, path),
    }
}

/// The portions of the sections at some paths, one after another, and the reasons against the others.
pub fn given_all(
    alloc: Global,
    doc: &Doc,
    paths: &[Vec<u32>],
    wanted: Portion,
) -> Result<Answer, AllocError>
    ensures { IfOk result (λ a. AreTakenAs wanted (items_of paths.now) doc.now (said_of_answer a)) }
{
    let mut all = Answer {
        output: Vec::new(alloc),
        errors: Vec::new(alloc),
    };
    for path in paths {
        let answer = given(alloc, doc, path, wanted)?;
        all.output.extend_from_slice(&answer.output)?;
        all.errors.extend_from_slice(&answer.errors)?;
    }
    Ok(all)
}

// Bytes of the section at a path, where it is there.
fn as_it_stands(alloc: Global, path: &[u32], bytes: Option<&[u8]>) -> Result<Answer, AllocError>
    ensures { IfOk result (λ a. run_of_answer a ≡ bytes_run path.now (option_map (λ b. b.now) bytes.entry)) }
{
    match bytes {
        Some(bytes) => Ok(Answer {
            output: Vec::from_slice(alloc, bytes)?,
            errors: Vec::new(alloc),
        }),
        None => refused(alloc, path, ExtractError::NoSuchSection),
    }
}

// The content of the section at a path, or what can be decoded of it if that is base64 that isn't whole.
fn prefix(alloc: Global, doc: &Doc, path: &[u32]) -> Result<Answer, AllocError>
    ensures { IfOk result (λ a. IsPrefix path.now (section_at path.now (tree doc.now)) (run_of_answer a)) }
{
    let Some(section) = doc.section(path) else {
        return refused(alloc, path, ExtractError::NoSuchSection);
    };
    match content(alloc, &section) {
        Ok(output) => Ok(Answer {
            output,
            errors: Vec::new(alloc),
        }),
        Err(ExtractError::BadBase64) => Ok(Answer {
            output: decode_front(alloc, section.content())?,
            errors: refusal(alloc, path, ExtractError::BadBase64)?,
        }),
        Err(ExtractError::Memory) => Err(AllocError),
        Err(reason) => refused(alloc, path, reason),
    }
}

// The content of the section at a path, in UTF-8 where its charset is known.
fn text(alloc: Global, doc: &Doc, path: &[u32]) -> Result<Answer, AllocError>
    ensures { IfOk result (λ a. IsInUtf8 path.now (section_at path.now (tree doc.now)) (run_of_answer a)) }
{
    let Some(section) = doc.section(path) else {
        return refused(alloc, path, ExtractError::NoSuchSection);
    };
    match content(alloc, &section) {
        Ok(bytes) => {
            let media = media_type(alloc, &section)?;
            in_charset(alloc, path, media.param(CHARSET), bytes)
        }
        Err(ExtractError::Memory) => Err(AllocError),
        Err(reason) => refused(alloc, path, reason),
    }
}

// Bytes in UTF-8, where a charset is named and has them; as they are where none is named, and else with its name.
fn in_charset(
    alloc: Global,
    path: &[u32],
    charset: Option<&[u8]>,
    bytes: Vec<u8>,
) -> Result<Answer, AllocError>
    ensures { IfOk result (λ a. run_of_answer a ≡ text_run path.now (option_map (λ c. c.now) charset.entry) bytes.items) }
{
    let Some(charset) = charset else {
        return Ok(Answer {
            output: bytes,
            errors: Vec::new(alloc),
        });
    };
    if !is_in_charset(charset, &bytes) {
        return Ok(Answer {
            output: bytes,
            errors: unknown(alloc, path, charset)?,
        });
    }
    match in_utf8(alloc, charset, bytes)? {
        Some(output) => Ok(Answer {
            output,
            errors: Vec::new(alloc),
        }),
        // It was asked before whether there is such a text.
        None => Err(AllocError),
    }
}

// The line that names a charset which isn't known, or hasn't the bytes of the content.
fn unknown(alloc: Global, path: &[u32], charset: &[u8]) -> Result<Vec<u8>, AllocError>
    ensures { IfOk result (λ line. line.items ≡ charset_line path.now charset.now) }
{
    let mut line = Vec::new(alloc);
    push_path(&mut line, path)?;
    line.extend_from_slice(b": UnknownCharset ")?;
    for byte in charset {
        line.push(shown_as(*byte))?;
    }
    line.push(LINE_FEED)?;
    Ok(line)
}

// The byte of a charset's name as its line shows it.
fn shown_as(byte: u8) -> u8
    ensures { result ≡ if is_token_byte byte then byte else underscore }
{
    if is_token(&[byte]) { byte } else { UNDERSCORE }
}

/// The reason alone.
pub fn refused(alloc: Global, path: &[u32], reason: ExtractError) -> Result<Answer, AllocError>
    ensures { IfOk result (λ a. run_of_answer a ≡ shown [] (extract_line path.now reason)) }
{
    Ok(Answer {
        output: Vec::new(alloc),
        errors: refusal(alloc, path, reason)?,
    })
}
