//! What is shown of a message: its sections, and the content of one of them.

ghost use Rattle.std.specs.Prelude.{◌≡◌, IfOk};
ghost use Rattle.mk_view.specs.Listing.{listing};
ghost use Rattle.mk_show.specs.Shown.{IsListed, IsTaken, extract_line, extract_name as name_of, run_of_answer};

use mk_tree::Doc;
use mk_view::{ExtractError, extract, list, push_path};
use std::alloc::{AllocError, Global};

const LINE_FEED: u8 = b'\n';

/// What goes out, and what is reported. Nothing is reported where all is well.
#[derive(Debug, Drop)]
pub struct Answer {
    pub output: Vec<u8>,
    pub errors: Vec<u8>,
}

/// The listing of a document.
pub fn sections(alloc: Global, doc: &Doc) -> Result<Answer, AllocError>
    ensures { IfOk result (λ a. IsListed doc.now (run_of_answer a)) }
{
    Ok(Answer {
        output: list(alloc, doc)?,
        errors: Vec::new(alloc),
    })
}

/// The content of the section at a path, decoded where it is a leaf, or the reason why it isn't given.
pub fn content(alloc: Global, doc: &Doc, path: &[u32]) -> Result<Answer, AllocError>
    ensures { IfOk result (λ a. IsTaken path.now doc.now (run_of_answer a)) }
{
    match extract(alloc, doc, path) {
        Ok(output) => Ok(Answer {
            output,
            errors: Vec::new(alloc),
        }),
        Err(ExtractError::Memory) => Err(AllocError),
        Err(reason) => Ok(Answer {
            output: Vec::new(alloc),
            errors: refusal(alloc, path, reason)?,
        }),
    }
}

/// The line that says why a content isn't given.
pub fn refusal(alloc: Global, path: &[u32], reason: ExtractError) -> Result<Vec<u8>, AllocError>
    ensures { IfOk result (λ line. line.items ≡ extract_line path.now reason) }
{
    let mut line = Vec::new(alloc);
    push_path(&mut line, path)?;
    line.extend_from_slice(b": ")?;
    line.extend_from_slice(name(reason))?;
    line.push(LINE_FEED)?;
    Ok(line)
}

fn name(reason: ExtractError) -> &'static [u8]
    ensures { result.now ≡ name_of reason }
{
    match reason {
        ExtractError::NoSuchSection => b"NoSuchSection",
        ExtractError::BadBase64 => b"BadBase64",
        ExtractError::UnknownEncoding => b"UnknownEncoding",
        ExtractError::Memory => b"Memory",
    }
}
