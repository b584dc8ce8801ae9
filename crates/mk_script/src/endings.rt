//! Texts with other endings at their lines (own).

ghost use Rattle.std.specs.Prelude.{◌≡◌, ◌≢◌, ◌++◌, ◌∷◌, [], ℕ, List, IfOk, MatchOption};
ghost use Rattle.mk_line.specs.Ascii.{carriage_return};
ghost use Rattle.mk_script.specs.Endings.{content_before as content_for, turned_ending as other_ending, turned_to, without_returns as returns_gone};

use mk_line::{Ending, cut};
use std::alloc::{AllocError, Global};

const CARRIAGE_RETURN: &[u8; 1] = b"\r";

/// A text with another ending at each of its lines. A last line without an ending gets none. Where lines are turned to LF, all
/// carriage returns right before a line feed go: one that stayed would be read as part of the ending.
pub fn turned(alloc: Global, text: &[u8], eol: Ending) -> Result<Vec<u8>, AllocError>
    ensures { IfOk result (λ turned. turned.items ≡ turned_to eol text.now) }
{
    let mut turned = Vec::with_capacity(alloc, text.len())?;
    for line in cut(text) {
        let ending = turned_ending(line.ending, eol);
        turned.extend_from_slice(content_before(ending, line.content))?;
        turned.extend_from_slice(ending.bytes())?;
    }
    Ok(turned)
}

// Another ending, where there is one.
fn turned_ending(ending: Ending, eol: Ending) -> Ending
    ensures { result ≡ other_ending eol ending }
{
    match ending {
        Ending::Crlf | Ending::Lf => eol,
        Ending::Missing => Ending::Missing,
    }
}

// What goes before an ending.
fn content_before(ending: Ending, content: &[u8]) -> &[u8]
    ensures { result.now ≡ content_for ending content.now }
{
    match ending {
        Ending::Lf => without_returns(content),
        Ending::Crlf | Ending::Missing => content,
    }
}

// The bytes without the carriage returns at their end.
fn without_returns(bytes: &[u8]) -> &[u8]
    ensures { result.now ≡ returns_gone bytes.now }
{
    let mut kept = bytes;
    'each: while let Some(front) = before_return(kept) {
        kept = front;
    }
    kept
}

// What stands before a carriage return at the end.
fn before_return(bytes: &[u8]) -> Option<&[u8]>
    ensures { MatchOption result ((front : List ℕ) → bytes.now ≢ front ++ carriage_return ∷ []) (λ front. bytes.now ≡ front.now ++ carriage_return ∷ []) }
{
    bytes.strip_suffix(CARRIAGE_RETURN)
}
