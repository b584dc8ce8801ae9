//! Delimiters and close lines of a boundary (RFC 2046, 5.1.1).
ghost use Rattle.std.specs.Prelude.{◌≡◌, ◌≢◌, ℕ, List, [], ◌∷◌, ◌++◌, MatchOption, OnOk, OnErr};
ghost use Rattle.std.specs.Str.{bytes_eq};
ghost use Rattle.mk_line.specs.Ascii.{hyphen};
ghost use Rattle.mk_line.specs.Lines.{ending_bytes, printed_line};
ghost use Rattle.mk_line.specs.inner.Kept.{IsKept};
ghost use Rattle.mk_line.specs.Marks.{mark, close_line, dashed, delimiter_line, trimmed as without_blanks};

use crate::cutting::Ending;
use crate::kinds::is_blank;
use std::alloc::AllocError;

const DASHES: &[u8; 2] = b"--";

/// What a line is to a boundary.
#[derive(Clone, Copy, Debug, PartialEq, Eq)]
pub enum Mark {
    /// Neither delimiter nor close line.
    No,
    /// The delimiter, `--` and the boundary, which begins a part.
    Part,
    /// The close line, `--`, the boundary and `--`.
    Close,
}

/// What the content is to the boundary. Blanks at the content's end don't count; all the rest must match.
pub fn is_delimiter(content: &[u8], boundary: &[u8]) -> Mark
    ensures { result ≡ mark boundary.now content.now }
{
    let line = trimmed(content);
    if is_dashed(line, boundary) {
        return Mark::Part;
    }
    match before_dashes(line) {
        Some(front) => {
            if is_dashed(front, boundary) {
                Mark::Close
            } else {
                Mark::No
            }
        }
        None => Mark::No,
    }
}

// Whether the line is two hyphens and the boundary.
fn is_dashed(line: &[u8], boundary: &[u8]) -> bool
    ensures { result ≡ bytes_eq line.now (dashed boundary.now) }
{
    match line.strip_prefix(DASHES) {
        Some(rest) => rest == boundary,
        None => false,
    }
}

// What stands before two hyphens at the end.
fn before_dashes(line: &[u8]) -> Option<&[u8]>
    ensures { let end = hyphen ∷ hyphen ∷ [] in MatchOption result ((front : List ℕ) → line.now ≢ front ++ end) (λ front. line.now ≡ front.now ++ end) }
{
    line.strip_suffix(DASHES)
}

/// Appends the delimiter line of a boundary, which begins a part. After an error the text is as before.
pub fn push_delimiter(text: &mut Vec<u8>, boundary: &[u8], eol: Ending) -> Result<(), AllocError>
    ensures appended { OnOk result (text.new.items ≡ text.old.items ++ printed_line (delimiter_line eol boundary.now)) }
    ensures unchanged { OnErr result (text.new.items ≡ text.old.items) }
{
    let size = text.len();
    let pushed = push_line(text, boundary, b"", eol);
    if pushed.is_err() {
        text.truncate(size);
    }
    pushed
}

/// Appends the close line of a boundary. After an error the text is as before.
pub fn push_close(text: &mut Vec<u8>, boundary: &[u8], eol: Ending) -> Result<(), AllocError>
    ensures appended { OnOk result (text.new.items ≡ text.old.items ++ printed_line (close_line eol boundary.now)) }
    ensures unchanged { OnErr result (text.new.items ≡ text.old.items) }
{
    let before = text.len();
    let pushed = push_line(text, boundary, DASHES, eol);
    if pushed.is_err() {
        text.truncate(before);
    }
    pushed
}

// Appends a line of two hyphens, the boundary and a text; after an error some of it may follow the text.
fn push_line(
    text: &mut Vec<u8>,
    boundary: &[u8],
    following: &[u8],
    eol: Ending,
) -> Result<(), AllocError>
    ensures appended { OnOk result (text.new.items ≡ text.old.items ++ ((dashed boundary.now ++ following.now) ++ ending_bytes eol)) }
    ensures kept { IsKept text.old.items text.new.items }
{
    text.extend_from_slice(DASHES)?;
    text.extend_from_slice(boundary)?;
    text.extend_from_slice(following)?;
    text.extend_from_slice(eol.bytes())
}

/// The content without the blanks at its end.
pub fn trimmed(content: &[u8]) -> &[u8]
    ensures { result.now ≡ without_blanks content.now }
{
    let mut size = content.len();
    while size > 0 && is_blank(content[size - 1]) {
        size -= 1;
    }
    &content[..size]
}
