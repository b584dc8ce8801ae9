//! Going to the next line that could be a mark. Only lines that begin with two hyphens can, so the others are passed over by
//! one search for a line feed and two hyphens, which tests many bytes at once.
ghost use Rattle.std.specs.Prelude.{◌≡◌, ◌+◌, ◌≤◌, ◌∷◌, [], ℕ, List, length};
ghost use Rattle.mk_line.specs.Lines.{cut as lines_of};
ghost use Rattle.mk_tree.specs.Spans.{size};
ghost use Rattle.mk_tree.specs.Upto.{upto, beyond};

use memchr::memmem::Finder;

const DASHES: &[u8; 2] = b"--";

/// A line feed, and the first bytes of a line that could be a mark.
const DASHED: &[u8; 3] = b"\n--";

/// A search for them.
pub(crate) fn dashed_lines() -> Finder<'static>
    ensures { result ≡ 10 ∷ 45 ∷ 45 ∷ [] }
{
    Finder::new(DASHED)
}

/// The first line that begins with two hyphens, and what follows it: no line before it is a mark.
pub(crate) fn to_dashed<'a>(text: &'a [u8], dashed: &Finder<'_>) -> &'a [u8]
    requires { dashed.now ≡ 10 ∷ 45 ∷ 45 ∷ [] }
    ensures front { (bs : List (List ℕ)) → size (upto bs (lines_of text.now)) + length result.now ≡ length text.now + size (upto bs (lines_of result.now)) }
    ensures rest { (bs : List (List ℕ)) → beyond bs (lines_of text.now) ≡ beyond bs (lines_of result.now) }
    ensures less { length result.now ≤ length text.now }
{
    if text.starts_with(DASHES) {
        return text;
    }
    match dashed.find(text) {
        Some(feed) => &text[feed + 1..],
        None => &text[text.len()..],
    }
}
