//! Where lines of a kind begin.
ghost use Rattle.std.specs.Prelude.{◌≡◌, ◌==◌, ◌+◌, ◌<◌, ◌^◌, length, nat_lt};
ghost use Rattle.mk_line.specs.declared.cutting.Ending.{Ending};
ghost use Rattle.std.specs.List.{list_any};
ghost use Rattle.std.specs.Option.{option_map};
ghost use Rattle.mk_line.specs.Lines.{cut as lines_of, text_line};
ghost use Rattle.mk_line.specs.Views.{line_of};
ghost use Rattle.mk_check.specs.inner.LineKinds.{line_kind_of};
ghost use Rattle.mk_check.specs.Places.{begins_named, line_place};

use mk_line::{Line, cut, name_len};

/// The bytes that a line may have at most, without its ending (RFC 5322, 2.1.1).
const MOST_IN_LINE: usize = 998;

/// A kind of line that is looked for.
#[derive(Clone, Copy, Debug)]
pub(crate) enum LineKind<'a> {
    /// With a byte that isn't ASCII.
    NotAscii,
    /// Longer than a line may be.
    TooLong,
    /// With a NUL.
    HasNul,
    /// The first line of a field of this name.
    Begins(&'a [u8]),
}

impl LineKind<'_> {
    ghost use Rattle.std.specs.Prelude.{◌≡◌};
    ghost use Rattle.mk_line.specs.Views.{line_of};
    ghost use Rattle.mk_check.specs.inner.LineKinds.{line_kind_of};

    /// Whether a line is of this kind.
    fn has(self, line: Line<'_>) -> bool
        ensures { result ≡ line_kind_of self.entry (line_of line.entry) }
    {
        match self {
            LineKind::NotAscii => has_other(line.content),
            LineKind::TooLong => line.content.len() > MOST_IN_LINE,
            LineKind::HasNul => has_nul(line.content),
            LineKind::Begins(name) => begins(line.content, name),
        }
    }
}

fn has_other(content: &[u8]) -> bool
    ensures { result ≡ list_any (λ byte. nat_lt 127 byte) content.now }
{
    content.iter().any(|byte| *byte > 127)
}

fn has_nul(content: &[u8]) -> bool
    ensures { result ≡ list_any (λ byte. byte == 0) content.now }
{
    content.iter().any(|byte| *byte == 0)
}

// Whether the first line of a field of this name has this content.
fn begins(content: &[u8], name: &[u8]) -> bool
    ensures { (ending : Ending) → result ≡ begins_named name.now (text_line content.now ending) }
{
    match name_len(content) {
        Some(size) => content[..size].eq_ignore_ascii_case(name),
        None => false,
    }
}

/// Where the first line of a kind begins in a text that begins at a place; the second one, if the first doesn't count.
pub(crate) fn place_from(
    start: usize,
    text: &[u8],
    kind: LineKind<'_>,
    first_counts: bool,
) -> Option<usize>
    requires { start + length text.now < 2 ^ 64 }
    ensures { result ≡ option_map (λ place. start + place) (line_place (line_kind_of kind.entry) first_counts (lines_of text.now)) }
{
    let mut place = start;
    let mut counts = first_counts;
    for line in cut(text) {
        let is_one = kind.has(line);
        if is_one && counts {
            return Some(place);
        }
        counts = counts || is_one;
        place += line.size();
    }
    None
}
