//! What of a message goes into its file.

ghost use Rattle.std.specs.Prelude.{◌≡◌};
ghost use Rattle.mk_split.specs.Splitting.{without_from_line};

use mk_line::{first_line, is_from_line};

/// A text without the From-line that it begins with.
pub(crate) fn after_from_line(text: &[u8]) -> &[u8]
    ensures { result.now ≡ without_from_line text.now }
{
    match first_line(text) {
        Some((line, rest)) if is_from_line(line.content) => rest,
        _ => text,
    }
}
