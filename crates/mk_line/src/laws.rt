//! Laws of cutting, each a function with an empty body whose clause is the law.
ghost use Rattle.std.specs.Prelude.{◌≡◌, ℕ, List};
ghost use Rattle.mk_line.specs.Lines.{TextLine, AreLines, cut, text_of};

/// The lines of a text, joined, are the text.
pub fn lines_joined()
    ensures { (text : List ℕ) → text_of (cut text) ≡ text }
{}

/// What a text is cut into are lines: no line feed in a content, no CR before a lone LF, and only the last may be open.
pub fn lines_are_lines()
    ensures { (text : List ℕ) → AreLines (cut text) }
{}

/// Lines that join to a text are the lines of that text, and no others are.
pub fn lines_are_unique()
    ensures { (lines : List TextLine) → AreLines lines → cut (text_of lines) ≡ lines }
{}
