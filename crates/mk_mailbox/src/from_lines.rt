//! From-lines that begin the messages of a mailbox.
ghost use Rattle.std.specs.Prelude.{◌≡◌, ◌&&◌, ◌||◌, not};
ghost use Rattle.std.specs.List.{list_all};
ghost use Rattle.mk_line.specs.Lines.{cut as lines_of, is_nil};
ghost use Rattle.mk_mailbox.specs.Pieces.{is_followed, is_left_alone, is_mail_start, needs_field as asks_for_field, starts_field as begins_with_field};

use crate::dates::ends_with_date;
use mk_line::{cut, is_from_line, name_len};

/// Which From-lines begin a message, where they directly follow an empty line.
#[derive(Clone, Copy, Debug, Default, PartialEq, Eq)]
pub enum FromLines {
    /// Each From-line.
    #[default]
    Any,
    /// A From-line that ends with a date (RFC 4155, appendix A). Text of a body that begins with `From ` is then no From-line.
    Dated,
    /// A From-line that a field directly follows (own). Text of a body that begins with `From ` mostly has no field after it.
    Fielded,
}

impl FromLines {
    /// Whether a line with this content begins a message, where it directly follows an empty line.
    pub(crate) fn begin_with(self, content: &[u8]) -> bool
        ensures { result ≡ is_mail_start self content.now }
    {
        match self {
            FromLines::Any | FromLines::Fielded => is_from_line(content),
            FromLines::Dated => is_from_line(content) && ends_with_date(content),
        }
    }

    /// Whether such a line counts only where a field follows it.
    pub fn needs_field(self) -> bool
        ensures { result ≡ asks_for_field self }
    {
        match self {
            FromLines::Any | FromLines::Dated => false,
            FromLines::Fielded => true,
        }
    }

    /// Whether a line with this content begins a message before this text, where it directly follows an empty line.
    pub(crate) fn begin_before(self, content: &[u8], text: &[u8]) -> bool
        ensures { result ≡ (is_mail_start self content.now && is_followed self (lines_of text.now)) }
    {
        self.begin_with(content) && (!self.needs_field() || starts_field(text))
    }

    /// Whether a message of a mailbox isn't mail but the empty lines before the first From-line, which filters leave as they
    /// are. Where each From-line counts there is no such message.
    pub fn leaves_alone(self, message: &[u8]) -> bool
        ensures { result ≡ is_left_alone self message.now }
    {
        match self {
            FromLines::Any => false,
            FromLines::Dated | FromLines::Fielded => are_empty_lines(message),
        }
    }
}

// Whether the first line is a field start.
fn starts_field(text: &[u8]) -> bool
    ensures { result ≡ begins_with_field (lines_of text.now) }
{
    match cut(text).next() {
        Some(line) => name_len(line.content).is_some(),
        None => false,
    }
}

// Whether no line has a byte beside its ending.
fn are_empty_lines(text: &[u8]) -> bool
    ensures { result ≡ list_all (λ l. is_nil l.content) (lines_of text.now) }
{
    for line in cut(text) {
        if !line.content.is_empty() {
            return false;
        }
    }
    true
}
