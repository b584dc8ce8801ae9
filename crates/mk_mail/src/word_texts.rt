//! Texts that go into encoded words (RFC 2047).

ghost use Rattle.std.specs.Prelude.{◌≡◌, true, false, MatchOption};
ghost use Rattle.std.specs.List.{list_all};
ghost use Rattle.mk_line.specs.Ascii.{equals_sign, question_mark};
ghost use Rattle.mk_code.specs.EncodedWords.{has_pair, is_shown as shown};
ghost use Rattle.mk_mail.specs.Prepended.{is_plain as stays_plain, needs_words};

use memchr::memmem;

/// What an encoded word begins with.
const MARK: &[u8; 2] = b"=?";

/// The value as text, if it needs encoded words: it is UTF-8, and isn't printable ASCII or holds `=?`.
pub fn text_for_words(value: &[u8]) -> Option<&str>
    ensures { MatchOption result (needs_words value.now ≡ false) (λ text. (needs_words value.now ≡ true) × (text.now ≡ value.now)) }
{
    match std::str::from_utf8(value) {
        Ok(text) if !is_plain(value) => Some(text),
        _ => None,
    }
}

// Whether a value is printable ASCII and holds no `=?`.
fn is_plain(value: &[u8]) -> bool
    ensures { result ≡ stays_plain value.now }
{
    are_shown(value) && !has_mark(value)
}

fn has_mark(value: &[u8]) -> bool
    ensures { result ≡ has_pair equals_sign question_mark value.now }
{
    memmem::find(value, MARK).is_some()
}

fn are_shown(value: &[u8]) -> bool
    ensures { result ≡ list_all shown value.now }
{
    value.iter().all(|byte| is_shown(*byte))
}

fn is_shown(byte: u8) -> bool
    ensures { result ≡ shown byte }
{
    byte >= b' ' && byte <= b'~'
}
