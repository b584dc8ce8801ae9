//! The multipart around the parts of a message, and whether it can be made (RFC 2045, 5.1; RFC 2046, 5.1.1).
ghost use Rattle.std.specs.Prelude.{◌≡◌, if◌then◌else◌, None, true};
ghost use Rattle.std.specs.Option.{option_map, option_map_or};
ghost use Rattle.mk_build.specs.Multiparts.{is_text as is_of_text};
ghost use Rattle.mk_head.specs.Values.{is_token as token};

use mk_head::is_token;
use mk_line::split_at_first;

/// The subtype of parts that have nothing to do with each other (RFC 2046, 5.1.3).
pub const MIXED: &[u8; 5] = b"mixed";

const SLASH: u8 = b'/';

const TEXT: &[u8; 4] = b"text";

/// The multipart around the parts of a message.
#[derive(Clone, Copy, Debug)]
pub struct Multipart<'a> {
    /// What kind of multipart, as `mixed`: a token.
    pub subtype: &'a [u8],
    /// The charset that texts name, as `utf-8`: a token.
    pub charset: Option<&'a [u8]>,
    /// What stands between the parts.
    pub boundary: &'a [u8],
    /// Whether a name in UTF-8 that isn't printable ASCII is written a second time, as it is (RFC 2231, 4).
    pub utf8_names: bool,
}

impl<'a> Multipart<'a> {
    ghost use Rattle.std.specs.Prelude.{◌≡◌, false};
    ghost use Rattle.mk_build.specs.Multiparts.{mixed, multipart_of};

    /// A multipart/mixed whose texts name no charset, with names as they are given.
    pub fn mixed(boundary: &'a [u8]) -> Multipart<'a>
        ensures kind { multipart_of result ≡ mixed boundary.now }
        ensures names { result.utf8_names ≡ false }
    {
        Multipart {
            subtype: MIXED,
            charset: None,
            boundary,
            utf8_names: false,
        }
    }
}

/// Whether there is no charset, or it is a token.
pub fn is_charset(charset: Option<&[u8]>) -> bool
    ensures { result ≡ option_map_or token (option_map (λ c. c.now) charset.entry) true }
{
    match charset {
        Some(charset) => is_token(charset),
        None => true,
    }
}

/// The charset for a media type: none but for texts.
pub(crate) fn charset_for<'a>(charset: Option<&'a [u8]>, media: &[u8]) -> Option<&'a [u8]>
    ensures { option_map (λ c. c.now) result ≡ if is_of_text media.now then option_map (λ c. c.now) charset.entry else None }
{
    match charset {
        Some(charset) if is_text(media) => Some(charset),
        _ => None,
    }
}

// Whether a media type is one of texts, in any case.
fn is_text(media: &[u8]) -> bool
    ensures { result ≡ is_of_text media.now }
{
    match split_at_first(media, SLASH) {
        Some((main, _)) => main.eq_ignore_ascii_case(TEXT),
        None => false,
    }
}
