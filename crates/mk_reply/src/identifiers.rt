//! Identifiers of messages (RFC 5322, 3.6.4).

ghost use Rattle.std.specs.Prelude.{◌≡◌};
ghost use Rattle.std.specs.List.{list_all};
ghost use Rattle.mk_reply.specs.Replies.{ends_identifier, is_identifier_byte, is_one_identifier as one_identifier};

use mk_line::split_at_first;

const LESS_THAN: u8 = b'<';

const GREATER_THAN: u8 = b'>';

/// Whether a text is one identifier and nothing else.
pub(crate) fn is_one_identifier(text: &[u8]) -> bool
    ensures { result ≡ one_identifier text.now }
{
    match text {
        [LESS_THAN, rest @ ..] => is_end(rest),
        _ => false,
    }
}

// Whether a text ends an identifier, and nothing follows it.
fn is_end(text: &[u8]) -> bool
    ensures { result ≡ ends_identifier text.now }
{
    match split_at_first(text, GREATER_THAN) {
        Some((identifier, following)) => { following.is_empty() && all_may_stand(identifier) }
        None => false,
    }
}

// Whether each byte may stand in an identifier.
fn all_may_stand(text: &[u8]) -> bool
    ensures { result ≡ list_all is_identifier_byte text.now }
{
    text.iter().all(|byte| may_stand(*byte))
}

// Whether a byte may stand in an identifier.
fn may_stand(byte: u8) -> bool
    ensures { result ≡ is_identifier_byte byte }
{
    byte != LESS_THAN && !byte.is_ascii_whitespace()
}
