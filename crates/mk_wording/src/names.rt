//! What the values of fields are, by their names.

ghost use Rattle.std.specs.Prelude.{◌≡◌};
ghost use Rattle.mk_mail.specs.Letters.{same_name};
ghost use Rattle.mk_wording.specs.Wording.{address_names, comment_names, is_one_of_names, field_kind as kind_of_name, parameter_names, without_resent as not_resent};

/// What `Resent-` before a name is (RFC 5322, 3.6.6).
const RESENT: &[u8; 7] = b"resent-";

/// What the value of a field is.
#[derive(Clone, Copy, Debug, PartialEq, Eq)]
pub enum FieldKind {
    /// A list of addresses (RFC 5322, 3.4).
    Addresses,
    /// A value with parameters (RFC 2045, 5.1).
    Parameters,
    /// Another structured value, in which only comments are text.
    Comments,
    /// Text.
    Text,
}

/// What the value of a field of a name is, without regard to the case of the name.
pub fn kind_of(name: &[u8]) -> FieldKind
    ensures { result ≡ kind_of_name name.now }
{
    if is_address_name(without_resent(name)) {
        FieldKind::Addresses
    } else if is_parameter_name(name) {
        FieldKind::Parameters
    } else if is_comment_name(without_resent(name)) {
        FieldKind::Comments
    } else {
        FieldKind::Text
    }
}

// Whether a field of this name holds addresses (RFC 5322, 3.6.2 and 3.6.3; RFC 8098, 2.1).
fn is_address_name(name: &[u8]) -> bool
    ensures { result ≡ is_one_of_names address_names name.now }
{
    is_same(name, b"from")
        || is_same(name, b"sender")
        || is_same(name, b"reply-to")
        || is_same(name, b"to")
        || is_same(name, b"cc")
        || is_same(name, b"bcc")
        || is_same(name, b"disposition-notification-to")
}

// Whether it has parameters (RFC 2045, 5.1; RFC 2183, 2).
fn is_parameter_name(name: &[u8]) -> bool
    ensures { result ≡ is_one_of_names parameter_names name.now }
{
    is_same(name, b"content-type") || is_same(name, b"content-disposition")
}

// Whether it is another field in which only comments are text (RFC 5322, 3.6.1, 3.6.4 and 3.6.7; RFC 2045, 4, 6 and 7).
fn is_comment_name(name: &[u8]) -> bool
    ensures { result ≡ is_one_of_names comment_names name.now }
{
    is_same(name, b"date")
        || is_same(name, b"message-id")
        || is_same(name, b"in-reply-to")
        || is_same(name, b"references")
        || is_same(name, b"received")
        || is_same(name, b"return-path")
        || is_same(name, b"mime-version")
        || is_same(name, b"content-transfer-encoding")
        || is_same(name, b"content-id")
}

fn is_same(name: &[u8], known: &[u8]) -> bool
    ensures { result ≡ same_name name.now known.now }
{
    known.eq_ignore_ascii_case(name)
}

// The name without `Resent-` at its start.
fn without_resent(name: &[u8]) -> &[u8]
    ensures { result.now ≡ not_resent name.now }
{
    if name.len() >= RESENT.len() && is_same(RESENT, &name[..RESENT.len()]) {
        &name[RESENT.len()..]
    } else {
        name
    }
}
