//! The transfer encodings that are told apart (RFC 2045, 6.1).

/// How the bytes of a body are encoded.
#[derive(Clone, Copy, Debug, PartialEq, Eq)]
pub enum Encoding {
    /// 7bit, 8bit, binary, or nothing: as they stand.
    Identity,
    /// quoted-printable.
    Qp,
    /// base64.
    Base64,
    /// Any other name.
    Other,
}
