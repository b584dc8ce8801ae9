//! Why a word stands for no edits.

ghost use Rattle.std.specs.Prelude.{◌≡◌};
ghost use Rattle.mk_expand.specs.declared.errors.WordError.TheVariants.{Memory};

use std::alloc::{AllocError, AllocFailed};
use thiserror::Error;

/// Why a word of a script stands for no edits.
#[derive(Clone, Copy, Debug, PartialEq, Eq, Error)]
pub enum WordError {
    /// Nothing can be written in the transfer encoding of the leaf (RFC 2045, 6).
    #[error("the transfer encoding is unknown")]
    UnknownEncoding,
    /// The content of the leaf is said to be base64, but its letters don't encode any bytes.
    #[error("the content is not valid base64")]
    BadBase64,
    /// The media type can't be attached.
    #[error("the media type can't be attached")]
    BadType,
    /// The name can't be written.
    #[error("the name can't be written")]
    BadName,
    /// The charset can't be named, or the bytes aren't text in it (RFC 2046, 4.1.2).
    #[error("the content is not text in its charset")]
    BadCharset,
    /// The content has to be encoded: it holds a NUL, or a line of more than 998 bytes (RFC 2045, 2.8).
    #[error("the content can't go unencoded")]
    BinaryContent,
    /// Memory ran out.
    #[error("out of memory")]
    Memory,
}

impl From<AllocError> for WordError {
    ghost from_gives = { λ _ e. e ≡ Memory };

    fn from(_error: AllocError) -> WordError {
        WordError::Memory
    }
}

impl<T: Drop> From<AllocFailed<T>> for WordError {
    ghost from_gives = { λ _ e. e ≡ Memory };

    fn from(_error: AllocFailed<T>) -> WordError {
        WordError::Memory
    }
}
