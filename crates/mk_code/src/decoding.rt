//! Decoding the content of a part by its transfer encoding (RFC 2045, 6).
ghost use Rattle.std.specs.Prelude.{◌≡◌, [], IfOk, IfErr, OnOk, Err};
ghost use Rattle.mk_code.specs.Contents.{IsContent, IsRefused};
ghost use Rattle.mk_code.specs.declared.decoding.CodeError.TheVariants.{Memory};

use crate::{base64_text, qp_decoding};
use mk_head::Encoding;
use std::alloc::{AllocError, Global};
use thiserror::Error;

/// Why a text isn't decoded.
#[derive(Clone, Copy, Debug, PartialEq, Eq, Error)]
pub enum CodeError {
    /// The letters are no encoding of any bytes.
    #[error("the text is not valid base64")]
    BadBase64,
    /// The encoding is unknown.
    #[error("the transfer encoding is unknown")]
    UnknownEncoding,
    /// Memory ran out.
    #[error("out of memory")]
    Memory,
}

impl From<AllocError> for CodeError {
    ghost from_gives = { λ _ error. error ≡ Memory };

    fn from(_error: AllocError) -> CodeError {
        CodeError::Memory
    }
}

/// The content of a text. Quoted-printable never refuses: what isn't an escape stands for itself. Of base64 the
/// letters before the first `=` count, and missing padding is no fault.
pub fn decode(alloc: Global, encoding: Encoding, text: &[u8]) -> Result<Vec<u8>, CodeError>
    ensures content { IfOk result (λ bytes. IsContent encoding text.now bytes.items) }
    ensures refused { IfErr result (λ error. IsRefused encoding text.now error) }
    ensures unknown { encoding ≡ Encoding.Other → result ≡ Err CodeError.UnknownEncoding }
{
    let mut bytes = Vec::new(alloc);
    decode_in(&mut bytes, encoding, text)?;
    Ok(bytes)
}

/// Decodes as `decode` does, in memory that is there already: the content takes the place of the bytes that it holds. Of its
/// room, what is more than twice what the content can take is given back. After an error it holds any bytes.
pub fn decode_in(memory: &mut Vec<u8>, encoding: Encoding, text: &[u8]) -> Result<(), CodeError>
    ensures content { OnOk result (IsContent encoding text.now memory.new.items) }
    ensures refused { IfErr result (λ error. IsRefused encoding text.now error) }
    ensures unknown { encoding ≡ Encoding.Other → result ≡ Err CodeError.UnknownEncoding }
{
    match encoding {
        Encoding::Identity => Ok(copy(memory, text)?),
        Encoding::Qp => Ok(qp_decoding::decode(memory, text)?),
        Encoding::Base64 => base64_text::decode(memory, text),
        Encoding::Other => Err(CodeError::UnknownEncoding),
    }
}

// Puts the bytes of a text in the place of those that the memory holds.
fn copy(memory: &mut Vec<u8>, text: &[u8]) -> Result<(), AllocError>
    ensures { OnOk result (memory.new.items ≡ text.now) }
{
    make_room(memory, text.len())?;
    memory.extend_from_slice(text)
}

/// Takes the bytes out of memory, and makes room in it for `size` bytes. Where it has more than twice that room, the rest is
/// given back.
pub(crate) fn make_room(memory: &mut Vec<u8>, size: usize) -> Result<(), AllocError>
    ensures { OnOk result (memory.new.items ≡ []) }
{
    memory.clear();
    if memory.capacity() / 2 > size {
        memory.shrink_to(size);
    }
    memory.reserve_exact(size)
}
