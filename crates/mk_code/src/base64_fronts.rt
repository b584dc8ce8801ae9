//! Base64 that was cut off.
ghost use Rattle.std.specs.Prelude.{◌≡◌, IfOk};
ghost use Rattle.mk_code.specs.Base64Fronts.{IsLongestFront};

use crate::base64_text::letters;
use base64::DecodeAllocError;
use base64::engine::general_purpose::STANDARD_NO_PAD;
use std::alloc::{AllocError, Global};

/// What decodes of base64 that isn't whole: the content of the longest prefix of the letters before the first `=` that is
/// whole base64. At most the last three letters are left out. Own.
pub fn decode_front(alloc: Global, text: &[u8]) -> Result<Vec<u8>, AllocError>
    ensures { IfOk result (λ bytes. IsLongestFront text.now bytes.items) }
{
    let found = letters(alloc, text)?;
    let mut count = found.len();
    while count > 0 {
        match STANDARD_NO_PAD.decode(alloc, &found[..count]) {
            Ok(bytes) => return Ok(bytes),
            Err(DecodeAllocError::OutOfMemory) => return Err(AllocError),
            Err(DecodeAllocError::DecodeError(_)) => count -= 1,
        }
    }
    Ok(Vec::new(alloc))
}
