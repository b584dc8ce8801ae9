//! The digest of a text.
ghost use Rattle.std.specs.Prelude.{◌≡◌};
ghost use Rattle.mk_splice.specs.Journals.{digest_of as digest_meant};

use hex::encode_to_slice;
use sha2::{Digest, Sha256};

/// The SHA-256 of a text in 64 lower case hexadecimal digits.
pub fn digest_of(text: &[u8]) -> [u8; 64]
    ensures { result ≡ digest_meant text.now }
{
    let mut digits = [0; 64];
    let _fits = encode_to_slice(&Sha256::digest(text), &mut digits);
    digits
}
