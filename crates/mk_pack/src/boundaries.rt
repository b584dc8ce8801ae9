//! The boundary that is made of what is packed.

ghost use Rattle.std.specs.Prelude.{◌≡◌, ◌++◌, List, ℕ, codes, take, unwrap_or, map, [], IfOk};
ghost use Rattle.std.specs.List.{flat_map};
ghost use Rattle.hex.specs.Hex.{encode_lower};
ghost use Rattle.sha2.specs.Hashers.{Holds256};
ghost use Rattle.mk_build.specs.BuildViews.{attached_of};
ghost use Rattle.mk_build.specs.ForwardViews.{forwarded_of};
ghost use Rattle.mk_splice.specs.Journals.{digest_of};
ghost use Rattle.mk_pack.specs.FreeBoundary.{all_packed_with, are_clear as are_all_clear, first_boundary as first_of_all, free_boundary as boundary_of, measured_message, number_mark};
ghost use Rattle.mk_pack.specs.OwnBoundary.{boundary_beside as boundary_of_both, digits_kept, measured, measured_part};

use hex::encode_to_slice;
use itoa::Buffer;
use mk_build::{Attach, Forward};
use sha2::{Digest, Sha256};
use std::alloc::{AllocError, Global};

/// What the boundary begins with: no line of quoted-printable or base64 holds it.
const MARK: &[u8; 2] = b"=_";

/// How many bytes the first has: the mark and 24 digits of the digest.
const LENGTH: usize = 26;

const COLON: &[u8; 1] = b":";

const UNDERSCORE: u8 = b'_';

/// What a forwarded message is measured as.
const RFC822: &[u8; 14] = b"message/rfc822";

/// The boundary of a message of these fields, parts and forwarded messages, if none is given: the first that begins no line
/// of a message. In practice that is the very first, since no message can know its digest.
pub(crate) fn free_boundary(
    alloc: Global,
    fields: &[Vec<u8>],
    parts: &[Attach],
    messages: &[Forward],
) -> Result<Vec<u8>, AllocError>
    ensures { IfOk result (λ b. b.items ≡ boundary_of (map (λ f. f.items) fields.now) (map attached_of parts.now) (map forwarded_of messages.now)) }
{
    let first = first_boundary(alloc, fields, parts, messages)?;
    for number in 0..u64::MAX {
        let boundary = numbered(alloc, &first, number)?;
        if are_clear(&boundary, messages) {
            return Ok(boundary);
        }
    }
    numbered(alloc, &first, u64::MAX)
}

fn first_boundary(
    alloc: Global,
    fields: &[Vec<u8>],
    parts: &[Attach],
    messages: &[Forward],
) -> Result<Vec<u8>, AllocError>
    ensures { IfOk result (λ b. b.items ≡ first_of_all (map (λ f. f.items) fields.now) (map attached_of parts.now) (map forwarded_of messages.now)) }
{
    marked(alloc, &digest(fields, parts, messages))
}

/// The boundary of a multipart of a section and of the part that is put beside it: made of both, so that in practice it stands
/// in neither.
pub fn boundary_beside(alloc: Global, section: &[u8], part: &[u8]) -> Result<Vec<u8>, AllocError>
    ensures { IfOk result (λ b. b.items ≡ boundary_of_both section.now part.now) }
{
    marked(alloc, &digest_of_both(section, part))
}

// The mark and the first digits of a digest.
fn marked(alloc: Global, digest: &[u8; 64]) -> Result<Vec<u8>, AllocError>
    ensures { IfOk result (λ b. b.items ≡ codes "=_" ++ take digits_kept digest.now) }
{
    let mut boundary = Vec::from_slice(alloc, MARK)?;
    boundary.extend_from_slice(digest)?;
    boundary.truncate(LENGTH);
    Ok(boundary)
}

// The digest of two texts, each after its length, in hexadecimal digits.
fn digest_of_both(first: &[u8], second: &[u8]) -> [u8; 64]
    ensures { result ≡ digest_of (measured first.now ++ measured second.now) }
{
    let mut hasher = Sha256::new();
    add_measured(&mut hasher, first);
    add_measured(&mut hasher, second);
    hexed(&hasher.finalize())
}

// The boundary of a number after the first one.
fn numbered(alloc: Global, first: &[u8], number: u64) -> Result<Vec<u8>, AllocError>
    ensures { IfOk result (λ b. b.items ≡ (first.now ++ number_mark number)) }
{
    let mut boundary = Vec::from_slice(alloc, first)?;
    if number == 0 {
        return Ok(boundary);
    }
    let mut digits = Buffer::new();
    boundary.push(UNDERSCORE)?;
    boundary.extend_from_slice(digits.format(number).as_bytes())?;
    boundary.push(UNDERSCORE)?;
    Ok(boundary)
}

// Whether a boundary begins no line of any message.
fn are_clear(boundary: &[u8], messages: &[Forward]) -> bool
    ensures { result ≡ are_all_clear boundary.now (map forwarded_of messages.now) }
{
    for forward in messages {
        if !forward.is_clear_of(boundary) {
            return false;
        }
    }
    true
}

// The digest of all that is packed, each piece after its length, in hexadecimal digits. It is taken piece by piece, without a
// copy.
fn digest(fields: &[Vec<u8>], parts: &[Attach], messages: &[Forward]) -> [u8; 64]
    ensures { result ≡ digest_of (all_packed_with (map (λ f. f.items) fields.now) (map attached_of parts.now) (map forwarded_of messages.now)) }
{
    let mut hasher = Sha256::new();
    add_fields(&mut hasher, fields);
    add_parts(&mut hasher, parts);
    add_messages(&mut hasher, messages);
    hexed(&hasher.finalize())
}

fn hexed(digest: &[u8; 32]) -> [u8; 64]
    ensures { result ≡ encode_lower digest.now }
{
    let mut digits = [0; 64];
    let _fits = encode_to_slice(digest, &mut digits);
    digits
}

fn add_fields(hasher: &mut Sha256, fields: &[Vec<u8>])
    ensures { (before : List ℕ) → Holds256 hasher.old before → Holds256 hasher.new (before ++ flat_map measured (map (λ f. f.items) fields.now)) }
{
    for field in fields {
        add_measured(hasher, field);
    }
}

fn add_parts(hasher: &mut Sha256, parts: &[Attach])
    ensures { (before : List ℕ) → Holds256 hasher.old before → Holds256 hasher.new (before ++ flat_map measured_part (map attached_of parts.now)) }
{
    for part in parts {
        add_part(hasher, part);
    }
}

fn add_part(hasher: &mut Sha256, part: &Attach)
    ensures { (before : List ℕ) → Holds256 hasher.old before → Holds256 hasher.new (before ++ measured_part (attached_of part.now)) }
{
    add_measured(hasher, &part.media);
    add_measured(hasher, name(part));
    add_measured(hasher, &part.text);
}

fn add_messages(hasher: &mut Sha256, messages: &[Forward])
    ensures { (before : List ℕ) → Holds256 hasher.old before → Holds256 hasher.new (before ++ flat_map measured_message (map forwarded_of messages.now)) }
{
    for forward in messages {
        add_message(hasher, forward);
    }
}

fn add_message(hasher: &mut Sha256, forward: &Forward)
    ensures { (before : List ℕ) → Holds256 hasher.old before → Holds256 hasher.new (before ++ measured_message (forwarded_of forward.now)) }
{
    add_measured(hasher, RFC822);
    add_measured(hasher, forward.message());
}

// The name of a part; empty if it has none.
fn name(part: &Attach) -> &[u8]
    ensures { result.now ≡ unwrap_or (attached_of part.now).name [] }
{
    match &part.name {
        Some(name) => name,
        None => &[],
    }
}

// Adds a piece after its length.
fn add_measured(hasher: &mut Sha256, piece: &[u8])
    ensures { (before : List ℕ) → Holds256 hasher.old before → Holds256 hasher.new (before ++ measured piece.now) }
{
    let mut digits = Buffer::new();
    hasher.update(digits.format(piece.len()).as_bytes());
    hasher.update(COLON.as_slice());
    hasher.update(piece);
}
