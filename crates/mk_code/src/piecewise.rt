//! Decoding the content of a part piece by piece, so that it is never in memory as a whole (RFC 2045, 6).
ghost use Rattle.std.specs.Prelude.{◌≡◌, ◌<◌, ◌≤◌, ◌++◌, ◌⊎◌, [], List, ℕ, length, IfErr, IfOk};
ghost use Rattle.mk_code.specs.Base64Text.{IsBase64Of, letters as letters_of};
ghost use Rattle.mk_code.specs.Contents.{IsContent, IsRefused};
ghost use Rattle.mk_code.specs.QuotedPrintable.{qp_decoded};
ghost use Rattle.mk_head.specs.declared.encodings.Encoding.TheVariants.{Base64};

use crate::base64_text::push_decoded;
use crate::decoding::CodeError;
use crate::lanes::{Letters, Strays};
use crate::qp_decoding::push_line;
use mk_head::Encoding;
use mk_line::lanes::run_of;
use mk_line::{first_line, split_at_first};
use std::alloc::{AllocError, Global};
use std::marker::Model;

const EQUALS: u8 = b'=';

/// How many bytes are copied at once, and how many lines of quoted-printable are decoded to at least, where so many are left.
const PIECE: usize = 65_536;

/// How many letters of base64 are decoded at once, in whole groups.
const BLOCK: usize = 16_384;

/// A piece of a content, in memory that the next one takes again.
#[derive(Drop)]
pub struct Piece {
    bytes: Vec<u8>,
    letters: Vec<u8>,
}

impl Model for Piece {
    ghost use Rattle.std.specs.Prelude.{ℕ, List};

    ghost Value = { List ℕ };

    ghost view = { λ p. p.bytes.items };
}

impl Piece {
    /// A piece of no bytes. Nothing is asked for before the first is decoded.
    pub fn new(alloc: Global) -> Piece
        ensures { result ≡ [] }
    {
        Piece {
            bytes: Vec::new(alloc),
            letters: Vec::new(alloc),
        }
    }

    /// Its bytes.
    pub fn bytes(&self) -> &[u8]
        ensures { result.now ≡ self.now }
    {
        &self.bytes
    }

    /// Decodes a piece of the content of a text, which takes the place of the one before, and gives the text that is left: the
    /// content of the text is the piece, and after it the content of what is left. A piece has at most 64 KB, but for a last
    /// line of quoted-printable. After an error it has any bytes.
    pub fn decode<'a>(&mut self, encoding: Encoding, text: &'a [u8]) -> Result<&'a [u8], CodeError>
        ensures content { IfOk result (λ left. (content : List ℕ) → IsContent encoding text.now content →
            (more : List ℕ) × (content ≡ self.new ++ more) × IsContent encoding left.now more) }
        ensures less { IfOk result (λ left. 0 < length text.now → length left.now < length text.now) }
        ensures refused { IfErr result (λ error. IsRefused encoding text.now error) }
    {
        self.bytes.clear();
        match encoding {
            Encoding::Identity => Ok(copy_front(&mut self.bytes, text)?),
            Encoding::Qp => Ok(push_first_lines(&mut self.bytes, text)?),
            Encoding::Base64 => decode_block(&mut self.bytes, &mut self.letters, text),
            Encoding::Other => Err(CodeError::UnknownEncoding),
        }
    }
}

// Appends the bytes at the start of a text, and gives those after them.
fn copy_front<'a>(bytes: &mut Vec<u8>, text: &'a [u8]) -> Result<&'a [u8], AllocError>
    ensures parts { IfOk result (λ left. bytes.old.items ++ text.now ≡ bytes.new.items ++ left.now) }
    ensures less { IfOk result (λ left. 0 < length text.now → length left.now < length text.now) }
{
    let (front, left) = text.split_at(PIECE.min(text.len()));
    bytes.extend_from_slice(front)?;
    Ok(left)
}

// Puts down what the first lines of a quoted-printable text stand for, and gives the lines after them.
fn push_first_lines<'a>(bytes: &mut Vec<u8>, text: &'a [u8]) -> Result<&'a [u8], AllocError>
    requires { bytes.old.items ≡ [] }
    ensures parts { IfOk result (λ left. qp_decoded text.now ≡ bytes.new.items ++ qp_decoded left.now) }
    ensures less { IfOk result (λ left. 0 < length text.now → length left.now < length text.now) }
{
    let mut rest = text;
    'each: while bytes.len() < PIECE {
        let Some((line, following)) = first_line(rest) else {
            return Ok(rest);
        };
        push_line(bytes, line.content, line.ending.bytes())?;
        rest = following;
    }
    Ok(rest)
}

// Decodes the first letters of a base64 text, and gives the text after them.
fn decode_block<'a>(
    bytes: &mut Vec<u8>,
    found: &mut Vec<u8>,
    text: &'a [u8],
) -> Result<&'a [u8], CodeError>
    requires { bytes.old.items ≡ [] }
    ensures content { IfOk result (λ left. (content : List ℕ) → IsBase64Of text.now content →
        (more : List ℕ) × (content ≡ bytes.new.items ++ more) × IsBase64Of left.now more) }
    ensures less { IfOk result (λ left. 0 < length text.now → length left.now < length text.now) }
    ensures refused { IfErr result (λ error. IsRefused Base64 text.now error) }
{
    found.clear();
    let left = gather_block(found, text)?;
    match push_decoded(bytes, found) {
        Ok(()) => Ok(left),
        Err(error) => Err(error),
    }
}

// Puts down the first letters of a base64 text, and gives the text after them: whole groups, or all of the letters.
fn gather_block<'a>(found: &mut Vec<u8>, text: &'a [u8]) -> Result<&'a [u8], AllocError>
    requires { found.old.items ≡ [] }
    ensures letters { IfOk result (λ left. letters_of text.now ≡ found.new.items ++ letters_of left.now) }
    ensures whole { IfOk result (λ left. (length found.new.items ≡ 16_384) ⊎ (left.now ≡ [])) }
    ensures less { IfOk result (λ left. 0 < length text.now → length left.now < length text.now) }
{
    found.reserve_exact(BLOCK)?;
    let mut rest = text;
    'each: while found.len() < BLOCK && !rest.is_empty() {
        let (run, following) = split_run(rest, BLOCK - found.len());
        found.extend_from_slice(run)?;
        rest = following;
    }
    Ok(rest)
}

// The letters that a base64 text begins with, so many at most, and the text from the next letter on.
fn split_run(text: &[u8], most: usize) -> (&[u8], &[u8])
    requires some { 0 < length text.now }
    requires room { 0 < most }
    ensures letters { letters_of text.now ≡ result.0.now ++ letters_of result.1.now }
    ensures few { length result.0.now ≤ most }
    ensures less { length result.1.now < length text.now }
{
    let window = &text[..text.len().min(most)];
    let (run, following) = text.split_at(run_of::<Letters>(window));
    let (strays, more) = following.split_at(run_of::<Strays>(following));
    match split_at_first(strays, EQUALS) {
        Some(_) => (run, &[]),
        None => (run, more),
    }
}
