//! A content as it is given: piece by piece, so that what is decoded is never in memory as a whole (RFC 2045, 6).

ghost use Rattle.std.specs.Prelude.{◌≡◌, ◌<◌, ◌↔◌, [], List, ℕ, Ok, Some, length, true, IfErr, IfOk, OnOk};
ghost use Rattle.mk_code.specs.Contents.{IsContent};
ghost use Rattle.mk_tree.specs.Sections.{content_text};
ghost use Rattle.mk_view.specs.Extracts.{IsContentOf, IsExtract, IsExtractRefused};
ghost use Rattle.mk_show.specs.GivenPieces.{GivesPiece, IsLeft, whole_content};

use mk_code::{Encoding, Piece, decoded_size};
use mk_tree::{Kind, Section};
use mk_view::{ExtractError, content_size};
use std::alloc::{AllocError, Global};
use std::marker::Model;

/// A content of which some pieces were given, and the others are still to come.
#[derive(Drop)]
pub struct Content<'a> {
    encoding: Encoding,
    /// What is left of the text.
    rest: &'a [u8],
    /// The last piece, where the text stands for itself.
    plain: &'a [u8],
    /// The last piece, where it was decoded.
    decoded: Piece,
}

impl<'a> Model for Content<'a> {
    ghost use Rattle.mk_show.specs.GivenPieces.{Given};
    ghost use Rattle.mk_show.specs.inner.LastPieces.{last_piece};

    ghost Value = { Given };

    ghost view = { λ c. record { piece = last_piece c.encoding c.plain.now c.decoded; encoding = c.encoding; text = c.rest.now } };
}

impl<'a> Content<'a> {
    /// A content that is these bytes. Nothing is asked for.
    pub fn of(alloc: Global, bytes: &'a [u8]) -> Content<'a>
        ensures { result ≡ whole_content bytes.now }
    {
        Content {
            encoding: Encoding::Identity,
            rest: bytes,
            plain: &[],
            decoded: Piece::new(alloc),
        }
    }

    /// Begins the content of a section in its place, if the section has one. Nothing is decoded.
    pub fn begin(&mut self, alloc: Global, section: &Section<'a>) -> Result<(), ExtractError>
        ensures begun { OnOk result ((bytes : List ℕ) × IsExtract (Some section.now) bytes × IsLeft self.new bytes) }
        ensures refused { IfErr result (λ error. IsExtractRefused (Some section.now) error) }
    {
        let Ok(encoding) = encoding_of(alloc, section) else {
            return Err(ExtractError::Memory);
        };
        match encoding {
            // Every text has a content.
            Encoding::Identity | Encoding::Qp => {}
            Encoding::Base64 | Encoding::Other => {
                content_size(alloc, section)?;
            }
        }
        self.encoding = encoding;
        self.rest = section.content();
        self.plain = &[];
        Ok(())
    }

    /// Goes on to the next piece. Answers whether there is one.
    pub fn advance(&mut self) -> Result<bool, AllocError>
        ensures next { IfOk result (λ more. (bytes : List ℕ) → IsLeft self.old bytes → GivesPiece more bytes self.new) }
        ensures less { result ≡ Ok true → length self.new.text < length self.old.text }
    {
        if self.rest.is_empty() {
            return Ok(false);
        }
        match self.encoding {
            Encoding::Identity => {
                self.plain = self.rest;
                self.rest = &[];
                Ok(true)
            }
            Encoding::Qp | Encoding::Base64 | Encoding::Other => {
                match self.decoded.decode(self.encoding, self.rest) {
                    Ok(left) => {
                        self.rest = left;
                        Ok(true)
                    }
                    // Where the text has a content, only memory can be missing.
                    Err(_) => Err(AllocError),
                }
            }
        }
    }

    /// The piece that was given last.
    pub fn piece(&self) -> &[u8]
        ensures { result.now ≡ self.now.piece }
    {
        match self.encoding {
            Encoding::Identity => self.plain,
            Encoding::Qp | Encoding::Base64 | Encoding::Other => self.decoded.bytes(),
        }
    }

    /// How many bytes are left. They are counted, and nothing is decoded.
    pub fn size(&self) -> usize
        ensures { (bytes : List ℕ) → IsLeft self.now bytes → result ≡ length bytes }
    {
        match decoded_size(self.encoding, self.rest) {
            Ok(size) => size,
            Err(_) => 0,
        }
    }

    /// All bytes that are left.
    pub fn read_all(&mut self, alloc: Global) -> Result<Vec<u8>, AllocError>
        ensures { IfOk result (λ all. (bytes : List ℕ) → IsLeft self.old bytes → all.items ≡ bytes) }
    {
        let mut all = Vec::with_capacity(alloc, self.size())?;
        'each: while self.advance()? {
            all.extend_from_slice(self.piece())?;
        }
        Ok(all)
    }
}

// How the content of a section is encoded: only that of a leaf is.
fn encoding_of(alloc: Global, section: &Section<'_>) -> Result<Encoding, AllocError>
    ensures { IfOk result (λ encoding. (bytes : List ℕ) → IsContentOf section.now bytes ↔ IsContent encoding (content_text section.now) bytes) }
{
    match section.kind() {
        Kind::Leaf => section.encoding(alloc),
        Kind::Multi | Kind::Message => Ok(Encoding::Identity),
    }
}
