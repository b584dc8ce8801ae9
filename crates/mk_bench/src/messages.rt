//! Messages and mailboxes as mailers write them.

use crate::lines::{Lines, push_letters, push_word, push_words};
use crate::pool::Pool;
use crate::random::Random;
use std::alloc::{AllocError, Global};

const BOUNDARY_LETTERS: usize = 24;

/// How many fields headers are put together of.
const FIELDS: usize = 240;

/// What messages are put together of.
#[derive(Drop)]
pub struct Supply {
    alloc: Global,
    pub eol: &'static [u8],
    fields: Vec<Vec<u8>>,
    pub base64: Pool,
    pub qp: Pool,
    pub text: Pool,
    pub wide: Pool,
}

/// A part: its media type, its transfer encoding, and its lines.
#[derive(Clone, Copy, Debug)]
pub enum Part {
    Plain,
    Html,
    File,
    Binary,
}

impl Supply {
    /// What a row of numbers determines, with lines that end so.
    pub fn new(
        alloc: Global,
        random: &mut Random,
        eol: &'static [u8],
    ) -> Result<Supply, AllocError> {
        Supply::of_width(alloc, random, eol, 76)
    }

    /// The same with lines of base64 of this many letters.
    pub fn of_width(
        alloc: Global,
        random: &mut Random,
        eol: &'static [u8],
        width: usize,
    ) -> Result<Supply, AllocError> {
        let mut fields = Vec::with_capacity(alloc, FIELDS)?;
        for _ in 0..FIELDS {
            let mut field = Vec::new(alloc);
            push_field(random, &mut field, eol)?;
            fields.push(field)?;
        }
        Ok(Supply {
            alloc,
            eol,
            fields,
            base64: Pool::new(alloc, random, Lines::Base64(width), eol)?,
            qp: Pool::new(alloc, random, Lines::Qp, eol)?,
            text: Pool::new(alloc, random, Lines::Text, eol)?,
            wide: Pool::new(alloc, random, Lines::Wide, eol)?,
        })
    }

    /// Appends a line.
    pub fn push_line(&self, text: &mut Vec<u8>, content: &[u8]) -> Result<(), AllocError> {
        text.extend_from_slice(content)?;
        text.extend_from_slice(self.eol)
    }

    /// Appends 15 to 40 fields, none of which says what the body is.
    pub fn push_fields(&self, random: &mut Random, text: &mut Vec<u8>) -> Result<(), AllocError> {
        for _ in 0..15 + random.below(26) {
            if !self.fields.is_empty() {
                text.extend_from_slice(&self.fields[random.below(self.fields.len())])?;
            }
        }
        text.extend_from_slice(b"Message-ID: <")?;
        push_letters(random, text, 20)?;
        self.push_line(text, b"@example.org>")
    }

    /// A boundary.
    pub fn boundary(&self, random: &mut Random) -> Result<Vec<u8>, AllocError> {
        let mut boundary = Vec::from_slice(self.alloc, b"=_")?;
        push_letters(random, &mut boundary, BOUNDARY_LETTERS)?;
        Ok(boundary)
    }

    /// Appends the fields of a multipart, and the empty line.
    pub fn push_multipart(&self, text: &mut Vec<u8>, boundary: &[u8]) -> Result<(), AllocError> {
        self.push_line(text, b"MIME-Version: 1.0")?;
        text.extend_from_slice(b"Content-Type: multipart/mixed;")?;
        text.extend_from_slice(self.eol)?;
        text.extend_from_slice(b"\tboundary=\"")?;
        text.extend_from_slice(boundary)?;
        self.push_line(text, b"\"")?;
        self.push_line(text, b"")
    }

    /// Appends a delimiter.
    pub fn push_delimiter(&self, text: &mut Vec<u8>, boundary: &[u8]) -> Result<(), AllocError> {
        text.extend_from_slice(b"--")?;
        self.push_line(text, boundary)
    }

    /// Appends a close line.
    pub fn push_close(&self, text: &mut Vec<u8>, boundary: &[u8]) -> Result<(), AllocError> {
        text.extend_from_slice(b"--")?;
        text.extend_from_slice(boundary)?;
        self.push_line(text, b"--")
    }

    /// Appends a part with a body of about this many bytes.
    pub fn push_part(
        &self,
        random: &mut Random,
        text: &mut Vec<u8>,
        part: Part,
        size: usize,
    ) -> Result<(), AllocError> {
        match part {
            Part::Plain => {
                self.push_line(text, b"Content-Type: text/plain; charset=utf-8")?;
                self.push_line(text, b"Content-Transfer-Encoding: quoted-printable")?;
            }
            Part::Html => {
                self.push_line(text, b"Content-Type: TEXT/HTML; charset=\"utf-8\"")?;
                self.push_line(text, b"Content-Transfer-Encoding: 8bit")?;
            }
            Part::File => {
                self.push_named(random, text, b"application/octet-stream")?;
                self.push_line(text, b"Content-Transfer-Encoding: base64")?;
            }
            Part::Binary => self.push_named(random, text, b"text/x-log")?,
        }
        self.push_line(text, b"")?;
        match part {
            Part::Plain => self.qp.push(random, text, size),
            Part::Html => self.wide.push(random, text, size),
            Part::File => self.base64.push(random, text, size),
            Part::Binary => self.text.push(random, text, size),
        }
    }

    fn push_named(
        &self,
        random: &mut Random,
        text: &mut Vec<u8>,
        media: &[u8],
    ) -> Result<(), AllocError> {
        let mut name = Vec::new(self.alloc);
        push_word(random, &mut name, 12)?;
        name.extend_from_slice(b".bin")?;
        text.extend_from_slice(b"Content-Type: ")?;
        text.extend_from_slice(media)?;
        text.extend_from_slice(b"; name=\"")?;
        text.extend_from_slice(&name)?;
        self.push_line(text, b"\"")?;
        self.push_line(text, b"Content-Disposition: attachment;")?;
        text.extend_from_slice(b" filename=\"")?;
        text.extend_from_slice(&name)?;
        self.push_line(text, b"\"")
    }

    /// Appends a multipart of these parts in turn, this many, each of about this many bytes.
    pub fn push_parts(
        &self,
        random: &mut Random,
        text: &mut Vec<u8>,
        parts: &[Part],
        count: usize,
        size: usize,
    ) -> Result<(), AllocError> {
        let boundary = self.boundary(random)?;
        self.push_multipart(text, &boundary)?;
        for number in 0..count {
            self.push_delimiter(text, &boundary)?;
            if !parts.is_empty() {
                let half = size / 2;
                let about = half.saturating_add(random.below(size.saturating_add(1)));
                self.push_part(random, text, parts[number % parts.len()], about)?;
            }
        }
        self.push_close(text, &boundary)
    }

    /// A message of these parts in turn, this many, each of about this many bytes.
    pub fn message(
        &self,
        random: &mut Random,
        parts: &[Part],
        count: usize,
        size: usize,
    ) -> Result<Vec<u8>, AllocError> {
        let mut text = Vec::with_capacity(self.alloc, count.saturating_mul(size))?;
        self.push_fields(random, &mut text)?;
        self.push_parts(random, &mut text, parts, count, size)?;
        Ok(text)
    }

    /// A message of one text of about this many bytes.
    pub fn letter(&self, random: &mut Random, size: usize) -> Result<Vec<u8>, AllocError> {
        let mut text = Vec::with_capacity(self.alloc, size)?;
        self.push_fields(random, &mut text)?;
        self.push_line(&mut text, b"")?;
        self.text.push(random, &mut text, size)?;
        Ok(text)
    }

    /// A mailbox of this many messages, most of them a text and the others of three parts.
    pub fn mailbox(&self, random: &mut Random, count: usize) -> Result<Vec<u8>, AllocError> {
        let mut text = Vec::new(self.alloc);
        for _ in 0..count {
            text.extend_from_slice(b"From ann@example.org Mon Nov 23 00:00:00 2026")?;
            text.extend_from_slice(self.eol)?;
            self.push_fields(random, &mut text)?;
            if random.is_in(25) {
                self.push_parts(
                    random,
                    &mut text,
                    &[Part::Plain, Part::Html, Part::File],
                    3,
                    1_500,
                )?;
            } else {
                self.push_line(&mut text, b"")?;
                let size = 200 + random.below(3_000);
                self.text.push(random, &mut text, size)?;
            }
            text.extend_from_slice(self.eol)?;
        }
        Ok(text)
    }
}

// Appends a field, folded as it is in mail.
fn push_field(random: &mut Random, text: &mut Vec<u8>, eol: &[u8]) -> Result<(), AllocError> {
    match random.below(10) {
        0..3 => {
            text.extend_from_slice(b"Received: from ")?;
            push_words(random, text, 30)?;
            text.extend_from_slice(eol)?;
            text.extend_from_slice(b"\tby mx.example.org (Postfix) with ESMTPS id ")?;
            push_letters(random, text, 12)?;
            text.extend_from_slice(eol)?;
            text.extend_from_slice(b"\tfor <bob@example.org>; Mon, 23 Nov 2026 10:00:00 +0100")?;
        }
        3 => {
            text.extend_from_slice(b"DKIM-Signature: v=1; a=rsa-sha256; c=relaxed/relaxed;")?;
            for _ in 0..4 + random.below(14) {
                text.extend_from_slice(eol)?;
                text.extend_from_slice(b"        ")?;
                push_letters(random, text, 64)?;
            }
        }
        4 => {
            text.extend_from_slice(b"References:")?;
            for _ in 0..1 + random.below(8) {
                text.extend_from_slice(b" <")?;
                push_letters(random, text, 24)?;
                text.extend_from_slice(b"@example.org>")?;
                text.extend_from_slice(eol)?;
            }
            text.extend_from_slice(b" <first@example.org>")?;
        }
        5 => {
            text.extend_from_slice(b"Subject: =?utf-8?Q?caf=C3=A9_")?;
            push_word(random, text, 9)?;
            text.extend_from_slice(b"?= ")?;
            push_words(random, text, 40)?;
        }
        6 => {
            text.extend_from_slice(b"X-")?;
            push_word(random, text, 14)?;
            text.extend_from_slice(b": ")?;
            push_words(random, text, 30)?;
        }
        7 => {
            text.extend_from_slice(b"To: Bob <")?;
            push_word(random, text, 9)?;
            text.extend_from_slice(b"@example.org>, ")?;
            push_words(random, text, 20)?;
            text.extend_from_slice(b" <ann@example.org>")?;
        }
        8 => {
            text.extend_from_slice(b"Date: Mon, 23 Nov 2026 10:00:00 +0100 (")?;
            push_word(random, text, 5)?;
            text.push(b')')?;
        }
        _ => {
            text.extend_from_slice(b"List-Unsubscribe: <mailto:")?;
            push_letters(random, text, 40)?;
            text.push(b'>')?;
        }
    }
    text.extend_from_slice(eol)
}
