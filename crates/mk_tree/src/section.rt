//! Sections of a document: an entity in its place.
ghost use Rattle.std.specs.Prelude.{◌≡◌};
ghost use Rattle.mk_line.specs.Lines.{cut as lines_of, text_of};
ghost use Rattle.mk_tree.specs.Sections.{unended as unended_lines};

use crate::children::Children;
use crate::describing::{content_fields_in, encoding_in, value_in};
use crate::node::Node;
use crate::shapes::Kind;
use mk_head::{Encoding, Field, Fields, each_field};
use std::alloc::{AllocError, Global};
use std::marker::Model;

const LINE_FEED: &[u8; 1] = b"\n";

const CARRIAGE_RETURN: &[u8; 1] = b"\r";

/// An entity in its place in a document: the root, a part, or the message inside a message.
#[derive(Drop)]
pub struct Section<'a> {
    pub(crate) raw: &'a [u8],
    pub(crate) node: &'a Node,
    pub(crate) start: usize,
    pub(crate) followed: bool,
    pub(crate) digest: bool,
    /// How many levels there may be below it.
    pub(crate) left: u8,
}

impl<'a> Model for Section<'a> {
    ghost use Rattle.mk_tree.specs.Sections.{Placed};
    ghost use Rattle.mk_tree.specs.Codes.{placed_code};

    ghost Value = { Placed };

    ghost coded = { placed_code };

    ghost use Rattle.mk_tree.specs.Layouts.{placed_over, IsNodeOver};

    ghost view = { λ s. placed_over s.raw.now s.start s.followed s.digest s.left };

    ghost invariant = { λ s. IsNodeOver s.node.now s.raw.now s.start s.digest s.left };
}

impl<'a> Section<'a> {
    ghost use Rattle.std.specs.Prelude.{◌≡◌, ◌<◌, ◌+◌, ◌^◌, codes, false, length, IfOk};
    ghost use Rattle.std.specs.Option.{option_map};
    ghost use Rattle.mk_line.specs.Lines.{cut as lines_of, text_of};
    ghost use Rattle.mk_head.specs.Fields.{counted, find_field};
    ghost use Rattle.mk_head.specs.Split.{fields_from, head_lines};
    ghost use Rattle.mk_head.specs.Types.{field_value, header_encoding};
    ghost use Rattle.mk_head.specs.Views.{field_view};
    ghost use Rattle.mk_tree.specs.Forms.{form_digest, form_in, kind_in};
    ghost use Rattle.mk_tree.specs.Spans.{size};
    ghost use Rattle.mk_tree.specs.Tree.{entity_head, field_lines, print};
    ghost use Rattle.mk_tree.specs.Sections.{boundary_in, body_text, children as sections_below, content_text, epilogue_lines, head_text, preamble_lines, raw_of, section_fields};

    /// All its bytes.
    pub fn raw(&self) -> &'a [u8]
        ensures { result.now ≡ raw_of self.now }
    {
        self.raw
    }

    /// The bytes of its fields.
    pub fn head(&self) -> &'a [u8]
        ensures { result.now ≡ head_text self.now }
    {
        let (head, _) = self.raw.split_at(self.node.fields);
        head
    }

    /// The bytes after its separator, or after its fields where it has none.
    pub fn body(&self) -> &'a [u8]
        ensures { result.now ≡ body_text self.now }
    {
        let front = self.node.fields + self.node.separator;
        let (_, body) = self.raw.split_at(front);
        body
    }

    /// Its body, without the line ending at its end where the section is followed: that belongs to the line after it.
    pub fn content(&self) -> &'a [u8]
        ensures { result.now ≡ content_text self.now }
    {
        let body = self.body();
        if self.followed { unended(body) } else { body }
    }

    /// The lines before the first delimiter of a multipart; nothing of other kinds.
    pub fn preamble(&self) -> &'a [u8]
        ensures { result.now ≡ text_of (preamble_lines self.now.entity) }
    {
        let size = self.node.shape.preamble();
        let (preamble, _) = self.body().split_at(size);
        preamble
    }

    /// The lines after the close line of a multipart; nothing where there is none.
    pub fn epilogue(&self) -> &'a [u8]
        ensures { result.now ≡ text_of (epilogue_lines self.now.entity) }
    {
        let size = self.node.shape.epilogue();
        let (_, epilogue) = self.raw.split_at(self.raw.len() - size);
        epilogue
    }

    /// Where it begins in the document, in bytes from 0.
    pub fn start(&self) -> usize
        ensures { result ≡ self.now.start }
    {
        self.start
    }

    /// Where its body begins in the document, in bytes from 0.
    pub fn body_start(&self) -> usize
        ensures { result ≡ self.now.start + size (head_lines (entity_head self.now.entity)) }
    {
        let head = self.node.fields + self.node.separator;
        head + self.start
    }

    /// Where it ends in the document, in bytes from 0: the place after its last byte.
    pub fn end(&self) -> usize
        ensures { result ≡ self.now.start + size (print self.now.entity) }
    {
        self.raw.len() + self.start
    }

    /// What its body is.
    pub fn kind(&self) -> Kind
        ensures { result ≡ kind_in self.now.entity }
    {
        self.node.shape.kind()
    }

    /// The boundary of a multipart, without blanks at its end: the tree's own copy.
    pub fn boundary(&self) -> Option<&'a [u8]>
        ensures { option_map (λ b. b.now) result ≡ boundary_in self.now.entity }
    {
        self.node.shape.boundary()
    }

    /// How many sections stand directly below it.
    pub fn parts(&self) -> usize
        ensures { result ≡ length (sections_below self.now) }
    {
        self.node.parts.len()
    }

    /// Whether it is a message where its fields don't say a type: where it is a part of a digest.
    pub fn default_message(&self) -> bool
        ensures { result ≡ self.now.digest }
    {
        self.digest
    }

    // Whether a missing type means a message in its parts.
    pub(crate) fn parts_default(&self) -> bool
        ensures { result ≡ form_digest (form_in self.now.digest self.now.entity) }
    {
        self.node.shape.is_digest()
    }

    /// Whether lines stand after it in the document. The next is a delimiter or close line then.
    pub fn followed(&self) -> bool
        ensures { result ≡ self.now.followed }
    {
        self.followed
    }

    // Its fields, one by one.
    fn each_field(&self) -> Fields<'a>
        ensures fields { result ≡ section_fields self.now }
        ensures few { length result < 2 ^ 64 }
    {
        let (head, _) = self.raw.split_at(self.node.fields);
        each_field(head)
    }

    /// How many fields it has.
    pub fn fields(&self) -> usize
        ensures { result ≡ length (section_fields self.now) }
    {
        self.each_field().count()
    }

    /// The k-th field, counted from 1.
    pub fn field(&self, k: usize) -> Option<Field<'a>>
        ensures { option_map field_view result ≡ counted k (section_fields self.now) }
    {
        let mut left = k;
        for found in self.each_field() {
            if left == 1 {
                return Some(found);
            }
            left = left.saturating_sub(1);
        }
        None
    }

    /// The k-th field of a name, counted from 1; names are compared without regard to ASCII case.
    pub fn find(&self, name: &[u8], k: u32) -> Option<Field<'a>>
        ensures { option_map field_view result ≡ find_field name.now k (section_fields self.now) }
    {
        let mut left = k;
        for field in self.each_field() {
            if field.is_named(name) {
                if left == 1 {
                    return Some(field);
                }
                left = left.saturating_sub(1);
            }
        }
        None
    }

    /// The value of its first field of a name; names are compared without regard to ASCII case.
    pub fn value(&self, alloc: Global, name: &[u8]) -> Result<Option<Vec<u8>>, AllocError>
        ensures { IfOk result (λ value. option_map (λ bytes. bytes.items) value ≡ field_value name.now (field_lines self.now.entity)) }
    {
        value_in(alloc, self.field_bytes(), name)
    }

    /// Its transfer encoding; without a Content-Transfer-Encoding field it has none.
    pub fn encoding(&self, alloc: Global) -> Result<Encoding, AllocError>
        ensures { IfOk result (λ encoding. encoding ≡ header_encoding (field_lines self.now.entity)) }
    {
        encoding_in(alloc, self.field_bytes())
    }

    /// The value of its first Content-Type field, and its transfer encoding as `encoding` gives it: what `value` and `encoding`
    /// say in two passes over its fields, in one.
    pub fn content_fields(&self, alloc: Global) -> Result<(Option<Vec<u8>>, Encoding), AllocError>
        ensures media { IfOk result (λ r. option_map (λ bytes. bytes.items) r.0 ≡ field_value (codes "Content-Type") (field_lines self.now.entity)) }
        ensures encoding { IfOk result (λ r. r.1 ≡ header_encoding (field_lines self.now.entity)) }
    {
        content_fields_in(alloc, self.field_bytes())
    }

    // The bytes of its fields.
    fn field_bytes(&self) -> &'a [u8]
        ensures { fields_from false (lines_of result.now) ≡ field_lines self.now.entity }
    {
        let (fields, _) = self.raw.split_at(self.node.fields);
        fields
    }

    /// The sections directly below it, in order: the parts of a multipart, or the one message of a message.
    pub fn children(&self) -> Children<'a>
        ensures { result ≡ sections_below self.now }
    {
        let shape = &self.node.shape;
        let front = self.node.fields + self.node.separator + shape.preamble();
        let (_, rest) = self.raw.split_at(front);
        Children {
            rest,
            nodes: &self.node.parts,
            start: self.start + front,
            followed: shape.is_closed() || self.followed,
            digest: shape.is_digest(),
            left: self.left.saturating_sub(1),
        }
    }

    /// The k-th section directly below it, counted from 1.
    pub fn child(&self, k: u32) -> Option<Section<'a>>
        ensures { result ≡ counted k (sections_below self.now) }
    {
        let mut left = k;
        for section in self.children() {
            if left == 1 {
                return Some(section);
            }
            left = left.saturating_sub(1);
        }
        None
    }
}

// A text without the line ending at its end, where one is there.
fn unended(text: &[u8]) -> &[u8]
    ensures { result.now ≡ text_of (unended_lines (lines_of text.now)) }
{
    match text.strip_suffix(LINE_FEED) {
        Some(line) => match line.strip_suffix(CARRIAGE_RETURN) {
            Some(content) => content,
            None => line,
        },
        None => text,
    }
}
