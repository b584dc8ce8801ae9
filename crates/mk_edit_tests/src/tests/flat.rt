//! Documents as flat lists: what stands in a text, in order, and at which section.
use mk_tree::{Doc, Kind, Section};
use std::alloc::{AllocError, Global};

/// More levels than the tests have.
const LEVELS: u8 = 20;

/// What bytes of a document are.
#[derive(Clone, Copy, Debug, PartialEq, Eq)]
pub enum What {
    /// The line before the root.
    Envelope,
    /// The beginning of a section; it has no bytes.
    Entity(Kind),
    Field,
    /// The empty line after the fields; no bytes where it isn't there.
    Separator,
    /// The body of a leaf.
    Body,
    Preamble,
    /// The line before a part, at the path of the part.
    Delimiter,
    /// The close line; no bytes where it isn't there.
    Close,
    Epilogue,
}

/// Bytes of a document, and the path of the section that they belong to.
#[derive(Debug, PartialEq, Eq, Drop)]
pub struct Item {
    pub path: Vec<u32>,
    pub what: What,
    pub bytes: Vec<u8>,
    /// The boundary of a multipart, at its beginning.
    pub boundary: Vec<u8>,
}

/// An item of a section.
pub fn item_of(alloc: Global, path: &[u32], what: What, bytes: &[u8]) -> Result<Item, AllocError> {
    Ok(Item {
        path: Vec::from_slice(alloc, path)?,
        what,
        bytes: Vec::from_slice(alloc, bytes)?,
        boundary: Vec::new(alloc),
    })
}

/// A path with a number more.
pub fn below(alloc: Global, path: &[u32], number: u32) -> Result<Vec<u32>, AllocError> {
    let mut longer = Vec::from_slice(alloc, path)?;
    longer.push(number)?;
    Ok(longer)
}

/// All that stands in a document.
pub fn flattened(alloc: Global, doc: &Doc) -> Result<Vec<Item>, AllocError> {
    let mut list = Listing {
        alloc,
        text: doc.text(),
        items: Vec::new(alloc),
    };
    let root = doc.root();
    if root.start() > 0 {
        list.put(&[], What::Envelope, 0, root.start())?;
    }
    list.put_entity(&[1], &root, LEVELS)?;
    Ok(list.items)
}

// The items of a text so far.
#[derive(Drop)]
struct Listing<'a> {
    alloc: Global,
    text: &'a [u8],
    items: Vec<Item>,
}

impl Listing<'_> {
    // The bytes between two places.
    fn put(&mut self, path: &[u32], what: What, from: usize, to: usize) -> Result<(), AllocError> {
        let bytes = self.text.get(from..to).unwrap_or(b"");
        let made = item_of(self.alloc, path, what, bytes)?;
        self.items.push(made)?;
        Ok(())
    }

    // A section, and those at most this many levels below it.
    fn put_entity(
        &mut self,
        path: &[u32],
        section: &Section<'_>,
        levels: u8,
    ) -> Result<(), AllocError> {
        self.put_front(path, section)?;
        let (start, end) = (section.body_start(), section.end());
        match section.kind() {
            Kind::Leaf => self.put(path, What::Body, start, end),
            Kind::Message => {
                let inner = below(self.alloc, path, 1)?;
                if levels > 0
                    && let Some(child) = section.child(1)
                {
                    self.put_entity(&inner, &child, levels - 1)?;
                }
                Ok(())
            }
            Kind::Multi => {
                let mut place = start.saturating_add(section.preamble().len());
                self.put(path, What::Preamble, start, place)?;
                let mut number: u32 = 0;
                for child in section.children() {
                    number = number.saturating_add(1);
                    let inner = below(self.alloc, path, number)?;
                    self.put(&inner, What::Delimiter, place, child.start())?;
                    if levels > 0 {
                        self.put_entity(&inner, &child, levels - 1)?;
                    }
                    place = child.end();
                }
                let last = end.saturating_sub(section.epilogue().len());
                self.put(path, What::Close, place, last)?;
                self.put(path, What::Epilogue, last, end)
            }
        }
    }

    // The kind, the fields and the separator of a section.
    fn put_front(&mut self, path: &[u32], section: &Section<'_>) -> Result<(), AllocError> {
        let mut front = item_of(self.alloc, path, What::Entity(section.kind()), b"")?;
        front
            .boundary
            .extend_from_slice(section.boundary().unwrap_or(b""))?;
        self.items.push(front)?;
        for k in 1..=section.fields() {
            if let Some(field) = section.field(k) {
                let made = item_of(self.alloc, path, What::Field, field.raw)?;
                self.items.push(made)?;
            }
        }
        let head = section.start().saturating_add(section.head().len());
        self.put(path, What::Separator, head, section.body_start())
    }
}
