//! What a document keeps of its entities beside the text: lengths in bytes, and no place.

/// An entity, as lengths in bytes.
#[derive(Debug, Drop)]
pub struct Node {
    /// The delimiter line before it, where it is a part.
    pub delimiter: usize,
    /// The lines of its fields.
    pub fields: usize,
    /// The empty line after the fields, where it is there.
    pub separator: usize,
    /// All its lines, without the delimiter.
    pub size: usize,
    pub shape: Shape,
    /// The parts of a multipart, or the one entity of a message.
    pub parts: Vec<Node>,
}

/// What the body of an entity is.
#[derive(Debug, Drop)]
pub enum Shape {
    Leaf,
    Message,
    Multi(Box<Multi>),
}

/// A multipart, beside its parts.
#[derive(Debug, Drop)]
pub struct Multi {
    /// The boundary, without blanks at its end.
    pub boundary: Vec<u8>,
    /// Whether a missing type means a message in its parts.
    pub digest: bool,
    /// The lines before the first delimiter.
    pub preamble: usize,
    pub tail: Option<Tail>,
}

/// The end of a multipart that is closed.
#[derive(Clone, Copy, Debug)]
pub struct Tail {
    /// The close line.
    pub close: usize,
    /// All lines after it.
    pub epilogue: usize,
}
