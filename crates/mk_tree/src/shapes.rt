//! What the shape of a node says.
use crate::node::Shape;

/// What the body of a section is.
#[derive(Clone, Copy, Debug, PartialEq, Eq)]
pub enum Kind {
    /// A content with no sections below it.
    Leaf,
    /// Parts after delimiters of a boundary.
    Multi,
    /// One message.
    Message,
}

impl Shape {
    ghost use Rattle.std.specs.Prelude.{◌≡◌};
    ghost use Rattle.std.specs.Option.{option_map};
    ghost use Rattle.mk_tree.specs.Nodes.{form_of};
    ghost use Rattle.mk_tree.specs.Forms.{form_boundary, form_closed, form_digest, form_epilogue, form_kind, form_preamble};

    pub fn kind(&self) -> Kind
        ensures { result ≡ form_kind (form_of self.now) }
    {
        match self {
            Shape::Leaf => Kind::Leaf,
            Shape::Message => Kind::Message,
            Shape::Multi(_) => Kind::Multi,
        }
    }

    /// The boundary of a multipart.
    pub fn boundary(&self) -> Option<&[u8]>
        ensures { option_map (λ b. b.now) result ≡ form_boundary (form_of self.now) }
    {
        match self {
            Shape::Multi(multi) => Some(&multi.boundary),
            Shape::Leaf | Shape::Message => None,
        }
    }

    /// Whether a missing type means a message in its parts.
    pub fn is_digest(&self) -> bool
        ensures { result ≡ form_digest (form_of self.now) }
    {
        match self {
            Shape::Multi(multi) => multi.digest,
            Shape::Leaf | Shape::Message => false,
        }
    }

    /// How many bytes stand before the first delimiter.
    pub fn preamble(&self) -> usize
        ensures { result ≡ form_preamble (form_of self.now) }
    {
        match self {
            Shape::Multi(multi) => multi.preamble,
            Shape::Leaf | Shape::Message => 0,
        }
    }

    /// Whether a close line is there.
    pub fn is_closed(&self) -> bool
        ensures { result ≡ form_closed (form_of self.now) }
    {
        match self {
            Shape::Multi(multi) => multi.tail.is_some(),
            Shape::Leaf | Shape::Message => false,
        }
    }

    /// How many bytes stand after the close line.
    pub fn epilogue(&self) -> usize
        ensures { result ≡ form_epilogue (form_of self.now) }
    {
        match self {
            Shape::Multi(multi) => match multi.tail {
                Some(tail) => tail.epilogue,
                None => 0,
            },
            Shape::Leaf | Shape::Message => 0,
        }
    }
}
