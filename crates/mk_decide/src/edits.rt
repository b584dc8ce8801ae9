//! Edits.

/// A change of a message. Paths are the numbers of a section, each counted from 1: the root is 1. A field is named by
/// its name, without regard to ASCII case, and by its number `k` among the fields of that name, counted from 1.
#[derive(Debug, Drop)]
pub enum Edit {
    /// Puts `text`, exactly one field with its line endings, after the last field of the section, or before the first
    /// where `top` holds.
    AddField {
        path: Vec<u32>,
        top: bool,
        text: Vec<u8>,
    },
    /// Takes a field out.
    RemoveField {
        path: Vec<u32>,
        name: Vec<u8>,
        k: u32,
    },
    /// Gives a field another name.
    RenameField {
        path: Vec<u32>,
        name: Vec<u8>,
        k: u32,
        to: Vec<u8>,
    },
    /// Puts `text`, exactly one field with its line endings, of any name, in the place of a field.
    SetField {
        path: Vec<u32>,
        name: Vec<u8>,
        k: u32,
        text: Vec<u8>,
    },
    /// Puts the lines of `text` in the place of the body of a leaf, after its separator or an empty line that is made.
    SetBody {
        path: Vec<u32>,
        text: Vec<u8>,
    },
    /// Puts the entity that `text` alone is read as in the place of the section.
    SetSection {
        path: Vec<u32>,
        text: Vec<u8>,
    },
    /// Puts the entity that `text` alone is read as into a multipart, as a part after `place` others. Its delimiter is
    /// made.
    InsertPart {
        path: Vec<u32>,
        place: u32,
        text: Vec<u8>,
    },
    /// Takes a part of a multipart out, with its delimiter.
    RemovePart {
        path: Vec<u32>,
    },
    /// Makes the section the one part of a multipart of a subtype and a boundary. The multipart takes over its fields
    /// but those whose names begin with `Content-`, which stay the part's own.
    Wrap {
        path: Vec<u32>,
        subtype: Vec<u8>,
        boundary: Vec<u8>,
    },
}

impl Edit {
    ghost use Rattle.std.specs.Prelude.{◌≡◌};
    ghost use Rattle.mk_decide.specs.Edits.{path_of};
    ghost use Rattle.mk_decide.specs.Views.{edit_of};

    /// The path of the section that is edited.
    pub fn path(&self) -> &[u32]
        ensures { result.now ≡ path_of (edit_of self.now) }
    {
        match self {
            Edit::AddField { path, .. } => path,
            Edit::RemoveField { path, .. } => path,
            Edit::RenameField { path, .. } => path,
            Edit::SetField { path, .. } => path,
            Edit::SetBody { path, .. } => path,
            Edit::SetSection { path, .. } => path,
            Edit::InsertPart { path, .. } => path,
            Edit::RemovePart { path } => path,
            Edit::Wrap { path, .. } => path,
        }
    }
}
