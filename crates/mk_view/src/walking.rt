//! The sections of a document, one after another.
ghost use Rattle.std.specs.Prelude.{◌≡◌, ◌++◌, ◌∷◌, [], Some, map, IfOk, OnOk};
ghost use Rattle.mk_tree.specs.Documents.{Document, tree};
ghost use Rattle.mk_tree.specs.Sections.{section_at};
ghost use Rattle.mk_view.specs.Listed.{listed, listed_from};
ghost use Rattle.mk_view.specs.ListedViews.{AreListedAt, listed_view};

use crate::listing::path_below;
use mk_tree::{Doc, Section};
use std::alloc::{AllocError, Global};

/// A section of a document, with its path.
#[derive(Drop)]
pub struct Listed<'a> {
    /// Its path; the root's is 1.
    pub path: Vec<u32>,
    pub section: Section<'a>,
}

/// All sections of a document in its order: each comes before those below it. A section with a number in its path that `u32`
/// can't hold is left out.
pub fn all_sections(alloc: Global, doc: &Doc) -> Result<Vec<Listed<'_>>, AllocError>
    ensures all { IfOk result (λ found. map listed_view found.items ≡ listed (tree doc.now)) }
    ensures placed { IfOk result (λ found. AreListedAt (tree doc.now) found.items) }
{
    let mut found = Vec::new(alloc);
    push_sections(alloc, &mut found, &[1], doc.root())?;
    Ok(found)
}

// Puts a section and those below it after others.
fn push_sections<'a>(
    alloc: Global,
    found: &mut Vec<Listed<'a>>,
    path: &[u32],
    section: Section<'a>,
) -> Result<(), AllocError>
    ensures listed { OnOk result (map listed_view found.new.items ≡ map listed_view found.old.items ++ listed_from path.now section.entry) }
    ensures placed { OnOk result ((t : Document) → section_at path.now t ≡ Some section.entry → AreListedAt t found.old.items → AreListedAt t found.new.items) }
{
    let below = section.children();
    push_section(alloc, found, path, section)?;
    let mut number = 1u32;
    for child in below {
        let child_path = path_below(alloc, path, number)?;
        push_sections(alloc, found, &child_path, child)?;
        let Some(next) = number.checked_add(1) else {
            return Ok(());
        };
        number = next;
    }
    Ok(())
}

// Puts a section after others.
fn push_section<'a>(
    alloc: Global,
    found: &mut Vec<Listed<'a>>,
    path: &[u32],
    section: Section<'a>,
) -> Result<(), AllocError>
    ensures listed { OnOk result (map listed_view found.new.items ≡ map listed_view found.old.items ++ record { path = path.now; section = section.entry } ∷ []) }
    ensures placed { OnOk result ((t : Document) → section_at path.now t ≡ Some section.entry → AreListedAt t found.old.items → AreListedAt t found.new.items) }
{
    let path = Vec::from_slice(alloc, path)?;
    found.push(Listed { path, section })?;
    Ok(())
}
