//! The leaves of a document that are stored as files.
ghost use Rattle.std.specs.Prelude.{◌≡◌, ◌++◌, [], Some, map, IfOk, OnOk};
ghost use Rattle.std.specs.Option.{option_map, option_or};
ghost use Rattle.std.specs.String.{string_bytes};
ghost use Rattle.mk_tree.specs.Documents.{Document, tree};
ghost use Rattle.mk_tree.specs.Sections.{Placed, section_at};
ghost use Rattle.mk_view.specs.Described.{IsDescribed};
ghost use Rattle.mk_view.specs.GivenNames.{AreDistinct, AreGiven, AreSafe};
ghost use Rattle.mk_view.specs.LeafViews.{AreAt, leaf_view};
ghost use Rattle.mk_view.specs.ListedViews.{listed_view};
ghost use Rattle.mk_view.specs.Listing.{type_of};
ghost use Rattle.mk_view.specs.FileNames.{is_stored_by};
ghost use Rattle.mk_view.specs.TextNames.{all_stored_in, name_bytes, name_text, naming_id as id_for_name, plain_storing, stored_if, stored_in};
ghost use Rattle.mk_view.specs.NameViews.{named_view};

use crate::content_ids::content_id;
use crate::described::Described;
use crate::giving::give_all;
use crate::naming::is_stored;
use crate::text_names::{NameForm, name_of};
use crate::walking::{Listed, all_sections};
use mk_tree::{Doc, Kind, Section};
use std::alloc::{AllocError, Global};

/// Which sections of a document are stored as files, and how these are named. By default the leaves but texts without a name, in
/// plain form.
#[derive(Clone, Copy, Debug, PartialEq, Eq)]
pub struct Storing {
    /// The form of the names.
    pub form: NameForm,
    /// Texts without a name are stored too.
    pub texts: bool,
    /// Messages in the document are stored too, each whole (RFC 2046, 5.2.1). What is in them is stored all the same.
    pub messages: bool,
    /// A section that has a Content-ID is named by it (RFC 2045, 7).
    pub content_ids: bool,
}

impl Default for Storing {
    ghost use Rattle.std.specs.Prelude.{◌≡◌, false};
    ghost use Rattle.mk_view.specs.TextNames.{plain_storing};

    ghost is_default = { λ storing. storing ≡ plain_storing false };

    fn default() -> Storing {
        Storing {
            form: NameForm::Plain,
            texts: false,
            messages: false,
            content_ids: false,
        }
    }
}

/// A section of a document that is stored as a file: a leaf, or a message in it.
#[derive(Drop)]
pub struct Leaf<'a> {
    /// Its path; the root's is 1.
    pub path: Vec<u32>,
    /// The name of the file.
    pub name: Vec<u8>,
    pub section: Section<'a>,
}

/// Names the leaves of a document, in its order, for storing them as files: the path of each and its name. The name is the
/// parameter `filename` of Content-Disposition, else `name` of Content-Type (RFC 2183, 2.3; RFC 2045, 5.1), of which what
/// could lead elsewhere is taken off; without one it is `part-` and the path. A leaf of a text type without a name is left
/// out unless `texts`. Where an earlier leaf has the name, a number is put after it.
pub fn names(alloc: Global, doc: &Doc, texts: bool) -> Result<Vec<(Vec<u32>, Vec<u8>)>, AllocError>
    ensures given { IfOk result (λ names. AreGiven [] (all_stored_in (plain_storing texts) (tree doc.now)) (map named_view names.items)) }
    ensures distinct { IfOk result (λ names. AreDistinct [] (map named_view names.items)) }
    ensures safe { IfOk result (λ names. AreSafe (map named_view names.items)) }
{
    let mut names = Vec::new(alloc);
    for leaf in leaves(alloc, doc, texts)? {
        let Leaf { path, name, .. } = leaf;
        names.push((path, name))?;
    }
    Ok(names)
}

/// The same leaves with the same names, and their sections.
pub fn leaves(alloc: Global, doc: &Doc, texts: bool) -> Result<Vec<Leaf<'_>>, AllocError>
    ensures given { IfOk result (λ leaves. AreGiven [] (all_stored_in (plain_storing texts) (tree doc.now)) (map leaf_view leaves.items)) }
    ensures distinct { IfOk result (λ leaves. AreDistinct [] (map leaf_view leaves.items)) }
    ensures safe { IfOk result (λ leaves. AreSafe (map leaf_view leaves.items)) }
    ensures placed { IfOk result (λ leaves. AreAt (tree doc.now) leaves.items) }
{
    let storing = Storing {
        texts,
        ..Storing::default()
    };
    leaves_in(alloc, doc, storing)
}

/// The sections of a document that are stored as files, with their names. With `NameForm::Utf8` the name is the text that the
/// fields say (RFC 2231; RFC 2047 in a plain value), cleaned in the same way, but the letters and digits of Unicode stay; where
/// no text can be read, it is the plain one. With `content_ids` the name of a section that has an id is what is left of that.
pub fn leaves_in(alloc: Global, doc: &Doc, storing: Storing) -> Result<Vec<Leaf<'_>>, AllocError>
    ensures given { IfOk result (λ leaves. AreGiven [] (all_stored_in storing (tree doc.now)) (map leaf_view leaves.items)) }
    ensures distinct { IfOk result (λ leaves. AreDistinct [] (map leaf_view leaves.items)) }
    ensures safe { IfOk result (λ leaves. AreSafe (map leaf_view leaves.items)) }
    ensures placed { IfOk result (λ leaves. AreAt (tree doc.now) leaves.items) }
{
    let mut list = Vec::new(alloc);
    for listed in all_sections(alloc, doc)? {
        push_own(alloc, storing, &mut list, listed)?;
    }
    give_all(alloc, list)
}

// Puts a section itself after others, if it is stored.
#[tactic(auto, unfolding(crate::specs::TextNames::stored_in))]
fn push_own<'a>(
    alloc: Global,
    storing: Storing,
    list: &mut Vec<Leaf<'a>>,
    listed: Listed<'a>,
) -> Result<(), AllocError>
    ensures stored { OnOk result (map leaf_view list.new.items ≡ map leaf_view list.old.items ++ stored_in storing (listed_view listed.entry)) }
    ensures placed { OnOk result ((t : Document) → section_at listed.entry.path.items t ≡ Some listed.entry.section → AreAt t list.old.items → AreAt t list.new.items) }
{
    match listed.section.kind() {
        Kind::Leaf => push_described(alloc, storing, storing.texts, list, listed),
        Kind::Message if storing.messages => push_described(alloc, storing, true, list, listed),
        Kind::Multi | Kind::Message => Ok(()),
    }
}

// Puts a section after others, unless it is a text without a name and such texts aren't stored.
fn push_described<'a>(
    alloc: Global,
    storing: Storing,
    texts: bool,
    list: &mut Vec<Leaf<'a>>,
    listed: Listed<'a>,
) -> Result<(), AllocError>
    ensures stored { OnOk result (let id = id_for_name storing.content_ids listed.entry.section in
        let text = name_text id storing.form listed.entry.section in
        let raw = name_bytes id listed.entry.section in
        map leaf_view list.new.items ≡ map leaf_view list.old.items ++ stored_if (is_stored_by texts (type_of listed.entry.section) (option_or text raw)) listed.entry.path.items text raw) }
    ensures placed { OnOk result ((t : Document) → section_at listed.entry.path.items t ≡ Some listed.entry.section → AreAt t list.old.items → AreAt t list.new.items) }
{
    let Listed { path, section } = listed;
    let described = Described::read(alloc, &section)?;
    let id = naming_id(alloc, storing, &section)?;
    let text = text_beside(alloc, &id, &described, storing.form)?;
    let raw = bytes_beside(&id, &described);
    if !is_stored(texts, &described.media, &text, raw) {
        return Ok(());
    }
    let name = name_of(alloc, &path, &text, raw)?;
    list.push(Leaf {
        path,
        name,
        section,
    })?;
    Ok(())
}

// The id by which a section is named, where sections are.
fn naming_id(
    alloc: Global,
    storing: Storing,
    section: &Section<'_>,
) -> Result<Option<Vec<u8>>, AllocError>
    ensures { IfOk result (λ id. option_map (λ i. i.items) id ≡ id_for_name storing.content_ids section.now) }
{
    if storing.content_ids {
        content_id(alloc, section)
    } else {
        Ok(None)
    }
}

// The text that counts as the name of a section, where it may be named by an id.
fn text_beside(
    alloc: Global,
    id: &Option<Vec<u8>>,
    described: &Described,
    form: NameForm,
) -> Result<Option<String>, AllocError>
    ensures { IfOk result (λ text. (p : Placed) → IsDescribed described.now p → option_map string_bytes text ≡ name_text (option_map (λ i. i.items) id.now) form p) }
{
    match id {
        Some(_) => Ok(None),
        None => described.text_in(alloc, form),
    }
}

// The bytes that count as the name of a section, where it may be named by an id.
fn bytes_beside<'d>(id: &'d Option<Vec<u8>>, described: &'d Described) -> Option<&'d [u8]>
    ensures { (p : Placed) → IsDescribed described.now p → option_map (λ name. name.now) result ≡ name_bytes (option_map (λ i. i.items) id.now) p }
{
    match id {
        Some(id) => Some(id),
        None => described.raw_name(),
    }
}
