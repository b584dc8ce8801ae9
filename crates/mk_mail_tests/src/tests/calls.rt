//! What calls give for the rows of tables, as text.
use super::builds::{message, part};
use super::edits::lines;
use super::letters::{allowed, filtered};
use mk_mail::{Leaf, content, content_size, extract, leaves, list, names};
use mk_rows::{Row, rows};
use mk_tree::Doc;
use std::alloc::{AllocError, Global};
use std::process::Abort;
use std::test::Fail;

/// A call, most of which take the cell `message` of a row.
#[derive(Clone, Copy)]
pub enum Call {
    /// The listing of its sections.
    Listing,
    /// The content of the section `at` a path.
    Content,
    /// The paths and the names of the leaves that are stored.
    Names,
    /// The same where texts without a name are stored too.
    NamesWithTexts,
    /// The paths, the names and the contents of all leaves.
    Leaves,
    /// The file of the row as a part.
    Part,
    /// A message of the cells `field`, the `boundary` and two files.
    Message,
    /// Whether the letters of the row may be asked for.
    Allowed,
    /// What it is after the edits of the letters.
    Filtered,
    /// The edits of the letters.
    Edits,
}

/// Two texts are the same.
pub fn same(rt: &impl Abort, found: &[u8], wanted: &[u8], shows: &str) {
    assert_eq!(rt; found, wanted, "{shows}");
}

/// Each row of a table has what a call gives in its cell `gives`.
pub fn check(rt: &impl Abort, alloc: Global, call: Call, table: &'static str) -> Result<(), Fail> {
    for row in &rows(alloc, table)? {
        let found = given(alloc, call, row)?;
        same(rt, &found, row.bytes("gives"), row.shows);
    }
    Ok(())
}

fn given(alloc: Global, call: Call, row: &Row) -> Result<Vec<u8>, Fail> {
    match call {
        Call::Listing => listing(alloc, row),
        Call::Content => extracted(alloc, row),
        Call::Names => named(alloc, row, false),
        Call::NamesWithTexts => named(alloc, row, true),
        Call::Leaves => all_leaves(alloc, row),
        Call::Part => part(alloc, row),
        Call::Message => message(alloc, row),
        Call::Allowed => allowed(alloc, row),
        Call::Filtered => filtered(alloc, row),
        Call::Edits => lines(alloc, row),
    }
}

/// A copy of a text, as it is read.
pub fn read(alloc: Global, text: &[u8]) -> Result<Doc, AllocError> {
    let text = Vec::from_slice(alloc, text)?;
    Doc::read(alloc, text).map_err(|(_, error)| error)
}

/// The word for an error, after a remark.
pub fn refused(alloc: Global, word: &str) -> Result<Vec<u8>, Fail> {
    let mut text = Vec::from_slice(alloc, b"refused: ")?;
    text.extend_from_slice(word.as_bytes())?;
    Ok(text)
}

fn listing(alloc: Global, row: &Row) -> Result<Vec<u8>, Fail> {
    let doc = read(alloc, row.bytes("message"))?;
    Ok(list(alloc, &doc)?)
}

fn extracted(alloc: Global, row: &Row) -> Result<Vec<u8>, Fail> {
    let doc = read(alloc, row.bytes("message"))?;
    let path = row.path(alloc, "at")?;
    if !is_size_told(alloc, &doc, &path) {
        return Err(Fail::new("the size that is told is another"));
    }
    match extract(alloc, &doc, &path) {
        Ok(content) => Ok(content),
        Err(error) => refused(alloc, format!(in alloc; "{error:?}")?.as_str()),
    }
}

// What is told of the size of a content, where its section is there: that of what is taken out, or the same error.
fn is_size_told(alloc: Global, doc: &Doc, path: &[u32]) -> bool {
    let Some(section) = doc.section(path) else {
        return true;
    };
    match (extract(alloc, doc, path), content_size(alloc, &section)) {
        (Ok(content), Ok(size)) => content.len() == size,
        (Err(error), Err(told)) => error == told,
        _ => false,
    }
}

/// Adds the path and the name of a leaf.
pub fn push_leaf(
    alloc: Global,
    text: &mut Vec<u8>,
    path: &[u32],
    name: &[u8],
) -> Result<(), AllocError> {
    let path = format!(in alloc; "{path:?} ")?;
    text.extend_from_slice(path.as_bytes())?;
    text.extend_from_slice(name)?;
    text.push(b'|')?;
    Ok(())
}

fn named(alloc: Global, row: &Row, texts: bool) -> Result<Vec<u8>, Fail> {
    let doc = read(alloc, row.bytes("message"))?;
    let mut found = Vec::new(alloc);
    for (path, name) in &names(alloc, &doc, texts)? {
        push_leaf(alloc, &mut found, path, name)?;
    }
    Ok(found)
}

fn all_leaves(alloc: Global, row: &Row) -> Result<Vec<u8>, Fail> {
    let doc = read(alloc, row.bytes("message"))?;
    let mut found = Vec::new(alloc);
    for leaf in &leaves(alloc, &doc, true)? {
        push_stored(alloc, &mut found, leaf)?;
    }
    Ok(found)
}

// Adds the path, the name and the content of a leaf.
fn push_stored(alloc: Global, found: &mut Vec<u8>, leaf: &Leaf<'_>) -> Result<(), Fail> {
    push_leaf(alloc, found, &leaf.path, &leaf.name)?;
    found.extend_from_slice(&content(alloc, &leaf.section)?)?;
    found.push(b'|')?;
    Ok(())
}
