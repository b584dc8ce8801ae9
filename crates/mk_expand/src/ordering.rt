//! Parts in the order in which they are removed.

ghost use Rattle.std.specs.Prelude.{◌≡◌, map, IfOk};
ghost use Rattle.mk_script.specs.ScriptViews.{items_of};
ghost use Rattle.mk_decide.specs.Edits.{RemovePart};
ghost use Rattle.mk_expand.specs.Paths.{latest_first as later_first, placed_among};
ghost use Rattle.mk_expand.specs.Views.{plain_edits};

use mk_decide::Edit;
use std::alloc::{AllocError, Global};
use std::cmp::Ordering;

/// Removes the parts at these paths, which are those before any of them goes: the later ones go first.
pub(crate) fn removals(alloc: Global, paths: &[Vec<u32>]) -> Result<Vec<Edit>, AllocError>
    ensures { IfOk result (λ edits. plain_edits edits.items ≡ map (λ path. RemovePart path) (later_first (items_of paths.now))) }
{
    let mut edits = Vec::new(alloc);
    for path in latest_first(alloc, paths)? {
        edits.push(Edit::RemovePart { path })?;
    }
    Ok(edits)
}

// Paths, each once, the later first.
fn latest_first(alloc: Global, paths: &[Vec<u32>]) -> Result<Vec<Vec<u32>>, AllocError>
    ensures { IfOk result (λ list. items_of list.items ≡ later_first (items_of paths.now)) }
{
    let mut list = Vec::new(alloc);
    for path in paths {
        list = place(alloc, list, Vec::from_slice(alloc, path)?)?;
    }
    Ok(list)
}

// Puts a path among others, the later ones first; one that is there already is dropped.
fn place(alloc: Global, list: Vec<Vec<u32>>, path: Vec<u32>) -> Result<Vec<Vec<u32>>, AllocError>
    ensures { IfOk result (λ placed. items_of placed.items ≡ placed_among path.items (items_of list.items)) }
{
    let mut placed = Vec::new(alloc);
    let mut waiting = Some(path);
    for other in list {
        match waiting {
            Some(path) => match path.as_slice().cmp(other.as_slice()) {
                Ordering::Less => {
                    placed.push(other)?;
                    waiting = Some(path);
                }
                Ordering::Equal => {
                    placed.push(other)?;
                    waiting = None;
                }
                Ordering::Greater => {
                    placed.push(path)?;
                    placed.push(other)?;
                    waiting = None;
                }
            },
            None => {
                placed.push(other)?;
                waiting = None;
            }
        }
    }
    if let Some(path) = waiting {
        placed.push(path)?;
    }
    Ok(placed)
}
