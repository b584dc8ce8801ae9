//! File names, told apart.
ghost use Rattle.std.specs.Prelude.{◌≡◌, ◌<◌, ◌≤◌, ◌+◌, ◌^◌, [], ◌∷◌, ℕ, List, None, Some, true, if◌then◌else◌, is_some, map, IfOk, OnOk};
ghost use Rattle.std.specs.Str.{bytes_eq};
ghost use Rattle.mk_view.specs.GivenNames.{AreGiven, IsGiven, is_safe, numbered as numbered_by};
ghost use Rattle.mk_tree.specs.Documents.{Document};
ghost use Rattle.mk_view.specs.LeafViews.{AreAt, leaf_view};
ghost use Rattle.mk_view.specs.inner.Taken.{Knows, number_at};

use crate::storing::Leaf;
use crate::writing::push_number;
use std::alloc::{AllocError, Global};
use std::collections::BTreeMap;

const DOT: u8 = b'.';

// The names that were given so far, each with the number that is tried first after it.
type Taken = BTreeMap<Vec<u8>, u64>;

/// Gives leaves their names in turn, from those that they would get by themselves.
pub(crate) fn give_all<'a>(alloc: Global, list: Vec<Leaf<'a>>) -> Result<Vec<Leaf<'a>>, AllocError>
    ensures given { IfOk result (λ leaves. AreGiven [] (map leaf_view list.entry.items) (map leaf_view leaves.items)) }
    ensures placed { IfOk result (λ leaves. (t : Document) → AreAt t list.entry.items → AreAt t leaves.items) }
{
    let mut taken = Taken::new(alloc);
    let mut leaves = Vec::new(alloc);
    for leaf in list {
        let Leaf {
            path,
            name: own,
            section,
        } = leaf;
        let name = give(alloc, &mut taken, own)?;
        leaves.push(Leaf {
            path,
            name,
            section,
        })?;
    }
    Ok(leaves)
}

// Gives a name that is none of those given so far: the own one, or that with a number after it.
fn give(alloc: Global, taken: &mut Taken, own: Vec<u8>) -> Result<Vec<u8>, AllocError>
    ensures { IfOk result (λ given. (names : List (List ℕ)) → Knows (number_at taken.old) names → IsGiven names own.items given.items × Knows (number_at taken.new) (given.items ∷ names)) }
{
    match first_number(taken, &own) {
        None => {
            let given = Vec::from_slice(alloc, &own)?;
            put(taken, own, 1)?;
            Ok(given)
        }
        Some(first) => {
            let (given, number) = free_name(alloc, taken, &own, first)?;
            let copy = Vec::from_slice(alloc, &given)?;
            put(taken, copy, 1)?;
            put(taken, own, number + 1)?;
            Ok(given)
        }
    }
}

// The number that is tried first after a name, where the name was given.
fn first_number(taken: &Taken, name: &[u8]) -> Option<u64>
    ensures { result ≡ number_at taken.now name.now }
{
    taken.get(name).copied()
}

// Keeps the number that is tried first after a name.
fn put(taken: &mut Taken, name: Vec<u8>, number: u64) -> Result<(), AllocError>
    ensures { OnOk result ((other : List ℕ) → number_at taken.new other ≡ (if bytes_eq name.items other then Some number else number_at taken.old other)) }
{
    taken.insert(name, number)?;
    Ok(())
}

// The first number from one on that makes a name which wasn't given, and that name. All memory is too little for the names
// of all numbers.
fn free_name(
    alloc: Global,
    taken: &Taken,
    own: &[u8],
    first: u64,
) -> Result<(Vec<u8>, u64), AllocError>
    ensures name { IfOk result (λ r. r.0.items ≡ numbered_by own.now r.1) }
    ensures free { IfOk result (λ r. number_at taken.now (numbered_by own.now r.1) ≡ None) }
    ensures from_first { IfOk result (λ r. first ≤ r.1) }
    ensures fits { IfOk result (λ r. r.1 + 1 < 2 ^ 64) }
    ensures tried { IfOk result (λ r. (n : ℕ) → first ≤ n → n < r.1 → is_some (number_at taken.now (numbered_by own.now n)) ≡ true) }
{
    for number in first..u64::MAX {
        let name = numbered(alloc, own, number)?;
        if first_number(taken, &name).is_none() {
            return Ok((name, number));
        }
    }
    Err(AllocError)
}

/// A name with a dot and a number after it.
pub fn numbered(alloc: Global, name: &[u8], number: u64) -> Result<Vec<u8>, AllocError>
    ensures written { IfOk result (λ text. text.items ≡ numbered_by name.now number) }
    ensures safe { IfOk result (λ text. is_safe name.now ≡ true → is_safe text.items ≡ true) }
{
    let mut text = Vec::from_slice(alloc, name)?;
    text.push(DOT)?;
    push_number(&mut text, number)?;
    Ok(text)
}
