//! Changing the lengths of a tree where a text is changed: the nodes on the path to one entity, and that entity.
ghost use Rattle.std.specs.Prelude.{◌≡◌, OnOk, OnErr};
ghost use Rattle.mk_tree.specs.Nodes.{node_span};
ghost use Rattle.mk_tree.specs.Changed.{FitsOwn, LeadsTo, own_changed, respan};

use crate::node::{Node, Shape};
use std::alloc::AllocError;

/// What becomes of the entity at the end of the path.
#[derive(Drop)]
pub(crate) enum Own {
    /// Its fields are others, and a missing type means a message in its parts, or doesn't.
    Fields(bool),
    /// It is another, which stands after the same delimiter.
    Entity(Node),
    /// It has one more part, after this many.
    Part(usize, Node),
    /// It lacks the part after this many.
    NoPart(usize),
}

impl Shape {
    ghost use Rattle.std.specs.Prelude.{◌≡◌};
    ghost use Rattle.mk_tree.specs.Nodes.{form_of};
    ghost use Rattle.mk_tree.specs.Changed.{redigested};

    /// Says whether a missing type means a message in the parts of a multipart.
    pub(crate) fn set_digest(&mut self, digest: bool)
        ensures { form_of self.new ≡ redigested digest (form_of self.old) }
    {
        match self {
            Shape::Multi(multi) => multi.digest = digest,
            Shape::Leaf | Shape::Message => {}
        }
    }
}

impl Node {
    ghost use Rattle.std.specs.Prelude.{◌≡◌, OnOk, OnErr};
    ghost use Rattle.mk_tree.specs.Nodes.{node_span};
    ghost use Rattle.mk_tree.specs.Changed.{FitsOwn, LeadsTo, Resizes, own_changed, redelimited, resized, respan};
    ghost use Rattle.mk_tree.specs.Layouts.{delimiter_of};

    /// Changes the entity at the numbers below this one, which loses `count` bytes and gets `added` others. Where there is no
    /// memory, nothing changes.
    pub(crate) fn change(
        &mut self,
        numbers: &[u32],
        count: usize,
        added: usize,
        own: Own,
    ) -> Result<(), AllocError>
        requires { LeadsTo numbers.now count added (FitsOwn own count) (node_span self.old) }
        ensures ok { OnOk result (node_span self.new ≡ respan numbers.now count added (own_changed own count added) (node_span self.old)) }
        ensures err { OnErr result (node_span self.new ≡ node_span self.old) }
    {
        match numbers.split_first() {
            None => self.change_own(count, added, own),
            Some((number, rest)) => {
                self.parts[*number as usize - 1].change(rest, count, added, own)?;
                self.resize(count, added);
                Ok(())
            }
        }
    }

    fn change_own(&mut self, count: usize, added: usize, own: Own) -> Result<(), AllocError>
        requires resizes { Resizes count added (node_span self.old) }
        requires fits { FitsOwn own count (node_span self.old) }
        ensures ok { OnOk result (node_span self.new ≡ own_changed own count added (node_span self.old)) }
        ensures err { OnErr result (node_span self.new ≡ node_span self.old) }
    {
        match own {
            Own::Fields(digest) => {
                self.fields = self.fields - count + added;
                self.shape.set_digest(digest);
                self.resize(count, added);
            }
            Own::Entity(node) => self.give_way(node),
            Own::Part(place, node) => {
                self.parts.insert(place, node)?;
                self.resize(count, added);
            }
            Own::NoPart(place) => {
                self.parts.remove(place);
                self.resize(count, added);
            }
        }
        Ok(())
    }

    // Puts another in its place, after its delimiter.
    fn give_way(&mut self, node: Node)
        ensures { node_span self.new ≡ redelimited (delimiter_of (node_span self.old)) (node_span node) }
    {
        let delimiter = self.delimiter;
        *self = node;
        self.delimiter = delimiter;
    }

    fn resize(&mut self, count: usize, added: usize)
        requires { Resizes count added (node_span self.old) }
        ensures { node_span self.new ≡ resized count added (node_span self.old) }
    {
        self.size = self.size - count + added;
    }
}
