//! The sections directly below a section, one by one.
use crate::node::Node;
use crate::section::Section;
use std::marker::Model;

/// Sections one after another that are still to come, from the first on. Each step takes the same time.
#[derive(Drop)]
pub struct Children<'a> {
    /// The text from the first of them on, its delimiter included.
    pub(crate) rest: &'a [u8],
    pub(crate) nodes: &'a [Node],
    /// Where that text begins in the document.
    pub(crate) start: usize,
    /// Whether lines stand after the last.
    pub(crate) followed: bool,
    pub(crate) digest: bool,
    /// How many levels there may be below each.
    pub(crate) left: u8,
}

impl<'a> Model for Children<'a> {
    ghost use Rattle.std.specs.Prelude.{List, map};
    ghost use Rattle.std.specs.Coded.{coded_list};
    ghost use Rattle.mk_tree.specs.Sections.{Placed};
    ghost use Rattle.mk_tree.specs.Codes.{placed_code};

    ghost Value = { List Placed };

    ghost coded = { coded_list placed_code };

    ghost use Rattle.mk_tree.specs.Nodes.{node_span};
    ghost use Rattle.mk_tree.specs.Layouts.{placed_along, AreNodesOver};

    ghost view = { λ c. placed_along (map node_span c.nodes.now) c.rest.now c.start c.followed c.digest c.left };

    ghost invariant = { λ c. AreNodesOver c.nodes.now c.rest.now c.start c.digest c.left };
}

impl<'a> Iterator for Children<'a> {
    ghost use Rattle.std.specs.Iterator.{YieldsFirstBy, item_count};

    type Item = Section<'a>;

    ghost next_gives = { YieldsFirstBy (λ p. p) (λ s. s) };

    ghost remaining = { item_count (λ s. s) };

    fn next(&mut self) -> Option<Section<'a>> {
        let (node, others) = self.nodes.split_first()?;
        let (_, following) = self.rest.split_at(node.delimiter);
        let (raw, rest) = following.split_at(node.size);
        let section = Section {
            raw,
            node,
            start: self.start + node.delimiter,
            followed: !others.is_empty() || self.followed,
            digest: self.digest,
            left: self.left,
        };
        self.rest = rest;
        self.nodes = others;
        self.start = self.start + node.delimiter + node.size;
        Some(section)
    }
}
