//! Reading entities, in one pass from start to end.
//!
//! Each call reads from the start of a text up to the first line that is a delimiter or close line of an open boundary,
//! one of a multipart around it, and answers what stands from that line on. The search for lines that could be one is made once
//! for a text.
ghost use Rattle.std.specs.Prelude.{◌≡◌, ◌≤◌, ◌∷◌, [], false, length, map, IfOk};
ghost use Rattle.mk_line.specs.Lines.{cut as lines_of};
ghost use Rattle.mk_head.specs.Split.{fields_from};
ghost use Rattle.mk_tree.specs.Upto.{upto, beyond};
ghost use Rattle.mk_tree.specs.Spans.{span_of, no_spans};
ghost use Rattle.mk_tree.specs.Nodes.{form_of, node_span, spans_with};
ghost use Rattle.mk_tree.specs.Tree.{read};
ghost use Rattle.mk_tree.specs.Steps.{boundaries_of, KeptOfBody, KeptOfParts};

use crate::describing::{Described, describe};
use crate::marking::{
    after_delimiter, read_tail, skip_fields, skip_separator, skip_unmarked, with_boundary,
};
use crate::node::{Multi, Node, Shape};
use memchr::memmem::Finder;
use std::alloc::{AllocError, Global};

/// Reads the entity at the start, after a delimiter of this length, with at most this many levels below it: what is kept of it,
/// and what follows it.
#[cycle(reading)]
pub(crate) fn read_entity<'a>(
    alloc: Global,
    text: &'a [u8],
    delimiter: usize,
    opened: &[&[u8]],
    dashed: &Finder<'_>,
    digest: bool,
    left: u8,
) -> Result<(Node, &'a [u8]), AllocError>
    requires { dashed.now ≡ 10 ∷ 45 ∷ 45 ∷ [] }
    ensures node { IfOk result (λ r. node_span r.0 ≡ span_of digest delimiter (read left digest (upto (boundaries_of opened.now) (lines_of text.now)))) }
    ensures rest { IfOk result (λ r. lines_of r.1.now ≡ beyond (boundaries_of opened.now) (lines_of text.now)) }
{
    let after_fields = skip_fields(text, opened);
    let fields = text.len() - after_fields.len();
    let body = skip_separator(after_fields);
    let separator = after_fields.len() - body.len();
    let (shape, parts, rest) = read_body(
        alloc,
        &text[..fields],
        body,
        opened,
        dashed,
        digest,
        left,
    )?;
    let size = text.len() - rest.len();
    let node = Node {
        delimiter,
        fields,
        separator,
        size,
        shape,
        parts,
    };
    Ok((node, rest))
}

// Reads a body by what the fields before it say.
#[cycle(reading)]
fn read_body<'a>(
    alloc: Global,
    head: &[u8],
    body: &'a [u8],
    opened: &[&[u8]],
    dashed: &Finder<'_>,
    digest: bool,
    left: u8,
) -> Result<(Shape, Vec<Node>, &'a [u8]), AllocError>
    requires { dashed.now ≡ 10 ∷ 45 ∷ 45 ∷ [] }
    ensures body { IfOk result (λ r. KeptOfBody left digest (fields_from false (lines_of head.now)) (upto (boundaries_of opened.now) (lines_of body.now)) (form_of r.0) (spans_with (map node_span r.1.items) no_spans)) }
    ensures rest { IfOk result (λ r. lines_of r.2.now ≡ beyond (boundaries_of opened.now) (lines_of body.now)) }
{
    if left == 0 {
        let rest = skip_unmarked(body, opened, dashed);
        return Ok((Shape::Leaf, Vec::new(alloc), rest));
    }
    match describe(alloc, head, digest)? {
        Described::Leaf => {
            let rest = skip_unmarked(body, opened, dashed);
            Ok((Shape::Leaf, Vec::new(alloc), rest))
        }
        Described::Message => {
            let (inner, rest) = read_entity(alloc, body, 0, opened, dashed, false, left - 1)?;
            let mut parts = Vec::new(alloc);
            parts.push(inner)?;
            Ok((Shape::Message, parts, rest))
        }
        Described::Multi(boundary, digest) => {
            let (preamble, parts, last) = read_parts(
                alloc,
                body,
                &boundary,
                opened,
                dashed,
                digest,
                left - 1,
            )?;
            let (tail, rest) = read_tail(last, opened, dashed);
            let multi = Multi {
                boundary,
                digest,
                preamble,
                tail,
            };
            Ok((Shape::Multi(Box::new(alloc, multi)?), parts, rest))
        }
    }
}

// Reads a multipart's preamble and its parts, with at most this many levels below them, and answers what stands from the
// line on that ends the last part.
#[cycle(reading)]
fn read_parts<'a, 'b>(
    alloc: Global,
    body: &'a [u8],
    boundary: &'b [u8],
    opened: &[&'b [u8]],
    dashed: &Finder<'_>,
    digest: bool,
    left: u8,
) -> Result<(usize, Vec<Node>, &'a [u8]), AllocError>
    requires { dashed.now ≡ 10 ∷ 45 ∷ 45 ∷ [] }
    ensures { IfOk result (λ r. KeptOfParts left digest (boundaries_of opened.now) boundary.now (lines_of body.now) r.0 (spans_with (map node_span r.1.items) no_spans) (lines_of r.2.now)) }
{
    let inside = with_boundary(alloc, opened, boundary)?;
    let mut rest = skip_unmarked(body, &inside, dashed);
    let preamble = body.len() - rest.len();
    let mut parts = Vec::new(alloc);
    'each: while let Some(start) = after_delimiter(rest, boundary, opened) {
        let delimiter = rest.len() - start.len();
        let (part, next) = read_entity(alloc, start, delimiter, &inside, dashed, digest, left)?;
        parts.push(part)?;
        rest = next;
    }
    Ok((preamble, parts, rest))
}
