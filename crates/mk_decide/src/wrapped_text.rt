//! The bytes of a section that becomes the one part of a multipart (RFC 2046, 5.1).
ghost use Rattle.std.specs.Prelude.{◌≡◌, ◌++◌, nat_eq, codes, IfOk, OnOk};
ghost use Rattle.std.specs.List.{starts_with};
ghost use Rattle.mk_line.specs.Lines.{cut as lines_of, ending_bytes, printed_line};
ghost use Rattle.mk_line.specs.Views.{line_of};
ghost use Rattle.mk_head.specs.Values.{lowered};
ghost use Rattle.mk_tree.specs.Sections.{body_text, head_text, raw_of};
ghost use Rattle.mk_decide.specs.FieldEdits.{starts_named};
ghost use Rattle.mk_decide.specs.WrapAnswers.{close_bytes, content_part, delimiter_bytes, end_part, gains_end as may_gain_end, is_leaf as is_leaf_entity, other_part, separator_part, separator_text, type_bytes, version_bytes, names_field};
ghost use Rattle.mk_decide.specs.Wrapping.{is_content_line as is_line_of_content};

use mk_head::push_multipart_type;
use mk_line::{Ending, Line, cut, eol_of, name_len, push_close, push_delimiter};
use mk_tree::{Kind, Section};
use std::alloc::{AllocError, Global};

const CONTENT: &[u8; 8] = b"content-";

const VERSION: &[u8; 12] = b"MIME-Version";

/// The fields of a section that describe its content, and the others.
#[derive(Debug, Drop)]
pub(crate) struct Divided {
    pub content: Vec<u8>,
    pub others: Vec<u8>,
}

/// Divides the fields at the start of a text.
pub(crate) fn divide(alloc: Global, head: &[u8]) -> Result<Divided, AllocError>
    ensures content { IfOk result (λ d. d.content.items ≡ content_part head.now) }
    ensures others { IfOk result (λ d. d.others.items ≡ other_part head.now) }
{
    let mut content = Vec::new(alloc);
    let mut others = Vec::new(alloc);
    let mut inside = false;
    for line in cut(head) {
        inside = is_content_line(&line, inside);
        if inside {
            push_line(&mut content, &line)?;
        } else {
            push_line(&mut others, &line)?;
        }
    }
    Ok(Divided { content, others })
}

fn push_line(fields: &mut Vec<u8>, line: &Line<'_>) -> Result<(), AllocError>
    ensures { OnOk result (fields.new.items ≡ fields.old.items ++ printed_line (line_of line.now)) }
{
    fields.extend_from_slice(line.content)?;
    fields.extend_from_slice(line.ending.bytes())
}

// Whether a line belongs to a field that describes the content; inside: one stands before it.
fn is_content_line(line: &Line<'_>, inside: bool) -> bool
    ensures { result ≡ is_line_of_content inside (line_of line.now) }
{
    match name_len(line.content) {
        Some(size) => describes_content(&line.content[..size]),
        None => inside,
    }
}

// Whether a name begins with Content-, without regard to ASCII case.
fn describes_content(name: &[u8]) -> bool
    ensures { result ≡ starts_with nat_eq (lowered name.now) (codes "content-") }
{
    match name.get(..CONTENT.len()) {
        Some(front) => front.eq_ignore_ascii_case(CONTENT),
        None => false,
    }
}

// Whether some field says the MIME version.
fn names_version(fields: &[u8]) -> bool
    ensures { result ≡ names_field (codes "MIME-Version") (lines_of fields.now) }
{
    for line in cut(fields) {
        if starts_version(&line) {
            return true;
        }
    }
    false
}

fn starts_version(line: &Line<'_>) -> bool
    ensures { result ≡ starts_named (codes "MIME-Version") (line_of line.now) }
{
    match name_len(line.content) {
        Some(size) => line.content[..size].eq_ignore_ascii_case(VERSION),
        None => false,
    }
}

/// The lines that are made, each with its ending.
#[derive(Debug, Drop)]
pub(crate) struct Made {
    /// `MIME-Version: 1.0`, or nothing.
    pub version: Vec<u8>,
    pub kind: Vec<u8>,
    pub delimiter: Vec<u8>,
    pub close: Vec<u8>,
}

/// Makes the lines for a section; `root`, where it is the root, which says its MIME version.
pub(crate) fn make(
    alloc: Global,
    eol: Ending,
    root: bool,
    others: &[u8],
    subtype: &[u8],
    boundary: &[u8],
) -> Result<Made, AllocError>
    ensures version { IfOk result (λ m. m.version.items ≡ version_bytes eol root others.now) }
    ensures kind { IfOk result (λ m. m.kind.items ≡ type_bytes eol subtype.now boundary.now) }
    ensures delimiter { IfOk result (λ m. m.delimiter.items ≡ delimiter_bytes eol boundary.now) }
    ensures close { IfOk result (λ m. m.close.items ≡ close_bytes eol boundary.now) }
{
    let version = version_line(alloc, eol, root, others)?;
    let mut kind = Vec::new(alloc);
    push_multipart_type(&mut kind, subtype, boundary, eol)?;
    let mut delimiter = Vec::new(alloc);
    push_delimiter(&mut delimiter, boundary, eol)?;
    let mut close = Vec::new(alloc);
    push_close(&mut close, boundary, eol)?;
    Ok(Made {
        version,
        kind,
        delimiter,
        close,
    })
}

fn version_line(
    alloc: Global,
    eol: Ending,
    root: bool,
    others: &[u8],
) -> Result<Vec<u8>, AllocError>
    ensures { IfOk result (λ v. v.items ≡ version_bytes eol root others.now) }
{
    let mut line = Vec::new(alloc);
    if root && !names_version(others) {
        line.extend_from_slice(b"MIME-Version: 1.0")?;
        line.extend_from_slice(eol.bytes())?;
    }
    Ok(line)
}

/// The made lines, one after another.
pub(crate) fn all_made(alloc: Global, made: &Made) -> Result<Vec<u8>, AllocError>
    ensures { IfOk result (λ v. v.items ≡ ((made.now.version.items ++ made.now.kind.items) ++ made.now.delimiter.items) ++ made.now.close.items) }
{
    let mut lines = Vec::from_slice(alloc, &made.version)?;
    lines.extend_from_slice(&made.kind)?;
    lines.extend_from_slice(&made.delimiter)?;
    lines.extend_from_slice(&made.close)?;
    Ok(lines)
}

/// The bytes of a section, apart.
#[derive(Clone, Copy, Debug)]
pub(crate) struct Apart<'a> {
    pub head: &'a [u8],
    pub separator: &'a [u8],
    pub body: &'a [u8],
}

/// Takes the bytes of a section apart.
pub(crate) fn take_apart<'a>(section: &Section<'_>, raw: &'a [u8]) -> Apart<'a>
    requires { raw.now ≡ raw_of section.now }
    ensures head { result.head.now ≡ head_text section.now }
    ensures separator { result.separator.now ≡ separator_text section.now }
    ensures body { result.body.now ≡ body_text section.now }
{
    let (head, rest) = raw.split_at(section.head().len());
    let (separator, body) = rest.split_at(rest.len() - section.body().len());
    Apart {
        head,
        separator,
        body,
    }
}

/// What a multipart is made of around a section.
#[derive(Debug, Drop)]
pub(crate) struct Wrapping<'a> {
    /// How the lines of the text end.
    pub eol: Ending,
    pub apart: Apart<'a>,
    pub divided: Divided,
    pub made: Made,
}

impl<'a> Wrapping<'a> {
    ghost use Rattle.std.specs.Prelude.{◌≡◌, IfOk};
    ghost use Rattle.mk_line.specs.Lines.{cut as lines_of, eol_of as text_ending};
    ghost use Rattle.mk_tree.specs.Sections.{body_text, head_text, raw_of};
    ghost use Rattle.mk_decide.specs.WrapAnswers.{close_bytes, content_part, delimiter_bytes, other_part, separator_text, type_bytes, version_bytes};

    /// Takes the bytes of a section apart, and makes the new lines; `root`, where it is the root.
    pub(crate) fn make(
        alloc: Global,
        text: &[u8],
        root: bool,
        section: &Section<'_>,
        raw: &'a [u8],
        subtype: &[u8],
        boundary: &[u8],
    ) -> Result<Wrapping<'a>, AllocError>
        requires { raw.now ≡ raw_of section.now }
        ensures ending { IfOk result (λ w. w.eol ≡ text_ending (lines_of text.now)) }
        ensures head { IfOk result (λ w. w.apart.head.now ≡ head_text section.now) }
        ensures separator { IfOk result (λ w. w.apart.separator.now ≡ separator_text section.now) }
        ensures body { IfOk result (λ w. w.apart.body.now ≡ body_text section.now) }
        ensures others { IfOk result (λ w. w.divided.others.items ≡ other_part (head_text section.now)) }
        ensures content { IfOk result (λ w. w.divided.content.items ≡ content_part (head_text section.now)) }
        ensures version { IfOk result (λ w. w.made.version.items ≡ version_bytes (text_ending (lines_of text.now)) root (other_part (head_text section.now))) }
        ensures kind { IfOk result (λ w. w.made.kind.items ≡ type_bytes (text_ending (lines_of text.now)) subtype.now boundary.now) }
        ensures delimiter { IfOk result (λ w. w.made.delimiter.items ≡ delimiter_bytes (text_ending (lines_of text.now)) boundary.now) }
        ensures close { IfOk result (λ w. w.made.close.items ≡ close_bytes (text_ending (lines_of text.now)) boundary.now) }
    {
        let eol = eol_of(text);
        let apart = take_apart(section, raw);
        let divided = divide(alloc, apart.head)?;
        let made = make(alloc, eol, root, &divided.others, subtype, boundary)?;
        Ok(Wrapping {
            eol,
            apart,
            divided,
            made,
        })
    }
}

/// Whether the body of a section gets an ending: where it is a leaf that no line follows.
pub(crate) fn gains_end(section: &Section<'_>) -> bool
    ensures { result ≡ may_gain_end section.now }
{
    !section.followed() && is_leaf(section)
}

pub(crate) fn is_leaf(section: &Section<'_>) -> bool
    ensures { result ≡ is_leaf_entity section.now.entity }
{
    section.kind() == Kind::Leaf
}

/// All bytes of the multipart.
pub(crate) fn wrapped(
    alloc: Global,
    eol: Ending,
    section: &Section<'_>,
    apart: &Apart<'_>,
    divided: &Divided,
    made: &Made,
) -> Result<Vec<u8>, AllocError>
    ensures { IfOk result (λ v. v.items ≡ (((((divided.now.others.items ++ made.now.version.items) ++ made.now.kind.items) ++ ending_bytes eol) ++ made.now.delimiter.items) ++ (((divided.now.content.items ++ separator_part eol apart.now.separator.now) ++ apart.now.body.now) ++ end_part eol section.now)) ++ made.now.close.items) }
{
    let part = part_text(alloc, eol, section, apart, &divided.content)?;
    let mut new = Vec::from_slice(alloc, &divided.others)?;
    new.extend_from_slice(&made.version)?;
    new.extend_from_slice(&made.kind)?;
    new.extend_from_slice(eol.bytes())?;
    new.extend_from_slice(&made.delimiter)?;
    new.extend_from_slice(&part)?;
    new.extend_from_slice(&made.close)?;
    Ok(new)
}

// The bytes of the part.
fn part_text(
    alloc: Global,
    eol: Ending,
    section: &Section<'_>,
    apart: &Apart<'_>,
    content: &[u8],
) -> Result<Vec<u8>, AllocError>
    ensures { IfOk result (λ v. v.items ≡ ((content.now ++ separator_part eol apart.now.separator.now) ++ apart.now.body.now) ++ end_part eol section.now) }
{
    let mut part = Vec::from_slice(alloc, content)?;
    part.extend_from_slice(separator_or(eol, apart.separator))?;
    part.extend_from_slice(apart.body)?;
    part.extend_from_slice(end_text(eol, section))?;
    Ok(part)
}

// A separator, made where there is none.
fn separator_or<'a>(eol: Ending, separator: &'a [u8]) -> &'a [u8]
    ensures { result.now ≡ separator_part eol separator.now }
{
    if separator.is_empty() {
        eol.bytes()
    } else {
        separator
    }
}

// The ending that the body gets, or nothing.
fn end_text(eol: Ending, section: &Section<'_>) -> &'static [u8]
    ensures { result.now ≡ end_part eol section.now }
{
    if gains_end(section) { eol.bytes() } else { b"" }
}
