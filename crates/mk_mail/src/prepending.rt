//! `--prepend`: a text put before what fields say.

ghost use Rattle.std.specs.Prelude.{◌≡◌, ◌≢◌, ◌≤◌, ◌+◌, if◌then◌else◌, None, Some, IfOk, length, nat_lt};
ghost use Rattle.std.specs.List.{prefix_len};
ghost use Rattle.mk_decide.specs.Edits.{SetField};
ghost use Rattle.mk_decide.specs.Views.{edit_of};
ghost use Rattle.mk_mail.specs.LetterViews.{prepend_of};
ghost use Rattle.mk_mail.specs.LetterWork.{plain_edits};
ghost use Rattle.mk_mail.specs.Letters.{fields_at, most_prepended, prepending};
ghost use Rattle.mk_mail.specs.Prepended.{before_text as made_before_text, before_word as made_before_word, begins_word as word_begins, ends_blank as blank_ends, gap_after as gap_of, is_break as breaks, is_one_line as one_line, is_white as white, prepended as field_prepended, said_at as says_at, text_before as made_before, text_place as place_of};

use crate::section_names::head_at;
use crate::word_texts::text_for_words;
use mk_code::words_encode;
use mk_edit::Edit;
use mk_head::each_field;
use mk_line::{Ending, is_blank, is_name, leading_blanks, split_at_first, trimmed};
use mk_tree::Doc;
use std::alloc::{AllocError, Global};

/// How many fields of a name get a text. Each edit looks for its field from the first, so very many would take long.
const MOST_PREPENDED: u32 = 100;

const COLON: u8 = b':';

const LINE_FEED: u8 = b'\n';

const CARRIAGE_RETURN: u8 = b'\r';

const SPACE: u8 = b' ';

/// The bytes that an encoded word begins with.
const EQUALS: u8 = b'=';

const QUESTION_MARK: u8 = b'?';

/// A text that goes before what the fields of a name say.
#[derive(Debug, Drop)]
pub struct Prepend {
    /// The name of the fields.
    pub name: Vec<u8>,
    /// The text, one line, as people write it.
    pub text: Vec<u8>,
}

impl Prepend {
    ghost use Rattle.std.specs.Prelude.{◌≡◌};
    ghost use Rattle.mk_mail.specs.LetterViews.{prepend_of};
    ghost use Rattle.mk_mail.specs.Prepended.{is_prepend};

    // Whether its name is valid, and its text is one line that isn't empty.
    pub(crate) fn ok(&self) -> bool
        ensures { result ≡ is_prepend (prepend_of self.now) }
    {
        is_name(&self.name) && !self.text.is_empty() && is_one_line(&self.text)
    }
}

/// The edits that put a text before what the fields of a name in the section at a path say, the first hundred of them.
pub(crate) fn prepend_edits(
    alloc: Global,
    doc: &Doc,
    path: &[u32],
    prepend: &Prepend,
    eol: Ending,
) -> Result<Vec<Edit>, AllocError>
    requires { eol ≢ Ending.Missing }
    ensures { IfOk result (λ edits. plain_edits edits.items ≡ prepending path.now eol (prepend_of prepend.now) (Some 1) (fields_at path.now doc.now)) }
{
    let mut edits = Vec::new(alloc);
    let mut next = Some(1u32);
    for field in each_field(head_at(doc, path)) {
        if let Some(k) = next {
            if field.is_named(&prepend.name) {
                edits.push(prepend_edit(alloc, path, prepend, k, field.raw, eol)?)?;
                next = next_number(k);
            }
        }
    }
    Ok(edits)
}

// The number of the next field that gets the text, if one more does.
fn next_number(k: u32) -> Option<u32>
    ensures { result ≡ if nat_lt k most_prepended then Some (k + 1) else None }
{
    if k < MOST_PREPENDED {
        Some(k + 1)
    } else {
        None
    }
}

// The edit that puts a text before what one of these fields says.
fn prepend_edit(
    alloc: Global,
    path: &[u32],
    prepend: &Prepend,
    k: u32,
    field: &[u8],
    eol: Ending,
) -> Result<Edit, AllocError>
    requires { eol ≢ Ending.Missing }
    ensures { IfOk result (λ edit. let p = prepend_of prepend.now in edit_of edit ≡ SetField path.now p.name k (field_prepended eol p.text field.now)) }
{
    Ok(Edit::SetField {
        path: Vec::from_slice(alloc, path)?,
        name: Vec::from_slice(alloc, &prepend.name)?,
        k,
        text: prepended(alloc, field, &prepend.text, eol)?,
    })
}

// The field with a text before what it says.
fn prepended(alloc: Global, field: &[u8], text: &[u8], eol: Ending) -> Result<Vec<u8>, AllocError>
    requires { eol ≢ Ending.Missing }
    ensures { IfOk result (λ made. made.items ≡ field_prepended eol text.now field.now) }
{
    let (front, value) = field.split_at(text_place(field));
    let mut made = Vec::from_slice(alloc, front)?;
    made.extend_from_slice(&text_before(alloc, text, value, eol)?)?;
    made.extend_from_slice(value)?;
    Ok(made)
}

// Where a field begins to say something.
fn text_place(field: &[u8]) -> usize
    ensures place { result ≡ place_of field.now }
    ensures within { result ≤ length field.now }
{
    match split_at_first(field, COLON) {
        Some((_, value)) => field.len() - value.len() + said_at(value),
        None => field.len(),
    }
}

// Where a value begins to say something: after its white space, if more follows it.
fn said_at(value: &[u8]) -> usize
    ensures place { result ≡ says_at value.now }
    ensures within { result ≤ length value.now }
{
    let white = leading_white(value);
    if white == value.len() {
        leading_blanks(value)
    } else {
        white
    }
}

fn leading_white(value: &[u8]) -> usize
    ensures front { result ≡ prefix_len white value.now }
    ensures within { result ≤ length value.now }
{
    value.iter().take_while(|byte| is_white(**byte)).count()
}

fn is_white(byte: u8) -> bool
    ensures { result ≡ white byte }
{
    is_blank(byte) || is_break(byte)
}

fn is_break(byte: u8) -> bool
    ensures { result ≡ breaks byte }
{
    byte == CARRIAGE_RETURN || byte == LINE_FEED
}

fn is_one_line(text: &[u8]) -> bool
    ensures { result ≡ one_line text.now }
{
    text.iter().all(|byte| !is_break(*byte))
}

// What is put before a value for a text.
fn text_before(alloc: Global, text: &[u8], value: &[u8], eol: Ending) -> Result<Vec<u8>, AllocError>
    requires { eol ≢ Ending.Missing }
    ensures { IfOk result (λ made. made.items ≡ made_before eol text.now value.now) }
{
    if begins_word(value) {
        before_word(alloc, text, eol)
    } else {
        before_text(alloc, text, eol)
    }
}

fn begins_word(value: &[u8]) -> bool
    ensures { result ≡ word_begins value.now }
{
    matches!(value, [EQUALS, QUESTION_MARK, ..])
}

// The text as it is put before an encoded word.
fn before_word(alloc: Global, text: &[u8], eol: Ending) -> Result<Vec<u8>, AllocError>
    requires { eol ≢ Ending.Missing }
    ensures { IfOk result (λ made. made.items ≡ made_before_word eol text.now) }
{
    let (mut made, spaced) = match text_for_words(text) {
        Some(text) => (words_encode(alloc, text, eol)?, false),
        None => (Vec::from_slice(alloc, text)?, ends_blank(text)),
    };
    if !spaced {
        made.push(SPACE)?;
    }
    Ok(made)
}

// The text as it is put before any other value.
fn before_text(alloc: Global, text: &[u8], eol: Ending) -> Result<Vec<u8>, AllocError>
    requires { eol ≢ Ending.Missing }
    ensures { IfOk result (λ made. made.items ≡ made_before_text eol text.now) }
{
    match text_for_words(trimmed(text)) {
        Some(said) => {
            let mut made = words_encode(alloc, said, eol)?;
            made.extend_from_slice(gap_after(text))?;
            Ok(made)
        }
        None => Vec::from_slice(alloc, text),
    }
}

// The blanks at the end of a text, or a space if it has none there.
fn gap_after(text: &[u8]) -> &[u8]
    ensures { result.now ≡ gap_of text.now }
{
    if ends_blank(text) {
        &text[trimmed(text).len()..]
    } else {
        b" "
    }
}

fn ends_blank(text: &[u8]) -> bool
    ensures { result ≡ blank_ends text.now }
{
    trimmed(text).len() < text.len()
}
