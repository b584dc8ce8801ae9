//! Parameters that aren't ASCII, with a charset (RFC 2231, 4).

ghost use Rattle.std.specs.Prelude.{◌≡◌, ◌≢◌, false, IfOk};
ghost use Rattle.std.specs.List.{list_all};
ghost use Rattle.std.specs.Option.{option_map};
ghost use Rattle.mk_head.specs.Values.{Plain};
ghost use Rattle.mk_param.specs.Percents.{is_attribute_byte as attribute_byte};
ghost use Rattle.mk_wording.specs.Parameters.{charset_parameter as parameter_with_charset, ends_quoted as quoted_to_the_end, is_attribute as attribute, is_bare_byte as bare_byte, is_whole_value as whole_value, parameter_first as first_in_words, worded_parameter as parameter_in_words};
ghost use Rattle.mk_wording.specs.Stretches.{stretches};

use crate::stretches::{
    Outside, are_ascii, first_stretch, name_said, push_comment, split_indent, worded_text,
};
use mk_head::is_token;
use mk_line::{Ending, trimmed};
use mk_param::push_percent;
use mk_script::parted;
use std::alloc::{AllocError, Global};

const EQUALS: u8 = b'=';

const QUOTE: u8 = b'"';

const BACKSLASH: u8 = b'\\';

/// What stands between the name of a parameter and its value in UTF-8.
const CHARSET: &[u8; 9] = b"*=utf-8''";

/// A parameter with its charset, where it isn't ASCII, and the comments after it. `None` where that can't be, or another byte
/// isn't ASCII.
pub(crate) fn parameter_first(
    alloc: Global,
    text: &[u8],
    eol: Ending,
) -> Result<Option<Vec<u8>>, AllocError>
    requires { eol ≢ Ending.Missing }
    ensures { IfOk result (λ worded. option_map (λ v. v.items) worded ≡ first_in_words eol (stretches Plain text.now)) }
{
    let (stretch, more) = first_stretch(text);
    let Some(mut worded) = worded_parameter(alloc, stretch.outside)? else {
        return Ok(None);
    };
    push_comment(alloc, &mut worded, stretch, eol)?;
    if stretch.end.is_empty() {
        return Ok(Some(worded));
    }
    match worded_text(alloc, more, Outside::Ascii, eol)? {
        Some(rest) => {
            worded.extend_from_slice(&rest)?;
            Ok(Some(worded))
        }
        None => Ok(None),
    }
}

// A parameter with its charset, where it isn't ASCII.
fn worded_parameter(alloc: Global, text: &[u8]) -> Result<Option<Vec<u8>>, AllocError>
    ensures { IfOk result (λ worded. option_map (λ v. v.items) worded ≡ parameter_in_words text.now) }
{
    if are_ascii(text) {
        return Ok(Some(Vec::from_slice(alloc, text)?));
    }
    let Some((name, value)) = parted(text, EQUALS) else {
        return Ok(None);
    };
    let (white, name) = split_indent(name);
    let (_, value) = split_indent(value);
    charset_parameter(alloc, white, trimmed(name), trimmed(value))
}

// A parameter of a name and a value with its charset.
fn charset_parameter(
    alloc: Global,
    white: &[u8],
    name: &[u8],
    value: &[u8],
) -> Result<Option<Vec<u8>>, AllocError>
    ensures { IfOk result (λ worded. option_map (λ v. v.items) worded ≡ parameter_with_charset white.now name.now value.now) }
{
    if !is_attribute(name) || !is_whole_value(value) {
        return Ok(None);
    }
    let mut worded = Vec::from_slice(alloc, white)?;
    worded.extend_from_slice(name)?;
    worded.extend_from_slice(CHARSET)?;
    push_percent(&mut worded, &name_said(alloc, value)?)?;
    Ok(Some(worded))
}

// Whether the name can stand before a charset.
fn is_attribute(name: &[u8]) -> bool
    ensures { result ≡ attribute name.now }
{
    !name.is_empty() && are_attribute_bytes(name)
}

fn are_attribute_bytes(name: &[u8]) -> bool
    ensures { result ≡ list_all attribute_byte name.now }
{
    name.iter().all(|byte| is_attribute_byte(*byte))
}

fn is_attribute_byte(byte: u8) -> bool
    ensures { result ≡ attribute_byte byte }
{
    is_token(&[byte]) && !(byte == b'*' || byte == b'\'' || byte == b'%')
}

// Whether a value has no quotes, or is one quoted string.
fn is_whole_value(value: &[u8]) -> bool
    ensures { result ≡ whole_value value.now }
{
    match value {
        [QUOTE, following @ ..] => ends_quoted(following),
        [_, ..] => are_bare_bytes(value),
        [] => false,
    }
}

fn are_bare_bytes(value: &[u8]) -> bool
    ensures { result ≡ list_all bare_byte value.now }
{
    value.iter().all(|byte| is_bare_byte(*byte))
}

fn is_bare_byte(byte: u8) -> bool
    ensures { result ≡ bare_byte byte }
{
    !(byte == QUOTE || byte == BACKSLASH)
}

// Whether the quote that ends a quoted string is the last byte.
fn ends_quoted(text: &[u8]) -> bool
    ensures { result ≡ quoted_to_the_end false text.now }
{
    let mut is_escaped = false;
    for (place, byte) in text.iter().enumerate() {
        if is_escaped {
            is_escaped = false;
        } else if *byte == BACKSLASH {
            is_escaped = true;
        } else if *byte == QUOTE {
            return place + 1 == text.len();
        }
    }
    false
}
