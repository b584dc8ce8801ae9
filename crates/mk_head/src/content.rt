//! Content types: type, subtype and parameters (RFC 2045, 5.1 and 5.2).
ghost use Rattle.std.specs.Prelude.{◌≡◌, ◌++◌, ◌∷◌, [], map, IfOk, OnOk, OnErr};
ghost use Rattle.std.specs.List.{list_all};
ghost use Rattle.mk_line.specs.Ascii.{equals_sign, slash};
ghost use Rattle.mk_line.specs.Parting.{before, following};
ghost use Rattle.mk_line.specs.inner.Kept.{IsKept};
ghost use Rattle.mk_head.specs.Values.{Plain, content_type_of, is_token as token, is_token_byte as token_byte, lowered, media_type, parameter_before, parameter_value as value_of_parameter, parameters as parameters_of, pieces, stripped, type_of_pieces, typed_as};
ghost use Rattle.mk_head.specs.Depths.{pieces_after};
ghost use Rattle.mk_head.specs.ValueViews.{media_type_of, parameter_of};

use crate::scanning::{OPENING, QUOTE, piece_end, uncomment, unquote};
use memchr::memchr;
use mk_line::{leading_blanks, split_at_first, trimmed};
use std::alloc::{AllocError, Global};

const EQUALS: u8 = b'=';

const SLASH: u8 = b'/';

const FIRST_OF_TOKEN: u8 = b'!';

const LAST_OF_TOKEN: u8 = b'~';

/// A content type.
#[derive(Debug, Drop)]
pub struct ContentType {
    /// The type, in lower case.
    pub main: Vec<u8>,
    /// The subtype, in lower case.
    pub sub: Vec<u8>,
    /// Names in lower case, and values, in their order.
    pub params: Vec<(Vec<u8>, Vec<u8>)>,
}

impl ContentType {
    ghost use Rattle.std.specs.Prelude.{◌≡◌};
    ghost use Rattle.std.specs.Option.{option_map};
    ghost use Rattle.mk_head.specs.Values.{param_of};
    ghost use Rattle.mk_head.specs.ValueViews.{media_type_of};

    /// The value of the first parameter of a name; names are compared byte for byte.
    pub fn param(&self, name: &[u8]) -> Option<&[u8]>
        ensures { option_map (λ v. v.now) result ≡ param_of name.now (media_type_of self.now).params }
    {
        for param in &self.params {
            if param.0.as_slice() == name {
                return Some(&param.1);
            }
        }
        None
    }
}

/// The content type that the value of a field says, on any bytes. What isn't a type is text/plain, and keeps its
/// parameters.
pub fn content_type(alloc: Global, value: &[u8]) -> Result<ContentType, AllocError>
    ensures { IfOk result (λ t. media_type_of t ≡ content_type_of value.now) }
{
    let kept = uncomment(alloc, value)?;
    let text = kept.as_slice();
    let (first, others) = text.split_at(piece_end(text));
    let params = parameters(alloc, others)?;
    typed(alloc, first, params)
}

/// Appends the type and the subtype that the value of a field says, with a slash between them, as `text/plain`. The parameters
/// aren't read, and memory is asked for only to append, and for a value with comments. After an error the text is as before.
pub fn push_media_type(text: &mut Vec<u8>, value: &[u8]) -> Result<(), AllocError>
    ensures appended { OnOk result (text.new.items ≡ text.old.items ++ ((content_type_of value.now).main ++ slash ∷ (content_type_of value.now).sub)) }
    ensures unchanged { OnErr result (text.new.items ≡ text.old.items) }
{
    match memchr(OPENING, value) {
        None => push_first_type(text, value),
        Some(_) => {
            let kept = uncomment(*text.allocator(), value)?;
            push_first_type(text, &kept)
        }
    }
}

// The same for a value without comments.
fn push_first_type(text: &mut Vec<u8>, value: &[u8]) -> Result<(), AllocError>
    ensures appended { OnOk result (text.new.items ≡ text.old.items ++ ((type_of_pieces (pieces Plain value.now)).main ++ slash ∷ (type_of_pieces (pieces Plain value.now)).sub)) }
    ensures unchanged { OnErr result (text.new.items ≡ text.old.items) }
{
    let (first, _) = value.split_at(piece_end(value));
    let (main, sub) = names(strip(first));
    let size = text.len();
    let pushed = push_names(text, main, sub);
    if pushed.is_err() {
        text.truncate(size);
    }
    pushed
}

// Appends a type and a subtype in lower case, with a slash between them; after an error some of it may follow the text.
fn push_names(text: &mut Vec<u8>, main: &[u8], sub: &[u8]) -> Result<(), AllocError>
    ensures appended { OnOk result (text.new.items ≡ text.old.items ++ (lowered main.now ++ slash ∷ lowered sub.now)) }
    ensures kept { IsKept text.old.items text.new.items }
{
    push_lowercase(text, main)?;
    text.push(SLASH)?;
    push_lowercase(text, sub)
}

// Appends a text in lower case.
fn push_lowercase(text: &mut Vec<u8>, more: &[u8]) -> Result<(), AllocError>
    ensures appended { OnOk result (text.new.items ≡ text.old.items ++ lowered more.now) }
    ensures unchanged { OnErr result (text.new.items ≡ text.old.items) }
{
    let start = text.len();
    text.extend_from_slice(more)?;
    text[start..].make_ascii_lowercase();
    Ok(())
}

/// Whether the text is a token: one or more bytes 33 to 126 that are no special of RFC 2045, 5.1.
pub fn is_token(text: &[u8]) -> bool
    ensures { result ≡ token text.now }
{
    !text.is_empty() && are_token_bytes(text)
}

fn are_token_bytes(text: &[u8]) -> bool
    ensures { result ≡ list_all token_byte text.now }
{
    text.iter().all(|byte| is_token_byte(*byte))
}

fn is_token_byte(byte: u8) -> bool
    ensures { result ≡ token_byte byte }
{
    match byte {
        b'('
        | b')'
        | b'<'
        | b'>'
        | b'@'
        | b','
        | b';'
        | b':'
        | b'\\'
        | b'"'
        | b'/'
        | b'['
        | b']'
        | b'?'
        | b'=' => false,
        _ => byte >= FIRST_OF_TOKEN && byte <= LAST_OF_TOKEN,
    }
}

// The content type of its first piece, with these parameters.
fn typed(
    alloc: Global,
    piece: &[u8],
    params: Vec<(Vec<u8>, Vec<u8>)>,
) -> Result<ContentType, AllocError>
    ensures { IfOk result (λ t. media_type_of t ≡ typed_as (before slash (stripped piece.now)) (following slash (stripped piece.now)) (map parameter_of params.items)) }
{
    let (main, sub) = names(strip(piece));
    let main = lowercase(alloc, main)?;
    let sub = lowercase(alloc, sub)?;
    Ok(ContentType { main, sub, params })
}

// The type and the subtype of a text, as they are spelt, and those of plain text where it is no type.
fn names(text: &[u8]) -> (&[u8], &[u8])
    ensures { media_type (lowered result.0.now) (lowered result.1.now) [] ≡ typed_as (before slash text.now) (following slash text.now) [] }
{
    if let Some((main, sub)) = split_at_first(text, SLASH) {
        if is_token(main) && is_token(sub) {
            return (main, sub);
        }
    }
    (b"text", b"plain")
}

// The parameters of pieces, each of which a semicolon stands before.
fn parameters(alloc: Global, text: &[u8]) -> Result<Vec<(Vec<u8>, Vec<u8>)>, AllocError>
    ensures { IfOk result (λ ps. map parameter_of ps.items ≡ parameters_of (pieces_after text.now)) }
{
    let mut params = Vec::new(alloc);
    let mut rest = text;
    'each: while let [_, following @ ..] = rest {
        let (piece, others) = following.split_at(piece_end(following));
        push_parameter(alloc, &mut params, piece)?;
        rest = others;
    }
    Ok(params)
}

// Puts the parameter that a piece is after others. Other pieces are skipped.
fn push_parameter(
    alloc: Global,
    params: &mut Vec<(Vec<u8>, Vec<u8>)>,
    piece: &[u8],
) -> Result<(), AllocError>
    ensures { OnOk result (map parameter_of params.new.items ≡ map parameter_of params.old.items ++ parameter_before (before equals_sign piece.now) (following equals_sign piece.now) []) }
{
    if let Some((name, value)) = split_at_first(piece, EQUALS) {
        let name = lowercase(alloc, strip(name))?;
        let value = parameter_value(alloc, strip(value))?;
        params.push((name, value))?;
    }
    Ok(())
}

// The value of a parameter: a quoted string is unquoted.
fn parameter_value(alloc: Global, text: &[u8]) -> Result<Vec<u8>, AllocError>
    ensures { IfOk result (λ v. v.items ≡ value_of_parameter text.now) }
{
    match text {
        [first, rest @ ..] if *first == QUOTE => unquote(alloc, rest),
        _ => Vec::from_slice(alloc, text),
    }
}

// The text without the blanks at both ends.
fn strip(text: &[u8]) -> &[u8]
    ensures { result.now ≡ stripped text.now }
{
    trimmed(&text[leading_blanks(text)..])
}

// The text in lower case.
fn lowercase(alloc: Global, text: &[u8]) -> Result<Vec<u8>, AllocError>
    ensures { IfOk result (λ v. v.items ≡ lowered text.now) }
{
    text.to_ascii_lowercase(alloc)
}
