//! What calls give for the rows of tables, as text.
use mk_code::{
    Encoding, b64_encode, decode, decode_front, qp_encode, text_decode, words_decode, words_encode,
};
use mk_head::{
    Field, content_type, each_field, encoding, header, is_boundary, is_token, one_field, unfold,
};
use mk_line::{Ending, Line, cut, eol_of, is_continuation, is_delimiter, is_from_line, name_len};
use mk_rows::{Row, rows};
use std::alloc::{AllocError, Global};
use std::fmt::Debug;
use std::process::Abort;
use std::test::Fail;

/// A call that takes the cell `text` of a row, and others where they are named.
#[derive(Clone, Copy)]
pub enum Call {
    /// Its lines, each with the word for its ending.
    Lines,
    /// Whether it is a delimiter of the multipart with the `boundary`.
    Delimiter,
    /// The fields of its header by their numbers, from 0 to one more than there are; its separator; and its body.
    Header,
    /// The fields of its header one by one.
    Fields,
    /// The field of its header with the `name` and the `number`.
    Find,
    /// The value of the field that it is.
    Value,
    /// The type that it is, and the parameters.
    ContentType,
    /// Its content, which is in the `encoding`.
    Decode,
    /// What decodes of base64 that may not be whole.
    DecodeFront,
    QpWithLf,
    QpWithCrlf,
    Base64WithLf,
    Base64WithCrlf,
    DecodeWords,
    DecodeText,
    WordsWithLf,
    WordsWithCrlf,
}

/// A call that takes bytes alone, and gives a word.
#[derive(Clone, Copy)]
pub enum Question {
    Ending,
    NameLength,
    IsContinuation,
    IsFromLine,
    IsOneField,
    Encoding,
    IsBoundary,
    IsToken,
}

/// Two texts are the same.
pub fn same(rt: &impl Abort, found: &[u8], wanted: &[u8], shows: &str) {
    assert_eq!(rt; found, wanted, "{shows}");
}

/// Each row of a table has what a call gives in its cell `gives`.
pub fn check(rt: &impl Abort, alloc: Global, call: Call, table: &'static str) -> Result<(), Fail> {
    for row in &rows(alloc, table)? {
        let found = given(alloc, call, row)?;
        same(rt, &found, row.bytes("gives"), row.shows);
    }
    Ok(())
}

/// Each key of a table is the word that a call gives for the cell.
pub fn check_words(
    rt: &impl Abort,
    alloc: Global,
    question: Question,
    table: &'static str,
) -> Result<(), Fail> {
    for row in &rows(alloc, table)? {
        for cell in &row.cells {
            let word = word_for(alloc, question, &cell.bytes)?;
            same(rt, word.as_bytes(), cell.key.as_bytes(), cell.text);
        }
    }
    Ok(())
}

/// What a call gives for a row.
pub fn given(alloc: Global, call: Call, row: &Row) -> Result<Vec<u8>, Fail> {
    let text = row.bytes("text");
    match call {
        Call::Lines => lines(alloc, text),
        Call::Delimiter => delimiter(alloc, text, row.bytes("boundary")),
        Call::Header => fields_by_number(alloc, text),
        Call::Fields => fields_one_by_one(alloc, text),
        Call::Find => field_found(alloc, row),
        Call::Value => value(alloc, text),
        Call::ContentType => type_of(alloc, text),
        Call::Decode => decoded(alloc, row),
        Call::DecodeFront => Ok(decode_front(alloc, text)?),
        Call::QpWithLf => Ok(qp_encode(alloc, text, Ending::Lf)?),
        Call::QpWithCrlf => Ok(qp_encode(alloc, text, Ending::Crlf)?),
        Call::Base64WithLf => Ok(b64_encode(alloc, text, Ending::Lf)?),
        Call::Base64WithCrlf => Ok(b64_encode(alloc, text, Ending::Crlf)?),
        Call::DecodeWords => Ok(words_decode(alloc, text)?),
        Call::DecodeText => Ok(text_decode(alloc, text)?),
        Call::WordsWithLf => words_with_lf(alloc, text),
        Call::WordsWithCrlf => words_with_crlf(alloc, text),
    }
}

fn word_for(alloc: Global, question: Question, text: &[u8]) -> Result<String, AllocError> {
    match question {
        Question::Ending => debug(alloc, &eol_of(text)),
        Question::NameLength => debug(alloc, &name_len(text)),
        Question::IsContinuation => debug(alloc, &is_continuation(text)),
        Question::IsFromLine => debug(alloc, &is_from_line(text)),
        Question::IsOneField => debug(alloc, &one_field(text)),
        Question::Encoding => debug(alloc, &encoding(text)),
        Question::IsBoundary => debug(alloc, &is_boundary(text)),
        Question::IsToken => debug(alloc, &is_token(text)),
    }
}

fn debug<T: Debug>(alloc: Global, value: &T) -> Result<String, AllocError> {
    Ok(format!(in alloc; "{value:?}")?)
}

/// Adds a line, or a dash where there is none.
pub fn push_line(
    alloc: Global,
    text: &mut Vec<u8>,
    line: Option<Line<'_>>,
) -> Result<(), AllocError> {
    match line {
        Some(line) => {
            text.extend_from_slice(debug(alloc, &line.ending)?.as_bytes())?;
            text.push(b' ')?;
            text.extend_from_slice(line.content)?;
        }
        None => text.push(b'-')?,
    }
    text.push(b'|')?;
    Ok(())
}

fn lines(alloc: Global, text: &[u8]) -> Result<Vec<u8>, Fail> {
    let mut found = Vec::new(alloc);
    for line in cut(text) {
        push_line(alloc, &mut found, Some(line))?;
    }
    Ok(found)
}

fn delimiter(alloc: Global, text: &[u8], boundary: &[u8]) -> Result<Vec<u8>, Fail> {
    let mark = debug(alloc, &is_delimiter(text, boundary))?;
    Ok(Vec::from_slice(alloc, mark.as_bytes())?)
}

// Adds a field, or a dash where there is none.
fn push_field(text: &mut Vec<u8>, field: Option<Field<'_>>) -> Result<(), AllocError> {
    match field {
        Some(field) => text.extend_from_slice(field.raw)?,
        None => text.push(b'-')?,
    }
    text.push(b'|')?;
    Ok(())
}

fn fields_by_number(alloc: Global, text: &[u8]) -> Result<Vec<u8>, Fail> {
    let header = header(alloc, text)?;
    let mut found = Vec::new(alloc);
    for number in 0..=header.fields().saturating_add(1) {
        push_field(&mut found, header.field(number))?;
    }
    let (separator, body) = (header.separator(), header.body());
    let places = format!(in alloc; "separator {separator:?}, body {body}")?;
    found.extend_from_slice(places.as_bytes())?;
    Ok(found)
}

fn fields_one_by_one(alloc: Global, text: &[u8]) -> Result<Vec<u8>, Fail> {
    let mut found = Vec::new(alloc);
    for field in each_field(text) {
        push_field(&mut found, Some(field))?;
    }
    Ok(found)
}

fn field_found(alloc: Global, row: &Row) -> Result<Vec<u8>, Fail> {
    let header = header(alloc, row.bytes("text"))?;
    let field = header.find(row.bytes("name"), row.number("number"));
    let mut found = Vec::new(alloc);
    if let Some(field) = field {
        found.extend_from_slice(field.name)?;
        found.push(b'|')?;
    }
    push_field(&mut found, field)?;
    Ok(found)
}

fn value(alloc: Global, raw: &[u8]) -> Result<Vec<u8>, Fail> {
    let field = Field { name: b"A", raw };
    Ok(unfold(alloc, &field)?)
}

fn type_of(alloc: Global, text: &[u8]) -> Result<Vec<u8>, Fail> {
    let found = content_type(alloc, text)?;
    let mut line = Vec::from_slice(alloc, &found.main)?;
    line.push(b'/')?;
    line.extend_from_slice(&found.sub)?;
    for (name, value) in &found.params {
        line.push(b'|')?;
        line.extend_from_slice(name)?;
        line.push(b'=')?;
        line.extend_from_slice(value)?;
    }
    Ok(line)
}

/// The encoding that a row names.
pub fn encoding_in(row: &Row) -> Encoding {
    match row.text("encoding") {
        "identity" => Encoding::Identity,
        "quoted-printable" => Encoding::Qp,
        "base64" => Encoding::Base64,
        _ => Encoding::Other,
    }
}

// The content, or the word for the error after a remark.
fn decoded(alloc: Global, row: &Row) -> Result<Vec<u8>, Fail> {
    match decode(alloc, encoding_in(row), row.bytes("text")) {
        Ok(content) => Ok(content),
        Err(error) => {
            let reason = format!(in alloc; "refused: {error:?}")?;
            Ok(Vec::from_slice(alloc, reason.as_bytes())?)
        }
    }
}

fn words_with_lf(alloc: Global, text: &[u8]) -> Result<Vec<u8>, Fail> {
    match std::str::from_utf8(text) {
        Ok(text) => Ok(words_encode(alloc, text, Ending::Lf)?),
        Err(_) => Err(Fail::new("not a text")),
    }
}

fn words_with_crlf(alloc: Global, text: &[u8]) -> Result<Vec<u8>, Fail> {
    match std::str::from_utf8(text) {
        Ok(text) => Ok(words_encode(alloc, text, Ending::Crlf)?),
        Err(_) => Err(Fail::new("not a text")),
    }
}
