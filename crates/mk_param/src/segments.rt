//! The segments of a value that several parameters hold together, found by their numbers (RFC 2231, 3 and 4.1).
ghost use Rattle.std.specs.Prelude.{◌≡◌, ◌++◌, ℕ, List, if◌then◌else◌, Some, is_some, map, IfOk, OnOk, option_map};
ghost use Rattle.std.specs.Str.{bytes_eq};
ghost use Rattle.mk_head.specs.Values.{param_of};
ghost use Rattle.mk_head.specs.ValueViews.{parameter_of};
ghost use Rattle.mk_param.specs.Segments.{encoded_name as name_encoded, segment_at as segment_by, segment_name as name_of_segment, segments_from};
ghost use Rattle.mk_param.specs.SegmentViews.{segment_of, value_at};

use itoa::Buffer;
use std::alloc::{AllocError, Global};
use std::collections::BTreeMap;

const ASTERISK: u8 = b'*';

/// The first value of each name.
pub(crate) type Values<'a> = BTreeMap<Vec<u8>, &'a [u8]>;

/// A segment of a value: it stands as it is, or with percent signs.
#[derive(Clone, Copy)]
pub(crate) enum Segment<'a> {
    Plain(&'a [u8]),
    Encoded(&'a [u8]),
}

/// The first values of the names of parameters.
pub(crate) fn first_values(
    alloc: Global,
    params: &[(Vec<u8>, Vec<u8>)],
) -> Result<Values<'_>, AllocError>
    ensures { IfOk result (λ values. (name : List ℕ) → value_at values name ≡ param_of name (map parameter_of params.now)) }
{
    let mut values = Values::new(alloc);
    for param in params {
        if value_of(&values, &param.0).is_none() {
            let name = Vec::from_slice(alloc, &param.0)?;
            put(&mut values, name, &param.1)?;
        }
    }
    Ok(values)
}

// Keeps the value of a name.
fn put<'a>(values: &mut Values<'a>, name: Vec<u8>, value: &'a [u8]) -> Result<(), AllocError>
    ensures { OnOk result ((other : List ℕ) → value_at values.new other ≡ (if bytes_eq name.items other then Some value.now else value_at values.old other)) }
{
    values.insert(name, value)?;
    Ok(())
}

/// The first value of a name.
pub(crate) fn value_of<'a>(values: &Values<'a>, name: &[u8]) -> Option<&'a [u8]>
    ensures { option_map (λ value. value.now) result ≡ value_at values.now name.now }
{
    values.get(name).copied()
}

/// The segments of a name in the order of their numbers, up to the first that is missing, and at most this many.
pub(crate) fn segments<'a>(
    alloc: Global,
    values: &Values<'a>,
    name: &[u8],
    most: usize,
) -> Result<Vec<Segment<'a>>, AllocError>
    ensures { IfOk result (λ found. map segment_of found.items ≡ segments_from (value_at values.now) name.now 0 most) }
{
    let mut found = Vec::new(alloc);
    for number in 0..most {
        let Some(segment) = segment_at(alloc, values, name, number)? else {
            return Ok(found);
        };
        found.push(segment)?;
    }
    Ok(found)
}

// The segment of a number: if both forms are there, the encoded one.
fn segment_at<'a>(
    alloc: Global,
    values: &Values<'a>,
    name: &[u8],
    number: usize,
) -> Result<Option<Segment<'a>>, AllocError>
    ensures { IfOk result (λ found. option_map segment_of found ≡ segment_by (value_at values.now) name.now number) }
{
    let plain_name = segment_name(alloc, name, number)?;
    let full_name = encoded_name(alloc, &plain_name)?;
    match value_of(values, &full_name) {
        Some(value) => Ok(Some(Segment::Encoded(value))),
        None => match value_of(values, &plain_name) {
            Some(value) => Ok(Some(Segment::Plain(value))),
            None => Ok(None),
        },
    }
}

fn segment_name(alloc: Global, name: &[u8], number: usize) -> Result<Vec<u8>, AllocError>
    ensures { IfOk result (λ text. text.items ≡ name_of_segment name.now number) }
{
    let mut text = encoded_name(alloc, name)?;
    let mut buffer = Buffer::new();
    text.extend_from_slice(buffer.format(number as u64).as_bytes())?;
    Ok(text)
}

/// A name with an asterisk after it.
pub(crate) fn encoded_name(alloc: Global, name: &[u8]) -> Result<Vec<u8>, AllocError>
    ensures { IfOk result (λ text. text.items ≡ name_encoded name.now) }
{
    let mut text = Vec::from_slice(alloc, name)?;
    text.push(ASTERISK)?;
    Ok(text)
}
