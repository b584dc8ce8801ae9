//! The parameters of a disposition as an object.

use crate::strings::{push_key, push_string};
use mk_head::{ContentType, is_token};
use mk_param::text_of;
use std::alloc::{AllocError, Global};
use std::collections::BTreeMap;

const ASTERISK: u8 = b'*';

/// The parameters that together give one name its value (RFC 2231, 3 and 4).
#[derive(Drop)]
struct Group {
    name: Vec<u8>,
    media: ContentType,
}

/// Writes an object of the parameters with the text of each, by the names in lower case and in the order in which these come
/// first, where there are any. The text is the first that can be read of the value with a charset, the segments and the plain
/// value; where none can be read, it is the plain value as it is written, or that of the first parameter of the name (own).
pub(crate) fn push_parameters(
    alloc: Global,
    text: &mut Vec<u8>,
    params: &[(Vec<u8>, Vec<u8>)],
) -> Result<(), AllocError> {
    let groups = grouped(alloc, params)?;
    if groups.is_empty() {
        return Ok(());
    }
    text.push(b',')?;
    push_key(text, "disposition_parameters")?;
    let mut before = b'{';
    for group in &groups {
        text.push(before)?;
        push_group(alloc, text, group)?;
        before = b',';
    }
    text.push(b'}')?;
    Ok(())
}

// Writes a name and the text that its parameters give it.
fn push_group(alloc: Global, text: &mut Vec<u8>, group: &Group) -> Result<(), AllocError> {
    push_string(alloc, text, &group.name)?;
    text.push(b':')?;
    match text_of(alloc, &group.media, &group.name)? {
        Some(value) => push_string(alloc, text, value.as_bytes()),
        None => push_string(alloc, text, as_written(group)),
    }
}

// The value of a name as it is written.
fn as_written(group: &Group) -> &[u8] {
    match group.media.param(&group.name) {
        Some(value) => value,
        None => match group.media.params.first() {
            Some(param) => &param.1,
            None => b"",
        },
    }
}

// The parameters by the names to which they give values, these in the order in which they come first. A name that isn't a token
// is left out (RFC 2045, 5.1).
fn grouped(alloc: Global, params: &[(Vec<u8>, Vec<u8>)]) -> Result<Vec<Group>, AllocError> {
    let mut groups = Vec::new(alloc);
    let mut places = BTreeMap::new(alloc);
    for param in params {
        let name = name_in(&param.0);
        if is_token(name) {
            put(alloc, &mut groups, &mut places, name, param)?;
        }
    }
    Ok(groups)
}

// Puts a parameter into the group of a name.
fn put(
    alloc: Global,
    groups: &mut Vec<Group>,
    places: &mut BTreeMap<Vec<u8>, usize>,
    name: &[u8],
    param: &(Vec<u8>, Vec<u8>),
) -> Result<(), AllocError> {
    let place = match places.get(name) {
        Some(place) => *place,
        None => {
            let place = groups.len();
            places.insert(Vec::from_slice(alloc, name)?, place)?;
            groups.push(none_of(alloc, name)?)?;
            place
        }
    };
    if let Some(group) = groups.get_mut(place) {
        let (key, value) = (
            Vec::from_slice(alloc, &param.0)?,
            Vec::from_slice(alloc, &param.1)?,
        );
        group.media.params.push((key, value))?;
    }
    Ok(())
}

// A group without a parameter.
fn none_of(alloc: Global, name: &[u8]) -> Result<Group, AllocError> {
    let media = ContentType {
        main: Vec::new(alloc),
        sub: Vec::new(alloc),
        params: Vec::new(alloc),
    };
    Ok(Group {
        name: Vec::from_slice(alloc, name)?,
        media,
    })
}

// The name to which a parameter gives a value: that of the parameter without an asterisk at its end, and without an asterisk and
// the number of a segment (RFC 2231, 3, 4 and 4.1).
fn name_in(param: &[u8]) -> &[u8] {
    let front = match param {
        [front @ .., last] if *last == ASTERISK => front,
        _ => param,
    };
    match front.iter().rposition(|byte| *byte == ASTERISK) {
        Some(place) => {
            let (name, segment) = front.split_at(place);
            if is_segment(segment) { name } else { front }
        }
        None => front,
    }
}

// Whether these are an asterisk and the number of a segment, without zeros before it.
fn is_segment(text: &[u8]) -> bool {
    match text {
        [_, b'0'] => true,
        [_, first, others @ ..] => {
            *first >= b'1' && *first <= b'9' && others.iter().all(|byte| byte.is_ascii_digit())
        }
        _ => false,
    }
}
