//! Lists of addresses and of parameters as they are written (RFC 5322, 3.4; RFC 2045, 5.1).

ghost use Rattle.std.specs.Prelude.{◌≡◌, ◌≢◌, IfOk, take};
ghost use Rattle.std.specs.Option.{option_map};
ghost use Rattle.mk_line.specs.Ascii.{colon};
ghost use Rattle.mk_wording.specs.Lists.{ends_of, worded_entry as entry_in_words, worded_list as list_in_words, worded_parameters as parameters_in_words};
ghost use Rattle.mk_wording.specs.Scanned.{is_one_of as one_of};

use crate::addresses::worded_address;
use crate::parameters::parameter_first;
use crate::scanning::mark_place;
use crate::stretches::{Outside, worded_text};
use mk_line::Ending;
use std::alloc::{AllocError, Global};

/// What ends an address or the name of a group (RFC 5322, 3.4).
const ADDRESS_ENDS: &[u8; 3] = b",;:";

/// What ends a parameter (RFC 2045, 5.1).
const PARAMETER_ENDS: &[u8; 1] = b";";

const COLON: u8 = b':';

/// What the entries of a list are.
#[derive(Clone, Copy, Debug, PartialEq, Eq)]
pub(crate) enum ListKind {
    /// Addresses, and the names of groups of them.
    Addresses,
    /// Parameters.
    Parameters,
}

// The bytes that end the entries of a list.
fn ends(kind: ListKind) -> &'static [u8]
    ensures { result.now ≡ ends_of kind }
{
    match kind {
        ListKind::Addresses => ADDRESS_ENDS,
        ListKind::Parameters => PARAMETER_ENDS,
    }
}

/// A list with its names in encoded words, where they need them, and `eol` between two, or with the charsets of its parameters.
/// `None` where another byte isn't ASCII.
pub(crate) fn worded_list(
    alloc: Global,
    value: &[u8],
    kind: ListKind,
    eol: Ending,
) -> Result<Option<Vec<u8>>, AllocError>
    requires { eol ≢ Ending.Missing }
    ensures { IfOk result (λ worded. option_map (λ v. v.items) worded ≡ list_in_words kind eol value.now) }
{
    let mut worded = Vec::new(alloc);
    let mut rest = value;
    'entries: loop {
        let (text, following) = rest.split_at(mark_place(rest, ends(kind)));
        match worded_entry(alloc, text, following, kind, eol)? {
            Some(entry) => worded.extend_from_slice(&entry)?,
            None => return Ok(None),
        }
        match following.split_first() {
            Some((end, more)) => {
                worded.push(*end)?;
                rest = more;
            }
            None => return Ok(Some(worded)),
        }
    }
}

// An entry as it is written, by the byte that ends it.
fn worded_entry(
    alloc: Global,
    text: &[u8],
    following: &[u8],
    kind: ListKind,
    eol: Ending,
) -> Result<Option<Vec<u8>>, AllocError>
    requires { eol ≢ Ending.Missing }
    ensures { IfOk result (λ worded. option_map (λ v. v.items) worded ≡ entry_in_words kind eol (record { text = text.now; end = take 1 following.now })) }
{
    match kind {
        ListKind::Addresses => worded_address(alloc, text, begins_with_colon(following), eol),
        ListKind::Parameters => parameter_first(alloc, text, eol),
    }
}

fn begins_with_colon(text: &[u8]) -> bool
    ensures { result ≡ one_of (take 1 text.now) colon }
{
    matches!(text, [COLON, ..])
}

/// A value with parameters, each with its charset where it isn't ASCII. `None` where another byte isn't ASCII, unless it stands
/// in a comment.
pub(crate) fn worded_parameters(
    alloc: Global,
    value: &[u8],
    eol: Ending,
) -> Result<Option<Vec<u8>>, AllocError>
    requires { eol ≢ Ending.Missing }
    ensures { IfOk result (λ worded. option_map (λ v. v.items) worded ≡ parameters_in_words eol value.now) }
{
    let (front, following) = value.split_at(mark_place(value, PARAMETER_ENDS));
    let Some(mut worded) = worded_text(alloc, front, Outside::Ascii, eol)? else {
        return Ok(None);
    };
    let Some((end, more)) = following.split_first() else {
        return Ok(Some(worded));
    };
    let Some(parameters) = worded_list(alloc, more, ListKind::Parameters, eol)? else {
        return Ok(None);
    };
    worded.push(*end)?;
    worded.extend_from_slice(&parameters)?;
    Ok(Some(worded))
}
