//! What a filter that asks for the fields of a name gives of a document.

ghost use Rattle.std.specs.Prelude.{◌≡◌, ℕ, List, false, filter, map, IfOk};
ghost use Rattle.std.specs.List.{flat_map};
ghost use Rattle.std.specs.Option.{option_map};
ghost use Rattle.mk_line.specs.Lines.{cut as lines_of};
ghost use Rattle.mk_head.specs.Fields.{fields_of, is_named as named};
ghost use Rattle.mk_head.specs.Split.{fields_from};
ghost use Rattle.mk_mail.specs.Letters.{fields_at};
ghost use Rattle.mk_mail.specs.LetterViews.{letters_of};
ghost use Rattle.mk_field.specs.FilterViews.{round_of};
ghost use Rattle.mk_field.specs.Filtering.{after_colon as is_after_colon, given_by, given_in, given_of, given_with as both_given};
ghost use Rattle.mk_field.specs.Wording.{printed_value};

use crate::filters::{FieldFilter, Round, ValueForm};
use crate::wording::push_value;
use mk_head::each_field;
use mk_mail::Letters;
use mk_script::parted;
use std::alloc::{AllocError, Global};

const COLON: u8 = b':';

/// What a filter that asks for fields of a name gives of a text. The head begins with the fields of the section at its path.
/// `None` if it doesn't ask for any.
pub(crate) fn given(
    alloc: Global,
    filter: &FieldFilter<'_>,
    text: &[u8],
    head: &[u8],
) -> Result<Option<Vec<u8>>, AllocError>
    requires { fields_of (fields_from false (lines_of head.now)) ≡ fields_at filter.now.path.now text.now }
    ensures { IfOk result (λ given. option_map (λ v. v.items) given ≡ given_of filter.now.path.now filter.now.form (map round_of filter.now.rounds.now) text.now) }
{
    let mut given = None;
    for round in filter.rounds {
        let more = given_by_round(alloc, round, filter.form, text, head)?;
        given = given_with(given, more)?;
    }
    Ok(given)
}

// What some letters give, and then what others give.
fn given_with(given: Option<Vec<u8>>, more: Option<Vec<u8>>) -> Result<Option<Vec<u8>>, AllocError>
    ensures { IfOk result (λ all. option_map (λ v. v.items) all ≡ both_given (option_map (λ v. v.items) given) (option_map (λ v. v.items) more)) }
{
    match (given, more) {
        (Some(mut text), Some(more)) => {
            text.extend_from_slice(&more)?;
            Ok(Some(text))
        }
        (Some(text), None) => Ok(Some(text)),
        (None, more) => Ok(more),
    }
}

// What a round gives of a text, the head of a section of which this is.
fn given_by_round(
    alloc: Global,
    round: &Round<'_>,
    form: ValueForm,
    text: &[u8],
    head: &[u8],
) -> Result<Option<Vec<u8>>, AllocError>
    ensures { IfOk result (λ given. (path : List ℕ) → fields_of (fields_from false (lines_of head.now)) ≡ fields_at path text.now
        → option_map (λ v. v.items) given ≡ given_in path form (round_of round.now) text.now) }
{
    match round.letters_for(text) {
        Some(letters) => given_by_letters(alloc, letters, form, head),
        None => Ok(None),
    }
}

// What letters that ask for fields of a name give of a head.
fn given_by_letters(
    alloc: Global,
    letters: &Letters,
    form: ValueForm,
    head: &[u8],
) -> Result<Option<Vec<u8>>, AllocError>
    ensures { IfOk result (λ given. (path text : List ℕ) → fields_of (fields_from false (lines_of head.now)) ≡ fields_at path text
        → option_map (λ v. v.items) given ≡ given_by path form (letters_of letters.now).take (letters_of letters.now).whole text) }
{
    match &letters.take {
        Some(name) => Ok(Some(values(alloc, head, name, form)?)),
        None => match &letters.whole {
            Some(name) => Ok(Some(wholes(alloc, head, name)?)),
            None => Ok(None),
        },
    }
}

// What `-x` gives of a head: the values of the fields of a name, one after another.
fn values(alloc: Global, head: &[u8], name: &[u8], form: ValueForm) -> Result<Vec<u8>, AllocError>
    ensures { IfOk result (λ given. given.items ≡ flat_map (λ f. printed_value form (is_after_colon f.raw)) (filter (named name.now) (fields_of (fields_from false (lines_of head.now))))) }
{
    let mut text = Vec::new(alloc);
    for field in each_field(head) {
        if field.is_named(name) {
            push_value(alloc, &mut text, after_colon(field.raw), form)?;
        }
    }
    Ok(text)
}

// The fields of a name, one after another.
fn wholes(alloc: Global, head: &[u8], name: &[u8]) -> Result<Vec<u8>, AllocError>
    ensures { IfOk result (λ given. given.items ≡ flat_map (λ f. f.raw) (filter (named name.now) (fields_of (fields_from false (lines_of head.now))))) }
{
    let mut text = Vec::new(alloc);
    for field in each_field(head) {
        if field.is_named(name) {
            text.extend_from_slice(field.raw)?;
        }
    }
    Ok(text)
}

// What follows the colon of a field.
fn after_colon(field: &[u8]) -> &[u8]
    ensures { result.now ≡ is_after_colon field.now }
{
    match parted(field, COLON) {
        Some((_, following)) => following,
        None => b"",
    }
}
