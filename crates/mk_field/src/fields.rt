//! One message of which the fields are filtered by rounds, or given.

ghost use Rattle.std.specs.Prelude.{◌≡◌, ℕ, List, Some, true, false, map, IfOk, IfSome, OnOk};
ghost use Rattle.std.specs.List.{list_all};
ghost use Rattle.mk_decide.specs.Answers.{is_memory};
ghost use Rattle.mk_decide.specs.Views.{edit_of};
ghost use Rattle.mk_edit.specs.Histories.{first_text, started, text_now};
ghost use Rattle.mk_mail.specs.Apart.{always_fits as fits_always, section_made};
ghost use Rattle.mk_mail.specs.Letters.{is_root as is_root_path};
ghost use Rattle.mk_mail.specs.Rounds.{rounds_made_at};
ghost use Rattle.mk_field.specs.FilterClauses.{AreEditsMade, IsEdited, IsFitted, IsRoundMade, fitted};
ghost use Rattle.mk_field.specs.FilterViews.{filter_of, is_allowed, is_round, round_of};
ghost use Rattle.mk_field.specs.Filtering.{filter_made, given_of, given_said, missing_report, rounds_ask as do_rounds_ask, said_alone, said_filtered, said_of, said_of_made};
ghost use Rattle.mk_field.specs.inner.Telling.{told_report, told_said};

use crate::filters::{FieldFilter, Round, ask};
use crate::giving::given;
use crate::headers::tell_header;
use crate::telling::{Printed, Told};
use mk_edit::{Edit, EditError, GroupError, Session};
use mk_line::Meter;
use mk_mail::{FromLines, Place, head_at};
use mk_tree::{Doc, after_envelope};
use std::alloc::{AllocError, Global};

/// What a filter says of a message, one of a mailbox or by itself. Where an edit is refused, the message is printed as it came.
pub(crate) fn filter_message(
    alloc: Global,
    filter: &FieldFilter<'_>,
    each: bool,
    message: Vec<u8>,
) -> Result<Told, AllocError>
    requires { is_allowed (filter_of filter.now) ≡ true }
    ensures told { IfOk result (λ told. (number : ℕ) → told_said filter.now.path.now number told ≡ said_of each (filter_of filter.now) number message.items) }
    ensures named { IfOk result (λ told. IfSome told.refusal (λ error. is_memory error ≡ false)) }
{
    if filter.from_lines.leaves_alone(&message) {
        return Ok(leave_message(alloc, filter.rounds, message));
    }
    tell_message(alloc, filter, each, message)
}

// A message that is left as it is, or nothing where rounds ask for fields.
fn leave_message(alloc: Global, rounds: &[Round<'_>], message: Vec<u8>) -> Told
    ensures told { (path : List ℕ) (number : ℕ) → told_said path number result ≡ said_alone (map round_of rounds.now) message.items }
    ensures named { IfSome result.refusal (λ error. is_memory error ≡ false) }
{
    let text = if rounds_ask(rounds, &message) {
        Vec::new(alloc)
    } else {
        message
    };
    Told {
        text: Printed::Given(text),
        refusal: None,
    }
}

// Whether rounds ask for fields of a message.
fn rounds_ask(rounds: &[Round<'_>], message: &[u8]) -> bool
    ensures { result ≡ do_rounds_ask (map round_of rounds.now) message.now }
{
    match rounds {
        [round, ..] => round.letters_for(message).is_some_and(ask),
        [] => false,
    }
}

// What a filter says of a message that isn't left as it is.
fn tell_message(
    alloc: Global,
    filter: &FieldFilter<'_>,
    each: bool,
    message: Vec<u8>,
) -> Result<Told, AllocError>
    requires { is_allowed (filter_of filter.now) ≡ true }
    ensures told { IfOk result (λ told. (number : ℕ) → told_said filter.now.path.now number told ≡ said_filtered each (filter_of filter.now) number message.items) }
    ensures named { IfOk result (λ told. IfSome told.refusal (λ error. is_memory error ≡ false)) }
{
    if is_root(filter.path) {
        tell_root(alloc, filter, each, message)
    } else {
        tell_section(alloc, filter, each, message)
    }
}

// What it says where the section is the root. A message of which fields are asked for is read no further than these.
fn tell_root(
    alloc: Global,
    filter: &FieldFilter<'_>,
    each: bool,
    message: Vec<u8>,
) -> Result<Told, AllocError>
    requires allowed { is_allowed (filter_of filter.now) ≡ true }
    requires root { is_root_path filter.now.path.now ≡ true }
    ensures told { IfOk result (λ told. (number : ℕ) → told_said filter.now.path.now number told ≡ said_filtered each (filter_of filter.now) number message.items) }
    ensures named { IfOk result (λ told. IfSome told.refusal (λ error. is_memory error ≡ false)) }
{
    if let Some(text) = given(alloc, filter, &message, after_envelope(&message))? {
        return Ok(Told {
            text: Printed::Given(text),
            refusal: None,
        });
    }
    let place = place_to_keep(filter, each, &message);
    match tell_header(alloc, filter.rounds, place.is_some(), message)? {
        Ok(told) => Ok(told),
        Err(message) => tell_edits(alloc, filter, place, message),
    }
}

// What it says where the section is any other.
fn tell_section(
    alloc: Global,
    filter: &FieldFilter<'_>,
    each: bool,
    message: Vec<u8>,
) -> Result<Told, AllocError>
    requires { is_allowed (filter_of filter.now) ≡ true }
    ensures told { IfOk result (λ told. (number : ℕ) → told_said filter.now.path.now number told ≡ said_filtered each (filter_of filter.now) number message.items) }
    ensures named { IfOk result (λ told. IfSome told.refusal (λ error. is_memory error ≡ false)) }
{
    let place = place_to_keep(filter, each, &message);
    let session = match Session::start(alloc, message) {
        Ok(session) => session,
        Err(_) => return Err(AllocError),
    };
    let doc = session.doc();
    match given(alloc, filter, doc.text(), head_at(doc, filter.path)) {
        Ok(Some(text)) => Ok(tell_given(filter.path, doc, text)),
        Ok(None) => tell_edited(alloc, filter, place, session),
        Err(_) => Err(AllocError),
    }
}

// What the edits of a filter leave of a message, and the reason where one is refused.
fn tell_edits(
    alloc: Global,
    filter: &FieldFilter<'_>,
    place: Option<Place>,
    message: Vec<u8>,
) -> Result<Told, AllocError>
    requires { is_allowed (filter_of filter.now) ≡ true }
    ensures told { IfOk result (λ told. (number : ℕ) → told_said filter.now.path.now number told ≡ said_of_made filter.now.path.now number message.items (fitted place (section_made filter.now.path.now (map round_of filter.now.rounds.now) message.items))) }
    ensures named { IfOk result (λ told. IfSome told.refusal (λ error. is_memory error ≡ false)) }
{
    match Session::start(alloc, message) {
        Ok(session) => tell_edited(alloc, filter, place, session),
        Err(_) => Err(AllocError),
    }
}

// The place in a mailbox that what is made of a message must fit, unless all that is made does.
fn place_to_keep(filter: &FieldFilter<'_>, each: bool, message: &[u8]) -> Option<Place>
    ensures { fitted result (section_made filter.now.path.now (map round_of filter.now.rounds.now) message.now) ≡ filter_made each (filter_of filter.now) message.now }
{
    if each && !always_fits(filter.from_lines, filter.path) {
        Some(Place::of(filter.from_lines, message))
    } else {
        None
    }
}

// Whether all that is made at a path fits the place of its message: at the root, where no field must follow a From-line.
fn always_fits(from_lines: FromLines, path: &[u32]) -> bool
    ensures { result ≡ fits_always from_lines path.now }
{
    is_root(path) && !from_lines.needs_field()
}

fn is_root(path: &[u32]) -> bool
    ensures { result ≡ is_root_path path.now }
{
    match path {
        [number] => *number == 1,
        _ => false,
    }
}

// What is given of a document, and whether it has no section at a path.
fn tell_given(path: &[u32], doc: &Doc, text: Vec<u8>) -> Told
    ensures told { (number : ℕ) → told_said path.now number result ≡ given_said path.now number doc.now text.items }
    ensures named { IfSome result.refusal (λ error. is_memory error ≡ false) }
{
    Told {
        text: Printed::Given(text),
        refusal: missing_section(path, doc),
    }
}

// The refusal where a document has no section at a path.
fn missing_section(path: &[u32], doc: &Doc) -> Option<EditError>
    ensures told { (number : ℕ) → told_report path.now number result ≡ missing_report path.now number doc.now }
    ensures named { IfSome result (λ error. is_memory error ≡ false) }
{
    if doc.section(path).is_some() {
        None
    } else {
        Some(EditError::NoSuchSection)
    }
}

// What the edits of a filter leave of a message that was just read, and the reason where one is refused.
fn tell_edited(
    alloc: Global,
    filter: &FieldFilter<'_>,
    place: Option<Place>,
    session: Session,
) -> Result<Told, AllocError>
    requires { is_allowed (filter_of filter.now) ≡ true }
    ensures told { IfOk result (λ told. (text : List ℕ) → session ≡ started text → (number : ℕ)
        → told_said filter.now.path.now number told ≡ said_of_made filter.now.path.now number text (fitted place (section_made filter.now.path.now (map round_of filter.now.rounds.now) text))) }
    ensures named { IfOk result (λ told. IfSome told.refusal (λ error. is_memory error ≡ false)) }
{
    let mut session = session;
    match edit_section(alloc, filter, place, &mut session) {
        Ok(refusal) => Ok(Told {
            text: Printed::Left(session),
            refusal,
        }),
        Err(_) => Err(AllocError),
    }
}

// Makes the edits of a filter in a message that was just read. Answers the reason if they are refused; the message is then as
// it came.
fn edit_section(
    alloc: Global,
    filter: &FieldFilter<'_>,
    place: Option<Place>,
    session: &mut Session,
) -> Result<Option<EditError>, AllocError>
    requires { is_allowed (filter_of filter.now) ≡ true }
    ensures edited { IfOk result (λ refusal. (text : List ℕ) → session.old ≡ started text
        → IsEdited (fitted place (section_made filter.now.path.now (map round_of filter.now.rounds.now) text)) text refusal (text_now session.new)) }
    ensures named { IfOk result (λ refusal. IfSome refusal (λ error. is_memory error ≡ false)) }
{
    if session.doc().section(filter.path).is_none() {
        return Ok(Some(EditError::NoSuchSection));
    }
    edit_in_rounds(alloc, filter.path, filter.rounds, place, session)
}

// Makes the edits of rounds, each in what the one before it left.
fn edit_in_rounds(
    alloc: Global,
    path: &[u32],
    rounds: &[Round<'_>],
    place: Option<Place>,
    session: &mut Session,
) -> Result<Option<EditError>, AllocError>
    requires { list_all is_round (map round_of rounds.now) ≡ true }
    ensures edited { IfOk result (λ refusal. (text : List ℕ) → session.old ≡ started text
        → IsEdited (fitted place (rounds_made_at path.now (map round_of rounds.now) text)) text refusal (text_now session.new)) }
    ensures named { IfOk result (λ refusal. IfSome refusal (λ error. is_memory error ≡ false)) }
{
    for round in rounds {
        let refusal = edit(alloc, path, round, session)?;
        match refusal {
            Some(reason) => {
                take_back(session)?;
                return Ok(Some(reason));
            }
            None => {}
        }
    }
    fit(place, session)
}

// Undoes all steps of a session if its text doesn't fit a place. Answers the reason then.
fn fit(place: Option<Place>, session: &mut Session) -> Result<Option<EditError>, AllocError>
    ensures fitted { IfOk result (λ refusal. IsFitted place refusal session.old session.new) }
    ensures named { IfOk result (λ refusal. IfSome refusal (λ error. is_memory error ≡ false)) }
{
    match place {
        Some(place) => {
            if place.fits(session.text()) {
                return Ok(None);
            }
            take_back(session)?;
            Ok(Some(EditError::Recut))
        }
        None => Ok(None),
    }
}

// Undoes all steps of a session.
fn take_back(session: &mut Session) -> Result<(), AllocError>
    ensures { OnOk result (text_now session.new ≡ first_text session.old) }
{
    while session.done() > 0 {
        match session.undo() {
            Ok(()) => {}
            Err(_) => return Err(AllocError),
        }
    }
    Ok(())
}

// Makes the edits of a round in a message, as one step. Answers the reason if one is refused; nothing is changed then.
fn edit(
    alloc: Global,
    path: &[u32],
    round: &Round<'_>,
    session: &mut Session,
) -> Result<Option<EditError>, AllocError>
    requires { is_round (round_of round.now) ≡ true }
    ensures made { IfOk result (λ refusal. IsRoundMade path.now (round_of round.now) refusal session.old session.new) }
    ensures named { IfOk result (λ refusal. IfSome refusal (λ error. is_memory error ≡ false)) }
{
    let edits = round.edits_at(alloc, session.doc(), path)?;
    make_edits(&edits, session)
}

/// Makes edits in a message, as one step. Answers the reason if one is refused; nothing is changed then.
pub(crate) fn make_edits(
    edits: &[Edit],
    session: &mut Session,
) -> Result<Option<EditError>, AllocError>
    ensures made { IfOk result (λ refusal. AreEditsMade (map edit_of edits.now) refusal session.old session.new) }
    ensures named { IfOk result (λ refusal. IfSome refusal (λ error. is_memory error ≡ false)) }
{
    match session.group(edits, &mut Meter::new()) {
        Ok(()) => Ok(None),
        Err(GroupError::Member { refusal, .. }) => Ok(Some(refusal)),
        Err(GroupError::Memory) => Err(AllocError),
    }
}
