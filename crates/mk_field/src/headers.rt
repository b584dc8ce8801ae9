//! Messages of which the header alone is edited: what follows it is neither read nor moved.

ghost use Rattle.std.specs.Prelude.{◌≡◌, ◌≤◌, ◌++◌, ◌∷◌, [], ℕ, List, None, false, true, drop, length, map, IfErr, IfOk, IfSome};
ghost use Rattle.std.specs.List.{list_all};
ghost use Rattle.mk_decide.specs.Answers.{is_memory};
ghost use Rattle.mk_decide.specs.Views.{edit_of};
ghost use Rattle.mk_edit.specs.HeaderEdits.{edits_header as edits_header_alone};
ghost use Rattle.mk_mail.specs.Letters.{root_path};
ghost use Rattle.mk_mail.specs.Rounds.{rounds_made};
ghost use Rattle.mk_field.specs.FilterViews.{is_round, round_of};
ghost use Rattle.mk_field.specs.Filtering.{said_of_made};
ghost use Rattle.mk_field.specs.inner.ByHeaders.{IsHeader, Tells};
ghost use Rattle.mk_field.specs.inner.Telling.{told_said};

use crate::fields::make_edits;
use crate::filters::{ROOT, Round};
use crate::telling::{Headed, Printed, Told};
use memchr::memmem;
use mk_decide::has_separator;
use mk_edit::{Edit, EditError, Session, edits_header};
use mk_line::{Ending, ends_open, eol_of};
use mk_tree::Doc;
use std::alloc::{AllocError, Global};

/// How many times as long as its header a message has to be, so that the header is edited alone.
const LEAST_HEADERS: usize = 4;

/// What the edits of rounds make of a message, by its header.
#[derive(Drop)]
pub(crate) enum ByHeader {
    /// All were made: the header that they leave.
    Made(Session),
    /// One was refused, for this reason.
    Refused(EditError),
    /// The header alone doesn't tell.
    Untold,
}

/// What the edits of rounds at the root leave of a message, where its header alone tells it: a separator follows the fields,
/// and no edit says anything of the body. The message comes back where it doesn't, where little follows the header, where its place
/// in a mailbox is kept, or where there is no memory for a copy of the header.
pub(crate) fn tell_header(
    alloc: Global,
    rounds: &[Round<'_>],
    placed: bool,
    message: Vec<u8>,
) -> Result<Result<Told, Vec<u8>>, AllocError>
    requires { list_all is_round (map round_of rounds.now) ≡ true }
    ensures told { IfOk result (λ told. IfOk told (λ t. (placed ≡ false) × ((number : ℕ)
        → told_said root_path number t ≡ said_of_made root_path number message.items (rounds_made (map round_of rounds.now) message.items)))) }
    ensures named { IfOk result (λ told. IfOk told (λ t. IfSome t.refusal (λ error. is_memory error ≡ false))) }
    ensures back { IfOk result (λ told. IfErr told (λ m. m.items ≡ message.items)) }
{
    if placed {
        return Ok(Err(message));
    }
    let Some(size) = header_size(&message) else {
        return Ok(Err(message));
    };
    let (header, _) = message.split_at(size);
    match edit_header(alloc, rounds, header)? {
        ByHeader::Made(header) => Ok(Ok(Told {
            text: Printed::Headed(Headed::new(header, message, size)),
            refusal: None,
        })),
        ByHeader::Refused(reason) => Ok(Ok(Told {
            text: Printed::Given(message),
            refusal: Some(reason),
        })),
        ByHeader::Untold => Ok(Err(message)),
    }
}

// How many bytes stand up to the first empty line of a message, and that line: its header. `None` where what follows is no
// more than a few times as long, since reading it costs less then than editing the header beside it.
fn header_size(message: &[u8]) -> Option<usize>
    ensures { IfSome result (λ size. size ≤ length message.now) }
{
    let end: &[u8] = match eol_of(message) {
        Ending::Crlf => b"\n\r\n",
        Ending::Lf | Ending::Missing => b"\n\n",
    };
    let size = memmem::find(message, end)?.saturating_add(end.len());
    if message.len() / LEAST_HEADERS < size {
        None
    } else {
        Some(size)
    }
}

// Makes the edits of rounds in a header, each in what the one before it left.
fn edit_header(alloc: Global, rounds: &[Round<'_>], header: &[u8]) -> Result<ByHeader, AllocError>
    requires { list_all is_round (map round_of rounds.now) ≡ true }
    ensures told { IfOk result (λ by. (body : List ℕ) → Tells by body (rounds_made (map round_of rounds.now) (header.now ++ body))) }
{
    let Ok(copy) = Vec::from_slice(alloc, header) else {
        return Ok(ByHeader::Untold);
    };
    let mut session = match Session::start(alloc, copy) {
        Ok(session) => session,
        Err(_) => return Err(AllocError),
    };
    if !is_header(session.doc()) {
        return Ok(ByHeader::Untold);
    }
    for round in rounds {
        let edits = round.edits_at(alloc, session.doc(), ROOT)?;
        if !edit_headers(&edits) {
            return Ok(ByHeader::Untold);
        }
        match make_edits(&edits, &mut session)? {
            Some(reason) => return Ok(ByHeader::Refused(reason)),
            None => {}
        }
    }
    Ok(ByHeader::Made(session))
}

// Whether a document is lines with a separator after the fields of the root.
fn is_header(doc: &Doc) -> bool
    ensures { result ≡ true → IsHeader doc.now }
{
    has_separator(&doc.root()) && !ends_open(doc.text())
}

// Whether edits depend on a header alone.
fn edit_headers(edits: &[Edit]) -> bool
    ensures { result ≡ list_all edits_header_alone (map edit_of edits.now) }
{
    for edit in edits {
        if !edits_header(edit) {
            return false;
        }
    }
    true
}
