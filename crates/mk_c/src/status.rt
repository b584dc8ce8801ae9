//! How a call ended, as numbers.
ghost use Rattle.std.specs.Prelude.{◌≡◌};
ghost use Rattle.mk_c.specs.Statuses.{build_number, content_number, edit_number, refused_index, journal_number, level_of, reason_number, offset_of, reason_place, status_and_place};
ghost use Rattle.mk_c.specs.inner.Steps.{group_reason};
ghost use Rattle.mk_c.specs.declared.status.Reason.TheVariants as reason;

use mk_build::BuildError;
use mk_edit::{EditError, GroupError, LoadError};
use mk_view::ExtractError;
use std::alloc::AllocError;

const OK: u32 = 0;

/// Why a call did nothing.
#[derive(Clone, Copy, Debug)]
pub enum Reason {
    /// The handle is closed.
    Closed,
    /// Memory ran out.
    Memory,
    /// The bytes that were given have another size than the answer.
    BadSize,
    /// No edit was put down.
    NoEdit,
    /// The section's fields say no name.
    NoName,
    /// The mailbox has no more messages.
    NoMessage,
    /// The next message isn't whole in what was read of the mailbox.
    NeedsMore,
    /// An edit, an undo or a redo is refused. The first edit of a group has index 0.
    Edit { index: usize, error: EditError },
    /// A journal is refused.
    Journal(LoadError),
    /// No content is taken out.
    Content(ExtractError),
    /// No message is built.
    Build(BuildError),
}

/// Where a call was refused.
#[repr(C)]
#[derive(Clone, Copy, Debug, PartialEq, Eq)]
pub struct Place {
    /// Which edit of a group is refused, or which field, part or message of one that is to be built, counted from 0.
    pub edit: usize,
    /// With HoldsBoundary, how many numbers the path of the enclosing multipart has; with JournalSyntax, the offset in
    /// bytes; with JournalMismatch, the number of the step, counted from 1.
    pub number: usize,
}

impl Reason {
    fn number(self) -> u32
        ensures { result ≡ reason_number self }
    {
        match self {
            Reason::Closed => 1,
            Reason::Memory => 2,
            Reason::BadSize => 3,
            Reason::NoEdit => 4,
            Reason::NoName => 5,
            Reason::NoMessage => 7,
            Reason::NeedsMore => 8,
            Reason::Edit { error, .. } => number_of_edit(error),
            Reason::Journal(error) => number_of_journal(error),
            Reason::Content(error) => number_of_content(error),
            Reason::Build(error) => number_of_build(error),
        }
    }

    fn place(self) -> Place
        ensures { result ≡ reason_place self }
    {
        match self {
            Reason::Edit { index, error } => Place {
                edit: index,
                number: level(error),
            },
            Reason::Journal(error) => Place {
                edit: 0,
                number: offset(error),
            },
            Reason::Build(error) => Place {
                edit: index(error),
                number: 0,
            },
            _ => Place { edit: 0, number: 0 },
        }
    }
}

fn number_of_edit(error: EditError) -> u32
    ensures { result ≡ edit_number error }
{
    match error {
        EditError::Memory => 2,
        EditError::NoSuchSection => 10,
        EditError::NotMultipart => 11,
        EditError::NotLeaf => 12,
        EditError::NotPart => 13,
        EditError::NoSuchField => 14,
        EditError::BadPlace => 15,
        EditError::BadField => 16,
        EditError::BadName => 17,
        EditError::BadBoundary => 18,
        EditError::BadSubtype => 19,
        EditError::OpenLine => 20,
        EditError::HoldsBoundary { .. } => 21,
        EditError::Recut => 22,
        EditError::NothingToUndo => 23,
        EditError::NothingToRedo => 24,
    }
}

fn number_of_journal(error: LoadError) -> u32
    ensures { result ≡ journal_number error }
{
    match error {
        LoadError::Memory => 2,
        LoadError::JournalSyntax { .. } => 30,
        LoadError::JournalOther => 31,
        LoadError::JournalMismatch { .. } => 32,
    }
}

fn number_of_content(error: ExtractError) -> u32
    ensures { result ≡ content_number error }
{
    match error {
        ExtractError::Memory => 2,
        ExtractError::NoSuchSection => 10,
        ExtractError::BadBase64 => 40,
        ExtractError::UnknownEncoding => 41,
    }
}

fn number_of_build(error: BuildError) -> u32
    ensures { result ≡ build_number error }
{
    match error {
        BuildError::Memory => 2,
        BuildError::BadField { .. } => 16,
        BuildError::BadBoundary => 18,
        BuildError::BadSubtype => 19,
        BuildError::HoldsBoundary { .. } => 21,
        BuildError::BadType { .. } => 50,
        BuildError::BadName { .. } => 51,
        BuildError::BadCharset => 52,
    }
}

fn level(error: EditError) -> usize
    ensures { result ≡ level_of error }
{
    match error {
        EditError::HoldsBoundary { level } => level,
        _ => 0,
    }
}

fn offset(error: LoadError) -> usize
    ensures { result ≡ offset_of error }
{
    match error {
        LoadError::JournalSyntax { offset } => offset,
        LoadError::JournalMismatch { entry } => entry,
        _ => 0,
    }
}

fn index(error: BuildError) -> usize
    ensures { result ≡ refused_index error }
{
    match error {
        BuildError::BadField { index }
        | BuildError::BadType { index }
        | BuildError::BadName { index }
        | BuildError::HoldsBoundary { index } => index,
        _ => 0,
    }
}

/// The number of how a call ended, and where.
pub(crate) fn told(ended: Result<(), Reason>, place: &mut Place) -> u32
    ensures status { result ≡ (status_and_place ended).0 }
    ensures place { place.new ≡ (status_and_place ended).1 }
{
    match ended {
        Ok(()) => {
            *place = Place { edit: 0, number: 0 };
            OK
        }
        Err(reason) => {
            *place = reason.place();
            reason.number()
        }
    }
}

impl From<AllocError> for Reason {
    ghost from_gives = { λ _ r. r ≡ reason.Memory };

    fn from(_error: AllocError) -> Reason {
        Reason::Memory
    }
}

impl From<EditError> for Reason {
    ghost from_gives = { λ error r. r ≡ reason.Edit 0 error };

    fn from(error: EditError) -> Reason {
        Reason::Edit { index: 0, error }
    }
}

impl From<GroupError> for Reason {
    ghost from_gives = { λ error r. r ≡ group_reason error };

    fn from(error: GroupError) -> Reason {
        match error {
            GroupError::Member { index, refusal } => Reason::Edit {
                index,
                error: refusal,
            },
            GroupError::Memory => Reason::Memory,
        }
    }
}

impl From<LoadError> for Reason {
    ghost from_gives = { λ error r. r ≡ reason.Journal error };

    fn from(error: LoadError) -> Reason {
        Reason::Journal(error)
    }
}

impl From<ExtractError> for Reason {
    ghost from_gives = { λ error r. r ≡ reason.Content error };

    fn from(error: ExtractError) -> Reason {
        Reason::Content(error)
    }
}

impl From<BuildError> for Reason {
    ghost from_gives = { λ error r. r ≡ reason.Build error };

    fn from(error: BuildError) -> Reason {
        Reason::Build(error)
    }
}
