//! What is replied to commands.
ghost use Rattle.std.specs.Prelude.{Result};
ghost use Rattle.mk_edit.specs.Answers.{Does, DoesGroup, Replies};
ghost use Rattle.mk_decide.specs.Edits.{Refusal};
ghost use Rattle.mk_edit.specs.History.{History};

use crate::errors::GroupError;
use mk_decide::EditError;
use std::alloc::AllocError;

/// What is replied to a command.
#[derive(Clone, Copy, Debug, PartialEq, Eq)]
pub enum Reply {
    /// The command was obeyed.
    Obeyed,
    /// It was refused, and changed nothing.
    Refused(EditError),
    /// It was a group, refused for the edit of this number, from 0 on, and changed nothing.
    MemberRefused { index: usize, refusal: EditError },
}

/// The reply to a command, by what was answered. Running out of memory is not a reply.
pub(crate) fn replied(answer: Result<(), EditError>) -> Result<Reply, AllocError>
    ensures { (defined : Result History Refusal) (old new : History) → Does answer defined old new → Replies result defined old new }
{
    match answer {
        Ok(()) => Ok(Reply::Obeyed),
        Err(EditError::Memory) => Err(AllocError),
        Err(refusal) => Ok(Reply::Refused(refusal)),
    }
}

/// The reply to a group that was answered so.
pub(crate) fn replied_to_group(answer: Result<(), GroupError>) -> Result<Reply, AllocError>
    ensures { (defined : Result History Refusal) (old new : History) → DoesGroup answer defined old new → Replies result defined old new }
{
    match answer {
        Ok(()) => Ok(Reply::Obeyed),
        Err(GroupError::Memory) => Err(AllocError),
        Err(GroupError::Member { index, refusal }) => Ok(Reply::MemberRefused { index, refusal }),
    }
}
