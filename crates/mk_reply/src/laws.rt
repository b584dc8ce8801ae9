//! The law of answers.

ghost use Rattle.mk_reply.specs.ReplyLaws.{RepliesAreHeaders};

/// The header of an answer has the fields of an answer and no others, whatever the message holds.
pub fn replies_are_headers()
    ensures { RepliesAreHeaders }
{}
