//! Laws of listed messages, over the definitions alone: each a function with an empty body whose clause is the law.

ghost use Rattle.mk_messages.specs.MessageLaws.{ListedMessagesAreSlices};

/// The line of a message in the listing of a mailbox has its number, as `pick` counts it, and the bytes of the mailbox from the
/// start that the line names to its end are the message.
pub fn listed_messages_are_slices()
    ensures { ListedMessagesAreSlices }
{}
