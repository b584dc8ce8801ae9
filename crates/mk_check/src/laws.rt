//! The law of messages in which nothing is found.

ghost use Rattle.mk_check.specs.CheckLaws.{CleanMessagesDecode};

/// Where nothing is found in a message, the content of each section can be decoded.
pub fn clean_messages_decode()
    ensures { CleanMessagesDecode }
{}
