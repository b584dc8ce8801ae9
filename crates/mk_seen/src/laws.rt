//! Laws of mailboxes of which no message comes again: each a function with an empty body whose clause is the law.

ghost use Rattle.mk_seen.specs.FirstLaws.{FirstsAreFiltered, FirstsAreListed, NoneComesAgain};

/// What is listed of messages in turn are the lines of those that don't come again.
pub fn firsts_are_listed()
    ensures { FirstsAreListed }
{}

/// What is said of messages in turn that are filtered is what is said of those that don't come again, and the lines that come to the
/// file are those of their identifiers.
pub fn firsts_are_filtered()
    ensures { FirstsAreFiltered }
{}

/// A message is left out exactly if its identifier was seen, or a message before it has the same.
pub fn none_comes_again()
    ensures { NoneComesAgain }
{}
