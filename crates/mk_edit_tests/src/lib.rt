//! Tests of sessions and their edits, by public calls alone. A crate of their own, so that nothing waits for them.
#![tactic(auto)]

#[cfg(test)]
mod tests;
