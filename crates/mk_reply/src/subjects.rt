//! Subjects of answers.

ghost use Rattle.std.specs.Prelude.{◌≡◌, IfOk};
ghost use Rattle.mk_reply.specs.Replies.{after_res, answered_subject, begins_with_re, subject_of_reply};

use mk_code::text_decode;
use std::alloc::{AllocError, Global};

/// What a subject of an answer begins with (RFC 5322, 3.6.5).
const RE: &[u8; 3] = b"Re:";

/// The subject of an answer to a message of this subject; nothing where that is empty.
pub(crate) fn reply_subject(alloc: Global, subject: &[u8]) -> Result<Vec<u8>, AllocError>
    ensures { IfOk result (λ text. text.items ≡ subject_of_reply subject.now) }
{
    if subject.is_empty() {
        return Ok(Vec::new(alloc));
    }
    answered(alloc, without_res(subject))
}

// A subject without each `Re:` at its start.
fn without_res(subject: &[u8]) -> &[u8]
    ensures { result.now ≡ after_res 0 subject.now }
{
    let mut rest = subject.trim_ascii_start();
    while begins_re(rest) {
        rest = rest[RE.len()..].trim_ascii_start();
    }
    rest
}

// Whether a text begins with `Re:`, in any case.
fn begins_re(text: &[u8]) -> bool
    ensures { result ≡ begins_with_re text.now }
{
    let size = RE.len().min(text.len());
    text[..size].eq_ignore_ascii_case(RE)
}

// A subject with one `Re: ` before it, which may stand in its encoded words.
fn answered(alloc: Global, subject: &[u8]) -> Result<Vec<u8>, AllocError>
    ensures { IfOk result (λ answered. answered.items ≡ answered_subject subject.now) }
{
    let mut text = Vec::new(alloc);
    if !begins_re(&text_decode(alloc, subject)?) {
        text.extend_from_slice(b"Re: ")?;
    }
    text.extend_from_slice(subject)?;
    Ok(text)
}
