//! Words that put another text in the place of a pattern, `NAME:s/OLD/NEW/`.

ghost use Rattle.std.specs.Prelude.{◌≡◌, ◌++◌, IfOk, OnOk};
ghost use Rattle.std.specs.Option.{option_map};
ghost use Rattle.mk_texts.specs.Words.{after_s as past_s, asked_by_sub, escaped_bytes, first_part as part_at_first, flags_of, sub_after, sub_asked, sub_with};
ghost use Rattle.mk_texts.specs.inner.AskedViews.{flags_in, rule_asked};

use crate::rules::Replacement;
use crate::words::AskedRule;
use mk_script::parted;
use std::alloc::{AllocError, Global};

const COLON: u8 = b':';

const SLASH: u8 = b'/';

const BACKSLASH: u8 = b'\\';

/// The letter before the texts.
const SMALL_S: u8 = b's';

/// The flag for each match.
const SMALL_G: u8 = b'g';

/// The flag for letters in any case.
const SMALL_I: u8 = b'i';

/// The flags of a word.
#[derive(Clone, Copy)]
pub(crate) struct Flags {
    pub each: bool,
    pub any_case: bool,
}

/// What a word of `--sub` asks for.
pub(crate) fn read_sub(alloc: Global, word: &[u8]) -> Result<Option<AskedRule<'_>>, AllocError>
    ensures { IfOk result (λ asked. option_map rule_asked asked ≡ option_map asked_by_sub (sub_asked word.now)) }
{
    let Some((name, rest)) = parted(word, COLON) else {
        return Ok(None);
    };
    match after_s(rest) {
        Some(body) => read_old(alloc, name, body),
        None => Ok(None),
    }
}

// What follows `s/`.
fn after_s(text: &[u8]) -> Option<&[u8]>
    ensures { option_map (λ b. b.now) result ≡ past_s text.now }
{
    match text {
        [SMALL_S, SLASH, body @ ..] => Some(body),
        _ => None,
    }
}

// That of a name and of what follows `s/`.
fn read_old<'a>(
    alloc: Global,
    name: &'a [u8],
    body: &[u8],
) -> Result<Option<AskedRule<'a>>, AllocError>
    ensures { IfOk result (λ asked. option_map rule_asked asked ≡ option_map asked_by_sub (sub_after name.now body.now)) }
{
    let Some((pattern, rest)) = first_part(alloc, body)? else {
        return Ok(None);
    };
    match first_part(alloc, rest)? {
        Some((text, flags)) => Ok(asked_with(name, pattern, text, read_flags(flags))),
        None => Ok(None),
    }
}

// That of these texts and flags.
fn asked_with(
    name: &[u8],
    pattern: Vec<u8>,
    text: Vec<u8>,
    flags: Option<Flags>,
) -> Option<AskedRule<'_>>
    ensures { option_map rule_asked result ≡ option_map asked_by_sub (sub_with name.now pattern.items text.items (option_map flags_in flags)) }
{
    if pattern.is_empty() {
        return None;
    }
    match flags {
        Some(Flags { each, any_case }) => Some(AskedRule {
            name,
            pattern,
            any_case,
            replacement: Some(Replacement { text, each }),
        }),
        None => None,
    }
}

// What stands before the first slash that no backslash escapes, and what follows it.
fn first_part(alloc: Global, text: &[u8]) -> Result<Option<(Vec<u8>, &[u8])>, AllocError>
    ensures { IfOk result (λ part. option_map (λ p. (p.0.items, p.1.now)) part ≡ part_at_first text.now) }
{
    let mut part = Vec::new(alloc);
    let mut escaped = false;
    for (place, byte) in text.iter().enumerate() {
        if escaped {
            push_escaped(&mut part, *byte)?;
            escaped = false;
        } else if *byte == SLASH {
            return Ok(Some((part, &text[place + 1..])));
        } else if *byte == BACKSLASH {
            escaped = true;
        } else {
            part.push(*byte)?;
        }
    }
    Ok(None)
}

// Writes a byte that stands after a backslash.
fn push_escaped(part: &mut Vec<u8>, byte: u8) -> Result<(), AllocError>
    ensures { OnOk result (part.new.items ≡ part.old.items ++ escaped_bytes byte) }
{
    if byte != SLASH {
        part.push(BACKSLASH)?;
    }
    part.push(byte)?;
    Ok(())
}

// The flags that a text is.
fn read_flags(text: &[u8]) -> Option<Flags>
    ensures { option_map flags_in result ≡ flags_of text.now }
{
    let mut each = false;
    let mut any_case = false;
    for byte in text {
        if *byte == SMALL_G && !each {
            each = true;
        } else if *byte == SMALL_I && !any_case {
            any_case = true;
        } else {
            return None;
        }
    }
    Some(Flags { each, any_case })
}
