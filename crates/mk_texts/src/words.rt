//! Rules for texts as words of the command line.

ghost use Rattle.std.specs.Prelude.{◌≡◌, IfErr, IfOk, MatchOption, Some, false, true, is_some};
ghost use Rattle.std.specs.Option.{option_map};
ghost use Rattle.std.specs.Str.{is_utf8};
ghost use Rattle.mk_texts.specs.TextViews.{is_rule};
ghost use Rattle.mk_texts.specs.WordViews.{IsAsked, IsFaultIn, IsPatternOf, IsPatternRefused};
ghost use Rattle.mk_texts.specs.Words.{after_tilde as past_tilde, asked_by_drop, drop_asked, drop_form, if_may_be, has_form as asked_in_form, sub_form};
ghost use Rattle.mk_texts.specs.inner.AskedViews.{rule_asked};

use crate::rules::{Replacement, TextRule, is_line};
use crate::subs::read_sub;
use mk_line::is_name;
use mk_script::parted;
use regex::RegexBuilder;
use regex::bytes::Regex;
use std::alloc::{AllocError, Global};
use thiserror::Error;

const COLON: u8 = b':';

/// What stands before the pattern of a rule that removes fields.
const TILDE: u8 = b'~';

/// Why a word is no rule.
#[derive(Clone, Copy, Debug, PartialEq, Eq, Error)]
pub enum RuleFault {
    /// It hasn't the form of a rule: `NAME:s/OLD/NEW/`, with `g` and `i` after it or not, or `NAME:~PATTERN`.
    #[error("not a rule")]
    Form,
    /// Its pattern is refused.
    #[error("{0}")]
    Pattern(regex::Error),
}

/// What a word asks for.
#[derive(Drop)]
pub(crate) struct AskedRule<'a> {
    /// The name of the fields.
    pub name: &'a [u8],
    /// The pattern.
    pub pattern: Vec<u8>,
    /// Whether its letters match in any case.
    pub any_case: bool,
    /// What is put in the place of matches.
    pub replacement: Option<Replacement>,
}

/// The rule of a word of `--sub`, `NAME:s/OLD/NEW/`: what the pattern OLD matches becomes NEW, in the first place, or with `g`
/// after the last slash in each; with `i` letters match in any case. In OLD and NEW `\/` is a slash.
pub fn sub_rule(alloc: Global, word: &str) -> Result<Result<TextRule, RuleFault>, AllocError>
    ensures asked { IfOk result (λ read. IfOk read (IsAsked (sub_form word.now))) }
    ensures ok { IfOk result (λ read. IfOk read (λ rule. is_rule rule ≡ true)) }
    ensures fault { IfOk result (λ read. IfErr read (IsFaultIn (sub_form word.now))) }
{
    match read_sub(alloc, word.as_bytes())? {
        Some(asked) => asked_rule(alloc, asked),
        None => Ok(Err(RuleFault::Form)),
    }
}

/// The rule of a word of `--drop`, `NAME:~PATTERN`: the fields in which the pattern matches are removed.
pub fn drop_rule(alloc: Global, word: &str) -> Result<Result<TextRule, RuleFault>, AllocError>
    ensures asked { IfOk result (λ read. IfOk read (IsAsked (drop_form word.now))) }
    ensures ok { IfOk result (λ read. IfOk read (λ rule. is_rule rule ≡ true)) }
    ensures fault { IfOk result (λ read. IfErr read (IsFaultIn (drop_form word.now))) }
{
    match read_drop(alloc, word.as_bytes())? {
        Some(asked) => asked_rule(alloc, asked),
        None => Ok(Err(RuleFault::Form)),
    }
}

/// Whether a word of `--drop` is a rule, and no name with its colon.
pub fn is_drop_rule(word: &str) -> bool
    ensures { result ≡ is_some (drop_asked word.now) }
{
    match parted(word.as_bytes(), COLON) {
        Some((_, rest)) => after_tilde(rest).is_some(),
        None => false,
    }
}

// What a word of `--drop` asks for.
fn read_drop(alloc: Global, word: &[u8]) -> Result<Option<AskedRule<'_>>, AllocError>
    ensures { IfOk result (λ asked. option_map rule_asked asked ≡ option_map asked_by_drop (drop_asked word.now)) }
{
    match parted(word, COLON) {
        Some((name, rest)) => read_pattern(alloc, name, rest),
        None => Ok(None),
    }
}

// That of a name and of what follows its colon.
fn read_pattern<'a>(
    alloc: Global,
    name: &'a [u8],
    rest: &[u8],
) -> Result<Option<AskedRule<'a>>, AllocError>
    ensures { IfOk result (λ asked. option_map rule_asked asked ≡ option_map (λ pattern. asked_by_drop (name.now, pattern)) (past_tilde rest.now)) }
{
    match after_tilde(rest) {
        Some(pattern) => Ok(Some(AskedRule {
            name,
            pattern: Vec::from_slice(alloc, pattern)?,
            any_case: false,
            replacement: None,
        })),
        None => Ok(None),
    }
}

// What follows a tilde.
fn after_tilde(text: &[u8]) -> Option<&[u8]>
    ensures { option_map (λ b. b.now) result ≡ past_tilde text.now }
{
    match text {
        [TILDE, rest @ ..] => Some(rest),
        _ => None,
    }
}

// The rule that is asked for, if it may be.
fn asked_rule(
    alloc: Global,
    asked: AskedRule<'_>,
) -> Result<Result<TextRule, RuleFault>, AllocError>
    ensures asked { IfOk result (λ read. IfOk read (IsAsked (if_may_be (Some (rule_asked asked.entry))))) }
    ensures ok { IfOk result (λ read. IfOk read (λ rule. is_rule rule ≡ true)) }
    ensures fault { IfOk result (λ read. IfErr read (IsFaultIn (if_may_be (Some (rule_asked asked.entry))))) }
{
    match text_in(&asked.pattern) {
        Some(source) if has_form(&asked) => match compiled(alloc, source, asked.any_case)? {
            Ok(pattern) => Ok(Ok(TextRule {
                name: Vec::from_slice(alloc, asked.name)?,
                pattern,
                replacement: asked.replacement,
            })),
            Err(error) => Ok(Err(RuleFault::Pattern(error))),
        },
        _ => Ok(Err(RuleFault::Form)),
    }
}

// Whether the name that is asked for is valid, and the replacement one line.
fn has_form(asked: &AskedRule<'_>) -> bool
    ensures { result ≡ asked_in_form (rule_asked asked.now) }
{
    is_name(asked.name) && is_line(&asked.replacement)
}

// The bytes as text, if they are UTF-8.
fn text_in(bytes: &[u8]) -> Option<&str>
    ensures { MatchOption result (is_utf8 bytes.now ≡ false) (λ text. (is_utf8 bytes.now ≡ true) × (text.now ≡ bytes.now)) }
{
    match std::str::from_utf8(bytes) {
        Ok(text) => Some(text),
        Err(_) => None,
    }
}

// A pattern, or why it is refused.
fn compiled(
    alloc: Global,
    source: &str,
    any_case: bool,
) -> Result<Result<Regex, regex::Error>, AllocError>
    ensures read { IfOk result (λ compiled. IfOk compiled (IsPatternOf source.now any_case)) }
    ensures fault { IfOk result (λ compiled. IfErr compiled (IsPatternRefused source.now any_case)) }
{
    let builder = RegexBuilder::new(source).case_insensitive(any_case);
    match builder.build_bytes(alloc) {
        Ok(pattern) => Ok(Ok(pattern)),
        Err(regex::Error::OutOfMemory) => Err(AllocError),
        Err(error) => Ok(Err(error)),
    }
}
