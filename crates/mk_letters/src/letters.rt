//! Letters as words of the command line.

ghost use Rattle.std.specs.Prelude.{◌≡◌, ◌≢◌, IfOk, map, true};
ghost use Rattle.std.specs.List.{list_all};
ghost use Rattle.std.specs.Option.{option_and_then, option_map, option_map_or};
ghost use Rattle.mk_line.specs.Ascii.{colon};
ghost use Rattle.mk_mail.specs.LetterViews.{pattern_of, prepend_of};
ghost use Rattle.mk_letters.specs.Asked.{is_name_word, is_pair_word, name_in as name_in_word, pattern_asked, pattern_in, prepend_in};
ghost use Rattle.mk_letters.specs.FieldForms.{in_form as made_in_form};
ghost use Rattle.mk_script.specs.Paths.{parted as parted_at};

use crate::forms::{FieldForm, in_form};
use mk_line::{Ending, leading_blanks};
use mk_mail::{Letters, NamePattern, Prepend};
use mk_script::parted;
use std::alloc::{AllocError, Global};

const COLON: u8 = b':';

/// The mark at the end of a name that means all names that begin with it.
const ASTERISK: u8 = b'*';

/// The words after the letters of `field`, each if its letter was given.
#[derive(Debug, Drop)]
pub struct LetterWords<'a> {
    /// `--prepend NAME:TEXT`
    pub prepend: Option<&'a str>,
    /// `--drop NAME:` and `--drop NAME*:`, each time
    pub drops: Vec<&'a str>,
    /// `--keep NAME:` and `--keep-only NAME:`, each time
    pub keeps: Vec<&'a str>,
    /// Whether one of these is `--keep-only`
    pub keep_only: bool,
    /// `--rename OLD:NEW`
    pub rename: Option<&'a str>,
    /// `-a FIELD`
    pub add_if: Option<&'a str>,
    /// `-A FIELD`
    pub add: Option<&'a str>,
    /// `-i FIELD`
    pub prefixed: Option<&'a str>,
    /// `-I FIELD`
    pub only: Option<&'a str>,
    /// `-u NAME:`
    pub first: Option<&'a str>,
    /// `-U NAME:`
    pub last: Option<&'a str>,
    /// `-x NAME:`
    pub take: Option<&'a str>,
    /// `-X NAME:`
    pub whole: Option<&'a str>,
}

impl LetterWords<'_> {
    ghost use Rattle.std.specs.Prelude.{◌≡◌, ◌≢◌, IfOk, OnOk};
    ghost use Rattle.std.specs.Option.{option_map};
    ghost use Rattle.mk_mail.specs.LetterViews.{letters_of};
    ghost use Rattle.mk_letters.specs.Asked.{asked, have_colons as words_have_colons, letters_asked, words_of};
    ghost use Rattle.mk_letters.specs.RoundsAsked.{letters_if, letters_in};

    /// What the words ask for. `None` if a name has no colon after it.
    pub fn letters(&self, alloc: Global) -> Result<Option<Letters>, AllocError>
        ensures { IfOk result (λ letters. option_map letters_of letters ≡ asked (words_of self.now)) }
    {
        if !self.have_colons() {
            return Ok(None);
        }
        Ok(Some(Letters {
            prepend: prepend(alloc, self.prepend)?,
            drops: patterns(alloc, &self.drops)?,
            keeps: patterns(alloc, &self.keeps)?,
            keep_only: self.keep_only,
            rename: names(alloc, self.rename)?,
            add_if: field(alloc, self.add_if)?,
            add: field(alloc, self.add)?,
            prefixed: field(alloc, self.prefixed)?,
            only: field(alloc, self.only)?,
            first: name(alloc, self.first)?,
            last: name(alloc, self.last)?,
            take: name(alloc, self.take)?,
            whole: name(alloc, self.whole)?,
        }))
    }

    /// What the words ask for with the fields in a form, for messages whose lines end with `eol`. `None` if a name has
    /// no colon after it.
    pub fn letters_in(
        &self,
        alloc: Global,
        form: FieldForm,
        eol: Ending,
    ) -> Result<Option<Letters>, AllocError>
        requires { eol ≢ Ending.Missing }
        ensures { IfOk result (λ letters. option_map letters_of letters ≡ letters_if form eol (words_of self.now)) }
    {
        let Some(mut letters) = self.letters(alloc)? else {
            return Ok(None);
        };
        self.put_fields(alloc, form, eol, &mut letters)?;
        Ok(Some(letters))
    }

    // Puts the fields in a form in the place of those that the words ask for as they are.
    fn put_fields(
        &self,
        alloc: Global,
        form: FieldForm,
        eol: Ending,
        letters: &mut Letters,
    ) -> Result<(), AllocError>
        requires { eol ≢ Ending.Missing }
        ensures { OnOk result (letters_of letters.old ≡ letters_asked (words_of self.now) → letters_of letters.new ≡ letters_in form eol (words_of self.now)) }
    {
        letters.add_if = field_in(alloc, self.add_if, form, eol)?;
        letters.add = field_in(alloc, self.add, form, eol)?;
        letters.prefixed = field_in(alloc, self.prefixed, form, eol)?;
        letters.only = field_in(alloc, self.only, form, eol)?;
        Ok(())
    }

    // Whether each word that is a name ends with a colon, and those of `--rename` and `--prepend` have one after a name.
    fn have_colons(&self) -> bool
        ensures { result ≡ words_have_colons (words_of self.now) }
    {
        are_names(&self.drops)
            && are_names(&self.keeps)
            && may_name(self.first)
            && may_name(self.last)
            && may_name(self.take)
            && may_name(self.whole)
            && may_part(self.rename)
            && may_part(self.prepend)
    }
}

// Whether each word is a name and a colon.
fn are_names(words: &[&str]) -> bool
    ensures { result ≡ list_all is_name_word (map (λ s. s.now) words.now) }
{
    for word in words {
        if !is_named(*word) {
            return false;
        }
    }
    true
}

// Whether a word is a name and a colon.
fn is_named(word: &str) -> bool
    ensures { result ≡ is_name_word word.now }
{
    before_colon(word.as_bytes()).is_some()
}

// Whether a word is a name and a colon, if there is a word.
fn may_name(word: Option<&str>) -> bool
    ensures { result ≡ option_map_or is_name_word (option_map (λ s. s.now) word.entry) true }
{
    match word {
        Some(word) => is_named(word),
        None => true,
    }
}

// Whether a word has a colon, if there is a word.
fn may_part(word: Option<&str>) -> bool
    ensures { result ≡ option_map_or is_pair_word (option_map (λ s. s.now) word.entry) true }
{
    match word {
        Some(word) => parted(word.as_bytes(), COLON).is_some(),
        None => true,
    }
}

// The name of a word that is a name and a colon.
fn before_colon(word: &[u8]) -> Option<&[u8]>
    ensures { option_map (λ name. name.now) result ≡ name_in_word word.now }
{
    match parted(word, COLON) {
        Some((name, following)) if following.is_empty() => Some(name),
        _ => None,
    }
}

// The field that a word is.
fn field(alloc: Global, word: Option<&str>) -> Result<Option<Vec<u8>>, AllocError>
    ensures { IfOk result (λ field. option_map (λ v. v.items) field ≡ option_map (λ s. s.now) word.entry) }
{
    match word {
        Some(word) => Ok(Some(Vec::from_slice(alloc, word.as_bytes())?)),
        None => Ok(None),
    }
}

// The field that a word is, in a form.
fn field_in(
    alloc: Global,
    word: Option<&str>,
    form: FieldForm,
    eol: Ending,
) -> Result<Option<Vec<u8>>, AllocError>
    requires { eol ≢ Ending.Missing }
    ensures { IfOk result (λ field. option_map (λ v. v.items) field ≡ option_map (made_in_form form eol) (option_map (λ s. s.now) word.entry)) }
{
    match word {
        Some(word) => Ok(Some(in_form(alloc, word.as_bytes(), form, eol)?)),
        None => Ok(None),
    }
}

// The name before the colon of a word.
fn name(alloc: Global, word: Option<&str>) -> Result<Option<Vec<u8>>, AllocError>
    ensures { IfOk result (λ name. option_map (λ v. v.items) name ≡ option_and_then name_in_word (option_map (λ s. s.now) word.entry)) }
{
    let Some(word) = word else {
        return Ok(None);
    };
    match before_colon(word.as_bytes()) {
        Some(name) => Ok(Some(Vec::from_slice(alloc, name)?)),
        None => Ok(None),
    }
}

// The patterns that words are, each before its colon.
fn patterns(alloc: Global, words: &[&str]) -> Result<Vec<NamePattern>, AllocError>
    ensures { IfOk result (λ patterns. map pattern_of patterns.items ≡ map pattern_asked (map (λ s. s.now) words.now)) }
{
    let mut patterns = Vec::new(alloc);
    for word in words {
        patterns.push(pattern_in_word(alloc, *word)?)?;
    }
    Ok(patterns)
}

// The pattern that a word is before its colon.
fn pattern_in_word(alloc: Global, word: &str) -> Result<NamePattern, AllocError>
    ensures { IfOk result (λ pattern. pattern_of pattern ≡ pattern_asked word.now) }
{
    match before_colon(word.as_bytes()) {
        Some(name) => pattern(alloc, name),
        None => pattern(alloc, b""),
    }
}

// A name as a pattern.
fn pattern(alloc: Global, name: &[u8]) -> Result<NamePattern, AllocError>
    ensures { IfOk result (λ pattern. pattern_of pattern ≡ pattern_in name.now) }
{
    match name {
        [front @ .., ASTERISK] => Ok(NamePattern {
            text: Vec::from_slice(alloc, front)?,
            is_front: true,
        }),
        _ => Ok(NamePattern {
            text: Vec::from_slice(alloc, name)?,
            is_front: false,
        }),
    }
}

// The name of a word, and the text after its colon without the blanks at its start.
fn prepend(alloc: Global, word: Option<&str>) -> Result<Option<Prepend>, AllocError>
    ensures { IfOk result (λ prepend. option_map prepend_of prepend ≡ option_map prepend_in (option_and_then (parted_at colon) (option_map (λ s. s.now) word.entry))) }
{
    let Some(word) = word else {
        return Ok(None);
    };
    match parted(word.as_bytes(), COLON) {
        Some((name, following)) => {
            let name = Vec::from_slice(alloc, name)?;
            let text = Vec::from_slice(alloc, &following[leading_blanks(following)..])?;
            Ok(Some(Prepend { name, text }))
        }
        None => Ok(None),
    }
}

// The two names of a word.
fn names(alloc: Global, word: Option<&str>) -> Result<Option<(Vec<u8>, Vec<u8>)>, AllocError>
    ensures { IfOk result (λ names. option_map (λ p. (p.0.items, p.1.items)) names ≡ option_and_then (parted_at colon) (option_map (λ s. s.now) word.entry)) }
{
    let Some(word) = word else {
        return Ok(None);
    };
    match parted(word.as_bytes(), COLON) {
        Some((old, new)) => {
            let old = Vec::from_slice(alloc, old)?;
            Ok(Some((old, Vec::from_slice(alloc, new)?)))
        }
        None => Ok(None),
    }
}
