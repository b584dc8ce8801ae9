//! Changes to the texts of fields, where a pattern matches.

ghost use Rattle.std.specs.Prelude.{◌≡◌, IfOk};
ghost use Rattle.mk_texts.specs.TextViews.{text_rule};
ghost use Rattle.mk_texts.specs.Texts.{put_places};
ghost use Rattle.mk_texts.specs.inner.ChangeViews.{IsTemplate};
ghost use Rattle.regex.specs.Bytes.{IsWrittenBy, matcher_pattern};

use crate::rules::TextRule;
use crate::saying::{SaidField, said_by_value, text_field};
use mk_line::{Ending, trimmed};
use mk_script::parted;
use mk_wording::{kind_of, strip};
use regex::bytes::{Matcher, Template};
use std::alloc::{AllocError, Global};

const COLON: u8 = b':';

/// What becomes of a field.
#[derive(Drop)]
pub(crate) enum Change {
    /// It stays as it is.
    Stays,
    /// It is removed.
    Goes,
    /// It becomes another field.
    Becomes(Vec<u8>),
}

/// What searches for the pattern of a rule, and what it writes.
#[derive(Drop)]
pub(crate) struct Changer<'r> {
    matcher: Matcher<'r>,
    template: Option<Template>,
}

impl<'r> Changer<'r> {
    ghost use Rattle.std.specs.Prelude.{◌≡◌, ◌≢◌, IfOk};
    ghost use Rattle.std.specs.Option.{option_map};
    ghost use Rattle.mk_texts.specs.TextViews.{text_rule};
    ghost use Rattle.mk_texts.specs.Texts.{matched_change, text_change, text_put, value_change};
    ghost use Rattle.mk_texts.specs.inner.ChangeViews.{IsChanger, change_of};

    /// That of a rule.
    pub(crate) fn new(alloc: Global, rule: &'r TextRule) -> Result<Changer<'r>, AllocError>
        ensures { IfOk result (IsChanger (text_rule rule.now)) }
    {
        Ok(Changer {
            matcher: rule.pattern.matcher(alloc)?,
            template: template(alloc, rule)?,
        })
    }

    /// What becomes of a field by the rule, in a message whose lines end with `eol`.
    pub(crate) fn change(
        &mut self,
        alloc: Global,
        rule: &TextRule,
        raw: &[u8],
        eol: Ending,
    ) -> Result<Change, AllocError>
        requires changer { IsChanger (text_rule rule.now) self.old }
        requires ending { eol ≢ Ending.Missing }
        ensures change { IfOk result (λ change. change_of change ≡ text_change (text_rule rule.now) eol raw.now) }
        ensures changer { IsChanger (text_rule rule.now) self.new }
    {
        match parted(raw, COLON) {
            Some((name, value)) => {
                let name = trimmed(name);
                self.value_change(alloc, rule, SaidField { raw, name, value }, eol)
            }
            None => Ok(Change::Stays),
        }
    }

    // The same by the parts of the field.
    fn value_change(
        &mut self,
        alloc: Global,
        rule: &TextRule,
        field: SaidField<'_>,
        eol: Ending,
    ) -> Result<Change, AllocError>
        requires changer { IsChanger (text_rule rule.now) self.old }
        requires ending { eol ≢ Ending.Missing }
        ensures change { IfOk result (λ change. change_of change ≡ value_change (text_rule rule.now) eol field.entry.raw.now field.entry.name.now field.entry.value.now) }
        ensures changer { IsChanger (text_rule rule.now) self.new }
    {
        let text = said_by_value(alloc, kind_of(field.name), field.value)?;
        if self.matcher.is_match(&text) {
            self.matched_change(alloc, rule, field, &text, eol)
        } else {
            Ok(Change::Stays)
        }
    }

    // What becomes of a field that says a text in which the pattern matches.
    fn matched_change(
        &mut self,
        alloc: Global,
        rule: &TextRule,
        field: SaidField<'_>,
        text: &[u8],
        eol: Ending,
    ) -> Result<Change, AllocError>
        requires changer { IsChanger (text_rule rule.now) self.old }
        requires ending { eol ≢ Ending.Missing }
        ensures change { IfOk result (λ change. change_of change ≡ matched_change (text_rule rule.now) eol field.entry.raw.now field.entry.name.now field.entry.value.now text.now) }
        ensures changer { IsChanger (text_rule rule.now) self.new }
    {
        match self.text_put(alloc, rule, text)? {
            Some(made) if made.as_slice() == text => Ok(Change::Stays),
            Some(made) => Ok(Change::Becomes(text_field(alloc, field, &made, eol)?)),
            None => Ok(Change::Goes),
        }
    }

    // The text with the replacement in the place of matches, if the rule has one.
    fn text_put(
        &mut self,
        alloc: Global,
        rule: &TextRule,
        text: &[u8],
    ) -> Result<Option<Vec<u8>>, AllocError>
        requires { IsChanger (text_rule rule.now) self.old }
        ensures text { IfOk result (λ made. option_map (λ v. v.items) made ≡ option_map (λ p. text_put (text_rule rule.now) p text.now) (text_rule rule.now).put) }
        ensures changer { IsChanger (text_rule rule.now) self.new }
    {
        let Some(replacement) = &rule.replacement else {
            return Ok(None);
        };
        let Some(template) = &self.template else {
            return Ok(None);
        };
        let each = replacement.each;
        let made = replaced(alloc, &mut self.matcher, template, each, text)?;
        Ok(Some(Vec::from_slice(alloc, strip(&made))?))
    }
}

// What the replacement of a rule writes, if it has one.
fn template(alloc: Global, rule: &TextRule) -> Result<Option<Template>, AllocError>
    ensures { let r = text_rule rule.now in IfOk result (IsTemplate r.groups r.put) }
{
    match &rule.replacement {
        Some(replacement) => {
            let names = rule.pattern.capture_names();
            Ok(Some(Template::new(alloc, names, &replacement.text)?))
        }
        None => Ok(None),
    }
}

// A text with what a template writes in the place of the first match, or of each.
fn replaced(
    alloc: Global,
    matcher: &mut Matcher<'_>,
    template: &Template,
    each: bool,
    text: &[u8],
) -> Result<Vec<u8>, AllocError>
    ensures written { IfOk result (λ made. IsWrittenBy template.now text.now (put_places (matcher_pattern matcher.old) each text.now) made.items) }
    ensures same { matcher_pattern matcher.new ≡ matcher_pattern matcher.old }
{
    if each {
        matcher.replace_all(alloc, text, template)
    } else {
        matcher.replace(alloc, text, template)
    }
}
