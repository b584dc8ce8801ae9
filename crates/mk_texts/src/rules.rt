//! Rules for the texts of fields, and the edits that they make.

ghost use Rattle.std.specs.Prelude.{◌≡◌, ◌≢◌, ◌+◌, ◌++◌, false, if◌then◌else◌, None, Some, IfOk, OnOk, map, nat_lt, true};
ghost use Rattle.std.specs.List.{list_any};
ghost use Rattle.std.specs.Option.{option_map_or};
ghost use Rattle.mk_decide.specs.Views.{edit_of};
ghost use Rattle.mk_head.specs.Fields.{fields_of, is_named};
ghost use Rattle.mk_head.specs.Split.{fields_from};
ghost use Rattle.mk_line.specs.Lines.{cut};
ghost use Rattle.mk_mail.specs.Letters.{most_prepended};
ghost use Rattle.mk_mail.specs.Prepended.{is_break as breaks, is_one_line as one_line};
ghost use Rattle.mk_mail.specs.Rules.{change_edits, following_number as number_then, rule_edits as edits_of_rule};
ghost use Rattle.mk_texts.specs.TextViews.{rule_of, text_rule};
ghost use Rattle.mk_texts.specs.inner.ChangeViews.{IsChanger, change_of};

use crate::changing::{Change, Changer};
use mk_edit::Edit;
use mk_head::each_field;
use mk_line::{Ending, is_name};
use mk_mail::head_at;
use mk_tree::Doc;
use regex::bytes::Regex;
use std::alloc::{AllocError, Global};

/// How many fields of a name a rule changes. Each edit looks for its field from the first, so very many would take long.
const MOST_CHANGED: u32 = 100;

const LINE_FEED: u8 = b'\n';

const CARRIAGE_RETURN: u8 = b'\r';

/// What is put in the place of what a pattern matches.
#[derive(Debug, Drop)]
pub struct Replacement {
    /// The text, one line; `$1` and `${name}` stand for the groups of the pattern, `$$` for a dollar sign.
    pub text: Vec<u8>,
    /// Whether it is put in the place of each match; of the first alone, if not.
    pub each: bool,
}

/// A rule for the texts of the fields of a name.
#[derive(Debug, Drop)]
pub struct TextRule {
    /// The name of the fields.
    pub name: Vec<u8>,
    /// The pattern, which is searched for in what a field says.
    pub pattern: Regex,
    /// What is put in; a field in which the pattern matches is removed, if nothing is.
    pub replacement: Option<Replacement>,
}

impl TextRule {
    ghost use Rattle.std.specs.Prelude.{◌≡◌, ◌≢◌, IfOk, Some, map};
    ghost use Rattle.mk_decide.specs.Views.{edit_of};
    ghost use Rattle.mk_mail.specs.Letters.{fields_at};
    ghost use Rattle.mk_mail.specs.Rules.{rule_edits as edits_of_rule};
    ghost use Rattle.mk_texts.specs.TextViews.{is_rule, rule_of};

    /// Whether its name is valid, and its replacement is one line.
    pub fn ok(&self) -> bool
        ensures { result ≡ is_rule self.now }
    {
        is_name(&self.name) && is_line(&self.replacement)
    }

    /// The edits that the rule makes of the fields of its name in the section at a path, in a message whose lines end with
    /// `eol`. Fields that it removes aren't counted, and of the others it reads the first hundred.
    pub fn edits(
        &self,
        alloc: Global,
        doc: &Doc,
        path: &[u32],
        eol: Ending,
    ) -> Result<Vec<Edit>, AllocError>
        requires { eol ≢ Ending.Missing }
        ensures { IfOk result (λ edits. map edit_of edits.items ≡ edits_of_rule path.now eol (rule_of self.now) (Some 1) (fields_at path.now doc.now)) }
    {
        let head = head_at(doc, path);
        if has_field(head, &self.name) {
            let mut changer = Changer::new(alloc, self)?;
            rule_edits(alloc, head, path, self, &mut changer, eol)
        } else {
            Ok(Vec::new(alloc))
        }
    }
}

/// Whether a replacement is one line, if there is one.
pub(crate) fn is_line(replacement: &Option<Replacement>) -> bool
    ensures { result ≡ option_map_or (λ p. one_line p.text.items) replacement.now true }
{
    match replacement {
        Some(replacement) => is_one_line(&replacement.text),
        None => true,
    }
}

// Whether a text is one line.
fn is_one_line(text: &[u8]) -> bool
    ensures { result ≡ one_line text.now }
{
    text.iter().all(|byte| !is_break(*byte))
}

fn is_break(byte: u8) -> bool
    ensures { result ≡ breaks byte }
{
    byte == CARRIAGE_RETURN || byte == LINE_FEED
}

// Whether a head has a field of a name.
fn has_field(head: &[u8], name: &[u8]) -> bool
    ensures { result ≡ list_any (is_named name.now) (fields_of (fields_from false (cut head.now))) }
{
    for field in each_field(head) {
        if field.is_named(name) {
            return true;
        }
    }
    false
}

// The edits of a rule on the fields of a head.
fn rule_edits(
    alloc: Global,
    head: &[u8],
    path: &[u32],
    rule: &TextRule,
    changer: &mut Changer<'_>,
    eol: Ending,
) -> Result<Vec<Edit>, AllocError>
    requires changer { IsChanger (text_rule rule.now) changer.old }
    requires ending { eol ≢ Ending.Missing }
    ensures { IfOk result (λ edits. map edit_of edits.items ≡ edits_of_rule path.now eol (rule_of rule.now) (Some 1) (fields_of (fields_from false (cut head.now)))) }
{
    let mut edits = Vec::new(alloc);
    let mut next = Some(1u32);
    for field in each_field(head) {
        if let Some(k) = next {
            if field.is_named(&rule.name) {
                let change = changer.change(alloc, rule, field.raw, eol)?;
                next = number_after(k, &change);
                push_change(alloc, &mut edits, path, &rule.name, k, change)?;
            }
        }
    }
    Ok(edits)
}

// The number of the next field after a change to that of a number, if one more is changed.
fn number_after(k: u32, change: &Change) -> Option<u32>
    ensures { result ≡ number_then k (change_of change.now) }
{
    match change {
        Change::Goes => Some(k),
        Change::Stays | Change::Becomes(_) => next_number(k),
    }
}

fn next_number(k: u32) -> Option<u32>
    ensures { result ≡ if nat_lt k most_prepended then Some (k + 1) else None }
{
    if k < MOST_CHANGED { Some(k + 1) } else { None }
}

// Puts the edit that makes a change to the field of a number, if it is one.
fn push_change(
    alloc: Global,
    edits: &mut Vec<Edit>,
    path: &[u32],
    name: &[u8],
    k: u32,
    change: Change,
) -> Result<(), AllocError>
    ensures { OnOk result (map edit_of edits.new.items ≡ map edit_of edits.old.items ++ change_edits path.now name.now k (change_of change)) }
{
    let edit = match change {
        Change::Stays => return Ok(()),
        Change::Goes => Edit::RemoveField {
            path: Vec::from_slice(alloc, path)?,
            name: Vec::from_slice(alloc, name)?,
            k,
        },
        Change::Becomes(text) => Edit::SetField {
            path: Vec::from_slice(alloc, path)?,
            name: Vec::from_slice(alloc, name)?,
            k,
            text,
        },
    };
    edits.push(edit)?;
    Ok(())
}
