//! How findings are written.
ghost use Rattle.std.specs.Prelude.{◌≡◌, ◌++◌, IfOk, OnOk};
ghost use Rattle.mk_check.specs.FindingLines.{field_column, field_member_of, finding_line, json_line, json_members, json_place, plain_line};
ghost use Rattle.mk_check.specs.inner.FoundViews.{found_of};

use crate::faults::Finding;
use mk_view::push_path;
use std::alloc::{AllocError, Global};

/// How findings are written.
#[derive(Clone, Copy, Debug, PartialEq, Eq)]
pub enum FindingForm {
    /// A line: the path of the section, the offset in bytes from 0, the fault, and the field that it is about, if it is about one.
    Plain,
    /// An object of JSON, a line each.
    Json,
}

/// Writes a finding of the section at a path after a text.
pub(crate) fn push_finding(
    alloc: Global,
    text: &mut Vec<u8>,
    form: FindingForm,
    path: &[u32],
    finding: &Finding,
) -> Result<(), AllocError>
    ensures { OnOk result (text.new.items ≡ text.old.items ++ finding_line form path.now (found_of finding.now)) }
{
    match form {
        FindingForm::Plain => push_plain(alloc, text, path, finding),
        FindingForm::Json => push_json(alloc, text, path, finding),
    }
}

fn push_plain(
    alloc: Global,
    text: &mut Vec<u8>,
    path: &[u32],
    finding: &Finding,
) -> Result<(), AllocError>
    ensures { OnOk result (text.new.items ≡ text.old.items ++ plain_line path.now (found_of finding.now)) }
{
    push_path(text, path)?;
    let place = finding.place;
    let columns = format!(in alloc; " {place} ")?;
    text.extend_from_slice(columns.as_bytes())?;
    text.extend_from_slice(finding.fault.name().as_bytes())?;
    push_field_column(text, finding.field)?;
    text.extend_from_slice(b"\n")
}

// Writes the name of a field as a column, if there is one.
fn push_field_column(text: &mut Vec<u8>, field: &str) -> Result<(), AllocError>
    ensures { OnOk result (text.new.items ≡ text.old.items ++ field_column field.now) }
{
    let field = field.as_bytes();
    if field.is_empty() {
        return Ok(());
    }
    text.push(b' ')?;
    text.extend_from_slice(field)
}

fn push_json(
    alloc: Global,
    text: &mut Vec<u8>,
    path: &[u32],
    finding: &Finding,
) -> Result<(), AllocError>
    ensures { OnOk result (text.new.items ≡ text.old.items ++ json_line path.now (found_of finding.now)) }
{
    push_members(alloc, text, path, finding)?;
    push_field_member(text, finding.field)?;
    text.extend_from_slice(b"}\n")
}

// Writes the members of every finding.
fn push_members(
    alloc: Global,
    text: &mut Vec<u8>,
    path: &[u32],
    finding: &Finding,
) -> Result<(), AllocError>
    ensures { OnOk result (text.new.items ≡ text.old.items ++ json_members path.now (found_of finding.now)) }
{
    text.extend_from_slice(b"{\"path\":\"")?;
    push_path(text, path)?;
    text.extend_from_slice(&placed(alloc, finding)?)
}

// The place and the name of a finding, after its path.
fn placed(alloc: Global, finding: &Finding) -> Result<Vec<u8>, AllocError>
    ensures { IfOk result (λ text. text.items ≡ json_place (found_of finding.now)) }
{
    let (place, name) = (finding.place, finding.fault.name());
    let text = format!(in alloc; "\",\"offset\":{place},\"fault\":\"{name}\"")?;
    Ok(text.into_bytes())
}

// Writes the name of a field as a member, if there is one.
fn push_field_member(text: &mut Vec<u8>, field: &str) -> Result<(), AllocError>
    ensures { OnOk result (text.new.items ≡ text.old.items ++ field_member_of field.now) }
{
    let field = field.as_bytes();
    if field.is_empty() {
        return Ok(());
    }
    text.extend_from_slice(b",\"field\":\"")?;
    text.extend_from_slice(field)?;
    text.extend_from_slice(b"\"")
}
