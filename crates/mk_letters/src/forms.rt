//! The forms in which the fields of letters go into a message.

ghost use Rattle.std.specs.Prelude.{◌≡◌, ◌≢◌, if◌then◌else◌, IfOk};
ghost use Rattle.mk_letters.specs.FieldForms.{in_form as field_in_form};
ghost use Rattle.mk_wording.specs.Wording.{worded_field as field_in_words};

use mk_line::Ending;
use mk_script::turned;
use mk_wording::worded_field;
use std::alloc::{AllocError, Global};

/// How the fields of letters go into a message; as they are given, if nothing is asked for.
#[derive(Clone, Copy, Debug, Default, PartialEq, Eq)]
pub struct FieldForm {
    /// With their values in encoded words, if they need them (RFC 2047).
    pub encoded: bool,
    /// With lines that end as those of the message do.
    pub turned: bool,
}

/// A field in a form, for a message whose lines end with `eol`.
pub(crate) fn in_form(
    alloc: Global,
    field: &[u8],
    form: FieldForm,
    eol: Ending,
) -> Result<Vec<u8>, AllocError>
    requires { eol ≢ Ending.Missing }
    ensures { IfOk result (λ made. made.items ≡ field_in_form form eol field.now) }
{
    let field = encoded_if(alloc, field, form, eol)?;
    if form.turned {
        turned(alloc, &field, eol)
    } else {
        Ok(field)
    }
}

// A field in encoded words, if they are asked for.
fn encoded_if(
    alloc: Global,
    field: &[u8],
    form: FieldForm,
    eol: Ending,
) -> Result<Vec<u8>, AllocError>
    requires { eol ≢ Ending.Missing }
    ensures { IfOk result (λ made. made.items ≡ if form.encoded then field_in_words eol field.now else field.now) }
{
    if form.encoded {
        worded_field(alloc, field, eol)
    } else {
        Vec::from_slice(alloc, field)
    }
}
