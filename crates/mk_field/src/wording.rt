//! Values of fields as they are printed, with their encoded words decoded or as they are (RFC 2047).

ghost use Rattle.std.specs.Prelude.{◌≡◌, ◌++◌, OnOk};
ghost use Rattle.mk_field.specs.Wording.{one_line as text_on_one_line, printed_value};

use crate::filters::ValueForm;
use mk_code::text_decode;
use mk_head::without_endings;
use mk_wording::{on_one_line, push_addresses, strip};
use std::alloc::{AllocError, Global};

const LINE_FEED: u8 = b'\n';

/// Writes a value after a text, in one of its forms. A line break that an encoded word holds becomes a space.
pub(crate) fn push_value(
    alloc: Global,
    text: &mut Vec<u8>,
    value: &[u8],
    form: ValueForm,
) -> Result<(), AllocError>
    ensures { OnOk result (text.new.items ≡ text.old.items ++ printed_value form value.now) }
{
    match form {
        ValueForm::AsWritten => Ok(text.extend_from_slice(value)?),
        ValueForm::Unfolded => push_line(alloc, text, &without_endings(alloc, value)?),
        ValueForm::Decoded => push_line(alloc, text, &text_decode(alloc, value)?),
        ValueForm::Addresses => {
            let line = on_one_line(alloc, &without_endings(alloc, value)?)?;
            push_addresses(alloc, text, &line)
        }
    }
}

// Writes a value after a text as a line, without the blanks at both ends.
fn push_line(alloc: Global, text: &mut Vec<u8>, value: &[u8]) -> Result<(), AllocError>
    ensures { OnOk result (text.new.items ≡ text.old.items ++ text_on_one_line value.now) }
{
    let line = on_one_line(alloc, value)?;
    text.extend_from_slice(strip(&line))?;
    text.push(LINE_FEED)?;
    Ok(())
}
