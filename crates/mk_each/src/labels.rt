//! The number of a message before each line that is said of it.

ghost use Rattle.std.specs.Prelude.{◌≡◌, ◌++◌, IfOk, OnOk};
ghost use Rattle.mk_each.specs.Labels.{labelled, message_label as label_of_message, number_label as label_of_number};

use mk_line::cut;
use std::alloc::{AllocError, Global};

/// Writes lines after a text, with a label before each.
pub(crate) fn push_labelled(
    text: &mut Vec<u8>,
    label: &[u8],
    lines: &[u8],
) -> Result<(), AllocError>
    ensures { OnOk result (text.new.items ≡ text.old.items ++ labelled label.now lines.now) }
{
    for line in cut(lines) {
        text.extend_from_slice(label)?;
        text.extend_from_slice(line.content)?;
        text.extend_from_slice(line.ending.bytes())?;
    }
    Ok(())
}

/// What stands before a line that reports something of a message.
pub(crate) fn message_label(alloc: Global, number: u64) -> Result<Vec<u8>, AllocError>
    ensures { IfOk result (λ label. label.items ≡ label_of_message number) }
{
    Ok(format!(in alloc; "message {number}: ")?.into_bytes())
}

/// What stands before a line that lists something of a message.
pub(crate) fn number_label(alloc: Global, number: u64) -> Result<Vec<u8>, AllocError>
    ensures { IfOk result (λ label. label.items ≡ label_of_number number) }
{
    Ok(format!(in alloc; "{number} ")?.into_bytes())
}
