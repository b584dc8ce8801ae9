//! Numbers, paths and columns, written after a text.
ghost use Rattle.std.specs.Prelude.{◌≡◌, ◌++◌, decimal, OnErr, OnOk};
ghost use Rattle.mk_line.specs.inner.Kept.{IsKept};
ghost use Rattle.mk_view.specs.Listing.{path_text};
ghost use Rattle.mk_view.specs.inner.Columns.{column, dotted};

use itoa::Buffer;
use std::alloc::AllocError;

const DOT: u8 = b'.';

const SPACE: u8 = b' ';

/// Writes a path after a text: its numbers, joined by dots. After an error the text is as before.
pub fn push_path(text: &mut Vec<u8>, path: &[u32]) -> Result<(), AllocError>
    ensures appended { OnOk result (text.new.items ≡ text.old.items ++ path_text path.now) }
    ensures unchanged { OnErr result (text.new.items ≡ text.old.items) }
{
    let size = text.len();
    let pushed = push_numbers(text, path);
    if pushed.is_err() {
        text.truncate(size);
    }
    pushed
}

// The same; after an error some of it may follow the text.
fn push_numbers(text: &mut Vec<u8>, path: &[u32]) -> Result<(), AllocError>
    ensures appended { OnOk result (text.new.items ≡ text.old.items ++ path_text path.now) }
    ensures kept { IsKept text.old.items text.new.items }
{
    if let Some((first, others)) = path.split_first() {
        push_number(text, u64::from(*first))?;
        for number in others {
            push_dotted(text, *number)?;
        }
    }
    Ok(())
}

// Writes a number after a dot.
fn push_dotted(text: &mut Vec<u8>, number: u32) -> Result<(), AllocError>
    ensures appended { OnOk result (text.new.items ≡ text.old.items ++ dotted number) }
    ensures kept { IsKept text.old.items text.new.items }
{
    text.push(DOT)?;
    push_number(text, u64::from(number))
}

/// Writes a number after a text. After an error the text is as before.
pub(crate) fn push_number(text: &mut Vec<u8>, number: u64) -> Result<(), AllocError>
    ensures appended { OnOk result (text.new.items ≡ text.old.items ++ decimal number) }
    ensures unchanged { OnErr result (text.new.items ≡ text.old.items) }
{
    let mut buffer = Buffer::new();
    text.extend_from_slice(buffer.format(number).as_bytes())
}

/// Writes a column after another: a space, and the text.
pub(crate) fn push_column(text: &mut Vec<u8>, column_text: &[u8]) -> Result<(), AllocError>
    ensures { OnOk result (text.new.items ≡ text.old.items ++ column column_text.now) }
{
    text.push(SPACE)?;
    text.extend_from_slice(column_text)
}

/// Writes a number as a column.
pub(crate) fn push_number_column(text: &mut Vec<u8>, number: usize) -> Result<(), AllocError>
    ensures { OnOk result (text.new.items ≡ text.old.items ++ column (decimal number)) }
{
    text.push(SPACE)?;
    push_number(text, number as u64)
}
