//! Values of fields on one line (RFC 5322, 2.2.3).

ghost use Rattle.std.specs.Prelude.{◌≡◌, IfOk, map};
ghost use Rattle.mk_wording.specs.Values.{line_byte as byte_of_line};

use std::alloc::{AllocError, Global};

const LINE_FEED: u8 = b'\n';

const CARRIAGE_RETURN: u8 = b'\r';

/// The text with spaces in the places of its line breaks.
pub fn on_one_line(alloc: Global, text: &[u8]) -> Result<Vec<u8>, AllocError>
    ensures { IfOk result (λ line. line.items ≡ map byte_of_line text.now) }
{
    text.iter().map(|byte| line_byte(*byte)).collect(alloc)
}

fn line_byte(byte: u8) -> u8
    ensures { result ≡ byte_of_line byte }
{
    if byte == CARRIAGE_RETURN || byte == LINE_FEED {
        b' '
    } else {
        byte
    }
}
