//! Addresses with their names in encoded words (RFC 5322, 3.4; RFC 2047, 5).

ghost use Rattle.std.specs.Prelude.{◌≡◌, ◌≢◌, [], if◌then◌else◌, IfOk};
ghost use Rattle.std.specs.Option.{option_map};
ghost use Rattle.mk_head.specs.Values.{Plain};
ghost use Rattle.mk_wording.specs.Addresses.{angle, worded_address as address_in_words};
ghost use Rattle.mk_wording.specs.Scanned.{before_mark, from_mark};
ghost use Rattle.mk_wording.specs.Stretches.{part_before, worded_text as text_in_words};
ghost use Rattle.mk_wording.specs.declared.stretches.Outside.TheVariants.{Names, Ascii};

use crate::scanning::mark_place;
use crate::stretches::{Outside, worded_text};
use mk_line::Ending;
use std::alloc::{AllocError, Global};

/// What begins the address after a name.
const ANGLE: &[u8; 1] = b"<";

/// An address with its name in encoded words, or the name of a group, where they need them. `None` where the address isn't
/// ASCII.
pub(crate) fn worded_address(
    alloc: Global,
    text: &[u8],
    is_group: bool,
    eol: Ending,
) -> Result<Option<Vec<u8>>, AllocError>
    requires { eol ≢ Ending.Missing }
    ensures { IfOk result (λ worded. option_map (λ v. v.items) worded ≡ address_in_words eol is_group (before_mark angle Plain text.now) (from_mark angle Plain text.now)) }
{
    let (name, address) = text.split_at(mark_place(text, ANGLE));
    if address.is_empty() {
        return worded_text(alloc, name, alone(is_group), eol);
    }
    named(alloc, name, address, eol)
}

// What a text without an angle is.
fn alone(is_group: bool) -> Outside
    ensures { result ≡ (if is_group then Outside.Names else Outside.Ascii) }
{
    if is_group {
        Outside::Names
    } else {
        Outside::Ascii
    }
}

// A name and the address after it.
fn named(
    alloc: Global,
    name: &[u8],
    address: &[u8],
    eol: Ending,
) -> Result<Option<Vec<u8>>, AllocError>
    requires { eol ≢ Ending.Missing }
    ensures { IfOk result (λ worded. option_map (λ v. v.items) worded ≡ part_before [] (text_in_words Names eol name.now) (text_in_words Ascii eol address.now)) }
{
    let Some(mut worded) = worded_text(alloc, name, Outside::Names, eol)? else {
        return Ok(None);
    };
    let Some(rest) = worded_text(alloc, address, Outside::Ascii, eol)? else {
        return Ok(None);
    };
    worded.extend_from_slice(&rest)?;
    Ok(Some(worded))
}
