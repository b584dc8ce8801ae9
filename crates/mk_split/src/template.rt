//! How the files of messages are named: by a template with a place for the number.

ghost use Rattle.std.specs.Prelude.{◌≡◌, ◌++◌, option_map, replicate, OnOk};
ghost use Rattle.std.specs.List.{list_all};
ghost use Rattle.mk_split.specs.Templates.{is_template_byte as may_name, is_naming as gives_names, leads_well as leads, width_of as width_written, zero_digit};

use mk_script::parted;
use std::alloc::{AllocError, Global};
use std::marker::Model;

/// What stands before the place of the number.
const PERCENT: u8 = b'%';

const ZERO: u8 = b'0';

const NINE: u8 = b'9';

const FULL_STOP: u8 = b'.';

const HYPHEN: u8 = b'-';

const SLASH: u8 = b'/';

const BACKSLASH: u8 = b'\\';

const SPACE: u8 = b' ';

/// The last visible character of ASCII.
const TILDE: u8 = b'~';

/// A template for the names of files: `%d` stands for the number of a message, and `%0Nd` for the number with zeros before it, up to
/// N digits, from 1 to 9.
#[derive(Debug, Drop)]
pub struct Template<'a> {
    front: &'a [u8],
    width: usize,
    back: &'a [u8],
}

impl<'a> Model for Template<'a> {
    ghost use Rattle.std.specs.Prelude.{◌≡◌, true};
    ghost use Rattle.mk_split.specs.Templates.{Naming, is_naming};

    ghost Value = { Naming };

    ghost view = { λ t. record { front = t.front.now; width = t.width; back = t.back.now } };

    ghost invariant = { λ t. is_naming (record { front = t.front.now; width = t.width; back = t.back.now }) ≡ true };
}

impl<'a> Template<'a> {
    ghost use Rattle.std.specs.Prelude.{◌≡◌, true, IfOk};
    ghost use Rattle.mk_view.specs.GivenNames.{is_safe};
    ghost use Rattle.mk_split.specs.Templates.{template_name, template_of};

    /// Reads a template. `None` where a text has no place for the number, or more than one percent sign, or else a byte that can't
    /// stand in such a name: there are only visible ASCII and spaces, and no slash or backslash, and the name can't begin with a full
    /// stop or a hyphen.
    pub fn read(text: &'a [u8]) -> Option<Template<'a>>
        ensures { result ≡ template_of text.now }
    {
        let (front, rest) = parted(text, PERCENT)?;
        let (width, back) = width_of(rest)?;
        if is_naming(front, width, back) {
            Some(Template { front, width, back })
        } else {
            None
        }
    }

    /// The name of the file of a number. It leads to nothing outside a folder.
    pub fn name(&self, alloc: Global, number: u64) -> Result<Vec<u8>, AllocError>
        ensures named { IfOk result (λ name. name.items ≡ template_name self.now number) }
        ensures safe { IfOk result (λ name. is_safe name.items ≡ true) }
    {
        let digits = format!(in alloc; "{number}")?;
        let mut name = Vec::from_slice(alloc, self.front)?;
        push_zeros(&mut name, self.width.saturating_sub(digits.len()))?;
        name.extend_from_slice(digits.as_bytes())?;
        name.extend_from_slice(self.back)?;
        Ok(name)
    }
}

// Writes so many zeros after a text.
fn push_zeros(text: &mut Vec<u8>, count: usize) -> Result<(), AllocError>
    ensures { OnOk result (text.new.items ≡ text.old.items ++ replicate count zero_digit) }
{
    for _zero in 0..count {
        text.push(ZERO)?;
    }
    Ok(())
}

// The width that stands after a percent sign, and what follows it.
fn width_of(rest: &[u8]) -> Option<(usize, &[u8])>
    ensures { option_map (λ w. (w.0, w.1.now)) result ≡ width_written rest.now }
{
    match rest {
        [b'd', back @ ..] => Some((0, back)),
        [b'0', digit, b'd', back @ ..] if *digit > ZERO && *digit <= NINE => {
            Some((usize::from(*digit - ZERO), back))
        }
        _ => None,
    }
}

// Whether a template gives names of files.
fn is_naming(front: &[u8], width: usize, back: &[u8]) -> bool
    ensures { result ≡ gives_names (record { front = front.now; width = width; back = back.now }) }
{
    leads_well(front) && are_name_bytes(front) && are_name_bytes(back)
}

fn are_name_bytes(text: &[u8]) -> bool
    ensures { result ≡ list_all may_name text.now }
{
    for byte in text {
        if !is_name_byte(*byte) {
            return false;
        }
    }
    true
}

fn leads_well(front: &[u8]) -> bool
    ensures { result ≡ leads front.now }
{
    match front {
        [byte, ..] => *byte != FULL_STOP && *byte != HYPHEN,
        [] => true,
    }
}

fn is_name_byte(byte: u8) -> bool
    ensures { result ≡ may_name byte }
{
    byte >= SPACE && byte <= TILDE && !(byte == SLASH || byte == BACKSLASH || byte == PERCENT)
}
