//! What may be wrong with a message.
ghost use Rattle.std.specs.Prelude.{◌≡◌, ◌++◌, OnOk, map};
ghost use Rattle.mk_check.specs.FindingLines.{finding_name};
ghost use Rattle.mk_check.specs.Findings.{found_at};
ghost use Rattle.mk_check.specs.inner.FoundViews.{found_of};

use std::alloc::AllocError;

/// What may be wrong with a section of a message.
#[derive(Clone, Copy, Debug, PartialEq, Eq)]
pub enum Fault {
    /// A line of the fields isn't ASCII (RFC 5322, 2.2).
    NotAscii,
    /// A line has more than 998 bytes (RFC 5322, 2.1.1).
    LongLine,
    /// A line has a NUL.
    HasNul,
    /// A field comes again that a header has once at most (RFC 5322, 3.6).
    Repeated,
    /// Two words of a value have no semicolon between them, or no quotes around them (RFC 2045, 5.1).
    MissingSemicolon,
    /// The boundary is written as RFC 2231 writes long parameters, so it isn't read.
    ExtendedBoundary,
    /// A multipart names no boundary (RFC 2046, 5.1.1).
    NoBoundary,
    /// No line of a multipart is its delimiter.
    NoPart,
    /// No line closes a multipart.
    NotClosed,
    /// Nobody knows the transfer encoding.
    UnknownEncoding,
    /// The content isn't valid base64.
    BadBase64,
}

impl Fault {
    ghost use Rattle.std.specs.Prelude.{◌≡◌};
    ghost use Rattle.mk_check.specs.FindingLines.{finding_name};

    /// Its name.
    pub fn name(self) -> &'static str
        ensures { result.now ≡ finding_name self }
    {
        match self {
            Fault::NotAscii => "NotAscii",
            Fault::LongLine => "LongLine",
            Fault::HasNul => "HasNul",
            Fault::Repeated => "Repeated",
            Fault::MissingSemicolon => "MissingSemicolon",
            Fault::ExtendedBoundary => "ExtendedBoundary",
            Fault::NoBoundary => "NoBoundary",
            Fault::NoPart => "NoPart",
            Fault::NotClosed => "NotClosed",
            Fault::UnknownEncoding => "UnknownEncoding",
            Fault::BadBase64 => "BadBase64",
        }
    }
}

/// Something found in a section.
#[derive(Clone, Copy, Debug)]
pub(crate) struct Finding {
    /// Where, in bytes from the start of the message.
    pub place: usize,
    pub fault: Fault,
    /// The name of the field that it is about; empty if it is about none.
    pub field: &'static str,
}

/// Puts a fault after others, if it has a place.
pub(crate) fn push_at(
    found: &mut Vec<Finding>,
    fault: Fault,
    field: &'static str,
    place: Option<usize>,
) -> Result<(), AllocError>
    ensures { OnOk result (map found_of found.new.items ≡ map found_of found.old.items ++ found_at fault field.now place) }
{
    match place {
        Some(place) => Ok(found.push(Finding {
            place,
            fault,
            field,
        })?),
        None => Ok(()),
    }
}
