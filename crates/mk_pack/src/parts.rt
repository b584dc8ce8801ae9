//! The files that are packed, as the command line names them.

ghost use Rattle.std.specs.Prelude.{◌≡◌};
ghost use Rattle.mk_line.specs.Ascii.{slash};
ghost use Rattle.mk_pack.specs.Parts.{file_name as name_of_file, is_text as is_of_text};

use mk_build::Attach;
use mk_script::parted;
use std::alloc::{AllocError, AllocFailed, Global};

const COLON: u8 = b':';

const SLASH: u8 = b'/';

const TEXT: &[u8; 4] = b"text";

/// A file that is packed as a part: TYPE:FILE.
#[derive(Clone, Copy, Debug)]
pub struct Spec<'a> {
    pub media: &'a [u8],
    pub path: &'a [u8],
}

impl<'a> Spec<'a> {
    ghost use Rattle.std.specs.Prelude.{◌≡◌, IfErr, IfOk};
    ghost use Rattle.std.specs.Option.{option_map};
    ghost use Rattle.mk_build.specs.BuildViews.{attached_of};
    ghost use Rattle.mk_pack.specs.Parts.{attached_file, file_name as name_of_file, inlined_file, is_text as is_of_text, spec_of, spec_view};

    /// What a word names, which is cut at its first colon. `None` where it has none.
    pub fn of(word: &'a [u8]) -> Option<Spec<'a>>
        ensures { option_map spec_view result ≡ spec_of word.now }
    {
        match parted(word, COLON) {
            Some((media, path)) => Some(Spec { media, path }),
            None => None,
        }
    }

    /// Whether its media type is one of texts, in any case (RFC 2046, 4.1).
    pub fn is_text(&self) -> bool
        ensures { result ≡ is_of_text (spec_view self.now).media }
    {
        is_text(self.media)
    }

    /// The part for the file, where it holds these bytes. Out of memory, they come back.
    pub fn attach(&self, alloc: Global, text: Vec<u8>) -> Result<Attach, AllocFailed<Vec<u8>>>
        ensures part { IfOk result (λ part. attached_of part ≡ attached_file (spec_view self.now) text.items) }
        ensures returned { IfErr result (λ failed. failed.value ≡ text) }
    {
        let Ok((media, name)) = self.described(alloc) else {
            return Err(AllocFailed { value: text });
        };
        Ok(Attach {
            media,
            name: Some(name),
            text,
            base64: !is_text(self.media),
        })
    }

    // The media type and the name of the file.
    fn described(&self, alloc: Global) -> Result<(Vec<u8>, Vec<u8>), AllocError>
        ensures { IfOk result (λ said. (said.0.items ≡ (spec_view self.now).media) × (said.1.items ≡ name_of_file (spec_view self.now).path)) }
    {
        let media = Vec::from_slice(alloc, self.media)?;
        let name = Vec::from_slice(alloc, file_name(self.path))?;
        Ok((media, name))
    }

    /// The same, to be shown if it is a text: a text has no name then. Out of memory, the bytes come back.
    pub fn inline(&self, alloc: Global, text: Vec<u8>) -> Result<Attach, AllocFailed<Vec<u8>>>
        ensures part { IfOk result (λ part. attached_of part ≡ inlined_file (spec_view self.now) text.items) }
        ensures returned { IfErr result (λ failed. failed.value ≡ text) }
    {
        if !is_text(self.media) {
            return self.attach(alloc, text);
        }
        match Vec::from_slice(alloc, self.media) {
            Ok(media) => Ok(Attach {
                media,
                name: None,
                text,
                base64: false,
            }),
            Err(_) => Err(AllocFailed { value: text }),
        }
    }
}

// What follows the last slash of a path.
fn file_name(path: &[u8]) -> &[u8]
    ensures { result.now ≡ name_of_file path.now }
{
    let mut name = path;
    'each: while let Some((_, following)) = parted(name, SLASH) {
        name = following;
    }
    name
}

/// Whether a media type is one of texts, in any case.
pub(crate) fn is_text(media: &[u8]) -> bool
    ensures { result ≡ is_of_text media.now }
{
    match parted(media, SLASH) {
        Some((main, _)) => main.eq_ignore_ascii_case(TEXT),
        None => false,
    }
}
