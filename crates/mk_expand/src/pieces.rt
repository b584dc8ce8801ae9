//! The pieces of a script: texts that its words name by their numbers (own).

use mk_line::Ending;
use mk_script::turned;
use std::alloc::{AllocError, Global};

/// The pieces that a script is given.
#[derive(Clone, Copy, Debug)]
pub struct Pieces<'a> {
    /// Their texts. Pieces count from 1.
    pub texts: &'a [Vec<u8>],
    /// Whether their lines end as those of the message do. What is encoded as base64 stays as it is.
    pub turned: bool,
}

impl<'a> Pieces<'a> {
    ghost use Rattle.std.specs.Prelude.{◌≡◌, ◌≢◌, IfOk};
    ghost use Rattle.mk_expand.specs.Pieces.{as_given, piece_lines, piece_text};
    ghost use Rattle.mk_expand.specs.Views.{pieces_of};
    ghost use Rattle.mk_script.specs.ScriptViews.{items_of};

    /// Pieces that go in as they are.
    pub fn as_given(texts: &'a [Vec<u8>]) -> Pieces<'a>
        ensures { pieces_of result ≡ as_given (items_of texts.now) }
    {
        Pieces {
            texts,
            turned: false,
        }
    }

    /// The text of a number.
    pub(crate) fn text(&self, number: u32) -> &'a [u8]
        ensures { result.now ≡ piece_text (pieces_of self.now) number }
    {
        let index = number.saturating_sub(1) as usize;
        match self.texts.get(index) {
            Some(piece) => piece,
            None => b"",
        }
    }

    /// The text of a number as lines of the message, which end with `eol`.
    pub(crate) fn lines(
        &self,
        alloc: Global,
        number: u32,
        eol: Ending,
    ) -> Result<Vec<u8>, AllocError>
        requires { eol ≢ Ending.Missing }
        ensures { IfOk result (λ text. text.items ≡ piece_lines (pieces_of self.now) eol number) }
    {
        let text = self.text(number);
        if self.turned {
            turned(alloc, text, eol)
        } else {
            Vec::from_slice(alloc, text)
        }
    }
}
