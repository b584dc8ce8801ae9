//! Steps of a document taken back and made again in place.
ghost use Rattle.std.specs.Prelude.{◌≡◌, map, OnOk, OnErr};
ghost use Rattle.mk_splice.specs.Splices.{back_step, forth_step, GoesBack, GoesForth};
ghost use Rattle.mk_splice.specs.Views.{splice_of};

use crate::doc::{Doc, read_root};
use mk_splice::{Splice, make_again_in, peak_back, peak_forth, take_back_in};
use std::alloc::{AllocError, Global};

impl Doc {
    ghost use Rattle.std.specs.Prelude.{◌≡◌, map, OnOk, OnErr};
    ghost use Rattle.mk_splice.specs.Splices.{back_step, forth_step, GoesBack, GoesForth};
    ghost use Rattle.mk_splice.specs.Views.{splice_of};

    /// Takes a step back, its last splice first, and reads the text again. Out of memory, nothing changes: the
    /// bytes are put back in the room that they had.
    pub fn take_back(&mut self, alloc: Global, step: &[Splice]) -> Result<(), AllocError>
        requires { GoesBack (map splice_of step.now) self.old }
        ensures ok { OnOk result (self.new ≡ back_step (map splice_of step.now) self.old) }
        ensures err { OnErr result (self.new ≡ self.old) }
    {
        // No memory holds what no number does, so that is refused as a growth.
        let most = peak_back(self.text.bytes().len(), step).unwrap_or(usize::MAX);
        self.text.reserve_whole(most)?;
        take_back_in(&mut self.text, step);
        match read_root(alloc, self.text.bytes()) {
            Ok((envelope, root)) => {
                self.envelope = envelope;
                self.root = root;
                Ok(())
            }
            Err(error) => {
                make_again_in(&mut self.text, step);
                Err(error)
            }
        }
    }

    /// Makes a step again, its first splice first, and reads the text again. Out of memory, nothing changes: the
    /// bytes are put back in the room that they had.
    pub fn make_again(&mut self, alloc: Global, step: &[Splice]) -> Result<(), AllocError>
        requires { GoesForth (map splice_of step.now) self.old }
        ensures ok { OnOk result (self.new ≡ forth_step (map splice_of step.now) self.old) }
        ensures err { OnErr result (self.new ≡ self.old) }
    {
        // No memory holds what no number does, so that is refused as a growth.
        let most = peak_forth(self.text.bytes().len(), step).unwrap_or(usize::MAX);
        self.text.reserve_whole(most)?;
        make_again_in(&mut self.text, step);
        match read_root(alloc, self.text.bytes()) {
            Ok((envelope, root)) => {
                self.envelope = envelope;
                self.root = root;
                Ok(())
            }
            Err(error) => {
                take_back_in(&mut self.text, step);
                Err(error)
            }
        }
    }
}
