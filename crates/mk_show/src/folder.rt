//! Folders that files are put into.

ghost use Rattle.std.specs.Prelude.{◌≡◌, ◌<◌, ℕ, true, false, List, Ok, Option, IfErr, OnOk};
ghost use Rattle.mk_line.specs.Meters.{ticked};
ghost use Rattle.mk_view.specs.GivenNames.{is_safe};
ghost use Rattle.mk_show.specs.Folders.{Files as FilesOf, IsThere, Puts};
ghost use Rattle.mk_show.specs.GivenPieces.{IsLeft};
ghost use Rattle.mk_show.specs.Unpacking.{tried as name_tried};

use crate::contents::Content;
use mk_transfer::Stop;

/// A device that keeps files by their names. It counts its failures; the count stays at the greatest `u64` once it is there.
pub trait Folder {
    /// The files in it, if the device tells them: those of a real folder aren't known.
    ghost files: { Self → Option FilesOf };

    ghost failures: { Self → ℕ };

    /// Puts a content under a name, which leads to nothing outside the folder, and answers true. If a file has the name and
    /// `over` is false, it writes nothing, takes nothing of the content, and answers false. If it fails, or memory runs out, a
    /// file that has the name stays as it was.
    fn put(&mut self, name: &[u8], content: &mut Content<'_>, over: bool) -> Result<bool, Stop>
        requires { is_safe name.now ≡ true }
        ensures files { (text : List ℕ) → IsLeft content.old text → Puts result over (files self.old) (files self.new) name.now text }
        ensures untaken { result ≡ Ok false → content.new ≡ content.old }
        ensures failed { IfErr result (λ stop. stop ≡ Stop.Fault → failures self.new ≡ ticked (failures self.old)) }
        ensures memory { IfErr result (λ stop. stop ≡ Stop.Memory → failures self.new ≡ failures self.old) }
        ensures went_well { OnOk result (failures self.new ≡ failures self.old) };

    /// How many of the names NAME, NAME.1, NAME.2 and so on are known to be those of files, from the first on, so that they needn't
    /// be tried. By default none is.
    fn tried(&self, name: &[u8]) -> u64
        ensures { (n : ℕ) → n < result → IsThere (files self.now) (name_tried name.now n) }
    {
        0
    }

    /// Notes that so many of them are those of files, by which a later content of that name is put sooner. By default nothing is
    /// kept.
    fn keep_tried(&mut self, name: &[u8], count: u64)
        ensures files { files self.new ≡ files self.old }
        ensures failures { failures self.new ≡ failures self.old }
    {}

    /// How many times it failed.
    fn faults(&self) -> u64
        ensures { result ≡ failures self.now };
}
