//! The names under which contents are put into a folder.

ghost use Rattle.std.specs.Prelude.{◌≡◌, ◌⊎◌, true, false, None, Ok, IfOk, IfErr, IfSome, List, OnOk, OnErr, ℕ};
ghost use Rattle.mk_mailbox.specs.Devices.{Rose};
ghost use Rattle.mk_view.specs.GivenNames.{is_safe};
ghost use Rattle.mk_show.specs.GivenPieces.{IsLeft};
ghost use Rattle.mk_show.specs.Unpacking.{is_over, tried as name_tried};
ghost use Rattle.mk_show.specs.UnpackClauses.{PutsFront, PutsNone, PutsText};

use crate::contents::Content;
use crate::folder::Folder;
use mk_transfer::Stop;
use mk_view::numbered;
use std::alloc::{AllocError, Global};

/// How many names are tried by default: that of the content, and those with the numbers from 1 to 99 after it.
const MOST_TRIES: u64 = 100;

/// What becomes of a content whose name a file has already.
#[derive(Clone, Copy, Debug, PartialEq, Eq)]
pub enum Clash {
    /// It takes the place of the file.
    Over,
    /// It gets the first free one of 99 more names: that with a number after it.
    Numbered,
    /// It gets the first free one of the names with a number after it, as many as there are.
    Counted,
}

impl Clash {
    ghost use Rattle.std.specs.Prelude.{◌≡◌};
    ghost use Rattle.mk_show.specs.Unpacking.{most_tries, task_clash};

    /// The same for a content that is whole, or for what decodes of one that was cut off, which never takes the place of a file.
    pub(crate) fn of_task(self, cut: bool) -> Clash
        ensures { result ≡ task_clash cut self }
    {
        match self {
            Clash::Over if cut => Clash::Numbered,
            Clash::Over | Clash::Numbered | Clash::Counted => self,
        }
    }

    // How many names are tried.
    fn tries(self) -> u64
        ensures { result ≡ most_tries self }
    {
        match self {
            Clash::Over => 1,
            Clash::Numbered => MOST_TRIES,
            Clash::Counted => u64::MAX,
        }
    }
}

/// Puts a content under the first of the names that is free, or under the name itself if files may be overwritten. Answers
/// the name that was taken.
pub(crate) fn put_free<F: Folder>(
    alloc: Global,
    dir: &mut F,
    name: &[u8],
    content: &mut Content<'_>,
    clash: Clash,
) -> Result<Option<Vec<u8>>, Stop>
    requires safe { is_safe name.now ≡ true }
    requires decodes { (text : List ℕ) × IsLeft content.old text }
    ensures put { IfOk result (λ put. IfSome put (λ target. (text : List ℕ) → IsLeft content.old text → PutsText clash (F.files dir.old) (F.files dir.new) name.now text target.items)) }
    ensures full { result ≡ Ok None → PutsNone clash (F.files dir.old) (F.files dir.new) name.now }
    ensures stopped { OnErr result ((text : List ℕ) → IsLeft content.old text → (F.files dir.new ≡ F.files dir.old) ⊎ PutsFront clash (F.files dir.old) (F.files dir.new) name.now text) }
    ensures failed { IfErr result (λ stop. stop ≡ Stop.Fault → Rose (F.failures dir.old) (F.failures dir.new)) }
    ensures memory { IfErr result (λ stop. stop ≡ Stop.Memory → F.failures dir.new ≡ F.failures dir.old) }
    ensures well { OnOk result (F.failures dir.new ≡ F.failures dir.old) }
{
    match clash {
        Clash::Over => put_over(alloc, dir, name, content),
        Clash::Numbered | Clash::Counted => put_numbered(alloc, dir, name, content, clash),
    }
}

// Puts a content under a name, in the place of the file that has it.
fn put_over<F: Folder>(
    alloc: Global,
    dir: &mut F,
    name: &[u8],
    content: &mut Content<'_>,
) -> Result<Option<Vec<u8>>, Stop>
    requires safe { is_safe name.now ≡ true }
    requires decodes { (text : List ℕ) × IsLeft content.old text }
    ensures put { IfOk result (λ put. IfSome put (λ target. (text : List ℕ) → IsLeft content.old text → PutsText Clash.Over (F.files dir.old) (F.files dir.new) name.now text target.items)) }
    ensures full { result ≡ Ok None → PutsNone Clash.Over (F.files dir.old) (F.files dir.new) name.now }
    ensures stopped { OnErr result ((text : List ℕ) → IsLeft content.old text → (F.files dir.new ≡ F.files dir.old) ⊎ PutsFront Clash.Over (F.files dir.old) (F.files dir.new) name.now text) }
    ensures failed { IfErr result (λ stop. stop ≡ Stop.Fault → Rose (F.failures dir.old) (F.failures dir.new)) }
    ensures memory { IfErr result (λ stop. stop ≡ Stop.Memory → F.failures dir.new ≡ F.failures dir.old) }
    ensures well { OnOk result (F.failures dir.new ≡ F.failures dir.old) }
{
    let target = Vec::from_slice(alloc, name)?;
    if dir.put(&target, content, true)? {
        Ok(Some(target))
    } else {
        Ok(None)
    }
}

// Puts a content under the first of the names that is free.
fn put_numbered<F: Folder>(
    alloc: Global,
    dir: &mut F,
    name: &[u8],
    content: &mut Content<'_>,
    clash: Clash,
) -> Result<Option<Vec<u8>>, Stop>
    requires kept { is_over clash ≡ false }
    requires safe { is_safe name.now ≡ true }
    requires decodes { (text : List ℕ) × IsLeft content.old text }
    ensures put { IfOk result (λ put. IfSome put (λ target. (text : List ℕ) → IsLeft content.old text → PutsText clash (F.files dir.old) (F.files dir.new) name.now text target.items)) }
    ensures full { result ≡ Ok None → PutsNone clash (F.files dir.old) (F.files dir.new) name.now }
    ensures stopped { OnErr result ((text : List ℕ) → IsLeft content.old text → (F.files dir.new ≡ F.files dir.old) ⊎ PutsFront clash (F.files dir.old) (F.files dir.new) name.now text) }
    ensures failed { IfErr result (λ stop. stop ≡ Stop.Fault → Rose (F.failures dir.old) (F.failures dir.new)) }
    ensures memory { IfErr result (λ stop. stop ≡ Stop.Memory → F.failures dir.new ≡ F.failures dir.old) }
    ensures well { OnOk result (F.failures dir.new ≡ F.failures dir.old) }
{
    for number in dir.tried(name)..clash.tries() {
        let target = tried(alloc, name, number)?;
        if dir.put(&target, content, false)? {
            dir.keep_tried(name, number + 1);
            return Ok(Some(target));
        }
    }
    Ok(None)
}

// The name that is tried after this many others.
fn tried(alloc: Global, name: &[u8], number: u64) -> Result<Vec<u8>, AllocError>
    ensures written { IfOk result (λ target. target.items ≡ name_tried name.now number) }
    ensures safe { IfOk result (λ target. is_safe name.now ≡ true → is_safe target.items ≡ true) }
{
    if number == 0 {
        Vec::from_slice(alloc, name)
    } else {
        numbered(alloc, name, number)
    }
}
