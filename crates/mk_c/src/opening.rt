//! The calls that open a handle and close it.
ghost use Rattle.std.specs.Prelude.{◌≡◌, None};
ghost use Rattle.mk_edit.specs.Histories.{started};
ghost use Rattle.mk_c.specs.Calls.{BeginsWith, Loads, Opens};
ghost use Rattle.mk_c.specs.Desks.{opened};
ghost use Rattle.mk_c.specs.inner.Steps.{OpensWith};

use crate::editor::Editor;
use crate::handle::Handle;
use crate::status::{Place, Reason, told};
use std::alloc::Global;

/// Opens a handle with a message, which is copied. What the handle held before is let go.
#[unsafe(no_mangle)]
pub extern "C" fn mk_c_start(
    alloc: Global,
    handle: &mut Handle,
    text: &[u8],
    place: &mut Place,
) -> u32
    ensures { Opens (BeginsWith (opened (started text.now))) result place.new handle.new.desk }
{
    open(alloc, handle, Editor::start(alloc, text), place)
}

/// Opens a handle with a message and its journal.
#[unsafe(no_mangle)]
pub extern "C" fn mk_c_load(
    alloc: Global,
    handle: &mut Handle,
    text: &[u8],
    journal: &[u8],
    place: &mut Place,
) -> u32
    ensures { Opens (Loads text.now journal.now) result place.new handle.new.desk }
{
    open(alloc, handle, Editor::load(alloc, text, journal), place)
}

/// Opens a handle with what a call gave, or closes it.
pub(crate) fn open(
    alloc: Global,
    handle: &mut Handle,
    begun: Result<Editor, Reason>,
    place: &mut Place,
) -> u32
    ensures { OpensWith begun result place.new handle.new.desk }
{
    let _before = handle.take(alloc);
    let editor = match begun {
        Ok(editor) => editor,
        Err(reason) => return told(Err(reason), place),
    };
    match Box::new(alloc, editor) {
        Ok(editor) => {
            handle.give(editor);
            told(Ok(()), place)
        }
        Err(_) => told(Err(Reason::Memory), place),
    }
}

/// Closes a handle, and frees what it held. A handle that is closed stays so.
#[unsafe(no_mangle)]
pub extern "C" fn mk_c_close(alloc: Global, handle: &mut Handle)
    ensures { handle.new.desk ≡ None }
{
    let _held = handle.take(alloc);
}
