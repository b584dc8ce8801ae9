//! The calls for mailboxes: a mailbox is opened, is given bytes, and answers its messages one by one.
ghost use Rattle.std.specs.Prelude.{◌≡◌};
ghost use Rattle.mk_mailbox.specs.Places.{takes_place};
ghost use Rattle.mk_c.specs.Calls.{BeginsWith, Calls, Opens};
ghost use Rattle.mk_c.specs.Desks.{opened_mailbox};
ghost use Rattle.mk_c.specs.Mail.{GoesOn, way_of};

use crate::editor::Editor;
use crate::handle::Handle;
use crate::opening::open;
use crate::status::{Place, Reason, told};
use mk_mailbox::{FromLines, Place as Spot};
use std::alloc::Global;

const DATED: u32 = 1;

const FIELDED: u32 = 2;

/// Opens a handle with a mailbox. It is cut at From-lines with a date where the number is 1, at those before a field where it is 2,
/// and else at each.
#[unsafe(no_mangle)]
pub extern "C" fn mk_c_mailbox(
    alloc: Global,
    handle: &mut Handle,
    from_lines: u32,
    place: &mut Place,
) -> u32
    ensures { Opens (BeginsWith (opened_mailbox (way_of from_lines))) result place.new handle.new.desk }
{
    let begun = Editor::of_mailbox(alloc, from_lines_of(from_lines));
    open(alloc, handle, begun, place)
}

/// Answers the next message of a mailbox, which is given bytes: the last ones of the mailbox, or not. Also says how many bytes were
/// read. Those that weren't read are to be given again; those that were are kept, whatever the status is.
#[unsafe(no_mangle)]
pub extern "C" fn mk_c_next(
    alloc: Global,
    handle: &mut Handle,
    bytes: &[u8],
    last: bool,
    used: &mut usize,
    place: &mut Place,
) -> u32
    ensures { Calls (GoesOn bytes.now last used.new) result place.new handle.old.desk handle.new.desk }
{
    let Some(mut editor) = handle.take(alloc) else {
        *used = 0;
        return told(Err(Reason::Closed), place);
    };
    let (read, ended) = editor.next(bytes, last);
    *used = read;
    handle.give(editor);
    told(ended, place)
}

/// Whether a text may stand where a message of a mailbox stands: the messages around it stay as they are then, and it is one.
#[unsafe(no_mangle)]
pub extern "C" fn mk_c_fits(from_lines: u32, message: &[u8], text: &[u8]) -> bool
    ensures { result ≡ takes_place (way_of from_lines) message.now text.now }
{
    Spot::of(from_lines_of(from_lines), message).fits(text)
}

fn from_lines_of(number: u32) -> FromLines
    ensures { result ≡ way_of number }
{
    match number {
        DATED => FromLines::Dated,
        FIELDED => FromLines::Fielded,
        _ => FromLines::Any,
    }
}
