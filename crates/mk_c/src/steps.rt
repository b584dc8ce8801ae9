//! What is done with the edits that were put down, and with the steps that were made.
ghost use Rattle.std.specs.Prelude.{◌+◌, ◌≡◌, Ok, [], length};
ghost use Rattle.mk_decide.specs.Edits.{Redo, Undo};
ghost use Rattle.mk_edit.specs.Histories.{text_now};
ghost use Rattle.mk_c.specs.Calls.{Calls, IsChecked, MakesPutDown, Obeys};

use crate::handle::Handle;
use crate::status::{Place, Reason, told};
use std::alloc::Global;

/// Forgets the edits that were put down.
#[unsafe(no_mangle)]
pub extern "C" fn mk_c_forget(alloc: Global, handle: &mut Handle, place: &mut Place) -> u32
    ensures { Calls (λ ending old new. (ending ≡ Ok tt) × (new ≡ record old { pending = [] })) result place.new handle.old.desk handle.new.desk }
{
    let Some(mut editor) = handle.take(alloc) else {
        return told(Err(Reason::Closed), place);
    };
    editor.forget();
    handle.give(editor);
    told(Ok(()), place)
}

/// What the first edit that was put down would answer, short of memory. None is made, and all are forgotten.
#[unsafe(no_mangle)]
pub extern "C" fn mk_c_check(alloc: Global, handle: &mut Handle, place: &mut Place) -> u32
    ensures { Calls (λ ending old new. IsChecked old.pending (text_now old.history) ending × (new ≡ record old { pending = [] }))
        result place.new handle.old.desk handle.new.desk }
{
    let Some(mut editor) = handle.take(alloc) else {
        return told(Err(Reason::Closed), place);
    };
    let ended = editor.check();
    handle.give(editor);
    told(ended, place)
}

/// Makes the edits that were put down as one step, all or none, and forgets them. Where one is refused, `place.edit` says which.
#[unsafe(no_mangle)]
pub extern "C" fn mk_c_make(alloc: Global, handle: &mut Handle, place: &mut Place) -> u32
    ensures { Calls MakesPutDown result place.new handle.old.desk handle.new.desk }
{
    let Some(mut editor) = handle.take(alloc) else {
        return told(Err(Reason::Closed), place);
    };
    let ended = editor.make();
    handle.give(editor);
    told(ended, place)
}

/// Takes the last step back.
#[unsafe(no_mangle)]
pub extern "C" fn mk_c_undo(alloc: Global, handle: &mut Handle, place: &mut Place) -> u32
    ensures { Calls (Obeys Undo) result place.new handle.old.desk handle.new.desk }
{
    let Some(mut editor) = handle.take(alloc) else {
        return told(Err(Reason::Closed), place);
    };
    let ended = editor.undo();
    handle.give(editor);
    told(ended, place)
}

/// Makes the step that was taken back last again.
#[unsafe(no_mangle)]
pub extern "C" fn mk_c_redo(alloc: Global, handle: &mut Handle, place: &mut Place) -> u32
    ensures { Calls (Obeys Redo) result place.new handle.old.desk handle.new.desk }
{
    let Some(mut editor) = handle.take(alloc) else {
        return told(Err(Reason::Closed), place);
    };
    let ended = editor.redo();
    handle.give(editor);
    told(ended, place)
}

/// How many steps are done, and how many undone.
#[unsafe(no_mangle)]
pub extern "C" fn mk_c_counts(
    alloc: Global,
    handle: &mut Handle,
    done: &mut usize,
    undone: &mut usize,
    place: &mut Place,
) -> u32
    ensures { Calls (λ ending old new. (ending ≡ Ok tt) × (new ≡ old) × (done.new ≡ old.history.place) × (done.new + undone.new ≡ length old.history.steps))
        result place.new handle.old.desk handle.new.desk }
{
    let Some(editor) = handle.take(alloc) else {
        return told(Err(Reason::Closed), place);
    };
    (*done, *undone) = editor.counts();
    handle.give(editor);
    told(Ok(()), place)
}
