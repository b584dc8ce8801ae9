//! The calls that answer bytes. The answer stays in the handle: its size is asked for first, and then it
//! is copied into memory of C's, and let go.
ghost use Rattle.std.specs.Prelude.{◌≡◌, length};
ghost use Rattle.mk_tree.specs.Documents.{tree};
ghost use Rattle.mk_tree.specs.Sections.{section_at};
ghost use Rattle.mk_edit.specs.Histories.{text_now};
ghost use Rattle.mk_edit.specs.Saving.{saved};
ghost use Rattle.mk_view.specs.Extracts.{IsExtract};
ghost use Rattle.mk_view.specs.Listing.{listing};
ghost use Rattle.mk_c.specs.Calls.{AnswersWith, Calls, Copies, IsMemory, IsNameAt, NoContentAt, NoNameAt};
ghost use Rattle.std.specs.Option.{option_map_or};

use crate::handle::Handle;
use crate::status::{Place, Reason, told};
use std::alloc::Global;

/// Answers the text as it stands.
#[unsafe(no_mangle)]
pub extern "C" fn mk_c_text(alloc: Global, handle: &mut Handle, place: &mut Place) -> u32
    ensures { Calls (AnswersWith (λ d answer. answer ≡ text_now d.history) IsMemory) result place.new handle.old.desk handle.new.desk }
{
    let Some(mut editor) = handle.take(alloc) else {
        return told(Err(Reason::Closed), place);
    };
    let ended = editor.show_text(alloc);
    handle.give(editor);
    told(ended, place)
}

/// Answers the journal: the steps, and the digest of the text.
#[unsafe(no_mangle)]
pub extern "C" fn mk_c_save(alloc: Global, handle: &mut Handle, place: &mut Place) -> u32
    ensures { Calls (AnswersWith (λ d answer. answer ≡ saved d.history) IsMemory) result place.new handle.old.desk handle.new.desk }
{
    let Some(mut editor) = handle.take(alloc) else {
        return told(Err(Reason::Closed), place);
    };
    let ended = editor.show_journal();
    handle.give(editor);
    told(ended, place)
}

/// Answers the listing of the sections, a line each: path, kind, type, transfer encoding, the offsets in bytes of its start, of
/// its body and of its end, and how many lines its fields and its body have.
#[unsafe(no_mangle)]
pub extern "C" fn mk_c_sections(alloc: Global, handle: &mut Handle, place: &mut Place) -> u32
    ensures { Calls (AnswersWith (λ d answer. answer ≡ listing (tree (text_now d.history))) IsMemory) result place.new handle.old.desk handle.new.desk }
{
    let Some(mut editor) = handle.take(alloc) else {
        return told(Err(Reason::Closed), place);
    };
    let ended = editor.show_sections(alloc);
    handle.give(editor);
    told(ended, place)
}

/// Answers the content of the section at a path: that of a leaf decoded (RFC 2045, 6), that of another as it stands.
#[unsafe(no_mangle)]
pub extern "C" fn mk_c_extract(
    alloc: Global,
    handle: &mut Handle,
    path: &[u32],
    place: &mut Place,
) -> u32
    ensures { Calls (AnswersWith (λ d answer. IsExtract (section_at path.now (tree (text_now d.history))) answer) (NoContentAt path.now))
        result place.new handle.old.desk handle.new.desk }
{
    let Some(mut editor) = handle.take(alloc) else {
        return told(Err(Reason::Closed), place);
    };
    let ended = editor.show_content(alloc, path);
    handle.give(editor);
    told(ended, place)
}

/// Answers the name that the fields of the section at a path say, in UTF-8 (RFC 2183, 2.3; RFC 2045, 5.1; RFC 2231).
#[unsafe(no_mangle)]
pub extern "C" fn mk_c_name(
    alloc: Global,
    handle: &mut Handle,
    path: &[u32],
    place: &mut Place,
) -> u32
    ensures { Calls (AnswersWith (IsNameAt path.now) (NoNameAt path.now)) result place.new handle.old.desk handle.new.desk }
{
    let Some(mut editor) = handle.take(alloc) else {
        return told(Err(Reason::Closed), place);
    };
    let ended = editor.show_name(alloc, path);
    handle.give(editor);
    told(ended, place)
}

/// How many bytes the answer has; 0 where the handle is closed.
#[unsafe(no_mangle)]
pub extern "C" fn mk_c_size(alloc: Global, handle: &mut Handle) -> usize
    ensures size { result ≡ option_map_or (λ d. length d.answer) handle.old.desk 0 }
    ensures same { handle.new.desk ≡ handle.old.desk }
{
    let Some(editor) = handle.take(alloc) else {
        return 0;
    };
    let size = editor.answer.len();
    handle.give(editor);
    size
}

/// Copies the answer into bytes of just its size, and lets it go.
#[unsafe(no_mangle)]
pub extern "C" fn mk_c_copy(
    alloc: Global,
    handle: &mut Handle,
    bytes: &mut [u8],
    place: &mut Place,
) -> u32
    ensures { Calls (Copies bytes.old bytes.new) result place.new handle.old.desk handle.new.desk }
{
    let Some(mut editor) = handle.take(alloc) else {
        return told(Err(Reason::Closed), place);
    };
    let ended = editor.copy(alloc, bytes);
    handle.give(editor);
    told(ended, place)
}
