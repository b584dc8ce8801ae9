//! Removals and renamings of fields of the root that say nothing of its body: they are made in the text alone.
ghost use Rattle.std.specs.Prelude.{◌≡◌, ◌≤◌, ◌<◌, ◌+◌, ◌-◌, ◌^◌, ◌∷◌, [], drop, length, min, take, IfOk, IfErr, IfSome};
ghost use Rattle.mk_tree.specs.Documents.{tree};
ghost use Rattle.mk_tree.specs.Sections.{head_text};
ghost use Rattle.mk_decide.specs.Answers.{refusal_of, IsRefusedBy};
ghost use Rattle.mk_decide.specs.FieldPuts.{plain_of, puts, IsPut};
ghost use Rattle.mk_decide.specs.LocalAnswers.{plain_splice};
ghost use Rattle.mk_decide.specs.Outcomes.{edited};
ghost use Rattle.mk_edit.specs.RootFields.{lines_in, root_in, HasFields, IsBehind, Replaces};
ghost use Rattle.mk_edit.specs.SilentEdits.{numbered, IsSilent};
ghost use Rattle.mk_edit.specs.inner.FieldNames.{BeginsField};
ghost use Rattle.mk_edit.specs.inner.Gaps.{without_gap};

use crate::gapped::GapText;
use crate::passing::{Known, Passed, learned, pass_over, put_at};
use crate::silent_edits::SilentEdit;
use crate::stepping::read;
use mk_decide::{EditError, Put, Replacement, has_separator, opens_early, splice_of};
use mk_splice::{Splice, copied};
use mk_tree::Doc;
use std::alloc::{AllocError, Global};
use std::marker::Model;
use std::mem;

/// The names of fields are learned after this many passes over the fields in vain, since learning them takes longer than a
/// pass.
const TIMES_IN_VAIN: usize = 4;

/// A text whose root has a separator after its fields.
#[derive(Drop)]
pub(crate) struct RootFields {
    /// With its gap between two fields, or at the start.
    text: GapText,
    /// Where the fields begin, in bytes from 0.
    start: usize,
    /// How many bytes they take.
    size: usize,
    /// Those before the last edit.
    passed: Passed,
    /// Those whose names are known.
    known: Known,
    /// How many bytes of fields were gone through in vain since names were learned.
    in_vain: usize,
}

impl Model for RootFields {
    ghost use Rattle.std.specs.Prelude.{ℕ, List};

    ghost Value = { List ℕ };

    ghost use Rattle.mk_edit.specs.inner.Gaps.{without_gap};
    ghost use Rattle.mk_edit.specs.inner.GapFields.{IsHeldInParts};

    ghost view = { λ f. without_gap f.text };

    ghost invariant = { λ f. IsHeldInParts f.text f.start f.size f.passed.name.items f.passed.bytes f.passed.fields f.known.bytes f.known.marks };
}

impl RootFields {
    ghost use Rattle.std.specs.Prelude.{◌≡◌, ◌∷◌, [], IfOk, IfErr, IfSome};
    ghost use Rattle.mk_tree.specs.Documents.{tree};
    ghost use Rattle.mk_decide.specs.Answers.{refusal_of, IsRefusedBy};
    ghost use Rattle.mk_decide.specs.FieldPuts.{plain_of};
    ghost use Rattle.mk_decide.specs.LocalAnswers.{plain_splice};
    ghost use Rattle.mk_edit.specs.Made.{IsMade};
    ghost use Rattle.mk_decide.specs.Outcomes.{edited};
    ghost use Rattle.mk_edit.specs.RootFields.{Replaces};
    ghost use Rattle.mk_edit.specs.SilentEdits.{numbered, IsSilent};
    ghost use Rattle.mk_splice.specs.Views.{splice_of as plain_step};

    /// The text of a document. The document comes back where its root has no separator.
    pub(crate) fn of(alloc: Global, doc: Doc) -> Result<RootFields, Doc>
        ensures ok { IfOk result (λ f. f ≡ doc) }
        ensures err { IfErr result (λ d. d ≡ doc) }
    {
        match fields_place(&doc) {
            Some((start, size)) => Ok(RootFields {
                text: GapText::new(doc.into_text()),
                start,
                size,
                passed: Passed::none(alloc),
                known: Known::none(),
                in_vain: 0,
            }),
            None => Err(doc),
        }
    }

    /// A copy of the text of a document. `None` where its root has no separator.
    pub(crate) fn copy_of(alloc: Global, doc: &Doc) -> Result<Option<RootFields>, AllocError>
        ensures { IfOk result (λ o. IfSome o (λ f. f ≡ doc.now)) }
    {
        match fields_place(doc) {
            Some((start, size)) => Ok(Some(RootFields {
                text: GapText::new(Vec::from_slice(alloc, doc.text())?),
                start,
                size,
                passed: Passed::none(alloc),
                known: Known::none(),
                in_vain: 0,
            })),
            None => Ok(None),
        }
    }

    /// Makes an edit where nothing is against it, and answers its splice.
    pub(crate) fn make(&mut self, alloc: Global, edit: &SilentEdit<'_>) -> Result<Splice, EditError>
        requires { IsSilent edit.now }
        ensures ok { IfOk result (λ s. IsMade (plain_of (1 ∷ []) (numbered edit.now edit.now.k)) self.old (plain_step s) self.new) }
        ensures err { IfErr result (λ e. IsRefusedBy (refusal_of e) (edited (plain_of (1 ∷ []) (numbered edit.now edit.now.k)) (tree self.old))) }
    {
        if edit.k == 0 {
            return Err(EditError::NoSuchField);
        }
        let (bytes, k) = self.begin(alloc, edit);
        let Replacement { place, count, new } = decide(
            alloc,
            &mut self.text,
            self.start,
            self.size,
            edit,
            bytes,
            k,
        )?;
        let here = place - self.text.front_len();
        let old = copied(alloc, self.text.rest(), here, count)?;
        let name = Vec::from_slice(alloc, edit.name)?;
        self.text.replace(place, count, &new)?;
        let bytes = place - self.start;
        self.size = self.size - count + new.len();
        self.known.bytes = self.known.bytes.min(bytes);
        self.passed = Passed {
            bytes,
            name,
            fields: edit.k - 1,
        };
        Ok(Splice { place, old, new })
    }

    // After how many bytes of fields the one of an edit is looked for, and its number there.
    fn begin(&mut self, alloc: Global, edit: &SilentEdit<'_>) -> (usize, u32)
        requires { 0 < edit.now.k }
        ensures same { self.new ≡ self.old }
        ensures place { IsBehind (lines_in self.old) result.0 edit.now result.1 }
    {
        if self.passed.fields < edit.k && self.passed.name.as_slice() == edit.name {
            return (self.passed.bytes, edit.k - self.passed.fields);
        }
        self.learn(alloc, edit.name);
        if self.known.may_have(edit.name) {
            return (0, edit.k);
        }
        (self.known.bytes, edit.k)
    }

    // Learns the names of the fields that come next, where that is worth its time: where none known may be this one.
    fn learn(&mut self, alloc: Global, name: &[u8])
        ensures { self.new ≡ self.old }
    {
        if self.known.may_have(name) {
            return;
        }
        let known = self.known.bytes;
        let fields = next_fields(&self.text, self.start, self.size, known, self.passed.bytes);
        let unknown = fields.len();
        if unknown == 0 {
            return;
        }
        if self.in_vain / TIMES_IN_VAIN < unknown {
            self.in_vain = self.in_vain.saturating_add(unknown);
            return;
        }
        self.in_vain = 0;
        self.known = learned(
            alloc,
            mem::replace(&mut self.known, Known::none()),
            fields,
            self.size,
        );
    }

    /// The document, read.
    pub(crate) fn read(self, alloc: Global) -> Result<Doc, AllocError>
        ensures { IfOk result (λ d. d ≡ self) }
    {
        read(alloc, self.text.into_bytes())
    }
}

// Where the fields of the root begin, and how many bytes they take, where a separator stands after them.
fn fields_place(doc: &Doc) -> Option<(usize, usize)>
    ensures { IfSome result (λ r. HasFields doc.now r.0 r.1) }
{
    let root = doc.root();
    if has_separator(&root) {
        Some((root.start(), root.head().len()))
    } else {
        None
    }
}

// What an edit replaces in a text whose root's fields take `size` bytes at `start`, or the first reason against it. Its field is
// the `k`-th of its name after `bytes` bytes of them. The gap goes back before it.
fn decide(
    alloc: Global,
    text: &mut GapText,
    start: usize,
    size: usize,
    edit: &SilentEdit<'_>,
    bytes: usize,
    k: u32,
) -> Result<Replacement, EditError>
    requires fields { HasFields (without_gap text.old) start size }
    requires gap { BeginsField (lines_in (without_gap text.old)) (length text.old.front - start) }
    requires place { IsBehind (lines_in (without_gap text.old)) bytes edit.now k }
    requires silent { IsSilent edit.now }
    ensures same { without_gap text.new ≡ without_gap text.old }
    ensures gap { BeginsField (lines_in (without_gap text.old)) (length text.new.front - start) }
    ensures after { IfOk result (λ r. length text.new.front ≤ r.place) }
    ensures ok { IfOk result (λ r. Replaces edit.now (without_gap text.old) start size (plain_splice r)) }
    ensures err { IfErr result (λ e. IsRefusedBy (refusal_of e) (edited (plain_of (1 ∷ []) (numbered edit.now edit.now.k)) (tree (without_gap text.old)))) }
{
    let put = put_in(alloc, text, start, size, edit, bytes, k)?;
    let front = text.front_len();
    let place = start + put.from;
    let here = place - front;
    if opens_early(text.rest(), here, put.count, &put.lines) {
        return Err(EditError::OpenLine);
    }
    Ok(splice_of(place, put))
}

// What an edit puts among the root's fields.
fn put_in(
    alloc: Global,
    text: &mut GapText,
    start: usize,
    size: usize,
    edit: &SilentEdit<'_>,
    bytes: usize,
    k: u32,
) -> Result<Put, EditError>
    requires fields { HasFields (without_gap text.old) start size }
    requires gap { BeginsField (lines_in (without_gap text.old)) (length text.old.front - start) }
    requires place { IsBehind (lines_in (without_gap text.old)) bytes edit.now k }
    ensures same { without_gap text.new ≡ without_gap text.old }
    ensures gap { BeginsField (lines_in (without_gap text.old)) (length text.new.front - start) }
    ensures after { IfOk result (λ r. length text.new.front ≤ start + r.from) }
    ensures ok { IfOk result (λ r. IsPut r (puts (numbered edit.now edit.now.k) (lines_in (without_gap text.old)))) }
    ensures err { IfErr result (λ e. IsRefusedBy (refusal_of e) (edited (plain_of (1 ∷ []) (numbered edit.now edit.now.k)) (tree (without_gap text.old)))) }
{
    let (bytes, k) = pass_front(text, start, size, edit, bytes, k);
    text.put_back(start + bytes);
    put_at(
        alloc,
        fields_after(text, start, size, bytes),
        bytes,
        edit,
        k,
    )
}

// The same place as `bytes` and `k`, or one after it: before the field, or else at the gap.
fn pass_front(
    text: &GapText,
    start: usize,
    size: usize,
    edit: &SilentEdit<'_>,
    bytes: usize,
    k: u32,
) -> (usize, u32)
    requires fields { HasFields (without_gap text.now) start size }
    requires gap { BeginsField (lines_in (without_gap text.now)) (length text.now.front - start) }
    requires place { IsBehind (lines_in (without_gap text.now)) bytes edit.now k }
    ensures place { IsBehind (lines_in (without_gap text.now)) result.0 edit.now result.1 }
    ensures fits { length (without_gap text.now) < 2 ^ 64 }
{
    if text.front_len() <= start + bytes {
        return (bytes, k);
    }
    let (passed, left) = pass_over(&text.front()[start + bytes..], edit.name, k);
    (bytes + passed, left)
}

// The fields after `known` bytes of them: those before the gap, or else those before the last edit, after `passed` bytes.
fn next_fields(text: &GapText, start: usize, size: usize, known: usize, passed: usize) -> &[u8]
    requires fields { HasFields (without_gap text.now) start size }
    requires gap { BeginsField (lines_in (without_gap text.now)) (length text.now.front - start) }
    requires known { BeginsField (lines_in (without_gap text.now)) known }
    requires passed { BeginsField (lines_in (without_gap text.now)) passed }
    ensures part { result.now ≡ take (length result.now) (drop known (head_text (root_in (without_gap text.now)))) }
    ensures place { BeginsField (lines_in (without_gap text.now)) (known + length result.now) }
    ensures fits { length (without_gap text.now) < 2 ^ 64 }
{
    if text.front_len() > start + known {
        return &text.front()[start + known..];
    }
    let (fields, _) = fields_after(text, start, size, known).split_at(passed.saturating_sub(known));
    fields
}

// The root's fields, which take `size` bytes at `start`, after the first `bytes` bytes of them.
fn fields_after(text: &GapText, start: usize, size: usize, bytes: usize) -> &[u8]
    requires fields { HasFields (without_gap text.now) start size }
    requires within { bytes ≤ size }
    requires front { length text.now.front ≤ start + bytes }
    ensures { result.now ≡ drop bytes (head_text (root_in (without_gap text.now))) }
{
    let front = text.front_len();
    let (_, after) = text.rest().split_at(start + bytes - front);
    let (fields, _) = after.split_at(size - bytes);
    fields
}
