//! A message packed from fields and files, over any devices.

ghost use Rattle.std.specs.Prelude.{◌≡◌, ◌≢◌, ◌⊎◌, [], None, true, false, map, IfOk, IfErr, IfNone, IfSome, MatchOption, OnErr, OnOk};
ghost use Rattle.mk_build.specs.BuildViews.{attached_of, written_in};
ghost use Rattle.mk_build.specs.ForwardViews.{forwarded_of};
ghost use Rattle.mk_build.specs.Forwards.{built_with, refusal_with};
ghost use Rattle.mk_build.specs.Multiparts.{multipart_of};
ghost use Rattle.mk_transfer.specs.RunClauses.{held, counts, reason, IsBlamed, SameFailures, ReadFailed, WriteFailed, ends_itself};
ghost use Rattle.mk_show.specs.Shown.{LeavesShown, LeavesShownSoFar, run_of_answer};
ghost use Rattle.mk_line.specs.Lines.{cut as lines_of, eol_of as eol_meant};
ghost use Rattle.mk_line.specs.Meters.{ticked};
ghost use Rattle.mk_pack.specs.Packing.{IsPacked, IsPackedWith, manner_of, multipart_with, build_name, told, fields_given, fields_in_front as fields_of_front, has_body as has_a_body, index_of as index_named, pack_line, turned_part as turned_so};
ghost use Rattle.mk_pack.specs.inner.Judged.{run_of_judged};
ghost use Rattle.mk_pack.specs.inner.PackedFrom.{packed_from};
ghost use Rattle.mk_transfer.specs.Said.{shown};

use crate::boundaries::free_boundary;
use crate::outgoing::give;
use crate::parts::is_text;
use mk_build::{Attach, BuildError, Forward, MIXED, Multipart, Pieces};
use mk_head::{each_field, header};
use mk_line::{Ending, eol_of};
use mk_mailbox::{Sink, Source};
use mk_script::turned;
use mk_show::Answer;
use mk_transfer::{Cause, Status, give_up, read_all, reading};
use std::alloc::{AllocError, Global};

/// How a message is packed. By default it is a multipart/mixed with a boundary that is made, and texts go as they are.
#[derive(Clone, Copy, Debug)]
pub struct PackOptions<'a> {
    /// Whether a name in UTF-8 that isn't printable ASCII is written a second time, as it is (RFC 2231, 4).
    pub utf8_names: bool,
    /// The subtype of the multipart, such as `mixed`.
    pub subtype: &'a [u8],
    /// The charset that texts name.
    pub charset: Option<&'a [u8]>,
    /// The boundary between the parts. If there is none, one is made from what is packed.
    pub boundary: Option<&'a [u8]>,
    /// Whether the lines of texts end as those of the fields do.
    pub turned: bool,
}

impl<'a> Default for PackOptions<'a> {
    ghost use Rattle.std.specs.Prelude.{◌≡◌};
    ghost use Rattle.mk_pack.specs.Packing.{manner_of, usual_manner};

    ghost is_default = { λ options. manner_of options ≡ usual_manner };

    fn default() -> PackOptions<'a> {
        PackOptions {
            utf8_names: false,
            subtype: MIXED,
            charset: None,
            boundary: None,
            turned: false,
        }
    }
}

/// Builds the message of the fields that the input gives and of these parts, and prints it. The fields are read without an
/// envelope, and all made lines end as the first line of the input does.
pub fn run_pack<S: Source, O: Sink, E: Sink>(
    alloc: Global,
    input: &mut S,
    out: &mut O,
    err: &mut E,
    boundary: &[u8],
    parts: &[Attach],
) -> Status
    ensures leaves { let before = counts (S.failures input.old) (S.read_count input.old) (O.failures out.old) (E.failures err.old) in
        let after = counts (S.failures input.new) (S.read_count input.new) (O.failures out.new) (E.failures err.new) in
        LeavesShown (reason before after) (IsPacked boundary.now (map attached_of parts.now)) result
        (held (S.remaining input.old) (O.contents out.old) (E.contents err.old))
        (held (S.remaining input.new) (O.contents out.new) (E.contents err.new)) }
    ensures blamed { result ≡ Status.Fault →
        let before = counts (S.failures input.old) (S.read_count input.old) (O.failures out.old) (E.failures err.old) in
        let after = counts (S.failures input.new) (S.read_count input.new) (O.failures out.new) (E.failures err.new) in
        ReadFailed before after ⊎ WriteFailed before after }
    ensures clean { ends_itself result ≡ true → SameFailures
        (counts (S.failures input.old) (S.read_count input.old) (O.failures out.old) (E.failures err.old))
        (counts (S.failures input.new) (S.read_count input.new) (O.failures out.new) (E.failures err.new)) }
    ensures finished { ends_itself result ≡ true → O.finishes out.new ≡ ticked (O.finishes out.old) }
    ensures unfinished { ends_itself result ≡ false → O.finishes out.new ≡ O.finishes out.old }
{
    let options = PackOptions {
        boundary: Some(boundary),
        ..PackOptions::default()
    };
    match try_pack(alloc, input, out, err, options, parts, &[]) {
        Ok(status) => status,
        Err(cause) => give_up(err, cause),
    }
}

/// Builds the message as the options say, with messages that are forwarded after the parts, and prints it. It is left to the
/// caller to say why the run is given up.
pub fn try_pack<S: Source, O: Sink, E: Sink>(
    alloc: Global,
    input: &mut S,
    out: &mut O,
    err: &mut E,
    options: PackOptions<'_>,
    parts: &[Attach],
    messages: &[Forward],
) -> Result<Status, Cause>
    ensures leaves { LeavesShownSoFar (IsPackedWith (manner_of options.entry) parts.now (map forwarded_of messages.now)) result
        (held (S.remaining input.old) (O.contents out.old) (E.contents err.old))
        (held (S.remaining input.new) (O.contents out.new) (E.contents err.new)) }
    ensures ended { IfOk result (λ status. ends_itself status ≡ true) }
    ensures blamed { IfErr result (λ cause. IsBlamed cause
        (counts (S.failures input.old) (S.read_count input.old) (O.failures out.old) (E.failures err.old))
        (counts (S.failures input.new) (S.read_count input.new) (O.failures out.new) (E.failures err.new))) }
    ensures clean { OnOk result (SameFailures
        (counts (S.failures input.old) (S.read_count input.old) (O.failures out.old) (E.failures err.old))
        (counts (S.failures input.new) (S.read_count input.new) (O.failures out.new) (E.failures err.new))) }
    ensures finished { OnOk result (O.finishes out.new ≡ ticked (O.finishes out.old)) }
    ensures unfinished { OnErr result (O.finishes out.new ≡ O.finishes out.old) }
{
    let text = match read_all(alloc, input) {
        Ok(text) => text,
        Err(stop) => return Err(reading(stop)),
    };
    let turned = match turned_if(alloc, options.turned, parts, eol_of(&text)) {
        Ok(turned) => turned,
        Err(_) => return Err(Cause::Memory),
    };
    match message(alloc, &text, options, chosen(&turned, parts), messages) {
        Ok(judged) => give(alloc, out, err, judged),
        Err(_) => Err(Cause::Memory),
    }
}

// Copies of parts with these line endings in texts, where that is asked for.
fn turned_if(
    alloc: Global,
    asked: bool,
    parts: &[Attach],
    eol: Ending,
) -> Result<Option<Vec<Attach>>, AllocError>
    ensures turned { IfOk result (λ turned. IfSome turned (λ list. (asked ≡ true) × (map attached_of list.items ≡ map (turned_so eol) (map attached_of parts.now)))) }
    ensures plain { IfOk result (λ turned. IfNone turned (asked ≡ false)) }
{
    if asked {
        Ok(Some(turned_parts(alloc, parts, eol)?))
    } else {
        Ok(None)
    }
}

// The copies, or the parts where there are none.
fn chosen<'a>(turned: &'a Option<Vec<Attach>>, parts: &'a [Attach]) -> &'a [Attach]
    ensures { MatchOption turned.now (result.now ≡ parts.now) (λ list. result.now ≡ list.items) }
{
    match turned {
        Some(list) => list,
        None => parts,
    }
}

// The message of the fields that a text gives, or the reason against it.
fn message<'a>(
    alloc: Global,
    text: &[u8],
    options: PackOptions<'_>,
    parts: &'a [Attach],
    messages: &'a [Forward],
) -> Result<Result<Pieces<'a>, Answer>, AllocError>
    ensures { IfOk result (λ judged. run_of_judged judged ≡ packed_from (manner_of options.entry) (eol_meant (lines_of text.now)) (fields_given (lines_of text.now)) (map attached_of parts.now) (map (written_in options.entry.utf8_names) parts.now) (map forwarded_of messages.now)) }
{
    let fields = fields(alloc, text)?;
    message_of(alloc, &fields, options, parts, messages, eol_of(text))
}

/// Copies parts, with these line endings in texts.
pub fn turned_parts(alloc: Global, parts: &[Attach], eol: Ending) -> Result<Vec<Attach>, AllocError>
    ensures { IfOk result (λ turned. map attached_of turned.items ≡ map (turned_so eol) (map attached_of parts.now)) }
{
    let mut all = Vec::new(alloc);
    for part in parts {
        all.push(turned_part(alloc, part, eol)?)?;
    }
    Ok(all)
}

// A part, with these line endings if it is a text.
fn turned_part(alloc: Global, part: &Attach, eol: Ending) -> Result<Attach, AllocError>
    ensures { IfOk result (λ turned. attached_of turned ≡ turned_so eol (attached_of part.now)) }
{
    let text = if is_text(&part.media) {
        turned(alloc, &part.text, eol)?
    } else {
        part.text.clone()?
    };
    Ok(Attach {
        media: part.media.clone()?,
        name: part.name.clone()?,
        text,
        base64: part.base64,
    })
}

// The message of these fields, parts and messages, packed as the options say, or the reason against it.
fn message_of<'a>(
    alloc: Global,
    fields: &[Vec<u8>],
    options: PackOptions<'_>,
    parts: &'a [Attach],
    messages: &'a [Forward],
    eol: Ending,
) -> Result<Result<Pieces<'a>, Answer>, AllocError>
    requires { eol ≢ Ending.Missing }
    ensures { IfOk result (λ judged. run_of_judged judged ≡ packed_from (manner_of options.entry) eol (map (λ f. f.items) fields.now) (map attached_of parts.now) (map (written_in options.entry.utf8_names) parts.now) (map forwarded_of messages.now)) }
{
    match options.boundary {
        Some(boundary) => {
            let multipart = multipart(options, boundary);
            judged(alloc, fields, parts, messages, &multipart, eol)
        }
        None => {
            let boundary = free_boundary(alloc, fields, parts, messages)?;
            let multipart = multipart(options, &boundary);
            judged(alloc, fields, parts, messages, &multipart, eol)
        }
    }
}

// The multipart that the options ask for, with a boundary.
fn multipart<'a>(options: PackOptions<'a>, boundary: &'a [u8]) -> Multipart<'a>
    ensures kind { multipart_of result ≡ multipart_with (manner_of options.entry) boundary.now }
    ensures names { result.utf8_names ≡ options.entry.utf8_names }
{
    Multipart {
        subtype: options.subtype,
        charset: options.charset,
        boundary,
        utf8_names: options.utf8_names,
    }
}

// The message of these fields, parts and messages, or the reason against it.
fn judged<'a>(
    alloc: Global,
    fields: &[Vec<u8>],
    parts: &'a [Attach],
    messages: &'a [Forward],
    multipart: &Multipart<'_>,
    eol: Ending,
) -> Result<Result<Pieces<'a>, Answer>, AllocError>
    requires { eol ≢ Ending.Missing }
    ensures { IfOk result (λ judged. run_of_judged judged ≡ told (built_with eol (map (λ f. f.items) fields.now) (map (written_in multipart.now.utf8_names) parts.now) (map forwarded_of messages.now) (multipart_of multipart.now)) (refusal_with (map (λ f. f.items) fields.now) (map (written_in multipart.now.utf8_names) parts.now) (map forwarded_of messages.now) (multipart_of multipart.now))) }
{
    match Pieces::of_message(alloc, fields, parts, messages, multipart, eol) {
        Ok(pieces) => Ok(Ok(pieces)),
        Err(BuildError::Memory) => Err(AllocError),
        Err(reason) => Ok(Err(refused(alloc, reason)?)),
    }
}

// The fields at the start of a text. If more than a separator follows them, an empty one is put after them too, which
// isn't a field.
fn fields(alloc: Global, text: &[u8]) -> Result<Vec<Vec<u8>>, AllocError>
    ensures { IfOk result (λ fields. map (λ f. f.items) fields.items ≡ fields_given (lines_of text.now)) }
{
    let mut fields = fields_in_front(alloc, text)?;
    if has_body(alloc, text)? {
        fields.push(Vec::new(alloc))?;
    }
    Ok(fields)
}

fn fields_in_front(alloc: Global, text: &[u8]) -> Result<Vec<Vec<u8>>, AllocError>
    ensures { IfOk result (λ fields. map (λ f. f.items) fields.items ≡ fields_of_front (lines_of text.now)) }
{
    let mut fields = Vec::new(alloc);
    for field in each_field(text) {
        fields.push(Vec::from_slice(alloc, field.raw)?)?;
    }
    Ok(fields)
}

// Whether more than a separator follows the fields.
fn has_body(alloc: Global, text: &[u8]) -> Result<bool, AllocError>
    ensures { IfOk result (λ has. has ≡ has_a_body (lines_of text.now)) }
{
    Ok(header(alloc, text)?.body() < text.len())
}

// The answer that says why no message is built.
pub(crate) fn refused(alloc: Global, reason: BuildError) -> Result<Answer, AllocError>
    ensures { IfOk result (λ a. run_of_answer a ≡ shown [] (pack_line reason)) }
{
    Ok(Answer {
        output: Vec::new(alloc),
        errors: refusal(alloc, reason)?,
    })
}

// The line that says why no message is built.
fn refusal(alloc: Global, reason: BuildError) -> Result<Vec<u8>, AllocError>
    ensures { IfOk result (λ line. line.items ≡ pack_line reason) }
{
    let name = name(reason);
    let line = match index(reason) {
        Some(index) => format!(in alloc; "pack: {name} {index}\n")?,
        None => format!(in alloc; "pack: {name}\n")?,
    };
    Ok(line.into_bytes())
}

fn name(reason: BuildError) -> &'static str
    ensures { result.now ≡ build_name reason }
{
    match reason {
        BuildError::BadField { .. } => "BadField",
        BuildError::BadType { .. } => "BadType",
        BuildError::BadName { .. } => "BadName",
        BuildError::BadSubtype => "BadSubtype",
        BuildError::BadCharset => "BadCharset",
        BuildError::BadBoundary => "BadBoundary",
        BuildError::HoldsBoundary { .. } => "HoldsBoundary",
        BuildError::Memory => "Memory",
    }
}

// The number of the field, the part or the message that a reason names, from 0.
fn index(reason: BuildError) -> Option<usize>
    ensures { result ≡ index_named reason }
{
    match reason {
        BuildError::BadField { index }
        | BuildError::BadType { index }
        | BuildError::BadName { index }
        | BuildError::HoldsBoundary { index } => Some(index),
        BuildError::BadSubtype
        | BuildError::BadCharset
        | BuildError::BadBoundary
        | BuildError::Memory => None,
    }
}
