//! Messages and parts piece by piece, so that none is in memory as a whole while it goes out.
ghost use Rattle.std.specs.Prelude.{◌≡◌, ◌≢◌, ◌<◌, ◌≤◌, ◌+◌, ◌++◌, None, [], false, true, length, map, IfErr, IfOk, IfSome, OnOk};
ghost use Rattle.std.specs.List.{flat_map};
ghost use Rattle.std.specs.Option.{option_map, option_map_or};
ghost use Rattle.mk_line.specs.Lines.{ending_bytes, printed_line};
ghost use Rattle.mk_line.specs.Marks.{close_line};
ghost use Rattle.mk_build.specs.BuildViews.{attached_of, written_in, written_of, IsAttachRefused};
ghost use Rattle.mk_build.specs.Building.{attach_refusal as refusal_of, closed_field, encoded};
ghost use Rattle.mk_build.specs.ForwardViews.{forwarded_of, IsRefusedWith};
ghost use Rattle.mk_build.specs.Forwards.{built_with, forwarded_part, head_with, refusal_with};
ghost use Rattle.mk_build.specs.Multiparts.{attached_as, multipart_of, part_as};
ghost use Rattle.mk_build.specs.inner.PieceViews.{coded_body, coded, gap as gap_of, coded_segment};

use crate::attaching::{AttachError, AttachOptions, attach_refusal, push_part_fields};
use crate::attachment::{Attach, Written, as_named};
use crate::building::{BuildError, all_written, first_refusal, push_close, push_fields, push_head};
use crate::forwarding::{Forward, are_8bit, ending_after, push_forward_fields};
use crate::multipart::Multipart;
use memchr::memmem;
use mk_code::{push_b64, push_qp};
use mk_line::{Ending, push_delimiter};
use std::alloc::{AllocError, Global};
use std::collections::VecDeque;
use std::marker::Model;

/// How many bytes are encoded at once, in whole lines of base64; of quoted-printable a whole line more.
const BLOCK: usize = 58_368;

/// How the bytes of a body go.
#[derive(Clone, Copy)]
enum Coding {
    Qp,
    Base64,
    Plain,
}

/// Bytes, how they go, and the ending after them.
#[derive(Clone, Copy)]
struct Body<'a> {
    bytes: &'a [u8],
    coding: Coding,
    ending: Ending,
}

/// Lines that are made, and a body after them.
#[derive(Drop)]
struct Segment<'a> {
    made: Vec<u8>,
    body: Body<'a>,
}

/// What is still to come of a message or of a part: a body that is under way, and segments. The lines that are made are in
/// memory, and of the files nothing is but what was given.
#[derive(Drop)]
pub struct Pieces<'a> {
    body: Body<'a>,
    segments: VecDeque<Segment<'a>>,
    eol: Ending,
}

impl<'a> Model for Pieces<'a> {
    ghost use Rattle.std.specs.Prelude.{◌≢◌};
    ghost use Rattle.mk_line.specs.declared.cutting.Ending.TheVariants.{Missing};
    ghost use Rattle.mk_build.specs.Pieces.{ToCome};

    ghost Value = { ToCome };

    ghost use Rattle.mk_build.specs.inner.PieceViews.{most_left, to_come};

    ghost view = { λ p. record { bytes = to_come p.eol p.body p.segments.items; most = most_left p.body p.segments.items } };

    ghost invariant = { λ p. p.eol ≢ Missing };
}

impl<'a> Pieces<'a> {
    /// The pieces of the message that `build_with` makes, or the reason why it can't be built: once they are there, only memory
    /// can be missing.
    pub fn of_message(
        alloc: Global,
        fields: &[Vec<u8>],
        parts: &'a [Attach],
        messages: &'a [Forward],
        multipart: &Multipart<'_>,
        eol: Ending,
    ) -> Result<Pieces<'a>, BuildError>
        requires { eol ≢ Ending.Missing }
        ensures pieces { IfOk result (λ pieces. (refusal_with (map (λ f. f.items) fields.now) (map (written_in multipart.now.utf8_names) parts.now) (map forwarded_of messages.now) (multipart_of multipart.now) ≡ None) × (pieces.bytes ≡ built_with eol (map (λ f. f.items) fields.now) (map (written_in multipart.now.utf8_names) parts.now) (map forwarded_of messages.now) (multipart_of multipart.now))) }
        ensures refused { IfErr result (λ error. IsRefusedWith (map (λ f. f.items) fields.now) (map (written_in multipart.now.utf8_names) parts.now) (map forwarded_of messages.now) (multipart_of multipart.now) error) }
    {
        let written = all_written(alloc, parts, multipart.utf8_names)?;
        if let Some(reason) = first_refusal(fields, &written, messages, multipart) {
            return Err(reason);
        }
        let segments = segments_of(alloc, fields, &written, messages, multipart, eol)?;
        Ok(Pieces {
            body: no_body(),
            segments,
            eol,
        })
    }

    /// The pieces of the part that `attach_with` makes, or the reason why it can't be made.
    pub fn of_part(
        alloc: Global,
        attached: &'a Attach,
        options: AttachOptions<'_>,
        eol: Ending,
    ) -> Result<Pieces<'a>, AttachError>
        requires { eol ≢ Ending.Missing }
        ensures pieces { IfOk result (λ pieces. (refusal_of (written_in options.entry.utf8_names attached.now) ≡ None) × (pieces.bytes ≡ attached_as eol (option_map (λ c. c.now) options.entry.charset) (written_in options.entry.utf8_names attached.now))) }
        ensures refused { IfErr result (λ error. IsAttachRefused (written_in options.entry.utf8_names attached.now) error) }
    {
        let written = as_named(alloc, attached, options.utf8_names)?;
        if let Some(reason) = attach_refusal(&written) {
            return Err(reason);
        }
        let segments = part_alone(alloc, &written, options.charset, eol)?;
        Ok(Pieces {
            body: no_body(),
            segments,
            eol,
        })
    }

    /// Appends the next piece to a text, and says whether more may come. A piece has some 80 KB at most, but for a long line of
    /// quoted-printable and for the fields, which are a piece of their own. After an error more may follow the text, and what is
    /// to come isn't known.
    pub fn push_next(&mut self, text: &mut Vec<u8>) -> Result<bool, AllocError>
        ensures told { OnOk result (text.new.items ++ self.new.bytes ≡ text.old.items ++ self.old.bytes) }
        ensures ended { IfOk result (λ more. more ≡ false → self.new.bytes ≡ []) }
        ensures fewer { IfOk result (λ more. more ≡ true → self.new.most < self.old.most) }
    {
        match push_front(text, &self.body, self.eol)? {
            Some(rest) => {
                self.body = rest;
                return Ok(true);
            }
            None => self.body = no_body(),
        }
        match self.segments.pop_front() {
            Some(segment) => {
                text.extend_from_slice(&segment.made)?;
                self.body = segment.body;
                Ok(true)
            }
            None => Ok(false),
        }
    }
}

// A body of nothing.
fn no_body<'a>() -> Body<'a>
    ensures bytes { (eol : Ending) → coded_body eol result ≡ [] }
    ensures few { length result.bytes.now ≡ 0 }
{
    Body {
        bytes: &[],
        coding: Coding::Plain,
        ending: Ending::Missing,
    }
}

// The segments of a message.
fn segments_of<'a>(
    alloc: Global,
    fields: &[Vec<u8>],
    parts: &[Written<'a>],
    messages: &'a [Forward],
    multipart: &Multipart<'_>,
    eol: Ending,
) -> Result<VecDeque<Segment<'a>>, AllocError>
    requires { eol ≢ Ending.Missing }
    ensures { IfOk result (λ list. flat_map (coded_segment eol) list.items ≡ built_with eol (map (λ f. f.items) fields.now) (map written_of parts.now) (map forwarded_of messages.now) (multipart_of multipart.now)) }
{
    let mut list = VecDeque::new(alloc);
    list.push_back(front(alloc, fields, are_8bit(messages), multipart, eol)?)?;
    push_parts(alloc, &mut list, parts, multipart, eol)?;
    push_forwards(alloc, &mut list, messages, multipart.boundary, eol)?;
    list.push_back(close(alloc, multipart.boundary, eol)?)?;
    Ok(list)
}

// The fields and the head.
fn front<'a>(
    alloc: Global,
    fields: &[Vec<u8>],
    wide: bool,
    multipart: &Multipart<'_>,
    eol: Ending,
) -> Result<Segment<'a>, AllocError>
    ensures { IfOk result (λ s. coded_segment eol s ≡ flat_map (closed_field eol) (map (λ f. f.items) fields.now) ++ head_with eol wide (multipart_of multipart.now)) }
{
    let mut made = Vec::new(alloc);
    push_fields(&mut made, fields, eol)?;
    push_head(&mut made, multipart, wide, eol)?;
    Ok(Segment {
        made,
        body: no_body(),
    })
}

fn push_parts<'a>(
    alloc: Global,
    list: &mut VecDeque<Segment<'a>>,
    parts: &[Written<'a>],
    multipart: &Multipart<'_>,
    eol: Ending,
) -> Result<(), AllocError>
    requires { eol ≢ Ending.Missing }
    ensures { OnOk result (flat_map (coded_segment eol) list.new.items ≡ flat_map (coded_segment eol) list.old.items ++ flat_map (part_as eol (multipart_of multipart.now)) (map written_of parts.now)) }
{
    for part in parts {
        list.push_back(part_between(alloc, part, multipart, eol)?)?;
    }
    Ok(())
}

// A part after its delimiter.
fn part_between<'a>(
    alloc: Global,
    part: &Written<'a>,
    multipart: &Multipart<'_>,
    eol: Ending,
) -> Result<Segment<'a>, AllocError>
    ensures { IfOk result (λ s. coded_segment eol s ≡ part_as eol (multipart_of multipart.now) (written_of part.now)) }
{
    let mut made = Vec::new(alloc);
    push_delimiter(&mut made, multipart.boundary, eol)?;
    push_part_fields(&mut made, part, multipart.charset, eol)?;
    Ok(Segment {
        made,
        body: body_of(part, eol),
    })
}

// The segment of a part by itself, with no ending after it.
fn part_alone<'a>(
    alloc: Global,
    part: &Written<'a>,
    charset: Option<&[u8]>,
    eol: Ending,
) -> Result<VecDeque<Segment<'a>>, AllocError>
    ensures { IfOk result (λ list. flat_map (coded_segment eol) list.items ≡ attached_as eol (option_map (λ c. c.now) charset.entry) (written_of part.now)) }
{
    let mut made = Vec::new(alloc);
    push_part_fields(&mut made, part, charset, eol)?;
    let mut list = VecDeque::new(alloc);
    list.push_back(Segment {
        made,
        body: body_of(part, Ending::Missing),
    })?;
    Ok(list)
}

// The bytes of a part, and the ending after them.
fn body_of<'a>(part: &Written<'a>, ending: Ending) -> Body<'a>
    ensures { (eol : Ending) → coded_body eol result ≡ encoded eol (written_of part.now) ++ ending_bytes ending }
{
    Body {
        bytes: part.text,
        coding: if part.base64 {
            Coding::Base64
        } else {
            Coding::Qp
        },
        ending,
    }
}

fn push_forwards<'a>(
    alloc: Global,
    list: &mut VecDeque<Segment<'a>>,
    messages: &'a [Forward],
    boundary: &[u8],
    eol: Ending,
) -> Result<(), AllocError>
    ensures { OnOk result (flat_map (coded_segment eol) list.new.items ≡ flat_map (coded_segment eol) list.old.items ++ flat_map (forwarded_part eol boundary.now) (map forwarded_of messages.now)) }
{
    for forward in messages {
        list.push_back(forwarded(alloc, forward, boundary, eol)?)?;
    }
    Ok(())
}

// A message after its delimiter.
fn forwarded<'a>(
    alloc: Global,
    forward: &'a Forward,
    boundary: &[u8],
    eol: Ending,
) -> Result<Segment<'a>, AllocError>
    ensures { IfOk result (λ s. coded_segment eol s ≡ forwarded_part eol boundary.now (forwarded_of forward.now)) }
{
    let mut made = Vec::new(alloc);
    push_forward_fields(&mut made, forward, boundary, eol)?;
    let message = forward.message();
    Ok(Segment {
        made,
        body: Body {
            bytes: message,
            coding: Coding::Plain,
            ending: ending_after(message, eol),
        },
    })
}

fn close<'a>(alloc: Global, boundary: &[u8], eol: Ending) -> Result<Segment<'a>, AllocError>
    ensures { IfOk result (λ s. coded_segment eol s ≡ printed_line (close_line eol boundary.now)) }
{
    let mut made = Vec::new(alloc);
    push_close(&mut made, boundary, eol)?;
    Ok(Segment {
        made,
        body: no_body(),
    })
}

// Appends the front of a body, and gives what is left of it; if that is nothing, with the ending after it.
fn push_front<'a>(
    text: &mut Vec<u8>,
    body: &Body<'a>,
    eol: Ending,
) -> Result<Option<Body<'a>>, AllocError>
    requires { eol ≢ Ending.Missing }
    ensures told { IfOk result (λ rest. text.new.items ++ option_map_or (coded_body eol) rest [] ≡ text.old.items ++ coded_body eol body.now) }
    ensures less { IfOk result (λ rest. IfSome rest (λ r. length r.bytes.now < length body.now.bytes.now)) }
{
    match split(body, eol) {
        Some((bytes, rest)) => {
            push_coded(text, bytes, body.coding, eol)?;
            text.extend_from_slice(gap(body.coding, eol).bytes())?;
            Ok(Some(Body {
                bytes: rest,
                coding: body.coding,
                ending: body.ending,
            }))
        }
        None => {
            push_coded(text, body.bytes, body.coding, eol)?;
            text.extend_from_slice(body.ending.bytes())?;
            Ok(None)
        }
    }
}

// Appends bytes as they go.
fn push_coded(
    text: &mut Vec<u8>,
    bytes: &[u8],
    coding: Coding,
    eol: Ending,
) -> Result<(), AllocError>
    requires { eol ≢ Ending.Missing }
    ensures { OnOk result (text.new.items ≡ text.old.items ++ coded coding eol bytes.now) }
{
    match coding {
        Coding::Qp => push_qp(text, bytes, eol),
        Coding::Base64 => push_b64(text, bytes, eol),
        Coding::Plain => text.extend_from_slice(bytes),
    }
}

// The ending that stands between what goes of two pieces.
fn gap(coding: Coding, eol: Ending) -> Ending
    ensures { result ≡ gap_of coding eol }
{
    match coding {
        Coding::Qp | Coding::Base64 => eol,
        Coding::Plain => Ending::Missing,
    }
}

// The first bytes of a body and those that are left, where there are so many: what goes of both, and the ending between them, is
// what goes of the body.
fn split<'a>(body: &Body<'a>, eol: Ending) -> Option<(&'a [u8], &'a [u8])>
    requires { eol ≢ Ending.Missing }
    ensures parts { IfSome result (λ p. coded body.now.coding eol body.now.bytes.now ≡ coded body.now.coding eol p.0.now ++ (ending_bytes (gap_of body.now.coding eol) ++ coded body.now.coding eol p.1.now)) }
    ensures less { IfSome result (λ p. length p.1.now < length body.now.bytes.now) }
{
    match body.coding {
        Coding::Qp => split_at_ending(body.bytes, eol),
        Coding::Base64 => split_block(body.bytes),
        Coding::Plain => split_block(body.bytes),
    }
}

// The first bytes, so many that they are whole lines of base64, and the others.
fn split_block(bytes: &[u8]) -> Option<(&[u8], &[u8])>
    ensures parts { IfSome result (λ p. bytes.now ≡ p.0.now ++ p.1.now) }
    ensures size { IfSome result (λ p. length p.0.now ≡ 58_368) }
    ensures more { IfSome result (λ p. 0 < length p.1.now) }
    ensures less { IfSome result (λ p. length p.1.now < length bytes.now) }
{
    if bytes.len() <= BLOCK {
        return None;
    }
    Some(bytes.split_at(BLOCK))
}

// The first lines, and what follows their last ending.
fn split_at_ending(bytes: &[u8], eol: Ending) -> Option<(&[u8], &[u8])>
    ensures parts { IfSome result (λ p. bytes.now ≡ p.0.now ++ (ending_bytes eol ++ p.1.now)) }
{
    let ending = eol.bytes();
    let from = BLOCK.min(bytes.len());
    let at = from + memmem::find(&bytes[from..], ending)?;
    Some((&bytes[..at], &bytes[at + ending.len()..]))
}
