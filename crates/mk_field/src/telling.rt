//! What a filter says of a message, and how it goes out: by itself, or gathered with what is said of other messages.

ghost use Rattle.std.specs.Prelude.{◌≡◌, ◌<◌, ◌≤◌, ◌⊎◌, ◌++◌, [], ℕ, List, false, if◌then◌else◌, length, not, IfOk, IfErr, IfSome, OnOk, OnErr};
ghost use Rattle.mk_decide.specs.Answers.{is_memory};
ghost use Rattle.mk_line.specs.Lines.{is_nil};
ghost use Rattle.mk_mailbox.specs.Devices.{Rose};
ghost use Rattle.mk_transfer.specs.RunClauses.{Sends};
ghost use Rattle.mk_field.specs.FilterClauses.{SaysAll, SaysSome};
ghost use Rattle.mk_field.specs.inner.Telling.{Gathers, GathersAll, GathersFront, GathersSome, printed_text, told_report, told_said};

use mk_edit::{EditError, Session};
use mk_mail::Sink;
use mk_report::report_message_at;
use mk_transfer::{Stop, send};
use std::alloc::Global;
use std::marker::Model;

/// How many bytes of output are gathered before they go out.
const GATHERED_BYTES: usize = 65_536;

/// A message whose header was edited beside it.
#[derive(Drop)]
pub(crate) struct Headed {
    header: Session,
    message: Vec<u8>,
    /// How many bytes its old header takes.
    size: usize,
}

impl Model for Headed {
    ghost use Rattle.std.specs.Prelude.{◌≤◌, ◌++◌, ℕ, List, drop, length};
    ghost use Rattle.mk_edit.specs.Histories.{text_now};

    ghost Value = { List ℕ };

    ghost view = { λ h. text_now h.header ++ drop h.size h.message.items };

    ghost invariant = { λ h. h.size ≤ length h.message.items };
}

impl Headed {
    ghost use Rattle.std.specs.Prelude.{◌≡◌, ◌≤◌, ◌++◌, drop, length};
    ghost use Rattle.mk_edit.specs.Histories.{text_now};

    /// A message, and what takes the place of the bytes of its old header.
    pub(crate) fn new(header: Session, message: Vec<u8>, size: usize) -> Headed
        requires { size ≤ length message.items }
        ensures { result ≡ text_now header ++ drop size message.items }
    {
        Headed {
            header,
            message,
            size,
        }
    }

    // The header and what follows it.
    fn parts(&self) -> (&[u8], &[u8])
        ensures { result.0.now ++ result.1.now ≡ self.now }
    {
        (self.header.text(), &self.message[self.size..])
    }
}

/// What is printed of a message.
#[derive(Drop)]
pub(crate) enum Printed {
    /// What is given of it, or all of it.
    Given(Vec<u8>),
    /// What edits leave of it.
    Left(Session),
    /// The same, where the header alone was edited.
    Headed(Headed),
}

impl Printed {
    ghost use Rattle.std.specs.Prelude.{◌≡◌, ◌++◌};
    ghost use Rattle.mk_field.specs.inner.Telling.{printed_text};

    // Its bytes, in two pieces.
    fn parts(&self) -> (&[u8], &[u8])
        ensures { result.0.now ++ result.1.now ≡ printed_text self.now }
    {
        match self {
            Printed::Given(text) => (text, &[]),
            Printed::Left(session) => (session.text(), &[]),
            Printed::Headed(headed) => headed.parts(),
        }
    }
}

/// What is said of a message.
#[derive(Drop)]
pub(crate) struct Told {
    pub(crate) text: Printed,
    /// The reason where an edit is refused.
    pub(crate) refusal: Option<EditError>,
}

/// Lets out what is gathered. Where the device fails, the rest of it is lost.
pub(crate) fn flush<O: Sink>(out: &mut O, gathered: &mut Vec<u8>) -> Result<(), Stop>
    ensures sends { Sends result gathered.old.items
        (O.contents out.old) (O.contents out.new) (O.failures out.old) (O.failures out.new) }
    ensures only { IfErr result (λ stop. stop ≡ Stop.Fault) }
    ensures none { gathered.new.items ≡ [] }
    ensures needed { OnErr result (0 < length gathered.old.items) }
    ensures unfinished { O.finishes out.new ≡ O.finishes out.old }
{
    if gathered.is_empty() {
        return Ok(());
    }
    let sent = send(out, gathered);
    gathered.clear();
    sent
}

// Puts text after what is gathered, where there is room and memory for it. Answers whether it did.
fn gather(gathered: &mut Vec<u8>, text: &[u8]) -> bool
    ensures { gathered.new.items ≡ (if result then gathered.old.items ++ text.now else gathered.old.items) }
{
    if text.len() > GATHERED_BYTES.saturating_sub(gathered.len()) {
        return false;
    }
    gathered.extend_from_slice(text).is_ok()
}

// Prints text after what is gathered: it is gathered too, or goes out after it.
fn put<O: Sink>(out: &mut O, gathered: &mut Vec<u8>, text: &[u8]) -> Result<(), Stop>
    ensures all { OnOk result (Gathers text.now gathered.old.items gathered.new.items (O.contents out.old) (O.contents out.new)) }
    ensures some { OnErr result (GathersFront text.now gathered.old.items gathered.new.items (O.contents out.old) (O.contents out.new)) }
    ensures only { IfErr result (λ stop. stop ≡ Stop.Fault) }
    ensures fault { OnErr result (Rose (O.failures out.old) (O.failures out.new)) }
    ensures well { OnOk result (O.failures out.new ≡ O.failures out.old) }
    ensures unfinished { O.finishes out.new ≡ O.finishes out.old }
{
    if gather(gathered, text) {
        return Ok(());
    }
    flush(out, gathered)?;
    if gather(gathered, text) {
        return Ok(());
    }
    send(out, text)
}

// Prints what is printed of a message after what is gathered.
fn put_printed<O: Sink>(out: &mut O, gathered: &mut Vec<u8>, text: &Printed) -> Result<(), Stop>
    ensures all { OnOk result (Gathers (printed_text text.now) gathered.old.items gathered.new.items (O.contents out.old) (O.contents out.new)) }
    ensures some { OnErr result (GathersFront (printed_text text.now) gathered.old.items gathered.new.items (O.contents out.old) (O.contents out.new)) }
    ensures only { IfErr result (λ stop. stop ≡ Stop.Fault) }
    ensures fault { OnErr result (Rose (O.failures out.old) (O.failures out.new)) }
    ensures well { OnOk result (O.failures out.new ≡ O.failures out.old) }
    ensures unfinished { O.finishes out.new ≡ O.finishes out.old }
{
    let (first, second) = text.parts();
    put(out, gathered, first)?;
    put(out, gathered, second)
}

// Prints it with nothing gathered.
fn send_printed<O: Sink>(out: &mut O, text: &Printed) -> Result<(), Stop>
    ensures sends { Sends result (printed_text text.now)
        (O.contents out.old) (O.contents out.new) (O.failures out.old) (O.failures out.new) }
    ensures only { IfErr result (λ stop. stop ≡ Stop.Fault) }
    ensures unfinished { O.finishes out.new ≡ O.finishes out.old }
{
    let (first, second) = text.parts();
    send(out, first)?;
    send(out, second)
}

// Reports a message for which an edit at a path is refused. Answers whether it did.
fn report<E: Sink>(
    alloc: Global,
    path: &[u32],
    number: u64,
    refusal: Option<EditError>,
    err: &mut E,
) -> Result<bool, Stop>
    requires { IfSome refusal (λ error. is_memory error ≡ false) }
    ensures sends { Sends result (told_report path.now number refusal)
        (E.contents err.old) (E.contents err.new) (E.failures err.old) (E.failures err.new) }
    ensures told { IfOk result (λ told. told ≡ not (is_nil (told_report path.now number refusal))) }
{
    match refusal {
        Some(reason) => {
            report_message_at(alloc, err, number, path, reason)?;
            Ok(true)
        }
        None => Ok(false),
    }
}

/// Says what is told of a message of a number, after what is gathered. That goes out before the report. Answers whether the
/// message was reported.
pub(crate) fn say<O: Sink, E: Sink>(
    alloc: Global,
    path: &[u32],
    number: u64,
    told: &Told,
    gathered: &mut Vec<u8>,
    out: &mut O,
    err: &mut E,
) -> Result<bool, Stop>
    requires { IfSome told.now.refusal (λ error. is_memory error ≡ false) }
    ensures all { IfOk result (λ refused. GathersAll (told_said path.now number told.now) refused gathered.old.items gathered.new.items
        (O.contents out.old) (O.contents out.new) (E.contents err.old) (E.contents err.new)) }
    ensures some { OnErr result (GathersSome (told_said path.now number told.now) gathered.old.items gathered.new.items
        (O.contents out.old) (O.contents out.new) (E.contents err.old) (E.contents err.new)) }
    ensures failed { IfErr result (λ stop. stop ≡ Stop.Fault
        → Rose (O.failures out.old) (O.failures out.new) ⊎ Rose (E.failures err.old) (E.failures err.new)) }
    ensures memory { IfErr result (λ stop. stop ≡ Stop.Memory
        → (O.failures out.new ≡ O.failures out.old) × (E.failures err.new ≡ E.failures err.old)) }
    ensures output_well { OnOk result (O.failures out.new ≡ O.failures out.old) }
    ensures errors_well { OnOk result (E.failures err.new ≡ E.failures err.old) }
    ensures counted { E.failures err.old ≤ E.failures err.new }
    ensures unfinished { O.finishes out.new ≡ O.finishes out.old }
{
    put_printed(out, gathered, &told.text)?;
    if told.refusal.is_none() {
        return Ok(false);
    }
    flush(out, gathered)?;
    report(alloc, path, number, told.refusal, err)
}

/// Says what is told of a message of a number, with nothing gathered. Answers whether it was reported.
pub(crate) fn say_alone<O: Sink, E: Sink>(
    alloc: Global,
    path: &[u32],
    number: u64,
    told: &Told,
    out: &mut O,
    err: &mut E,
) -> Result<bool, Stop>
    requires { IfSome told.now.refusal (λ error. is_memory error ≡ false) }
    ensures all { IfOk result (λ refused. SaysAll (told_said path.now number told.now) refused
        (O.contents out.old) (O.contents out.new) (E.contents err.old) (E.contents err.new)) }
    ensures some { OnErr result (SaysSome (told_said path.now number told.now)
        (O.contents out.old) (O.contents out.new) (E.contents err.old) (E.contents err.new)) }
    ensures failed { IfErr result (λ stop. stop ≡ Stop.Fault
        → Rose (O.failures out.old) (O.failures out.new) ⊎ Rose (E.failures err.old) (E.failures err.new)) }
    ensures memory { IfErr result (λ stop. stop ≡ Stop.Memory
        → (O.failures out.new ≡ O.failures out.old) × (E.failures err.new ≡ E.failures err.old)) }
    ensures output_well { OnOk result (O.failures out.new ≡ O.failures out.old) }
    ensures errors_well { OnOk result (E.failures err.new ≡ E.failures err.old) }
    ensures counted { E.failures err.old ≤ E.failures err.new }
    ensures unfinished { O.finishes out.new ≡ O.finishes out.old }
{
    send_printed(out, &told.text)?;
    report(alloc, path, number, told.refusal, err)
}
