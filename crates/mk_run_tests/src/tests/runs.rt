//! A run of each kind, made over devices that may fail.

use super::devices::{Failing, Page, Text};
use super::journal_of;
use super::letters::letters_in;
use super::shelf::Shelf;
use mk_mail::{Sink, Source};
use mk_rows::Row;
use mk_run::{
    Folder, Spec, Status, run_edit, run_extract, run_field, run_pack, run_sections, unpack,
};
use std::alloc::{AllocError, Global};
use std::test::Fail;

/// A run, its input, and what it leaves where no device fails.
pub const RUNS: &str = r#"
== sections
run: sections
message: Content-Type: multipart/mixed; boundary=b\n\n--b\n\nx\n--b--\n
output: 1 multi multipart/mixed identity 0 43 56 1 4\n1.1 leaf text/plain identity 47 48 50 0 1\n
status: Well

== a content
run: extract
path: 1.1
message: Content-Type: multipart/mixed; boundary=b\n\n--b\n\nx\n--b--\n
output: x
status: Well

== no content
run: extract
path: 1.9
message: Content-Type: multipart/mixed; boundary=b\n\n--b\n\nx\n--b--\n
errors: 1.9: NoSuchSection\n
status: Refused

== a packed message
run: pack
message: Subject: s\n
output: Subject: s\nMIME-Version: 1.0\nContent-Type: multipart/mixed; boundary="b"\n\n--b\nContent-Type: text/plain; name="n.txt"\nContent-Disposition: attachment; filename="n.txt"\nContent-Transfer-Encoding: quoted-printable\n\nhi\n\n--b--\n
status: Well

== a body that isn't packed
run: pack
message: Subject: s\n\nx\n
errors: pack: BadField 1\n
status: Refused

== a filtered message
run: field
only: A: 9
message: A: 1\n\nx\n
output: A: 9\n\nx\n
status: Well

== what a field holds
run: field
take: A
message: A: 1\n\nx\n
output: \x201\n
status: Well

== a message that isn't filtered
run: field
only: A:
message: A: 1\nFrom x\n
output: A: 1\nFrom x\n
errors: message 1: Recut\n
status: Refused

== a filtered mailbox
run: mailbox
only: A: 9
message: From a\nA: 1\n\nx\n\nFrom b\nA: 2\n\ny\nFrom z\n\nFrom c\nA: 3\n\n
output: From a\nA: 9\n\nx\n\nFrom b\nA: 9\n\ny\nFrom z\n\nFrom c\nA: 9\n\n
status: Well

== a mailbox of which one message isn't filtered
run: mailbox
only: A:
message: A: 1\nFrom x\n\nFrom b\nA: 2\n\nFrom c\nA: 3\n y\n\n
output: A: 1\nFrom x\n\nFrom b\n\nFrom c\n\n
errors: message 1: Recut\n
status: Refused

== unpacked leaves, one of which isn't decoded
run: unpack
message: Content-Type: multipart/mixed; boundary=b\n\n--b\nContent-Transfer-Encoding: base64\n\naGl=\n--b\nContent-Type: image/gif; name=x\n\nhi\n--b\nContent-Type: image/gif; name=y\n\nho\n--b--\n
output: x (image/gif)\ny (image/gif)\n
errors: 1.1: BadBase64\n
status: Refused

== an edited message and its journal
run: edit
new:
script: undo\nadd 1 C: d\nredo\n
message: A: b\n\nx\n
output: A: b\nC: d\n\nx\n
errors: line 1: NothingToUndo\nline 3: NothingToRedo\n
left: mimejournal 2\nffa85b235308dbbe11aaddd971ba5b28529a258c87c62ecc8efbcf789b5128ef\n1 0\n1\n5 0 5\nC: d\n\n
status: Refused
"#;

/// How many rows that are.
pub const COUNT: usize = 12;

/// When each device of a run fails.
#[derive(Clone, Copy)]
pub struct Failures {
    pub input: Failing,
    pub output: Failing,
    pub errors: Failing,
    pub journal: Failing,
    pub folder: Failing,
}

/// No device fails.
pub const NONE: Failures = Failures {
    input: Failing::Never,
    output: Failing::Never,
    errors: Failing::Never,
    journal: Failing::Never,
    folder: Failing::Never,
};

/// A device of a run.
#[derive(Clone, Copy)]
pub enum Device {
    Input,
    Output,
    Errors,
    Journal,
    Folder,
}

pub const DEVICES: [Device; 5] = [
    Device::Input,
    Device::Output,
    Device::Errors,
    Device::Journal,
    Device::Folder,
];

/// Only this device fails.
pub fn only(device: Device, failing: Failing) -> Failures {
    let mut failures = NONE;
    match device {
        Device::Input => failures.input = failing,
        Device::Output => failures.output = failing,
        Device::Errors => failures.errors = failing,
        Device::Journal => failures.journal = failing,
        Device::Folder => failures.folder = failing,
    }
    failures
}

/// The devices of a run.
#[derive(Drop)]
pub struct Devices<'a> {
    pub input: Text<'a>,
    pub out: Page,
    pub err: Page,
    pub jout: Page,
    pub dir: Shelf,
}

impl<'a> Devices<'a> {
    /// Devices over an input, of this many bytes a call.
    pub fn new(
        alloc: Global,
        text: &'a [u8],
        size: usize,
        failures: Failures,
    ) -> Result<Devices<'a>, AllocError> {
        Ok(Devices {
            input: Text::over(text, size, failures.input),
            out: Page::over(alloc, size, failures.output)?,
            err: Page::over(alloc, size, failures.errors)?,
            jout: Page::over(alloc, size, failures.journal)?,
            dir: Shelf::over(alloc, failures.folder),
        })
    }

    /// How many of their calls failed.
    pub fn faults(&self) -> u64 {
        let sinks = self.out.faults().saturating_add(self.err.faults());
        let others = self.jout.faults().saturating_add(self.dir.faults());
        self.input
            .faults()
            .saturating_add(sinks.saturating_add(others))
    }
}

/// Makes the run of a row. One that isn't known is a usage fault, which no row wants.
pub fn perform(alloc: Global, row: &Row, on: &mut Devices<'_>) -> Result<Status, Fail> {
    match row.text("run") {
        "sections" => Ok(run_sections(alloc, &mut on.input, &mut on.out, &mut on.err)),
        "extract" => {
            let path = row.path(alloc, "path")?;
            let (input, out) = (&mut on.input, &mut on.out);
            Ok(run_extract(alloc, input, out, &mut on.err, &path))
        }
        "unpack" => {
            let (input, out, dir) = (&mut on.input, &mut on.out, &mut on.dir);
            Ok(unpack(alloc, input, out, &mut on.err, dir, true, false, false))
        }
        "pack" => pack(alloc, on),
        "field" => filter(alloc, row, on, false),
        "mailbox" => filter(alloc, row, on, true),
        "edit" => edit(alloc, row, on),
        _ => Ok(Status::Usage),
    }
}

fn pack(alloc: Global, on: &mut Devices<'_>) -> Result<Status, Fail> {
    let text = Vec::from_slice(alloc, b"hi\n")?;
    let Some(spec) = Spec::of(b"text/plain:d/n.txt") else {
        return Ok(Status::Usage);
    };
    let parts = [spec.attach(alloc, text)?];
    let (input, out) = (&mut on.input, &mut on.out);
    Ok(run_pack(alloc, input, out, &mut on.err, b"b", &parts))
}

fn filter(alloc: Global, row: &Row, on: &mut Devices<'_>, each: bool) -> Result<Status, Fail> {
    let letters = letters_in(alloc, row)?;
    if !letters.ok() {
        return Ok(Status::Usage);
    }
    let (input, out) = (&mut on.input, &mut on.out);
    Ok(run_field(alloc, input, out, &mut on.err, &letters, each))
}

fn edit(alloc: Global, row: &Row, on: &mut Devices<'_>) -> Result<Status, Fail> {
    let script = row.bytes("script");
    let pieces = Vec::new(alloc);
    Ok(run_edit(
        alloc,
        &mut on.input,
        &mut on.out,
        &mut on.err,
        script,
        &pieces,
        journal_of(row),
        &mut on.jout,
    ))
}
