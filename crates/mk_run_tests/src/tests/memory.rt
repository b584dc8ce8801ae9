//! Runs in which a growth of memory is refused: each gives its defined answer, or runs out of memory and leaves a prefix of
//! that, and then gives its answer when it is made again. `checks/refuse` runs each test here with each growth refused in turn.

ghost use Rattle.std.specs.Prelude.{◌≡◌, true};
ghost use Rattle.mk_mail.specs.LetterViews.{letters_of};
ghost use Rattle.mk_mail.specs.Letters.{are_allowed};

use super::devices::{Page, Text};
use super::filtered::{FILTERED, MAILBOX};
use super::letters::only;
use super::shelf::Slot;
use mk_mail::{Attach, Letters};
use mk_run::{
    Journal, Spec, Status, Stop, read_all, run_edit, run_extract, run_field, run_pack,
    run_sections, unpack,
};
use mk_script::{ScriptError, path, steps};
use std::alloc::{AllocError, Global};
use std::process::Abort;

/// A script on a message, and what comes of it.
#[derive(Clone, Copy)]
struct Case {
    message: &'static [u8],
    script: &'static [u8],
    output: &'static [u8],
    errors: &'static [u8],
}

const EDITS: Case = Case {
    message: MESSAGE,
    script: SCRIPT,
    output: OUTPUT,
    errors: ERRORS,
};

const JOBS: Case = Case {
    message: b"A: b\nA: c\nContent-Type: multipart/mixed; boundary=b\n\n--b\nContent-Transfer-Encoding: base64\n\nYQ==\n--b\n\nx\n--b--\n",
    script: b"attach 1 x n 1\ncontent 1.1 1\nput 1 A: d\nremove 1.2 1.2\nbegin\nappend 1 1\nattach 1 text/plain n 1\nend\ndrop 1 A\nundo\nundo\n",
    output: b"A: d\nContent-Type: multipart/mixed; boundary=b\n\n--b\nContent-Transfer-Encoding: base64\n\naGkK\n--b--\n",
    errors: b"line 1: BadType\n",
};

const PIECE: &[u8] = b"hi\n";

const MESSAGE: &[u8] =
    b"A: b\nContent-Type: multipart/mixed; boundary=\"a:b\"\n\n--a:b\n\nx\n--a:b--\n";

const SCRIPT: &[u8] =
    b"add 1.1 --a:b\nbegin\nadd 1 C: d\nset 1 A 1 E: f\nend\nren 1 E 1 G\ndel 1 C 1\nundo\nredo\n";

const OUTPUT: &[u8] =
    b"G: f\nContent-Type: multipart/mixed; boundary=\"a:b\"\n\n--a:b\n\nx\n--a:b--\n";

const ERRORS: &[u8] = b"line 1: HoldsBoundary 1\n";

const SIZE: usize = 1_000;

#[test]
fn memory_for_a_path(rt: HostRuntime) {
    let alloc = rt.alloc();
    let Ok(found) = path(alloc, b"1.2.3") else {
        assert!(rt; path(alloc, b"1.2.3").is_ok());
        return;
    };
    assert!(rt; found.is_some());
}

#[test]
fn memory_for_steps(rt: HostRuntime) {
    let alloc = rt.alloc();
    match steps(alloc, SCRIPT, 0) {
        Ok(all) => assert_eq!(rt; all.len(), 6),
        Err(error) => {
            assert_eq!(rt; error, ScriptError::Memory);
            assert!(rt; steps(alloc, SCRIPT, 0).is_ok());
        }
    }
}

#[test]
fn memory_for_a_text(rt: HostRuntime) {
    let alloc = rt.alloc();
    match read_all(alloc, &mut Text::new(MESSAGE, SIZE)) {
        Ok(text) => assert_eq!(rt; text.as_slice(), MESSAGE),
        Err(stop) => {
            assert_eq!(rt; stop, Stop::Memory);
            assert!(rt; read_all(alloc, &mut Text::new(MESSAGE, SIZE)).is_ok());
        }
    }
}

// Where there is no memory for the size that is told, the text grows as it is read.
#[test]
fn memory_for_a_text_of_a_known_size(rt: HostRuntime) {
    let alloc = rt.alloc();
    let known = Some(MESSAGE.len());
    match read_all(alloc, &mut Text::new(MESSAGE, SIZE).telling(known)) {
        Ok(text) => assert_eq!(rt; text.as_slice(), MESSAGE),
        Err(stop) => assert_eq!(rt; stop, Stop::Memory),
    }
}

#[test]
fn memory_for_a_run(rt: HostRuntime) {
    check_case(&rt, rt.alloc(), EDITS);
}

#[test]
fn memory_for_words_of_several_edits(rt: HostRuntime) {
    check_case(&rt, rt.alloc(), JOBS);
}

fn check_case(rt: &impl Abort, alloc: Global, case: Case) {
    // Where the test's own devices get no memory, there is nothing to see.
    let (Ok(out), Ok(err)) = (Page::new(alloc, SIZE), Page::new(alloc, SIZE)) else {
        return;
    };
    let (Ok(jout), Ok(pieces)) = (Page::new(alloc, SIZE), pieces_in(alloc)) else {
        return;
    };
    if check_run(rt, alloc, case, &pieces, out, err, jout) == Status::Memory {
        let (out, err, jout) = (page(rt, alloc), page(rt, alloc), page(rt, alloc));
        assert_eq!(rt;
            check_run(rt, alloc, case, &pieces, out, err, jout),
            Status::Refused
        );
    }
}

fn pieces_in(alloc: Global) -> Result<Vec<Vec<u8>>, AllocError> {
    let mut pieces = Vec::new(alloc);
    pieces.push(Vec::from_slice(alloc, PIECE)?)?;
    Ok(pieces)
}

/// An empty page, where there is memory again.
pub fn page(rt: &impl Abort, alloc: Global) -> Page {
    Page::new(alloc, SIZE).expect(rt, "memory")
}

// The run is the defined one, or it is given up when memory runs out.
fn check_run(
    rt: &impl Abort,
    alloc: Global,
    case: Case,
    pieces: &[Vec<u8>],
    mut out: Page,
    mut err: Page,
    mut jout: Page,
) -> Status {
    let mut input = Text::new(case.message, SIZE);
    let journal = Journal::New;
    let status = run_edit(
        alloc,
        &mut input,
        &mut out,
        &mut err,
        case.script,
        pieces,
        journal,
        &mut jout,
    );
    if status == Status::Memory {
        assert_eq!(rt; out.bytes(), b"".as_slice());
        assert_eq!(rt; jout.bytes(), b"".as_slice());
        assert_eq!(rt; out.finishes(), 0);
        assert!(rt; err.bytes().ends_with(b"mimetool: memory\n"));
    } else {
        assert_eq!(rt; status, Status::Refused);
        assert_eq!(rt; out.bytes(), case.output);
        assert_eq!(rt; err.bytes(), case.errors);
        assert_eq!(rt; out.finishes(), 1);
        assert_eq!(rt; jout.finishes(), 1);
    }
    status
}

const SPOILT: &[u8] =
    b"Content-Type: multipart/mixed; boundary=b\n\n--b\nContent-Transfer-Encoding: base64\n\naGl=\n--b\nContent-Type: image/gif; name=x\n\nhi\n--b--\n";

const SAID: &[u8] = b"x (image/gif)\n";

const TOLD: &[u8] = b"1.1: BadBase64\n";

#[test]
fn memory_for_unpacking(rt: HostRuntime) {
    let alloc = rt.alloc();
    let (Ok(out), Ok(err)) = (Page::new(alloc, SIZE), Page::new(alloc, SIZE)) else {
        return;
    };
    let Ok(dir) = Slot::new(alloc, SIZE) else {
        return;
    };
    if check_unpacking(&rt, alloc, out, err, dir) == Status::Memory {
        let dir = Slot::new(alloc, SIZE).expect(&rt, "memory");
        let (out, err) = (page(&rt, alloc), page(&rt, alloc));
        assert_eq!(rt; check_unpacking(&rt, alloc, out, err, dir), Status::Refused);
    }
}

// All is unpacked, or the first part of it.
fn check_unpacking(
    rt: &impl Abort,
    alloc: Global,
    mut out: Page,
    mut err: Page,
    mut dir: Slot,
) -> Status {
    let mut input = Text::new(SPOILT, SIZE);
    let status = unpack(
        alloc, &mut input, &mut out, &mut err, &mut dir, true, false, false,
    );
    if status == Status::Memory {
        assert_eq!(rt; out.bytes(), b"".as_slice());
        assert!(rt; err.bytes().ends_with(b"mimetool: memory\n"));
        assert!(rt; dir.file() == (b"", b"") || dir.file() == (b"x", b"hi"));
    } else {
        assert_eq!(rt; status, Status::Refused);
        assert_eq!(rt; out.bytes(), SAID);
        assert_eq!(rt; err.bytes(), TOLD);
        assert!(rt; dir.file() == (b"x", b"hi"));
    }
    status
}

const PICTURED: &[u8] =
    b"A: b\nMIME-Version: 1.0\nContent-Type: multipart/mixed; boundary=\"b\"\n\n--b\nContent-Type: image/gif; name=\"x\"\nContent-Disposition: attachment; filename=\"x\"\nContent-Transfer-Encoding: base64\n\n\n--b--\n";

#[test]
fn memory_for_packing(rt: HostRuntime) {
    let alloc = rt.alloc();
    let (Ok(out), Ok(err)) = (Page::new(alloc, SIZE), Page::new(alloc, SIZE)) else {
        return;
    };
    let Some(spec) = Spec::of(b"image/gif:d/x") else {
        return;
    };
    match spec.attach(alloc, Vec::new(alloc)) {
        Ok(part) => {
            let parts = [part];
            if check_packing(&rt, alloc, out, err, &parts) == Status::Memory {
                let (out, err) = (page(&rt, alloc), page(&rt, alloc));
                assert_eq!(rt; check_packing(&rt, alloc, out, err, &parts), Status::Well);
            }
        }
        Err(_) => assert!(rt; spec.attach(alloc, Vec::new(alloc)).is_ok()),
    }
}

// The message goes out, or the run is given up when memory runs out.
fn check_packing(
    rt: &impl Abort,
    alloc: Global,
    mut out: Page,
    mut err: Page,
    parts: &[Attach],
) -> Status {
    let mut input = Text::new(b"A: b", SIZE);
    let status = run_pack(alloc, &mut input, &mut out, &mut err, b"b", parts);
    if status == Status::Memory {
        assert_eq!(rt; out.bytes(), b"".as_slice());
        assert!(rt; err.bytes().ends_with(b"mimetool: memory\n"));
    } else {
        assert_eq!(rt; status, Status::Well);
        assert_eq!(rt; out.bytes(), PICTURED);
        assert_eq!(rt; err.bytes(), b"".as_slice());
    }
    status
}

#[test]
fn memory_for_filtering(rt: HostRuntime) {
    let alloc = rt.alloc();
    let (Ok(out), Ok(err)) = (Page::new(alloc, SIZE), Page::new(alloc, SIZE)) else {
        return;
    };
    let Ok(letters) = only(alloc, b"A: 9") else {
        return;
    };
    if letters.ok() && check_filtering(&rt, alloc, out, err, &letters) == Status::Memory {
        let (out, err) = (page(&rt, alloc), page(&rt, alloc));
        assert_eq!(rt;
            check_filtering(&rt, alloc, out, err, &letters),
            Status::Well
        );
    }
}

// All messages are filtered, or the first part of them.
fn check_filtering(
    rt: &impl Abort,
    alloc: Global,
    mut out: Page,
    mut err: Page,
    letters: &Letters,
) -> Status
    requires { are_allowed (letters_of letters.now) ≡ true }
{
    let mut input = Text::new(MAILBOX, SIZE);
    let status = run_field(alloc, &mut input, &mut out, &mut err, letters, true);
    if status == Status::Memory {
        assert!(rt; FILTERED.starts_with(out.bytes()));
        assert_eq!(rt; err.bytes(), b"mimetool: memory\n".as_slice());
    } else {
        assert_eq!(rt; status, Status::Well);
        assert_eq!(rt; out.bytes(), FILTERED);
        assert_eq!(rt; err.bytes(), b"".as_slice());
    }
    status
}

const LISTING: &[u8] =
    b"1 multi multipart/mixed identity 0 52 69 2 4\n1.1 leaf text/plain identity 58 59 61 0 1\n";

#[test]
fn memory_for_sections(rt: HostRuntime) {
    let alloc = rt.alloc();
    let (Ok(out), Ok(err)) = (Page::new(alloc, SIZE), Page::new(alloc, SIZE)) else {
        return;
    };
    if check_sections(&rt, alloc, out, err) == Status::Memory {
        let (out, err) = (page(&rt, alloc), page(&rt, alloc));
        assert_eq!(rt; check_sections(&rt, alloc, out, err), Status::Well);
    }
}

// The sections are listed, or nothing is.
fn check_sections(rt: &impl Abort, alloc: Global, mut out: Page, mut err: Page) -> Status {
    let mut input = Text::new(MESSAGE, SIZE);
    let status = run_sections(alloc, &mut input, &mut out, &mut err);
    check_shown(rt, status, &out, &err, LISTING);
    status
}

// All of an answer went out, or memory ran out and nothing did.
fn check_shown(rt: &impl Abort, status: Status, out: &Page, err: &Page, answer: &[u8]) {
    if status == Status::Memory {
        assert_eq!(rt; out.bytes(), b"".as_slice());
        assert_eq!(rt; err.bytes(), b"mimetool: memory\n".as_slice());
    } else {
        assert_eq!(rt; status, Status::Well);
        assert_eq!(rt; out.bytes(), answer);
        assert_eq!(rt; err.bytes(), b"".as_slice());
    }
}

#[test]
fn memory_for_extracting(rt: HostRuntime) {
    let alloc = rt.alloc();
    let (Ok(out), Ok(err)) = (Page::new(alloc, SIZE), Page::new(alloc, SIZE)) else {
        return;
    };
    if check_extracting(&rt, alloc, out, err) == Status::Memory {
        let (out, err) = (page(&rt, alloc), page(&rt, alloc));
        assert_eq!(rt; check_extracting(&rt, alloc, out, err), Status::Well);
    }
}

// The content is given, or nothing is.
fn check_extracting(rt: &impl Abort, alloc: Global, mut out: Page, mut err: Page) -> Status {
    let mut input = Text::new(MESSAGE, SIZE);
    let status = run_extract(alloc, &mut input, &mut out, &mut err, &[1, 1]);
    check_shown(rt, status, &out, &err, b"x");
    status
}
