//! Devices that fail under the program: the line of the fault, and the status.

use super::devices::{Broken, Page};
use crate::endings::Ending;
use crate::program::obey;
use mk_run::Status;
use mk_system::Input;
use std::alloc::{AllocError, Global};
use std::test::Fail;

/// Commands that read a message and print something.
const COMMANDS: [&[&str]; 4] = [
    &["mimetool", "sections"],
    &["mimetool", "extract", "-s", "1"],
    &["mimetool", "field", "-A", "A: b"],
    &["mimetool", "field", "-s", "-A", "A: b"],
];

const MESSAGE: &[u8] = b"From a\nA: b\n\nx\n";

fn listed(alloc: Global, words: &[&str]) -> Result<Vec<String>, AllocError> {
    let mut list = Vec::new(alloc);
    for word in words {
        list.push(word.to_string(alloc)?)?;
    }
    Ok(list)
}

#[test]
fn a_read_that_fails_is_named(rt: HostRuntime) -> Result<(), Fail> {
    let alloc = rt.alloc();
    for words in COMMANDS {
        let list = listed(alloc, words)?;
        let mut output = Page::new(alloc);
        let mut errors = Page::new(alloc);
        let ending = obey(&rt, &list, &mut Broken::new(), &mut output, &mut errors);
        assert_eq!(rt; ending.status, Status::Fault, "{words:?}");
        assert_eq!(rt; output.bytes(), b"".as_slice(), "{words:?}");
        assert_eq!(rt;
            errors.bytes(),
            b"mimetool: read fault\n".as_slice(),
            "{words:?}"
        );
    }
    Ok(())
}

#[test]
fn a_write_that_fails_is_named(rt: HostRuntime) -> Result<(), Fail> {
    let alloc = rt.alloc();
    for words in COMMANDS {
        let list = listed(alloc, words)?;
        let mut errors = Page::new(alloc);
        let mut input = Input::new(MESSAGE);
        let ending = obey(&rt, &list, &mut input, &mut Broken::new(), &mut errors);
        assert_eq!(rt; ending.status, Status::Fault, "{words:?}");
        assert_eq!(rt;
            errors.bytes(),
            b"mimetool: write fault\n".as_slice(),
            "{words:?}"
        );
    }
    Ok(())
}

#[test]
fn a_pipe_that_nobody_reads_is_a_fault_without_a_line(rt: HostRuntime) -> Result<(), Fail> {
    let alloc = rt.alloc();
    for words in [
        ["mimetool", "sections"].as_slice(),
        &["mimetool", "field", "-A", "A: b"],
        &["mimetool", "edit", "-e", "add 1 A: b"],
        &["mimetool", "--help"],
    ] {
        let list = listed(alloc, words)?;
        let mut errors = Page::new(alloc);
        let mut input = Input::new(MESSAGE);
        let ending = obey(&rt, &list, &mut input, &mut Broken::pipe(), &mut errors);
        assert_eq!(rt; ending.status, Status::Fault, "{words:?}");
        assert_eq!(rt; errors.bytes(), b"".as_slice(), "{words:?}");
    }
    Ok(())
}

#[test]
fn a_read_that_fails_is_named_beside_a_broken_pipe(rt: HostRuntime) -> Result<(), Fail> {
    let alloc = rt.alloc();
    let list = listed(alloc, &["mimetool", "sections"])?;
    let mut errors = Page::new(alloc);
    let ending = obey(
        &rt,
        &list,
        &mut Broken::new(),
        &mut Broken::pipe(),
        &mut errors,
    );
    assert_eq!(rt; ending.status, Status::Fault);
    assert_eq!(rt; errors.bytes(), b"mimetool: read fault\n".as_slice());
    Ok(())
}

/// Commands with `--tempfail`, and the exit status on a message that can't be read.
const ENDS: [(&[&str], u8); 6] = [
    (&["mimetool", "field", "-A", "A: b"], 3),
    (&["mimetool", "field", "-A", "A: b", "--tempfail"], 75),
    (&["mimetool", "edit", "-e", "undo", "--tempfail"], 75),
    (&["mimetool", "undo", "-j", "none", "--tempfail"], 75),
    (&["mimetool", "redo", "-j", "none", "--tempfail"], 75),
    (&["mimetool", "edit", "-e", "x", "--tempfail"], 2),
];

#[test]
fn faults_may_be_tried_again_where_that_is_asked_for(rt: HostRuntime) -> Result<(), Fail> {
    let alloc = rt.alloc();
    for (words, code) in ENDS {
        let list = listed(alloc, words)?;
        let (mut output, mut errors) = (Page::new(alloc), Page::new(alloc));
        let ending = obey(&rt, &list, &mut Broken::new(), &mut output, &mut errors);
        assert_eq!(rt; ending.code(), code, "{words:?}");
    }
    Ok(())
}

#[test]
fn help_that_can_t_be_printed_is_a_fault(rt: HostRuntime) -> Result<(), Fail> {
    let alloc = rt.alloc();
    let list = listed(alloc, &["mimetool", "--help"])?;
    let mut errors = Page::new(alloc);
    let mut input = Input::new(MESSAGE);
    let ending = obey(&rt, &list, &mut input, &mut Broken::new(), &mut errors);
    assert_eq!(rt; ending.status, Status::Fault);
    assert_eq!(rt; errors.bytes(), b"mimetool: write fault\n".as_slice());
    Ok(())
}

#[test]
fn errors_that_can_t_be_printed_keep_the_status(rt: HostRuntime) -> Result<(), Fail> {
    let alloc = rt.alloc();
    let list = listed(alloc, &["mimetool", "list"])?;
    let mut output = Page::new(alloc);
    let mut input = Input::new(MESSAGE);
    let ending = obey(&rt, &list, &mut input, &mut output, &mut Broken::new());
    assert_eq!(rt; ending.status, Status::Usage);
    Ok(())
}

#[test]
fn statuses_are_exit_codes(rt: HostRuntime) {
    assert_eq!(rt; Status::Well.code(), 0);
    assert_eq!(rt; Status::Refused.code(), 1);
    assert_eq!(rt; Status::Usage.code(), 2);
    assert_eq!(rt; Status::Fault.code(), 3);
    assert_eq!(rt; Status::Memory.code(), 4);
    for (status, code) in [
        (Status::Well, 0),
        (Status::Refused, 1),
        (Status::Usage, 2),
        (Status::Fault, 75),
        (Status::Memory, 75),
    ] {
        let ending = Ending {
            status,
            is_temporary: true,
        };
        assert_eq!(rt; ending.code(), code);
    }
}
