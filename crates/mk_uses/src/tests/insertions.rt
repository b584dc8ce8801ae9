//! A part more for each multipart. Expected values are worked out by hand.
use crate::add_to_each_multipart;
use mk_edit::{EditError, GroupError};
use std::test::Fail;

#[test]
fn each_multipart_gets_the_part(rt: HostRuntime) -> Result<(), Fail> {
    let alloc = rt.alloc();
    let message =
        b"Content-Type: multipart/mixed; boundary=x\n\n--x\nContent-Type: multipart/mixed; boundary=y\n\n--y\n\na\n--y--\n--x\n\nb\n--x--\n";
    let message = Vec::from_slice(alloc, message)?;
    let text = add_to_each_multipart(alloc, message, b"\nfoot\n")?;
    let wanted =
        b"Content-Type: multipart/mixed; boundary=x\n\n--x\nContent-Type: multipart/mixed; boundary=y\n\n--y\n\na\n--y\n\nfoot\n--y--\n--x\n\nb\n--x\n\nfoot\n--x--\n";
    assert_eq!(rt; text.as_slice(), wanted.as_slice());
    Ok(())
}

#[test]
fn a_message_without_multiparts_stays(rt: HostRuntime) -> Result<(), Fail> {
    let alloc = rt.alloc();
    let message = Vec::from_slice(alloc, b"A: b\n\nx\n")?;
    let text = add_to_each_multipart(alloc, message, b"\nfoot\n")?;
    assert_eq!(rt; text.as_slice(), b"A: b\n\nx\n".as_slice());
    Ok(())
}

#[test]
fn a_part_that_holds_a_boundary_is_refused(rt: HostRuntime) -> Result<(), Fail> {
    let alloc = rt.alloc();
    let message = b"Content-Type: multipart/mixed; boundary=x\n\n--x\n\nb\n--x--\n";
    let message = Vec::from_slice(alloc, message)?;
    let refused = add_to_each_multipart(alloc, message, b"\n--x\n").err();
    let reason = GroupError::Member {
        index: 0,
        refusal: EditError::HoldsBoundary { level: 1 },
    };
    assert_eq!(rt; refused, Some(reason));
    Ok(())
}
