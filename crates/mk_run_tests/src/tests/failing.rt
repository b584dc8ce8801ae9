//! Each run over devices that fail: it ends at once, says whether reading or writing failed, and leaves a prefix of what it
//! would have left.

use super::check_left;
use super::devices::{Failing, Page};
use super::runs::{COUNT, DEVICES, Device, Devices, Failures, NONE, RUNS, only, perform};
use mk_mail::{Sink, Source};
use mk_rows::{Row, rows};
use mk_run::Status;
use std::alloc::Global;
use std::process::Abort;
use std::test::Fail;

/// How many bytes the devices take or give at once.
const SIZES: [usize; 3] = [1, 5, 1_000];

/// More calls than a run makes of a device.
const MORE: u64 = 500;

const READ_FAULT: &[u8] = b"mimetool: read fault\n";

const WRITE_FAULT: &[u8] = b"mimetool: write fault\n";

// Makes the run of a row over devices that may fail, and looks at what it left. How many calls failed.
fn check(
    rt: &impl Abort,
    alloc: Global,
    row: &Row,
    size: usize,
    failures: Failures,
) -> Result<u64, Fail> {
    let mut on = Devices::new(alloc, row.bytes("message"), size, failures)?;
    let status = perform(alloc, row, &mut on)?;
    let faults = on.faults();
    if faults == 0 {
        check_left(rt, alloc, row, status, &on.out, &on.err)?;
        assert_eq!(rt; on.jout.bytes(), row.bytes("left"), "{}", row.shows);
    } else {
        assert_eq!(rt; status, Status::Fault, "{}", row.shows);
        check_output(rt, row, &on);
        check_errors(rt, row, &on);
    }
    Ok(faults)
}

// A prefix of the output is left, and nothing after a read fault, unless messages go out one by one. The journal got a byte only
// once the whole output had gone out.
fn check_output(rt: &impl Abort, row: &Row, on: &Devices<'_>) {
    let (output, shows) = (row.bytes("output"), row.shows);
    assert!(rt; output.starts_with(on.out.bytes()), "{shows}");
    if on.input.faults() > 0 && row.text("run") != "mailbox" {
        assert_eq!(rt; on.out.bytes(), b"".as_slice(), "{shows}");
    }
    assert!(rt; row.bytes("left").starts_with(on.jout.bytes()), "{shows}");
    if on.out.bytes() != output {
        assert_eq!(rt; on.jout.bytes(), b"".as_slice(), "{shows}");
    }
    assert!(rt; on.out.finishes() == 0 || on.jout.faults() > 0, "{shows}");
    assert!(rt; on.jout.finishes() == 0, "{shows}");
}

// The errors are a prefix of those of the run, and then the line that says what failed, unless they failed again.
fn check_errors(rt: &impl Abort, row: &Row, on: &Devices<'_>) {
    let line = if on.input.faults() > 0 {
        READ_FAULT
    } else {
        WRITE_FAULT
    };
    let left = on.err.bytes();
    let told = if on.err.faults() > 1 {
        Some(left)
    } else {
        left.strip_suffix(line)
    };
    match told {
        Some(told) => assert!(rt; row.bytes("errors").starts_with(told), "{}", row.shows),
        None => assert_eq!(rt; left, line, "{}", row.shows),
    }
}

// A device fails at its first call, then at its second, and so on, until a run meets no failure.
fn sweep(
    rt: &impl Abort,
    alloc: Global,
    row: &Row,
    size: usize,
    device: Device,
) -> Result<(), Fail> {
    for call in 0..MORE {
        let lasting = only(device, Failing::From(call));
        check(rt, alloc, row, size, lasting)?;
        let once = only(device, Failing::At(call));
        let faults = check(rt, alloc, row, size, once)?;
        if faults == 0 {
            return Ok(());
        }
        assert_eq!(rt; faults, 1, "{}", row.shows);
    }
    assert_eq!(rt; row.shows, "a run that ends");
    Ok(())
}

#[test]
fn a_device_fails_at_each_call(rt: HostRuntime) -> Result<(), Fail> {
    let alloc = rt.alloc();
    let table = rows(alloc, RUNS)?;
    assert_eq!(rt; table.len(), COUNT);
    for row in &table {
        for device in DEVICES {
            for size in SIZES {
                sweep(&rt, alloc, row, size, device)?;
            }
        }
    }
    Ok(())
}

// The run ends at the first failure, so only one of the two is met.
fn check_both(rt: &impl Abort, alloc: Global, row: &Row, read: u64) -> Result<(), Fail> {
    for call in 0..8u64 {
        let mut failures = only(Device::Input, Failing::At(read));
        failures.output = Failing::At(call);
        failures.journal = Failing::At(call);
        failures.folder = Failing::At(call);
        let faults = check(rt, alloc, row, 5, failures)?;
        assert!(rt; faults <= 1, "{}", row.shows);
    }
    Ok(())
}

#[test]
fn several_devices_may_fail(rt: HostRuntime) -> Result<(), Fail> {
    let alloc = rt.alloc();
    for row in &rows(alloc, RUNS)? {
        for read in 0..24u64 {
            check_both(&rt, alloc, row, read)?;
        }
    }
    Ok(())
}

// A device that takes nothing fails at its first byte.
fn check_stuck(rt: &impl Abort, alloc: Global, row: &Row, is_output: bool) -> Result<(), Fail> {
    let mut on = Devices::new(alloc, row.bytes("message"), 7, NONE)?;
    let stuck = Page::new(alloc, 0)?;
    if is_output {
        on.out = stuck;
    } else {
        on.err = stuck;
    }
    let status = perform(alloc, row, &mut on)?;
    let wanted = row.bytes(if is_output { "output" } else { "errors" });
    if wanted.is_empty() {
        assert_eq!(rt; on.faults(), 0, "{}", row.shows);
        return check_left(rt, alloc, row, status, &on.out, &on.err);
    }
    assert_eq!(rt; status, Status::Fault, "{}", row.shows);
    check_output(rt, row, &on);
    if is_output {
        check_errors(rt, row, &on);
    }
    Ok(())
}

#[test]
fn a_device_takes_nothing(rt: HostRuntime) -> Result<(), Fail> {
    let alloc = rt.alloc();
    for row in &rows(alloc, RUNS)? {
        check_stuck(&rt, alloc, row, true)?;
        check_stuck(&rt, alloc, row, false)?;
    }
    Ok(())
}
