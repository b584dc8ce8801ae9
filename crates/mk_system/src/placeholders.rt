//! The places of standard streams that are closed.

use std::fs::{File, OpenOptions};
use std::os::fd::AsRawFd;
use std::rt::Files;

/// The descriptors of the standard input, of the output and of the errors.
const INPUT: i32 = 0;

const OUTPUT: i32 = 1;

const ERRORS: i32 = 2;

/// The device that holds nothing.
const NOTHING: &str = "/dev/null";

/// Keeps the places of the standard streams that are closed. Without it the next file that is opened would get such a place,
/// and be read or written as that stream. A closed stream still fails when it is used: the input can't be read, and the others
/// can't be written.
#[derive(Drop)]
pub struct Placeholders {
    _held: [Option<File>; 3],
}

impl Placeholders {
    /// Keeps the places of the streams that are closed now. If the system opens nothing, they stay free.
    pub fn hold<R: Files<File = File>>(rt: &R) -> Placeholders {
        let (mut reading, mut writing) = (OpenOptions::new(), OpenOptions::new());
        reading.read(true);
        writing.write(true);
        let input = opened(rt, &writing, INPUT, INPUT);
        let output = opened(rt, &reading, OUTPUT, ERRORS);
        let errors = opened(rt, &reading, OUTPUT, ERRORS);
        Placeholders {
            _held: [input, output, errors],
        }
    }
}

// The device, if it gets one of the descriptors between these two, the lowest that is free.
fn opened<R: Files<File = File>>(rt: &R, how: &OpenOptions, least: i32, most: i32) -> Option<File> {
    let device = how.open(rt, NOTHING).ok()?;
    let place = device.as_raw_fd();
    if least <= place && place <= most {
        Some(device)
    } else {
        None
    }
}
