//! The descriptors of the standard streams.

use std::fs::Files;
use std::os::fd::AsRawFd;
use std::{fs, io};

/// The descriptors 0 to 2, the least of which the system gives to the next file or connection.
const STANDARD: i32 = 3;

/// Keeps those of the descriptors 0 to 2 that were free when the program began, so that no file and no
/// connection gets one of them: what is printed would go into it.
#[derive(Drop)]
pub struct StandardStreams<R: Files> {
    kept: [Option<R::File>; 3],
}

impl<R: Files> StandardStreams<R>
where
    R::File: AsRawFd,
{
    /// Opens the root folder until its descriptor is above them. It can be neither read nor written as a
    /// file, so a standard stream that was closed still fails.
    pub fn keep(runtime: &R) -> io::Result<StandardStreams<R>> {
        let mut kept = [None, None, None];
        'streams: for place in &mut kept {
            let folder = fs::open(runtime, "/")?;
            if STANDARD <= folder.as_raw_fd() {
                break;
            }
            *place = Some(folder);
        }
        Ok(StandardStreams { kept })
    }
}
