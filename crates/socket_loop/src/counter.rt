//! A counter of the system's (`eventfd(2)`), by which other threads end a loop's wait.

use libc::net::{EFD_CLOEXEC, EFD_NONBLOCK, eventfd};
use os::FromRawFd;
use std::io;
use std::os::fd::OwnedFd;

/// Opens a counter. Nothing has to read it: each write to it is an event for a loop that watches it.
///
/// # Errors
/// If the system refuses the descriptor.
pub(crate) fn open_counter() -> io::Result<OwnedFd> {
    let fd = eventfd(0, EFD_CLOEXEC | EFD_NONBLOCK);
    if fd < 0 {
        return Err(io::Error::from_raw_os_error(os::errno()));
    }
    // The descriptor is new, and nothing else has its number.
    Ok(unsafe { OwnedFd::from_raw_fd(fd) })
}
