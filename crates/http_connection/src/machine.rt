//! What the server needs from the machine that it runs on.

use std::alloc::AllocGlobal;
use std::net::{Net, TcpListener, TcpStream};
use std::random::RandomSource;
use std::sync::Wait;
use std::thread::Threads;
use std::time::Clock;

/// Sockets, threads, locks, a clock to sleep by, keys for header maps and memory: a handle of which
/// each thread has a copy.
pub trait Machine: Wait
    + Threads
    + Net<Listener = TcpListener, Stream = TcpStream>
    + Clock
    + RandomSource
    + AllocGlobal
    + Copy
    + Send
    + Sync
    + Drop
    + 'static {}

impl<R> Machine for R
where
    R: Wait
        + Threads
        + Net<Listener = TcpListener, Stream = TcpStream>
        + Clock
        + RandomSource
        + AllocGlobal
        + Copy
        + Send
        + Sync
        + Drop
        + 'static,
{}
