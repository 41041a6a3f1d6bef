//! The half of a socket that writes.

ghost use Rattle.std.specs.Prelude.{◌≡◌, []};
ghost use Rattle.futures.specs.Task.{Covers, Keeps};
ghost use Rattle.tokio.specs.Io.Moved.{count_moved};

use crate::passed::Passed;
use crate::ready::Ready;
use crate::unused::Unused;
use futures::task::{Context, Poll, Source, Waker};
use mio::net::TcpStream;
use std::io;
use std::io::Write;
use std::net::Shutdown;
use std::rc::Rc;
use tokio::io::AsyncWrite;

/// The half that alone writes to a socket that a [`SocketLoop`](crate::SocketLoop) watches. Contracts
/// see the bytes that the socket took, and its name. The socket is closed once both halves are
/// dropped.
#[derive(Drop)]
pub struct Writer {
    socket: Rc<TcpStream>,
    ready: Rc<Ready>,
    // What a write waits for that finds the socket not ready: its next event. Its loop polls its
    // task after each event, so no event has to empty the slot.
    event: Source,
    waker: Option<Waker>,
    taken: Passed,
}

impl Writer {
    ghost use Rattle.socket_loop.specs.Halves.{name_of, name_of_unused, taken_by};

    /// Makes the half of a socket that does not block and is watched. `event` is what its writes
    /// wait for.
    pub(crate) fn new(socket: Rc<TcpStream>, ready: Rc<Ready>, event: Source) -> Writer
        ensures nothing { taken_by result ≡ [] }
        ensures name { name_of result ≡ event.id }
    {
        Writer {
            socket,
            ready,
            event,
            waker: None,
            taken: Passed::new(),
        }
    }

    /// Gives the half up, for this reason, before it has written anything.
    pub fn give_up(self, fault: io::Error) -> Unused
        requires { taken_by self ≡ [] }
        ensures { name_of_unused result ≡ name_of self }
    {
        let Writer { event, .. } = self;
        Unused { fault, event }
    }

    /// Waits for the socket's next event.
    fn wait<T>(&mut self, cx: &mut Context<'_>) -> Poll<T>
        ensures pending { result ≡ Poll.Pending }
        ensures registered { Covers cx.new (λ s. s ≡ name_of self.new) }
        ensures same { (taken_by self.new ≡ taken_by self.old) × (name_of self.new ≡ name_of self.old) }
        ensures kept { Keeps cx.old cx.new }
    {
        cx.register(&self.event, &mut self.waker)
    }
}

impl AsyncWrite for Writer {
    ghost use Rattle.socket_loop.specs.Halves.{name_of, Takes, Takes_in_order, Takes_nothing};

    ghost needs = { λ s source. source ≡ name_of s };

    ghost writes = { Takes };

    ghost writes_nothing = { Takes_nothing };

    ghost writes_in_order = { Takes_in_order };

    /// Writes once, and notes what the socket took. A write of fewer bytes than were given has filled
    /// the socket.
    fn poll_write(&mut self, cx: &mut Context<'_>, buf: &[u8]) -> Poll<io::Result<usize>> {
        if !self.ready.can_write() {
            return self.wait(cx);
        }
        match (&*self.socket).write(buf) {
            Ok(count) => {
                self.taken.note(&buf[..count]);
                if count < buf.len() {
                    self.ready.note_full();
                }
                Poll::Ready(Ok(count))
            }
            Err(fault) if fault.kind() == io::ErrorKind::WouldBlock => {
                self.ready.note_full();
                self.wait(cx)
            }
            Err(fault) => Poll::Ready(Err(fault)),
        }
    }

    fn poll_flush(&mut self, _cx: &mut Context<'_>) -> Poll<io::Result<()>> {
        Poll::Ready(Ok(()))
    }

    fn poll_shutdown(&mut self, _cx: &mut Context<'_>) -> Poll<io::Result<()>> {
        Poll::Ready(shut_down(&self.socket))
    }
}

/// Ends this side of the connection. A connection that the peer has reset counts as ended.
pub(crate) fn shut_down(socket: &TcpStream) -> io::Result<()> {
    match socket.shutdown(Shutdown::Write) {
        Err(fault) if fault.kind() == io::ErrorKind::NotConnected => Ok(()),
        ended => ended,
    }
}
