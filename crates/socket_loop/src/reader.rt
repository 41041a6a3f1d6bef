//! The half of a socket that reads.

ghost use Rattle.std.specs.Prelude.{◌≡◌, ⊤};
ghost use Rattle.futures.specs.Task.{Covers, Keeps};
ghost use Rattle.tokio.specs.Io.Moved.{count_moved};

use crate::ready::Ready;
use crate::writer::shut_down;
use futures::task::{Context, Poll, Source, Waker};
use mio::net::TcpStream;
use std::io;
use std::io::Read;
use std::rc::Rc;
use tokio::io::AsyncRead;

/// The half that reads from a socket that a [`SocketLoop`](crate::SocketLoop) watches. The socket
/// is closed once both halves are dropped.
#[derive(Drop)]
pub struct Reader {
    socket: Rc<TcpStream>,
    ready: Rc<Ready>,
    // What a read waits for that finds the socket not ready: its next event. Its loop polls its
    // task after each event, so no event has to empty the slot.
    event: Source,
    waker: Option<Waker>,
}

impl Reader {
    ghost use Rattle.socket_loop.specs.Halves.{event_of};

    /// Makes the half of a socket that does not block and is watched.
    pub(crate) fn new(socket: Rc<TcpStream>, ready: Rc<Ready>) -> Reader {
        Reader {
            socket,
            ready,
            event: Source::new(),
            waker: None,
        }
    }

    /// Ends this side of the connection: nothing more can be written. A connection that the peer
    /// has reset counts as ended.
    pub fn shut_down(&self) -> io::Result<()> {
        shut_down(&self.socket)
    }

    /// Waits for the socket's next event.
    fn wait<T>(&mut self, cx: &mut Context<'_>) -> Poll<T>
        ensures pending { result ≡ Poll.Pending }
        ensures registered { Covers cx.new (λ s. s ≡ event_of self.new) }
        ensures kept { Keeps cx.old cx.new }
    {
        cx.register(&self.event, &mut self.waker)
    }
}

impl AsyncRead for Reader {
    ghost use Rattle.socket_loop.specs.Halves.{event_of};

    ghost needs = { λ s source. source ≡ event_of s };

    ghost reads = { λ _ _ _. ⊤ };

    ghost is_at_end = { λ _. ⊤ };

    ghost reads_nothing = { λ _. tt };

    ghost reads_in_order = { λ _ _ _ _ _ _ _. tt };

    /// A read of fewer bytes than there is room for has emptied the socket, which saves the call that
    /// would wait.
    fn poll_read(&mut self, cx: &mut Context<'_>, buf: &mut [u8]) -> Poll<io::Result<usize>> {
        if !self.ready.can_read() {
            return self.wait(cx);
        }
        match (&*self.socket).read(buf) {
            Ok(count) => {
                if 0 < count && count < buf.len() {
                    self.ready.note_short_read();
                }
                Poll::Ready(Ok(count))
            }
            Err(fault) if fault.kind() == io::ErrorKind::WouldBlock => {
                self.ready.note_blocked_read();
                self.wait(cx)
            }
            Err(fault) => Poll::Ready(Err(fault)),
        }
    }
}
