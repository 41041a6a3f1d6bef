//! A connection's socket, shared by its holders.

ghost use Rattle.std.specs.Prelude.{◌≡◌, IfErr, IfOk};
ghost use Rattle.futures.specs.Poll.{OnPending};
ghost use Rattle.futures.specs.Task.{IsArmed, Keeps};

use crate::socket::Socket;
use connection_state::Pulse;
use futures::task::{Context, Poll};
use socket_loop::{Accepted, Passed, Reader, SocketLoop, Unused, Writer};
use std::alloc::{AllocError, AllocGlobal};
use std::cell::RefCell;
use std::rc::Rc;
use std::{io, mem};
use tokio::io::{AsyncRead, AsyncWrite};

/// A holder of the half of a connection's socket that reads: the connection's service, the pending
/// responses, and the watch for the peer's end. It writes nothing.
#[derive(Drop)]
pub(crate) struct Holder {
    socket: Rc<RefCell<Socket<Reader>>>,
}

/// A connection's socket, as the connection reads from it and writes to it. Contracts see its name,
/// the bytes that it gave, and those that it took.
#[derive(Drop)]
pub struct Wire {
    holder: Holder,
    writer: Writer,
    given: Passed,
}

impl Wire {
    ghost use Rattle.socket_loop.specs.Halves.{name_of_accepted, name_of_unused};
    ghost use Rattle.http_connection.specs.Wires.{IsFresh, name_of};

    /// Watches a socket by this loop.
    ///
    /// # Errors
    /// If the socket cannot be watched, or an allocation fails.
    pub(crate) fn watch<R: AllocGlobal>(
        rt: &R,
        socket_loop: &mut SocketLoop,
        accepted: Accepted,
    ) -> Result<Wire, Unused>
        ensures fresh { IfOk result IsFresh }
        ensures name { IfOk result (λ wire. name_of wire ≡ name_of_accepted accepted) }
        ensures unused { IfErr result (λ unused. name_of_unused unused ≡ name_of_accepted accepted) }
    {
        let (reader, writer) = match socket_loop.watch(rt, accepted) {
            Ok(halves) => halves,
            Err(unused) => return Err(unused),
        };
        let alloc = rt.alloc();
        match Rc::new(alloc, RefCell::new(Socket::new(alloc, reader))) {
            Ok(socket) => Ok(Wire {
                holder: Holder { socket },
                writer,
                given: Passed::new(),
            }),
            Err(_refused) => Err(writer.give_up(AllocError.into())),
        }
    }

    /// Gives the socket up because an allocation failed, before anything was written to it.
    pub(crate) fn give_up(self) -> Unused
        requires { IsFresh self }
        ensures { name_of_unused result ≡ name_of self }
    {
        self.writer.give_up(AllocError.into())
    }

    /// Makes a holder of its half that reads.
    pub(crate) fn share(&self) -> Result<Holder, AllocError> {
        self.holder.share()
    }
}

impl Holder {
    /// Makes another holder.
    pub(crate) fn share(&self) -> Result<Holder, AllocError> {
        let socket = self.socket.clone()?;
        Ok(Holder { socket })
    }

    /// Ends this side of the connection.
    pub(crate) fn shut_down(&self) {
        if let Ok(socket) = self.socket.try_borrow_mut() {
            let _ = socket.stream.shut_down();
        }
    }

    /// Notes that a request whose head has come is taken up.
    pub(crate) fn take_up(&self) {
        if let Ok(mut socket) = self.socket.try_borrow_mut() {
            socket.stand.take_up();
        }
    }

    /// Notes that the service has given the response, and whether that refuses a poll.
    pub(crate) fn note_response(&self, is_refused: bool) {
        if let Ok(mut socket) = self.socket.try_borrow_mut() {
            socket.stand.note_response();
            socket.is_refused = is_refused;
        }
    }

    /// Returns whether the last request was a poll that was refused, and forgets it.
    pub(crate) fn takes_refusal(&self) -> bool {
        match self.socket.try_borrow_mut() {
            Ok(mut socket) => mem::take(&mut socket.is_refused),
            Err(_) => false,
        }
    }

    /// Returns whether the connection waited for its peer to send a request when its last turn
    /// ended, and so serves none.
    pub(crate) fn is_unserved(&self) -> bool {
        match self.socket.try_borrow_mut() {
            Ok(socket) => socket.stand.told().is_unserved(),
            Err(_) => false,
        }
    }

    /// Is ready once the peer has ended its side, or the socket failed. What comes before the end
    /// is kept for the next read. A peer that has sent 64 KiB after a parked request is taken to
    /// have ended.
    pub(crate) fn poll_ended(&self, cx: &mut Context<'_>) -> Poll<()>
        ensures kept { Keeps cx.old cx.new }
    {
        match self.socket.try_borrow_mut() {
            Ok(mut socket) => socket.poll_ended(cx),
            Err(_) => Poll::Pending,
        }
    }

    /// Is ready once the peer has ended its side, the socket failed, or 64 MiB have come. What
    /// comes is discarded. A socket that is closed with unread bytes, or to which more is sent,
    /// resets the connection, and the peer may then lose an answer that it has not read yet (RFC
    /// 9112, section 9.6).
    pub(crate) fn poll_drained(&self, cx: &mut Context<'_>) -> Poll<()>
        ensures registered { OnPending result (IsArmed cx.new) }
        ensures kept { Keeps cx.old cx.new }
    {
        match self.socket.try_borrow_mut() {
            Ok(mut socket) => socket.poll_drained(cx),
            Err(_) => Poll::Ready(()),
        }
    }

    /// Returns whether the peer may still be sending: it is within a request.
    pub(crate) fn is_sending(&self) -> bool {
        match self.socket.try_borrow_mut() {
            Ok(socket) => socket.is_within_request(),
            Err(_) => false,
        }
    }

    /// Begins a turn of the connection, in which nothing has been asked for yet.
    pub(crate) fn begin_turn(&self) {
        if let Ok(mut socket) = self.socket.try_borrow_mut() {
            socket.stand.begin_turn();
        }
    }

    /// Publishes the connection's state at the end of a turn, after which a request is parked, or the rest
    /// of its response, or neither.
    pub(crate) fn end_turn(&self, pulse: &Pulse, is_parked: bool) {
        if let Ok(mut socket) = self.socket.try_borrow_mut() {
            socket.stand.note_parked(is_parked);
            pulse.tell(socket.stand.told());
        }
    }

    /// Publishes that the connection waits for its peer's end.
    pub(crate) fn await_end(&self, pulse: &Pulse) {
        if let Ok(socket) = self.socket.try_borrow_mut() {
            pulse.tell(socket.stand.told_at_end());
        }
    }
}

impl AsyncRead for Wire {
    ghost use Rattle.std.specs.Prelude.{⊤};
    ghost use Rattle.http_connection.specs.Wires.{Gives, Gives_in_order, Gives_nothing};

    ghost reads = { Gives };

    ghost is_at_end = { λ _. ⊤ };

    ghost reads_nothing = { Gives_nothing };

    ghost reads_in_order = { Gives_in_order };

    fn poll_read(&mut self, cx: &mut Context<'_>, buf: &mut [u8]) -> Poll<io::Result<usize>> {
        let Ok(mut socket) = self.holder.socket.try_borrow_mut() else {
            return cx.yield_now();
        };
        let polled = socket.poll_read(cx, buf);
        if let Poll::Ready(Ok(count)) = &polled {
            self.given.note(&buf[..*count]);
        }
        polled
    }
}

impl AsyncWrite for Wire {
    ghost use Rattle.socket_loop.specs.Halves.{name_of};
    ghost use Rattle.http_connection.specs.Wires.{Takes, Takes_in_order, Takes_nothing};

    ghost needs = { λ wire source. source ≡ name_of wire.writer };

    ghost writes = { Takes };

    ghost writes_nothing = { Takes_nothing };

    ghost writes_in_order = { Takes_in_order };

    fn poll_write(&mut self, cx: &mut Context<'_>, buf: &[u8]) -> Poll<io::Result<usize>> {
        self.writer.poll_write(cx, buf)
    }

    fn poll_flush(&mut self, cx: &mut Context<'_>) -> Poll<io::Result<()>> {
        self.writer.poll_flush(cx)
    }

    fn poll_shutdown(&mut self, cx: &mut Context<'_>) -> Poll<io::Result<()>> {
        self.writer.poll_shutdown(cx)
    }
}
