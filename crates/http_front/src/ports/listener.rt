//! A port that is listened on, and the connections that are accepted there.

ghost use Rattle.std.specs.Prelude.{◌≡◌, false, IfOk};

use crate::Port;
use crate::ports::ServedPort;
use account_lock::Identity;
use mio::net::TcpListener;
use socket_loop::Accepted;
use std::io;

/// The listening socket of a port, and whether connections may wait there to be accepted. The system
/// reports that once, so this is kept until none is found to wait.
#[derive(Drop)]
pub(crate) struct Listener<S: Identity> {
    socket: TcpListener,
    served: ServedPort<S>,
    pub(crate) is_waited_at: bool,
}

/// The socket of a connection, and the port of the listener that accepted it. Nothing else makes one,
/// so that no socket gets the port of another listener.
#[derive(Drop)]
pub(crate) struct AcceptedSocket<S: Identity> {
    socket: Accepted,
    served: ServedPort<S>,
}

impl<S: Identity> Listener<S> {
    /// Makes the listener of a port by its listening socket. No connection was seen there yet.
    pub(crate) fn new(socket: TcpListener, served: ServedPort<S>) -> Listener<S>
        ensures { (result.served ≡ served) × (result.is_waited_at ≡ false) }
    {
        Listener {
            socket,
            served,
            is_waited_at: false,
        }
    }

    /// Accepts the next connection.
    ///
    /// # Errors
    /// `WouldBlock` if no connection waits; `OutOfMemory` without an error number of the system if the
    /// port cannot be shared, and the connection is then closed; otherwise that of accepting.
    pub(crate) fn accept(&self) -> io::Result<AcceptedSocket<S>>
        ensures { IfOk result (λ accepted. accepted.served ≡ self.now.served) }
    {
        let (socket, _) = self.socket.accept()?;
        let served = self.served.share()?;
        Ok(AcceptedSocket {
            socket: Accepted::new(socket),
            served,
        })
    }

    /// Accepts the next connection, if there is one, and closes it.
    pub(crate) fn turn_away(&self) {
        let _ = self.socket.accept();
    }
}

impl<S: Identity> AcceptedSocket<S> {
    /// Returns whose port it is.
    pub(crate) fn port(&self) -> Port
        ensures { result ≡ self.now.served.port }
    {
        self.served.port()
    }

    /// Returns the socket and the port.
    pub(crate) fn into_parts(self) -> (Accepted, ServedPort<S>)
        ensures { (result.0 ≡ self.socket) × (result.1 ≡ self.served) }
    {
        let AcceptedSocket { socket, served } = self;
        (socket, served)
    }
}
