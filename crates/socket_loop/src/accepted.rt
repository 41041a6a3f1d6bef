//! A socket that was accepted.

ghost use Rattle.std.specs.Prelude.{◌≡◌};
ghost use Rattle.socket_loop.specs.Halves.{name_of_accepted, name_of_unused};

use crate::unused::Unused;
use futures::task::Source;
use mio::net::TcpStream;
use std::io;

/// A socket that was accepted, over which nothing has passed. Nothing reads from it or writes to it
/// before a [`SocketLoop`](crate::SocketLoop) watches it. Contracts know it by its name.
#[derive(Drop)]
pub struct Accepted {
    pub(crate) socket: TcpStream,
    // What its writes wait for, and by that its name.
    pub(crate) event: Source,
}

impl Accepted {
    /// Takes a socket that does not block, over which nothing has passed.
    pub fn new(socket: TcpStream) -> Accepted {
        Accepted {
            socket,
            event: Source::new(),
        }
    }

    /// Closes the socket, for this reason.
    pub fn close(self, fault: io::Error) -> Unused
        ensures { name_of_unused result ≡ name_of_accepted self }
    {
        let Accepted { event, .. } = self;
        Unused { fault, event }
    }
}
