//! The loop that serves connections on one thread, one after the other.

ghost use Rattle.std.specs.Prelude.{◌≡◌, IfErr, IfOk};
ghost use Rattle.hyper.specs.ServerDispatch.{GivesBodies};
ghost use Rattle.socket_loop.specs.Halves.{name_of_accepted, name_of_unused};
ghost use Rattle.http_connection.specs.Wires.{IsFresh, name_of};
ghost use Rattle.http_connection.specs.Written.{Gave, Written, outcome_of};

use crate::ending::{Ending, Watched};
use crate::input::KEPT;
use crate::noting::{Noting, Pace};
use crate::park::Park;
use crate::turns::Turns;
use crate::wire::{Holder, Wire};
use bytes::Bytes;
use connection_state::{Pulse, Signals};
use http::{Request, Response};
use http_body::Body;
use hyper::body::Incoming;
use hyper::server::conn::http1::Builder;
use hyper::service::Service;
use service_port::Port;
use socket_loop::{Accepted, Interrupted, SocketLoop, Unused};
use std::alloc::{AllocError, AllocGlobal};
use std::hash::RandomState;
use std::io;
use std::net::Net;
use std::random::RandomSource;
use std::sync::{Arc, Wait};
use std::time::Clock;

/// The event loop of a thread, and the settings of connections. A thread opens it once and serves
/// all its connections with it, since opening it takes more system calls than a short connection.
#[derive(Drop)]
pub struct EventLoop {
    socket_loop: SocketLoop,
    http: Builder,
}

/// A connection's socket, with the holders of its service and of the watch for the peer's end.
#[derive(Drop)]
pub struct Ends {
    wire: Wire,
    noting: Holder,
    peer: Holder,
}

/// What became of a connection: its IO, and its outcome if it ended by itself.
#[derive(Drop)]
pub struct Ended<I> {
    pub io: I,
    /// An error if the connection could not be served, or the machine refused the wait for events.
    pub outcome: io::Result<Option<hyper::Result<()>>>,
}

impl EventLoop {
    /// Opens an event loop for the connections of the present thread.
    ///
    /// # Errors
    /// If an allocation fails, or the machine refuses a descriptor or its randomness.
    pub fn open<R: Net + RandomSource + AllocGlobal>(rt: &R) -> io::Result<EventLoop> {
        let keys = RandomState::new(rt)?;
        let socket_loop = SocketLoop::open(rt)?;
        let mut http = Builder::new(rt.alloc(), keys);
        // After a half-close, for example by `nc -N`, the caller still gets its answer.
        http.half_close(true);
        // It has no clock, so it adds no `date`; otherwise it looks for one in each response.
        http.auto_date_header(false);
        // Of a body that is streamed to a peer that does not read, less than this is kept, and the piece behind it.
        http.max_buf_size(KEPT);
        Ok(EventLoop { socket_loop, http })
    }

    /// Watches a socket that was accepted.
    ///
    /// # Errors
    /// If the socket cannot be watched, or an allocation fails. The socket is then closed, and nothing
    /// was written to it.
    pub fn watch<R: AllocGlobal>(&mut self, rt: &R, accepted: Accepted) -> Result<Ends, Unused>
        ensures fresh { IfOk result (λ ends. IsFresh ends.wire) }
        ensures name { IfOk result (λ ends. name_of ends.wire ≡ name_of_accepted accepted) }
        ensures unused { IfErr result (λ unused. name_of_unused unused ≡ name_of_accepted accepted) }
    {
        let wire = match Wire::watch(rt, &mut self.socket_loop, accepted) {
            Ok(wire) => wire,
            Err(unused) => return Err(unused),
        };
        match (wire.share(), wire.share()) {
            (Ok(noting), Ok(peer)) => Ok(Ends { wire, noting, peer }),
            _ => Err(wire.give_up()),
        }
    }

    /// Serves the requests of a connection at this port, one after the other, until the
    /// connection ends, a signal ends it, or its peer ends while a request is parked. It blocks its
    /// thread. Returns the socket, and the connection's outcome if it ended by itself. However it
    /// ended, what was written to the socket is what the service gave.
    pub fn serve<R, V, B, O>(
        &mut self,
        rt: &R,
        ends: Ends,
        port: Port,
        service: V,
        signals: Signals,
        open: O,
        pulse: Arc<Pulse>,
    ) -> Ended<Wire>
    where
        R: Wait + Clock + AllocGlobal + Copy + Drop,
        V: Service<Request<Incoming<Wire>>, Response = Response<B>>,
        V::Error: Into<anyhow::Error>,
        B: Body,
        B::Data: Into<Bytes>,
        B::Error: Into<anyhow::Error>,
        O: Park,
        requires fresh { IsFresh ends.wire }
        requires can_call { V.can_call service }
        requires bodies { (request : _) (future : _) → V.calls service request future
            → GivesBodies V.Future.gives B.can_poll future }
        ensures written { Written B.yields B.Data.converts (Gave V.calls V.Future.gives service) result.io
            (outcome_of result.outcome) }
        ensures same { name_of result.io ≡ name_of ends.wire }
    {
        let Ends { wire, noting, peer } = ends;
        let service = Noting {
            service,
            wire: noting,
            pace: Pace {
                rt: *rt,
                is_kept: matches!(port, Port::Environment(_)),
            },
        };
        let conn = self.http.serve_connection(wire, service);
        self.wait_for(rt, conn, signals, peer, open, pulse)
    }

    /// Waits until a connection has ended, and takes it apart. The connection's type is a parameter
    /// here: proofs about `hyper`'s own, nested in the future that is waited for, would be large.
    fn wait_for<R, C, O>(
        &mut self,
        rt: &R,
        conn: C,
        signals: Signals,
        peer: Holder,
        open: O,
        pulse: Arc<Pulse>,
    ) -> Ended<C::Io>
    where
        R: Wait + AllocGlobal,
        C: Turns,
        O: Park,
        requires { C.runs conn }
        ensures { C.leaves conn (outcome_of result.outcome) result.io }
    {
        let ending = match Ending::boxed(rt.alloc(), conn, signals) {
            Ok(ending) => ending,
            Err(conn) => {
                return Ended {
                    io: conn.into_io(),
                    outcome: Err(AllocError.into()),
                };
            }
        };
        match self
            .socket_loop
            .block_on(rt, Watched::new(ending, peer, open, pulse))
        {
            Ok((outcome, io)) => Ended {
                io,
                outcome: Ok(outcome),
            },
            Err(Interrupted { fault, future }) => Ended {
                io: future.into_io(),
                outcome: Err(fault),
            },
        }
    }
}
