//! A connection that is served in turns, and can be taken apart between two of them.

ghost use Rattle.std.specs.Prelude.{IfSome};
ghost use Rattle.futures.specs.Poll.{IfReady, OnPending};
ghost use Rattle.futures.specs.Task.{IsArmed, Keeps};

use bytes::Bytes;
use futures::task::{Context, Poll};
use http::{Request, Response};
use http_body::Body;
use hyper::body::Incoming;
use hyper::rt::Timer;
use hyper::server::conn::http1::{Connection, Parts};
use hyper::service::Service;
use tokio::io::{AsyncRead, AsyncWrite};

/// A connection that is served in turns, and can be taken apart between two of them.
pub(crate) trait Turns: Drop {
    ghost use Rattle.std.specs.Prelude.{Option, Result};
    ghost use Rattle.hyper.specs.declared.error.Error.{Error};

    type Io;

    /// Holds between two turns.
    ghost runs: { Self → Type 0 };

    /// The connection has ended by itself with this outcome.
    ghost ends: { Self → Result (Unit {0}) Error → Type 0 };

    /// The connection may come to this: it is taken apart, and this is its IO. There is an outcome
    /// if it has ended by itself.
    ghost leaves: { Self → Option (Result (Unit {0}) Error) → Self.Io → Type 0 };

    /// Serves until there is nothing to do. Is ready once the connection has ended by itself.
    fn turn(&mut self, cx: &mut Context<'_>) -> Poll<hyper::Result<()>>
        requires { runs self.old }
        ensures runs { runs self.new }
        ensures same { (o : _) (io : _) → leaves self.new o io → leaves self.old o io }
        ensures ends { IfReady result (ends self.new) }
        ensures registered { OnPending result (IsArmed cx.new) }
        ensures kept { Keeps cx.old cx.new };

    /// Ends the connection after the exchange that has begun, if there is one.
    fn finish(&mut self)
        requires { runs self.old }
        ensures runs { runs self.new }
        ensures same { (o : _) (io : _) → leaves self.new o io → leaves self.old o io };

    /// Takes the connection apart.
    fn into_io(self) -> Self::Io
        requires { runs self }
        ensures { (o : _) → IfSome o (ends self) → leaves self o result };
}

impl<I, V, B, T> Turns for Connection<I, V, B, T>
where
    I: AsyncRead + AsyncWrite,
    V: Service<Request<Incoming<I>>, Response = Response<B>>,
    V::Error: Into<anyhow::Error>,
    B: Body,
    B::Data: Into<Bytes>,
    B::Error: Into<anyhow::Error>,
    T: Timer,
{
    ghost use Rattle.hyper.specs.ServerDispatch.{Runs};
    ghost use Rattle.hyper.specs.ServerLink.{EndsWith};
    ghost use Rattle.http_connection.specs.Leaves.{Leaves};

    type Io = I;

    ghost runs = { λ c. Runs I.AsyncRead I.AsyncWrite V.Service V.Future.Future B.Body B.Data.Into c.conn };

    ghost ends = { λ c. EndsWith c.conn.link };

    ghost leaves = { λ c. Leaves I.AsyncRead I.AsyncWrite V.Service V.Future.Future B.Body B.Data.Into c.conn };

    fn turn(&mut self, cx: &mut Context<'_>) -> Poll<hyper::Result<()>> {
        self.poll_without_shutdown(cx)
    }

    fn finish(&mut self) {
        self.graceful_shutdown();
    }

    fn into_io(self) -> I {
        let Parts { io, .. } = self.into_parts();
        io
    }
}
