//! The loop.

ghost use Rattle.std.specs.Prelude.{◌≡◌, [], IfErr, IfOk};
ghost use Rattle.futures.specs.Poll.{IfReady, OnPending};

use crate::accepted::Accepted;
use crate::counter::open_counter;
use crate::reader::Reader;
use crate::ready::Ready;
use crate::unused::Unused;
use crate::writer::Writer;
use futures::Future;
use futures::task::{Doorbell, Poll, Solo};
use mio::net::TcpStream;
use mio::unix::SourceFd;
use mio::{Events, Interest, Token};
use std::alloc::AllocGlobal;
use std::io;
use std::net::Net;
use std::os::fd::AsRawFd;
use std::random::RandomSource;
use std::rc::Rc;
use std::sync::Wait;
use std::time::Duration;

/// How many events one wait collects: the socket's and the counter's.
const EVENTS: usize = 2;

const OF_SOCKET: Token = Token(0);

const OF_COUNTER: Token = Token(1);

/// An event loop for one future over one socket. The future runs on the thread that calls
/// `block_on`, which sleeps until the socket is ready or another thread wakes the future. There are
/// no timers. It takes two descriptors and less than a KiB.
#[derive(Drop)]
pub struct SocketLoop {
    poll: mio::Poll,
    events: Events,
    task: Solo,
    // What is known of the socket that is watched.
    ready: Rc<Ready>,
}

/// A future that is not ready yet, and why its loop has stopped.
#[derive(Drop)]
pub struct Interrupted<F> {
    pub fault: io::Error,
    pub future: F,
}

impl SocketLoop {
    ghost use Rattle.socket_loop.specs.Halves.{name_of, name_of_accepted, name_of_unused, taken_by};

    /// Opens a loop that watches no socket yet.
    ///
    /// # Errors
    /// If an allocation fails, or the machine refuses a descriptor or its randomness.
    pub fn open<R: Net + RandomSource + AllocGlobal>(rt: &R) -> io::Result<SocketLoop> {
        let poll = mio::Poll::new(rt)?;
        let counter = open_counter()?;
        let number = counter.as_raw_fd();
        poll.registry()
            .register(&mut SourceFd(&number), OF_COUNTER, Interest::READABLE)?;
        Ok(SocketLoop {
            poll,
            events: Events::with_capacity(rt.alloc(), EVENTS)?,
            task: Solo::new(rt, Doorbell::from_event_fd(counter))?,
            ready: Rc::new(rt.alloc(), Ready::new())?,
        })
    }

    /// Watches a socket in place of the one before, and makes its halves. What a half from before
    /// waits for may then never come, so it has to be dropped first. What is written is sent at once.
    ///
    /// # Errors
    /// If an allocation fails, or the machine refuses to watch the socket, which is then closed. The
    /// loop can be used as before.
    pub fn watch<R: AllocGlobal>(
        &mut self,
        rt: &R,
        accepted: Accepted,
    ) -> Result<(Reader, Writer), Unused>
        ensures nothing { IfOk result (λ halves. taken_by halves.1 ≡ []) }
        ensures name { IfOk result (λ halves. name_of halves.1 ≡ name_of_accepted accepted) }
        ensures unused { IfErr result (λ unused. name_of_unused unused ≡ name_of_accepted accepted) }
    {
        let Accepted { socket, event } = accepted;
        match self.register(rt, socket) {
            Ok((reader, socket, ready)) => Ok((reader, Writer::new(socket, ready, event))),
            Err(fault) => Err(Unused { fault, event }),
        }
    }

    /// Watches this stream in place of the one before, and makes the half that reads.
    fn register<R: AllocGlobal>(
        &mut self,
        rt: &R,
        mut socket: TcpStream,
    ) -> io::Result<(Reader, Rc<TcpStream>, Rc<Ready>)> {
        socket.set_nodelay(true)?;
        let both = Interest::READABLE | Interest::WRITABLE;
        self.poll.registry().register(&mut socket, OF_SOCKET, both)?;
        let socket = Rc::new(rt.alloc(), socket)?;
        let ready = Rc::new(rt.alloc(), Ready::new())?;
        self.ready = ready.clone()?;
        let reader = Reader::new(socket.clone()?, ready.clone()?);
        Ok((reader, socket, ready))
    }

    /// Polls a future until it is ready, and returns what it gives.
    ///
    /// # Errors
    /// If the machine refuses the wait for events. The future can then be polled again.
    pub fn block_on<R: Wait, F: Future>(
        &mut self,
        rt: &R,
        mut future: F,
    ) -> Result<F::Output, Interrupted<F>>
        requires { F.can_poll future }
        ensures given { IfOk result (F.gives future) }
        ensures left { IfErr result (λ left. F.can_poll left.future
            × ((x : _) → F.gives left.future x → F.gives future x)) }
    {
        for _ in rt.forever() {
            if let Poll::Ready(output) = self.poll_once(&mut future) {
                return Ok(output);
            }
            if let Err(fault) = self.wait() {
                return Err(Interrupted { fault, future });
            }
        }
        unreachable!()
    }

    /// Polls the future once. If it is ready, the loop's task is left woken for the next future.
    fn poll_once<F: Future>(&self, future: &mut F) -> Poll<F::Output>
        requires { F.can_poll future.old }
        ensures value { IfReady result (F.gives future.old) }
        ensures again { OnPending result (F.can_poll future.new) }
        ensures same { OnPending result ((x : _) → F.gives future.new x → F.gives future.old x) }
    {
        let mut cx = self.task.begin();
        let polled = future.poll(&mut cx);
        if polled.is_ready() {
            let _: Poll<()> = cx.yield_now();
        }
        cx.park();
        polled
    }

    /// Sleeps until an event comes, or only collects those that are there if the future was woken
    /// since its poll began.
    fn wait(&mut self) -> io::Result<()> {
        match self.task.sleep() {
            Some(asleep) => {
                let waited = self.poll.poll(&mut self.events, None);
                asleep.end();
                waited?;
            }
            None => self.poll.poll(&mut self.events, Some(Duration::ZERO))?,
        }
        for event in &self.events {
            if event.token() == OF_SOCKET {
                self.ready.note(event);
            }
        }
        Ok(())
    }
}
